//! The members of a turn.

ghost use Rattle.std.specs.Prelude.{List, ℕ, IfOk, MatchOption};
ghost use Rattle.fo_terms.specs.Terms.{Terms};
ghost use Rattle.fo_text.specs.declared.problem.FoClause.{FoClause};
ghost use Rattle.fo_replay.specs.Instances.{as_terms};
ghost use Rattle.fo_super.specs.Conclusions.{IsDue, IsResolution};
ghost use Rattle.fo_super.specs.Laws.{AreSorted};
ghost use Rattle.fo_super.specs.Viewing.{member_of, NamesSorted};

use crate::conditions::is_maximal_under;
use crate::factoring::factoring;
use crate::member::FoMember;
use crate::resolving::{FoResolved, literal_at, resolved};
use crate::superposing::superposition;
use fo_text::problem::{FoClause, FoSym};
use std::alloc::{AllocError, Global};

/// Equality resolution on a literal of a clause: None where it is not due, since there is no such
/// literal, or it is positive or not maximal under the most general unifier of its sides, or there is
/// none, or since the instance has more than 1,000 literals or weighs more than 100,000.
///
/// # Errors
///
/// Those of [`resolved`].
pub fn resolution(
    alloc: Global,
    sorts: u32,
    syms: &[FoSym],
    clauses: &[FoClause],
    number: u32,
    place: u32,
) -> Result<Option<FoResolved>, AllocError>
    requires { AreSorted syms.now clauses.now number }
    ensures { IfOk result (λ o. MatchOption o ((vars : List ℕ) (terms : Terms) (i d : FoClause) → IsResolution sorts syms.now clauses.now number place vars terms i d → ⊥) (λ r. IsResolution sorts syms.now clauses.now number place r.instance.vars (as_terms r.terms) r.instance r.conclusion)) }
{
    let Some((clause, literal)) = literal_at(clauses, number, place) else {
        return Ok(None);
    };
    if literal.pos {
        return Ok(None);
    }
    let Some(found) = resolved(alloc, sorts, syms, clauses, number, place)? else {
        return Ok(None);
    };
    let terms = found.terms.as_slice();
    if !is_maximal_under(alloc, terms, clause.lits.as_slice(), literal)? {
        return Ok(None);
    }
    Ok(Some(found))
}

/// What a member gives: None where it is not due.
///
/// # Errors
///
/// Want of memory, as in [`resolved`].
pub(crate) fn due(
    alloc: Global,
    sorts: u32,
    syms: &[FoSym],
    clauses: &[FoClause],
    member: &FoMember,
) -> Result<Option<FoResolved>, AllocError>
    requires { NamesSorted syms.now clauses.now (member_of member.now) }
    ensures { IfOk result (λ o. MatchOption o ((vars : List ℕ) (terms : Terms) (i d : FoClause) → IsDue sorts syms.now clauses.now (member_of member.now) vars terms i d → ⊥) (λ r. IsDue sorts syms.now clauses.now (member_of member.now) r.instance.vars (as_terms r.terms) r.instance r.conclusion)) }
{
    match member {
        FoMember::Resolve { clause, literal } => {
            let found = resolution(alloc, sorts, syms, clauses, *clause, *literal)?;
            Ok(found)
        }
        FoMember::Factor {
            clause,
            first,
            first_side,
            second,
            second_side,
        } => {
            let found = factoring(
                alloc,
                sorts,
                syms,
                clauses,
                *clause,
                *first,
                *first_side,
                *second,
                *second_side,
            )?;
            Ok(found)
        }
        FoMember::Superpose {
            from,
            literal,
            side,
            into,
            place,
            place_side,
            path,
        } => {
            let found = superposition(
                alloc,
                sorts,
                syms,
                clauses,
                *from,
                *literal,
                *side,
                *into,
                *place,
                *place_side,
                path.as_slice(),
            )?;
            Ok(found)
        }
    }
}
