//! Superposition.

ghost use Rattle.std.specs.Prelude.{List, ℕ, ◌≡◌, ◌+◌, ◌-◌, IfOk, MatchOption, Some, length, slice_get};
ghost use Rattle.std.specs.Bool.{Decides};
ghost use Rattle.fo_terms.specs.Terms.{Terms};
ghost use Rattle.fo_text.specs.declared.problem.FoClause.{FoClause};
ghost use Rattle.fo_text.specs.declared.problem.FoLit.{FoLit};
ghost use Rattle.fo_text.specs.declared.answer.FoStep.TheVariants.{Para};
ghost use Rattle.fo_replay.specs.Replays.{images, Replays};
ghost use Rattle.fo_replay.specs.Instances.{as_terms};
ghost use Rattle.fo_super.specs.Conclusions.{IsSuperposition};
ghost use Rattle.fo_super.specs.Laws.{AreSorted};
ghost use Rattle.fo_super.specs.Working.{IsLeadingInto, IsLeadingUnder, IsWorked};

use crate::conditions::{is_leading_into, is_leading_under, is_side_open};
use crate::resolving::{FoResolved, is_light, literal_at, resolved_alone, variables_of};
use fo_replay::para::paramodulated;
use fo_terms::term::FoTerm;
use fo_text::answer::FoSide;
use fo_text::problem::{FoClause, FoLit, FoSym};
use std::alloc::{AllocError, Global};

/// The place of the literal that says that the unified terms are one: it comes last.
fn constraint_behind(giver: &FoClause, receiver: &FoClause) -> Result<u32, AllocError>
    ensures { IfOk result (λ n. n ≡ length giver.now.lits - 1 + length receiver.now.lits) }
{
    let given = giver.lits.len();
    let received = receiver.lits.len();
    if given > 0x7fff_ffff || received > 0x7fff_ffff {
        return Err(AllocError);
    }
    Ok((given as u32).saturating_sub(1) + received as u32)
}

/// The clause of a line that paramodulates, if it is within the limits of a line.
fn line(
    alloc: Global,
    syms: &[FoSym],
    clauses: &[FoClause],
    from: u32,
    literal: u32,
    side: FoSide,
    into: u32,
    place: u32,
    place_side: FoSide,
    path: &[u32],
) -> Result<Option<FoClause>, AllocError>
    ensures { IfOk result (λ o. MatchOption o ((sorts : ℕ) (c : FoClause) → Replays sorts syms.now clauses.now (Para from literal side into place place_side path.now) c → ⊥) (λ c. (sorts : ℕ) → Replays sorts syms.now clauses.now (Para from literal side into place place_side path.now) c)) }
{
    let made = paramodulated(
        alloc, syms, clauses, from, literal, side, into, place, place_side, path,
    )?;
    let Some(made) = made else {
        return Ok(None);
    };
    if !is_light(&made) {
        return Ok(None);
    }
    Ok(Some(made))
}

/// That clause, resolved on a literal.
fn worked(
    alloc: Global,
    sorts: u32,
    syms: &[FoSym],
    clauses: &[FoClause],
    from: u32,
    literal: u32,
    side: FoSide,
    into: u32,
    place: u32,
    place_side: FoSide,
    path: &[u32],
    constraint: u32,
) -> Result<Option<FoResolved>, AllocError>
    requires giver { AreSorted syms.now clauses.now from }
    requires receiver { AreSorted syms.now clauses.now into }
    ensures { IfOk result (λ o. MatchOption o ((vars : List ℕ) (terms : Terms) (i d : FoClause) → IsWorked sorts syms.now clauses.now (Para from literal side into place place_side path.now) constraint vars terms i d → ⊥) (λ r. IsWorked sorts syms.now clauses.now (Para from literal side into place place_side path.now) constraint r.instance.vars (as_terms r.terms) r.instance r.conclusion)) }
{
    let made = line(
        alloc, syms, clauses, from, literal, side, into, place, place_side, path,
    )?;
    let Some(made) = made else {
        return Ok(None);
    };
    let found = resolved_alone(alloc, sorts, syms, &made, constraint)?;
    Ok(found)
}

/// Whether both literals are maximal in their clauses, each with its side not below the other one, once
/// terms stand for the variables.
fn are_leading(
    alloc: Global,
    terms: &[FoTerm],
    giver: &FoClause,
    side: FoSide,
    equation: &FoLit,
    receiver: &FoClause,
    place: u32,
    place_side: FoSide,
) -> Result<bool, AllocError>
    ensures { IfOk result (λ b. Decides b (IsLeadingUnder (images (as_terms terms.now)) giver.now.lits side equation.now × IsLeadingInto (images (as_terms terms.now)) (length giver.now.vars) receiver.now place place_side)) }
{
    if !is_leading_under(alloc, terms, giver.lits.as_slice(), side, equation)? {
        return Ok(false);
    }
    let count = variables_of(giver)?;
    let is_leading = is_leading_into(alloc, terms, count, receiver, place, place_side)?;
    Ok(is_leading)
}

/// Superposition from a side of a literal of one clause to the path in a side of a literal of another,
/// whose variables are numbered after those of the first: None where it is not due, since there are no
/// such literals or there is nothing at the path, or since the first literal is not positive, or since
/// under the most general unifier of the side and of the term at the path one of the literals is not
/// maximal in its clause or has its side below the other one, or there is no unifier, or since a line
/// for it would be past the limits of 1,000 literals and 100,000 variables and symbols.
///
/// # Errors
///
/// Want of memory, as in [`resolved`](crate::resolving::resolved).
pub fn superposition(
    alloc: Global,
    sorts: u32,
    syms: &[FoSym],
    clauses: &[FoClause],
    from: u32,
    literal: u32,
    side: FoSide,
    into: u32,
    place: u32,
    place_side: FoSide,
    path: &[u32],
) -> Result<Option<FoResolved>, AllocError>
    requires giver { AreSorted syms.now clauses.now from }
    requires receiver { AreSorted syms.now clauses.now into }
    ensures { IfOk result (λ o. MatchOption o ((vars : List ℕ) (terms : Terms) (i d : FoClause) → IsSuperposition sorts syms.now clauses.now from literal side into place place_side path.now vars terms i d → ⊥) (λ r. IsSuperposition sorts syms.now clauses.now from literal side into place place_side path.now r.instance.vars (as_terms r.terms) r.instance r.conclusion)) }
{
    let Some((giver, equation)) = literal_at(clauses, from, literal) else {
        return Ok(None);
    };
    let Some((receiver, target)) = literal_at(clauses, into, place) else {
        return Ok(None);
    };
    if !equation.pos {
        return Ok(None);
    }
    if !is_side_open(side, equation) {
        return Ok(None);
    }
    if !is_side_open(place_side, target) {
        return Ok(None);
    }
    let constraint = constraint_behind(giver, receiver)?;
    let found = worked(
        alloc, sorts, syms, clauses, from, literal, side, into, place, place_side, path, constraint,
    )?;
    let Some(found) = found else {
        return Ok(None);
    };
    let terms = found.terms.as_slice();
    if !are_leading(
        alloc, terms, giver, side, equation, receiver, place, place_side,
    )? {
        return Ok(None);
    }
    Ok(Some(found))
}
