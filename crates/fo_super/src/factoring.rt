//! Factoring.

ghost use Rattle.std.specs.Prelude.{List, ℕ, IfOk, MatchOption, length};
ghost use Rattle.std.specs.Prelude.{◌≡◌};
ghost use Rattle.fo_terms.specs.Terms.{Terms};
ghost use Rattle.fo_text.specs.declared.problem.FoClause.{FoClause};
ghost use Rattle.fo_text.specs.declared.answer.FoStep.TheVariants.{Factor};
ghost use Rattle.fo_replay.specs.Replays.{Replays};
ghost use Rattle.fo_replay.specs.Instances.{as_terms};
ghost use Rattle.fo_super.specs.Conclusions.{constraint_place, turn, IsFactoring};
ghost use Rattle.fo_super.specs.Laws.{AreSorted};
ghost use Rattle.fo_super.specs.Working.{IsWorked};

use crate::conditions::{is_leading_under, is_side_open};
use crate::resolving::{FoResolved, is_light, literal_at, resolved_alone};
use fo_replay::drop::factored;
use fo_text::answer::FoSide;
use fo_text::problem::{FoClause, FoSym};
use std::alloc::{AllocError, Global};

/// The side at which a second literal is turned to the first.
fn turned(side: FoSide, other: FoSide) -> FoSide
    ensures { result ≡ turn side other }
{
    match side {
        FoSide::Left => match other {
            FoSide::Left => FoSide::Left,
            FoSide::Right => FoSide::Right,
        },
        FoSide::Right => match other {
            FoSide::Left => FoSide::Right,
            FoSide::Right => FoSide::Left,
        },
    }
}

/// The place of the literal that says that the unified sides are one, behind so many literals.
fn constraint_behind(side: FoSide, count: usize) -> Result<u32, AllocError>
    ensures { IfOk result (λ n. n ≡ constraint_place side count) }
{
    if count > 0xffff_ffff {
        return Err(AllocError);
    }
    match side {
        FoSide::Left => Ok((count as u32).saturating_sub(1)),
        FoSide::Right => Ok(count as u32),
    }
}

/// The clause of a line that factors, if it is within the limits of a line.
fn line(
    alloc: Global,
    syms: &[FoSym],
    clauses: &[FoClause],
    number: u32,
    first: u32,
    second: u32,
    side: FoSide,
) -> Result<Option<FoClause>, AllocError>
    ensures { IfOk result (λ o. MatchOption o ((sorts : ℕ) (c : FoClause) → Replays sorts syms.now clauses.now (Factor number first second side) c → ⊥) (λ c. (sorts : ℕ) → Replays sorts syms.now clauses.now (Factor number first second side) c)) }
{
    let Some(made) = factored(alloc, syms, clauses, number, first, second, side)? else {
        return Ok(None);
    };
    if !is_light(&made) {
        return Ok(None);
    }
    Ok(Some(made))
}

/// That clause, resolved on a literal.
fn worked(
    alloc: Global,
    sorts: u32,
    syms: &[FoSym],
    clauses: &[FoClause],
    number: u32,
    first: u32,
    second: u32,
    side: FoSide,
    place: u32,
) -> Result<Option<FoResolved>, AllocError>
    requires { AreSorted syms.now clauses.now number }
    ensures { IfOk result (λ o. MatchOption o ((vars : List ℕ) (terms : Terms) (i d : FoClause) → IsWorked sorts syms.now clauses.now (Factor number first second side) place vars terms i d → ⊥) (λ r. IsWorked sorts syms.now clauses.now (Factor number first second side) place r.instance.vars (as_terms r.terms) r.instance r.conclusion)) }
{
    let Some(made) = line(alloc, syms, clauses, number, first, second, side)? else {
        return Ok(None);
    };
    let found = resolved_alone(alloc, sorts, syms, &made, place)?;
    Ok(found)
}

/// Factoring of two literals of a clause, at a side of each: None where it is not due, since there are
/// no two such literals, or the first is not positive, not maximal or has this side below the other
/// under the most general unifier of both sides, or there is none, or since a line for it would be past
/// the limits of 1,000 literals and 100,000 variables and symbols.
///
/// # Errors
///
/// Want of memory, as in [`resolved`](crate::resolving::resolved).
pub fn factoring(
    alloc: Global,
    sorts: u32,
    syms: &[FoSym],
    clauses: &[FoClause],
    number: u32,
    first: u32,
    first_side: FoSide,
    second: u32,
    second_side: FoSide,
) -> Result<Option<FoResolved>, AllocError>
    requires { AreSorted syms.now clauses.now number }
    ensures { IfOk result (λ o. MatchOption o ((vars : List ℕ) (terms : Terms) (i d : FoClause) → IsFactoring sorts syms.now clauses.now number first first_side second second_side vars terms i d → ⊥) (λ r. IsFactoring sorts syms.now clauses.now number first first_side second second_side r.instance.vars (as_terms r.terms) r.instance r.conclusion)) }
{
    let Some((clause, literal)) = literal_at(clauses, number, first) else {
        return Ok(None);
    };
    if !literal.pos {
        return Ok(None);
    }
    if !is_side_open(first_side, literal) {
        return Ok(None);
    }
    let side = turned(first_side, second_side);
    let place = constraint_behind(first_side, clause.lits.len())?;
    let found = worked(
        alloc, sorts, syms, clauses, number, first, second, side, place,
    )?;
    let Some(found) = found else {
        return Ok(None);
    };
    let terms = found.terms.as_slice();
    if !is_leading_under(alloc, terms, clause.lits.as_slice(), first_side, literal)? {
        return Ok(None);
    }
    Ok(Some(found))
}
