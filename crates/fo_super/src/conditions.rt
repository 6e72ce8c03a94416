//! The order conditions of members.

ghost use Rattle.std.specs.Prelude.{◌≡◌, IfOk};
ghost use Rattle.std.specs.Bool.{Decides};
ghost use Rattle.fo_replay.specs.Replays.{images, near as near_side, far as far_side};
ghost use Rattle.fo_replay.specs.Instances.{as_terms};
ghost use Rattle.fo_super.specs.Conclusions.{IsMaximalUnder, IsNotBelow, IsSideUnder};
ghost use Rattle.fo_super.specs.Working.{IsLeadingInto, IsLeadingUnder};

use crate::applying::{applied, applied_literal_of, applied_literals};
use crate::literals::is_maximal;
use crate::terms::{is_greater_term, is_same_term};
use fo_replay::para::moved_literals;
use fo_terms::term::FoTerm;
use fo_text::answer::FoSide;
use fo_text::problem::{FoClause, FoLit};
use std::alloc::{AllocError, Global};

/// Whether a term is neither less than another nor equal to it.
pub fn is_not_below(term: &FoTerm, other: &FoTerm) -> bool
    ensures { Decides result (IsNotBelow term.now other.now) }
{
    if is_same_term(term, other) {
        return false;
    }
    !is_greater_term(other, term)
}

/// This side of a literal.
pub(crate) fn near(side: FoSide, literal: &FoLit) -> &FoTerm
    ensures { result.now ≡ near_side side literal.now }
{
    match side {
        FoSide::Left => &literal.left,
        FoSide::Right => &literal.right,
    }
}

/// The other side of a literal.
pub(crate) fn far(side: FoSide, literal: &FoLit) -> &FoTerm
    ensures { result.now ≡ far_side side literal.now }
{
    match side {
        FoSide::Left => &literal.right,
        FoSide::Right => &literal.left,
    }
}

/// Whether a side of a literal is not below the other side, once terms stand for the variables. The
/// only error is want of memory.
pub fn is_side_under(
    alloc: Global,
    terms: &[FoTerm],
    side: FoSide,
    literal: &FoLit,
) -> Result<bool, AllocError>
    ensures { IfOk result (λ b. Decides b (IsSideUnder (images (as_terms terms.now)) side literal.now)) }
{
    let one = applied(alloc, terms, near(side, literal))?;
    let other = applied(alloc, terms, far(side, literal))?;
    Ok(is_not_below(&one, &other))
}

/// Whether a literal is maximal among some, once terms stand for the variables. The only error is want
/// of memory.
pub fn is_maximal_under(
    alloc: Global,
    terms: &[FoTerm],
    literals: &[FoLit],
    literal: &FoLit,
) -> Result<bool, AllocError>
    ensures { IfOk result (λ b. Decides b (IsMaximalUnder (images (as_terms terms.now)) literals.now literal.now)) }
{
    let instances = applied_literals(alloc, terms, literals)?;
    let instance = applied_literal_of(alloc, terms, literal)?;
    Ok(is_maximal(instances.as_slice(), &instance))
}

/// Whether this side of a literal is not below the other side as it stands. Where it is, it stays so
/// whatever terms stand for the variables.
pub(crate) fn is_side_open(side: FoSide, literal: &FoLit) -> bool
    ensures { Decides result (IsNotBelow (near_side side literal.now) (far_side side literal.now)) }
{
    is_not_below(near(side, literal), far(side, literal))
}

/// Whether a literal is maximal among some, and this side of it is not below the other one, once terms
/// stand for the variables.
pub(crate) fn is_leading_under(
    alloc: Global,
    terms: &[FoTerm],
    literals: &[FoLit],
    side: FoSide,
    literal: &FoLit,
) -> Result<bool, AllocError>
    ensures { IfOk result (λ b. Decides b (IsLeadingUnder (images (as_terms terms.now)) literals.now side literal.now)) }
{
    if !is_side_under(alloc, terms, side, literal)? {
        return Ok(false);
    }
    let is_maximal = is_maximal_under(alloc, terms, literals, literal)?;
    Ok(is_maximal)
}

/// The same of the literal at a place of a clause, whose variables are numbered after so many others.
pub(crate) fn is_leading_into(
    alloc: Global,
    terms: &[FoTerm],
    count: u32,
    receiver: &FoClause,
    place: u32,
    side: FoSide,
) -> Result<bool, AllocError>
    ensures { IfOk result (λ b. Decides b (IsLeadingInto (images (as_terms terms.now)) count receiver.now place side)) }
{
    let literals = moved_literals(alloc, receiver, count)?;
    let Some(literal) = literals.get(place as usize) else {
        return Ok(false);
    };
    let is_leading = is_leading_under(alloc, terms, literals.as_slice(), side, literal)?;
    Ok(is_leading)
}
