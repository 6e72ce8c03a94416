//! The conclusions of dropping and of factoring.

ghost use Rattle.std.specs.Prelude.{◌≡◌, ◌++◌, ◌∷◌, [], ◌<◌, ◌↔◌, IfOk, IsTrue, MatchOption, length, remove, false};
ghost use Rattle.fo_text.specs.declared.problem.FoClause.{FoClause};
ghost use Rattle.fo_replay.specs.Replays.{near as near_side, far as far_side, differ, HaveOneSort, IsDrop, IsFactor};

use crate::copies::{copies_of, denial, far, literal_at, near, same_term};
use crate::sorts::have_one_sort;
use fo_text::answer::FoSide;
use fo_text::problem::{FoClause, FoLit, FoSym};
use sqlite_items::Items;
use std::alloc::{AllocError, Global};

/// The literals but one.
fn without(alloc: Global, clause: &FoClause, place: u32) -> Result<Items<FoLit>, AllocError>
    requires { place < length clause.now.lits }
    ensures { IfOk result (λ ls. ls ≡ remove clause.now.lits place) }
{
    let mut lits = copies_of(alloc, clause.lits.as_slice())?;
    let _dropped = lits.remove(place as usize);
    Ok(lits)
}

/// Whether a literal denies that a term equals itself.
fn is_absurd(literal: &FoLit) -> bool
    ensures { IsTrue result ↔ ((literal.now.pos ≡ false) × (literal.now.left ≡ literal.now.right)) }
{
    !literal.pos && same_term(&literal.left, &literal.right)
}

/// The conclusion without a literal that is absurd.
pub(crate) fn dropped(
    alloc: Global,
    clauses: &[FoClause],
    parent: u32,
    place: u32,
) -> Result<Option<FoClause>, AllocError>
    ensures { IfOk result (λ o. MatchOption o ((c : FoClause) → IsDrop clauses.now parent place c → ⊥) (IsDrop clauses.now parent place)) }
{
    let Some((clause, literal)) = literal_at(clauses, parent, place) else {
        return Ok(None);
    };
    if !is_absurd(literal) {
        return Ok(None);
    }
    let vars = Items::from_slice(alloc, clause.vars.as_slice())?;
    let lits = without(alloc, clause, place)?;
    Ok(Some(FoClause { vars, lits }))
}

/// The conclusion without the second literal, and with the denials that both are one.
fn factor_of(
    alloc: Global,
    clause: &FoClause,
    one: &FoLit,
    other: &FoLit,
    place: u32,
    side: FoSide,
) -> Result<FoClause, AllocError>
    requires { place < length clause.now.lits }
    ensures { IfOk result (λ c. c ≡ record { vars = clause.now.vars; lits = remove clause.now.lits place ++ differ one.now.left (near_side side other.now) ∷ differ one.now.right (far_side side other.now) ∷ [] }) }
{
    let vars = Items::from_slice(alloc, clause.vars.as_slice())?;
    let mut lits = without(alloc, clause, place)?;
    lits.push(denial(alloc, &one.left, near(side, other))?)?;
    lits.push(denial(alloc, &one.right, far(side, other))?)?;
    Ok(FoClause { vars, lits })
}

/// Whether two literals are of one polarity and sort.
fn are_alike(
    alloc: Global,
    clause: &FoClause,
    syms: &[FoSym],
    one: &FoLit,
    other: &FoLit,
) -> Result<bool, AllocError>
    ensures { IfOk result (λ b. IsTrue b ↔ ((one.now.pos ≡ other.now.pos) × HaveOneSort clause.now.vars syms.now one.now.left other.now.left)) }
{
    if one.pos == other.pos {
        have_one_sort(alloc, clause.vars.as_slice(), syms, &one.left, &other.left)
    } else {
        Ok(false)
    }
}

/// The conclusion of factoring, however heavy it is: None where there is none.
///
/// # Errors
///
/// Want of memory.
pub fn factored(
    alloc: Global,
    syms: &[FoSym],
    clauses: &[FoClause],
    parent: u32,
    first: u32,
    second: u32,
    side: FoSide,
) -> Result<Option<FoClause>, AllocError>
    ensures { IfOk result (λ o. MatchOption o ((c : FoClause) → IsFactor syms.now clauses.now parent first second side c → ⊥) (IsFactor syms.now clauses.now parent first second side)) }
{
    let Some((clause, one)) = literal_at(clauses, parent, first) else {
        return Ok(None);
    };
    let Some((_clause, other)) = literal_at(clauses, parent, second) else {
        return Ok(None);
    };
    if first == second || !are_alike(alloc, clause, syms, one, other)? {
        return Ok(None);
    }
    let conclusion = factor_of(alloc, clause, one, other, second, side)?;
    Ok(Some(conclusion))
}
