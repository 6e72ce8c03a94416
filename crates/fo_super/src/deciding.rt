//! The outcome of a clause.

ghost use Rattle.std.specs.Prelude.{◌≡◌, ◌<◌, ◌≤◌, ◌⊎◌, ℕ, Some, bit_and, length, map, slice_get, IfOk, MatchOption};
ghost use Rattle.std.specs.Bool.{Decides};
ghost use Rattle.fo_super.specs.Subsumption.{Subsumes};
ghost use Rattle.fo_super.specs.Marks.{mask as mask_of};
ghost use Rattle.fo_super.specs.Notes.{clause_mask, AreNotes};
ghost use Rattle.fo_super.specs.Outcomes.{HoldsOfNone, IsHeavy, IsIdentical, IsLeast, LacksRoom, OutcomeOf};

use crate::identity::is_identical;
use crate::marking::mask;
use crate::notes::FoNotes;
use crate::outcomes::FoOutcome;
use crate::subsuming::subsumes;
use crate::tautologies::is_tautology;
use crate::weights::is_heavier;
use fo_text::problem::{FoClause, FoSym};
use std::alloc::{AllocError, Global};

/// How many literals a kept clause has at most.
const MOST_LITERALS: usize = 64;

/// How many clauses are kept at most.
const MOST_CLAUSES: usize = 100_000;

/// How heavy a clause is at most that a line gives.
const MOST_WEIGHT: u32 = 100_000;

/// Whether a clause has too many literals, or too many clauses are kept.
fn lacks_room(kept: &[FoClause], clause: &FoClause) -> bool
    ensures { Decides result (LacksRoom kept.now clause.now) }
{
    clause.lits.len() > MOST_LITERALS || kept.len() >= MOST_CLAUSES
}

/// Whether a clause weighs more than the limit, or the instance of which it is a part could not be
/// replayed.
fn is_heavy(clause: &FoClause, limit: u32, instance: &FoClause) -> bool
    ensures { Decides result (IsHeavy limit instance.now clause.now) }
{
    if is_heavier(instance.lits.as_slice(), MOST_WEIGHT) {
        return true;
    }
    is_heavier(clause.lits.as_slice(), limit)
}

/// The first number from one on whose mask is this one; how many masks there are where none is.
fn next_equal(masks: &[u64], mask: u64, from: usize) -> usize
    requires { from ≤ length masks.now }
    ensures from { from ≤ result }
    ensures within { result ≤ length masks.now }
    ensures passed { (i : ℕ) → from ≤ i → i < result → slice_get masks.now i ≡ Some mask → ⊥ }
{
    for number in from..masks.len() {
        if masks[number] == mask {
            return number;
        }
    }
    masks.len()
}

/// The least number of a kept clause that is the same. It has the same mask.
fn copied(kept: &[FoClause], masks: &[u64], clause: &FoClause, mask: u64) -> Option<u32>
    requires few { length kept.now < 100000 }
    requires masks { masks.now ≡ map clause_mask kept.now }
    requires mask { mask ≡ mask_of clause.now.lits }
    ensures { MatchOption result (HoldsOfNone (λ k. IsIdentical k clause.now) kept.now) (IsLeast (λ k. IsIdentical k clause.now) kept.now) }
{
    let mut number = next_equal(masks, mask, 0);
    while number < kept.len() {
        if is_identical(&kept[number], clause) {
            return Some(number as u32);
        }
        number = next_equal(masks, mask, number + 1);
    }
    None
}

/// The first number from one on whose mask has no bit that is not in this one; how many masks there are
/// where none is.
fn next_within(masks: &[u64], mask: u64, from: usize) -> usize
    requires { from ≤ length masks.now }
    ensures from { from ≤ result }
    ensures within { result ≤ length masks.now }
    ensures passed { (i m : ℕ) → from ≤ i → i < result → slice_get masks.now i ≡ Some m → bit_and m mask ≡ m → ⊥ }
{
    for number in from..masks.len() {
        if masks[number] & mask == masks[number] {
            return number;
        }
    }
    masks.len()
}

/// The least number of a kept clause that subsumes the clause. It has no mark that the clause lacks.
fn subsuming(
    alloc: Global,
    syms: &[FoSym],
    kept: &[FoClause],
    masks: &[u64],
    clause: &FoClause,
    mask: u64,
) -> Result<Option<u32>, AllocError>
    requires few { length kept.now < 100000 }
    requires masks { masks.now ≡ map clause_mask kept.now }
    requires mask { mask ≡ mask_of clause.now.lits }
    ensures { IfOk result (λ o. MatchOption o (HoldsOfNone (λ k. Subsumes syms.now k clause.now) kept.now) (IsLeast (λ k. Subsumes syms.now k clause.now) kept.now)) }
{
    let mut number = next_within(masks, mask, 0);
    while number < kept.len() {
        let found = subsumes(alloc, syms, &kept[number], clause)?;
        if found {
            return Ok(Some(number as u32));
        }
        number = next_within(masks, mask, number + 1);
    }
    Ok(None)
}

/// The first of these that holds of a clause that was found, where `kept` are the kept clauses, `notes`
/// the notes on them, and `instance` is the instance of which it is a part:
///
/// - [`FoOutcome::Tautology`]: a literal is `s = s`; or two are `s = t` and `s != t`, as they are or
///   turned; or two are `A = T` and `A = F`, where T and F are the symbols 0 and 1.
/// - [`FoOutcome::Room`]: it has over 64 literals, or 100,000 clauses are kept.
/// - [`FoOutcome::Heavy`]: it weighs more than `weight`, or the instance more than 100,000.
/// - [`FoOutcome::Copy`]: a kept clause differs at most in variables that stand in no literal; the
///   least number of one.
/// - [`FoOutcome::Subsumed`]: a kept clause of one to three literals has a substitution, which sends
///   variables to terms of their sorts, under which each of its literals, as it is or turned, is one
///   of the clause; the least number of one.
/// - [`FoOutcome::Kept`].
///
/// The only error is want of memory.
pub fn outcome(
    alloc: Global,
    syms: &[FoSym],
    kept: &[FoClause],
    notes: &FoNotes,
    clause: &FoClause,
    weight: u32,
    instance: &FoClause,
) -> Result<FoOutcome, AllocError>
    requires { AreNotes notes.now kept.now }
    ensures { IfOk result (OutcomeOf syms.now kept.now weight instance.now clause.now) }
{
    if is_tautology(clause.lits.as_slice()) {
        return Ok(FoOutcome::Tautology);
    }
    if lacks_room(kept, clause) {
        return Ok(FoOutcome::Room);
    }
    if is_heavy(clause, weight, instance) {
        return Ok(FoOutcome::Heavy);
    }
    let masks = notes.masks.as_slice();
    let mask = mask(alloc, clause.lits.as_slice())?;
    match copied(kept, masks, clause, mask) {
        Some(number) => Ok(FoOutcome::Copy(number)),
        None => match subsuming(alloc, syms, kept, masks, clause, mask)? {
            Some(number) => Ok(FoOutcome::Subsumed(number)),
            None => Ok(FoOutcome::Kept),
        },
    }
}
