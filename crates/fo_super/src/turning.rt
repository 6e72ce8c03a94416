//! One turn of the machine.

ghost use Rattle.std.specs.Prelude.{◌≡◌, ◌+◌, ◌<◌, ◌≤◌, ◌^◌, ◌-◌, ◌++◌, ◌∷◌, [], ℕ, suc, List, IfOk, IfErr, MatchOption, OnOk, OnErr, length, map, slice_get, Some, false};
ghost use Rattle.std.specs.List.{AllByRecursion};
ghost use Rattle.fo_text.specs.declared.problem.FoClause.{FoClause};
ghost use Rattle.fo_replay.specs.Replays.{clause_weight};
ghost use Rattle.fo_super.specs.Notes.{AreNotes};
ghost use Rattle.fo_super.specs.Passives.{others_from, without as without_number, IsFirst, IsRisingFrom};
ghost use Rattle.fo_super.specs.Runs.{search_after, search_of, IsGrown, IsState};
ghost use Rattle.fo_super.specs.Turns.{IsGiven, IsTurn};

use crate::state::{FoState, push_numbers, shorten};
use crate::working::work_turn;
use sqlite_items::Items;
use std::alloc::{AllocError, Global};

/// Each turn whose number is a multiple of this is given the passive clause with the least number.
const OLDEST_EVERY: u32 = 5;

/// The weight of the clause at a place of the list of passive clauses.
#[derive(Clone, Copy, Debug)]
struct Weighed {
    place: usize,
    weight: u128,
}

/// The lighter one, and the first where both weigh the same.
fn lighter(first: Weighed, second: Weighed) -> Weighed
    ensures second { second.weight < first.weight → result ≡ second }
    ensures first { first.weight ≤ second.weight → result ≡ first }
{
    if second.weight < first.weight {
        second
    } else {
        first
    }
}

/// The clause at a place of the list of passive clauses, weighed.
fn weighed_at(weights: &[u128], passive: &[u32], place: usize) -> Weighed
    requires place { place < length passive.now }
    requires named { AllByRecursion (λ n. n < length weights.now) passive.now }
    ensures place { result.place ≡ place }
    ensures weight { (clauses : List FoClause) (n : ℕ) (c : FoClause) → weights.now ≡ map clause_weight clauses → slice_get passive.now place ≡ Some n → slice_get clauses n ≡ Some c → result.weight ≡ clause_weight c }
{
    let number = passive[place];
    Weighed {
        place,
        weight: weights[number as usize],
    }
}

/// The place of the lightest of the passive clauses, the first of these.
fn lightest(weights: &[u128], passive: &[u32]) -> usize
    requires some { passive.now ≡ [] → ⊥ }
    requires rising { IsRisingFrom 0 passive.now }
    requires named { AllByRecursion (λ n. n < length weights.now) passive.now }
    ensures inside { result < length passive.now }
    ensures first { (clauses : List FoClause) (g : ℕ) → weights.now ≡ map clause_weight clauses → slice_get passive.now result ≡ Some g → IsFirst false clauses passive.now g }
{
    let mut best = weighed_at(weights, passive, 0);
    for place in 1..passive.len() {
        best = lighter(best, weighed_at(weights, passive, place));
    }
    best.place
}

/// The number of the clause that is given in the next turn.
fn given(state: &FoState) -> u32
    requires state { IsState state.now }
    requires passive { state.now.passive ≡ [] → ⊥ }
    requires turns { state.now.turns < 2 ^ 32 - 1 }
    ensures { (c : FoClause) × IsGiven (search_of state.now) result c }
{
    let passive = state.passive.as_slice();
    if (state.turns + 1) % OLDEST_EVERY == 0 {
        return passive[0];
    }
    let place = lightest(state.notes.weights.as_slice(), passive);
    passive[place]
}

/// Puts a number at the end, unless it is the given one.
fn push_other(number: u32, given: u32, others: &mut Items<u32>) -> Result<(), AllocError>
    ensures { OnOk result (others.new ≡ others.old ++ without_number given (number ∷ [])) }
{
    if number == given {
        return Ok(());
    }
    others.push(number)?;
    Ok(())
}

/// The numbers without one.
fn without(alloc: Global, numbers: &[u32], given: u32) -> Result<Items<u32>, AllocError>
    ensures { IfOk result (λ ns. ns ≡ without_number given numbers.now) }
{
    let mut others = Items::new(alloc);
    for number in numbers {
        push_other(*number, given, &mut others)?;
    }
    Ok(others)
}

/// What is behind a number, if it is the first.
fn behind(numbers: &[u32], number: u32) -> Option<&[u32]>
    ensures { MatchOption result ((ns : List ℕ) → numbers.now ≡ number ∷ ns → ⊥) (λ ns. numbers.now ≡ number ∷ ns.now) }
{
    let (first, others) = numbers.split_first()?;
    if *first == number { Some(others) } else { None }
}

/// Puts a number at the end of the list if it is not the first of those that are passive, and else
/// passes over it there.
fn pass<'a>(number: u32, passive: &'a [u32], list: &mut Items<u32>) -> Result<&'a [u32], AllocError>
    requires { IsRisingFrom number passive.now }
    ensures rising { IfOk result (λ rest. IsRisingFrom (suc number) rest.now) }
    ensures others { IfOk result (λ rest. (k : ℕ) → list.new ++ others_from (suc number) k rest.now ≡ list.old ++ others_from number (suc k) passive.now) }
{
    match behind(passive, number) {
        Some(others) => Ok(others),
        None => {
            list.push(number)?;
            Ok(passive)
        }
    }
}

/// The numbers below the count that are not passive.
fn partners(alloc: Global, count: u32, passive: &[u32]) -> Result<Items<u32>, AllocError>
    requires { IsRisingFrom 0 passive.now }
    ensures { IfOk result (λ ns. ns ≡ others_from 0 count passive.now) }
{
    let mut list = Items::new(alloc);
    let mut rest = passive;
    for number in 0..count {
        rest = pass(number, rest, &mut list)?;
    }
    Ok(list)
}

/// Works the members of a turn. Answers the numbers that are passive then. Where it answers an error,
/// what was added stays.
fn attempt(alloc: Global, state: &mut FoState, given: u32) -> Result<Items<u32>, AllocError>
    requires state { IsState state.old }
    requires given { (c : FoClause) × IsGiven (search_of state.old) given c }
    ensures grown { IsGrown state.old state.new }
    ensures turn { IfOk result (λ ns. IsTurn state.old.problem (search_of state.old) (search_after state.new ns)) }
    ensures noted { IfOk result (λ ns. AreNotes state.new.notes state.new.clauses) }
{
    let count = state.clauses.len() as u32;
    let mut passive = without(alloc, state.passive.as_slice(), given)?;
    let partners = partners(alloc, count, passive.as_slice())?;
    work_turn(
        alloc,
        &state.problem,
        given,
        partners.as_slice(),
        &mut state.clauses,
        &mut state.origins,
        &mut state.notes,
    )?;
    let kept = state.clauses.len() as u32 - count;
    push_numbers(count, kept, &mut passive)?;
    Ok(passive)
}

/// Takes one turn. Of the passive clauses that of least weight, and of these that of least number, or
/// in each fifth turn that of least number, is the given clause, and no longer passive. Its members,
/// alone and with each clause that is not passive, are worked in order: where one is due, its
/// conclusion is kept if that is its outcome. The clauses that were kept are passive then.
///
/// # Errors
///
/// Want of memory, also as [`crate::resolving::resolved`] says. The state is as before then.
pub fn fo_turn(alloc: Global, state: &mut FoState) -> Result<(), AllocError>
    requires state { IsState state.old }
    requires passive { state.old.passive ≡ [] → ⊥ }
    requires turns { state.old.turns < 2 ^ 32 - 1 }
    ensures state { IsState state.new }
    ensures problem { state.new.problem ≡ state.old.problem }
    ensures turn { OnOk result (IsTurn state.old.problem (search_of state.old) (search_of state.new)) }
    ensures err { OnErr result (state.new ≡ state.old) }
{
    let clauses = state.clauses.len();
    let origins = state.origins.len();
    let given = given(state);
    match attempt(alloc, state, given) {
        Ok(passive) => {
            state.passive = passive;
            state.turns += 1;
            Ok(())
        }
        Err(error) => {
            shorten(&mut state.clauses, clauses);
            shorten(&mut state.origins, origins);
            state.notes.cut(clauses);
            Err(error)
        }
    }
}
