//! One turn of a search.

ghost use Rattle.std.specs.Prelude.{ℕ, suc, ◌≡◌, ◌<◌, ◌≤◌, ◌-◌, ◌^◌, ◌%◌, [], length, nat_eq, IfOk, OnErr};
ghost use Rattle.leo_terms.specs.Contents.{Extends};
ghost use Rattle.leo_turn.specs.Growth.{Grows};
ghost use Rattle.leo_turn.specs.Searches.{IsSearch};
ghost use Rattle.leo_turn.specs.Turns.{IsFirst, IsFixed, IsTurn, setting_of, state_of};

use crate::inferring::infer;
use crate::marks::{cut, marked};
use crate::partnering::partners;
use crate::search::Search;
use leo_terms::Bank;
use std::alloc::{AllocError, Global};

/// Each turn whose number is a multiple of this is given the oldest passive clause, and the others the lightest.
const OLDEST_EVERY: u32 = 5;

/// What a turn did.
#[derive(Clone, Copy, Debug, PartialEq, Eq)]
pub struct TurnRecord {
    /// The number of the given clause.
    pub given: u32,
    /// How many clauses were kept.
    pub kept: u32,
}

/// The number of the passive clause that the next turn is given.
fn given(search: &Search) -> u32
    requires passive { search.now.passive ≡ [] → ⊥ }
    requires turns { search.now.turns < 2 ^ 32 - 1 }
    ensures { IsFirst (nat_eq (suc search.now.turns % 5) 0) search.now.passive result }
{
    let oldest = (search.turns + 1) % OLDEST_EVERY == 0;
    match search.passive.peek(oldest) {
        Some(number) => number,
        None => unreachable!(),
    }
}

/// Works all that is inferred from the given clause, and makes it active. Answers how many clauses were kept. Where it
/// answers an error, what was added stays.
fn work(alloc: Global, bank: &mut Bank, search: &mut Search, given: u32) -> Result<u32, AllocError>
    requires search { IsSearch bank.old search.old }
    requires turns { search.old.turns < 2 ^ 32 - 1 }
    requires given { IsFirst (nat_eq (suc search.old.turns % 5) 0) search.old.passive given }
    ensures search { IfOk result (λ _. IsSearch bank.new search.new) }
    ensures turn { IfOk result (λ n. (symbols : ℕ) → symbols ≤ length bank.old.symbols → IsTurn (setting_of symbols search.old) (state_of bank.old search.old) (state_of bank.new search.new) given n) }
    ensures fixed { IfOk result (λ _. IsFixed search.old.hyps search.old.depth search.old.weight search.new) }
    ensures longer { OnErr result (Grows search.old search.new) }
    ensures grows { Extends bank.old bank.new }
{
    bank.is_sound();
    let count = search.kept.clauses().len() as u32;
    let partners = partners(alloc, search.active.as_slice(), given)?;
    infer(alloc, bank, search, given, &partners)?;
    search.active.push(given)?;
    search.passive.remove(given);
    search.turns += 1;
    Ok(search.kept.clauses().len() as u32 - count)
}

/// Takes one turn: of the passive clauses the lightest, or in each fifth turn the oldest, is the given clause; all that is
/// inferred from it, alone and with each active clause and itself in the order of their numbers, is worked: its
/// constraints are solved, and each conclusion is taken in. The given clause is active then.
///
/// # Errors
///
/// Want of memory, also where a term is deeper than [`leo_terms::DEPTH`] levels. The search is as before then.
pub fn turn(alloc: Global, bank: &mut Bank, search: &mut Search) -> Result<TurnRecord, AllocError>
    requires search { IsSearch bank.old search.old }
    requires passive { search.old.passive ≡ [] → ⊥ }
    requires turns { search.old.turns < 2 ^ 32 - 1 }
    ensures search { IsSearch bank.new search.new }
    ensures turn { IfOk result (λ r. (symbols : ℕ) → symbols ≤ length bank.old.symbols → IsTurn (setting_of symbols search.old) (state_of bank.old search.old) (state_of bank.new search.new) r.given r.kept) }
    ensures fixed { IsFixed search.old.hyps search.old.depth search.old.weight search.new }
    ensures err { OnErr result (search.new ≡ search.old) }
    ensures grows { Extends bank.old bank.new }
{
    let before = marked(search);
    let given = given(search);
    match work(alloc, bank, search, given) {
        Ok(kept) => Ok(TurnRecord { given, kept }),
        Err(error) => {
            cut(search, before);
            Err(error)
        }
    }
}
