//! The outcome of a clause.

ghost use Rattle.std.specs.Prelude.{◌≡◌, ◌<◌, ◌≤◌, ◌⊎◌, length, map, IfOk, MatchOption};
ghost use Rattle.std.specs.Bool.{Decides};
ghost use Rattle.leo_clause.specs.Trees.{clause_at};
ghost use Rattle.leo_clause.specs.Typed.{IsTypedIn};
ghost use Rattle.leo_keep.specs.Fronts.{AreFronts};
ghost use Rattle.leo_keep.specs.Outcomes.{AreTypedIn, IsHeavy, LacksRoom, OutcomeOf};

use crate::groups::Fronts;
use crate::kept::Kept;
use crate::outcomes::Outcome;
use crate::searching::{copied, subsuming};
use crate::tautologies::is_tautology;
use leo_clause::{Clause, weight as clause_weight};
use leo_terms::Bank;
use std::alloc::{AllocError, Global};

/// How many literals a kept clause has at most.
const MOST_LITERALS: usize = 64;

/// How many clauses are kept at most.
const MOST_CLAUSES: usize = 200_000;

/// Whether a clause has too many literals, or too many clauses are kept.
fn lacks_room(kept: &[Clause], c: &Clause) -> bool
    ensures { Decides result ((64 < length c.now.lits) ⊎ (200000 ≤ length kept.now)) }
{
    c.lits.len() > MOST_LITERALS || kept.len() >= MOST_CLAUSES
}

/// Whether a clause weighs more than the limit, if there is one.
fn is_heavy(bank: &Bank, c: &Clause, limit: Option<u16>) -> bool
    requires { IsTypedIn bank.now c.now }
    ensures { Decides result (IsHeavy limit (clause_at bank.now c.now)) }
{
    match limit {
        Some(limit) => clause_weight(bank, c) > u64::from(limit),
        None => false,
    }
}

/// The first of these that holds of a clause that was found, where `kept` are the kept clauses, `fronts` their fronts
/// ([`front_of`](crate::front_of)), one for each, and all sides are in normal form:
///
/// - [`Outcome::Tautology`]: a literal is `s = s`; or two are `s = t` and `s != t`, as they are or turned; or two are
///   `A = T` and `A = F`.
/// - [`Outcome::Room`]: it has over 64 literals, or 200,000 clauses are kept.
/// - [`Outcome::Heavy`]: it weighs more than `weight`, if that is given.
/// - [`Outcome::Copy`]: a kept clause is the same, with the same variables; the least number of one.
/// - [`Outcome::Subsumed`]: a kept clause of one to three literals has a substitution under which each of its literals,
///   as it is or turned, is one of the clause; the least number of one. Terms without loose indices are put in for
///   variables of base types, variables for the others.
/// - [`Outcome::Kept`].
///
/// # Errors
///
/// Want of memory, also where a term is deeper than [`leo_terms::DEPTH`] levels.
pub fn outcome(
    alloc: Global,
    bank: &Bank,
    kept: &Kept,
    fronts: &Fronts,
    c: &Clause,
    weight: Option<u16>,
) -> Result<Outcome, AllocError>
    requires kept { AreTypedIn bank.now kept.now }
    requires fronts { AreFronts bank.now kept.now fronts.now }
    requires clause { IsTypedIn bank.now c.now }
    ensures { IfOk result (OutcomeOf (map (clause_at bank.now) kept.now) (clause_at bank.now c.now) weight) }
{
    let clauses = kept.clauses();
    if is_tautology(bank, c.lits.as_slice()) {
        return Ok(Outcome::Tautology);
    }
    if lacks_room(clauses, c) {
        return Ok(Outcome::Room);
    }
    if is_heavy(bank, c, weight) {
        return Ok(Outcome::Heavy);
    }
    match copied(bank, clauses, fronts, c) {
        Some(number) => Ok(Outcome::Copy(number)),
        None => match subsuming(alloc, bank, clauses, fronts, c)? {
            Some(number) => Ok(Outcome::Subsumed(number)),
            None => Ok(Outcome::Kept),
        },
    }
}
