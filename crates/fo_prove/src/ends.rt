//! Whether a run ends in a state, and how.

ghost use Rattle.std.specs.Prelude.{◌≡◌, ◌<◌, ◌≤◌, ◌⊎◌, [], IsTrue, IsFalse, IfOk, MatchOption};
ghost use Rattle.fo_text.specs.AnswerSpellings.{end_text};
ghost use Rattle.fo_super.specs.Outcomes.{HoldsOfNone, IsLeast};
ghost use Rattle.fo_super.specs.Runs.{search_of};
ghost use Rattle.fo_prove.specs.Answers.{HasRoom, IsEmptyClause, IsGoing};
ghost use Rattle.fo_prove.specs.Endings.{HasNoEmptyBefore, IsEndOf, IsSound};

use crate::lines::refutation;
use crate::status::FoStatus;
use fo_super::state::FoState;
use fo_text::answer::{FoAnswer, FoEnd};
use fo_text::problem::FoClause;
use fo_text::write_answer::write_answer;
use std::alloc::{AllocError, Global};

/// 1 MiB.
const MOST_BYTES: usize = 1_048_576;

/// The end of an answer: its status, and its text behind the beats.
#[derive(Drop)]
pub(crate) struct EndText {
    pub status: FoStatus,
    pub text: Vec<u8>,
}

/// The number of the first clause without literals; so many first ones are none.
fn first_empty(clauses: &[FoClause], looked: usize) -> Option<usize>
    requires { HasNoEmptyBefore looked clauses.now }
    ensures { MatchOption result (HoldsOfNone IsEmptyClause clauses.now) (IsLeast IsEmptyClause clauses.now) }
{
    let mut at = looked;
    while at < clauses.len() {
        let clause = &clauses[at];
        if clause.lits.is_empty() {
            return Some(at);
        }
        at += 1;
    }
    None
}

/// The text of an end.
fn text_of(alloc: Global, end: FoEnd) -> Result<Vec<u8>, AllocError>
    ensures { IfOk result (λ v. v.items ≡ end_text end) }
{
    let answer = FoAnswer { beats: 0, end };
    let mut text = Vec::new(alloc);
    write_answer(&answer, &mut text)?;
    Ok(text)
}

/// The end of an answer that gives up.
fn giving_up(alloc: Global) -> Result<EndText, AllocError>
    ensures status { IfOk result (λ e. e.status ≡ FoStatus.GaveUp) }
    ensures text { IfOk result (λ e. e.text.items ≡ end_text FoEnd.GaveUp) }
{
    let text = text_of(alloc, FoEnd::GaveUp)?;
    Ok(EndText {
        status: FoStatus::GaveUp,
        text,
    })
}

/// The end of an answer with a refutation, behind so many beats: where it passes the limit, that
/// gives up.
fn refuting(alloc: Global, state: &FoState, empty: usize) -> Result<EndText, AllocError>
    requires sound { IsSound state.now }
    requires room { HasRoom (search_of state.now) }
    requires empty { IsLeast IsEmptyClause state.now.clauses empty }
    ensures { IfOk result (λ e. IsEndOf state.now.problem (search_of state.now) e.status e.text.items) }
{
    let steps = refutation(alloc, state, empty)?;
    let text = text_of(alloc, FoEnd::Refuted(steps))?;
    let beats = (state.turns / 10) as usize;
    let bytes = text.as_slice();
    if bytes.len() > MOST_BYTES - 2 * beats {
        let r = giving_up(alloc)?;
        return Ok(r);
    }
    Ok(EndText {
        status: FoStatus::Refuted,
        text,
    })
}

/// Whether turns are left, and a clause is passive.
fn is_going(state: &FoState) -> bool
    requires { state.now.turns ≤ state.now.problem.turns }
    ensures turns { IsTrue result → state.now.turns < state.now.problem.turns }
    ensures passive { IsTrue result → state.now.passive ≡ [] → ⊥ }
    ensures spent { IsFalse result → (state.now.turns ≡ state.now.problem.turns) ⊎ (state.now.passive ≡ []) }
{
    if state.turns == state.problem.turns {
        return false;
    }
    !state.passive.is_empty()
}

/// The end of the answer, if the run ends in this state. So many first clauses are known to have
/// literals.
pub(crate) fn ending(
    alloc: Global,
    state: &FoState,
    looked: usize,
) -> Result<Option<EndText>, AllocError>
    requires sound { IsSound state.now }
    requires room { HasRoom (search_of state.now) }
    requires turns { state.now.turns ≤ state.now.problem.turns }
    requires looked { HasNoEmptyBefore looked state.now.clauses }
    ensures { IfOk result (λ o. MatchOption o (IsGoing state.now.problem (search_of state.now)) (λ e. IsEndOf state.now.problem (search_of state.now) e.status e.text.items)) }
{
    match first_empty(state.clauses.as_slice(), looked) {
        Some(empty) => {
            let e = refuting(alloc, state, empty)?;
            Ok(Some(e))
        }
        None => {
            if is_going(state) {
                return Ok(None);
            }
            let e = giving_up(alloc)?;
            Ok(Some(e))
        }
    }
}
