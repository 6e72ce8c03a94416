//! Runs of the machine with their beats and their ends.

ghost use Rattle.std.specs.Prelude.{◌≡◌, ◌+◌, ◌<◌, ◌≤◌, List, ℕ, Option, MatchOption, length};
ghost use Rattle.leo_edge.specs.Outside.{HasRisen};
ghost use Rattle.fo_text.specs.Problems.{IsProblem};
ghost use Rattle.fo_super.specs.Runs.{search_of, IsState};
ghost use Rattle.fo_prove.specs.Answers.{HasRoom, IsGoing, IsRun};
ghost use Rattle.fo_prove.specs.Endings.{HasNoEmptyBefore, IsBeat, IsPut, IsSoFar};
ghost use Rattle.fo_prove.specs.Proving.{IsWorked};

use crate::ends::ending;
use crate::status::FoStatus;
use crate::writing::put_piece;
use fo_super::state::FoState;
use fo_super::turning::fo_turn;
use fo_text::problem::FoProblem;
use leo_edge::Sink;
use std::alloc::Global;

/// The most beats that leave room for a line that gives up.
const MOST_BEATS: u32 = 524_284;

/// Puts the end of an answer.
fn put_end<O: Sink>(out: &mut O, status: FoStatus, text: &[u8]) -> FoStatus
    ensures never_falls { O.faults out.old ≤ O.faults out.new }
    ensures put { IsPut text.now status (O.taken out.old) (O.taken out.new) (HasRisen (O.faults out.old) (O.faults out.new)) result }
{
    match put_piece(out, text) {
        Ok(()) => status,
        Err(_) => FoStatus::WriteFault,
    }
}

/// Puts the beat that is due after so many turns, if one is; where there is no room for it, the run ends.
fn beat<O: Sink>(turns: u32, out: &mut O) -> Option<FoStatus>
    ensures never_falls { O.faults out.old ≤ O.faults out.new }
    ensures beat { IsBeat turns (O.taken out.old) (O.taken out.new) (HasRisen (O.faults out.old) (O.faults out.new)) result }
{
    if turns % 10 != 0 {
        return None;
    }
    if turns / 10 > MOST_BEATS {
        return Some(put_end(out, FoStatus::GaveUp, b"gaveup\n"));
    }
    match put_piece(out, b".\n") {
        Ok(()) => None,
        Err(_) => Some(FoStatus::WriteFault),
    }
}

/// Takes a turn, and puts the beat that is due.
fn advance<O: Sink>(alloc: Global, state: &mut FoState, out: &mut O) -> Option<FoStatus>
    requires state { IsState state.old }
    requires problem { IsProblem state.old.problem }
    requires going { IsGoing state.old.problem (search_of state.old) }
    ensures problem { state.new.problem ≡ state.old.problem }
    ensures state { IsState state.new }
    ensures never_falls { O.faults out.old ≤ O.faults out.new }
    ensures advanced { (before : Option (List ℕ)) → IsSoFar state.old.problem (search_of state.old) before (O.taken out.old) → MatchOption result (IsSoFar state.old.problem (search_of state.new) before (O.taken out.new)) (IsWorked state.old.problem before (O.taken out.new) (HasRisen (O.faults out.old) (O.faults out.new))) }
    ensures falls { MatchOption result (state.new.turns ≡ state.old.turns + 1) (λ _. Unit {0}) }
    ensures looked { MatchOption result (HasNoEmptyBefore (length state.old.clauses) state.new.clauses) (λ _. Unit {0}) }
{
    match fo_turn(alloc, state) {
        Ok(()) => beat(state.turns, out),
        Err(_) => Some(FoStatus::NoMemory),
    }
}

/// Ends the run where it ends in this state, or else advances it. So many first clauses are known to have
/// literals.
fn step<O: Sink>(alloc: Global, state: &mut FoState, looked: usize, out: &mut O) -> Option<FoStatus>
    requires state { IsState state.old }
    requires problem { IsProblem state.old.problem }
    requires room { HasRoom (search_of state.old) }
    requires turns { state.old.turns ≤ state.old.problem.turns }
    requires run { IsRun state.old.problem (search_of state.old) }
    requires looked { HasNoEmptyBefore looked state.old.clauses }
    ensures problem { state.new.problem ≡ state.old.problem }
    ensures state { IsState state.new }
    ensures never_falls { O.faults out.old ≤ O.faults out.new }
    ensures stepped { (before : Option (List ℕ)) → IsSoFar state.old.problem (search_of state.old) before (O.taken out.old) → MatchOption result (IsSoFar state.old.problem (search_of state.new) before (O.taken out.new)) (IsWorked state.old.problem before (O.taken out.new) (HasRisen (O.faults out.old) (O.faults out.new))) }
    ensures falls { MatchOption result ((state.new.turns ≡ state.old.turns + 1) × (state.old.turns < state.old.problem.turns)) (λ _. Unit {0}) }
    ensures looked { MatchOption result (HasNoEmptyBefore (length state.old.clauses) state.new.clauses) (λ _. Unit {0}) }
{
    match ending(alloc, state, looked) {
        Ok(None) => advance(alloc, state, out),
        Ok(Some(end)) => Some(put_end(out, end.status, &end.text)),
        Err(_) => Some(FoStatus::NoMemory),
    }
}

/// Runs the machine on a problem, and puts its answer.
pub(crate) fn run<O: Sink>(alloc: Global, problem: FoProblem, out: &mut O) -> FoStatus
    requires { IsProblem problem }
    ensures { IsWorked problem (O.taken out.old) (O.taken out.new) (HasRisen (O.faults out.old) (O.faults out.new)) result }
{
    let mut state = match FoState::start(alloc, problem) {
        Ok(state) => state,
        Err(_) => return FoStatus::NoMemory,
    };
    let mut looked = 0;
    'turns: loop {
        let count = state.clauses.len();
        match step(alloc, &mut state, looked, out) {
            Some(status) => return status,
            None => looked = count,
        }
    }
}
