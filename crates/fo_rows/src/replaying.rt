//! What the replay says of an answer.

use fo_replay::replay::replay;
use fo_text::answer::{FoEnd, FoStep};
use fo_text::problem::FoProblem;
use fo_text::read::read_problem;
use fo_text::read_answer::read_answer;
use std::alloc::{AllocError, Global};

/// What the replay says of an answer.
#[derive(Clone, Copy)]
pub(crate) enum Outcome {
    /// It is not read again, or has no steps.
    NoRefutation,
    /// All steps replay.
    Whole { steps: usize, is_empty_given: bool },
    /// The step of this number does not replay; the first has number 0.
    Stopped { step: usize },
}

/// Replays the steps, over the clauses of the text and those of the earlier steps.
fn replayed(
    alloc: Global,
    mut problem: FoProblem,
    steps: &[FoStep],
) -> Result<Outcome, AllocError> {
    let mut is_empty_given = false;
    for at in 0..steps.len() {
        let step = &steps[at];
        let found = replay(alloc, &problem, problem.clauses.as_slice(), step)?;
        let Some(clause) = found else {
            return Ok(Outcome::Stopped { step: at });
        };
        if clause.lits.is_empty() {
            is_empty_given = true;
        }
        problem.clauses.push(clause)?;
    }
    Ok(Outcome::Whole {
        steps: steps.len(),
        is_empty_given,
    })
}

/// Reads a problem and its answer, and replays the steps of the answer.
pub(crate) fn replay_of(alloc: Global, text: &[u8], answer: &[u8]) -> Result<Outcome, AllocError> {
    let Ok(problem) = read_problem(alloc, text) else {
        return Ok(Outcome::NoRefutation);
    };
    let Ok(read) = read_answer(alloc, answer) else {
        return Ok(Outcome::NoRefutation);
    };
    match read.end {
        FoEnd::GaveUp => Ok(Outcome::NoRefutation),
        FoEnd::Refuted(steps) => replayed(alloc, problem, steps.as_slice()),
    }
}
