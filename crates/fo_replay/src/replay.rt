//! The replay of a step.

ghost use Rattle.std.specs.Prelude.{ℕ, List, ◌≡◌, IfOk, MatchOption};
ghost use Rattle.fo_text.specs.declared.problem.FoSym.{FoSym};
ghost use Rattle.fo_text.specs.declared.answer.FoStep.{FoStep};
ghost use Rattle.fo_text.specs.declared.problem.FoClause.{FoClause};
ghost use Rattle.fo_replay.specs.Replays.{Gives, Replays};

use crate::copies::is_light;
use crate::drop::{dropped, factored};
use crate::instance::instantiated;
use crate::para::paramodulated;
use fo_text::answer::FoStep;
use fo_text::problem::{FoClause, FoProblem};
use std::alloc::{AllocError, Global};

/// The conclusion of a step, however heavy it is.
fn given(
    alloc: Global,
    problem: &FoProblem,
    clauses: &[FoClause],
    step: &FoStep,
) -> Result<Option<FoClause>, AllocError>
    ensures { IfOk result (λ o. MatchOption o ((c : FoClause) → Gives problem.now.sorts problem.now.syms clauses.now step.now c → ⊥) (Gives problem.now.sorts problem.now.syms clauses.now step.now)) }
{
    let syms = problem.syms.as_slice();
    match step {
        FoStep::Inst { parent, words } => instantiated(
            alloc,
            problem.sorts,
            syms,
            clauses,
            *parent,
            words.as_slice(),
        ),
        FoStep::Para {
            from,
            lit,
            side,
            target,
            place,
            place_side,
            path,
        } => paramodulated(
            alloc,
            syms,
            clauses,
            *from,
            *lit,
            *side,
            *target,
            *place,
            *place_side,
            path.as_slice(),
        ),
        FoStep::Factor {
            parent,
            first,
            second,
            side,
        } => factored(alloc, syms, clauses, *parent, *first, *second, *side),
        FoStep::Drop { parent, lit } => dropped(alloc, clauses, *parent, *lit),
    }
}

/// Replays a step over the clauses before it, those of a problem's text and of the earlier steps: the
/// clause that the step gives, or None where it does not replay. A step gives one clause at most.
///
/// It replays where its words have the shape of one of the four steps, all numbers exist, sorts fit,
/// and the clause has at most 1,000 literals and 100,000 variables and symbols. Of the problem only
/// the sorts and the symbols are looked at.
///
/// # Errors
///
/// Want of memory, also where a clause would have more variables than a `u32` counts.
pub fn replay(
    alloc: Global,
    problem: &FoProblem,
    clauses: &[FoClause],
    step: &FoStep,
) -> Result<Option<FoClause>, AllocError>
    ensures { IfOk result (λ o. MatchOption o ((c : FoClause) → Replays problem.now.sorts problem.now.syms clauses.now step.now c → ⊥) (Replays problem.now.sorts problem.now.syms clauses.now step.now)) }
{
    let Some(conclusion) = given(alloc, problem, clauses, step)? else {
        return Ok(None);
    };
    if is_light(&conclusion) {
        Ok(Some(conclusion))
    } else {
        Ok(None)
    }
}

/// A law: a step gives one clause at most.
pub fn conclusions_are_unique()
    ensures { (sorts : ℕ) (syms : List FoSym) (clauses : List FoClause) (step : FoStep) (c d : FoClause) → Replays sorts syms clauses step c → Replays sorts syms clauses step d → c ≡ d }
{}
