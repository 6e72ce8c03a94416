//! Whether lines are accepted and one of them is empty.

ghost use Rattle.std.specs.Prelude.{◌≡◌, ◌<◌, length, map, OnOk, IfOk, IfErr};
ghost use Rattle.leo_q0.specs.Connectives.{false_term};
ghost use Rattle.leo_q0.specs.Derivations.{Derives};
ghost use Rattle.leo_terms.specs.Contents.{AreTerms, Extends, tree_at};
ghost use Rattle.leo_kernel.specs.Records.{AreStepsOf};
ghost use Rattle.leo_kernel.specs.Steps.{line_at};
ghost use Rattle.leo_problem.specs.Loading.{IsProblem, theory_of};
ghost use Rattle.leo_derive.specs.Checking.{IsAcceptedAt, IsRefusalAt};
ghost use Rattle.leo_derive.specs.Pruning.{IsPruned};
ghost use Rattle.leo_derive.specs.Verdicts.{IsRefutation, IsVerdict, hypotheses_of};

use crate::pruning::{first_empty, pruned};
use crate::refusal::CheckRefusal;
use leo_clause::StepRecord;
use leo_kernel::{Reason, StepRefusal, check_step};
use leo_problem::{Hyp, Problem};
use leo_simulation::laws::{bank_laws, soundness_laws};
use leo_terms::{Bank, TermId};
use std::alloc::{AllocError, Global};

/// Whether the line of that number follows from those before it.
fn check_line(
    alloc: Global,
    bank: &mut Bank,
    hyps: &[TermId],
    lines: &[StepRecord],
    number: usize,
) -> Result<(), CheckRefusal>
    requires hypotheses { AreTerms bank.old hyps.now }
    requires lines { AreStepsOf bank.old lines.now }
    requires stands { number < length lines.now }
    ensures accepted { OnOk result (IsAcceptedAt (map (tree_at bank.old) hyps.now) (map (line_at bank.old) lines.now) number) }
    ensures refusal { IfErr result (IsRefusalAt (map (tree_at bank.old) hyps.now) (map (line_at bank.old) lines.now) number) }
    ensures grows { Extends bank.old bank.new }
{
    match check_step(alloc, bank, hyps, &lines[..number], &lines[number]) {
        Ok(()) => Ok(()),
        Err(StepRefusal::Refused { reason }) => Err(CheckRefusal::No {
            line: number as u64,
            reason,
        }),
        Err(StepRefusal::Memory) => Err(CheckRefusal::Memory),
    }
}

/// Whether each line follows from those before it, and one of them is empty.
fn check_lines(
    alloc: Global,
    bank: &mut Bank,
    hyps: &[TermId],
    lines: &[StepRecord],
) -> Result<(), CheckRefusal>
    requires hypotheses { AreTerms bank.old hyps.now }
    requires lines { AreStepsOf bank.old lines.now }
    ensures verdict { IsVerdict (map (tree_at bank.old) hyps.now) (map (line_at bank.old) lines.now) result }
    ensures grows { Extends bank.old bank.new }
{
    bank.is_sound();
    for number in 0..lines.len() {
        check_line(alloc, bank, hyps, lines, number)?;
    }
    match first_empty(bank, lines) {
        Some(_) => Ok(()),
        None => Err(CheckRefusal::No {
            line: lines.len() as u64,
            reason: Reason::NoEmpty,
        }),
    }
}

fn terms(alloc: Global, hyps: &[Hyp]) -> Result<Vec<TermId>, AllocError>
    ensures { IfOk result (λ found. found.items ≡ map (λ h. h.term) hyps.now) }
{
    let mut found = Vec::new(alloc);
    for hyp in hyps {
        found.push(hyp.term)?;
    }
    Ok(found)
}

/// Whether lines refute a problem: each follows by its rule from those before it and the problem's hypotheses, and one has
/// no literals. Then falsity is derivable from the hypotheses in Q0 with choice. The bank gains terms at most.
///
/// # Errors
///
/// The first line that does not follow, with the first condition of its rule that does not hold; where all follow and none
/// is empty, [`Reason::NoEmpty`] with the number of lines; and [`CheckRefusal::Memory`].
pub fn check(alloc: Global, problem: &mut Problem, lines: &[StepRecord]) -> Result<(), CheckRefusal>
    requires problem { IsProblem problem.old }
    requires lines { AreStepsOf problem.old.bank lines.now }
    ensures verdict { IsVerdict (hypotheses_of problem.old) (map (line_at problem.old.bank) lines.now) result }
    ensures falsity { OnOk result (Derives (map (λ h. h.formula) (theory_of problem.old).hypotheses) false_term) }
    ensures grows { Extends problem.old.bank problem.new.bank }
    ensures stays { problem.new ≡ record { bank = problem.new.bank; names = problem.old.names; hyps = problem.old.hyps; conjecture = problem.old.conjecture; statements = problem.old.statements } }
{
    soundness_laws();
    bank_laws();
    problem.bank.is_sound();
    let hyps = terms(alloc, problem.hyps.as_slice())?;
    check_lines(alloc, &mut problem.bank, &hyps, lines)?;
    Ok(())
}

/// The lines of a refutation on which its first empty line rests, in order, with new numbers for the lines that their rules
/// name. They are a refutation as well.
pub fn prune(
    alloc: Global,
    problem: &Problem,
    lines: &[StepRecord],
) -> Result<Vec<StepRecord>, AllocError>
    requires lines { AreStepsOf problem.now.bank lines.now }
    requires refutation { IsRefutation (hypotheses_of problem.now) (map (line_at problem.now.bank) lines.now) }
    ensures steps { IfOk result (λ found. AreStepsOf problem.now.bank found.items) }
    ensures pruned { IfOk result (λ found. IsPruned (map (line_at problem.now.bank) lines.now) (map (line_at problem.now.bank) found.items)) }
    ensures refutation { IfOk result (λ found. IsRefutation (hypotheses_of problem.now) (map (line_at problem.now.bank) found.items)) }
{
    let found = pruned(alloc, &problem.bank, lines)?;
    Ok(found)
}
