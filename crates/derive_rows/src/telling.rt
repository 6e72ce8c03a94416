//! One row for one derivation: the answer, and what is left of a refutation.

ghost use Rattle.std.specs.Prelude.{map};
ghost use Rattle.leo_kernel.specs.Records.{AreStepsOf};
ghost use Rattle.leo_kernel.specs.Steps.{line_at};
ghost use Rattle.leo_problem.specs.Loading.{IsProblem};
ghost use Rattle.leo_derive.specs.Verdicts.{IsRefutation, hypotheses_of};

use crate::cases::{Case, lines_of};
use crate::given::loaded;
use leo_clause::{Rule, StepRecord};
use leo_derive::{CheckRefusal, check, prune};
use leo_kernel::Reason;
use leo_problem::Problem;
use std::alloc::Global;

fn name_of(reason: Reason) -> &'static str {
    match reason {
        Reason::Parent => "parent",
        Reason::Literal => "literal",
        Reason::Place => "place",
        Reason::Types => "types",
        Reason::Symbol => "symbol",
        Reason::Shape => "shape",
        Reason::NoEmpty => "no empty line",
    }
}

fn tell_refusal(rt: &impl Print, refusal: CheckRefusal) {
    match refusal {
        CheckRefusal::No { line, reason } => {
            let name = name_of(reason);
            let _ = println!(rt; "  refused at {line}: {name}");
        }
        CheckRefusal::Memory => {
            let _ = println!(rt; "  no memory");
        }
    }
}

fn tell_line(rt: &impl Print, number: usize, line: &StepRecord) {
    match &line.rule {
        Rule::Axiom { hyp } => {
            let _ = println!(rt; "  {number}: hypothesis {hyp}");
        }
        Rule::Logic { parent, .. } => {
            let _ = println!(rt; "  {number}: line {parent}, taken apart");
        }
        Rule::Para { from, target, .. } => {
            let _ = println!(rt; "  {number}: line {from} in line {target}");
        }
        Rule::Drop { parent, lit } => {
            let _ = println!(rt; "  {number}: line {parent} without literal {lit}");
        }
        Rule::Arrange { parent } => {
            let _ = println!(rt; "  {number}: line {parent}, arranged");
        }
        Rule::Abbreviate { .. } => {
            let _ = println!(rt; "  {number}: an abbreviation");
        }
        _ => {
            let _ = println!(rt; "  {number}: another rule");
        }
    }
}

fn tell_lines(rt: &impl Print, lines: &[StepRecord]) {
    for number in 0..lines.len() {
        tell_line(rt, number, &lines[number]);
    }
}

fn tell_pruned(rt: &impl Print, alloc: Global, problem: &Problem, lines: &[StepRecord])
    requires lines { AreStepsOf problem.now.bank lines.now }
    requires refutation { IsRefutation (hypotheses_of problem.now) (map (line_at problem.now.bank) lines.now) }
{
    match prune(alloc, problem, lines) {
        Ok(kept) => tell_lines(rt, &kept),
        Err(_) => {
            let _ = println!(rt; "  no memory");
        }
    }
}

/// How lines are answered, and what is left of them.
fn judge(rt: &impl Print, alloc: Global, problem: &mut Problem, lines: &[StepRecord])
    requires problem { IsProblem problem.old }
    requires lines { AreStepsOf problem.old.bank lines.now }
{
    match check(alloc, problem, lines) {
        Ok(()) => {
            let _ = println!(rt; "  accepted; what is left of it:");
            tell_pruned(rt, alloc, problem, lines);
        }
        Err(refusal) => tell_refusal(rt, refusal),
    }
}

fn show(rt: &impl Print, alloc: Global, problem: &mut Problem, case: Case)
    requires { IsProblem problem.old }
{
    match lines_of(alloc, problem, case) {
        Ok(Some(lines)) => judge(rt, alloc, problem, &lines),
        Ok(None) => {
            let _ = println!(rt; "  no two hypotheses");
        }
        Err(_) => {
            let _ = println!(rt; "  no memory");
        }
    }
}

/// Shows a case over the problem.
pub(crate) fn row(rt: &(impl Print + AllocGlobal), title: &str, case: Case) {
    let _ = println!(rt; "{title}");
    match loaded(rt.alloc()) {
        Ok(mut problem) => show(rt, rt.alloc(), &mut problem, case),
        Err(_) => {
            let _ = println!(rt; "  no problem");
        }
    }
}
