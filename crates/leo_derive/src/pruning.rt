//! The lines on which the first empty line rests.

ghost use Rattle.std.specs.Prelude.{◌≡◌, ◌<◌, ◌++◌, ◌∷◌, [], length, map, get_or, slice_get, if◌then◌else◌, Some, IfOk, OnOk, IfSome, IfNone};
ghost use Rattle.leo_kernel.specs.Records.{AreStepsOf, IsStepOf};
ghost use Rattle.leo_kernel.specs.Steps.{line_at, rule_at};
ghost use Rattle.leo_derive.specs.Laws.{HasEmptyLine};
ghost use Rattle.leo_derive.specs.Marking.{AreInOrder, AreNumbersBelow, is_marked};
ghost use Rattle.leo_derive.specs.Pruning.{IsPruned, kept_lines, numbered_line};
ghost use Rattle.leo_derive.specs.Resting.{IsFirstEmpty, named};

use crate::marking::marks;
use crate::numbering::numbered_record;
use leo_clause::StepRecord;
use leo_terms::Bank;
use std::alloc::{AllocError, Global};

/// The first line without literals.
pub(crate) fn first_empty(bank: &Bank, lines: &[StepRecord]) -> Option<usize>
    ensures some { IfSome result (λ n. IsFirstEmpty (map (line_at bank.now) lines.now) n) }
    ensures none { IfNone result (HasEmptyLine (map (line_at bank.now) lines.now) → ⊥) }
{
    let _ = bank;
    for number in 0..lines.len() {
        if lines[number].clause.is_empty() {
            return Some(number);
        }
    }
    None
}

fn stands(marks: &[bool], at: usize) -> bool
    requires { at < length marks.now }
    ensures { result ≡ is_marked marks.now at }
{
    marks[at]
}

/// Appends a line, numbered anew, if it is to stand.
fn keep_if(
    alloc: Global,
    bank: &Bank,
    stands: bool,
    numbers: &[u64],
    line: &StepRecord,
    found: &mut Vec<StepRecord>,
) -> Result<(), AllocError>
    requires step { IsStepOf bank.now line.now }
    requires named { AreNumbersBelow (length numbers.now) (named (rule_at bank.now line.now.rule)) }
    requires steps { AreStepsOf bank.now found.old.items }
    ensures steps { OnOk result (AreStepsOf bank.now found.new.items) }
    ensures kept { OnOk result (map (line_at bank.now) found.new.items ≡ map (line_at bank.now) found.old.items ++ (if stands then numbered_line (λ n. get_or numbers.now n 0) (line_at bank.now line.now) ∷ [] else [])) }
{
    if !stands {
        return Ok(());
    }
    let renumbered = numbered_record(alloc, bank, numbers, line)?;
    found.push(renumbered)?;
    Ok(())
}

fn count_of(found: &[StepRecord]) -> u64
    ensures { result ≡ length found.now }
{
    found.len() as u64
}

/// The lines that are marked, numbered anew.
fn kept(
    alloc: Global,
    bank: &Bank,
    lines: &[StepRecord],
    marks: &[bool],
) -> Result<Vec<StepRecord>, AllocError>
    requires lines { AreStepsOf bank.now lines.now }
    requires order { AreInOrder (map (line_at bank.now) lines.now) }
    requires marks { length marks.now ≡ length lines.now }
    ensures steps { IfOk result (λ found. AreStepsOf bank.now found.items) }
    ensures kept { IfOk result (λ found. map (line_at bank.now) found.items ≡ kept_lines (is_marked marks.now) 0 (map (line_at bank.now) lines.now)) }
{
    let mut found = Vec::new(alloc);
    let mut numbers = Vec::new(alloc);
    for at in 0..lines.len() {
        numbers.push(count_of(&found))?;
        let stands = stands(marks, at);
        keep_if(alloc, bank, stands, &numbers, &lines[at], &mut found)?;
    }
    Ok(found)
}

/// The lines on which the first empty line rests.
pub(crate) fn pruned(
    alloc: Global,
    bank: &Bank,
    lines: &[StepRecord],
) -> Result<Vec<StepRecord>, AllocError>
    requires lines { AreStepsOf bank.now lines.now }
    requires order { AreInOrder (map (line_at bank.now) lines.now) }
    requires empty { HasEmptyLine (map (line_at bank.now) lines.now) }
    ensures steps { IfOk result (λ found. AreStepsOf bank.now found.items) }
    ensures pruned { IfOk result (λ found. IsPruned (map (line_at bank.now) lines.now) (map (line_at bank.now) found.items)) }
{
    let Some(goal) = first_empty(bank, lines) else {
        unreachable!()
    };
    let marked = marks(alloc, bank, lines, goal)?;
    let found = kept(alloc, bank, lines, &marked)?;
    Ok(found)
}
