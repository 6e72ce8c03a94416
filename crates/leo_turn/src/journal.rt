//! Lines at the end of the journal.

ghost use Rattle.std.specs.Prelude.{◌≡◌, ◌<◌, ◌∷◌, ◌++◌, [], length, IfOk, OnErr};
ghost use Rattle.leo_kernel.specs.Records.{IsStepOf};
ghost use Rattle.leo_kernel.specs.Steps.{rule_at};
ghost use Rattle.leo_derive.specs.Marking.{AreNumbersBelow};
ghost use Rattle.leo_derive.specs.Resting.{named};
ghost use Rattle.leo_turn.specs.Changing.{AreAppended, AreReady, IsAppended};
ghost use Rattle.leo_turn.specs.Growth.{IsLonger};

use leo_clause::StepRecord;
use leo_derive::numbered_record;
use leo_items::Items;
use leo_terms::Bank;
use std::alloc::{AllocError, Global};

/// Appends a record, with these numbers for the lines that it names, and its own number to the numbers.
fn append_record(
    alloc: Global,
    bank: &Bank,
    lines: &mut Items<StepRecord>,
    numbers: &mut Items<u64>,
    step: &StepRecord,
) -> Result<(), AllocError>
    requires step { IsStepOf bank.now step.now }
    requires named { AreNumbersBelow (length numbers.old) (named (rule_at bank.now step.now.rule)) }
    ensures appended { IfOk result (λ _. IsAppended bank.now step.now lines.old lines.new numbers.old numbers.new) }
    ensures longer { IsLonger lines.old lines.new }
{
    let line = numbered_record(alloc, bank, numbers.as_slice(), step)?;
    numbers.push(lines.len() as u64)?;
    lines.push(line)?;
    Ok(())
}

/// Appends records, which follow on the lines with the numbers `first`.
pub(crate) fn append_records(
    alloc: Global,
    bank: &Bank,
    lines: &mut Items<StepRecord>,
    first: &[u64],
    records: &[StepRecord],
) -> Result<(), AllocError>
    requires { AreReady bank.now lines.old first.now records.now }
    ensures appended { IfOk result (λ _. AreAppended bank.now records.now lines.old lines.new) }
    ensures longer { IsLonger lines.old lines.new }
{
    let mut numbers = Items::from_slice(alloc, first)?;
    for step in records {
        append_record(alloc, bank, lines, &mut numbers, step)?;
    }
    Ok(())
}

/// The numbers, and one more behind them.
pub(crate) fn with_number(
    alloc: Global,
    numbers: &[u64],
    number: u64,
) -> Result<Items<u64>, AllocError>
    ensures { IfOk result (λ ns. ns ≡ numbers.now ++ number ∷ []) }
{
    let mut more = Items::from_slice(alloc, numbers)?;
    more.push(number)?;
    Ok(more)
}
