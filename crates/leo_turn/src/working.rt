//! Working inferences that are due: their conclusions are found and taken in.

ghost use Rattle.std.specs.Prelude.{map, IfOk, Some};
ghost use Rattle.leo_terms.specs.Contents.{Extends};
ghost use Rattle.leo_conclude.specs.Results.{conclusion_clause};
ghost use Rattle.leo_turn.specs.Growth.{Grows};
ghost use Rattle.leo_turn.specs.Searches.{IsSearch};
ghost use Rattle.leo_turn.specs.Turns.{TakesEach, TakesIn, Works, WorksEach};
ghost use Rattle.leo_turn.specs.Working.{AreConclusionsAt, AreDueAt, IsConclusionAt, IsDueAt, Makes, constrained_at};

use crate::journal::append_records;
use crate::search::Search;
use crate::taking::intake;
use leo_conclude::{Conclusion, conclusions};
use leo_para::Due;
use leo_terms::Bank;
use std::alloc::{AllocError, Global};

/// Appends the records of a conclusion behind the line `start`, and takes in the clause of the last one.
fn take_conclusion(
    alloc: Global,
    bank: &mut Bank,
    search: &mut Search,
    start: u64,
    conclusion: &Conclusion,
) -> Result<(), AllocError>
    requires search { IsSearch bank.old search.old }
    requires conclusion { IsConclusionAt bank.old search.old start conclusion.now }
    ensures search { IfOk result (λ _. IsSearch bank.new search.new) }
    ensures taken { IfOk result (λ _. Makes bank.old bank.new search.old search.new (λ setting. TakesIn setting (Some setting.weight) (conclusion_clause bank.old conclusion.now))) }
    ensures longer { Grows search.old search.new }
    ensures grows { Extends bank.old bank.new }
{
    bank.is_sound();
    let records = conclusion.records.as_slice();
    append_records(alloc, bank, &mut search.lines, &[start], records)?;
    let line = search.lines.len() as u64 - 1;
    intake(alloc, bank, search, line, true)?;
    Ok(())
}

/// Takes in conclusions, one after the other, whose records follow on the line `start`.
fn take_conclusions(
    alloc: Global,
    bank: &mut Bank,
    search: &mut Search,
    start: u64,
    found: &[Conclusion],
) -> Result<(), AllocError>
    requires search { IsSearch bank.old search.old }
    requires conclusions { AreConclusionsAt bank.old search.old start found.now }
    ensures search { IfOk result (λ _. IsSearch bank.new search.new) }
    ensures taken { IfOk result (λ _. Makes bank.old bank.new search.old search.new (λ setting. TakesEach setting (Some setting.weight) (map (conclusion_clause bank.old) found.now))) }
    ensures longer { Grows search.old search.new }
    ensures grows { Extends bank.old bank.new }
{
    bank.is_sound();
    for conclusion in found {
        take_conclusion(alloc, bank, search, start, conclusion)?;
    }
    Ok(())
}

/// Works an inference whose records follow on the lines with the numbers `first`: they are appended to the journal, and
/// each conclusion is taken in.
fn work(
    alloc: Global,
    bank: &mut Bank,
    search: &mut Search,
    first: &[u64],
    due: &Due,
) -> Result<(), AllocError>
    requires search { IsSearch bank.old search.old }
    requires due { IsDueAt bank.old search.old.lines first.now due.now }
    ensures search { IfOk result (λ _. IsSearch bank.new search.new) }
    ensures worked { IfOk result (λ _. Makes bank.old bank.new search.old search.new (λ setting. Works setting (constrained_at bank.old due.now))) }
    ensures longer { Grows search.old search.new }
    ensures grows { Extends bank.old bank.new }
{
    bank.is_sound();
    let records = due.records.as_slice();
    append_records(alloc, bank, &mut search.lines, first, records)?;
    let line = search.lines.len() as u64 - 1;
    let clause = &search.lines.as_slice()[line as usize].clause;
    let found = conclusions(alloc, bank, clause, due.pairs.as_slice(), search.depth)?;
    take_conclusions(alloc, bank, search, line, found.as_slice())?;
    Ok(())
}

/// Works inferences, one after the other, whose records follow on the lines with the numbers `first`.
pub(crate) fn work_all(
    alloc: Global,
    bank: &mut Bank,
    search: &mut Search,
    first: &[u64],
    dues: &[Due],
) -> Result<(), AllocError>
    requires search { IsSearch bank.old search.old }
    requires dues { AreDueAt bank.old search.old.lines first.now dues.now }
    ensures search { IfOk result (λ _. IsSearch bank.new search.new) }
    ensures worked { IfOk result (λ _. Makes bank.old bank.new search.old search.new (λ setting. WorksEach setting (map (constrained_at bank.old) dues.now))) }
    ensures longer { Grows search.old search.new }
    ensures grows { Extends bank.old bank.new }
{
    bank.is_sound();
    for due in dues {
        work(alloc, bank, search, first, due)?;
    }
    Ok(())
}
