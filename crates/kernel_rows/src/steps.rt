//! Rows as steps: what a row says, the types of its variables, its literals and its rule, with `;` between them.

ghost use Rattle.std.specs.Prelude.{IfOk, IfSome};
ghost use Rattle.leo_terms.specs.Contents.{Extends};
ghost use Rattle.leo_clause.specs.Typed.{IsClauseOf};
ghost use Rattle.leo_kernel.specs.Records.{IsStepOf};
ghost use Rattle.kernel_rows.specs.Boards.{IsBoard};

use crate::board::{Board, read_clause};
use crate::rules::rule_of;
use leo_clause::{Clause, StepRecord};
use leo_kernel::{Reason, StepRefusal, check_step};
use leo_terms::Bank;
use std::alloc::{AllocError, Global};

/// How the kernel answers.
#[derive(Clone, Copy)]
pub(crate) enum Answer {
    Accepted,
    Refused(Reason),
    NoMemory,
    /// The text is no row, so that the kernel is not asked.
    NoRow,
}

/// The cells of a row behind what it says.
#[derive(Clone, Copy)]
struct Cells<'a> {
    vars: &'a str,
    lits: &'a str,
    rule: &'a str,
}

/// What a row says.
pub(crate) fn title_of(text: &str) -> &str {
    match text.split_once(';') {
        Some((title, _)) => title,
        None => text,
    }
}

fn cells_of(text: &str) -> Option<Cells<'_>> {
    let (_, behind_title) = text.split_once(';')?;
    let (vars, behind_vars) = behind_title.split_once(';')?;
    let (lits, rule) = behind_vars.split_once(';')?;
    Some(Cells { vars, lits, rule })
}

/// The clause of the literals of a text.
fn clause_of(
    alloc: Global,
    bank: &mut Bank,
    board: &Board,
    vars: &str,
    lits: &str,
) -> Result<Option<Clause>, AllocError>
    requires { IsBoard bank.old board.now }
    ensures clause { IfOk result (λ c. IfSome c (IsClauseOf bank.new)) }
    ensures grows { Extends bank.old bank.new }
{
    bank.is_sound();
    let texts: Vec<&str> = lits.split_whitespace().collect(alloc)?;
    read_clause(alloc, bank, board, vars, &texts)
}

/// The step of a row.
fn step_of(
    alloc: Global,
    bank: &mut Bank,
    board: &Board,
    text: &str,
) -> Result<Option<StepRecord>, AllocError>
    requires { IsBoard bank.old board.now }
    ensures step { IfOk result (λ s. IfSome s (IsStepOf bank.new)) }
    ensures grows { Extends bank.old bank.new }
{
    bank.is_sound();
    let Some(cells) = cells_of(text) else {
        return Ok(None);
    };
    let Some(rule) = rule_of(alloc, bank, board, cells.rule)? else {
        return Ok(None);
    };
    let Some(clause) = clause_of(alloc, bank, board, cells.vars, cells.lits)? else {
        return Ok(None);
    };
    Ok(Some(StepRecord { clause, rule }))
}

/// How the kernel answers to a step.
fn asked(alloc: Global, bank: &mut Bank, board: &Board, step: &StepRecord) -> Answer
    requires board { IsBoard bank.old board.now }
    requires step { IsStepOf bank.old step.now }
    ensures grows { Extends bank.old bank.new }
{
    let hyps = board.hyps.as_slice();
    let lines = board.lines.as_slice();
    match check_step(alloc, bank, hyps, lines, step) {
        Ok(()) => Answer::Accepted,
        Err(StepRefusal::Refused { reason }) => Answer::Refused(reason),
        Err(StepRefusal::Memory) => Answer::NoMemory,
    }
}

/// A line that nothing is asked about. False where the text is no row.
pub(crate) fn put_line(
    alloc: Global,
    bank: &mut Bank,
    board: &mut Board,
    text: &str,
) -> Result<bool, AllocError>
    requires { IsBoard bank.old board.old }
    ensures board { IsBoard bank.new board.new }
    ensures grows { Extends bank.old bank.new }
{
    let read = step_of(alloc, bank, board, text)?;
    match read {
        Some(step) => {
            board.lines.push(step)?;
            Ok(true)
        }
        None => Ok(false),
    }
}

/// How the kernel answers to the step of a row.
pub(crate) fn ask(
    alloc: Global,
    bank: &mut Bank,
    board: &Board,
    text: &str,
) -> Result<Answer, AllocError>
    requires { IsBoard bank.old board.now }
    ensures grows { Extends bank.old bank.new }
{
    let read = step_of(alloc, bank, board, text)?;
    let Some(step) = read else {
        return Ok(Answer::NoRow);
    };
    let answer = asked(alloc, bank, board, &step);
    Ok(answer)
}
