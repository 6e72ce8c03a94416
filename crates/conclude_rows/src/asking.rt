//! Rows as questions: what a row says, the depth, the digits of the numbers of the constraints, and the clause, with `;`
//! between them. A clause is the digits of its variables' types, and its literals behind them.

ghost use Rattle.std.specs.Prelude.{IfOk, IfSome};
ghost use Rattle.leo_terms.specs.Contents.{Extends};
ghost use Rattle.leo_clause.specs.Typed.{IsClauseOf};
ghost use Rattle.conclude_rows.specs.Boards.{AreRecorded, IsBoard};

use crate::board::{Board, read_clause};
use crate::typing::{are_constraints, is_typed};
use leo_clause::Clause;
use leo_conclude::{Conclusion, conclusions};
use leo_items::Items;
use leo_terms::Bank;
use std::alloc::{AllocError, Global};

/// The cells of a row behind what it says.
#[derive(Clone, Copy)]
struct Cells<'a> {
    depth: &'a str,
    constraints: &'a str,
    clause: &'a str,
}

/// What a row says.
pub(crate) fn title_of(text: &str) -> &str {
    match text.split_once(';') {
        Some((title, _)) => title,
        None => text,
    }
}

fn cells_of(text: &str) -> Option<Cells<'_>> {
    let (_, behind_title) = text.split_once(';')?;
    let (depth, behind_depth) = behind_title.split_once(';')?;
    let (constraints, clause) = behind_depth.split_once(';')?;
    Some(Cells {
        depth,
        constraints,
        clause,
    })
}

/// The numbers of digits.
fn numbers_of(alloc: Global, text: &str) -> Result<Items<u32>, AllocError> {
    let mut numbers = Items::new(alloc);
    for digit in text.as_bytes() {
        numbers.push(digit.wrapping_sub(b'0') as u32)?;
    }
    Ok(numbers)
}

/// The clause of a text.
fn clause_of(
    alloc: Global,
    bank: &mut Bank,
    board: &Board,
    text: &str,
) -> Result<Option<Clause>, AllocError>
    requires { IsBoard bank.old board.now }
    ensures clause { IfOk result (λ c. IfSome c (IsClauseOf bank.new)) }
    ensures grows { Extends bank.old bank.new }
{
    bank.is_sound();
    let words: Vec<&str> = text.split_whitespace().collect(alloc)?;
    match words.split_first() {
        Some((vars, texts)) => read_clause(alloc, bank, board, vars, texts),
        None => Ok(None),
    }
}

/// The conclusions of a clause, where it is typed and the numbers are those of negative literals.
fn concluded(
    alloc: Global,
    bank: &mut Bank,
    clause: &Clause,
    constraints: &[u32],
    depth: u8,
) -> Result<Option<Items<Conclusion>>, AllocError>
    requires { IsClauseOf bank.old clause.now }
    ensures recorded { IfOk result (λ found. IfSome found (AreRecorded bank.new)) }
    ensures grows { Extends bank.old bank.new }
{
    bank.is_sound();
    if !is_typed(bank, clause) {
        return Ok(None);
    }
    if !are_constraints(clause, constraints) {
        return Ok(None);
    }
    let found = conclusions(alloc, bank, clause, constraints, depth)?;
    Ok(Some(found))
}

/// The conclusions of a row; none where the text is no row.
pub(crate) fn ask(
    alloc: Global,
    bank: &mut Bank,
    board: &Board,
    text: &str,
) -> Result<Option<Items<Conclusion>>, AllocError>
    requires { IsBoard bank.old board.now }
    ensures recorded { IfOk result (λ found. IfSome found (AreRecorded bank.new)) }
    ensures grows { Extends bank.old bank.new }
{
    bank.is_sound();
    let Some(cells) = cells_of(text) else {
        return Ok(None);
    };
    let Ok(depth) = cells.depth.trim().parse::<u8>() else {
        return Ok(None);
    };
    let numbers = numbers_of(alloc, cells.constraints.trim())?;
    let read = clause_of(alloc, bank, board, cells.clause)?;
    let Some(clause) = read else {
        return Ok(None);
    };
    let found = concluded(alloc, bank, &clause, numbers.as_slice(), depth)?;
    Ok(found)
}
