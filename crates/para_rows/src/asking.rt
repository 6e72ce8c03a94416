//! Rows as questions: what a row says, the clause of the equations, and the clause in which they are used, with `;`
//! between them. A clause is the digits of its variables' types, and its literals behind them.

ghost use Rattle.std.specs.Prelude.{IfOk, IfSome};
ghost use Rattle.leo_terms.specs.Contents.{Extends};
ghost use Rattle.leo_clause.specs.Typed.{IsClauseOf};
ghost use Rattle.para_rows.specs.Boards.{AreRecorded, IsBoard};

use crate::board::{Board, read_clause};
use crate::typing::is_typed;
use leo_clause::Clause;
use leo_items::Items;
use leo_para::{Due, para};
use leo_terms::Bank;
use std::alloc::{AllocError, Global};

/// The clauses of a row, as texts.
#[derive(Clone, Copy)]
struct Cells<'a> {
    from: &'a str,
    into: &'a str,
}

/// What a row says.
pub(crate) fn title_of(text: &str) -> &str {
    match text.split_once(';') {
        Some((title, _)) => title,
        None => text,
    }
}

fn cells_of(text: &str) -> Option<Cells<'_>> {
    let (_, behind_title) = text.split_once(';')?;
    let (from, into) = behind_title.split_once(';')?;
    Some(Cells { from, into })
}

/// The clause of a text.
fn clause_of(
    alloc: Global,
    bank: &mut Bank,
    board: &Board,
    text: &str,
) -> Result<Option<Clause>, AllocError>
    requires { IsBoard bank.old board.now }
    ensures clause { IfOk result (λ c. IfSome c (IsClauseOf bank.new)) }
    ensures grows { Extends bank.old bank.new }
{
    bank.is_sound();
    let words: Vec<&str> = text.split_whitespace().collect(alloc)?;
    match words.split_first() {
        Some((vars, texts)) => read_clause(alloc, bank, board, vars, texts),
        None => Ok(None),
    }
}

/// The clauses of a row.
#[derive(Drop)]
struct Row {
    from: Clause,
    into: Clause,
}

/// The clauses of the cells of a row.
fn row_of(
    alloc: Global,
    bank: &mut Bank,
    board: &Board,
    cells: &Cells<'_>,
) -> Result<Option<Row>, AllocError>
    requires { IsBoard bank.old board.now }
    ensures from { IfOk result (λ row. IfSome row (λ r. IsClauseOf bank.new r.from)) }
    ensures into { IfOk result (λ row. IfSome row (λ r. IsClauseOf bank.new r.into)) }
    ensures grows { Extends bank.old bank.new }
{
    bank.is_sound();
    let read = clause_of(alloc, bank, board, cells.from)?;
    let Some(from) = read else {
        return Ok(None);
    };
    let clause = clause_of(alloc, bank, board, cells.into)?;
    let Some(into) = clause else {
        return Ok(None);
    };
    Ok(Some(Row { from, into }))
}

/// What is due of a row, where its clauses are typed.
fn answered(alloc: Global, bank: &mut Bank, row: &Row) -> Result<Option<Items<Due>>, AllocError>
    requires from { IsClauseOf bank.old row.now.from }
    requires into { IsClauseOf bank.old row.now.into }
    ensures due { IfOk result (λ dues. IfSome dues (AreRecorded bank.new)) }
    ensures grows { Extends bank.old bank.new }
{
    bank.is_sound();
    if !is_typed(bank, &row.from) {
        return Ok(None);
    }
    if !is_typed(bank, &row.into) {
        return Ok(None);
    }
    let dues = para(alloc, bank, &row.from, &row.into)?;
    Ok(Some(dues))
}

/// What is due of a row; none where the text is no row.
pub(crate) fn ask(
    alloc: Global,
    bank: &mut Bank,
    board: &Board,
    text: &str,
) -> Result<Option<Items<Due>>, AllocError>
    requires { IsBoard bank.old board.now }
    ensures due { IfOk result (λ dues. IfSome dues (AreRecorded bank.new)) }
    ensures grows { Extends bank.old bank.new }
{
    bank.is_sound();
    let Some(cells) = cells_of(text) else {
        return Ok(None);
    };
    let read = row_of(alloc, bank, board, &cells)?;
    let Some(row) = read else {
        return Ok(None);
    };
    let answer = answered(alloc, bank, &row)?;
    Ok(answer)
}
