//! Rows as questions: what a row says, and clauses with `/` between them, whose members are asked for one after the other,
//! over one list of choice symbols. A clause is the letters of its variables' types, and its literals behind them.

ghost use Rattle.std.specs.Prelude.{IfOk, IfSome};
ghost use Rattle.leo_terms.specs.Contents.{Extends};
ghost use Rattle.leo_clause.specs.Typed.{IsClauseOf};
ghost use Rattle.leo_clausify.specs.Choosing.{AreInOrder};
ghost use Rattle.leo_ext.specs.Listing.{AreDuesOf};
ghost use Rattle.ext_rows.specs.Boards.{IsBoard};

use crate::board::{Board, read_clause};
use crate::typing::is_typed;
use leo_clause::{Abbr, Clause};
use leo_ext::unary;
use leo_para::Due;
use leo_terms::Bank;
use std::alloc::{AllocError, Global};

/// What a row says.
pub(crate) fn title_of(text: &str) -> &str {
    match text.split_once(';') {
        Some((title, _)) => title,
        None => text,
    }
}

/// The clauses of a row, as texts.
pub(crate) fn clauses_of(alloc: Global, text: &str) -> Result<Vec<&str>, AllocError> {
    let clauses = match text.split_once(';') {
        Some((_, behind_title)) => behind_title,
        None => "",
    };
    let texts: Vec<&str> = clauses.split_terminator('/').collect(alloc)?;
    Ok(texts)
}

/// The clause of a text.
fn clause_of(
    alloc: Global,
    bank: &mut Bank,
    board: &Board,
    text: &str,
) -> Result<Option<Clause>, AllocError>
    requires { IsBoard bank.old board.now }
    ensures clause { IfOk result (λ c. IfSome c (IsClauseOf bank.new)) }
    ensures grows { Extends bank.old bank.new }
{
    bank.is_sound();
    let words: Vec<&str> = text.split_whitespace().collect(alloc)?;
    match words.split_first() {
        Some((vars, texts)) => read_clause(alloc, bank, board, vars, texts),
        None => Ok(None),
    }
}

/// The members of a clause; none where the text is no clause, or no typed one.
pub(crate) fn ask(
    alloc: Global,
    bank: &mut Bank,
    board: &Board,
    abbr: &mut Abbr,
    text: &str,
) -> Result<Option<Vec<Due>>, AllocError>
    requires board { IsBoard bank.old board.now }
    requires in_order { AreInOrder bank.old abbr.old.items }
    ensures due { IfOk result (λ dues. IfSome dues (λ ds. AreDuesOf bank.new ds.items)) }
    ensures in_order { AreInOrder bank.new abbr.new.items }
    ensures grows { Extends bank.old bank.new }
{
    bank.is_sound();
    let read = clause_of(alloc, bank, board, text)?;
    let Some(clause) = read else {
        return Ok(None);
    };
    if !is_typed(bank, &clause) {
        return Ok(None);
    }
    let dues = unary(alloc, bank, abbr, &clause)?;
    Ok(Some(dues))
}
