//! Rows as questions: what a row says, the limit on weights, the kept clauses with `/` between them, and the clause that
//! was found, with `;` between them. A clause is the digits of its variables' types, and its literals behind them.

ghost use Rattle.std.specs.Prelude.{IfOk, IfSome, length};
ghost use Rattle.leo_terms.specs.Contents.{Extends};
ghost use Rattle.leo_clause.specs.Typed.{IsClauseOf};
ghost use Rattle.leo_keep.specs.Fronts.{AreFronts};
ghost use Rattle.keep_rows.specs.Boards.{AreClausesOf, IsBoard};

use crate::board::{Board, read_clause};
use crate::typing::{are_typed, is_typed};
use leo_clause::Clause;
use leo_keep::{Fronts, Kept, Outcome, front_of, outcome};
use leo_terms::Bank;
use std::alloc::{AllocError, Global};

/// The cells of a row behind what it says.
#[derive(Clone, Copy)]
struct Cells<'a> {
    limit: &'a str,
    kept: &'a str,
    found: &'a str,
}

/// What a row says.
pub(crate) fn title_of(text: &str) -> &str {
    match text.split_once(';') {
        Some((title, _)) => title,
        None => text,
    }
}

fn cells_of(text: &str) -> Option<Cells<'_>> {
    let (_, behind_title) = text.split_once(';')?;
    let (limit, behind_limit) = behind_title.split_once(';')?;
    let (kept, found) = behind_limit.split_once(';')?;
    Some(Cells { limit, kept, found })
}

/// The clause of a text.
fn clause_of(
    alloc: Global,
    bank: &mut Bank,
    board: &Board,
    text: &str,
) -> Result<Option<Clause>, AllocError>
    requires { IsBoard bank.old board.now }
    ensures clause { IfOk result (λ c. IfSome c (IsClauseOf bank.new)) }
    ensures grows { Extends bank.old bank.new }
{
    bank.is_sound();
    let words: Vec<&str> = text.split_whitespace().collect(alloc)?;
    match words.split_first() {
        Some((vars, texts)) => read_clause(alloc, bank, board, vars, texts),
        None => Ok(None),
    }
}

/// How many clauses a row may keep.
const MOST: usize = 1_000;

/// Keeps the clause of a text. False where the text is no clause.
fn put_kept(
    alloc: Global,
    bank: &mut Bank,
    board: &Board,
    text: &str,
    kept: &mut Kept,
) -> Result<bool, AllocError>
    requires board { IsBoard bank.old board.now }
    requires kept { AreClausesOf bank.old kept.old }
    ensures kept { IfOk result (λ b. AreClausesOf bank.new kept.new) }
    ensures grows { Extends bank.old bank.new }
{
    let read = clause_of(alloc, bank, board, text)?;
    let Some(clause) = read else {
        return Ok(false);
    };
    if kept.clauses().len() >= MOST {
        return Ok(false);
    }
    kept.add(clause)?;
    Ok(true)
}

/// The kept clauses of a text.
fn kept_of(
    alloc: Global,
    bank: &mut Bank,
    board: &Board,
    texts: &[&str],
) -> Result<Option<Kept>, AllocError>
    requires { IsBoard bank.old board.now }
    ensures kept { IfOk result (λ k. IfSome k (AreClausesOf bank.new)) }
    ensures grows { Extends bank.old bank.new }
{
    bank.is_sound();
    let mut kept = Kept::new(alloc)?;
    for text in texts {
        let put = put_kept(alloc, bank, board, text, &mut kept)?;
        if !put {
            return Ok(None);
        }
    }
    Ok(Some(kept))
}

/// The clauses of a row.
#[derive(Drop)]
struct Row {
    kept: Kept,
    found: Clause,
}

/// The clauses of the cells of a row.
fn row_of(
    alloc: Global,
    bank: &mut Bank,
    board: &Board,
    cells: &Cells<'_>,
) -> Result<Option<Row>, AllocError>
    requires { IsBoard bank.old board.now }
    ensures kept { IfOk result (λ row. IfSome row (λ r. AreClausesOf bank.new r.kept)) }
    ensures found { IfOk result (λ row. IfSome row (λ r. IsClauseOf bank.new r.found)) }
    ensures grows { Extends bank.old bank.new }
{
    bank.is_sound();
    let texts: Vec<&str> = cells.kept.trim().split_terminator('/').collect(alloc)?;
    let read = kept_of(alloc, bank, board, &texts)?;
    let Some(kept) = read else {
        return Ok(None);
    };
    let clause = clause_of(alloc, bank, board, cells.found)?;
    let Some(found) = clause else {
        return Ok(None);
    };
    Ok(Some(Row { kept, found }))
}

/// What quick tests know of clauses.
fn fronts_of(alloc: Global, bank: &Bank, clauses: &[Clause]) -> Result<Fronts, AllocError>
    requires { AreClausesOf bank.now clauses.now }
    ensures { IfOk result (AreFronts bank.now clauses.now) }
{
    let mut fronts = Fronts::new(alloc);
    for clause in clauses {
        fronts.add(front_of(bank, clause))?;
    }
    Ok(fronts)
}

/// The outcome of a row's clause, where all are typed.
fn decided(
    alloc: Global,
    bank: &Bank,
    row: &Row,
    limit: Option<u16>,
) -> Result<Option<Outcome>, AllocError>
    requires kept { AreClausesOf bank.now row.now.kept }
    requires found { IsClauseOf bank.now row.now.found }
{
    if !are_typed(bank, row.kept.clauses()) {
        return Ok(None);
    }
    if !is_typed(bank, &row.found) {
        return Ok(None);
    }
    let fronts = fronts_of(alloc, bank, row.kept.clauses())?;
    let decided = outcome(alloc, bank, &row.kept, &fronts, &row.found, limit)?;
    Ok(Some(decided))
}

/// The outcome of a row's clause; none where the text is no row.
pub(crate) fn ask(
    alloc: Global,
    bank: &mut Bank,
    board: &Board,
    text: &str,
) -> Result<Option<Outcome>, AllocError>
    requires { IsBoard bank.old board.now }
    ensures grows { Extends bank.old bank.new }
{
    bank.is_sound();
    let Some(cells) = cells_of(text) else {
        return Ok(None);
    };
    let limit = cells.limit.trim().parse::<u16>().ok();
    let read = row_of(alloc, bank, board, &cells)?;
    let Some(row) = read else {
        return Ok(None);
    };
    let answer = decided(alloc, bank, &row, limit)?;
    Ok(answer)
}
