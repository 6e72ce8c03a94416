//! Rows as questions: what a row says, the depth, and the pairs: the digits of the types of their variables, and behind them
//! each pair as a literal.

ghost use Rattle.std.specs.Prelude.{◌≡◌, map, IfOk, IfSome};
ghost use Rattle.leo_terms.specs.Contents.{Extends};
ghost use Rattle.leo_clause.specs.Typed.{IsClauseOf};
ghost use Rattle.leo_unify.specs.Views.{ArePairsOf};
ghost use Rattle.unify_rows.specs.Boards.{sides, HaveTerms, IsBoard};

use crate::board::{Board, read_clause};
use crate::typing::is_typed;
use leo_clause::{Clause, Lit};
use leo_items::Items;
use leo_terms::{Bank, TermId};
use leo_unify::{Pair, Sigma, residue, solve};
use std::alloc::{AllocError, Global};

/// The cells of a row behind what it says.
#[derive(Clone, Copy)]
struct Cells<'a> {
    depth: &'a str,
    pairs: &'a str,
}

/// What a row says.
pub(crate) fn title_of(text: &str) -> &str {
    match text.split_once(';') {
        Some((title, _)) => title,
        None => text,
    }
}

fn cells_of(text: &str) -> Option<Cells<'_>> {
    let (_, behind_title) = text.split_once(';')?;
    let (depth, pairs) = behind_title.split_once(';')?;
    Some(Cells { depth, pairs })
}

/// The clause of a text.
fn clause_of(
    alloc: Global,
    bank: &mut Bank,
    board: &Board,
    text: &str,
) -> Result<Option<Clause>, AllocError>
    requires { IsBoard bank.old board.now }
    ensures clause { IfOk result (λ c. IfSome c (IsClauseOf bank.new)) }
    ensures grows { Extends bank.old bank.new }
{
    bank.is_sound();
    let words: Vec<&str> = text.split_whitespace().collect(alloc)?;
    match words.split_first() {
        Some((vars, texts)) => read_clause(alloc, bank, board, vars, texts),
        None => Ok(None),
    }
}

/// The pairs of literals.
fn pairs_of(alloc: Global, lits: &[Lit]) -> Result<Items<(TermId, TermId)>, AllocError>
    ensures { IfOk result (λ ps. ps ≡ map sides lits.now) }
{
    let mut pairs = Items::new(alloc);
    for lit in lits {
        pairs.push((lit.left, lit.right))?;
    }
    Ok(pairs)
}

/// The solutions of the pairs of a clause, where it is typed.
fn solved(
    alloc: Global,
    bank: &mut Bank,
    clause: &Clause,
    depth: u8,
) -> Result<Option<Items<Sigma>>, AllocError>
    requires { IsClauseOf bank.old clause.now }
    ensures grows { Extends bank.old bank.new }
    ensures sigmas { IfOk result (λ found. IfSome found (HaveTerms bank.new)) }
{
    bank.is_sound();
    if !is_typed(bank, clause) {
        return Ok(None);
    }
    let pairs = pairs_of(alloc, clause.lits.as_slice())?;
    let found = solve(alloc, bank, clause.vars.as_slice(), pairs.as_slice(), depth)?;
    Ok(Some(found))
}

/// The solutions of a row's pairs; none where the text is no row.
pub(crate) fn ask(
    alloc: Global,
    bank: &mut Bank,
    board: &Board,
    text: &str,
) -> Result<Option<Items<Sigma>>, AllocError>
    requires { IsBoard bank.old board.now }
    ensures grows { Extends bank.old bank.new }
    ensures sigmas { IfOk result (λ found. IfSome found (HaveTerms bank.new)) }
{
    bank.is_sound();
    let Some(cells) = cells_of(text) else {
        return Ok(None);
    };
    let Ok(depth) = cells.depth.trim().parse::<u8>() else {
        return Ok(None);
    };
    let read = clause_of(alloc, bank, board, cells.pairs)?;
    let Some(clause) = read else {
        return Ok(None);
    };
    let found = solved(alloc, bank, &clause, depth)?;
    Ok(found)
}

/// What is left of the first pair of a clause.
fn left_of(alloc: Global, bank: &Bank, clause: &Clause) -> Result<Option<Items<Pair>>, AllocError>
    requires { IsClauseOf bank.now clause.now }
    ensures { IfOk result (λ left. IfSome left (ArePairsOf bank.now)) }
{
    match clause.lits.as_slice() {
        [lit, ..] => {
            let left = residue(alloc, bank, lit.left, lit.right)?;
            Ok(Some(left))
        }
        [] => Ok(None),
    }
}

/// What is left of a row's first pair; none where the text is no row.
pub(crate) fn ask_residue(
    alloc: Global,
    bank: &mut Bank,
    board: &Board,
    text: &str,
) -> Result<Option<Items<Pair>>, AllocError>
    requires { IsBoard bank.old board.now }
    ensures grows { Extends bank.old bank.new }
    ensures pairs { IfOk result (λ left. IfSome left (ArePairsOf bank.new)) }
{
    bank.is_sound();
    let Some(cells) = cells_of(text) else {
        return Ok(None);
    };
    let read = clause_of(alloc, bank, board, cells.pairs)?;
    let Some(clause) = read else {
        return Ok(None);
    };
    let left = left_of(alloc, bank, &clause)?;
    Ok(left)
}
