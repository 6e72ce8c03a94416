//! Rows as questions: what a row says, and behind `;` a clause: the digits of its variables' types, and its literals behind
//! them.

ghost use Rattle.std.specs.Prelude.{◌≡◌, ◌<◌, length, map, IfOk, IfSome};
ghost use Rattle.std.specs.Bool.{OnTrue};
ghost use Rattle.leo_terms.specs.Contents.{Extends, tree_at};
ghost use Rattle.leo_terms.specs.NormalForm.{normal_form};
ghost use Rattle.leo_clause.specs.Trees.{literal_at};
ghost use Rattle.leo_clause.specs.Typed.{AreLiteralsOf, IsClauseOf};
ghost use Rattle.leo_clausify.specs.Splitting.{AreNormal, normal_literal};
ghost use Rattle.clausify_rows.specs.Boards.{IsAnswer, IsBoard, IsNormalLiteral};

use crate::board::{Board, read_clause};
use crate::typing::is_typed;
use leo_clause::{Abbr, Clause, Lit};
use leo_clausify::{Split, split};
use leo_terms::{Bank, TermId};
use std::alloc::{AllocError, Global};

/// What a split gives, and the choice symbols that stand behind it.
#[derive(Drop)]
pub(crate) struct Answer {
    pub split: Split,
    pub choices: Abbr,
}

/// What a row says.
pub(crate) fn title_of(text: &str) -> &str {
    match text.split_once(';') {
        Some((title, _)) => title,
        None => text,
    }
}

/// The clause of a row.
fn clause_of(
    alloc: Global,
    bank: &mut Bank,
    board: &Board,
    text: &str,
) -> Result<Option<Clause>, AllocError>
    requires { IsBoard bank.old board.now }
    ensures clause { IfOk result (λ c. IfSome c (IsClauseOf bank.new)) }
    ensures grows { Extends bank.old bank.new }
{
    bank.is_sound();
    let Some((_, behind)) = text.split_once(';') else {
        return Ok(None);
    };
    let words: Vec<&str> = behind.split_whitespace().collect(alloc)?;
    match words.split_first() {
        Some((vars, texts)) => read_clause(alloc, bank, board, vars, texts),
        None => Ok(None),
    }
}

/// Whether a term is its own normal form.
fn is_normal(bank: &mut Bank, t: TermId) -> Result<bool, AllocError>
    requires { t < length bank.old.terms }
    ensures normal { IfOk result (λ r. OnTrue r (normal_form (tree_at bank.old t) ≡ tree_at bank.old t)) }
    ensures grows { Extends bank.old bank.new }
{
    let form = bank.normal(t)?;
    Ok(form == t)
}

/// Whether both sides of a literal are their own normal forms.
fn is_normal_literal(bank: &mut Bank, lit: &Lit) -> Result<bool, AllocError>
    requires left { lit.now.left < length bank.old.terms }
    requires right { lit.now.right < length bank.old.terms }
    ensures normal { IfOk result (λ r. OnTrue r (IsNormalLiteral (literal_at bank.old lit.now))) }
    ensures grows { Extends bank.old bank.new }
{
    let left = is_normal(bank, lit.left)?;
    if !left {
        return Ok(false);
    }
    let right = is_normal(bank, lit.right)?;
    Ok(right)
}

/// Whether all literals are in normal form.
fn are_normal(bank: &mut Bank, lits: &[Lit]) -> Result<bool, AllocError>
    requires { AreLiteralsOf bank.old lits.now }
    ensures normal { IfOk result (λ r. OnTrue r (AreNormal (map (literal_at bank.new) lits.now))) }
    ensures grows { Extends bank.old bank.new }
{
    bank.is_sound();
    for lit in lits {
        let normal = is_normal_literal(bank, lit)?;
        if !normal {
            return Ok(false);
        }
    }
    Ok(true)
}

/// The leaves of a clause, where it is typed and in normal form.
fn answered(alloc: Global, bank: &mut Bank, clause: &Clause) -> Result<Option<Answer>, AllocError>
    requires { IsClauseOf bank.old clause.now }
    ensures answer { IfOk result (λ answer. IfSome answer (IsAnswer bank.new)) }
    ensures grows { Extends bank.old bank.new }
{
    bank.is_sound();
    let normal = are_normal(bank, clause.lits.as_slice())?;
    if !normal {
        return Ok(None);
    }
    if !is_typed(bank, clause) {
        return Ok(None);
    }
    let mut choices = Abbr::new(alloc);
    let split = split(alloc, bank, &mut choices, clause)?;
    Ok(Some(Answer { split, choices }))
}

/// The leaves of a row's clause; none where the text is no row.
pub(crate) fn ask(
    alloc: Global,
    bank: &mut Bank,
    board: &Board,
    text: &str,
) -> Result<Option<Answer>, AllocError>
    requires { IsBoard bank.old board.now }
    ensures answer { IfOk result (λ answer. IfSome answer (IsAnswer bank.new)) }
    ensures grows { Extends bank.old bank.new }
{
    bank.is_sound();
    let read = clause_of(alloc, bank, board, text)?;
    let Some(clause) = read else {
        return Ok(None);
    };
    let answer = answered(alloc, bank, &clause)?;
    Ok(answer)
}
