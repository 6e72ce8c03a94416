//! The lines of a row: the choice symbols, and each leaf with its records. A term is written behind its parts, as it is read.

ghost use Rattle.std.specs.Prelude.{◌<◌, length, IfOk, IfSome};
ghost use Rattle.leo_terms.specs.Contents.{AreTerms, IsArgumentBelow};
ghost use Rattle.leo_clause.specs.Choices.{AreChoicesOf};
ghost use Rattle.leo_clause.specs.Typed.{AreLiteralsOf, IsClauseOf};
ghost use Rattle.leo_kernel.specs.Records.{AreStepsOf, IsStepOf};
ghost use Rattle.clausify_rows.specs.Boards.{AreLeaves, IsAnswer, IsBoard, IsLeaf};

use crate::asking::{Answer, ask, title_of};
use crate::board::Board;
use crate::naming::{
    index_letter, kind_name, operator_letter, symbol_letter, type_digit, with_choices,
};
use leo_clause::{Clause, Lit, Rule, StepRecord};
use leo_clausify::{Leaf, Split};
use leo_terms::{Bank, DEPTH, SymId, TermId, TyId, View};
use std::alloc::{AllocError, Global};

/// Writes a term behind its parts, at most `room` levels of it.
#[cycle(put)]
fn put_term(rt: &impl Print, bank: &Bank, board: &Board, t: TermId, room: u32)
    requires { t < length bank.now.terms }
{
    let Some(room) = room.checked_sub(1) else {
        return;
    };
    match bank.view(t) {
        View::Var(number) => {
            let _ = print!(rt; "{number}");
        }
        View::Bound(index) => {
            let letter = index_letter(index);
            let _ = print!(rt; "{letter}");
        }
        View::Sym(symbol) => {
            let letter = symbol_letter(board.symbols.as_slice(), symbol);
            let _ = print!(rt; "{letter}");
        }
        View::App(f, x) => {
            put_term(rt, bank, board, f, room);
            put_term(rt, bank, board, x, room);
            let _ = print!(rt; "@");
        }
        View::Lam(_, body) => {
            put_term(rt, bank, board, body, room);
            let _ = print!(rt; "\\");
        }
        View::Logic(op, x, y) => {
            put_argument(rt, bank, board, x, room);
            put_argument(rt, bank, board, y, room);
            let letter = operator_letter(op);
            let _ = print!(rt; "{letter}");
        }
    }
}

/// The same of an argument that may be missing.
#[cycle(put)]
fn put_argument(rt: &impl Print, bank: &Bank, board: &Board, x: Option<TermId>, room: u32)
    requires { IsArgumentBelow (length bank.now.terms) x }
{
    match x {
        Some(t) => put_term(rt, bank, board, t, room),
        None => {}
    }
}

fn put_types(rt: &impl Print, board: &Board, vars: &[TyId]) {
    if vars.is_empty() {
        let _ = print!(rt; ".");
    }
    for ty in vars {
        let digit = type_digit(board.types.as_slice(), *ty);
        let _ = print!(rt; "{digit}");
    }
}

fn put_lit(rt: &impl Print, bank: &Bank, board: &Board, lit: &Lit)
    requires left { lit.now.left < length bank.now.terms }
    requires right { lit.now.right < length bank.now.terms }
{
    let sign = if lit.pos { '+' } else { '-' };
    let _ = print!(rt; " {sign}");
    put_term(rt, bank, board, lit.left, DEPTH);
    put_term(rt, bank, board, lit.right, DEPTH);
}

fn put_lits(rt: &impl Print, bank: &Bank, board: &Board, lits: &[Lit])
    requires { AreLiteralsOf bank.now lits.now }
{
    for lit in lits {
        put_lit(rt, bank, board, lit);
    }
}

/// Writes the types of a clause's variables, and its literals.
fn put_clause(rt: &impl Print, bank: &Bank, board: &Board, clause: &Clause)
    requires { IsClauseOf bank.now clause.now }
{
    put_types(rt, board, clause.vars.as_slice());
    put_lits(rt, bank, board, clause.lits.as_slice());
    let _ = println!(rt; "");
}

fn put_terms(rt: &impl Print, bank: &Bank, board: &Board, terms: &[TermId])
    requires { AreTerms bank.now terms.now }
{
    for term in terms {
        let _ = print!(rt; " ");
        put_term(rt, bank, board, *term, DEPTH);
    }
}

/// Writes a rule with the numbers of its line and literal, and of the line of a chosen term.
fn put_rule(rt: &impl Print, bank: &Bank, board: &Board, rule: &Rule)
    requires { AreTermsOfRule bank.now rule.now }
{
    match rule {
        Rule::Convert { parent } => {
            let _ = print!(rt; "convert {parent}");
        }
        Rule::Inst { parent, sigma } => {
            let _ = print!(rt; "inst {parent}");
            put_terms(rt, bank, board, sigma.as_slice());
        }
        Rule::Arrange { parent } => {
            let _ = print!(rt; "arrange {parent}");
        }
        Rule::Drop { parent, lit } => {
            let _ = print!(rt; "drop {parent} {lit}");
        }
        Rule::Logic {
            parent,
            lit,
            kind,
            abbr,
        } => {
            let name = kind_name(*kind);
            let _ = print!(rt; "{name} {parent} {lit}");
            if let Some(line) = abbr {
                let _ = print!(rt; " by {line}");
            }
        }
        _ => {
            let _ = print!(rt; "another rule");
        }
    }
}

ghost use Rattle.leo_kernel.specs.Records.{AreTermsOfRule};

fn put_record(rt: &impl Print, bank: &Bank, board: &Board, step: &StepRecord)
    requires { IsStepOf bank.now step.now }
{
    let _ = print!(rt; "    ");
    put_rule(rt, bank, board, &step.rule);
    let _ = print!(rt; ": ");
    put_clause(rt, bank, board, &step.clause);
}

fn put_records(rt: &impl Print, bank: &Bank, board: &Board, records: &[StepRecord])
    requires { AreStepsOf bank.now records.now }
{
    for step in records {
        put_record(rt, bank, board, step);
    }
}

fn put_leaf(rt: &impl Print, bank: &Bank, board: &Board, leaf: &Leaf)
    requires { IsLeaf bank.now leaf.now }
{
    let _ = print!(rt; "  ");
    put_clause(rt, bank, board, &leaf.clause);
    put_records(rt, bank, board, leaf.records.as_slice());
}

fn put_leaves(rt: &impl Print, bank: &Bank, board: &Board, leaves: &[Leaf])
    requires { AreLeaves bank.now leaves.now }
{
    for leaf in leaves {
        put_leaf(rt, bank, board, leaf);
    }
}

/// Writes what a choice symbol stands for.
fn put_choice(rt: &impl Print, bank: &Bank, board: &Board, choice: &(SymId, TermId))
    requires { choice.now.1 < length bank.now.terms }
{
    let (symbol, term) = *choice;
    let letter = symbol_letter(board.symbols.as_slice(), symbol);
    let _ = print!(rt; "  {letter} is ");
    put_term(rt, bank, board, term, DEPTH);
    let _ = println!(rt; "");
}

fn put_choices(rt: &impl Print, bank: &Bank, board: &Board, choices: &[(SymId, TermId)])
    requires { AreChoicesOf bank.now choices.now }
{
    for choice in choices {
        put_choice(rt, bank, board, choice);
    }
}

/// Writes the choice symbols and the leaves.
fn put_answer(
    rt: &impl Print,
    alloc: Global,
    bank: &Bank,
    board: &Board,
    answer: &Answer,
) -> Result<(), AllocError>
    requires { IsAnswer bank.now answer.now }
{
    let choices = answer.choices.items.as_slice();
    let names = with_choices(alloc, board, choices)?;
    put_choices(rt, bank, &names, choices);
    match &answer.split {
        Split::Clauses(leaves) => put_leaves(rt, bank, &names, leaves.as_slice()),
        Split::Room => {
            let _ = println!(rt; "  no room");
        }
    }
    Ok(())
}

/// Writes how many leaves there are, and how many choice symbols.
fn put_counts(rt: &impl Print, answer: &Answer) {
    let symbols = answer.choices.items.len();
    match &answer.split {
        Split::Clauses(leaves) => {
            let count = leaves.len();
            let _ = println!(rt; "  {count} leaves, {symbols} choice symbols");
        }
        Split::Room => {
            let _ = println!(rt; "  no room, {symbols} choice symbols");
        }
    }
}

/// What is told of an answer.
#[derive(Clone, Copy)]
pub(crate) enum Tale {
    Leaves,
    Counts,
}

fn put_told(rt: &impl Print, alloc: Global, bank: &Bank, board: &Board, tale: Tale, answer: &Answer)
    requires { IsAnswer bank.now answer.now }
{
    match tale {
        Tale::Leaves => {
            if put_answer(rt, alloc, bank, board, answer).is_err() {
                let _ = println!(rt; "  no memory");
            }
        }
        Tale::Counts => put_counts(rt, answer),
    }
}

/// Tells the leaves of each row's clause.
pub(crate) fn tell(
    rt: &impl Print,
    alloc: Global,
    bank: &mut Bank,
    board: &Board,
    tale: Tale,
    rows: &[&str],
)
    requires { IsBoard bank.old board.now }
    ensures { IsBoard bank.new board.now }
{
    for text in rows {
        let title = title_of(text);
        let _ = println!(rt; "{title}");
        match ask(alloc, bank, board, text) {
            Ok(Some(answer)) => put_told(rt, alloc, bank, board, tale, &answer),
            Ok(None) => {
                let _ = println!(rt; "  not a row");
            }
            Err(_) => {
                let _ = println!(rt; "  no memory");
            }
        }
    }
}
