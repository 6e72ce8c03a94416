//! Records as texts, in the form in which clauses are read.

ghost use Rattle.std.specs.Prelude.{◌<◌, length};
ghost use Rattle.leo_terms.specs.Contents.{AreTerms, IsArgumentBelow};
ghost use Rattle.leo_clause.specs.Typed.{AreLiteralsOf};
ghost use Rattle.leo_kernel.specs.Records.{AreStepsOf, AreTermsOfRule, IsStepOf};

use crate::board::Board;
use crate::reading::LETTERS;
use leo_clause::{Lit, Rule, StepRecord};
use leo_terms::{Bank, DEPTH, Op, SymId, TermId, TyId, View};
use std::alloc::{AllocError, Global};

/// The digits.
const DIGITS: &[u8] = b"0123456789";

/// The byte at a place, or a mark where there is none.
fn byte_at(bytes: &[u8], place: usize) -> char {
    if place < bytes.len() {
        bytes[place] as char
    } else {
        '#'
    }
}

fn symbol_letter(symbols: &[SymId], symbol: SymId) -> char {
    match symbols.iter().position(|s| *s == symbol) {
        Some(place) => byte_at(LETTERS, place),
        None => '#',
    }
}

fn type_digit(types: &[TyId], ty: TyId) -> char {
    match types.iter().position(|t| *t == ty) {
        Some(place) => byte_at(DIGITS, place),
        None => '#',
    }
}

fn index_letter(index: u32) -> char {
    byte_at(b"xy", index as usize)
}

fn operator_letter(op: Op) -> char {
    match op {
        Op::True => 'T',
        Op::False => 'F',
        Op::Not => '~',
        Op::Or => '|',
        Op::And => '&',
        Op::Imp => '>',
        Op::Eq(_) => '=',
        Op::All(_) => '!',
        Op::Some(_) => '?',
        Op::Eps(_) => 'e',
    }
}

/// Appends a term, behind its parts. Goes at most `room` levels down.
#[cycle(write)]
fn put_term(
    bank: &Bank,
    board: &Board,
    t: TermId,
    room: u32,
    text: &mut String,
) -> Result<(), AllocError>
    requires { t < length bank.now.terms }
{
    let Some(room) = room.checked_sub(1) else {
        return Err(AllocError);
    };
    match bank.view(t) {
        View::Var(number) => {
            text.push(byte_at(DIGITS, number as usize))?;
        }
        View::Bound(index) => {
            text.push(index_letter(index))?;
        }
        View::Sym(symbol) => {
            text.push(symbol_letter(board.symbols.as_slice(), symbol))?;
        }
        View::App(f, x) => {
            put_term(bank, board, f, room, text)?;
            put_term(bank, board, x, room, text)?;
            text.push('@')?;
        }
        View::Lam(_, body) => {
            put_term(bank, board, body, room, text)?;
            text.push('\\')?;
        }
        View::Logic(op, x, y) => {
            put_argument(bank, board, x, room, text)?;
            put_argument(bank, board, y, room, text)?;
            text.push(operator_letter(op))?;
        }
    }
    Ok(())
}

/// Appends an argument that may be missing.
#[cycle(write)]
fn put_argument(
    bank: &Bank,
    board: &Board,
    x: Option<TermId>,
    room: u32,
    text: &mut String,
) -> Result<(), AllocError>
    requires { IsArgumentBelow (length bank.now.terms) x }
{
    match x {
        Some(t) => put_term(bank, board, t, room, text),
        None => Ok(()),
    }
}

fn put_lit(bank: &Bank, board: &Board, lit: &Lit, text: &mut String) -> Result<(), AllocError>
    requires left { lit.now.left < length bank.now.terms }
    requires right { lit.now.right < length bank.now.terms }
{
    text.push_str(if lit.pos { " +" } else { " -" })?;
    put_term(bank, board, lit.left, DEPTH, text)?;
    put_term(bank, board, lit.right, DEPTH, text)?;
    Ok(())
}

fn put_lits(bank: &Bank, board: &Board, lits: &[Lit], text: &mut String) -> Result<(), AllocError>
    requires { AreLiteralsOf bank.now lits.now }
{
    for lit in lits {
        put_lit(bank, board, lit, text)?;
    }
    Ok(())
}

fn put_types(board: &Board, vars: &[TyId], text: &mut String) -> Result<(), AllocError> {
    if vars.is_empty() {
        text.push('.')?;
    }
    for ty in vars {
        text.push(type_digit(board.types.as_slice(), *ty))?;
    }
    Ok(())
}

/// Appends a number behind a space.
fn put_number(number: u64, text: &mut String) -> Result<(), AllocError> {
    text.push(' ')?;
    text.push(byte_at(DIGITS, number as usize))
}

/// Appends what a step is called, and the numbers that it was made from.
fn put_step(name: &str, numbers: &[u64], text: &mut String) -> Result<(), AllocError> {
    text.push_str(name)?;
    for number in numbers {
        put_number(*number, text)?;
    }
    Ok(())
}

/// Appends the terms that are put in for variables.
fn put_terms(
    bank: &Bank,
    board: &Board,
    terms: &[TermId],
    text: &mut String,
) -> Result<(), AllocError>
    requires { AreTerms bank.now terms.now }
{
    text.push_str(" by")?;
    for t in terms {
        text.push(' ')?;
        put_term(bank, board, *t, DEPTH, text)?;
    }
    Ok(())
}

/// Appends what a step was made from.
fn put_rule(bank: &Bank, board: &Board, rule: &Rule, text: &mut String) -> Result<(), AllocError>
    requires { AreTermsOfRule bank.now rule.now }
{
    match rule {
        Rule::Convert { parent } => put_step("convert", &[*parent], text),
        Rule::Inst { parent, sigma } => {
            put_step("inst", &[*parent], text)?;
            put_terms(bank, board, sigma.as_slice(), text)
        }
        Rule::Drop { parent, lit } => put_step("drop", &[*parent, *lit as u64], text),
        Rule::Decompose { parent, lit } => put_step("apart", &[*parent, *lit as u64], text),
        _ => text.push_str("another rule"),
    }
}

/// Appends a record, with a mark before it where it is not the first.
fn put_record(
    bank: &Bank,
    board: &Board,
    step: &StepRecord,
    text: &mut String,
) -> Result<(), AllocError>
    requires { IsStepOf bank.now step.now }
{
    if !text.is_empty() {
        text.push_str(" / ")?;
    }
    put_rule(bank, board, &step.rule, text)?;
    text.push_str(": ")?;
    put_types(board, step.clause.vars.as_slice(), text)?;
    put_lits(bank, board, step.clause.lits.as_slice(), text)?;
    Ok(())
}

/// The text of records.
pub(crate) fn written(
    alloc: Global,
    bank: &Bank,
    board: &Board,
    records: &[StepRecord],
) -> Result<String, AllocError>
    requires { AreStepsOf bank.now records.now }
{
    let mut text = String::new(alloc);
    for step in records {
        put_record(bank, board, step, &mut text)?;
    }
    Ok(text)
}
