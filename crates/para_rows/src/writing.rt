//! Records as texts, in the form in which clauses are read.

ghost use Rattle.std.specs.Prelude.{◌<◌, length};
ghost use Rattle.leo_terms.specs.Contents.{IsArgumentBelow};
ghost use Rattle.leo_clause.specs.Typed.{AreLiteralsOf};
ghost use Rattle.leo_kernel.specs.Records.{AreStepsOf};

use crate::board::Board;
use crate::reading::LETTERS;
use leo_clause::{Clause, Lit, Rule, Side, StepRecord};
use leo_terms::{Bank, DEPTH, Op, SymId, TermId, TyId, View};
use std::alloc::{AllocError, Global};

/// The digits.
const DIGITS: &[u8] = b"0123456789";

/// The byte at a place, or a mark where there is none.
fn byte_at(bytes: &[u8], place: usize) -> char {
    if place < bytes.len() {
        bytes[place] as char
    } else {
        '#'
    }
}

fn symbol_letter(symbols: &[SymId], symbol: SymId) -> char {
    match symbols.iter().position(|s| *s == symbol) {
        Some(place) => byte_at(LETTERS, place),
        None => '#',
    }
}

fn type_digit(types: &[TyId], ty: TyId) -> char {
    match types.iter().position(|t| *t == ty) {
        Some(place) => byte_at(DIGITS, place),
        None => '#',
    }
}

fn index_letter(index: u32) -> char {
    byte_at(b"xy", index as usize)
}

fn operator_letter(op: Op) -> char {
    match op {
        Op::True => 'T',
        Op::False => 'F',
        Op::Not => '~',
        Op::Or => '|',
        Op::And => '&',
        Op::Imp => '>',
        Op::Eq(_) => '=',
        Op::All(_) => '!',
        Op::Some(_) => '?',
        Op::Eps(_) => 'e',
    }
}

/// Appends a term, behind its parts. Goes at most `room` levels down.
#[cycle(write)]
fn put_term(
    bank: &Bank,
    board: &Board,
    t: TermId,
    room: u32,
    text: &mut String,
) -> Result<(), AllocError>
    requires { t < length bank.now.terms }
{
    let Some(room) = room.checked_sub(1) else {
        return Err(AllocError);
    };
    match bank.view(t) {
        View::Var(number) => {
            text.push(byte_at(DIGITS, number as usize))?;
        }
        View::Bound(index) => {
            text.push(index_letter(index))?;
        }
        View::Sym(symbol) => {
            text.push(symbol_letter(board.symbols.as_slice(), symbol))?;
        }
        View::App(f, x) => {
            put_term(bank, board, f, room, text)?;
            put_term(bank, board, x, room, text)?;
            text.push('@')?;
        }
        View::Lam(_, body) => {
            put_term(bank, board, body, room, text)?;
            text.push('\\')?;
        }
        View::Logic(op, x, y) => {
            put_argument(bank, board, x, room, text)?;
            put_argument(bank, board, y, room, text)?;
            text.push(operator_letter(op))?;
        }
    }
    Ok(())
}

/// Appends an argument that may be missing.
#[cycle(write)]
fn put_argument(
    bank: &Bank,
    board: &Board,
    x: Option<TermId>,
    room: u32,
    text: &mut String,
) -> Result<(), AllocError>
    requires { IsArgumentBelow (length bank.now.terms) x }
{
    match x {
        Some(t) => put_term(bank, board, t, room, text),
        None => Ok(()),
    }
}

fn put_lit(bank: &Bank, board: &Board, lit: &Lit, text: &mut String) -> Result<(), AllocError>
    requires left { lit.now.left < length bank.now.terms }
    requires right { lit.now.right < length bank.now.terms }
{
    text.push_str(if lit.pos { " +" } else { " -" })?;
    put_term(bank, board, lit.left, DEPTH, text)?;
    put_term(bank, board, lit.right, DEPTH, text)?;
    Ok(())
}

fn put_lits(bank: &Bank, board: &Board, lits: &[Lit], text: &mut String) -> Result<(), AllocError>
    requires { AreLiteralsOf bank.now lits.now }
{
    for lit in lits {
        put_lit(bank, board, lit, text)?;
    }
    Ok(())
}

fn put_types(board: &Board, vars: &[TyId], text: &mut String) -> Result<(), AllocError> {
    if vars.is_empty() {
        text.push('.')?;
    }
    for ty in vars {
        text.push(type_digit(board.types.as_slice(), *ty))?;
    }
    Ok(())
}

fn side_letter(side: Side) -> char {
    match side {
        Side::Left => 'L',
        Side::Right => 'R',
    }
}

/// Appends a literal's number and its side.
fn put_place(number: u32, side: Side, text: &mut String) -> Result<(), AllocError> {
    text.push(byte_at(DIGITS, number as usize))?;
    text.push(side_letter(side))?;
    text.push(' ')?;
    Ok(())
}

fn put_path(path: &[u8], text: &mut String) -> Result<(), AllocError> {
    for child in path {
        text.push(byte_at(DIGITS, *child as usize))?;
    }
    Ok(())
}

/// Appends what a step was made from: the equation and its side, and the place.
fn put_rule(rule: &Rule, text: &mut String) -> Result<(), AllocError> {
    match rule {
        Rule::Para {
            from: _,
            lit,
            side,
            target: _,
            place,
            place_side,
            path,
        } => {
            put_place(*lit, *side, text)?;
            put_place(*place, *place_side, text)?;
            put_path(path.as_slice(), text)
        }
        _ => text.push_str("another rule"),
    }
}

/// Appends a record.
fn put_record(
    bank: &Bank,
    board: &Board,
    step: &StepRecord,
    text: &mut String,
) -> Result<(), AllocError>
    requires { AreLiteralsOf bank.now step.now.clause.lits }
{
    put_rule(&step.rule, text)?;
    text.push_str(": ")?;
    put_types(board, step.clause.vars.as_slice(), text)?;
    put_lits(bank, board, step.clause.lits.as_slice(), text)?;
    Ok(())
}

/// The text of records, and of the numbers of the literals that are to be solved.
pub(crate) fn written(
    alloc: Global,
    bank: &Bank,
    board: &Board,
    records: &[StepRecord],
    pairs: &[u32],
) -> Result<String, AllocError>
    requires { AreStepsOf bank.now records.now }
{
    let mut text = String::new(alloc);
    for step in records {
        put_record(bank, board, step, &mut text)?;
    }
    for number in pairs {
        text.push_str("; ")?;
        text.push(byte_at(DIGITS, *number as usize))?;
    }
    Ok(text)
}
