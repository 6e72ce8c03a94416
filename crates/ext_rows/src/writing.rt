//! Records as texts, in the form in which clauses are read.

ghost use Rattle.std.specs.Prelude.{◌<◌, length};
ghost use Rattle.leo_terms.specs.Contents.{AreTerms, IsArgumentBelow};
ghost use Rattle.leo_clause.specs.Typed.{AreLiteralsOf};
ghost use Rattle.leo_kernel.specs.Records.{AreStepsOf, AreTermsOfRule, IsStepOf};

use crate::board::{Board, TYPE_LETTERS};
use crate::reading::LETTERS;
use leo_clause::{Half, Lit, Rule, StepRecord};
use leo_terms::{Bank, DEPTH, Op, SymId, TermId, TyId, View};
use std::alloc::{AllocError, Global};

/// The digits.
const DIGITS: &[u8] = b"0123456789";

/// The letters of choice symbols, and of indices from 0 on.
const CHOICE_LETTERS: &[u8] = b"ABC";

const INDEX_LETTERS: &[u8] = b"xyzuvwtd";

/// What symbols and types are called by: those of the board, and the choice symbols.
#[derive(Clone, Copy)]
pub(crate) struct Names<'a> {
    pub board: &'a Board,
    pub choices: &'a [(SymId, TermId)],
}

/// The byte at a place, or a mark where there is none.
fn byte_at(bytes: &[u8], place: usize) -> char {
    if place < bytes.len() {
        bytes[place] as char
    } else {
        '#'
    }
}

/// The letter of a choice symbol.
fn choice_letter(choices: &[(SymId, TermId)], symbol: SymId) -> char {
    match choices.iter().position(|choice| choice.0 == symbol) {
        Some(place) => byte_at(CHOICE_LETTERS, place),
        None => '#',
    }
}

fn symbol_letter(names: &Names<'_>, symbol: SymId) -> char {
    let symbols = names.board.symbols.as_slice();
    match symbols.iter().position(|s| *s == symbol) {
        Some(place) => byte_at(LETTERS, place),
        None => choice_letter(names.choices, symbol),
    }
}

fn type_letter(types: &[TyId], ty: TyId) -> char {
    match types.iter().position(|t| *t == ty) {
        Some(place) => byte_at(TYPE_LETTERS, place),
        None => '#',
    }
}

fn operator_letter(op: Op) -> char {
    match op {
        Op::True => 'T',
        Op::False => 'F',
        Op::Not => '~',
        Op::Or => '|',
        Op::And => '&',
        Op::Imp => '>',
        Op::Eq(_) => '=',
        Op::All(_) => '!',
        Op::Some(_) => '?',
        Op::Eps(_) => 'e',
    }
}

/// Appends the sign of a function, with the type of its argument where that is no thing.
fn put_binder(names: &Names<'_>, ty: TyId, text: &mut String) -> Result<(), AllocError> {
    text.push('\\')?;
    if ty == TyId::thing() {
        return Ok(());
    }
    text.push('(')?;
    text.push(type_letter(names.board.types.as_slice(), ty))?;
    text.push(')')
}

/// Appends a term, behind its parts. Goes at most `room` levels down.
#[cycle(write)]
fn put_term(
    bank: &Bank,
    names: &Names<'_>,
    t: TermId,
    room: u32,
    text: &mut String,
) -> Result<(), AllocError>
    requires { t < length bank.now.terms }
{
    let Some(room) = room.checked_sub(1) else {
        return Err(AllocError);
    };
    match bank.view(t) {
        View::Var(number) => {
            text.push(byte_at(DIGITS, number as usize))?;
        }
        View::Bound(index) => {
            text.push(byte_at(INDEX_LETTERS, index as usize))?;
        }
        View::Sym(symbol) => {
            text.push(symbol_letter(names, symbol))?;
        }
        View::App(f, x) => {
            put_term(bank, names, f, room, text)?;
            put_term(bank, names, x, room, text)?;
            text.push('@')?;
        }
        View::Lam(ty, body) => {
            put_term(bank, names, body, room, text)?;
            put_binder(names, ty, text)?;
        }
        View::Logic(op, x, y) => {
            put_argument(bank, names, x, room, text)?;
            put_argument(bank, names, y, room, text)?;
            text.push(operator_letter(op))?;
        }
    }
    Ok(())
}

/// Appends an argument that may be missing.
#[cycle(write)]
fn put_argument(
    bank: &Bank,
    names: &Names<'_>,
    x: Option<TermId>,
    room: u32,
    text: &mut String,
) -> Result<(), AllocError>
    requires { IsArgumentBelow (length bank.now.terms) x }
{
    match x {
        Some(t) => put_term(bank, names, t, room, text),
        None => Ok(()),
    }
}

fn put_lit(bank: &Bank, names: &Names<'_>, lit: &Lit, text: &mut String) -> Result<(), AllocError>
    requires left { lit.now.left < length bank.now.terms }
    requires right { lit.now.right < length bank.now.terms }
{
    text.push_str(if lit.pos { " +" } else { " -" })?;
    put_term(bank, names, lit.left, DEPTH, text)?;
    put_term(bank, names, lit.right, DEPTH, text)?;
    Ok(())
}

fn put_lits(
    bank: &Bank,
    names: &Names<'_>,
    lits: &[Lit],
    text: &mut String,
) -> Result<(), AllocError>
    requires { AreLiteralsOf bank.now lits.now }
{
    for lit in lits {
        put_lit(bank, names, lit, text)?;
    }
    Ok(())
}

fn put_types(board: &Board, vars: &[TyId], text: &mut String) -> Result<(), AllocError> {
    if vars.is_empty() {
        text.push('.')?;
    }
    for ty in vars {
        text.push(type_letter(board.types.as_slice(), *ty))?;
    }
    Ok(())
}

/// Appends a number behind a space.
fn put_number(number: u64, text: &mut String) -> Result<(), AllocError> {
    text.push(' ')?;
    text.push(byte_at(DIGITS, number as usize))
}

/// Appends what a step is called, and the numbers that it was made from.
fn put_step(name: &str, numbers: &[u64], text: &mut String) -> Result<(), AllocError> {
    text.push_str(name)?;
    for number in numbers {
        put_number(*number, text)?;
    }
    Ok(())
}

/// Appends the terms that are put in for variables.
fn put_terms(
    bank: &Bank,
    names: &Names<'_>,
    terms: &[TermId],
    text: &mut String,
) -> Result<(), AllocError>
    requires { AreTerms bank.now terms.now }
{
    text.push_str(" by")?;
    for t in terms {
        text.push(' ')?;
        put_term(bank, names, *t, DEPTH, text)?;
    }
    Ok(())
}

/// Appends the line of a choice symbol, where there is one.
fn put_abbreviation(abbr: Option<u64>, text: &mut String) -> Result<(), AllocError> {
    match abbr {
        Some(line) => put_step(" by", &[line], text),
        None => Ok(()),
    }
}

fn half_number(half: Half) -> u64 {
    match half {
        Half::One => 1,
        Half::Two => 2,
    }
}

/// Appends what a step was made from.
fn put_rule(
    bank: &Bank,
    names: &Names<'_>,
    rule: &Rule,
    text: &mut String,
) -> Result<(), AllocError>
    requires { AreTermsOfRule bank.now rule.now }
{
    match rule {
        Rule::Convert { parent } => put_step("convert", &[*parent], text),
        Rule::Inst { parent, sigma } => {
            put_step("inst", &[*parent], text)?;
            put_terms(bank, names, sigma.as_slice(), text)
        }
        Rule::Arrange { parent } => put_step("arrange", &[*parent], text),
        Rule::BoolExt { parent, lit, half } => {
            let numbers = [*parent, *lit as u64, half_number(*half)];
            put_step("cases", &numbers, text)
        }
        Rule::FuncExt { parent, lit, abbr } => {
            put_step("values", &[*parent, *lit as u64], text)?;
            put_abbreviation(*abbr, text)
        }
        Rule::Choice => text.push_str("choose"),
        Rule::Factor {
            parent,
            first,
            second,
        } => {
            let numbers = [*parent, *first as u64, *second as u64];
            put_step("factor", &numbers, text)
        }
        _ => text.push_str("another rule"),
    }
}

/// Appends a record, with a mark before it where it is not the first.
fn put_record(
    bank: &Bank,
    names: &Names<'_>,
    step: &StepRecord,
    text: &mut String,
) -> Result<(), AllocError>
    requires { IsStepOf bank.now step.now }
{
    if !text.is_empty() {
        text.push_str(" / ")?;
    }
    put_rule(bank, names, &step.rule, text)?;
    text.push_str(": ")?;
    put_types(names.board, step.clause.vars.as_slice(), text)?;
    put_lits(bank, names, step.clause.lits.as_slice(), text)?;
    Ok(())
}

/// The text of records, and of the numbers of the literals that are to be solved.
pub(crate) fn written(
    alloc: Global,
    bank: &Bank,
    names: &Names<'_>,
    records: &[StepRecord],
    pairs: &[u32],
) -> Result<String, AllocError>
    requires { AreStepsOf bank.now records.now }
{
    let mut text = String::new(alloc);
    for step in records {
        put_record(bank, names, step, &mut text)?;
    }
    for number in pairs {
        text.push(';')?;
        put_number(*number as u64, &mut text)?;
    }
    Ok(text)
}

/// The text of a choice symbol and of the term that it stands for.
pub(crate) fn written_choice(
    alloc: Global,
    bank: &Bank,
    names: &Names<'_>,
    symbol: SymId,
    term: TermId,
) -> Result<String, AllocError>
    requires { term < length bank.now.terms }
{
    let mut text = String::new(alloc);
    text.push(symbol_letter(names, symbol))?;
    text.push(' ')?;
    put_term(bank, names, term, DEPTH, &mut text)?;
    Ok(text)
}
