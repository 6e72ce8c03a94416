//! One line for each row. A term is written behind its parts, as it is read.

ghost use Rattle.std.specs.Prelude.{◌<◌, length, IfOk, IfSome};
ghost use Rattle.leo_terms.specs.Contents.{AreTerms, IsArgumentBelow};
ghost use Rattle.leo_unify.specs.Views.{ArePairsOf};
ghost use Rattle.unify_rows.specs.Boards.{HaveTerms, IsBoard};

use crate::asking::{ask, ask_residue, title_of};
use crate::board::{Board, letter_of};
use leo_items::Items;
use leo_terms::{Bank, DEPTH, Op, TermId, View};
use leo_unify::{Pair, Sigma};
use std::alloc::{AllocError, Global};

/// The letters of the indices.
const INDICES: &[u8] = b"xyzuvw";

fn index_letter(index: u32) -> char {
    let place = index as usize;
    if place < INDICES.len() {
        INDICES[place] as char
    } else {
        '?'
    }
}

fn op_letter(op: &Op) -> char {
    match op {
        Op::True => 'T',
        Op::False => 'F',
        Op::Not => '~',
        Op::Or => '|',
        Op::And => '&',
        Op::Imp => '>',
        Op::Eq(_) => '=',
        Op::All(_) => '!',
        Op::Some(_) => '?',
        Op::Eps(_) => 'e',
    }
}

/// Writes a term behind its parts, at most `room` levels of it.
#[cycle(put)]
fn put_term(rt: &impl Print, bank: &Bank, board: &Board, t: TermId, room: u32)
    requires { t < length bank.now.terms }
{
    let Some(room) = room.checked_sub(1) else {
        return;
    };
    match bank.view(t) {
        View::Var(number) => {
            let _ = print!(rt; "{number}");
        }
        View::Bound(index) => {
            let letter = index_letter(index);
            let _ = print!(rt; "{letter}");
        }
        View::Sym(symbol) => {
            let letter = letter_of(board, symbol);
            let _ = print!(rt; "{letter}");
        }
        View::App(f, x) => {
            put_term(rt, bank, board, f, room);
            put_term(rt, bank, board, x, room);
            let _ = print!(rt; "@");
        }
        View::Lam(_, body) => {
            put_term(rt, bank, board, body, room);
            let _ = print!(rt; "\\");
        }
        View::Logic(op, x, y) => {
            put_argument(rt, bank, board, x, room);
            put_argument(rt, bank, board, y, room);
            let letter = op_letter(&op);
            let _ = print!(rt; "{letter}");
        }
    }
}

/// The same of an argument that may be missing.
#[cycle(put)]
fn put_argument(rt: &impl Print, bank: &Bank, board: &Board, x: Option<TermId>, room: u32)
    requires { IsArgumentBelow (length bank.now.terms) x }
{
    match x {
        Some(t) => put_term(rt, bank, board, t, room),
        None => {}
    }
}

/// Writes the terms of a solution, and how many variables they stand over.
fn put_sigma(rt: &impl Print, bank: &Bank, board: &Board, sigma: &Sigma)
    requires { AreTerms bank.now sigma.now.terms }
{
    for term in sigma.terms.as_slice() {
        let _ = print!(rt; " ");
        put_term(rt, bank, board, *term, DEPTH);
    }
    let variables = sigma.vars.len();
    let _ = print!(rt; " over {variables};");
}

/// Writes the solutions of a row.
fn put_sigmas(rt: &impl Print, bank: &Bank, board: &Board, found: &[Sigma])
    requires { HaveTerms bank.now found.now }
{
    for sigma in found {
        put_sigma(rt, bank, board, sigma);
    }
}

fn put_answer(
    rt: &impl Print,
    bank: &Bank,
    board: &Board,
    answer: Result<Option<Items<Sigma>>, AllocError>,
)
    requires { IfOk answer (λ found. IfSome found (HaveTerms bank.now)) }
{
    match answer {
        Ok(Some(found)) => {
            let count = found.len();
            let _ = print!(rt; "{count}:");
            put_sigmas(rt, bank, board, found.as_slice());
        }
        Ok(None) => {
            let _ = print!(rt; "not a row");
        }
        Err(_) => {
            let _ = print!(rt; "no memory");
        }
    }
}

/// Tells the solutions of each row's pairs.
pub(crate) fn tell(rt: &impl Print, alloc: Global, bank: &mut Bank, board: &Board, rows: &[&str])
    requires { IsBoard bank.old board.now }
    ensures { IsBoard bank.new board.now }
{
    for text in rows {
        let answer = ask(alloc, bank, board, text);
        let title = title_of(text);
        let _ = print!(rt; "{title}: ");
        put_answer(rt, bank, board, answer);
        let _ = println!(rt; "");
    }
}

/// Writes pairs.
fn put_pairs(rt: &impl Print, bank: &Bank, board: &Board, pairs: &[Pair])
    requires { ArePairsOf bank.now pairs.now }
{
    for pair in pairs {
        let _ = print!(rt; " ");
        put_term(rt, bank, board, pair.left, DEPTH);
        let _ = print!(rt; " ");
        put_term(rt, bank, board, pair.right, DEPTH);
        let _ = print!(rt; ";");
    }
}

fn put_residue(
    rt: &impl Print,
    bank: &Bank,
    board: &Board,
    answer: Result<Option<Items<Pair>>, AllocError>,
)
    requires { IfOk answer (λ left. IfSome left (ArePairsOf bank.now)) }
{
    match answer {
        Ok(Some(left)) => {
            let count = left.len();
            let _ = print!(rt; "{count}:");
            put_pairs(rt, bank, board, left.as_slice());
        }
        Ok(None) => {
            let _ = print!(rt; "not a row");
        }
        Err(_) => {
            let _ = print!(rt; "no memory");
        }
    }
}

/// Tells what is left of each row's first pair.
pub(crate) fn tell_residues(
    rt: &impl Print,
    alloc: Global,
    bank: &mut Bank,
    board: &Board,
    rows: &[&str],
)
    requires { IsBoard bank.old board.now }
    ensures { IsBoard bank.new board.now }
{
    for text in rows {
        let answer = ask_residue(alloc, bank, board, text);
        let title = title_of(text);
        let _ = print!(rt; "{title}: ");
        put_residue(rt, bank, board, answer);
        let _ = println!(rt; "");
    }
}
