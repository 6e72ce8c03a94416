//! One line for one answer.

ghost use Rattle.kernel_rows.specs.Boards.{IsBoard};

use crate::board::{Board, put_hypothesis};
use crate::steps::{Answer, ask, put_line, title_of};
use leo_kernel::Reason;
use leo_terms::Bank;
use std::alloc::{AllocError, Global};

fn name_of(reason: Reason) -> &'static str {
    match reason {
        Reason::Parent => "parent",
        Reason::Literal => "literal",
        Reason::Place => "place",
        Reason::Types => "types",
        Reason::Symbol => "symbol",
        Reason::Shape => "shape",
        Reason::NoEmpty => "no empty line",
    }
}

fn text_of(answer: Answer) -> &'static str {
    match answer {
        Answer::Accepted => "accepted",
        Answer::Refused(reason) => name_of(reason),
        Answer::NoMemory => "no memory",
        Answer::NoRow => "not a row",
    }
}

/// Tells how the kernel answers to a row.
fn row(rt: &impl Print, alloc: Global, bank: &mut Bank, board: &Board, text: &str) -> Answer
    requires { IsBoard bank.old board.now }
    ensures { IsBoard bank.new board.now }
{
    let answer = ask(alloc, bank, board, text).unwrap_or(Answer::NoMemory);
    let (title, told) = (title_of(text), text_of(answer));
    let _ = println!(rt; "{title}: {told}");
    answer
}

/// Tells how the kernel answers to each row.
pub(crate) fn tell(rt: &impl Print, alloc: Global, bank: &mut Bank, board: &Board, rows: &[&str])
    requires { IsBoard bank.old board.now }
    ensures { IsBoard bank.new board.now }
{
    for text in rows {
        row(rt, alloc, bank, board, text);
    }
}

/// Says where a text could not be put on the board.
fn report(rt: &impl Print, text: &str, put: Result<bool, AllocError>) {
    let told = match put {
        Ok(true) => return,
        Ok(false) => "not a row",
        Err(_) => "no memory",
    };
    let _ = println!(rt; "{text}: {told}");
}

/// Puts the line of each row on the board.
pub(crate) fn put_lines(
    rt: &impl Print,
    alloc: Global,
    bank: &mut Bank,
    board: &mut Board,
    rows: &[&str],
)
    requires { IsBoard bank.old board.old }
    ensures { IsBoard bank.new board.new }
{
    for text in rows {
        let put = put_line(alloc, bank, board, text);
        report(rt, text, put);
    }
}

/// Puts a hypothesis on the board for each text of one term.
pub(crate) fn put_hypotheses(
    rt: &impl Print,
    alloc: Global,
    bank: &mut Bank,
    board: &mut Board,
    texts: &[&str],
)
    requires { IsBoard bank.old board.old }
    ensures { IsBoard bank.new board.new }
{
    for text in texts {
        let put = put_hypothesis(alloc, bank, board, text);
        report(rt, text, put);
    }
}

/// Tells how the kernel answers to a row, and puts its line on the board where the kernel accepts.
fn next_line(rt: &impl Print, alloc: Global, bank: &mut Bank, board: &mut Board, text: &str)
    requires { IsBoard bank.old board.old }
    ensures { IsBoard bank.new board.new }
{
    let answer = row(rt, alloc, bank, board, text);
    if let Answer::Accepted = answer {
        let put = put_line(alloc, bank, board, text);
        report(rt, text, put);
    }
}

/// Tells how the kernel answers to each row of a derivation, whose lines are those that it accepts.
pub(crate) fn derive(
    rt: &impl Print,
    alloc: Global,
    bank: &mut Bank,
    board: &mut Board,
    rows: &[&str],
)
    requires { IsBoard bank.old board.old }
    ensures { IsBoard bank.new board.new }
{
    for text in rows {
        next_line(rt, alloc, bank, board, text);
    }
}
