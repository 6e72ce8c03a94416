//! One line for one outcome.

ghost use Rattle.keep_rows.specs.Boards.{IsBoard};

use crate::asking::{ask, title_of};
use crate::board::Board;
use leo_keep::Outcome;
use leo_terms::Bank;
use std::alloc::{AllocError, Global};

/// Tells what became of a row's clause.
fn put(rt: &impl Print, title: &str, answer: Result<Option<Outcome>, AllocError>) {
    let _ = match answer {
        Ok(Some(Outcome::Kept)) => println!(rt; "{title}: kept"),
        Ok(Some(Outcome::Clash)) => println!(rt; "{title}: clash"),
        Ok(Some(Outcome::Tautology)) => println!(rt; "{title}: tautology"),
        Ok(Some(Outcome::Room)) => println!(rt; "{title}: room"),
        Ok(Some(Outcome::Heavy)) => println!(rt; "{title}: heavy"),
        Ok(Some(Outcome::Copy(number))) => println!(rt; "{title}: copy of {number}"),
        Ok(Some(Outcome::Subsumed(number))) => println!(rt; "{title}: subsumed by {number}"),
        Ok(None) => println!(rt; "{title}: not a row"),
        Err(_) => println!(rt; "{title}: no memory"),
    };
}

/// Tells what becomes of each row's clause.
pub(crate) fn tell(rt: &impl Print, alloc: Global, bank: &mut Bank, board: &Board, rows: &[&str])
    requires { IsBoard bank.old board.now }
    ensures { IsBoard bank.new board.now }
{
    for text in rows {
        let answer = ask(alloc, bank, board, text);
        put(rt, title_of(text), answer);
    }
}
