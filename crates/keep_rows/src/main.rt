//! Keeps clauses, and says what becomes of one that is found.
#![tactic(auto)]

mod asking;
mod board;
mod reading;
mod rows;
mod telling;
mod typing;

ghost use Rattle.keep_rows.specs.Boards.{IsBoard};

use crate::board::{Board, make_board};
use crate::rows::{KEPT, LEAST, MATCHES, ROOM, TAUTOLOGIES, WEIGHTS};
use crate::telling::tell;
use leo_terms::Bank;
use std::alloc::Global;
use std::process::ExitCode;

fn all_rows(rt: &impl Print, alloc: Global, bank: &mut Bank, board: &Board)
    requires { IsBoard bank.old board.now }
{
    tell(rt, alloc, bank, board, KEPT);
    tell(rt, alloc, bank, board, TAUTOLOGIES);
    tell(rt, alloc, bank, board, WEIGHTS);
    tell(rt, alloc, bank, board, LEAST);
    tell(rt, alloc, bank, board, MATCHES);
    tell(rt, alloc, bank, board, ROOM);
}

fn main(rt: HostRuntime) -> ExitCode {
    let Ok(mut bank) = Bank::new(rt.alloc()) else {
        return ExitCode::FAILURE;
    };
    let Ok(board) = make_board(rt.alloc(), &mut bank) else {
        return ExitCode::FAILURE;
    };
    all_rows(&rt, rt.alloc(), &mut bank, &board);
    ExitCode::SUCCESS
}
