//! Infers from one clause alone, and says what comes of it.
#![tactic(auto)]

mod asking;
mod board;
mod reading;
mod rows;
mod telling;
mod typing;
mod writing;

ghost use Rattle.ext_rows.specs.Boards.{IsBoard};

use crate::board::{Board, make_board};
use crate::rows::{BINDINGS, CHOSEN, FACTORS, FUNCTIONS, ORDER, RESOLVING, TRUTH_VALUES};
use crate::telling::tell;
use leo_terms::Bank;
use std::alloc::Global;
use std::process::ExitCode;

fn all_rows(rt: &impl Print, alloc: Global, bank: &mut Bank, board: &Board)
    requires { IsBoard bank.old board.now }
{
    tell(rt, alloc, bank, board, RESOLVING);
    tell(rt, alloc, bank, board, FACTORS);
    tell(rt, alloc, bank, board, TRUTH_VALUES);
    tell(rt, alloc, bank, board, FUNCTIONS);
    tell(rt, alloc, bank, board, BINDINGS);
    tell(rt, alloc, bank, board, CHOSEN);
    tell(rt, alloc, bank, board, ORDER);
}

fn main(rt: HostRuntime) -> ExitCode {
    let Ok(mut bank) = Bank::new(rt.alloc()) else {
        return ExitCode::FAILURE;
    };
    let Ok(board) = make_board(rt.alloc(), &mut bank) else {
        return ExitCode::FAILURE;
    };
    all_rows(&rt, rt.alloc(), &mut bank, &board);
    ExitCode::SUCCESS
}
