//! Paramodulates from one clause into another, and says what comes of it.
#![tactic(auto)]

mod asking;
mod board;
mod reading;
mod rows;
mod telling;
mod typing;
mod writing;

ghost use Rattle.para_rows.specs.Boards.{IsBoard};

use crate::board::{Board, make_board};
use crate::rows::{DIRECTIONS, FORMULAS, PLACES, VARIABLES};
use crate::telling::tell;
use leo_terms::Bank;
use std::alloc::Global;
use std::process::ExitCode;

fn all_rows(rt: &impl Print, alloc: Global, bank: &mut Bank, board: &Board)
    requires { IsBoard bank.old board.now }
{
    tell(rt, alloc, bank, board, DIRECTIONS);
    tell(rt, alloc, bank, board, FORMULAS);
    tell(rt, alloc, bank, board, PLACES);
    tell(rt, alloc, bank, board, VARIABLES);
}

fn main(rt: HostRuntime) -> ExitCode {
    let Ok(mut bank) = Bank::new(rt.alloc()) else {
        return ExitCode::FAILURE;
    };
    let Ok(board) = make_board(rt.alloc(), &mut bank) else {
        return ExitCode::FAILURE;
    };
    all_rows(&rt, rt.alloc(), &mut bank, &board);
    ExitCode::SUCCESS
}
