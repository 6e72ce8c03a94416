//! Solves pairs of terms, and writes what is found.
#![tactic(auto)]

mod asking;
mod board;
mod reading;
mod rows;
mod telling;
mod typing;

ghost use Rattle.unify_rows.specs.Boards.{IsBoard};

use crate::board::{Board, make_board};
use crate::rows::{BRANCHES, CASES, RESIDUES};
use crate::telling::{tell, tell_residues};
use leo_terms::Bank;
use std::alloc::Global;
use std::process::ExitCode;

fn all_rows(rt: &impl Print, alloc: Global, bank: &mut Bank, board: &Board)
    requires { IsBoard bank.old board.now }
{
    tell(rt, alloc, bank, board, CASES);
    tell(rt, alloc, bank, board, BRANCHES);
    tell_residues(rt, alloc, bank, board, RESIDUES);
}

fn main(rt: HostRuntime) -> ExitCode {
    let Ok(mut bank) = Bank::new(rt.alloc()) else {
        return ExitCode::FAILURE;
    };
    let Ok(board) = make_board(rt.alloc(), &mut bank) else {
        return ExitCode::FAILURE;
    };
    all_rows(&rt, rt.alloc(), &mut bank, &board);
    ExitCode::SUCCESS
}
