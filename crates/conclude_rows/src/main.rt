//! Concludes from clauses whose constraints are solved, and says what comes of it.
#![tactic(auto)]

mod asking;
mod board;
mod reading;
mod rows;
mod telling;
mod typing;
mod writing;

ghost use Rattle.conclude_rows.specs.Boards.{IsBoard};

use crate::board::{Board, make_board};
use crate::rows::{COUNTED, RESIDUES, SOLVED, UNCONSTRAINED};
use crate::telling::tell;
use leo_terms::Bank;
use std::alloc::Global;
use std::process::ExitCode;

fn all_rows(rt: &impl Print, alloc: Global, bank: &mut Bank, board: &Board)
    requires { IsBoard bank.old board.now }
{
    tell(rt, alloc, bank, board, UNCONSTRAINED);
    tell(rt, alloc, bank, board, SOLVED);
    tell(rt, alloc, bank, board, COUNTED);
    tell(rt, alloc, bank, board, RESIDUES);
}

fn main(rt: HostRuntime) -> ExitCode {
    let Ok(mut bank) = Bank::new(rt.alloc()) else {
        return ExitCode::FAILURE;
    };
    let Ok(board) = make_board(rt.alloc(), &mut bank) else {
        return ExitCode::FAILURE;
    };
    all_rows(&rt, rt.alloc(), &mut bank, &board);
    ExitCode::SUCCESS
}
