//! Splits clauses, and shows the leaves with their records.
#![tactic(auto)]

mod asking;
mod board;
mod naming;
mod reading;
mod rows;
mod telling;
mod typing;

ghost use Rattle.clausify_rows.specs.Boards.{IsBoard};

use crate::board::{Board, make_board};
use crate::rows::{CONNECTIVES, MANY, ORDERS, OTHERS, QUANTIFIERS, TRUTH_VALUES};
use crate::telling::{Tale, tell};
use leo_terms::Bank;
use std::alloc::Global;
use std::process::ExitCode;

fn all_rows(rt: &impl Print, alloc: Global, bank: &mut Bank, board: &Board)
    requires { IsBoard bank.old board.now }
{
    tell(rt, alloc, bank, board, Tale::Leaves, TRUTH_VALUES);
    tell(rt, alloc, bank, board, Tale::Leaves, CONNECTIVES);
    tell(rt, alloc, bank, board, Tale::Leaves, ORDERS);
    tell(rt, alloc, bank, board, Tale::Leaves, QUANTIFIERS);
    tell(rt, alloc, bank, board, Tale::Leaves, OTHERS);
    tell(rt, alloc, bank, board, Tale::Counts, MANY);
}

fn main(rt: HostRuntime) -> ExitCode {
    let Ok(mut bank) = Bank::new(rt.alloc()) else {
        return ExitCode::FAILURE;
    };
    let Ok(board) = make_board(rt.alloc(), &mut bank) else {
        return ExitCode::FAILURE;
    };
    all_rows(&rt, rt.alloc(), &mut bank, &board);
    ExitCode::SUCCESS
}
