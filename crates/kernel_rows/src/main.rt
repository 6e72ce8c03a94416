//! Shows steps to the kernel, and says how it answers.
#![tactic(auto)]

mod board;
mod reading;
mod rows;
mod rules;
mod steps;
mod telling;

ghost use Rattle.kernel_rows.specs.Boards.{IsBoard};

use crate::board::{Board, make_board};
use crate::rows::{
    ARRANGEMENTS, ASSUMPTIONS, AXIOMS, CASES, CHOSEN_THINGS, CONNECTIVES, CONVERSIONS,
    DECOMPOSITIONS, DEFINITIONS, DERIVATION, DROPS, FACTORS, FUNCTIONS, HYPOTHESES, INSTANCES,
    LINES, PARAMODULANTS,
};
use crate::telling::{derive, put_hypotheses, put_lines, tell};
use leo_terms::Bank;
use std::alloc::Global;
use std::process::ExitCode;

fn all_rows(rt: &impl Print, alloc: Global, bank: &mut Bank, board: &mut Board)
    requires { IsBoard bank.old board.old }
{
    put_hypotheses(rt, alloc, bank, board, HYPOTHESES);
    put_lines(rt, alloc, bank, board, LINES);
    tell(rt, alloc, bank, board, ASSUMPTIONS);
    tell(rt, alloc, bank, board, CONVERSIONS);
    tell(rt, alloc, bank, board, INSTANCES);
    tell(rt, alloc, bank, board, PARAMODULANTS);
    tell(rt, alloc, bank, board, ARRANGEMENTS);
    tell(rt, alloc, bank, board, DROPS);
    tell(rt, alloc, bank, board, CONNECTIVES);
    tell(rt, alloc, bank, board, CHOSEN_THINGS);
    tell(rt, alloc, bank, board, CASES);
    tell(rt, alloc, bank, board, FUNCTIONS);
    tell(rt, alloc, bank, board, DECOMPOSITIONS);
    tell(rt, alloc, bank, board, AXIOMS);
    tell(rt, alloc, bank, board, FACTORS);
    tell(rt, alloc, bank, board, DEFINITIONS);
}

// The rows on one board, and the derivation on another.
fn both(rt: &impl Print, alloc: Global, bank: &mut Bank) {
    bank.is_sound();
    if let Ok(mut board) = make_board(alloc, bank) {
        all_rows(rt, alloc, bank, &mut board);
    }
    if let Ok(mut board) = make_board(alloc, bank) {
        put_hypotheses(rt, alloc, bank, &mut board, HYPOTHESES);
        derive(rt, alloc, bank, &mut board, DERIVATION);
    }
}

fn main(rt: HostRuntime) -> ExitCode {
    let Ok(mut bank) = Bank::new(rt.alloc()) else {
        return ExitCode::FAILURE;
    };
    both(&rt, rt.alloc(), &mut bank);
    ExitCode::SUCCESS
}
