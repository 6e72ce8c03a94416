//! Runs the prover on small problems, prints how it answers, and has the checker read each derivation.
#![tactic(auto)]

mod rows;
mod telling;

use crate::rows::ROWS;
use crate::telling::show;
use std::process::ExitCode;

fn main(rt: HostRuntime) -> ExitCode {
    for row in ROWS {
        show(&rt, row);
    }
    ExitCode::SUCCESS
}
