//! Runs the child prover on small problems, prints how it answers, and replays each refutation.
#![tactic(auto)]

mod replaying;
mod rows;
mod telling;

use crate::rows::ROWS;
use crate::telling::show;
use std::process::ExitCode;

fn main(rt: HostRuntime) -> ExitCode {
    for row in ROWS {
        show(&rt, row);
    }
    ExitCode::SUCCESS
}
