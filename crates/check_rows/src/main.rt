//! Checks texts against small problems, and prints what the checker answers.
#![tactic(auto)]

mod rows;
mod telling;

use crate::rows::ROWS;
use crate::telling::show;
use std::process::ExitCode;

fn main(rt: HostRuntime) -> ExitCode {
    for row in ROWS {
        show(&rt, row);
    }
    ExitCode::SUCCESS
}
