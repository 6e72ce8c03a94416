//! Shows derivations over a small problem, and says how each is answered and what is left of a refutation.
#![tactic(auto)]

mod cases;
mod given;
mod lines;
mod telling;

use crate::cases::Case;
use crate::telling::row;
use std::process::ExitCode;

fn main(rt: HostRuntime) -> ExitCode {
    row(&rt, "six lines that refute the problem", Case::Whole);
    row(&rt, "without the last two", Case::NoEnd);
    row(&rt, "the other literal is dropped", Case::WrongDrop);
    row(&rt, "a hypothesis a second time", Case::Twice);
    row(&rt, "no line", Case::Nothing);
    row(&rt, "a hypothesis that is not there", Case::NoHypothesis);
    row(
        &rt,
        "two abbreviations, one of them used",
        Case::Abbreviated,
    );
    row(&rt, "one step ten thousand times", Case::Many);
    ExitCode::SUCCESS
}
