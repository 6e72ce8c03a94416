//! The answer of the prover to a command: what it reads, how its search ends and what it writes.
#![tactic(auto)]

mod alone;
mod answer;
mod check;
mod check_answer;
mod check_status;
mod lines;
mod program;
mod refusal;
mod running;
mod searching;
mod status;
#[cfg(test)]
mod tests;
mod texts;
mod writing;

pub use alone::{Alone, leo3_alone};
pub use check::{CheckEnding, check_proof};
pub use check_status::CheckStatus;
pub use program::command_words;
pub use status::Status;
