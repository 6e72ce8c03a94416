//! The words of the programs' commands: what `leo3` and `leo3_check` are asked to do.
#![tactic(auto)]

mod asked;
mod check;
mod leo3;
mod numbers;
mod parsing;

pub use asked::{Asked, CommandRefusal};
pub use check::{Check, check_asked};
pub use leo3::{Search, Settings, leo3_asked};

#[cfg(test)]
mod tests;
