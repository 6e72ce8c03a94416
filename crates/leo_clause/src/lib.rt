//! Clauses of equations between terms of a bank, and the records of the steps that lead to them.
#![tactic(auto)]

mod arranging;
mod choices;
mod clause;
mod record;
mod weighing;

pub use arranging::{arranged, distinct, order_in, order_of};
pub use choices::Abbr;
pub use clause::{Clause, Lit};
pub use record::{Half, LogicKind, Rule, Side, StepRecord};
pub use weighing::weight;

#[cfg(test)]
mod tests;
