//! Splitting of a clause into its leaves, the clauses in which no literal can be reduced any more.
#![tactic(auto)]

mod agenda;
mod branch;
mod choosing;
mod closing;
pub mod laws;
mod leaves;
mod literals;
mod moves;
mod reducing;
mod splitting;
mod ways;

pub use leaves::{Leaf, Split};
pub use splitting::split;
