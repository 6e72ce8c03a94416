//! The passive clauses: numbers with their weights, taken by age or by weight.
#![tactic(auto)]

mod passive;
#[cfg(test)]
mod tests;

pub use passive::Passive;
