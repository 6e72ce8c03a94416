//! Terms by number, and which of them unify with a term.
#![tactic(auto)]

pub mod index;
#[cfg(test)]
mod tests;
