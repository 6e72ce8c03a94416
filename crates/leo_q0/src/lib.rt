//! Q0 with choice: its terms, its axioms and its rule.
//!
//! The system is Andrews' Q0 (An Introduction to Mathematical Logic and Type Theory, chapter 5) with any
//! number of base types. His schemas of conversion are taken as one schema, and in the place of his
//! axiom of descriptions stands an axiom of choice at each type. `specs/` has the definitions that the
//! whole prover is believed by: types and terms, substitution, the closed terms of the connectives,
//! the axioms, rule R and derivability.
#![tactic(auto)]

pub mod axioms;
pub mod connectives;
pub mod laws;
pub mod rule;
pub mod substitution;
pub mod syntax;
#[cfg(test)]
mod tests;
pub mod typing;
