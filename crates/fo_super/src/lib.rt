//! The machine of the child prover: superposition over first-order clauses.
#![tactic(auto)]

pub mod applying;
mod candidates;
pub mod conditions;
pub mod deciding;
pub mod factoring;
pub mod identity;
pub mod images;
pub mod laws;
pub mod literals;
mod marking;
mod matching;
pub mod member;
pub mod members;
mod nodes;
pub mod notes;
pub mod numbering;
pub mod outcomes;
pub mod resolving;
mod sites;
pub mod state;
pub mod subsuming;
pub mod superposing;
pub mod tautologies;
mod terms;
#[cfg(test)]
mod tests;
#[cfg(test)]
mod turn_tests;
pub mod turning;
pub mod typing;
pub mod weights;
mod working;
