//! The kept clauses of a search, and what becomes of a clause that was found.
#![tactic(auto)]

mod deciding;
mod fronts;
mod groups;
mod heads;
mod kept;
pub mod laws;
mod matching;
mod outcomes;
mod searching;
mod subsuming;
mod tautologies;
mod tops;

pub use deciding::outcome;
pub use fronts::{Front, front_of};
pub use groups::Fronts;
pub use kept::Kept;
pub use outcomes::Outcome;

#[cfg(test)]
mod tests;
