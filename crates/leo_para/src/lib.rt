//! Paramodulation between clauses: which members are due, and their steps.
#![tactic(auto)]

mod concluding;
mod due;
mod heads;
pub mod laws;
mod meeting;
mod member;
mod moving;
mod paramodulation;
mod replacing;
mod spots;
mod truths;

pub use member::Due;
pub use paramodulation::para;
