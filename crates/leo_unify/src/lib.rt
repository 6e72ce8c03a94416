//! Bounded higher-order unification.
#![tactic(auto)]

mod act;
mod binding;
mod bodies;
mod cover;
mod guesses;
mod heads;
pub mod laws;
mod pairs;
mod pattern;
mod residues;
mod search;
mod sigma;
mod solving;
mod spine;
mod state;

pub use pairs::{Application, Chosen, Pair, application_of, choice_of, is_symbol};
pub use residues::residue;
pub use sigma::Sigma;
pub use solving::solve;
