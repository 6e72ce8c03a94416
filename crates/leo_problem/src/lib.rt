//! From the files of a problem to its hypotheses: what is read, in which order, and the first refusal.
#![tactic(auto)]

mod assuming;
mod folders;
mod gathered;
mod gathering;
mod generating;
pub mod laws;
mod loaded;
mod loading;
mod reading;
mod refusal;
mod roles;
mod ruling;
mod selecting;
mod theory;
mod typed;

pub use gathered::{Counts, Kept};
pub use generating::{generate, generated};
pub use loaded::{Hyp, Problem};
pub use loading::load;
pub use refusal::{LoadRefusal, What};
pub use roles::Role;

#[cfg(test)]
mod tests;
