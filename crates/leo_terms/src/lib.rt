//! A bank of shared simply typed lambda terms with de Bruijn indices.
#![tactic(auto)]

mod bank;
mod copy;
mod facts;
pub mod laws;
mod lift;
mod memo;
mod node;
mod normal;
mod part;
mod subst;
mod typing;

pub use bank::Bank;
pub use memo::DEPTH;
pub use node::{Op, SymId, TermId, TyId, TyView, View};

#[cfg(test)]
mod tests;
