//! First-order terms, substitutions and unification.
#![tactic(auto)]

mod arrange;
mod bindings;
mod classes;
mod places;
mod solve;
pub mod substitution;
pub mod term;
#[cfg(test)]
mod tests;
pub mod unify;
mod walk;
