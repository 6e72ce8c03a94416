//! The replay of the steps of a refutation.
#![tactic(auto)]

mod copies;
pub mod drop;
mod instance;
pub mod para;
mod places;
pub mod replay;
mod sorts;
#[cfg(test)]
mod tests;
