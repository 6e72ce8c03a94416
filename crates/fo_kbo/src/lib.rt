//! The Knuth-Bendix order on first-order terms.
#![tactic(auto)]

mod descent;
mod difference;
mod heads;
pub mod laws;
mod nodes;
pub mod order;
mod outward;
mod passing;
mod tally;
#[cfg(test)]
mod tests;
