//! The two texts of a child prover: problems and answers.
#![tactic(auto)]

pub mod answer;
mod clauses;
mod field;
mod known;
mod lines;
mod literals;
mod nodes;
mod number;
pub mod problem;
pub mod read;
pub mod read_answer;
pub mod refusal;
mod steps;
mod symbols;
mod terms;
#[cfg(test)]
mod tests;
mod words;
pub mod write;
pub mod write_answer;
