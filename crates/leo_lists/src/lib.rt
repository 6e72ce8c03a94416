//! Lists of slots in one table, linked by index: a slot is put at the end of a list and taken out of its list
//! without a search.
#![tactic(auto)]

mod rings;
mod slots;
#[cfg(test)]
mod tests;

pub use slots::Slots;
