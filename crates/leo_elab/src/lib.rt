//! From parse trees to typed terms: what the types and formulas of a problem mean.
#![tactic(auto)]

mod checking;
mod declaring;
mod firsts;
pub mod laws;
mod names;
mod quantifiers;
mod refusal;
mod scope;
mod signs;
mod terms;
mod types;
mod typings;

pub use declaring::declare_all;
pub use firsts::Typing;
pub use names::Names;
pub use refusal::{ElabRefusal, TypingsRefusal};
pub use terms::elaborate;
pub use typings::declare;

#[cfg(test)]
mod tests;
