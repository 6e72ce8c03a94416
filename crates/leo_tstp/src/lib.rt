//! Derivations as text in TPTP's language TSTP.
#![tactic(auto)]

mod building;
mod clauses;
mod comparing;
mod hypotheses;
pub mod laws;
mod namer;
mod printing;
mod reading;
mod refusal;
mod rules;
mod terms;
mod text;
mod words;

pub use printing::print;
pub use refusal::TstpRefusal;
pub use text::read;
