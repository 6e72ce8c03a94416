//! The search for a refutation: its journal, and what becomes of the clauses that it finds.
#![tactic(auto)]

mod choices;
mod inferring;
mod journal;
mod keeping;
mod marks;
mod normal;
mod partnering;
mod search;
mod starting;
mod taking;
mod turning;
mod working;

pub use search::Search;
pub use starting::start;
pub use taking::intake;
pub use turning::{TurnRecord, turn};
