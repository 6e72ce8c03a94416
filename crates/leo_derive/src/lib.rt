//! Derivations: whether each line is accepted and one of them is empty, and the lines on which the first empty one rests.
#![tactic(auto)]

mod checking;
pub mod laws;
mod marking;
mod numbering;
mod pruning;
mod refusal;
mod symbols;

pub use checking::{check, prune};
pub use numbering::numbered_record;
pub use refusal::CheckRefusal;
