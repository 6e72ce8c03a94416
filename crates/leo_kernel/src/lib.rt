//! Which steps of a derivation are accepted: the kernel of the prover.
#![tactic(auto)]

mod asked;
mod check;
mod choice;
mod chosen;
mod chosen_claims;
mod chosen_matching;
mod chosen_shown;
mod compare;
mod conditions;
mod decompose;
mod equations;
mod forms;
mod fresh;
mod given;
mod leaves;
mod moving;
mod paramodulation;
mod parts;
mod places;
mod plain;
mod reason;
mod replacing;
mod rows;
mod shape;
mod symbols;
mod truths;
mod typed;
mod types;

pub use check::check_step;
pub use reason::{Reason, StepRefusal};
