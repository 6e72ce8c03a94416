//! The child prover's top call: a problem text is read from a source, and its answer is put to a sink.
#![tactic(auto)]

mod ends;
pub mod laws;
mod lines;
mod needed;
mod own;
mod reading;
mod running;
mod status;
mod steps;
mod top;
mod writing;

pub use status::{FoEnding, FoStatus};
pub use top::prove;
