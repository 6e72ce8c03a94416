//! The laws of Q0 with choice that the rules of the kernel rest on.
#![tactic(auto)]

pub mod laws;
