//! Soundness of the kernel: what accepted lines say is derivable in Q0 with choice, each rule by a derivation of its own.
#![tactic(auto)]

pub mod laws;
