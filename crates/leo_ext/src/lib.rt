//! What is inferred from one clause alone: which members are due, with their records.
#![tactic(auto)]

mod binding;
mod bool_ext;
mod choice;
mod choosing;
mod factor;
mod func_ext;
mod heads;
mod joining;
pub mod laws;
mod literals;
mod members;
mod primitive;
mod resolve;
mod substituting;
mod terms;
mod truths;

pub use bool_ext::put_bool_ext;
pub use choice::put_choice;
pub use factor::put_factor;
pub use func_ext::{Extended, all_extended, put_func_ext};
pub use joining::unary;
pub use primitive::put_primitive;
pub use resolve::put_resolve;
pub use truths::{Truths, make_truths};
