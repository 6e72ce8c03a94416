//! A `Vec` and a `Box` that contracts see as what they hold, so that a tree of them is plain data.
#![tactic(auto)]

pub use sqlite_items::{Boxed, Items};
