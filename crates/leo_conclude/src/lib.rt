//! The conclusions of a member that is due: its constraints are solved, and what is left of them stands in their places.
#![tactic(auto)]

mod concluding;
mod derived;
mod instances;
mod relieving;

pub use concluding::{Conclusion, conclusions};
