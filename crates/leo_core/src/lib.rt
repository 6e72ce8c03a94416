//! The machine of the search, and the book, which is one run of it.
#![tactic(auto)]

mod book;
mod event;
pub mod laws;
mod refuted;
mod settings;
mod terms;

pub use book::Book;
pub use event::{Cause, Event, Owed};
pub use settings::Settings;
