//! What a split gives.

use leo_clause::{Clause, StepRecord};
use leo_items::Items;

/// A clause in which nothing can be reduced, in arranged form, with the records that lead to it.
///
/// The records are numbered on from the lines that abbreviate the choice symbols, in order, and one line with the clause
/// that was split.
#[derive(Drop)]
pub struct Leaf {
    pub clause: Clause,
    pub records: Items<StepRecord>,
}

/// The leaves of a clause, unless there are too many.
#[derive(Drop)]
pub enum Split {
    Clauses(Items<Leaf>),
    /// There are more than 256.
    Room,
}
