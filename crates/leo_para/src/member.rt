//! What an inference that is due gives.

use leo_clause::StepRecord;
use leo_items::Items;

/// An inference that is due: its conclusion, and the literals of the conclusion that are to be solved.
///
/// The call that gives it says on which first lines its records follow. They are numbered on from these, in order, and
/// the clause of the last one is what the kernel concludes, with nothing solved yet.
#[derive(Drop)]
pub struct Due {
    pub records: Items<StepRecord>,
    /// The numbers of the literals of the last record's clause that are to be solved, in the order in which they stand
    /// there.
    pub pairs: Items<u32>,
}
