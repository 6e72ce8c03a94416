//! What becomes of clauses.

/// What becomes of a clause that was found.
#[derive(Clone, Copy, Debug, PartialEq, Eq)]
pub enum FoOutcome {
    /// It is kept.
    Kept,
    /// It always holds.
    Tautology,
    /// It has too many literals, or too many clauses are kept.
    Room,
    /// It weighs too much, or the lines that give it would not replay.
    Heavy,
    /// The clause with this number is the same.
    Copy(u32),
    /// The clause with this number says no less.
    Subsumed(u32),
}
