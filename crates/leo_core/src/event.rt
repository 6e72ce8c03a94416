//! The events of a run, and what it owes.

/// Why a run ended.
#[derive(Clone, Copy, Debug, PartialEq, Eq)]
pub enum Cause {
    /// The empty clause is kept.
    Won,
    /// There were as many turns as the limit allows.
    Limit,
    /// No clause is passive.
    Exhausted,
    /// There was no memory. This may come at any time.
    Memory,
}

/// What happened in a run.
#[derive(Clone, Copy, Debug, PartialEq, Eq)]
pub enum Event {
    /// A turn, with the number of the given clause and how many clauses were kept in it.
    Turn { given: u32, kept: u32 },
    /// The end, which comes last.
    Ended(Cause),
}

/// What a run owes next.
#[derive(Clone, Copy, Debug, PartialEq, Eq)]
pub enum Owed {
    End(Cause),
    Turn,
}
