//! The settings of a run.

/// The settings of a run.
#[derive(Clone, Copy, Debug, PartialEq, Eq)]
pub struct Settings {
    /// How many turns a run may have: 1 to 1,000,000.
    pub turns: u32,
    /// How deep unification guesses: 0 to 6.
    pub depth: u8,
    /// The greatest weight of a clause that is kept: 1 to 512.
    pub weight: u16,
}
