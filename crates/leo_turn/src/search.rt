//! The state of a search.

use leo_clause::{Abbr, StepRecord};
use leo_items::Items;
use leo_keep::{Fronts, Kept};
use leo_passive::Passive;
use leo_terms::TermId;

/// A search for a refutation: its journal of accepted lines, and the clauses that it kept. The terms are those of a bank.
#[derive(Drop)]
pub struct Search {
    /// The hypotheses.
    pub hyps: Items<TermId>,
    /// The choice symbols with the terms that they stand for.
    pub abbr: Abbr,
    /// The line in which each of these is introduced.
    pub abbr_at: Items<u64>,
    /// The kept clauses.
    pub kept: Kept,
    /// What quick tests know of each of them.
    pub fronts: Fronts,
    /// The numbers of the active clauses, in the order in which they were given.
    pub active: Items<u32>,
    /// The numbers of the passive clauses, with their weights.
    pub passive: Passive,
    /// The journal.
    pub lines: Items<StepRecord>,
    /// The line of each kept clause.
    pub at: Items<u64>,
    /// How many turns there were.
    pub turns: u32,
    /// How deep unification guesses.
    pub depth: u8,
    /// The greatest weight of a clause that is kept.
    pub weight: u16,
}
