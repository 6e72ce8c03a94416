//! Solutions.

use leo_items::Items;
use leo_terms::{TermId, TyId};

/// A term for each variable that was handed in.
#[derive(Drop)]
pub struct Sigma {
    /// The types of the variables of the terms: those that were handed in, under their numbers, and fresh ones behind them.
    pub vars: Items<TyId>,
    /// The terms, in the order of the variables that were handed in.
    pub terms: Items<TermId>,
}
