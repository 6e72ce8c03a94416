//! What a variable becomes.

use leo_items::Items;
use leo_terms::{TermId, TyId};

/// A variable becomes a term, over the variables so far and fresh ones of these types behind them.
#[derive(Drop)]
pub(crate) struct Binding {
    pub number: u32,
    pub fresh: Items<TyId>,
    pub term: TermId,
}

/// A variable that is bound by a guess.
#[derive(Drop)]
pub(crate) struct Frame {
    pub number: u32,
    /// The types of its arguments.
    pub outer: Items<TyId>,
    /// The arguments in the body of the function that it becomes.
    pub binders: Items<TermId>,
    /// The number of the next fresh variable.
    pub next: u32,
}

/// Fresh variables for values of types: the types of the variables, and each applied to all arguments.
#[derive(Drop)]
pub(crate) struct Fresh {
    pub types: Items<TyId>,
    pub values: Items<TermId>,
}
