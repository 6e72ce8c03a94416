//! First-order problems.

use fo_terms::term::FoTerm;
use sqlite_items::Items;

/// A symbol: the sort of what it gives, and those of its arguments, each by its number.
#[derive(Drop)]
pub struct FoSym {
    pub result: u32,
    pub args: Items<u32>,
}

/// An equation of two terms of one sort, or, where it is not positive, its denial.
#[derive(Drop)]
pub struct FoLit {
    pub pos: bool,
    pub left: FoTerm,
    pub right: FoTerm,
}

/// Some literal holds, whatever its variables are. Each variable has its sort.
#[derive(Drop)]
pub struct FoClause {
    pub vars: Items<u32>,
    pub lits: Items<FoLit>,
}

/// A problem with the limits of the prover: how many turns it takes, and how heavy a clause may be
/// that it keeps.
#[derive(Drop)]
pub struct FoProblem {
    pub turns: u32,
    pub weight: u32,
    pub sorts: u32,
    pub syms: Items<FoSym>,
    pub clauses: Items<FoClause>,
}
