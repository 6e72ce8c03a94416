//! A problem in a bank.

use crate::roles::Role;
use leo_elab::Names;
use leo_items::Items;
use leo_terms::{Bank, TermId};

/// A hypothesis: its formula in the bank, which is negated if it is a conjecture, and the file, the
/// name and the role of its statement.
#[derive(Drop)]
pub struct Hyp {
    pub term: TermId,
    pub file: Items<u8>,
    pub name: Items<u8>,
    pub role: Role,
}

/// A problem: its atoms, its hypotheses in order, whether there is a conjecture among them, and how
/// many statements were kept.
#[derive(Drop)]
pub struct Problem {
    pub bank: Bank,
    pub names: Names,
    pub hyps: Items<Hyp>,
    pub conjecture: bool,
    pub statements: u32,
}
