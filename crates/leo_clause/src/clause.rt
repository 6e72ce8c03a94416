//! Literals and clauses.

ghost use Rattle.std.specs.Prelude.{◌≡◌, ◌↔◌, [], IsTrue, IfOk};

use leo_items::Items;
use leo_terms::{TermId, TyId};
use std::alloc::{AllocError, Global};

/// An equation of two terms of one type, or its negation.
#[derive(Clone, Copy, Debug, PartialEq, Eq, Hash)]
pub struct Lit {
    /// Whether it is the equation itself.
    pub pos: bool,
    pub left: TermId,
    pub right: TermId,
}

/// A clause: whatever its variables stand for, one of its literals holds. The clause without literals is never true.
#[derive(Drop)]
pub struct Clause {
    /// The types of the variables. The variable with number i has the type `vars[i]`.
    pub vars: Items<TyId>,
    pub lits: Items<Lit>,
}

impl Clause {
    /// The same clause once more.
    pub fn copy(&self, alloc: Global) -> Result<Clause, AllocError>
        ensures { IfOk result (λ c. c ≡ self.now) }
    {
        let vars = Items::from_slice(alloc, self.vars.as_slice())?;
        let lits = Items::from_slice(alloc, self.lits.as_slice())?;
        Ok(Clause { vars, lits })
    }

    /// Whether it has no literals, so that it is never true.
    pub fn is_empty(&self) -> bool
        ensures { IsTrue result ↔ (self.now.lits ≡ []) }
    {
        self.lits.is_empty()
    }
}
