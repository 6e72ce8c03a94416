//! Choice symbols and the closed terms that they stand for.

ghost use Rattle.std.specs.Prelude.{◌≡◌, [], IfOk};

use leo_items::Items;
use leo_terms::{SymId, TermId};
use std::alloc::{AllocError, Global};

/// The choice symbols, each with the closed term that it stands for, in the order in which they were made.
#[derive(Drop)]
pub struct Abbr {
    pub items: Items<(SymId, TermId)>,
}

impl Abbr {
    /// No symbols.
    pub fn new(alloc: Global) -> Abbr
        ensures { result.items ≡ [] }
    {
        Abbr {
            items: Items::new(alloc),
        }
    }

    /// The same symbols once more.
    pub fn copy(&self, alloc: Global) -> Result<Abbr, AllocError>
        ensures { IfOk result (λ a. a ≡ self.now) }
    {
        let items = Items::from_slice(alloc, self.items.as_slice())?;
        Ok(Abbr { items })
    }
}
