//! Terms by number, in the order in which they were added.

ghost use Rattle.std.specs.Prelude.{◌≡◌, ◌↔◌, ◌++◌, ◌∷◌, [], IfOk, OnOk, IsTrue};
ghost use Rattle.fo_index.specs.Meeting.{IsUnifiable, HasOnlyMet, HasAllMet};

use fo_terms::term::FoTerm;
use fo_terms::unify::unify;
use std::alloc::{AllocError, Global};
use std::marker::Model;

/// Terms, each with a number. A contract sees the list of the pairs.
#[derive(Drop)]
pub struct FoIndex {
    entries: Vec<(u32, FoTerm)>,
}

impl Model for FoIndex {
    ghost use Rattle.std.specs.Prelude.{List, ℕ};
    ghost use Rattle.fo_terms.specs.Terms.{Term};

    ghost Value = { List (ℕ × Term) };

    ghost use Rattle.std.specs.Coded.{codes};
    ghost use Rattle.fo_terms.specs.contracts.term.FoTerm as term;

    ghost coded = { Prim.hlevel (codes, term.the_row.coded) };

    ghost view = { λ i. i.entries.items };
}

/// Whether some substitution makes both terms one. The only error is want of memory.
fn unifies(alloc: Global, first: &FoTerm, second: &FoTerm) -> Result<bool, AllocError>
    ensures { IfOk result (λ met. IsTrue met ↔ IsUnifiable first.now second.now) }
{
    match unify(alloc, first, second)? {
        None => Ok(false),
        Some(_) => Ok(true),
    }
}

impl FoIndex {
    /// No terms.
    pub fn new(alloc: Global) -> FoIndex
        ensures { result ≡ [] }
    {
        FoIndex {
            entries: Vec::new(alloc),
        }
    }

    /// Adds a copy of a term behind the others. The only error is want of memory.
    pub fn add(&mut self, alloc: Global, term: &FoTerm, number: u32) -> Result<(), AllocError>
        ensures { OnOk result (self.new ≡ self.old ++ (number, term.now) ∷ []) }
    {
        let copy = term.try_clone(alloc)?;
        self.entries.push((number, copy))?;
        Ok(())
    }

    /// The numbers of the stored terms that unify with a term, as their variables stand. Each stored
    /// term is tried. The only error is want of memory.
    pub fn meet(&self, alloc: Global, term: &FoTerm) -> Result<Vec<u32>, AllocError>
        ensures only { IfOk result (λ found. HasOnlyMet term.now self.now found.items) }
        ensures all { IfOk result (λ found. HasAllMet term.now self.now found.items) }
    {
        let mut found = Vec::new(alloc);
        for (number, stored) in &self.entries {
            if unifies(alloc, stored, term)? {
                found.push(*number)?;
            }
        }
        Ok(found)
    }
}
