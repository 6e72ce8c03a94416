//! Notes on clauses: what is asked of each of many clauses again and again, side by side in memory.

ghost use Rattle.std.specs.Prelude.{◌≡◌, ◌≤◌, ◌<◌, ◌^◌, ◌++◌, ◌∷◌, [], List, IfOk, OnOk, length, take};
ghost use Rattle.std.specs.List.{AllByRecursion};
ghost use Rattle.fo_text.specs.declared.problem.FoClause.{FoClause};
ghost use Rattle.fo_text.specs.Words.{most_number};
ghost use Rattle.fo_super.specs.Notes.{AreMoreNotes, AreNotes};

use crate::marking::mask;
use crate::state::shorten;
use crate::weights::weight;
use fo_text::problem::FoClause;
use sqlite_items::Items;
use std::alloc::{AllocError, Global};

/// Notes on some clauses, in their order: the mask of each, in which each symbol marks a bit for the
/// place where it stands, and its weight.
#[derive(Drop)]
pub struct FoNotes {
    pub masks: Items<u64>,
    pub weights: Items<u128>,
}

impl FoNotes {
    /// Notes on no clause.
    pub fn new(alloc: Global) -> FoNotes
        ensures { AreNotes result [] }
    {
        FoNotes {
            masks: Items::new(alloc),
            weights: Items::new(alloc),
        }
    }

    /// Puts the note on a clause at the end. The only error is want of memory; a part of it may be
    /// there then.
    pub fn push(&mut self, alloc: Global, clause: &FoClause) -> Result<(), AllocError>
        requires { length clause.now.lits ≤ most_number }
        ensures noted { OnOk result ((cs : List FoClause) → AreNotes self.old cs → AreNotes self.new (cs ++ clause.now ∷ [])) }
        ensures more { AreMoreNotes self.old self.new }
    {
        let mask = mask(alloc, clause.lits.as_slice())?;
        self.masks.push(mask)?;
        self.weights.push(weight(clause))?;
        Ok(())
    }

    /// Notes on clauses. The only error is want of memory.
    pub fn of(alloc: Global, clauses: &[FoClause]) -> Result<FoNotes, AllocError>
        requires { AllByRecursion (λ c. length c.lits ≤ most_number) clauses.now }
        ensures { IfOk result (λ n. AreNotes n clauses.now) }
    {
        let mut notes = FoNotes::new(alloc);
        for clause in clauses {
            notes.push(alloc, clause)?;
        }
        Ok(notes)
    }

    /// Drops the notes behind the first, so many.
    pub(crate) fn cut(&mut self, count: usize)
        requires masks { count ≤ length self.old.masks }
        requires weights { count ≤ length self.old.weights }
        ensures masks { self.new.masks ≡ take count self.old.masks }
        ensures weights { self.new.weights ≡ take count self.old.weights }
    {
        shorten(&mut self.masks, count);
        shorten(&mut self.weights, count);
    }
}
