//! Slots in lists.
ghost use Rattle.std.specs.Prelude.{◌≡◌, ℕ, ◌+◌, ◌-◌, ◌<◌, ◌≤◌, [], ◌++◌, map, length, replicate, slice_get, Some, IfOk, MatchResult};
ghost use Rattle.leo_lists.specs.Rings.{list_at, slot_of, StandsNowhere, Stands, pushed, without};

use crate::rings::{Place, Rings};
use std::alloc::{AllocError, Global};
use std::marker::Model;

/// Lists of slots, each slot in at most one list, once.
///
/// Clauses see the lists, and how many slots there are.
#[derive(Drop)]
pub struct Slots {
    rings: Rings,
}

impl Model for Slots {
    ghost use Rattle.std.specs.Prelude.{length};
    ghost use Rattle.leo_lists.specs.Lists.{Lists};
    ghost use Rattle.leo_lists.specs.Rings.{lists_of, HasLists};
    ghost use Rattle.leo_lists.specs.Views.{table_of};

    ghost Value = { Lists };

    ghost view = { λ s. record { slots = length s.rings.slots.items; lists = lists_of (table_of s.rings) } };

    ghost invariant = { λ s. HasLists (table_of s.rings) (lists_of (table_of s.rings)) };
}

impl Slots {
    /// So many empty lists, for so many slots.
    pub fn with(alloc: Global, lists: u32, slots: u32) -> Result<Slots, AllocError>
        ensures { IfOk result (λ s. s ≡ record { slots = slots; lists = replicate lists [] }) }
    {
        let mut all = Slots::none(alloc);
        all.grow(lists, slots)?;
        Ok(all)
    }

    fn none(alloc: Global) -> Slots
        ensures { result ≡ record { slots = 0; lists = [] } }
    {
        let rings = Rings {
            heads: Vec::new(alloc),
            slots: Vec::new(alloc),
        };
        Slots { rings }
    }

    /// Room for so many lists and slots in all. All lists stay, and the new ones are empty. Where there is no
    /// memory, all is as before.
    pub fn grow(&mut self, lists: u32, slots: u32) -> Result<(), AllocError>
        requires lists { length self.old.lists ≤ lists }
        requires slots { self.old.slots ≤ slots }
        ensures { MatchResult result
            (λ _. self.new ≡ record { slots = slots; lists = self.old.lists ++ replicate (lists - length self.old.lists) [] })
            (λ _. self.new ≡ self.old) }
    {
        self.rings.grow(lists, slots)
    }

    /// Puts the slot at the end of the list. All else stays. Takes no memory.
    pub fn push_back(&mut self, list: u32, slot: u32)
        requires list { list < length self.old.lists }
        requires slot { slot < self.old.slots }
        requires free { StandsNowhere self.old.lists slot }
        ensures { self.new ≡ record { slots = self.old.slots; lists = pushed self.old.lists list slot } }
    {
        let head = Place::Head(list);
        let slot = Place::Slot(slot);
        let tail = self.rings.link(head).before;
        self.rings.join(tail, slot);
        self.rings.join(slot, head);
    }

    /// Takes the slot out of its list. All else stays. Takes no memory.
    pub fn unlink(&mut self, slot: u32)
        requires { Stands self.old.lists slot }
        ensures { self.new ≡ record { slots = self.old.slots; lists = map (without slot) self.old.lists } }
    {
        let link = self.rings.link(Place::Slot(slot));
        self.rings.join(link.before, link.after);
    }

    /// The first slot of the list; none exactly where the list is empty. Takes no memory.
    pub fn front(&self, list: u32) -> Option<u32>
        requires { list < length self.now.lists }
        ensures { result ≡ slice_get (list_at self.now.lists list) 0 }
    {
        slot_of(self.rings.link(Place::Head(list)).after)
    }

    /// The slot right after this one in its list; none exactly at the last. Takes no memory.
    pub fn next(&self, slot: u32) -> Option<u32>
        requires { Stands self.now.lists slot }
        ensures { (l i : ℕ) → l < length self.now.lists → slice_get (list_at self.now.lists l) i ≡ Some slot → result ≡ slice_get (list_at self.now.lists l) (i + 1) }
    {
        slot_of(self.rings.link(Place::Slot(slot)).after)
    }
}

fn slot_of(place: Place) -> Option<u32>
    ensures { result ≡ slot_of place }
{
    match place {
        Place::Head(_) => None,
        Place::Slot(slot) => Some(slot),
    }
}
