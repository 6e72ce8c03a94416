//! Places joined to rings, in which each knows the one before and the one after.
ghost use Rattle.std.specs.Prelude.{◌≡◌, ◌≤◌, ◌-◌, ◌++◌, length, replicate, MatchResult};
ghost use Rattle.leo_lists.specs.Rings.{no_link, own_links, grown, IsPlace, link_at, with_after, with_before, joined};
ghost use Rattle.leo_lists.specs.Views.{table_of};

use std::alloc::{AllocError, Global};

/// A place in a ring: the head of a list, or a slot.
#[derive(Clone, Copy, Debug, PartialEq, Eq)]
pub enum Place {
    Head(u32),
    Slot(u32),
}

/// The places before and after one.
#[derive(Clone, Copy, Debug)]
pub struct Link {
    pub before: Place,
    pub after: Place,
}

/// The links of all heads and slots.
#[derive(Drop)]
pub struct Rings {
    pub heads: Vec<Link, Global>,
    pub slots: Vec<Link, Global>,
}

impl Rings {
    // The links of a place.
    pub fn link(&self, place: Place) -> Link
        requires { IsPlace (table_of self.now) place }
        ensures { result ≡ link_at (table_of self.now) place }
    {
        match place {
            Place::Head(list) => self.heads[list as usize],
            Place::Slot(slot) => self.slots[slot as usize],
        }
    }

    fn set_after(&mut self, place: Place, after: Place)
        requires { IsPlace (table_of self.old) place }
        ensures { table_of self.new ≡ with_after (table_of self.old) place after }
    {
        let link = Link {
            after,
            before: self.link(place).before,
        };
        match place {
            Place::Head(list) => self.heads[list as usize] = link,
            Place::Slot(slot) => self.slots[slot as usize] = link,
        }
    }

    fn set_before(&mut self, place: Place, before: Place)
        requires { IsPlace (table_of self.old) place }
        ensures { table_of self.new ≡ with_before (table_of self.old) place before }
    {
        let link = Link {
            before,
            after: self.link(place).after,
        };
        match place {
            Place::Head(list) => self.heads[list as usize] = link,
            Place::Slot(slot) => self.slots[slot as usize] = link,
        }
    }

    // From now on the second place comes right after the first.
    pub fn join(&mut self, first: Place, second: Place)
        requires { IsPlace (table_of self.old) first × IsPlace (table_of self.old) second }
        ensures { table_of self.new ≡ joined (table_of self.old) first second }
    {
        self.set_after(first, second);
        self.set_before(second, first);
    }

    // Heads of empty lists, up to so many in all.
    pub fn add_heads(&mut self, lists: u32) -> Result<(), AllocError>
        requires { length self.old.heads.items ≤ lists }
        ensures slots { self.new.slots.items ≡ self.old.slots.items }
        ensures heads { MatchResult result
            (λ _. self.new.heads.items ≡ self.old.heads.items ++ own_links (length self.old.heads.items) (lists - length self.old.heads.items))
            (λ _. self.new.heads.items ≡ self.old.heads.items) }
    {
        let count = self.heads.len();
        for list in count as u32..lists {
            let head = Place::Head(list);
            let link = Link {
                before: head,
                after: head,
            };
            if self.heads.push(link).is_err() {
                self.heads.truncate(count);
                return Err(AllocError);
            }
        }
        Ok(())
    }

    // Slots, up to so many in all.
    pub fn add_slots(&mut self, slots: u32) -> Result<(), AllocError>
        requires { length self.old.slots.items ≤ slots }
        ensures heads { self.new.heads.items ≡ self.old.heads.items }
        ensures slots { MatchResult result
            (λ _. self.new.slots.items ≡ self.old.slots.items ++ replicate (slots - length self.old.slots.items) no_link)
            (λ _. self.new.slots.items ≡ self.old.slots.items) }
    {
        let none = Place::Head(0);
        let link = Link {
            before: none,
            after: none,
        };
        self.slots.resize(slots as usize, link)
    }

    // Heads of empty lists and slots, up to so many in all; where there is no memory, as before.
    pub fn grow(&mut self, lists: u32, slots: u32) -> Result<(), AllocError>
        requires { (length self.old.heads.items ≤ lists) × (length self.old.slots.items ≤ slots) }
        ensures { MatchResult result
            (λ _. table_of self.new ≡ grown (table_of self.old) (lists - length self.old.heads.items) (replicate (slots - length self.old.slots.items) no_link))
            (λ _. table_of self.new ≡ table_of self.old) }
    {
        let count = self.heads.len();
        self.add_heads(lists)?;
        if self.add_slots(slots).is_err() {
            self.heads.truncate(count);
            return Err(AllocError);
        }
        Ok(())
    }
}
