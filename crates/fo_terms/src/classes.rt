//! Classes of places, each with its first place as root.

ghost use Rattle.std.specs.Prelude.{◌≡◌, ◌≢◌, ◌<◌, ◌≤◌, ℕ, length, slice_get, IfOk, Some};
ghost use Rattle.fo_terms.specs.Terms.{Term};
ghost use Rattle.fo_terms.specs.Classes.{IsForest, IsAlong, AreAlone, roots};

use crate::places::place_at;
use std::alloc::{AllocError, Global};

/// Each place with another of its class that does not stand after it; a root with itself.
#[derive(Drop)]
pub(crate) struct Classes {
    pub(crate) parents: Vec<usize>,
}

impl Classes {
    /// Each of so many places in a class of its own.
    pub(crate) fn new(alloc: Global, count: usize) -> Result<Classes, AllocError>
        ensures as_long { IfOk result (λ c. length c.parents.items ≡ count) }
        ensures alone { IfOk result (λ c. AreAlone c.parents.items) }
    {
        let mut parents = Vec::new(alloc);
        for place in 0..count {
            parents.push(place)?;
        }
        Ok(Classes { parents })
    }

    /// The root of a place's class.
    pub(crate) fn root(&self, at: usize) -> usize
        requires forest { IsForest self.now.parents.items }
        requires inside { at < length self.now.parents.items }
        ensures root { slice_get self.now.parents.items result ≡ Some result }
        ensures same { (g : ℕ → Term) → IsAlong g self.now.parents.items → g result ≡ g at }
    {
        let mut here = at;
        loop {
            let next = place_at(&self.parents, here);
            if next == here {
                return here;
            }
            here = next;
        }
    }

    /// Makes the classes of two roots one.
    pub(crate) fn join(&mut self, left: usize, right: usize)
        requires forest { IsForest self.old.parents.items }
        requires left { slice_get self.old.parents.items left ≡ Some left }
        requires right { slice_get self.old.parents.items right ≡ Some right }
        requires apart { left ≢ right }
        ensures forest { IsForest self.new.parents.items }
        ensures as_long { length self.new.parents.items ≡ length self.old.parents.items }
        ensures from { (g : ℕ → Term) → IsAlong g self.new.parents.items → IsAlong g self.old.parents.items × (g left ≡ g right) }
        ensures back { (g : ℕ → Term) → IsAlong g self.old.parents.items → g left ≡ g right → IsAlong g self.new.parents.items }
        ensures fewer { roots self.new.parents.items < roots self.old.parents.items }
    {
        if left < right {
            put(&mut self.parents, right, left);
        } else {
            put(&mut self.parents, left, right);
        }
    }
}

/// Puts the class of a root under an earlier one.
fn put(parents: &mut Vec<usize>, root: usize, under: usize)
    requires forest { IsForest parents.old.items }
    requires root { slice_get parents.old.items root ≡ Some root }
    requires under { slice_get parents.old.items under ≡ Some under }
    requires earlier { under < root }
    ensures forest { IsForest parents.new.items }
    ensures as_long { length parents.new.items ≡ length parents.old.items }
    ensures from { (g : ℕ → Term) → IsAlong g parents.new.items → IsAlong g parents.old.items × (g under ≡ g root) }
    ensures back { (g : ℕ → Term) → IsAlong g parents.old.items → g under ≡ g root → IsAlong g parents.new.items }
    ensures fewer { roots parents.new.items < roots parents.old.items }
{
    parents[root] = under;
}
