//! How often the variables with small numbers occur.

ghost use Rattle.std.specs.Prelude.{◌≡◌, ◌<◌, ◌≤◌, ◌↔◌, ◌+◌, ℕ, List, true, false, Some, length, slice_get, IsTrue};
ghost use Rattle.fo_terms.specs.declared.term.FoNode.{FoNode};
ghost use Rattle.fo_terms.specs.Prefix.{IsPrefix};
ghost use Rattle.fo_terms.specs.Places.{term_at};
ghost use Rattle.fo_kbo.specs.Occurrences.{Covers};
ghost use Rattle.fo_kbo.specs.Tallies.{counted, IsTally, AreTallied};

use crate::nodes::{covers, node_at, part};
use fo_terms::term::FoNode;

/// So many variables are counted, those with the smallest numbers.
const COUNTED: usize = 64;

/// A count for each of these variables, and whether all that were met are among them.
#[derive(Clone, Copy, Debug)]
pub(crate) struct Tally {
    pub(crate) counts: [usize; COUNTED],
    pub(crate) small: bool,
}

impl Tally {
    pub(crate) fn new() -> Tally
        ensures { (ns : List FoNode) (at : ℕ) → IsTally ns at at result }
    {
        Tally {
            counts: [0; COUNTED],
            small: true,
        }
    }

    /// Counts the variable of a node.
    fn add(&mut self, node: FoNode)
        ensures { (ns : List FoNode) (a p : ℕ) → a ≤ p → slice_get ns p ≡ Some node → IsTally ns a p self.old → IsTally ns a (p + 1) self.new }
    {
        match node {
            FoNode::Var(variable) => self.add_variable(variable),
            FoNode::Sym(_, _) => {}
        }
    }

    /// Counts a variable.
    fn add_variable(&mut self, variable: u32)
        ensures { (ns : List FoNode) (a p : ℕ) → a ≤ p → slice_get ns p ≡ Some (FoNode.Var variable) → IsTally ns a p self.old → IsTally ns a (p + 1) self.new }
    {
        let number = variable as usize;
        if number < COUNTED && self.counts[number] < usize::MAX {
            self.counts[number] += 1;
        } else {
            self.small = false;
        }
    }

    /// Counts the variables from one place up to another.
    pub(crate) fn extend(&mut self, nodes: &[FoNode], from: usize, to: usize)
        requires order { from ≤ to }
        requires inside { to ≤ length nodes.now }
        ensures { (a : ℕ) → a ≤ from → IsTally nodes.now a from self.old → IsTally nodes.now a to self.new }
    {
        for at in from..to {
            self.add(node_at(nodes, at));
        }
    }
}

/// Whether no count of the second is larger than that of the first.
fn are_at_least(first: &Tally, second: &Tally) -> bool
    ensures covered { result ≡ true → (v x y : ℕ) → v < counted → slice_get first.now.counts v ≡ Some x → slice_get second.now.counts v ≡ Some y → y ≤ x }
    ensures larger { result ≡ false → (v : ℕ) × (v < counted) × ((x y : ℕ) → slice_get first.now.counts v ≡ Some x → slice_get second.now.counts v ≡ Some y → x < y) }
{
    for number in 0..COUNTED {
        if first.counts[number] < second.counts[number] {
            return false;
        }
    }
    true
}

/// Whether each variable occurs in the first of two terms at a place at least as often as in the
/// second: by the tallies, or, where a variable with a large number was met, by counting.
pub(crate) fn covers_at(
    left: &[FoNode],
    right: &[FoNode],
    tallies: (&Tally, &Tally),
    at: usize,
    left_end: usize,
    right_end: usize,
) -> bool
    requires left { IsPrefix left.now }
    requires right { IsPrefix right.now }
    requires tallied { AreTallied left.now right.now at left_end right_end tallies.0.now tallies.1.now }
    ensures { IsTrue result ↔ Covers (term_at left.now at) (term_at right.now at) }
{
    let (first, second) = tallies;
    if first.small && second.small {
        are_at_least(first, second)
    } else {
        covers(part(left, at, left_end), part(right, at, right_end))
    }
}
