//! The nodes of two terms in one list, with the place behind the term at each place.

ghost use Rattle.std.specs.Prelude.{◌≡◌, ◌+◌, ◌<◌, ◌≤◌, ◌++◌, length, slice_get, IfOk, Some, suc};
ghost use Rattle.fo_terms.specs.Terms.{count, terms_after};
ghost use Rattle.fo_terms.specs.Prefix.{prefix};
ghost use Rattle.fo_terms.specs.Places.{terms_at, IsFull, AreEndsFrom, ArePlaces, IsBehind, IsPassed};

use crate::term::{FoNode, FoTerm};
use std::alloc::{AllocError, Global};

#[derive(Drop)]
pub(crate) struct Places {
    pub(crate) nodes: Vec<FoNode>,
    pub(crate) ends: Vec<usize>,
}

impl Places {
    /// The node at a place.
    pub(crate) fn node(&self, at: usize) -> FoNode
        requires { at < length self.now.nodes.items }
        ensures { slice_get self.now.nodes.items at ≡ Some result }
    {
        node_at(&self.nodes, at)
    }

    /// The place behind the term at a place.
    pub(crate) fn behind(&self, at: usize) -> usize
        requires places { ArePlaces self.now.nodes.items self.now.ends.items }
        requires inside { at < length self.now.nodes.items }
        ensures { IsBehind self.now.nodes.items at result }
    {
        place_at(&self.ends, at)
    }
}

pub(crate) fn node_at(nodes: &[FoNode], at: usize) -> FoNode
    requires { at < length nodes.now }
    ensures { slice_get nodes.now at ≡ Some result }
{
    nodes[at]
}

pub(crate) fn place_at(places: &[usize], at: usize) -> usize
    requires { at < length places.now }
    ensures { slice_get places.now at ≡ Some result }
{
    places[at]
}

/// The place behind the term at a place, from those behind the later ones.
fn end_of(nodes: &[FoNode], ends: &[usize], at: usize) -> usize
    requires inside { at < length nodes.now }
    requires full { IsFull nodes.now }
    requires as_long { length ends.now ≡ length nodes.now }
    requires later { AreEndsFrom (suc at) nodes.now ends.now }
    ensures { IsBehind nodes.now at result }
{
    match node_at(nodes, at) {
        FoNode::Var(_) => at + 1,
        FoNode::Sym(_, count) => behind_arguments(nodes, ends, at, count),
    }
}

/// The place behind so many terms, of which the first stands behind a place.
fn behind_arguments(nodes: &[FoNode], ends: &[usize], at: usize, arguments: u32) -> usize
    requires inside { at < length nodes.now }
    requires as_long { length ends.now ≡ length nodes.now }
    requires later { AreEndsFrom (suc at) nodes.now ends.now }
    requires enough { arguments ≤ count (terms_at nodes.now (suc at)) }
    ensures { IsPassed nodes.now at arguments result }
{
    let mut end = at + 1;
    for passed in 0..arguments {
        end = place_at(ends, end);
    }
    end
}

/// The places behind the terms at each place of a list of nodes.
fn ends_of(alloc: Global, nodes: &[FoNode]) -> Result<Vec<usize>, AllocError>
    requires { IsFull nodes.now }
    ensures { IfOk result (λ ends. ArePlaces nodes.now ends.items) }
{
    let mut ends = vec![in alloc; 0; nodes.len()]?;
    let mut at = nodes.len();
    while at > 0 {
        at -= 1;
        let end = end_of(nodes, &ends, at);
        ends[at] = end;
    }
    Ok(ends)
}

impl Places {
    /// The nodes of one term and then those of the other.
    pub(crate) fn of(alloc: Global, first: &FoTerm, second: &FoTerm) -> Result<Places, AllocError>
        ensures nodes { IfOk result (λ p. p.nodes.items ≡ prefix first.now ++ prefix second.now) }
        ensures places { IfOk result (λ p. ArePlaces p.nodes.items p.ends.items) }
    {
        let mut nodes = Vec::new(alloc);
        nodes.extend_from_slice(first.nodes())?;
        nodes.extend_from_slice(second.nodes())?;
        let ends = ends_of(alloc, &nodes)?;
        Ok(Places { nodes, ends })
    }
}
