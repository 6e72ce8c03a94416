//! Passing terms in a list of nodes.

ghost use Rattle.std.specs.Prelude.{◌≡◌, ◌<◌, ◌≤◌, ◌^◌, length};
ghost use Rattle.fo_terms.specs.Terms.{count, terms_after};
ghost use Rattle.fo_terms.specs.Places.{terms_at, IsFull, arguments_of};

use crate::nodes::node_at;
use fo_terms::term::FoNode;

/// How many terms stand behind a node as its arguments.
pub(crate) fn arguments(node: FoNode) -> usize
    ensures result { result ≡ arguments_of node }
    ensures small { result < 2 ^ 32 }
{
    match node {
        FoNode::Var(_) => 0,
        FoNode::Sym(_, arguments) => arguments as usize,
    }
}

/// The place behind so many terms.
pub(crate) fn pass(nodes: &[FoNode], at: usize, terms: usize) -> usize
    requires full { IsFull nodes.now }
    requires within { at ≤ length nodes.now }
    requires enough { terms ≤ count (terms_at nodes.now at) }
    ensures inside { result ≤ length nodes.now }
    ensures no_earlier { at ≤ result }
    ensures later { 0 < terms → at < result }
    ensures reads { terms_at nodes.now result ≡ terms_after terms (terms_at nodes.now at) }
{
    let _length = nodes.len();
    let mut here = at;
    let mut missing = terms;
    while missing > 0 {
        missing = missing - 1 + arguments(node_at(nodes, here));
        here += 1;
    }
    here
}
