//! Terms that stand one after the other in a list of nodes.

ghost use Rattle.std.specs.Prelude.{◌≡◌, ◌+◌, ◌≤◌, ◌↔◌, ◌++◌, List, IsTrue};
ghost use Rattle.fo_terms.specs.declared.term.FoNode.{FoNode};
ghost use Rattle.fo_terms.specs.Terms.{Terms, count};
ghost use Rattle.fo_terms.specs.Prefix.{prefix_of_all};
ghost use Rattle.fo_terms.specs.Places.{arguments_of};

use fo_terms::term::FoNode;

fn arguments(node: FoNode) -> usize
    ensures { result ≡ arguments_of node }
{
    match node {
        FoNode::Var(_) => 0,
        FoNode::Sym(_, count) => count as usize,
    }
}

fn has_room(wanted: usize, more: usize, len: usize) -> bool
    ensures { IsTrue result ↔ (wanted + more ≤ len) }
{
    more <= len && wanted <= len - more
}

/// What is behind so many terms.
pub(crate) fn behind(nodes: &[FoNode], terms: usize) -> &[FoNode]
    ensures { (ts : Terms) (back : List FoNode) → nodes.now ≡ prefix_of_all ts ++ back → count ts ≡ terms → result.now ≡ back }
{
    let mut rest = nodes;
    let mut wanted = terms;
    while wanted > 0 {
        let Some((node, tail)) = rest.split_first() else {
            return rest;
        };
        let more = arguments(*node);
        if !has_room(wanted, more, rest.len()) {
            return rest;
        }
        wanted = wanted - 1 + more;
        rest = tail;
    }
    rest
}
