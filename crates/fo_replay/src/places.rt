//! Terms at paths.

ghost use Rattle.std.specs.Prelude.{◌≡◌, ◌+◌, ◌≤◌, ◌↔◌, ◌++◌, List, None, IsTrue, MatchOption};
ghost use Rattle.fo_terms.specs.declared.term.FoNode.{FoNode};
ghost use Rattle.fo_terms.specs.Terms.{Terms, count};
ghost use Rattle.fo_terms.specs.Prefix.{prefix_of_all};
ghost use Rattle.fo_terms.specs.Places.{arguments_of};
ghost use Rattle.fo_replay.specs.Replays.{at_path};
ghost use Rattle.fo_replay.specs.Parts.{StandsAt, HasNone, IsArgument};

use fo_terms::term::{FoNode, FoTerm};

fn arguments(node: FoNode) -> usize
    ensures { result ≡ arguments_of node }
{
    match node {
        FoNode::Var(_) => 0,
        FoNode::Sym(_, count) => count as usize,
    }
}

fn has_room(wanted: usize, more: usize, len: usize) -> bool
    ensures { IsTrue result ↔ (wanted + more ≤ len) }
{
    more <= len && wanted <= len - more
}

/// What is behind so many terms.
pub(crate) fn behind(nodes: &[FoNode], terms: usize) -> &[FoNode]
    ensures { (ts : Terms) (back : List FoNode) → nodes.now ≡ prefix_of_all ts ++ back → count ts ≡ terms → result.now ≡ back }
{
    let mut rest = nodes;
    let mut wanted = terms;
    while wanted > 0 {
        let Some((node, tail)) = rest.split_first() else {
            return rest;
        };
        let more = arguments(*node);
        if !has_room(wanted, more, rest.len()) {
            return rest;
        }
        wanted = wanted - 1 + more;
        rest = tail;
    }
    rest
}

/// The nodes from an argument on, of the term at the front.
fn argument_at(nodes: &[FoNode], number: u32) -> Option<&[FoNode]>
    ensures { MatchOption result (HasNone nodes.now number) (λ rest. IsArgument nodes.now number rest.now) }
{
    let (node, tail) = nodes.split_first()?;
    match *node {
        FoNode::Var(_) => None,
        FoNode::Sym(_, count) => {
            if number < count {
                Some(behind(tail, number as usize))
            } else {
                None
            }
        }
    }
}

/// Where the nodes of the term at a path begin and end.
pub(crate) fn find(term: &FoTerm, path: &[u32]) -> Option<(usize, usize)>
    ensures { MatchOption result (at_path term.now path.now ≡ None) (λ x. StandsAt term.now path.now x.0 x.1) }
{
    let nodes = term.nodes();
    let mut rest = nodes;
    let mut left = path;
    while let Some((number, others)) = left.split_first() {
        rest = argument_at(rest, *number)?;
        left = others;
    }
    let end = behind(rest, 1);
    Some((nodes.len() - rest.len(), nodes.len() - end.len()))
}
