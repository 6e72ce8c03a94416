//! Lists of nodes: which is the same, and how often variables stand in them.

ghost use Rattle.std.specs.Prelude.{◌≡◌, ◌<◌, ◌≤◌, ◌↔◌, length, slice_get, slice_range, count_by, Some, IsTrue};
ghost use Rattle.std.specs.List.{list_all};
ghost use Rattle.fo_terms.specs.Prefix.{term_of, IsPrefix};
ghost use Rattle.fo_kbo.specs.Occurrences.{Covers};
ghost use Rattle.fo_kbo.specs.Nodes.{is_node_of, covers_at};

use fo_terms::term::FoNode;

/// The node at a place.
pub(crate) fn node_at(nodes: &[FoNode], at: usize) -> FoNode
    requires { at < length nodes.now }
    ensures { slice_get nodes.now at ≡ Some result }
{
    nodes[at]
}

/// The nodes from one place up to another.
pub(crate) fn part(nodes: &[FoNode], at: usize, end: usize) -> &[FoNode]
    requires order { at ≤ end }
    requires inside { end ≤ length nodes.now }
    ensures { result.now ≡ slice_range nodes.now at end }
{
    &nodes[at..end]
}

/// Whether the nodes are the same.
pub(crate) fn is_same(left: &[FoNode], right: &[FoNode]) -> bool
    ensures { IsTrue result ↔ (left.now ≡ right.now) }
{
    left == right
}

/// Whether two nodes are the same.
pub(crate) fn is_same_node(left: FoNode, right: FoNode) -> bool
    ensures { IsTrue result ↔ (left ≡ right) }
{
    left == right
}

fn is_node_of_variable(node: FoNode, variable: u32) -> bool
    ensures { result ≡ is_node_of variable node }
{
    match node {
        FoNode::Var(other) => variable == other,
        FoNode::Sym(_, _) => false,
    }
}

/// How often a variable stands in a list of nodes.
fn occurrences_in(nodes: &[FoNode], variable: u32) -> usize
    ensures { result ≡ count_by (is_node_of variable) nodes.now }
{
    nodes
        .iter()
        .filter(|node| is_node_of_variable(**node, variable))
        .count()
}

#[tactic(auto, unfolding(crate::specs::Nodes::covers_at))]
fn is_covered(left: &[FoNode], right: &[FoNode], node: FoNode) -> bool
    ensures { result ≡ covers_at left.now right.now node }
{
    match node {
        FoNode::Var(variable) => occurrences_in(right, variable) <= occurrences_in(left, variable),
        FoNode::Sym(_, _) => true,
    }
}

fn are_covered(left: &[FoNode], right: &[FoNode]) -> bool
    ensures { result ≡ list_all (covers_at left.now right.now) right.now }
{
    right.iter().all(|node| is_covered(left, right, *node))
}

/// Whether each variable occurs in the first term at least as often as in the second.
pub(crate) fn covers(left: &[FoNode], right: &[FoNode]) -> bool
    requires left { IsPrefix left.now }
    requires right { IsPrefix right.now }
    ensures { IsTrue result ↔ Covers (term_of left.now) (term_of right.now) }
{
    are_covered(left, right)
}
