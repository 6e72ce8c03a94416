//! Clauses that are the same.

ghost use Rattle.std.specs.Prelude.{◌≡◌, ◌<◌, Some, length, slice_get};
ghost use Rattle.std.specs.Bool.{Decides};
ghost use Rattle.std.specs.List.{AllByRecursion};
ghost use Rattle.fo_super.specs.Matching.{HasNodeSameSorts};
ghost use Rattle.fo_super.specs.Outcomes.{HasSameSorts, HasLiteralSameSorts, IsIdentical};

use crate::terms::is_same_term;
use fo_terms::term::{FoNode, FoTerm};
use fo_text::problem::{FoClause, FoLit};

/// Whether a variable has the same sort, or none, in two lists.
fn has_same_sort(vars: &[u32], others: &[u32], variable: u32) -> bool
    ensures { Decides result (slice_get vars.now variable ≡ slice_get others.now variable) }
{
    match vars.get(variable as usize) {
        None => others.get(variable as usize).is_none(),
        Some(sort) => match others.get(variable as usize) {
            None => false,
            Some(other) => *sort == *other,
        },
    }
}

/// Whether the variable of a node, if it has one, has the same sort in two lists.
fn has_node_same_sorts(vars: &[u32], others: &[u32], node: FoNode) -> bool
    ensures { Decides result (HasNodeSameSorts vars.now others.now node) }
{
    match node {
        FoNode::Var(variable) => has_same_sort(vars, others, variable),
        FoNode::Sym(_, _) => true,
    }
}

/// The node at a place.
fn node_at(nodes: &[FoNode], place: usize) -> FoNode
    requires { place < length nodes.now }
    ensures { slice_get nodes.now place ≡ Some result }
{
    nodes[place]
}

/// Whether the variable of each node has the same sort in two lists.
fn have_node_same_sorts(vars: &[u32], others: &[u32], nodes: &[FoNode]) -> bool
    ensures { Decides result (AllByRecursion (HasNodeSameSorts vars.now others.now) nodes.now) }
{
    for place in 0..nodes.len() {
        if !has_node_same_sorts(vars, others, node_at(nodes, place)) {
            return false;
        }
    }
    true
}

/// Whether each variable of a term has the same sort in two lists.
fn has_same_sorts(vars: &[u32], others: &[u32], term: &FoTerm) -> bool
    ensures { Decides result (HasSameSorts vars.now others.now term.now) }
{
    have_node_same_sorts(vars, others, term.nodes())
}

/// Whether two literals are one.
fn is_same_literal(literal: &FoLit, other: &FoLit) -> bool
    ensures { Decides result (literal.now ≡ other.now) }
{
    if literal.pos != other.pos {
        return false;
    }
    if !is_same_term(&literal.left, &other.left) {
        return false;
    }
    is_same_term(&literal.right, &other.right)
}

/// Whether two literals are one, and each of its variables has the same sort in two lists.
fn is_alike(vars: &[u32], others: &[u32], literal: &FoLit, other: &FoLit) -> bool
    ensures { Decides result ((literal.now ≡ other.now) × HasLiteralSameSorts vars.now others.now literal.now) }
{
    if !is_same_literal(literal, other) {
        return false;
    }
    if !has_same_sorts(vars, others, &literal.left) {
        return false;
    }
    has_same_sorts(vars, others, &literal.right)
}

/// Whether two clauses differ at most in variables that stand in no literal.
pub fn is_identical(clause: &FoClause, other: &FoClause) -> bool
    ensures { Decides result (IsIdentical clause.now other.now) }
{
    if clause.lits.len() != other.lits.len() {
        return false;
    }
    let literals = clause.lits.as_slice();
    let others = other.lits.as_slice();
    for place in 0..literals.len() {
        if !is_alike(
            clause.vars.as_slice(),
            other.vars.as_slice(),
            &literals[place],
            &others[place],
        ) {
            return false;
        }
    }
    true
}
