//! Terms as lists of nodes.

ghost use Rattle.std.specs.Prelude.{◌≡◌, ◌↔◌, ◌+◌, ◌<◌, ◌≤◌, ◌^◌, IfSome, IfNone, IfOk, IsTrue, MatchOption};
ghost use Rattle.fo_terms.specs.Terms.{Term};
ghost use Rattle.fo_terms.specs.Prefix.{prefix, IsPrefix};
ghost use Rattle.fo_terms.specs.Places.{arguments_of};

use crate::places::node_at;
use std::alloc::{AllocError, Global};
use std::marker::Model;

/// A node of a term: a variable by its number, or a symbol by its number with the count of its
/// arguments, which stand after it.
#[derive(Clone, Copy, Debug, PartialEq, Eq)]
pub enum FoNode {
    Var(u32),
    Sym(u32, u32),
}

/// A first-order term: the list of its nodes in prefix order. A contract sees the term as a tree.
#[derive(Drop)]
pub struct FoTerm {
    pub(crate) nodes: Vec<FoNode>,
}

impl Model for FoTerm {
    ghost use Rattle.std.specs.Prelude.{List};
    ghost use Rattle.std.specs.Coded.{codes, code_by};
    ghost use Rattle.fo_terms.specs.declared.term.FoNode.{FoNode};
    ghost use Rattle.fo_terms.specs.contracts.term.FoNode as node;
    ghost use Rattle.fo_terms.specs.Terms.{Term};
    ghost use Rattle.fo_terms.specs.Prefix.{prefix, term_of, IsPrefix};
    ghost use Rattle.fo_terms.specs.Places.{arguments_of};
    ghost use Rattle.fo_terms.specs.Reading.{term_of-prefix};

    ghost Value = { Term };

    ghost coded = { code_by (List FoNode) (Prim.hlevel (codes, node.the_row.coded)) prefix term_of term_of-prefix };

    ghost view = { λ t. term_of t.nodes.items };

    ghost invariant = { λ t. IsPrefix t.nodes.items };
}

impl FoTerm {
    /// The term with these nodes; None where they are the list of no term, since a symbol lacks an
    /// argument, or a node stands behind the term.
    pub fn new(nodes: Vec<FoNode>) -> Option<FoTerm>
        ensures read { IfSome result (λ t. prefix t ≡ nodes.items) }
        ensures refused { IfNone result ((t : Term) → prefix t ≡ nodes.items → ⊥) }
    {
        if is_prefix(&nodes) {
            Some(FoTerm { nodes })
        } else {
            None
        }
    }

    /// The nodes in prefix order.
    pub fn nodes(&self) -> &[FoNode]
        ensures { result.now ≡ prefix self.now }
    {
        self.nodes.as_slice()
    }

    /// A copy. The only error is want of memory.
    pub fn try_clone(&self, alloc: Global) -> Result<FoTerm, AllocError>
        ensures { IfOk result (λ t. t ≡ self.now) }
    {
        let nodes = Vec::from_slice(alloc, self.nodes.as_slice())?;
        Ok(FoTerm { nodes })
    }
}

/// How many terms there are once a node is put before them, if it has all its arguments.
fn terms_with(node: FoNode, terms: usize) -> Option<usize>
    requires { terms + 1 < 2 ^ 64 }
    ensures { MatchOption result (terms < arguments_of node) (λ n. (arguments_of node ≤ terms) × (n + arguments_of node ≡ terms + 1)) }
{
    match node {
        FoNode::Var(_) => Some(terms + 1),
        FoNode::Sym(_, arguments) => terms_behind(arguments as usize, terms),
    }
}

fn terms_behind(arguments: usize, terms: usize) -> Option<usize>
    requires { terms + 1 < 2 ^ 64 }
    ensures { MatchOption result (terms < arguments) (λ n. (arguments ≤ terms) × (n + arguments ≡ terms + 1)) }
{
    if arguments > terms {
        None
    } else {
        Some(terms - arguments + 1)
    }
}

/// Whether the nodes are those of one term, read from the last.
fn is_prefix(nodes: &[FoNode]) -> bool
    ensures { IsTrue result ↔ IsPrefix nodes.now }
{
    let mut at = nodes.len();
    let mut terms = 0;
    while at > 0 {
        at -= 1;
        match terms_with(node_at(nodes, at), terms) {
            Some(more) => terms = more,
            None => return false,
        }
    }
    terms == 1
}
