//! The quantifiers that stand without a binder.

ghost use Rattle.std.specs.Prelude.{◌≡◌};
ghost use Rattle.leo_elab.specs.Signs.{quantifier_of};

use leo_syntax::{Node, Tree};

/// A quantifier that stands without a binder, and takes a set.
#[derive(Clone, Copy, Debug, PartialEq, Eq)]
pub enum Quantifier {
    /// `!!`
    Pi,
    /// `??`
    Sigma,
    /// `@@+`
    Choice,
}

/// Which of them a tree is, if it is one.
pub fn quantifier_of(tree: &Tree) -> Option<Quantifier>
    ensures { result ≡ quantifier_of tree.now }
{
    match &tree.node {
        Node::Pi => Some(Quantifier::Pi),
        Node::Sigma => Some(Quantifier::Sigma),
        Node::Choice => Some(Quantifier::Choice),
        _ => None,
    }
}
