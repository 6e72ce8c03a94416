//! Which types are looked for at a place.

ghost use Rattle.std.specs.Prelude.{◌≡◌, true, IfNone, IfSome};
ghost use Rattle.leo_q0.specs.Terms.{SimpleType, arrow};
ghost use Rattle.leo_terms.specs.Tree.{truth_type};
ghost use Rattle.leo_terms.specs.Contents.{IsShared};
ghost use Rattle.leo_tstp.specs.declared.reading.lexicon.Lexicon.{Lexicon};
ghost use Rattle.leo_tstp.specs.Places.{Fits, IsPlace};
ghost use Rattle.leo_tstp.specs.TermPlaces.{IsFound};
ghost use Rattle.leo_tstp.specs.Vocabulary.{Vocabulary};

use crate::reading::trees::{TRUTH, TypeNode, Types};

/// Which types fit: all, one, or those of functions of which both parts fit.
#[derive(Clone, Copy)]
pub(crate) enum Pattern<'a> {
    Any,
    Type(usize),
    Function(&'a Pattern<'a>, &'a Pattern<'a>),
}

/// The types that are looked for in the parts of a type of functions, if there is one that fits.
pub(crate) fn parts<'a>(types: &Types, pattern: Pattern<'a>) -> Option<(Pattern<'a>, Pattern<'a>)>
    ensures found { (v : Vocabulary) (l : Lexicon) (a b : SimpleType) → Fits v l types.now.nodes.keys pattern.entry (arrow a b) → IfNone result ⊥ }
    ensures fit { (v : Vocabulary) (l : Lexicon) (a b : SimpleType) → IsShared types.now.nodes.keys → Fits v l types.now.nodes.keys pattern.entry (arrow a b) → IfSome result (λ p. Fits v l types.now.nodes.keys p.0 a × Fits v l types.now.nodes.keys p.1 b) }
{
    match pattern {
        Pattern::Any => Some((Pattern::Any, Pattern::Any)),
        Pattern::Type(ty) => match types.node(ty) {
            Some(TypeNode::Arrow(from, to)) => Some((Pattern::Type(from), Pattern::Type(to))),
            _ => None,
        },
        Pattern::Function(from, to) => Some((*from, *to)),
    }
}

/// The type that functions of a type take.
pub(crate) fn domain(types: &Types, ty: usize) -> Option<usize>
    ensures { (v : Vocabulary) (l : Lexicon) (a b : SimpleType) → IsPlace v l types.now.nodes.keys (arrow a b) ty → IsFound result (IsPlace v l types.now.nodes.keys a) }
{
    match types.node(ty) {
        Some(TypeNode::Arrow(from, _)) => Some(from),
        _ => None,
    }
}

/// Whether a type fits. Patterns stand in one another as brackets do, so that `room` levels are enough.
pub(crate) fn fits(types: &Types, pattern: &Pattern<'_>, ty: usize) -> bool
    ensures { (v : Vocabulary) (l : Lexicon) (a : SimpleType) → IsShared types.now.nodes.keys → IsPlace v l types.now.nodes.keys a ty → Fits v l types.now.nodes.keys pattern.now a → result ≡ true }
{
    match pattern {
        Pattern::Any => true,
        Pattern::Type(wanted) => *wanted == ty,
        Pattern::Function(from, to) => match types.node(ty) {
            Some(TypeNode::Arrow(a, b)) => fits(types, from, a) && fits(types, to, b),
            _ => false,
        },
    }
}

/// Whether `$o` fits.
pub(crate) fn takes_truth(types: &Types, pattern: &Pattern<'_>) -> bool
    ensures { (v : Vocabulary) (l : Lexicon) → IsShared types.now.nodes.keys → IsPlace v l types.now.nodes.keys truth_type 0 → Fits v l types.now.nodes.keys pattern.now truth_type → result ≡ true }
{
    fits(types, pattern, TRUTH)
}
