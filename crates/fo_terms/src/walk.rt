//! A walk over the nodes of the term that bindings make of the term at a place.

ghost use Rattle.std.specs.Prelude.{◌≡◌, ◌+◌, ◌<◌, ◌≤◌, length, slice_get, IfOk, OnOk, IfSome, IfNone, Some, All, List, IsTrue, ◌↔◌};
ghost use Rattle.fo_terms.specs.declared.term.FoNode.{FoNode};
ghost use Rattle.fo_terms.specs.Terms.{count, none, first_terms};
ghost use Rattle.fo_terms.specs.Substitutions.{Substitution, apply, apply_to_all};
ghost use Rattle.fo_terms.specs.Prefix.{with_node};
ghost use Rattle.fo_terms.specs.Reading.{joined};
ghost use Rattle.fo_terms.specs.Places.{term_at, terms_at, arguments_of, ArePlaces};
ghost use Rattle.fo_terms.specs.Bindings.{IsIndexed, AreBindings, solution, IsSpan, pending};

use crate::bindings::Bindings;
use crate::places::Places;
use crate::term::{FoNode, FoTerm};
use std::alloc::{AllocError, Global};

/// So many terms from a place on.
#[derive(Clone, Copy, Debug)]
pub(crate) struct Span {
    pub(crate) at: usize,
    pub(crate) count: u32,
}

/// Puts the terms before those that are pending.
pub(crate) fn push_span(spans: &mut Vec<Span>, at: usize, terms: u32) -> Result<(), AllocError>
    ensures pending { OnOk result ((ns : List FoNode) (s : Substitution) → pending ns s spans.new.items ≡ joined (apply_to_all s (first_terms terms (terms_at ns at))) (pending ns s spans.old.items)) }
    ensures within { OnOk result ((ns : List FoNode) → terms ≤ count (terms_at ns at) → All (IsSpan ns) spans.old.items → All (IsSpan ns) spans.new.items) }
{
    if terms > 0 {
        spans.push(Span { at, count: terms })?;
    }
    Ok(())
}

/// The first node of what is pending, whose arguments are pending then.
pub(crate) fn next_node(
    places: &Places,
    bindings: &Bindings,
    spans: &mut Vec<Span>,
) -> Result<Option<FoNode>, AllocError>
    requires indexed { IsIndexed bindings.now.made.items bindings.now.numbers }
    requires bindings { AreBindings places.now.nodes.items bindings.now.made.items }
    requires places { ArePlaces places.now.nodes.items places.now.ends.items }
    requires spans { All (IsSpan places.now.nodes.items) spans.old.items }
    ensures spans { OnOk result (All (IsSpan places.now.nodes.items) spans.new.items) }
    ensures end { IfOk result (λ o. IfNone o (pending places.now.nodes.items (solution places.now.nodes.items bindings.now.made.items) spans.old.items ≡ none)) }
    ensures node { IfOk result (λ o. IfSome o (λ n. pending places.now.nodes.items (solution places.now.nodes.items bindings.now.made.items) spans.old.items ≡ with_node n (pending places.now.nodes.items (solution places.now.nodes.items bindings.now.made.items) spans.new.items))) }
    ensures arguments { IfOk result (λ o. IfSome o (λ n. arguments_of n ≤ count (pending places.now.nodes.items (solution places.now.nodes.items bindings.now.made.items) spans.new.items))) }
{
    match spans.pop() {
        None => Ok(None),
        Some(span) => {
            let node = open_span(places, bindings, span, spans)?;
            Ok(Some(node))
        }
    }
}

/// The first node of a span; the nodes after it are pending then.
fn open_span(
    places: &Places,
    bindings: &Bindings,
    span: Span,
    spans: &mut Vec<Span>,
) -> Result<FoNode, AllocError>
    requires indexed { IsIndexed bindings.now.made.items bindings.now.numbers }
    requires bindings { AreBindings places.now.nodes.items bindings.now.made.items }
    requires places { ArePlaces places.now.nodes.items places.now.ends.items }
    requires span { IsSpan places.now.nodes.items span }
    requires spans { All (IsSpan places.now.nodes.items) spans.old.items }
    ensures spans { OnOk result (All (IsSpan places.now.nodes.items) spans.new.items) }
    ensures node { IfOk result (λ n. joined (apply_to_all (solution places.now.nodes.items bindings.now.made.items) (first_terms span.count (terms_at places.now.nodes.items span.at))) (pending places.now.nodes.items (solution places.now.nodes.items bindings.now.made.items) spans.old.items) ≡ with_node n (pending places.now.nodes.items (solution places.now.nodes.items bindings.now.made.items) spans.new.items)) }
    ensures arguments { IfOk result (λ n. arguments_of n ≤ count (pending places.now.nodes.items (solution places.now.nodes.items bindings.now.made.items) spans.new.items)) }
{
    let here = bindings.resolve(places, span.at);
    push_span(spans, places.behind(span.at), span.count - 1)?;
    match places.node(here) {
        FoNode::Var(variable) => Ok(FoNode::Var(variable)),
        FoNode::Sym(symbol, arguments) => {
            push_span(spans, here + 1, arguments)?;
            Ok(FoNode::Sym(symbol, arguments))
        }
    }
}

/// What the bindings make of the term at a place.
pub(crate) fn applied_at(
    alloc: Global,
    places: &Places,
    bindings: &Bindings,
    place: usize,
) -> Result<FoTerm, AllocError>
    requires indexed { IsIndexed bindings.now.made.items bindings.now.numbers }
    requires bindings { AreBindings places.now.nodes.items bindings.now.made.items }
    requires places { ArePlaces places.now.nodes.items places.now.ends.items }
    requires inside { place < length places.now.nodes.items }
    ensures { IfOk result (λ t. t ≡ apply (solution places.now.nodes.items bindings.now.made.items) (term_at places.now.nodes.items place)) }
{
    let mut spans = Vec::new(alloc);
    push_span(&mut spans, place, 1)?;
    let mut nodes = Vec::new(alloc);
    while let Some(node) = next_node(places, bindings, &mut spans)? {
        nodes.push(node)?;
    }
    Ok(FoTerm { nodes })
}
