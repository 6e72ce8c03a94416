//! Heads of terms, and the walk over the places of a term.

ghost use Rattle.std.specs.Prelude.{◌≡◌, ◌<◌, ◌++◌, ◌∷◌, [], OnOk, IfSome, MatchOption, reverse};
ghost use Rattle.fo_terms.specs.Terms.{Terms, first_terms};
ghost use Rattle.fo_terms.specs.Prefix.{terms_of, with_node};
ghost use Rattle.fo_super.specs.Sifting.{head_symbol, meets as meets_symbol, sites as sites_of, sites_in_all};
ghost use Rattle.fo_super.specs.Walks.{pending as pending_sites, selected, made};

use crate::member::FoMember;
use fo_terms::term::{FoNode, FoTerm};
use fo_text::answer::FoSide;
use sqlite_items::Items;
use std::alloc::{AllocError, Global};

/// A side of a literal of a clause.
#[derive(Clone, Copy, Debug)]
pub(crate) struct Spot {
    pub(crate) clause: u32,
    pub(crate) literal: u32,
    pub(crate) side: FoSide,
}

/// A symbol whose arguments are walked: the number of the next one, and how many are left.
#[derive(Clone, Copy, Debug)]
pub(crate) struct Frame {
    pub(crate) next: u32,
    pub(crate) left: u32,
}

/// The symbol at the head of a term, if it is no variable.
pub(crate) fn head(term: &FoTerm) -> Option<u32>
    ensures { result ≡ head_symbol term.now }
{
    match term.nodes().split_first() {
        None => None,
        Some((node, _others)) => match *node {
            FoNode::Var(_) => None,
            FoNode::Sym(symbol, _) => Some(symbol),
        },
    }
}

/// Whether a term with this head may become one whose head is the symbol.
fn meets(head: Option<u32>, symbol: u32) -> bool
    ensures { result ≡ meets_symbol head symbol }
{
    match head {
        None => true,
        Some(other) => other == symbol,
    }
}

/// The place that is next, put at the end of the list if its symbol meets the head.
fn visit(
    alloc: Global,
    from: Spot,
    head: Option<u32>,
    into: Spot,
    path: &[u32],
    symbol: u32,
    out: &mut Items<FoMember>,
) -> Result<(), AllocError>
    ensures { OnOk result (out.new ≡ out.old ++ made from into (selected head ((path.now, symbol) ∷ []))) }
{
    if meets(head, symbol) {
        let path = Items::from_slice(alloc, path)?;
        out.push(FoMember::Superpose {
            from: from.clause,
            literal: from.literal,
            side: from.side,
            into: into.clause,
            place: into.literal,
            place_side: into.side,
            path,
        })?;
    }
    Ok(())
}

/// The innermost symbol of which an argument is left, taken from the stack with all that are above it.
fn next_frame(frames: &mut Vec<Frame>, path: &mut Vec<u32>) -> Option<Frame>
    ensures left { IfSome result (λ f. 0 < f.left) }
    ensures pending { MatchOption result ((ts : Terms) → pending_sites (reverse path.old.items) (reverse frames.old.items) ts ≡ []) (λ f. (ts : Terms) → pending_sites (reverse path.old.items) (reverse frames.old.items) ts ≡ pending_sites (reverse path.new.items) (f ∷ reverse frames.new.items) ts) }
{
    while let Some(frame) = frames.pop() {
        if frame.left > 0 {
            return Some(frame);
        }
        let _ = path.pop();
    }
    None
}

/// Passes over the next node, which is an argument of the innermost symbol.
fn step(
    alloc: Global,
    from: Spot,
    head: Option<u32>,
    into: Spot,
    node: FoNode,
    frame: Frame,
    frames: &mut Vec<Frame>,
    path: &mut Vec<u32>,
    out: &mut Items<FoMember>,
) -> Result<(), AllocError>
    requires { 0 < frame.left }
    ensures { OnOk result ((ts : Terms) → out.new ++ made from into (selected head (pending_sites (reverse path.new.items) (reverse frames.new.items) ts)) ≡ out.old ++ made from into (selected head (pending_sites (reverse path.old.items) (frame ∷ reverse frames.old.items) (with_node node ts)))) }
{
    let Some(next) = frame.next.checked_add(1) else {
        return Err(AllocError);
    };
    frames.push(Frame {
        next,
        left: frame.left - 1,
    })?;
    match node {
        FoNode::Var(_) => Ok(()),
        FoNode::Sym(symbol, arguments) => {
            path.push(frame.next)?;
            visit(alloc, from, head, into, path.as_slice(), symbol, out)?;
            frames.push(Frame {
                next: 0,
                left: arguments,
            })?;
            Ok(())
        }
    }
}

/// Lists the places in the arguments of a symbol at the head, whose nodes stand at the front.
fn walk(
    alloc: Global,
    from: Spot,
    head: Option<u32>,
    into: Spot,
    nodes: &[FoNode],
    arguments: u32,
    out: &mut Items<FoMember>,
) -> Result<(), AllocError>
    ensures { OnOk result (out.new ≡ out.old ++ made from into (selected head (sites_in_all 0 (first_terms arguments (terms_of nodes.now))))) }
{
    let mut path = Vec::new(alloc);
    let mut frames = Vec::new(alloc);
    frames.push(Frame {
        next: 0,
        left: arguments,
    })?;
    let mut rest = nodes;
    while let Some((node, others)) = rest.split_first() {
        let Some(frame) = next_frame(&mut frames, &mut path) else {
            return Ok(());
        };
        step(
            alloc,
            from,
            head,
            into,
            *node,
            frame,
            &mut frames,
            &mut path,
            out,
        )?;
        rest = others;
    }
    Ok(())
}

/// Lists superposition from a side whose head is given to the places in a side, which is this term: in
/// order, but for places whose symbol is another than that of the head.
pub(crate) fn list_places(
    alloc: Global,
    from: Spot,
    head: Option<u32>,
    into: Spot,
    term: &FoTerm,
    out: &mut Items<FoMember>,
) -> Result<(), AllocError>
    ensures { OnOk result (out.new ≡ out.old ++ made from into (selected head (sites_of term.now))) }
{
    let Some((node, others)) = term.nodes().split_first() else {
        return Ok(());
    };
    match *node {
        FoNode::Var(_) => Ok(()),
        FoNode::Sym(symbol, arguments) => {
            visit(alloc, from, head, into, &[], symbol, out)?;
            walk(alloc, from, head, into, others, arguments, out)?;
            Ok(())
        }
    }
}
