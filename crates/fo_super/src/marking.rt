//! Marks of clauses: a bit for each symbol and the place where it stands. A substitution takes no mark
//! away, so that a clause becomes part of none that lacks one of its marks.

ghost use Rattle.std.specs.Prelude.{◌≡◌, ◌<◌, ◌∷◌, ◌++◌, IfOk, OnOk, flat_map, fold, reverse};
ghost use Rattle.fo_terms.specs.Terms.{Terms};
ghost use Rattle.fo_terms.specs.Prefix.{with_node};
ghost use Rattle.fo_super.specs.Marks.{child as child_of, children, clause_marks, literal_marks, marks as marks_of, mask as mask_of, pending, root as root_of, with_mark as mask_with, with_marks};
ghost use Rattle.fo_super.specs.Marks.{mark as mark_of};

use fo_terms::term::{FoNode, FoTerm};
use fo_text::problem::FoLit;
use std::alloc::{AllocError, Global};

/// The number of the place of an argument of what stands at a place.
fn child(place: u64, argument: u32) -> u64
    ensures { result ≡ child_of place argument }
{
    (place % 251 * 31 + argument as u64 + 1) % 251
}

/// The number of the place of both sides of a literal.
fn root(pos: bool) -> u64
    ensures { result ≡ root_of pos }
{
    if pos { 1 } else { 2 }
}

/// A mask with the mark of a symbol at a place.
fn with_mark(mask: u64, place: u64, symbol: u32) -> u64
    ensures { result ≡ mask_with mask (mark_of place symbol) }
{
    let bit = (place % 251 + symbol as u64 * 23) % 61;
    mask | (1 << bit)
}

/// Puts the places of the arguments of what stands at a place on the stack, the first on top.
fn push_children(place: u64, arguments: u32, places: &mut Vec<u64>) -> Result<(), AllocError>
    ensures { OnOk result (reverse places.new.items ≡ children place 0 arguments ++ reverse places.old.items) }
{
    let mut left = arguments;
    while left > 0 {
        left -= 1;
        places.push(child(place, left))?;
    }
    Ok(())
}

/// A mask with the mark of a node at a place; the places of its arguments are put on the stack.
fn step(node: FoNode, place: u64, mask: u64, places: &mut Vec<u64>) -> Result<u64, AllocError>
    ensures { IfOk result (λ m. (ts : Terms) → with_marks m (pending (reverse places.new.items) ts) ≡ with_marks mask (pending (place ∷ reverse places.old.items) (with_node node ts))) }
{
    match node {
        FoNode::Var(_) => Ok(mask),
        FoNode::Sym(symbol, arguments) => {
            push_children(place, arguments, places)?;
            Ok(with_mark(mask, place, symbol))
        }
    }
}

/// A mask with the marks of a term that stands at a place.
fn with_term(alloc: Global, place: u64, term: &FoTerm, mask: u64) -> Result<u64, AllocError>
    ensures { IfOk result (λ m. m ≡ with_marks mask (marks_of place term.now)) }
{
    let mut places = Vec::new(alloc);
    places.push(place)?;
    let mut rest = term.nodes();
    let mut found = mask;
    while let Some((node, others)) = rest.split_first() {
        let Some(next) = places.pop() else {
            return Ok(found);
        };
        found = step(*node, next, found, &mut places)?;
        rest = others;
    }
    Ok(found)
}

/// A mask with the marks of a literal.
fn with_literal(alloc: Global, literal: &FoLit, mask: u64) -> Result<u64, AllocError>
    ensures { IfOk result (λ m. m ≡ with_marks mask (literal_marks literal.now)) }
{
    let place = root(literal.pos);
    let left = with_term(alloc, place, &literal.left, mask)?;
    let both = with_term(alloc, place, &literal.right, left)?;
    Ok(both)
}

/// The mask of a clause with these literals: the bits of its marks.
pub(crate) fn mask(alloc: Global, literals: &[FoLit]) -> Result<u64, AllocError>
    ensures { IfOk result (λ m. m ≡ mask_of literals.now) }
{
    let mut mask = 0;
    for literal in literals {
        mask = with_literal(alloc, literal, mask)?;
    }
    Ok(mask)
}
