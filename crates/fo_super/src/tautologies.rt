//! Clauses that always hold.

ghost use Rattle.std.specs.Prelude.{◌≡◌, true};
ghost use Rattle.std.specs.Bool.{Decides};
ghost use Rattle.fo_terms.specs.Terms.{symbol, none};
ghost use Rattle.fo_super.specs.Matching.{HaveSameSides};
ghost use Rattle.fo_super.specs.Tautologies.{HoldsWith, IsTautology, IsOpposed, Opposes};

use crate::terms::{is_same_term, same_nodes};
use fo_terms::term::{FoNode, FoTerm};
use fo_text::problem::FoLit;

/// Whether a term is a symbol without arguments.
fn is_constant(term: &FoTerm, number: u32) -> bool
    ensures { Decides result (term.now ≡ symbol number none) }
{
    same_nodes(term.nodes(), &[FoNode::Sym(number, 0)])
}

/// Whether a term is another, and a further one is a further other.
fn are_both_same(one: &FoTerm, other: &FoTerm, two: &FoTerm, another: &FoTerm) -> bool
    ensures { Decides result ((one.now ≡ other.now) × (two.now ≡ another.now)) }
{
    if !is_same_term(one, other) {
        return false;
    }
    is_same_term(two, another)
}

/// Whether the sides of two literals are the same, as they are or turned.
fn has_same_sides(literal: &FoLit, other: &FoLit) -> bool
    ensures { Decides result (HaveSameSides literal.now other.now) }
{
    if are_both_same(&literal.left, &other.left, &literal.right, &other.right) {
        return true;
    }
    are_both_same(&literal.left, &other.right, &literal.right, &other.left)
}

/// Whether one of two literals always holds, where the first is an equation that the second denies,
/// or that has T as its right side where the second has F.
fn opposes(literal: &FoLit, other: &FoLit) -> bool
    ensures { Decides result (Opposes literal.now other.now) }
{
    if !literal.pos {
        return false;
    }
    if !other.pos {
        return has_same_sides(literal, other);
    }
    if !is_same_term(&literal.left, &other.left) {
        return false;
    }
    if !is_constant(&literal.right, 0) {
        return false;
    }
    is_constant(&other.right, 1)
}

/// Whether a literal opposes one of some.
fn is_opposed(literal: &FoLit, others: &[FoLit]) -> bool
    ensures { Decides result (IsOpposed literal.now others.now) }
{
    for other in others {
        if opposes(literal, other) {
            return true;
        }
    }
    false
}

/// Whether a literal is `s = s`.
fn is_reflexive(literal: &FoLit) -> bool
    ensures { Decides result ((literal.now.pos ≡ true) × (literal.now.left ≡ literal.now.right)) }
{
    if !literal.pos {
        return false;
    }
    is_same_term(&literal.left, &literal.right)
}

/// Whether a literal is `s = s`, or opposes one of some.
fn holds_with(literal: &FoLit, others: &[FoLit]) -> bool
    ensures { Decides result (HoldsWith literal.now others.now) }
{
    if is_reflexive(literal) {
        return true;
    }
    is_opposed(literal, others)
}

/// Whether literals always hold together: one is `s = s`, or two are an equation and its negation, as
/// it is or turned, or `A = T` and `A = F`, where T and F are the symbols 0 and 1.
pub fn is_tautology(literals: &[FoLit]) -> bool
    ensures { Decides result (IsTautology literals.now) }
{
    for literal in literals {
        if holds_with(literal, literals) {
            return true;
        }
    }
    false
}
