//! The order on literals.

ghost use Rattle.std.specs.Prelude.{◌≡◌, ◌<◌, ◌≤◌, ◌+◌, if◌then◌else◌};
ghost use Rattle.std.specs.Bool.{Decides};
ghost use Rattle.fo_terms.specs.Terms.{Term};
ghost use Rattle.fo_kbo.specs.Order.{IsGreater};
ghost use Rattle.fo_super.specs.Literals.{IsCoveredBy, IsLiteralGreater, IsMaximal, same_term, sides, times as times_among};

use crate::terms::{is_greater_term, is_same_term};
use fo_terms::term::FoTerm;
use fo_text::problem::FoLit;

/// So much where two terms are one, and nothing where they are not.
fn if_same(term: &FoTerm, side: &FoTerm, much: u32) -> u32
    ensures { result ≡ (if same_term term.now side.now then much else 0) }
{
    if is_same_term(term, side) {
        return much;
    }
    0
}

/// How often a term stands among the sides of a literal, if each side counts for so much.
fn times_each(term: &FoTerm, literal: &FoLit, much: u32) -> u32
    requires { much ≤ 2 }
    ensures { result ≡ (if same_term term.now literal.now.left then much else 0) + (if same_term term.now literal.now.right then much else 0) }
{
    if_same(term, &literal.left, much) + if_same(term, &literal.right, much)
}

/// How often a term stands among the sides of a literal.
fn times(term: &FoTerm, literal: &FoLit) -> u32
    ensures { result ≡ times_among term.now (sides literal.now) }
{
    if literal.pos {
        return times_each(term, literal, 1);
    }
    times_each(term, literal, 2)
}

/// Whether a term stands more often in a literal than in another.
fn stands_more(term: &FoTerm, literal: &FoLit, other: &FoLit) -> bool
    ensures { Decides result (times_among term.now (sides other.now) < times_among term.now (sides literal.now)) }
{
    times(term, other) < times(term, literal)
}

/// Whether a side of a literal stands more often there than in another, and is greater than a term.
fn is_covered_by(term: &FoTerm, side: &FoTerm, literal: &FoLit, other: &FoLit) -> bool
    ensures { Decides result ((times_among side.now (sides other.now) < times_among side.now (sides literal.now)) × IsGreater side.now term.now) }
{
    if !stands_more(side, literal, other) {
        return false;
    }
    is_greater_term(side, term)
}

/// Whether a literal has a term that is greater than this one, more often than another literal.
fn is_covered(term: &FoTerm, literal: &FoLit, other: &FoLit) -> bool
    ensures { Decides result (IsCoveredBy (sides literal.now) (sides other.now) term.now) }
{
    if is_covered_by(term, &literal.left, literal, other) {
        return true;
    }
    is_covered_by(term, &literal.right, literal, other)
}

/// The same, if the other literal has the term more often.
fn is_covered_where_more(term: &FoTerm, literal: &FoLit, other: &FoLit) -> bool
    ensures { Decides result (times_among term.now (sides literal.now) < times_among term.now (sides other.now) → IsCoveredBy (sides literal.now) (sides other.now) term.now) }
{
    if !stands_more(term, other, literal) {
        return true;
    }
    is_covered(term, literal, other)
}

/// Whether a term stands in two literals differently often.
fn differs_at(term: &FoTerm, literal: &FoLit, other: &FoLit) -> bool
    ensures { Decides result (times_among term.now (sides literal.now) ≡ times_among term.now (sides other.now) → ⊥) }
{
    times(term, literal) != times(term, other)
}

/// Whether some term stands in two literals differently often.
fn differs(literal: &FoLit, other: &FoLit) -> bool
    ensures { Decides result ((t : Term) × (times_among t (sides literal.now) ≡ times_among t (sides other.now) → ⊥)) }
{
    if differs_at(&literal.left, literal, other) {
        return true;
    }
    if differs_at(&literal.right, literal, other) {
        return true;
    }
    if differs_at(&other.left, literal, other) {
        return true;
    }
    differs_at(&other.right, literal, other)
}

/// Whether a literal is greater than another: the multiset of its sides is, where those of a positive
/// literal stand once and those of a negative one twice. A multiset is greater where they differ, and
/// for each term that the other has more often it has a greater one more often.
pub fn is_greater(literal: &FoLit, other: &FoLit) -> bool
    ensures { Decides result (IsLiteralGreater literal.now other.now) }
{
    if !differs(literal, other) {
        return false;
    }
    if !is_covered_where_more(&other.left, literal, other) {
        return false;
    }
    is_covered_where_more(&other.right, literal, other)
}

/// Whether none of some literals is greater than a literal.
pub fn is_maximal(literals: &[FoLit], literal: &FoLit) -> bool
    ensures { Decides result (IsMaximal literals.now literal.now) }
{
    for other in literals {
        if is_greater(other, literal) {
            return false;
        }
    }
    true
}
