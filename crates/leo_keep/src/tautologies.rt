//! Clauses that always hold.

ghost use Rattle.std.specs.Prelude.{◌≡◌, ◌<◌, true, length, map};
ghost use Rattle.std.specs.Bool.{Decides};
ghost use Rattle.leo_clause.specs.Trees.{literal_at};
ghost use Rattle.leo_clause.specs.Typed.{AreLiteralsOf};
ghost use Rattle.leo_keep.specs.Matching.{HaveSameSides};
ghost use Rattle.leo_keep.specs.Tautologies.{HoldsWith, IsTautology, IsOpposed, Opposes};

use crate::tops::{is_false, is_true};
use leo_clause::Lit;
use leo_terms::Bank;

/// Whether the sides of two literals are the same, as they are or turned.
fn has_same_sides(lit: &Lit, other: &Lit) -> bool
    ensures { Decides result (HaveSameSides lit.now other.now) }
{
    if lit.left == other.left && lit.right == other.right {
        return true;
    }
    lit.left == other.right && lit.right == other.left
}

/// Whether one of two literals always holds, where the first is an equation that the second denies, or that has T as its
/// right side where the second has F.
fn opposes(bank: &Bank, lit: &Lit, other: &Lit) -> bool
    requires left { lit.now.left < length bank.now.terms }
    requires right { lit.now.right < length bank.now.terms }
    requires other_left { other.now.left < length bank.now.terms }
    requires other_right { other.now.right < length bank.now.terms }
    ensures { Decides result (Opposes (literal_at bank.now lit.now) (literal_at bank.now other.now)) }
{
    bank.is_sound();
    if !lit.pos {
        return false;
    }
    if !other.pos {
        return has_same_sides(lit, other);
    }
    if lit.left != other.left {
        return false;
    }
    if !is_true(bank, lit.right) {
        return false;
    }
    is_false(bank, other.right)
}

/// Whether a literal opposes one of some.
fn is_opposed(bank: &Bank, lit: &Lit, others: &[Lit]) -> bool
    requires left { lit.now.left < length bank.now.terms }
    requires right { lit.now.right < length bank.now.terms }
    requires others { AreLiteralsOf bank.now others.now }
    ensures { Decides result (IsOpposed (literal_at bank.now lit.now) (map (literal_at bank.now) others.now)) }
{
    for other in others {
        if opposes(bank, lit, other) {
            return true;
        }
    }
    false
}

/// Whether a literal is `s = s`.
fn is_reflexive(lit: &Lit) -> bool
    ensures { Decides result ((lit.now.pos ≡ true) × (lit.now.left ≡ lit.now.right)) }
{
    lit.pos && lit.left == lit.right
}

/// Whether a literal is `s = s`, or opposes one of some.
fn holds_with(bank: &Bank, lit: &Lit, others: &[Lit]) -> bool
    requires left { lit.now.left < length bank.now.terms }
    requires right { lit.now.right < length bank.now.terms }
    requires others { AreLiteralsOf bank.now others.now }
    ensures { Decides result (HoldsWith (literal_at bank.now lit.now) (map (literal_at bank.now) others.now)) }
{
    bank.is_sound();
    if is_reflexive(lit) {
        return true;
    }
    is_opposed(bank, lit, others)
}

/// Whether literals always hold together: one is `s = s`, or two are an equation and its negation, as it is or turned, or
/// `A = T` and `A = F`.
pub(crate) fn is_tautology(bank: &Bank, lits: &[Lit]) -> bool
    requires { AreLiteralsOf bank.now lits.now }
    ensures { Decides result (IsTautology (map (literal_at bank.now) lits.now)) }
{
    for lit in lits {
        if holds_with(bank, lit, lits) {
            return true;
        }
    }
    false
}
