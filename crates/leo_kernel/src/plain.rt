//! Rules that look at no more than the sides of literals.

ghost use Rattle.std.specs.Prelude.{[], ◌∷◌, ◌≡◌, ◌<◌, length};
ghost use Rattle.std.specs.Bool.{Decides};
ghost use Rattle.leo_terms.specs.Contents.{tree_at};
ghost use Rattle.leo_terms.specs.Tree.{Tree};
ghost use Rattle.leo_clause.specs.Trees.{literal_at, clause_at};
ghost use Rattle.leo_clause.specs.Typed.{IsClauseOf};
ghost use Rattle.leo_kernel.specs.ByNumber.{only, left_value, right_value};
ghost use Rattle.leo_kernel.specs.Conclusions.{assumed, bool_case, factored, with_new, NeverHolds};
ghost use Rattle.leo_kernel.specs.Shapes.{equal};
ghost use Rattle.leo_kernel.specs.Truths.{AreTruths};

use crate::compare::{concludes, is_followed, same_lits, same_types};
use crate::truths::{Truths, valued};
use leo_clause::{Clause, Half, Lit};
use leo_terms::{Bank, TermId};

/// `⊢ H = T` for a hypothesis H.
pub(crate) fn is_assumed(bank: &Bank, truths: &Truths, h: TermId, step: &Clause) -> bool
    requires hypothesis { h < length bank.now.terms }
    requires truths { AreTruths bank.now truths.now }
    requires step { IsClauseOf bank.now step.now }
    ensures { Decides result (clause_at bank.now step.now ≡ assumed (tree_at bank.now h)) }
{
    bank.is_sound();
    if !step.vars.is_empty() {
        return false;
    }
    let lit = valued(bank, truths, h, true);
    same_lits(step.lits.as_slice(), &[lit])
}

/// The only literal of a clause.
pub(crate) fn only_lit(lits: &[Lit]) -> Option<Lit>
    ensures { result ≡ only lits.now }
{
    if lits.len() == 1 { Some(lits[0]) } else { None }
}

/// `⊢ s = s`.
pub(crate) fn is_reflexive(bank: &Bank, step: &Clause) -> bool
    requires { IsClauseOf bank.now step.now }
    ensures { Decides result ((s : Tree) × ((clause_at bank.now step.now).literals ≡ equal s s ∷ [])) }
{
    bank.is_sound();
    match only_lit(step.lits.as_slice()) {
        Some(lit) => lit.pos && lit.left == lit.right,
        None => false,
    }
}

/// Whether a literal is `s ≠ s`, `T = F` or `F = T`.
fn never_holds(bank: &Bank, truths: &Truths, lit: Lit) -> bool
    requires left { lit.left < length bank.now.terms }
    requires right { lit.right < length bank.now.terms }
    requires truths { AreTruths bank.now truths.now }
    ensures { Decides result (NeverHolds (literal_at bank.now lit)) }
{
    bank.is_sound();
    if !lit.pos {
        return lit.left == lit.right;
    }
    if lit.left == truths.yes {
        return lit.right == truths.no;
    }
    if lit.left == truths.no {
        return lit.right == truths.yes;
    }
    false
}

/// `C, L ⊢ C` where the literal L never holds.
pub(crate) fn drops(
    bank: &Bank,
    truths: &Truths,
    parent: &Clause,
    place: usize,
    lit: Lit,
    step: &Clause,
) -> bool
    requires left { lit.left < length bank.now.terms }
    requires right { lit.right < length bank.now.terms }
    requires truths { AreTruths bank.now truths.now }
    requires parent { IsClauseOf bank.now parent.now }
    requires place { place < length parent.now.lits }
    requires step { IsClauseOf bank.now step.now }
    ensures { Decides result (NeverHolds (literal_at bank.now lit) × (clause_at bank.now step.now ≡ with_new (clause_at bank.now parent.now) place [] [])) }
{
    bank.is_sound();
    if !never_holds(bank, truths, lit) {
        return false;
    }
    concludes(parent, place, &[], &[], step)
}

/// The value of the left side in a case of an equation of truth values, or of an inequation.
fn first_value(half: Half, equal: bool) -> bool
    ensures { result ≡ left_value half equal }
{
    match half {
        Half::One => !equal,
        Half::Two => equal,
    }
}

/// The value of the right side.
fn second_value(half: Half) -> bool
    ensures { result ≡ right_value half }
{
    match half {
        Half::One => true,
        Half::Two => false,
    }
}

/// `C, A = B ⊢ C, A = F, B = T` and the other three cases.
pub(crate) fn is_bool_case(
    bank: &Bank,
    truths: &Truths,
    parent: &Clause,
    place: usize,
    lit: Lit,
    half: Half,
    step: &Clause,
) -> bool
    requires left { lit.left < length bank.now.terms }
    requires right { lit.right < length bank.now.terms }
    requires truths { AreTruths bank.now truths.now }
    requires parent { IsClauseOf bank.now parent.now }
    requires place { place < length parent.now.lits }
    requires step { IsClauseOf bank.now step.now }
    ensures { Decides result (clause_at bank.now step.now ≡ with_new (clause_at bank.now parent.now) place [] (bool_case half lit.pos (tree_at bank.now lit.left) (tree_at bank.now lit.right))) }
{
    bank.is_sound();
    let first = valued(bank, truths, lit.left, first_value(half, lit.pos));
    let second = valued(bank, truths, lit.right, second_value(half));
    concludes(parent, place, &[], &[first, second], step)
}

/// `C, l = r, D, l' = r' ⊢ C, l = r, D, l ≠ l', r ≠ r'`, and the same of two inequations.
pub(crate) fn factors(
    bank: &Bank,
    parent: &Clause,
    place: usize,
    first: Lit,
    second: Lit,
    step: &Clause,
) -> bool
    requires first_left { first.left < length bank.now.terms }
    requires first_right { first.right < length bank.now.terms }
    requires second_left { second.left < length bank.now.terms }
    requires second_right { second.right < length bank.now.terms }
    requires parent { IsClauseOf bank.now parent.now }
    requires place { place < length parent.now.lits }
    requires step { IsClauseOf bank.now step.now }
    ensures { Decides result ((first.pos ≡ second.pos) × (clause_at bank.now step.now ≡ factored (clause_at bank.now parent.now) place (literal_at bank.now first) (literal_at bank.now second))) }
{
    bank.is_sound();
    if first.pos != second.pos {
        return false;
    }
    if !same_types(step.vars.as_slice(), parent.vars.as_slice()) {
        return false;
    }
    let left = Lit {
        pos: false,
        left: first.left,
        right: second.left,
    };
    let right = Lit {
        pos: false,
        left: first.right,
        right: second.right,
    };
    is_followed(
        parent.lits.as_slice(),
        place,
        &[],
        &[left, right],
        step.lits.as_slice(),
    )
}
