//! Comparing lists of literals and of types.

ghost use Rattle.std.specs.Prelude.{◌≡◌, ◌++◌, ◌<◌, suc, take, drop, length};
ghost use Rattle.std.specs.Bool.{Decides};
ghost use Rattle.leo_kernel.specs.ByNumber.{IsConclusion};

use leo_clause::{Clause, Lit};
use leo_terms::TyId;

/// Whether two lists of literals are one.
pub(crate) fn same_lits(xs: &[Lit], ys: &[Lit]) -> bool
    ensures { Decides result (xs.now ≡ ys.now) }
{
    xs == ys
}

/// Whether two lists of types are one.
pub(crate) fn same_types(xs: &[TyId], ys: &[TyId]) -> bool
    ensures { Decides result (xs.now ≡ ys.now) }
{
    xs == ys
}

/// Whether a list is another one with `new` in the place of one item.
pub(crate) fn is_replaced(old: &[Lit], place: usize, new: &[Lit], lits: &[Lit]) -> bool
    requires { place < length old.now }
    ensures { Decides result (lits.now ≡ take place old.now ++ (new.now ++ drop (suc place) old.now)) }
{
    if lits.len() < place {
        return false;
    }
    let (front, rest) = lits.split_at(place);
    if rest.len() < new.len() {
        return false;
    }
    let (middle, back) = rest.split_at(new.len());
    if !same_lits(front, &old[..place]) {
        return false;
    }
    if !same_lits(middle, new) {
        return false;
    }
    same_lits(back, &old[place + 1..])
}

/// Whether a list is another one with items behind it.
pub(crate) fn is_appended(front: &[TyId], back: &[TyId], types: &[TyId]) -> bool
    ensures { Decides result (types.now ≡ front.now ++ back.now) }
{
    if types.len() < front.len() {
        return false;
    }
    let (first, rest) = types.split_at(front.len());
    if !same_types(first, front) {
        return false;
    }
    same_types(rest, back)
}

/// Whether a clause is its parent with new literals in the place of one, and fresh variables behind its own.
pub(crate) fn concludes(
    parent: &Clause,
    place: usize,
    fresh: &[TyId],
    new: &[Lit],
    step: &Clause,
) -> bool
    requires { place < length parent.now.lits }
    ensures { Decides result (IsConclusion parent.now place fresh.now new.now step.now) }
{
    if !is_appended(parent.vars.as_slice(), fresh, step.vars.as_slice()) {
        return false;
    }
    is_replaced(parent.lits.as_slice(), place, new, step.lits.as_slice())
}

/// Whether a list is another one with `new` in the place of one item, and `last` behind it.
pub(crate) fn is_followed(
    old: &[Lit],
    place: usize,
    new: &[Lit],
    last: &[Lit],
    lits: &[Lit],
) -> bool
    requires { place < length old.now }
    ensures { Decides result (lits.now ≡ (take place old.now ++ (new.now ++ drop (suc place) old.now)) ++ last.now) }
{
    if lits.len() < last.len() {
        return false;
    }
    let (front, back) = lits.split_at(lits.len() - last.len());
    if !same_lits(back, last) {
        return false;
    }
    is_replaced(old, place, new, front)
}
