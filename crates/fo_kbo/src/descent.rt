//! The order of two terms level by level, where a symbol may stand with two counts of arguments.

ghost use Rattle.std.specs.Prelude.{◌≡◌, ◌<◌, ◌↔◌, IsTrue, if◌then◌else◌};
ghost use Rattle.fo_terms.specs.Prefix.{term_of, IsPrefix};
ghost use Rattle.fo_kbo.specs.Occurrences.{Covers};
ghost use Rattle.fo_kbo.specs.Order.{IsOrder};

use crate::difference::first_difference;
use crate::heads::{Heads, compare_heads};
use crate::nodes::{covers, part};
use crate::order::FoOrder;
use fo_terms::term::FoNode;

/// The order of two different terms: down the first arguments that differ, until a level decides.
pub(crate) fn compare_different(first: &[FoNode], second: &[FoNode]) -> FoOrder
    requires first { IsPrefix first.now }
    requires second { IsPrefix second.now }
    requires different { term_of first.now ≡ term_of second.now → ⊥ }
    ensures { IsOrder (term_of first.now) (term_of second.now) result }
{
    let mut left = first;
    let mut right = second;
    let mut may_be_greater = true;
    let mut may_be_less = true;
    loop {
        may_be_greater = may_still_be(may_be_greater, left, right);
        may_be_less = may_still_be(may_be_less, right, left);
        match compare_heads(left, right) {
            Heads::First => return decided(may_be_greater, FoOrder::Greater),
            Heads::Second => return decided(may_be_less, FoOrder::Less),
            Heads::Apart => return FoOrder::Unordered,
            Heads::Same => {
                let found = first_difference(left, right);
                left = part(left, found.at, found.left_end);
                right = part(right, found.at, found.right_end);
            }
        }
    }
}

/// Whether a term may be the greater one, after a look at its variables.
fn may_still_be(may_be: bool, left: &[FoNode], right: &[FoNode]) -> bool
    requires left { IsPrefix left.now }
    requires right { IsPrefix right.now }
    ensures { IsTrue result ↔ (IsTrue may_be × Covers (term_of left.now) (term_of right.now)) }
{
    may_be && covers(left, right)
}

/// The order, if it may be that one.
fn decided(may_be: bool, order: FoOrder) -> FoOrder
    ensures { result ≡ (if may_be then order else FoOrder.Unordered) }
{
    if may_be { order } else { FoOrder::Unordered }
}
