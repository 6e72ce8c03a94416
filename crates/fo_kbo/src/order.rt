//! The order.

ghost use Rattle.fo_kbo.specs.Order.{IsOrder};

use crate::outward::{compare_from, first_unlike};
use fo_terms::term::FoTerm;

/// How two terms compare.
#[derive(Clone, Copy, Debug, PartialEq, Eq)]
pub enum FoOrder {
    Less,
    Equal,
    Greater,
    Unordered,
}

/// How two terms compare in the Knuth-Bendix order. No memory is taken.
///
/// The time is linear in the nodes of the terms where the variables behind their first difference
/// have numbers below 64. Where one has a larger number, the occurrences of the variables of one side
/// are counted at each level around that difference.
pub fn compare(first: &FoTerm, second: &FoTerm) -> FoOrder
    ensures { IsOrder first.now second.now result }
{
    let left = first.nodes();
    let right = second.nodes();
    let at = first_unlike(left, right);
    if at < left.len() && at < right.len() {
        compare_from(left, right, at)
    } else {
        FoOrder::Equal
    }
}
