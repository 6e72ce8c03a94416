//! The order of two terms from the first place where their nodes differ, through the terms around it,
//! outward.

ghost use Rattle.std.specs.Prelude.{◌≡◌, ◌<◌, ◌≤◌, ◌+◌, ◌^◌, ℕ, length, slice_get, Some};
ghost use Rattle.fo_terms.specs.declared.term.FoNode.{FoNode};
ghost use Rattle.fo_terms.specs.Prefix.{term_of, IsPrefix};
ghost use Rattle.fo_terms.specs.Places.{term_at};
ghost use Rattle.fo_kbo.specs.Order.{IsOrder};
ghost use Rattle.fo_kbo.specs.Tallies.{IsTally, AreTallied};
ghost use Rattle.fo_kbo.specs.Heads.{IsHeads};
ghost use Rattle.fo_kbo.specs.Outward.{AreSameBefore, AreOrdered, IsTurn, IsOver, heads_of};

use crate::descent::compare_different;
use crate::difference::end_of;
use crate::heads::{Heads, compare_heads};
use crate::nodes::{is_same_node, node_at, part};
use crate::order::FoOrder;
use crate::passing::{arguments, pass};
use crate::tally::{Tally, covers_at};
use fo_terms::term::FoNode;

/// Terms that begin at one place of two lists, with the places behind them and their order.
#[derive(Clone, Copy, Debug)]
pub(crate) struct Level {
    pub(crate) at: usize,
    pub(crate) left_end: usize,
    pub(crate) right_end: usize,
    pub(crate) order: FoOrder,
}

/// What a node before some terms makes of them: so many terms, or it lacks so many behind one more.
#[derive(Clone, Copy, Debug)]
pub(crate) enum Turn {
    Passed(usize),
    Opened(usize),
}

/// The first place where the nodes differ, or the length of the shorter list.
pub(crate) fn first_unlike(left: &[FoNode], right: &[FoNode]) -> usize
    ensures same { AreSameBefore left.now right.now result }
    ensures left { result ≤ length left.now }
    ensures right { result ≤ length right.now }
    ensures unlike { (n : FoNode) → slice_get left.now result ≡ Some n → slice_get right.now result ≡ Some n → ⊥ }
{
    let mut at = 0;
    while at < left.len() && at < right.len() {
        if !is_same_node(node_at(left, at), node_at(right, at)) {
            return at;
        }
        at += 1;
    }
    at
}

/// How often variables occur behind the first place where the nodes differ, in the two lists.
#[derive(Clone, Copy, Debug)]
struct Tallies {
    left: Tally,
    right: Tally,
}

/// The order that the heads or the weights of two terms say, where the variables allow it.
fn order_by(
    heads: Heads,
    left: &[FoNode],
    right: &[FoNode],
    tallies: &Tallies,
    at: usize,
    left_end: usize,
    right_end: usize,
) -> FoOrder
    requires left { IsPrefix left.now }
    requires right { IsPrefix right.now }
    requires tallied { AreTallied left.now right.now at left_end right_end tallies.now.left tallies.now.right }
    requires different { term_at left.now at ≡ term_at right.now at → ⊥ }
    requires heads { IsHeads (term_at left.now at) (term_at right.now at) heads }
    ensures { IsOrder (term_at left.now at) (term_at right.now at) result }
{
    match heads {
        Heads::First => {
            let both = (&tallies.left, &tallies.right);
            if covers_at(left, right, both, at, left_end, right_end) {
                FoOrder::Greater
            } else {
                FoOrder::Unordered
            }
        }
        Heads::Second => {
            let turned = (&tallies.right, &tallies.left);
            if covers_at(right, left, turned, at, right_end, left_end) {
                FoOrder::Less
            } else {
                FoOrder::Unordered
            }
        }
        Heads::Apart => FoOrder::Unordered,
        Heads::Same => compare_different(part(left, at, left_end), part(right, at, right_end)),
    }
}

/// The terms at the first place where the nodes differ.
fn innermost(left: &[FoNode], right: &[FoNode], at: usize, tallies: &mut Tallies) -> Level
    requires left { IsPrefix left.now }
    requires right { IsPrefix right.now }
    requires left_inside { at < length left.now }
    requires right_inside { at < length right.now }
    requires same { AreSameBefore left.now right.now at }
    requires unlike { (n : FoNode) → slice_get left.now at ≡ Some n → slice_get right.now at ≡ Some n → ⊥ }
    requires left_fresh { IsTally left.now at at tallies.old.left }
    requires right_fresh { IsTally right.now at at tallies.old.right }
    ensures at { result.at ≡ at }
    ensures ordered { AreOrdered left.now right.now result }
    ensures tallied { AreTallied left.now right.now result.at result.left_end result.right_end tallies.new.left tallies.new.right }
{
    let left_end = end_of(left, at);
    let right_end = end_of(right, at);
    tallies.left.extend(left, at, left_end);
    tallies.right.extend(right, at, right_end);
    let heads = compare_heads(part(left, at, left_end), part(right, at, right_end));
    let order = order_by(heads, left, right, tallies, at, left_end, right_end);
    Level {
        at,
        left_end,
        right_end,
        order,
    }
}

fn turn_at(node: FoNode, passed: usize) -> Turn
    requires { passed + 1 < 2 ^ 64 }
    ensures { IsTurn node passed result }
{
    let count = arguments(node);
    if count > passed {
        Turn::Opened(count - passed - 1)
    } else {
        Turn::Passed(passed - count + 1)
    }
}

/// What the places behind two terms with equal heads, and the order of their arguments, say of them.
fn by_weight(order: FoOrder, left_end: usize, right_end: usize) -> Heads
    ensures heavier { right_end < left_end → result ≡ Heads.First }
    ensures lighter { left_end < right_end → result ≡ Heads.Second }
    ensures same { left_end ≡ right_end → result ≡ heads_of order }
{
    if left_end > right_end {
        return Heads::First;
    }
    if left_end < right_end {
        return Heads::Second;
    }
    match order {
        FoOrder::Greater => Heads::First,
        FoOrder::Less => Heads::Second,
        FoOrder::Equal | FoOrder::Unordered => Heads::Apart,
    }
}

/// The terms around those of a level.
fn around(
    left: &[FoNode],
    right: &[FoNode],
    tallies: &mut Tallies,
    level: Level,
    here: usize,
    missing: usize,
) -> Level
    requires left { IsPrefix left.now }
    requires right { IsPrefix right.now }
    requires ordered { AreOrdered left.now right.now level }
    requires over { IsOver left.now right.now level here missing }
    requires tallied { AreTallied left.now right.now level.at level.left_end level.right_end tallies.old.left tallies.old.right }
    ensures at { result.at ≡ here }
    ensures ordered { AreOrdered left.now right.now result }
    ensures tallied { AreTallied left.now right.now result.at result.left_end result.right_end tallies.new.left tallies.new.right }
{
    let left_end = pass(left, level.left_end, missing);
    let right_end = pass(right, level.right_end, missing);
    tallies.left.extend(left, level.left_end, left_end);
    tallies.right.extend(right, level.right_end, right_end);
    let heads = by_weight(level.order, left_end, right_end);
    let order = order_by(heads, left, right, tallies, here, left_end, right_end);
    Level {
        at: here,
        left_end,
        right_end,
        order,
    }
}

/// The order of two terms whose nodes differ first at a place.
pub(crate) fn compare_from(left: &[FoNode], right: &[FoNode], at: usize) -> FoOrder
    requires left { IsPrefix left.now }
    requires right { IsPrefix right.now }
    requires left_inside { at < length left.now }
    requires right_inside { at < length right.now }
    requires same { AreSameBefore left.now right.now at }
    requires unlike { (n : FoNode) → slice_get left.now at ≡ Some n → slice_get right.now at ≡ Some n → ⊥ }
    ensures { IsOrder (term_of left.now) (term_of right.now) result }
{
    let mut tallies = Tallies {
        left: Tally::new(),
        right: Tally::new(),
    };
    let mut level = innermost(left, right, at, &mut tallies);
    let mut here = at;
    let mut passed = 0;
    while here > 0 {
        here -= 1;
        match turn_at(node_at(left, here), passed) {
            Turn::Passed(now) => passed = now,
            Turn::Opened(missing) => {
                level = around(left, right, &mut tallies, level, here, missing);
                passed = 0;
            }
        }
    }
    level.order
}
