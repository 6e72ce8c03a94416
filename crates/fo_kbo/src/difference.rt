//! The first arguments in which two terms differ.

ghost use Rattle.std.specs.Prelude.{◌≡◌, ◌<◌, length};
ghost use Rattle.fo_terms.specs.Prefix.{term_of, IsPrefix};
ghost use Rattle.fo_terms.specs.Places.{IsFull, IsBehind};
ghost use Rattle.fo_kbo.specs.Heads.{HaveSameHeads};
ghost use Rattle.fo_kbo.specs.Difference.{IsDifference};

use crate::nodes::is_same;
use crate::passing::pass;
use fo_terms::term::FoNode;

/// Where two arguments begin, and where each ends.
#[derive(Clone, Copy, Debug)]
pub(crate) struct Difference {
    pub(crate) at: usize,
    pub(crate) left_end: usize,
    pub(crate) right_end: usize,
}

/// The place behind the term at a place.
pub(crate) fn end_of(nodes: &[FoNode], at: usize) -> usize
    requires full { IsFull nodes.now }
    requires inside { at < length nodes.now }
    ensures { IsBehind nodes.now at result }
{
    pass(nodes, at, 1)
}

/// The first arguments in which two different terms with equal weights and heads differ.
pub(crate) fn first_difference(left: &[FoNode], right: &[FoNode]) -> Difference
    requires left { IsPrefix left.now }
    requires right { IsPrefix right.now }
    requires same { HaveSameHeads (term_of left.now) (term_of right.now) }
    requires different { term_of left.now ≡ term_of right.now → ⊥ }
    ensures { IsDifference left.now right.now result }
{
    let mut at = 1;
    loop {
        let left_end = end_of(left, at);
        let right_end = end_of(right, at);
        if !is_same(&left[at..left_end], &right[at..right_end]) {
            return Difference {
                at,
                left_end,
                right_end,
            };
        }
        at = left_end;
    }
}
