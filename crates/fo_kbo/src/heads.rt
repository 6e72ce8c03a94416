//! What the weights and the heads of two terms say.

ghost use Rattle.std.specs.Prelude.{◌≡◌, length};
ghost use Rattle.fo_terms.specs.Prefix.{term_of, IsPrefix};
ghost use Rattle.fo_kbo.specs.Heads.{IsHeads};

use crate::nodes::node_at;
use fo_terms::term::FoNode;

/// Which of two terms is the greater one by its weight and its head, if its variables allow it; whether
/// neither can be; or whether weights and heads are the same.
#[derive(Clone, Copy, Debug)]
pub(crate) enum Heads {
    First,
    Second,
    Apart,
    Same,
}

/// What the weights of two terms say, and if these are equal, the heads.
pub(crate) fn compare_heads(left: &[FoNode], right: &[FoNode]) -> Heads
    requires left { IsPrefix left.now }
    requires right { IsPrefix right.now }
    ensures { IsHeads (term_of left.now) (term_of right.now) result }
{
    if left.len() > right.len() {
        return Heads::First;
    }
    if left.len() < right.len() {
        return Heads::Second;
    }
    compare_symbols(left, right)
}

/// What the heads of two terms of one weight say.
fn compare_symbols(left: &[FoNode], right: &[FoNode]) -> Heads
    requires left { IsPrefix left.now }
    requires right { IsPrefix right.now }
    requires same { length left.now ≡ length right.now }
    ensures { IsHeads (term_of left.now) (term_of right.now) result }
{
    match node_at(left, 0) {
        FoNode::Var(_) => Heads::Apart,
        FoNode::Sym(first, _) => match node_at(right, 0) {
            FoNode::Var(_) => Heads::Apart,
            FoNode::Sym(second, _) => {
                if first > second {
                    Heads::First
                } else if first < second {
                    Heads::Second
                } else {
                    Heads::Same
                }
            }
        },
    }
}
