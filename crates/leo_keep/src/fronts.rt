//! What quick tests know of a kept clause, so that most of them need not be looked at.

ghost use Rattle.std.specs.Prelude.{◌≡◌, Some};
ghost use Rattle.std.specs.Bool.{OnFalse};
ghost use Rattle.leo_clause.specs.Typed.{AreLiteralsOf, IsClauseOf};
ghost use Rattle.leo_keep.specs.Fronts.{IsFront, IsFrontIn, IsNoCopy, SendsNone, second_or_first};

use crate::heads::{heads_of_literal, may_be_among};
use crate::subsuming::MOST_LITERALS;
use leo_clause::{Clause, Lit};
use leo_terms::Bank;

/// What quick tests know of a clause that has literals. A head is what is applied to arguments, one after the other.
#[derive(Clone, Copy, Debug, PartialEq, Eq)]
pub struct Front {
    /// The first literal.
    pub first: Lit,
    /// A literal of the heads of its sides.
    pub heads: Lit,
    /// The same of the second literal, or of the first if there is no other.
    pub second: Lit,
    /// Whether the literals are few enough to subsume a clause.
    pub few: bool,
}

/// The literal behind the first one, or the first if there is no other.
fn second_of<'a>(first: &'a Lit, rest: &'a [Lit]) -> &'a Lit
    ensures { result.now ≡ second_or_first first.now rest.now }
{
    match rest.first() {
        Some(second) => second,
        None => first,
    }
}

/// What quick tests know of a clause; nothing of the one without literals.
pub fn front_of(bank: &Bank, clause: &Clause) -> Option<Front>
    requires { IsClauseOf bank.now clause.now }
    ensures { IsFront bank.now clause.now result }
{
    let lits = clause.lits.as_slice();
    let (first, rest) = lits.split_first()?;
    Some(Front {
        first: *first,
        heads: heads_of_literal(bank, first),
        second: heads_of_literal(bank, second_of(first, rest)),
        few: lits.len() <= MOST_LITERALS,
    })
}

/// Whether a clause with this front may be another.
pub(crate) fn may_be_copy(front: &Option<Front>, clause: &Clause) -> bool
    ensures { OnFalse result (IsNoCopy front.now clause.now) }
{
    match (front, clause.lits.as_slice().first()) {
        (Some(front), Some(first)) => front.first == *first,
        (None, None) => true,
        _ => false,
    }
}

/// Whether the first two literals of a clause with this front may be sent among literals with these heads.
fn may_send_both(bank: &Bank, front: &Front, heads: &[Lit]) -> bool
    requires front { IsFrontIn bank.now (Some front.now) }
    requires heads { AreLiteralsOf bank.now heads.now }
    ensures { OnFalse result (SendsNone bank.now (Some front.now) heads.now) }
{
    if !front.few {
        return false;
    }
    if !may_be_among(bank, &front.heads, heads) {
        return false;
    }
    may_be_among(bank, &front.second, heads)
}

/// Whether a clause with this front may be sent among literals with these heads.
pub(crate) fn may_start(bank: &Bank, front: &Option<Front>, heads: &[Lit]) -> bool
    requires front { IsFrontIn bank.now front.now }
    requires heads { AreLiteralsOf bank.now heads.now }
    ensures { OnFalse result (SendsNone bank.now front.now heads.now) }
{
    match front {
        Some(front) => may_send_both(bank, front, heads),
        None => false,
    }
}
