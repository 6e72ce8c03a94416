//! The forms of a literal.

ghost use Rattle.std.specs.Prelude.{◌≡◌, ◌<◌, ◌&&◌, is_none, is_some, length};
ghost use Rattle.leo_terms.specs.Contents.{HasTypeBelow, IsArgumentBelow, Takes, argument, argument_type, connective, tree_at};
ghost use Rattle.leo_clause.specs.Trees.{literal_at};
ghost use Rattle.leo_kernel.specs.Parts.{value_by, value_of};
ghost use Rattle.leo_clausify.specs.Forms.{are_opposite as are_opposite_values, never_holds as never_holds_tree};
ghost use Rattle.leo_clausify.specs.Ways.{AreWaysOf, all_forms, and_forms, imp_forms, kind_equated, or_forms, some_forms, ways_about as ways_about_tree, ways_at, ways_of as ways_of_tree, ways_valued as ways_valued_tree, ways_with as ways_with_trees};

use leo_clause::{Lit, LogicKind};
use leo_terms::{Bank, Op, TermId, TyId, View};

/// What becomes of a literal.
#[derive(Clone, Copy)]
pub(crate) enum Way {
    /// Its sides change places.
    Turn,
    /// It is left out.
    Omit,
    /// `A = v`.
    Single(LogicKind, TermId, bool),
    /// `A = v`, `B = w`.
    Double(LogicKind, TermId, bool, TermId, bool),
    /// `s = t`, or `s != t`.
    Sides(LogicKind, bool, TermId, TermId),
    /// `P X = v` for a fresh variable X of the type.
    Fresh(LogicKind, TyId, TermId, bool),
    /// `P w = v` for a chosen w of the type.
    Chosen(TyId, TermId, bool),
}

/// The forms of a literal, in order.
#[derive(Clone, Copy)]
pub(crate) enum Ways {
    Nothing,
    One(Way),
    Two(Way, Way),
}

/// Whether a logical constant is T or F.
fn value_with(bank: &Bank, op: Op) -> Option<bool>
    ensures { result ≡ value_by (connective bank.now op) }
{
    let _ = bank;
    match op {
        Op::True => Some(true),
        Op::False => Some(false),
        Op::Not => None,
        Op::Or => None,
        Op::And => None,
        Op::Imp => None,
        Op::Eq(_) => None,
        Op::All(_) => None,
        Op::Some(_) => None,
        Op::Eps(_) => None,
    }
}

/// Whether a term is T or F.
fn value(bank: &Bank, t: TermId) -> Option<bool>
    requires { t < length bank.now.terms }
    ensures { result ≡ value_of (tree_at bank.now t) }
{
    match bank.view(t) {
        View::Var(_) => None,
        View::Bound(_) => None,
        View::Sym(_) => None,
        View::App(_, _) => None,
        View::Lam(_, _) => None,
        View::Logic(op, _, _) => value_with(bank, op),
    }
}

/// `A | B = T` gives `A = T`, `B = T`; `A | B = F` gives `A = F` or `B = F`.
fn or_ways(a: TermId, b: TermId, v: bool) -> Ways
    ensures { result ≡ or_forms a b v }
{
    if v {
        Ways::One(Way::Double(LogicKind::OrT, a, true, b, true))
    } else {
        Ways::Two(
            Way::Single(LogicKind::OrF1, a, false),
            Way::Single(LogicKind::OrF2, b, false),
        )
    }
}

/// `A & B = T` gives `A = T` or `B = T`; `A & B = F` gives `A = F`, `B = F`.
fn and_ways(a: TermId, b: TermId, v: bool) -> Ways
    ensures { result ≡ and_forms a b v }
{
    if v {
        Ways::Two(
            Way::Single(LogicKind::AndT1, a, true),
            Way::Single(LogicKind::AndT2, b, true),
        )
    } else {
        Ways::One(Way::Double(LogicKind::AndF, a, false, b, false))
    }
}

/// `A => B = T` gives `A = F`, `B = T`; `A => B = F` gives `A = T` or `B = F`.
fn imp_ways(a: TermId, b: TermId, v: bool) -> Ways
    ensures { result ≡ imp_forms a b v }
{
    if v {
        Ways::One(Way::Double(LogicKind::ImpT, a, false, b, true))
    } else {
        Ways::Two(
            Way::Single(LogicKind::ImpF1, a, true),
            Way::Single(LogicKind::ImpF2, b, false),
        )
    }
}

fn eq_kind(v: bool) -> LogicKind
    ensures { result ≡ kind_equated v }
{
    if v { LogicKind::EqT } else { LogicKind::EqF }
}

/// `! P = T` gives `P X = T`; `! P = F` gives `P w = F`.
fn all_ways(ty: TyId, property: TermId, v: bool) -> Ways
    ensures { result ≡ all_forms ty property v }
{
    if v {
        Ways::One(Way::Fresh(LogicKind::AllT, ty, property, true))
    } else {
        Ways::One(Way::Chosen(ty, property, false))
    }
}

/// `? P = T` gives `P w = T`; `? P = F` gives `P X = F`.
fn some_ways(ty: TyId, property: TermId, v: bool) -> Ways
    ensures { result ≡ some_forms ty property v }
{
    if v {
        Ways::One(Way::Chosen(ty, property, true))
    } else {
        Ways::One(Way::Fresh(LogicKind::SomeF, ty, property, false))
    }
}

/// The forms of `A = v`, where A is a logical constant with its arguments.
fn ways_with(bank: &Bank, op: Op, x: Option<TermId>, y: Option<TermId>, ty: TyId, v: bool) -> Ways
    requires first { IsArgumentBelow (length bank.now.terms) x }
    requires second { IsArgumentBelow (length bank.now.terms) y }
    requires below { HasTypeBelow (length bank.now.types) op }
    requires takes { Takes bank.now op (argument_type bank.now x) (argument_type bank.now y) ty }
    ensures value { ways_at bank.now result ≡ ways_with_trees (connective bank.now op) (argument (tree_at bank.now) x) (argument (tree_at bank.now) y) v }
    ensures within { AreWaysOf bank.now result }
{
    let _ = bank;
    let _ = ty;
    match op {
        Op::True => Ways::Nothing,
        Op::False => Ways::Nothing,
        Op::Not => Ways::One(Way::Single(LogicKind::Not, x.unwrap(), !v)),
        Op::Or => or_ways(x.unwrap(), y.unwrap(), v),
        Op::And => and_ways(x.unwrap(), y.unwrap(), v),
        Op::Imp => imp_ways(x.unwrap(), y.unwrap(), v),
        Op::Eq(_) => Ways::One(Way::Sides(eq_kind(v), v, x.unwrap(), y.unwrap())),
        Op::All(a) => all_ways(a, x.unwrap(), v),
        Op::Some(a) => some_ways(a, x.unwrap(), v),
        Op::Eps(_) => Ways::Nothing,
    }
}

/// The forms of `A = v`.
fn ways_about(bank: &Bank, t: TermId, v: bool) -> Ways
    requires { t < length bank.now.terms }
    ensures value { ways_at bank.now result ≡ ways_about_tree (tree_at bank.now t) v }
    ensures within { AreWaysOf bank.now result }
{
    match bank.view(t) {
        View::Var(_) => Ways::Nothing,
        View::Bound(_) => Ways::Nothing,
        View::Sym(_) => Ways::Nothing,
        View::App(_, _) => Ways::Nothing,
        View::Lam(_, _) => Ways::Nothing,
        View::Logic(op, x, y) => ways_with(bank, op, x, y, bank.type_of(t), v),
    }
}

/// Whether two truth values are T and F.
fn are_opposite(x: Option<bool>, y: Option<bool>) -> bool
    ensures { result ≡ are_opposite_values x y }
{
    match (x, y) {
        (Some(v), Some(w)) => v != w,
        _ => false,
    }
}

/// Whether a literal, whose sides have these truth values, is `T = F`, `F = T` or `s != s`.
fn never_holds(bank: &Bank, lit: &Lit, left: Option<bool>, right: Option<bool>) -> bool
    requires left_within { lit.now.left < length bank.now.terms }
    requires right_within { lit.now.right < length bank.now.terms }
    requires left { left ≡ value_of (tree_at bank.now lit.now.left) }
    requires right { right ≡ value_of (tree_at bank.now lit.now.right) }
    ensures { result ≡ never_holds_tree (literal_at bank.now lit.now) }
{
    bank.is_sound();
    if lit.pos {
        are_opposite(left, right)
    } else {
        lit.left == lit.right
    }
}

/// Whether of two truth values the first stands alone.
fn stands_alone(left: Option<bool>, right: Option<bool>) -> bool
    ensures { result ≡ (is_some left && is_none right) }
{
    match left {
        Some(_) => right.is_none(),
        None => false,
    }
}

/// The forms of a literal whose right side has this truth value.
fn ways_valued(bank: &Bank, lit: &Lit, right: Option<bool>) -> Ways
    requires { lit.now.left < length bank.now.terms }
    ensures value { ways_at bank.now result ≡ ways_valued_tree (literal_at bank.now lit.now) right }
    ensures within { AreWaysOf bank.now result }
{
    match right {
        None => Ways::Nothing,
        Some(v) => {
            if lit.pos {
                ways_about(bank, lit.left, v)
            } else {
                Ways::One(Way::Single(LogicKind::Flip, lit.left, !v))
            }
        }
    }
}

/// The forms of a literal, by the first rule that fits.
pub(crate) fn ways_of(bank: &Bank, lit: &Lit) -> Ways
    requires left { lit.now.left < length bank.now.terms }
    requires right { lit.now.right < length bank.now.terms }
    ensures value { ways_at bank.now result ≡ ways_of_tree (literal_at bank.now lit.now) }
    ensures within { AreWaysOf bank.now result }
{
    let left = value(bank, lit.left);
    let right = value(bank, lit.right);
    if stands_alone(left, right) {
        Ways::One(Way::Turn)
    } else if never_holds(bank, lit, left, right) {
        Ways::One(Way::Omit)
    } else {
        ways_valued(bank, lit, right)
    }
}
