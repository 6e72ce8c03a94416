//! Taking literals about truth values apart.

ghost use Rattle.std.specs.Prelude.{◌≡◌, ◌<◌, length, ℕ};
ghost use Rattle.leo_terms.specs.Contents.{Takes, HasTypeBelow, IsArgumentBelow, argument, argument_type, connective, tree_at, type_at};
ghost use Rattle.leo_clause.specs.Trees.{literal_at};
ghost use Rattle.leo_kernel.specs.Parts.{formula_by, formula_of, value_by, value_of, taken_not, taken_or, taken_and, taken_imp, taken_eq, taken_all, taken_some, taken_by, flipped_by, pieces_of, one_piece, two_pieces};
ghost use Rattle.leo_kernel.specs.Tops.{AreParts, AreTaken, IsPropertyOf, formula_at, taken_at};
ghost use Rattle.leo_kernel.specs.Truths.{AreTruths};

use crate::truths::{Truths, valued};
use leo_clause::{Lit, LogicKind};
use leo_terms::{Bank, Op, TermId, TyId, View};

/// The top of a term as a formula.
#[derive(Clone, Copy)]
pub(crate) enum Formula {
    Not(TermId),
    Or(TermId, TermId),
    And(TermId, TermId),
    Imp(TermId, TermId),
    Eq(TyId, TermId, TermId),
    All(TyId, TermId),
    Some(TyId, TermId),
    Other,
}

/// What a literal becomes.
#[derive(Clone, Copy)]
pub(crate) enum Taken {
    One(Lit),
    Two(Lit, Lit),
    /// `P X = v` for a fresh variable X of the type.
    Fresh(TyId, TermId, bool),
    Nothing,
}

/// A logical constant with its arguments as a formula.
fn formula_with(bank: &Bank, op: Op, x: Option<TermId>, y: Option<TermId>, ty: TyId) -> Formula
    requires first { IsArgumentBelow (length bank.now.terms) x }
    requires second { IsArgumentBelow (length bank.now.terms) y }
    requires below { HasTypeBelow (length bank.now.types) op }
    requires takes { Takes bank.now op (argument_type bank.now x) (argument_type bank.now y) ty }
    ensures value { formula_at bank.now result ≡ formula_by (connective bank.now op) (argument (tree_at bank.now) x) (argument (tree_at bank.now) y) }
    ensures within { AreParts bank.now result }
{
    let _ = bank;
    let _ = ty;
    match op {
        Op::True => Formula::Other,
        Op::False => Formula::Other,
        Op::Not => Formula::Not(x.unwrap()),
        Op::Or => Formula::Or(x.unwrap(), y.unwrap()),
        Op::And => Formula::And(x.unwrap(), y.unwrap()),
        Op::Imp => Formula::Imp(x.unwrap(), y.unwrap()),
        Op::Eq(a) => Formula::Eq(a, x.unwrap(), y.unwrap()),
        Op::All(a) => Formula::All(a, x.unwrap()),
        Op::Some(a) => Formula::Some(a, x.unwrap()),
        Op::Eps(_) => Formula::Other,
    }
}

/// The top of a term as a formula.
pub(crate) fn top_of(bank: &Bank, t: TermId) -> Formula
    requires { t < length bank.now.terms }
    ensures value { formula_at bank.now result ≡ formula_of (tree_at bank.now t) }
    ensures within { AreParts bank.now result }
{
    match bank.view(t) {
        View::Var(_) => Formula::Other,
        View::Bound(_) => Formula::Other,
        View::Sym(_) => Formula::Other,
        View::App(_, _) => Formula::Other,
        View::Lam(_, _) => Formula::Other,
        View::Logic(op, x, y) => formula_with(bank, op, x, y, bank.type_of(t)),
    }
}

/// Whether a logical constant is T or F.
fn value_with(bank: &Bank, op: Op) -> Option<bool>
    ensures { result ≡ value_by (connective bank.now op) }
{
    let _ = bank;
    match op {
        Op::True => Some(true),
        Op::False => Some(false),
        Op::Not => None,
        Op::Or => None,
        Op::And => None,
        Op::Imp => None,
        Op::Eq(_) => None,
        Op::All(_) => None,
        Op::Some(_) => None,
        Op::Eps(_) => None,
    }
}

/// Whether a term is T or F.
pub(crate) fn value(bank: &Bank, t: TermId) -> Option<bool>
    requires { t < length bank.now.terms }
    ensures { result ≡ value_of (tree_at bank.now t) }
{
    match bank.view(t) {
        View::Var(_) => None,
        View::Bound(_) => None,
        View::Sym(_) => None,
        View::App(_, _) => None,
        View::Lam(_, _) => None,
        View::Logic(op, _, _) => value_with(bank, op),
    }
}

/// `A = v` as the only new literal.
fn one(bank: &Bank, truths: &Truths, a: TermId, value: bool) -> Taken
    requires truths { AreTruths bank.now truths.now }
    requires first { a < length bank.now.terms }
    ensures value { (next : ℕ) → taken_at bank.now next result ≡ one_piece (tree_at bank.now a) value }
    ensures within { AreTaken bank.now result }
{
    Taken::One(valued(bank, truths, a, value))
}

/// `A = v`, `B = w` as the new literals.
fn two(bank: &Bank, truths: &Truths, a: TermId, v: bool, b: TermId, w: bool) -> Taken
    requires truths { AreTruths bank.now truths.now }
    requires first { a < length bank.now.terms }
    requires second { b < length bank.now.terms }
    ensures value { (next : ℕ) → taken_at bank.now next result ≡ two_pieces (tree_at bank.now a) v (tree_at bank.now b) w }
    ensures within { AreTaken bank.now result }
{
    Taken::Two(valued(bank, truths, a, v), valued(bank, truths, b, w))
}

/// `~ A = v` gives `A =` the other value.
fn take_not(bank: &Bank, truths: &Truths, kind: LogicKind, a: TermId, v: bool) -> Taken
    requires truths { AreTruths bank.now truths.now }
    requires first { a < length bank.now.terms }
    ensures value { (next : ℕ) → taken_at bank.now next result ≡ taken_not kind (tree_at bank.now a) v }
    ensures within { AreTaken bank.now result }
{
    match kind {
        LogicKind::Not => one(bank, truths, a, !v),
        _ => Taken::Nothing,
    }
}

/// `A | B = T` gives `A = T`, `B = T`; `A | B = F` gives `A = F` or `B = F`.
fn take_or(bank: &Bank, truths: &Truths, kind: LogicKind, a: TermId, b: TermId, v: bool) -> Taken
    requires truths { AreTruths bank.now truths.now }
    requires first { a < length bank.now.terms }
    requires second { b < length bank.now.terms }
    ensures value { (next : ℕ) → taken_at bank.now next result ≡ taken_or kind (tree_at bank.now a) (tree_at bank.now b) v }
    ensures within { AreTaken bank.now result }
{
    match (kind, v) {
        (LogicKind::OrT, true) => two(bank, truths, a, true, b, true),
        (LogicKind::OrF1, false) => one(bank, truths, a, false),
        (LogicKind::OrF2, false) => one(bank, truths, b, false),
        _ => Taken::Nothing,
    }
}

/// `A & B = T` gives `A = T` or `B = T`; `A & B = F` gives `A = F`, `B = F`.
fn take_and(bank: &Bank, truths: &Truths, kind: LogicKind, a: TermId, b: TermId, v: bool) -> Taken
    requires truths { AreTruths bank.now truths.now }
    requires first { a < length bank.now.terms }
    requires second { b < length bank.now.terms }
    ensures value { (next : ℕ) → taken_at bank.now next result ≡ taken_and kind (tree_at bank.now a) (tree_at bank.now b) v }
    ensures within { AreTaken bank.now result }
{
    match (kind, v) {
        (LogicKind::AndT1, true) => one(bank, truths, a, true),
        (LogicKind::AndT2, true) => one(bank, truths, b, true),
        (LogicKind::AndF, false) => two(bank, truths, a, false, b, false),
        _ => Taken::Nothing,
    }
}

/// `A => B = T` gives `A = F`, `B = T`; `A => B = F` gives `A = T` or `B = F`.
fn take_imp(bank: &Bank, truths: &Truths, kind: LogicKind, a: TermId, b: TermId, v: bool) -> Taken
    requires truths { AreTruths bank.now truths.now }
    requires first { a < length bank.now.terms }
    requires second { b < length bank.now.terms }
    ensures value { (next : ℕ) → taken_at bank.now next result ≡ taken_imp kind (tree_at bank.now a) (tree_at bank.now b) v }
    ensures within { AreTaken bank.now result }
{
    match (kind, v) {
        (LogicKind::ImpT, true) => two(bank, truths, a, false, b, true),
        (LogicKind::ImpF1, false) => one(bank, truths, a, true),
        (LogicKind::ImpF2, false) => one(bank, truths, b, false),
        _ => Taken::Nothing,
    }
}

/// `(s = t) = T` gives `s = t`; `(s = t) = F` gives `s ≠ t`.
fn take_eq(bank: &Bank, kind: LogicKind, s: TermId, t: TermId, v: bool) -> Taken
    requires first { s < length bank.now.terms }
    requires second { t < length bank.now.terms }
    ensures value { (next : ℕ) → taken_at bank.now next result ≡ taken_eq kind (tree_at bank.now s) (tree_at bank.now t) v }
    ensures within { AreTaken bank.now result }
{
    let _ = bank;
    match (kind, v) {
        (LogicKind::EqT, true) => Taken::One(Lit {
            pos: true,
            left: s,
            right: t,
        }),
        (LogicKind::EqF, false) => Taken::One(Lit {
            pos: false,
            left: s,
            right: t,
        }),
        _ => Taken::Nothing,
    }
}

/// `! P = T` gives `P X = T`.
fn take_all(bank: &Bank, kind: LogicKind, ty: TyId, property: TermId, v: bool) -> Taken
    requires { IsPropertyOf bank.now ty property }
    ensures value { (next : ℕ) → taken_at bank.now next result ≡ taken_all next kind (type_at bank.now ty) (tree_at bank.now property) v }
    ensures within { AreTaken bank.now result }
{
    let _ = bank;
    match (kind, v) {
        (LogicKind::AllT, true) => Taken::Fresh(ty, property, true),
        _ => Taken::Nothing,
    }
}

/// `? P = F` gives `P X = F`.
fn take_some(bank: &Bank, kind: LogicKind, ty: TyId, property: TermId, v: bool) -> Taken
    requires { IsPropertyOf bank.now ty property }
    ensures value { (next : ℕ) → taken_at bank.now next result ≡ taken_some next kind (type_at bank.now ty) (tree_at bank.now property) v }
    ensures within { AreTaken bank.now result }
{
    let _ = bank;
    match (kind, v) {
        (LogicKind::SomeF, false) => Taken::Fresh(ty, property, false),
        _ => Taken::Nothing,
    }
}

/// What `A = v` becomes.
fn take(bank: &Bank, truths: &Truths, kind: LogicKind, a: TermId, v: bool) -> Taken
    requires truths { AreTruths bank.now truths.now }
    requires within { a < length bank.now.terms }
    ensures value { (next : ℕ) → taken_at bank.now next result ≡ taken_by next kind (formula_of (tree_at bank.now a)) v }
    ensures within { AreTaken bank.now result }
{
    match top_of(bank, a) {
        Formula::Not(b) => take_not(bank, truths, kind, b, v),
        Formula::Or(b, d) => take_or(bank, truths, kind, b, d, v),
        Formula::And(b, d) => take_and(bank, truths, kind, b, d, v),
        Formula::Imp(b, d) => take_imp(bank, truths, kind, b, d, v),
        Formula::Eq(_, s, t) => take_eq(bank, kind, s, t, v),
        Formula::All(ty, p) => take_all(bank, kind, ty, p, v),
        Formula::Some(ty, p) => take_some(bank, kind, ty, p, v),
        Formula::Other => Taken::Nothing,
    }
}

/// What `A ≠ v` becomes: `A =` the other value.
fn flip(bank: &Bank, truths: &Truths, kind: LogicKind, a: TermId, v: bool) -> Taken
    requires truths { AreTruths bank.now truths.now }
    requires within { a < length bank.now.terms }
    ensures value { (next : ℕ) → taken_at bank.now next result ≡ flipped_by kind (tree_at bank.now a) v }
    ensures within { AreTaken bank.now result }
{
    match kind {
        LogicKind::Flip => one(bank, truths, a, !v),
        _ => Taken::Nothing,
    }
}

/// What a literal becomes.
pub(crate) fn take_apart(bank: &Bank, truths: &Truths, kind: LogicKind, lit: Lit) -> Taken
    requires truths { AreTruths bank.now truths.now }
    requires left { lit.left < length bank.now.terms }
    requires right { lit.right < length bank.now.terms }
    ensures value { (next : ℕ) → taken_at bank.now next result ≡ pieces_of next kind (literal_at bank.now lit) }
    ensures within { AreTaken bank.now result }
{
    match value(bank, lit.right) {
        Some(v) => {
            if lit.pos {
                take(bank, truths, kind, lit.left, v)
            } else {
                flip(bank, truths, kind, lit.left, v)
            }
        }
        None => Taken::Nothing,
    }
}
