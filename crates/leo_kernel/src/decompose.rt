//! Decomposing inequations: of two applications, and of one constant with its arguments.

ghost use Rattle.std.specs.Prelude.{[], ◌≡◌, ◌<◌, length, List};
ghost use Rattle.std.specs.Bool.{Decides};
ghost use Rattle.leo_terms.specs.Contents.{Takes, HasTypeBelow, IsArgumentBelow, argument, argument_type, connective, tree_at};
ghost use Rattle.leo_terms.specs.Tree.{Tree, app, logic};
ghost use Rattle.leo_clause.specs.Sameness.{same_connective};
ghost use Rattle.leo_clause.specs.Trees.{Literal, literal_at, clause_at};
ghost use Rattle.leo_clause.specs.Typed.{IsClauseOf};
ghost use Rattle.leo_kernel.specs.Conclusions.{Decomposes, unequal_if_present, with_new};
ghost use Rattle.leo_kernel.specs.Conditions.{HaveOneType, HaveOneHeadType};
ghost use Rattle.leo_kernel.specs.Sides.{StandsWith, IsPair, ArePairs, pair_at, pairs_at, app_sides, logic_sides, sides};

use crate::compare::concludes;
use crate::types::same_type;
use leo_clause::{Clause, Lit};
use leo_terms::{Bank, Op, TermId, TyId, View};

/// The parts of the two sides, side by side.
#[derive(Clone, Copy)]
pub(crate) enum PartPairs {
    Pairs(Option<Lit>, Option<Lit>),
    Different,
}

/// Whether two logical constants are not one constant at two types.
fn have_one_type(bank: &Bank, op: Op, other: Op) -> bool
    requires first { HasTypeBelow (length bank.now.types) op }
    requires second { HasTypeBelow (length bank.now.types) other }
    ensures { Decides result (HaveOneType (connective bank.now op) (connective bank.now other)) }
{
    bank.is_sound();
    match op {
        Op::Eq(a) => match other {
            Op::Eq(b) => a == b,
            _ => true,
        },
        Op::All(a) => match other {
            Op::All(b) => a == b,
            _ => true,
        },
        Op::Some(a) => match other {
            Op::Some(b) => a == b,
            _ => true,
        },
        Op::Eps(a) => match other {
            Op::Eps(b) => a == b,
            _ => true,
        },
        _ => true,
    }
}

/// Whether two logical constants are one.
pub(crate) fn is_one_constant(bank: &Bank, op: Op, other: Op) -> bool
    requires first { HasTypeBelow (length bank.now.types) op }
    requires second { HasTypeBelow (length bank.now.types) other }
    ensures { result ≡ same_connective (connective bank.now op) (connective bank.now other) }
{
    bank.is_sound();
    match op {
        Op::True => matches!(other, Op::True),
        Op::False => matches!(other, Op::False),
        Op::Not => matches!(other, Op::Not),
        Op::Or => matches!(other, Op::Or),
        Op::And => matches!(other, Op::And),
        Op::Imp => matches!(other, Op::Imp),
        Op::Eq(a) => match other {
            Op::Eq(b) => a == b,
            _ => false,
        },
        Op::All(a) => match other {
            Op::All(b) => a == b,
            _ => false,
        },
        Op::Some(a) => match other {
            Op::Some(b) => a == b,
            _ => false,
        },
        Op::Eps(a) => match other {
            Op::Eps(b) => a == b,
            _ => false,
        },
    }
}

/// The head type of an application beside another term.
fn app_has_one_type(bank: &Bank, f: TermId, t: TermId) -> bool
    requires function { f < length bank.now.terms }
    requires other { t < length bank.now.terms }
    ensures { (x : Tree) → Decides result (HaveOneHeadType (app (tree_at bank.now f) x) (tree_at bank.now t)) }
{
    match bank.view(t) {
        View::Var(_) => true,
        View::Bound(_) => true,
        View::Sym(_) => true,
        View::App(g, _) => same_type(bank, f, g),
        View::Lam(_, _) => true,
        View::Logic(_, _, _) => true,
    }
}

/// The type of a logical constant beside another term.
fn constant_has_one_type(bank: &Bank, op: Op, t: TermId) -> bool
    requires below { HasTypeBelow (length bank.now.types) op }
    requires other { t < length bank.now.terms }
    ensures { (x : Tree) → (y : Tree) → Decides result (HaveOneHeadType (logic (connective bank.now op) x y) (tree_at bank.now t)) }
{
    match bank.view(t) {
        View::Var(_) => true,
        View::Bound(_) => true,
        View::Sym(_) => true,
        View::App(_, _) => true,
        View::Lam(_, _) => true,
        View::Logic(other, _, _) => have_one_type(bank, op, other),
    }
}

/// Whether the functions of two applications, or two constants, have one type.
pub(crate) fn have_one_head_type(bank: &Bank, s: TermId, t: TermId) -> bool
    requires first { s < length bank.now.terms }
    requires second { t < length bank.now.terms }
    ensures { Decides result (HaveOneHeadType (tree_at bank.now s) (tree_at bank.now t)) }
{
    match bank.view(s) {
        View::Var(_) => true,
        View::Bound(_) => true,
        View::Sym(_) => true,
        View::App(f, _) => app_has_one_type(bank, f, t),
        View::Lam(_, _) => true,
        View::Logic(op, _, _) => constant_has_one_type(bank, op, t),
    }
}

/// `x ≠ z`, if x stands there.
fn pair(bank: &Bank, x: Option<TermId>, z: Option<TermId>) -> Option<Lit>
    requires first { IsArgumentBelow (length bank.now.terms) x }
    requires second { IsArgumentBelow (length bank.now.terms) z }
    requires both { StandsWith x z }
    ensures reads { pair_at bank.now result ≡ unequal_if_present (argument (tree_at bank.now) x) (argument (tree_at bank.now) z) }
    ensures within { IsPair bank.now result }
{
    bank.is_sound();
    match (x, z) {
        (Some(left), Some(right)) => Some(Lit {
            pos: false,
            left,
            right,
        }),
        _ => None,
    }
}

/// The parts of an application and of another term.
fn app_pairs(bank: &Bank, f: TermId, x: TermId, t: TermId) -> PartPairs
    requires function { f < length bank.now.terms }
    requires argument { x < length bank.now.terms }
    requires other { t < length bank.now.terms }
    ensures reads { pairs_at bank.now result ≡ app_sides (tree_at bank.now f) (tree_at bank.now x) (tree_at bank.now t) }
    ensures within { ArePairs bank.now result }
{
    match bank.view(t) {
        View::Var(_) => PartPairs::Different,
        View::Bound(_) => PartPairs::Different,
        View::Sym(_) => PartPairs::Different,
        View::App(g, y) => PartPairs::Pairs(
            Some(Lit {
                pos: false,
                left: f,
                right: g,
            }),
            Some(Lit {
                pos: false,
                left: x,
                right: y,
            }),
        ),
        View::Lam(_, _) => PartPairs::Different,
        View::Logic(_, _, _) => PartPairs::Different,
    }
}

/// The arguments of two logical constants, if they are one constant.
fn argument_pairs(
    bank: &Bank,
    op: Op,
    x: Option<TermId>,
    y: Option<TermId>,
    ty: TyId,
    other: Op,
    z: Option<TermId>,
    w: Option<TermId>,
    other_ty: TyId,
) -> PartPairs
    requires below { HasTypeBelow (length bank.now.types) op }
    requires first { IsArgumentBelow (length bank.now.terms) x }
    requires second { IsArgumentBelow (length bank.now.terms) y }
    requires typed { Takes bank.now op (argument_type bank.now x) (argument_type bank.now y) ty }
    requires other_below { HasTypeBelow (length bank.now.types) other }
    requires other_first { IsArgumentBelow (length bank.now.terms) z }
    requires other_second { IsArgumentBelow (length bank.now.terms) w }
    requires other_typed { Takes bank.now other (argument_type bank.now z) (argument_type bank.now w) other_ty }
    ensures reads { pairs_at bank.now result ≡ logic_sides (connective bank.now op) (argument (tree_at bank.now) x) (argument (tree_at bank.now) y) (logic (connective bank.now other) (argument (tree_at bank.now) z) (argument (tree_at bank.now) w)) }
    ensures within { ArePairs bank.now result }
{
    let _ = ty;
    let _ = other_ty;
    bank.is_sound();
    if !is_one_constant(bank, op, other) {
        return PartPairs::Different;
    }
    PartPairs::Pairs(pair(bank, x, z), pair(bank, y, w))
}

/// The arguments of a logical constant and of another term.
fn constant_pairs(
    bank: &Bank,
    op: Op,
    x: Option<TermId>,
    y: Option<TermId>,
    ty: TyId,
    t: TermId,
) -> PartPairs
    requires below { HasTypeBelow (length bank.now.types) op }
    requires first { IsArgumentBelow (length bank.now.terms) x }
    requires second { IsArgumentBelow (length bank.now.terms) y }
    requires typed { Takes bank.now op (argument_type bank.now x) (argument_type bank.now y) ty }
    requires other { t < length bank.now.terms }
    ensures reads { pairs_at bank.now result ≡ logic_sides (connective bank.now op) (argument (tree_at bank.now) x) (argument (tree_at bank.now) y) (tree_at bank.now t) }
    ensures within { ArePairs bank.now result }
{
    match bank.view(t) {
        View::Var(_) => PartPairs::Different,
        View::Bound(_) => PartPairs::Different,
        View::Sym(_) => PartPairs::Different,
        View::App(_, _) => PartPairs::Different,
        View::Lam(_, _) => PartPairs::Different,
        View::Logic(other, z, w) => {
            argument_pairs(bank, op, x, y, ty, other, z, w, bank.type_of(t))
        }
    }
}

/// The parts of two terms.
fn part_pairs(bank: &Bank, s: TermId, t: TermId) -> PartPairs
    requires first { s < length bank.now.terms }
    requires second { t < length bank.now.terms }
    ensures reads { pairs_at bank.now result ≡ sides (tree_at bank.now s) (tree_at bank.now t) }
    ensures within { ArePairs bank.now result }
{
    match bank.view(s) {
        View::Var(_) => PartPairs::Different,
        View::Bound(_) => PartPairs::Different,
        View::Sym(_) => PartPairs::Different,
        View::App(f, x) => app_pairs(bank, f, x, t),
        View::Lam(_, _) => PartPairs::Different,
        View::Logic(op, x, y) => constant_pairs(bank, op, x, y, bank.type_of(s), t),
    }
}

/// `C, f x ≠ g y ⊢ C, f ≠ g, x ≠ y`, and `C, c x y ≠ c z w ⊢ C, x ≠ z, y ≠ w`.
pub(crate) fn decomposes(
    bank: &Bank,
    parent: &Clause,
    place: usize,
    lit: Lit,
    step: &Clause,
) -> bool
    requires left { lit.left < length bank.now.terms }
    requires right { lit.right < length bank.now.terms }
    requires parent { IsClauseOf bank.now parent.now }
    requires place { place < length parent.now.lits }
    requires step { IsClauseOf bank.now step.now }
    ensures { Decides result ((new : List Literal) × (Decomposes (literal_at bank.now lit) new × (clause_at bank.now step.now ≡ with_new (clause_at bank.now parent.now) place [] new))) }
{
    bank.is_sound();
    if lit.pos {
        return false;
    }
    match part_pairs(bank, lit.left, lit.right) {
        PartPairs::Pairs(Some(l), Some(k)) => concludes(parent, place, &[], &[l, k], step),
        PartPairs::Pairs(Some(l), None) => concludes(parent, place, &[], &[l], step),
        PartPairs::Pairs(None, Some(k)) => concludes(parent, place, &[], &[k], step),
        PartPairs::Pairs(None, None) => concludes(parent, place, &[], &[], step),
        PartPairs::Different => false,
    }
}
