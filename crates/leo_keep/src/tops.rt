//! What stands at the top of a term.

ghost use Rattle.std.specs.Prelude.{◌≡◌, ◌<◌, length, MatchOption};
ghost use Rattle.std.specs.Bool.{Decides};
ghost use Rattle.leo_terms.specs.Contents.{tree_at, connective, HasTypeBelow};
ghost use Rattle.leo_clause.specs.Sameness.{same_connective};
ghost use Rattle.leo_keep.specs.Matching.{IsApplication, IsConstant, IsLambda, IsNoApplication, IsNoConstant, IsNoLambda};
ghost use Rattle.leo_keep.specs.Tautologies.{true_tree, false_tree};

use leo_terms::{Bank, Op, TermId, TyId, View};

/// A function with its argument.
#[derive(Clone, Copy)]
pub(crate) struct Application {
    pub function: TermId,
    pub argument: TermId,
}

/// A lambda, with the type of its index.
#[derive(Clone, Copy)]
pub(crate) struct Lambda {
    pub ty: TyId,
    pub body: TermId,
}

/// A logical constant with its arguments.
#[derive(Clone, Copy)]
pub(crate) struct Constant {
    pub op: Op,
    pub first: Option<TermId>,
    pub second: Option<TermId>,
}

/// The application that a term is.
pub(crate) fn application_of(bank: &Bank, t: TermId) -> Option<Application>
    requires { t < length bank.now.terms }
    ensures { MatchOption result (IsNoApplication (tree_at bank.now t)) (λ p. IsApplication bank.now (tree_at bank.now t) p.function p.argument) }
{
    match bank.view(t) {
        View::Var(_) => None,
        View::Bound(_) => None,
        View::Sym(_) => None,
        View::App(function, argument) => Some(Application { function, argument }),
        View::Lam(_, _) => None,
        View::Logic(_, _, _) => None,
    }
}

/// The lambda that a term is.
pub(crate) fn lambda_of(bank: &Bank, t: TermId) -> Option<Lambda>
    requires { t < length bank.now.terms }
    ensures { MatchOption result (IsNoLambda (tree_at bank.now t)) (λ p. IsLambda bank.now (tree_at bank.now t) p.ty p.body) }
{
    match bank.view(t) {
        View::Var(_) => None,
        View::Bound(_) => None,
        View::Sym(_) => None,
        View::App(_, _) => None,
        View::Lam(ty, body) => Some(Lambda { ty, body }),
        View::Logic(_, _, _) => None,
    }
}

/// The logical constant at the top of a term.
pub(crate) fn constant_of(bank: &Bank, t: TermId) -> Option<Constant>
    requires { t < length bank.now.terms }
    ensures { MatchOption result (IsNoConstant (tree_at bank.now t)) (λ k. IsConstant bank.now (tree_at bank.now t) k.op k.first k.second) }
{
    match bank.view(t) {
        View::Var(_) => None,
        View::Bound(_) => None,
        View::Sym(_) => None,
        View::App(_, _) => None,
        View::Lam(_, _) => None,
        View::Logic(op, first, second) => Some(Constant { op, first, second }),
    }
}

/// Whether two logical constants are one.
pub(crate) fn is_one_constant(bank: &Bank, op: Op, other: Op) -> bool
    requires first { HasTypeBelow (length bank.now.types) op }
    requires second { HasTypeBelow (length bank.now.types) other }
    ensures { result ≡ same_connective (connective bank.now op) (connective bank.now other) }
{
    bank.is_sound();
    match op {
        Op::True => matches!(other, Op::True),
        Op::False => matches!(other, Op::False),
        Op::Not => matches!(other, Op::Not),
        Op::Or => matches!(other, Op::Or),
        Op::And => matches!(other, Op::And),
        Op::Imp => matches!(other, Op::Imp),
        Op::Eq(a) => match other {
            Op::Eq(b) => a == b,
            _ => false,
        },
        Op::All(a) => match other {
            Op::All(b) => a == b,
            _ => false,
        },
        Op::Some(a) => match other {
            Op::Some(b) => a == b,
            _ => false,
        },
        Op::Eps(a) => match other {
            Op::Eps(b) => a == b,
            _ => false,
        },
    }
}

/// Whether a term is T.
pub(crate) fn is_true(bank: &Bank, t: TermId) -> bool
    requires { t < length bank.now.terms }
    ensures { Decides result (tree_at bank.now t ≡ true_tree) }
{
    bank.is_sound();
    match constant_of(bank, t) {
        Some(constant) => matches!(constant.op, Op::True),
        None => false,
    }
}

/// Whether a term is F.
pub(crate) fn is_false(bank: &Bank, t: TermId) -> bool
    requires { t < length bank.now.terms }
    ensures { Decides result (tree_at bank.now t ≡ false_tree) }
{
    bank.is_sound();
    match constant_of(bank, t) {
        Some(constant) => matches!(constant.op, Op::False),
        None => false,
    }
}
