//! The heads of terms, and whether they meet.

ghost use Rattle.std.specs.Prelude.{◌≡◌, ◌<◌, length, MatchOption};
ghost use Rattle.leo_terms.specs.Contents.{HasTypeBelow, connective, tree_at};
ghost use Rattle.leo_clause.specs.Sameness.{same_connective};
ghost use Rattle.leo_para.specs.Spines.{applied_head, below_lambdas, head, heads_meet, tops_meet, top};
ghost use Rattle.leo_ext.specs.Heads.{IsHeadOf, top_at};

use leo_terms::{Bank, Op, SymId, TermId, View};

/// What stands at the head of a term.
#[derive(Clone, Copy)]
pub(crate) enum Head {
    Variable,
    Symbol(SymId),
    Constant(Op),
    Other,
}

/// The term below its leading lambdas.
fn body_of(bank: &Bank, t: TermId) -> TermId
    requires { t < length bank.now.terms }
    ensures reads { tree_at bank.now result ≡ below_lambdas (tree_at bank.now t) }
    ensures within { result < length bank.now.terms }
{
    let mut below = t;
    while let View::Lam(_, body) = bank.view(below) {
        below = body;
    }
    below
}

/// What is applied to arguments, one after the other.
fn function_of(bank: &Bank, t: TermId) -> TermId
    requires { t < length bank.now.terms }
    ensures reads { tree_at bank.now result ≡ applied_head (tree_at bank.now t) }
    ensures within { result < length bank.now.terms }
{
    let mut function = t;
    while let View::App(f, _) = bank.view(function) {
        function = f;
    }
    function
}

/// What stands at the top of a term.
fn top_of(bank: &Bank, t: TermId) -> Head
    requires { t < length bank.now.terms }
    ensures reads { top_at bank.now result ≡ top (tree_at bank.now t) }
    ensures of_bank { IsHeadOf bank.now result }
{
    match bank.view(t) {
        View::Var(_) => Head::Variable,
        View::Sym(s) => Head::Symbol(s),
        View::Logic(op, _, _) => Head::Constant(op),
        View::Bound(_) => Head::Other,
        View::App(_, _) => Head::Other,
        View::Lam(_, _) => Head::Other,
    }
}

/// The head of a term.
pub(crate) fn head_term(bank: &Bank, t: TermId) -> TermId
    requires { t < length bank.now.terms }
    ensures reads { tree_at bank.now result ≡ head (tree_at bank.now t) }
    ensures within { result < length bank.now.terms }
{
    let body = body_of(bank, t);
    function_of(bank, body)
}

/// What stands at the head of a term.
pub(crate) fn head_of(bank: &Bank, t: TermId) -> Head
    requires { t < length bank.now.terms }
    ensures reads { top_at bank.now result ≡ top (head (tree_at bank.now t)) }
    ensures of_bank { IsHeadOf bank.now result }
{
    let function = head_term(bank, t);
    top_of(bank, function)
}

/// Whether two logical constants are one.
fn is_one_constant(bank: &Bank, op: Op, other: Op) -> bool
    requires first { HasTypeBelow (length bank.now.types) op }
    requires second { HasTypeBelow (length bank.now.types) other }
    ensures { result ≡ same_connective (connective bank.now op) (connective bank.now other) }
{
    bank.is_sound();
    match op {
        Op::True => matches!(other, Op::True),
        Op::False => matches!(other, Op::False),
        Op::Not => matches!(other, Op::Not),
        Op::Or => matches!(other, Op::Or),
        Op::And => matches!(other, Op::And),
        Op::Imp => matches!(other, Op::Imp),
        Op::Eq(a) => match other {
            Op::Eq(b) => a == b,
            _ => false,
        },
        Op::All(a) => match other {
            Op::All(b) => a == b,
            _ => false,
        },
        Op::Some(a) => match other {
            Op::Some(b) => a == b,
            _ => false,
        },
        Op::Eps(a) => match other {
            Op::Eps(b) => a == b,
            _ => false,
        },
    }
}

/// Whether heads meet, of which the second is that of a whole side or not.
pub(crate) fn meet(bank: &Bank, whole: bool, first: &Head, second: &Head) -> bool
    requires first { IsHeadOf bank.now first.now }
    requires second { IsHeadOf bank.now second.now }
    ensures { result ≡ tops_meet whole (top_at bank.now first.now) (top_at bank.now second.now) }
{
    match first {
        Head::Variable => match second {
            Head::Variable => false,
            Head::Symbol(_) => whole,
            Head::Constant(_) => whole,
            Head::Other => whole,
        },
        Head::Symbol(m) => match second {
            Head::Variable => whole,
            Head::Symbol(n) => *m == *n,
            Head::Constant(_) => false,
            Head::Other => false,
        },
        Head::Constant(op) => match second {
            Head::Variable => whole,
            Head::Symbol(_) => false,
            Head::Constant(other) => is_one_constant(bank, *op, *other),
            Head::Other => false,
        },
        Head::Other => match second {
            Head::Variable => whole,
            Head::Symbol(_) => false,
            Head::Constant(_) => false,
            Head::Other => false,
        },
    }
}
