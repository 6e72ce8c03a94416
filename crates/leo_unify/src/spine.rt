//! Tops and heads of terms.

ghost use Rattle.std.specs.Prelude.{◌≡◌, ◌<◌, length, IfSome, IfNone};
ghost use Rattle.std.specs.Option.{option_map};
ghost use Rattle.leo_terms.specs.Contents.{tree_at};
ghost use Rattle.leo_unify.specs.Acts.{body_of as body_of_tree};
ghost use Rattle.leo_unify.specs.Spines.{applied_head as head_of_application, below_lambdas as below_all, head as head_of_tree, is_flex as is_flex_tree, is_variable as is_variable_tree};

use leo_terms::{Bank, TermId, View};

/// The body of a lambda.
pub(crate) fn body_of(bank: &Bank, t: TermId) -> Option<TermId>
    requires { t < length bank.now.terms }
    ensures value { option_map (tree_at bank.now) result ≡ body_of_tree (tree_at bank.now t) }
    ensures below { IfSome result (λ s. s < t) }
{
    match bank.view(t) {
        View::Var(_) => None,
        View::Bound(_) => None,
        View::Sym(_) => None,
        View::App(_, _) => None,
        View::Lam(_, body) => Some(body),
        View::Logic(_, _, _) => None,
    }
}

/// The function of an application.
fn function_of(bank: &Bank, t: TermId) -> Option<TermId>
    requires { t < length bank.now.terms }
    ensures value { IfSome result (λ f. head_of_application (tree_at bank.now t) ≡ head_of_application (tree_at bank.now f)) }
    ensures below { IfSome result (λ f. f < t) }
    ensures none { IfNone result (head_of_application (tree_at bank.now t) ≡ tree_at bank.now t) }
{
    match bank.view(t) {
        View::Var(_) => None,
        View::Bound(_) => None,
        View::Sym(_) => None,
        View::App(f, _) => Some(f),
        View::Lam(_, _) => None,
        View::Logic(_, _, _) => None,
    }
}

/// What is applied to arguments, one after the other.
pub(crate) fn applied_head(bank: &Bank, t: TermId) -> TermId
    requires { t < length bank.now.terms }
    ensures value { tree_at bank.now result ≡ head_of_application (tree_at bank.now t) }
    ensures within { result < length bank.now.terms }
{
    let mut part = t;
    while let Some(f) = function_of(bank, part) {
        part = f;
    }
    part
}

/// The term below its leading lambdas.
fn below_lambdas(bank: &Bank, t: TermId) -> TermId
    requires { t < length bank.now.terms }
    ensures value { tree_at bank.now result ≡ below_all (tree_at bank.now t) }
    ensures within { result < length bank.now.terms }
{
    let mut part = t;
    while let Some(body) = body_of(bank, part) {
        part = body;
    }
    part
}

/// The head of a term.
pub(crate) fn head(bank: &Bank, t: TermId) -> TermId
    requires { t < length bank.now.terms }
    ensures value { tree_at bank.now result ≡ head_of_tree (tree_at bank.now t) }
    ensures within { result < length bank.now.terms }
{
    let below = below_lambdas(bank, t);
    applied_head(bank, below)
}

pub(crate) fn is_variable(bank: &Bank, t: TermId) -> bool
    requires { t < length bank.now.terms }
    ensures { result ≡ is_variable_tree (tree_at bank.now t) }
{
    match bank.view(t) {
        View::Var(_) => true,
        View::Bound(_) => false,
        View::Sym(_) => false,
        View::App(_, _) => false,
        View::Lam(_, _) => false,
        View::Logic(_, _, _) => false,
    }
}

/// Whether a variable stands at the head of a term.
pub(crate) fn is_flex(bank: &Bank, t: TermId) -> bool
    requires { t < length bank.now.terms }
    ensures { result ≡ is_flex_tree (tree_at bank.now t) }
{
    let top = head(bank, t);
    is_variable(bank, top)
}
