//! Places in a term.

ghost use Rattle.std.specs.Prelude.{◌≡◌, ◌<◌, length};
ghost use Rattle.std.specs.Option.{option_map};
ghost use Rattle.leo_terms.specs.Contents.{IsArgumentBelow, tree_at};
ghost use Rattle.leo_kernel.specs.ByNumber.{app_child_of, logic_child_of};
ghost use Rattle.leo_kernel.specs.Places.{child as child_of, subterm as subterm_of};

use leo_terms::{Bank, TermId, View};

/// The child of an application with this number.
fn app_child(f: TermId, a: TermId, number: u8) -> Option<TermId>
    ensures { result ≡ app_child_of f a number }
{
    match number {
        0 => Some(f),
        1 => Some(a),
        _ => None,
    }
}

/// The argument of a logical constant with this number.
fn logic_child(x: Option<TermId>, y: Option<TermId>, number: u8) -> Option<TermId>
    ensures { result ≡ logic_child_of x y number }
{
    match number {
        0 => x,
        1 => y,
        _ => None,
    }
}

/// The child with this number, if it is there. A lambda has none.
pub(crate) fn child(bank: &Bank, t: TermId, number: u8) -> Option<TermId>
    requires { t < length bank.now.terms }
    ensures value { option_map (tree_at bank.now) result ≡ child_of number (tree_at bank.now t) }
    ensures within { IsArgumentBelow (length bank.now.terms) result }
{
    match bank.view(t) {
        View::Var(_) => None,
        View::Bound(_) => None,
        View::Sym(_) => None,
        View::App(f, a) => app_child(f, a, number),
        View::Lam(_, _) => None,
        View::Logic(_, x, y) => logic_child(x, y, number),
    }
}

/// What stands at a path, if something does.
pub(crate) fn subterm(bank: &Bank, t: TermId, path: &[u8]) -> Option<TermId>
    requires { t < length bank.now.terms }
    ensures value { option_map (tree_at bank.now) result ≡ subterm_of path.now (tree_at bank.now t) }
    ensures within { IsArgumentBelow (length bank.now.terms) result }
{
    let mut at = t;
    for number in path {
        match child(bank, at, *number) {
            Some(next) => at = next,
            None => return None,
        }
    }
    Some(at)
}
