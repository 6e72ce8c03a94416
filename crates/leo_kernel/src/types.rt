//! The types that rules ask for.

ghost use Rattle.std.specs.Prelude.{◌≡◌, ◌<◌, length, map};
ghost use Rattle.std.specs.Bool.{Decides};
ghost use Rattle.leo_terms.specs.Contents.{tree_at, type_at};
ghost use Rattle.leo_terms.specs.Tree.{truth_type, type_of};
ghost use Rattle.leo_clause.specs.Trees.{literal_at};
ghost use Rattle.leo_clause.specs.Typed.{AreTypesOf};
ghost use Rattle.leo_kernel.specs.Conditions.{AreChoiceVariables};
ghost use Rattle.leo_kernel.specs.Shapes.{literal_type, IsArrowType};

use leo_clause::Lit;
use leo_terms::{Bank, TermId, TyId, TyView};

/// Whether two terms have one type.
pub(crate) fn same_type(bank: &Bank, s: TermId, t: TermId) -> bool
    requires first { s < length bank.now.terms }
    requires second { t < length bank.now.terms }
    ensures { Decides result (type_of (tree_at bank.now s) ≡ type_of (tree_at bank.now t)) }
{
    let first = bank.type_of(s);
    let second = bank.type_of(t);
    first == second
}

/// Whether a term is a truth value.
pub(crate) fn is_truth_value(bank: &Bank, t: TermId) -> bool
    requires { t < length bank.now.terms }
    ensures { Decides result (type_of (tree_at bank.now t) ≡ truth_type) }
{
    let found = bank.type_of(t);
    let truth = TyId::truth();
    found == truth
}

/// Whether a term is a function.
fn is_function(bank: &Bank, t: TermId) -> bool
    requires { t < length bank.now.terms }
    ensures { Decides result (IsArrowType (type_of (tree_at bank.now t))) }
{
    let found = bank.type_of(t);
    match bank.view_ty(found) {
        TyView::Arrow(_, _) => true,
        TyView::Base(_) => false,
    }
}

/// Whether both sides of a literal are functions of one type.
pub(crate) fn are_functions(bank: &Bank, lit: Lit) -> bool
    requires left { lit.left < length bank.now.terms }
    requires right { lit.right < length bank.now.terms }
    ensures { Decides result (IsArrowType (literal_type (literal_at bank.now lit)) × (type_of (tree_at bank.now lit.left) ≡ type_of (tree_at bank.now lit.right))) }
{
    if !is_function(bank, lit.left) {
        return false;
    }
    same_type(bank, lit.left, lit.right)
}

/// Whether there are two variables, a property of things and a thing.
pub(crate) fn are_choice_variables(bank: &Bank, vars: &[TyId]) -> bool
    requires { AreTypesOf bank.now vars.now }
    ensures { Decides result (AreChoiceVariables (map (type_at bank.now) vars.now)) }
{
    bank.is_sound();
    if vars.len() != 2 {
        return false;
    }
    let property = vars[0];
    let thing = vars[1];
    match bank.view_ty(property) {
        TyView::Arrow(from, to) => {
            if from != thing {
                return false;
            }
            to == TyId::truth()
        }
        TyView::Base(_) => false,
    }
}
