//! Rules on functions, and definitions of symbols.

ghost use Rattle.std.specs.Prelude.{[], ◌∷◌, ◌≡◌, ◌<◌, length, IfOk};
ghost use Rattle.std.specs.Bool.{Decides};
ghost use Rattle.leo_q0.specs.Terms.{SimpleType};
ghost use Rattle.leo_terms.specs.Contents.{Extends, IsArrow, tree_at, type_number};
ghost use Rattle.leo_terms.specs.Tree.{Tree};
ghost use Rattle.leo_clause.specs.Trees.{literal_at, clause_at};
ghost use Rattle.leo_clause.specs.Typed.{IsClauseOf};
ghost use Rattle.leo_kernel.specs.ByNumber.{is_symbol_tree};
ghost use Rattle.leo_kernel.specs.Conclusions.{abbreviated, func_ext_positive};

use crate::compare::concludes;
use crate::fresh::next_variable;
use crate::plain::only_lit;
use leo_clause::{Clause, Lit};
use leo_terms::{Bank, SymId, TermId, TyId, View};
use std::alloc::AllocError;

/// Whether a term is this symbol.
pub(crate) fn is_symbol(bank: &Bank, t: TermId, symbol: SymId) -> bool
    requires { t < length bank.now.terms }
    ensures { result ≡ is_symbol_tree symbol (tree_at bank.now t) }
{
    match bank.view(t) {
        View::Var(_) => false,
        View::Bound(_) => false,
        View::Sym(s) => s == symbol,
        View::App(_, _) => false,
        View::Lam(_, _) => false,
        View::Logic(_, _, _) => false,
    }
}

/// `⊢ s = t` for a new symbol s and a closed term t.
pub(crate) fn abbreviates(bank: &Bank, symbol: SymId, step: &Clause) -> bool
    requires { IsClauseOf bank.now step.now }
    ensures { Decides result ((a : SimpleType) × ((t : Tree) × (clause_at bank.now step.now ≡ abbreviated symbol a t))) }
{
    bank.is_sound();
    if !step.vars.is_empty() {
        return false;
    }
    match only_lit(step.lits.as_slice()) {
        Some(lit) => {
            if !lit.pos {
                return false;
            }
            is_symbol(bank, lit.left, symbol)
        }
        None => false,
    }
}

/// `C, f = g ⊢ C, f X = g X` for a fresh variable X.
pub(crate) fn applies_fresh(
    bank: &mut Bank,
    parent: &Clause,
    place: usize,
    lit: Lit,
    ty: TyId,
    value: TyId,
    step: &Clause,
) -> Result<bool, AllocError>
    requires left { lit.left < length bank.old.terms }
    requires right { lit.right < length bank.old.terms }
    requires arrow { IsArrow bank.old (type_number bank.old lit.left) ty value }
    requires same_type { type_number bank.old lit.right ≡ type_number bank.old lit.left }
    requires parent { IsClauseOf bank.old parent.now }
    requires place { place < length parent.now.lits }
    requires step { IsClauseOf bank.old step.now }
    ensures value { IfOk result (λ b. Decides b (clause_at bank.old step.now ≡ func_ext_positive (clause_at bank.old parent.now) place (literal_at bank.old lit))) }
    ensures grows { Extends bank.old bank.new }
{
    bank.is_sound();
    let number = next_variable(parent.vars.as_slice())?;
    let argument = bank.make_var(number, ty)?;
    let left = bank.make_app(lit.left, argument)?;
    let right = bank.make_app(lit.right, argument)?;
    let new = Lit {
        pos: true,
        left,
        right,
    };
    Ok(concludes(parent, place, &[ty], &[new], step))
}
