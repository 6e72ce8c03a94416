//! Rules that take the sides of an inequation apart, and rules that keep literals.

ghost use Rattle.std.specs.Prelude.{[], ◌≡◌, ◌<◌, List, length, map, true};
ghost use Rattle.std.specs.Bool.{Decides};
ghost use Rattle.std.specs.List.{list_any};
ghost use Rattle.leo_terms.specs.Contents.{tree_at};
ghost use Rattle.leo_clause.specs.Trees.{literal_at, clause_at};
ghost use Rattle.leo_clause.specs.Typed.{AreLiteralsOf, IsClauseOf};
ghost use Rattle.leo_clause.specs.Sameness.{same_numbers};
ghost use Rattle.leo_kernel.specs.Conclusions.{AreAmong};

use crate::compare::same_types;
use leo_clause::{Clause, Lit};
use leo_terms::Bank;

/// Whether a literal is another one, as it is or turned.
fn is_same(lit: Lit, other: Lit) -> bool
    ensures { result ≡ same_numbers lit other }
{
    let as_it_is = lit.left == other.left && lit.right == other.right;
    let turned = lit.left == other.right && lit.right == other.left;
    lit.pos == other.pos && (as_it_is || turned)
}

/// Whether a literal stands among others, as it is or turned.
fn stands_among(lit: Lit, others: &[Lit]) -> bool
    ensures { result ≡ list_any (same_numbers lit) others.now }
{
    others.iter().any(|other| is_same(lit, *other))
}

/// Whether each literal stands among others, as it is or turned.
fn stand_among(bank: &Bank, lits: &[Lit], others: &[Lit]) -> bool
    requires lits { AreLiteralsOf bank.now lits.now }
    requires others { AreLiteralsOf bank.now others.now }
    ensures { Decides result (AreAmong (map (literal_at bank.now) lits.now) (map (literal_at bank.now) others.now)) }
{
    bank.is_sound();
    for lit in lits {
        if !stands_among(*lit, others) {
            return false;
        }
    }
    true
}

/// `C ⊢ D` where each literal of C stands in D, as it is or turned.
pub(crate) fn arranges(bank: &Bank, parent: &Clause, step: &Clause) -> bool
    requires parent { IsClauseOf bank.now parent.now }
    requires step { IsClauseOf bank.now step.now }
    ensures { Decides result (((clause_at bank.now step.now).variables ≡ (clause_at bank.now parent.now).variables) × AreAmong (clause_at bank.now parent.now).literals (clause_at bank.now step.now).literals) }
{
    bank.is_sound();
    if !same_types(step.vars.as_slice(), parent.vars.as_slice()) {
        return false;
    }
    stand_among(bank, parent.lits.as_slice(), step.lits.as_slice())
}
