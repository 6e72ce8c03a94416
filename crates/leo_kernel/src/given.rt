//! Whether terms may be put in for the variables of a clause.

ghost use Rattle.std.specs.Prelude.{◌≡◌, ◌<◌, length, map, true, IfOk, OnOk};
ghost use Rattle.std.specs.Bool.{Decides};
ghost use Rattle.leo_terms.specs.Contents.{AreTerms, tree_at, type_at};
ghost use Rattle.leo_terms.specs.Tree.{type_of};
ghost use Rattle.leo_clause.specs.Trees.{literal_at};
ghost use Rattle.leo_clause.specs.Typed.{AreTypesOf, AreLiteralsOf, IsOver};
ghost use Rattle.leo_clause.specs.Renaming.{AreGiven};
ghost use Rattle.leo_kernel.specs.Conditions.{AreTermsFor};
ghost use Rattle.leo_kernel.specs.Leaves.{leaves_pass, AreDeclared};
ghost use Rattle.leo_kernel.specs.Visits.{HavePassed};

use crate::leaves::{LeafTest, Visit, walk};
use indexmap::IndexSet;
use leo_clause::Lit;
use leo_terms::{Bank, DEPTH, TermId, TyId};
use std::alloc::{AllocError, Global};

/// Whether a term has this type and is one over these variables.
fn is_term_for(
    bank: &Bank,
    vars: &[TyId],
    ty: TyId,
    t: TermId,
    visited: &mut IndexSet<Visit>,
) -> Result<bool, AllocError>
    requires within { t < length bank.now.terms }
    requires ty { ty < length bank.now.types }
    requires vars { AreTypesOf bank.now vars.now }
    requires visited { HavePassed bank.now (LeafTest.Over) vars.now visited.old.keys }
    ensures value { IfOk result (λ b. Decides b ((type_of (tree_at bank.now t) ≡ type_at bank.now ty) × IsOver (map (type_at bank.now) vars.now) 0 (tree_at bank.now t))) }
    ensures visited { OnOk result (HavePassed bank.now (LeafTest.Over) vars.now visited.new.keys) }
{
    let found = bank.type_of(t);
    if found != ty {
        return Ok(false);
    }
    let test = LeafTest::Over;
    let over = walk(bank, &test, vars, t, 0, visited, DEPTH)?;
    Ok(over)
}

/// Whether each variable is given a term of its type over the new variables.
fn are_terms_for(
    alloc: Global,
    bank: &Bank,
    new: &[TyId],
    old: &[TyId],
    sigma: &[TermId],
) -> Result<bool, AllocError>
    requires new { AreTypesOf bank.now new.now }
    requires old { AreTypesOf bank.now old.now }
    requires sigma { AreTerms bank.now sigma.now }
    ensures { IfOk result (λ b. Decides b (AreTermsFor (map (type_at bank.now) new.now) (map (type_at bank.now) old.now) (map (tree_at bank.now) sigma.now))) }
{
    if old.len() != sigma.len() {
        return Ok(false);
    }
    let mut visited = IndexSet::new(alloc);
    for place in 0..old.len() {
        let fits = is_term_for(bank, new, old[place], sigma[place], &mut visited)?;
        if !fits {
            return Ok(false);
        }
    }
    Ok(true)
}

/// Whether each variable of a literal is one of these.
fn is_declared_lit(
    bank: &Bank,
    vars: &[TyId],
    lit: Lit,
    visited: &mut IndexSet<Visit>,
) -> Result<bool, AllocError>
    requires left { lit.left < length bank.now.terms }
    requires right { lit.right < length bank.now.terms }
    requires vars { AreTypesOf bank.now vars.now }
    requires visited { HavePassed bank.now (LeafTest.Declared) vars.now visited.old.keys }
    ensures value { IfOk result (λ b. Decides b ((leaves_pass LeafTest.Declared (map (type_at bank.now) vars.now) 0 (tree_at bank.now lit.left) ≡ true) × (leaves_pass LeafTest.Declared (map (type_at bank.now) vars.now) 0 (tree_at bank.now lit.right) ≡ true))) }
    ensures visited { OnOk result (HavePassed bank.now (LeafTest.Declared) vars.now visited.new.keys) }
{
    let test = LeafTest::Declared;
    let left = walk(bank, &test, vars, lit.left, 0, visited, DEPTH)?;
    if !left {
        return Ok(false);
    }
    let right = walk(bank, &test, vars, lit.right, 0, visited, DEPTH)?;
    Ok(right)
}

/// Whether each variable of these literals is one of these.
pub(crate) fn are_declared(
    alloc: Global,
    bank: &Bank,
    vars: &[TyId],
    lits: &[Lit],
) -> Result<bool, AllocError>
    requires vars { AreTypesOf bank.now vars.now }
    requires lits { AreLiteralsOf bank.now lits.now }
    ensures { IfOk result (λ b. Decides b (AreDeclared (map (type_at bank.now) vars.now) (map (literal_at bank.now) lits.now))) }
{
    let mut visited = IndexSet::new(alloc);
    for lit in lits {
        let declared = is_declared_lit(bank, vars, *lit, &mut visited)?;
        if !declared {
            return Ok(false);
        }
    }
    Ok(true)
}

/// Whether terms over the new variables may be put in for those of a clause: one of its type for each of the clause's
/// variables, and for each variable that stands in its literals.
pub(crate) fn may_be_given(
    alloc: Global,
    bank: &Bank,
    new: &[TyId],
    old: &[TyId],
    sigma: &[TermId],
    lits: &[Lit],
) -> Result<bool, AllocError>
    requires new { AreTypesOf bank.now new.now }
    requires old { AreTypesOf bank.now old.now }
    requires sigma { AreTerms bank.now sigma.now }
    requires lits { AreLiteralsOf bank.now lits.now }
    ensures { IfOk result (λ b. Decides b (AreTermsFor (map (type_at bank.now) new.now) (map (type_at bank.now) old.now) (map (tree_at bank.now) sigma.now) × AreGiven (map (tree_at bank.now) sigma.now) (map (literal_at bank.now) lits.now))) }
{
    let fit = are_terms_for(alloc, bank, new, old, sigma)?;
    if !fit {
        return Ok(false);
    }
    let declared = are_declared(alloc, bank, old, lits)?;
    Ok(declared)
}
