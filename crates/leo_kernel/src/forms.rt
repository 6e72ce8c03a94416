//! Rules that look at whole terms: normal forms and substitution.

ghost use Rattle.std.specs.Prelude.{◌≡◌, ◌<◌, length, map, IfOk};
ghost use Rattle.std.specs.Bool.{Decides};
ghost use Rattle.leo_terms.specs.Contents.{AreTerms, Extends, tree_at};
ghost use Rattle.leo_terms.specs.NormalForm.{normal_form};
ghost use Rattle.leo_terms.specs.Tree.{IsGiven};
ghost use Rattle.leo_clause.specs.Trees.{literal_at, clause_at};
ghost use Rattle.leo_clause.specs.Typed.{AreLiteralsOf, IsClauseOf};
ghost use Rattle.leo_clause.specs.Renaming.{AreGiven, substituted_literal};
ghost use Rattle.leo_kernel.specs.Conclusions.{AreConverted, IsConverted};

use crate::compare::same_types;
use leo_clause::{Clause, Lit};
use leo_terms::{Bank, TermId};
use std::alloc::AllocError;

/// Whether two terms have one normal form.
pub(crate) fn same_form(bank: &mut Bank, s: TermId, t: TermId) -> Result<bool, AllocError>
    requires first { s < length bank.old.terms }
    requires second { t < length bank.old.terms }
    ensures value { IfOk result (λ b. Decides b (normal_form (tree_at bank.old s) ≡ normal_form (tree_at bank.old t))) }
    ensures grows { Extends bank.old bank.new }
{
    let first = bank.normal(s)?;
    let second = bank.normal(t)?;
    Ok(first == second)
}

/// Whether a literal is another one whose sides have the same normal forms.
fn is_converted(bank: &mut Bank, old: Lit, new: Lit) -> Result<bool, AllocError>
    requires old_left { old.left < length bank.old.terms }
    requires old_right { old.right < length bank.old.terms }
    requires new_left { new.left < length bank.old.terms }
    requires new_right { new.right < length bank.old.terms }
    ensures value { IfOk result (λ b. Decides b (IsConverted (literal_at bank.old old) (literal_at bank.old new))) }
    ensures grows { Extends bank.old bank.new }
{
    bank.is_sound();
    if new.pos != old.pos {
        return Ok(false);
    }
    let left = same_form(bank, new.left, old.left)?;
    if !left {
        return Ok(false);
    }
    let right = same_form(bank, new.right, old.right)?;
    Ok(right)
}

/// The same of each literal.
fn are_converted(bank: &mut Bank, old: &[Lit], new: &[Lit]) -> Result<bool, AllocError>
    requires old { AreLiteralsOf bank.old old.now }
    requires new { AreLiteralsOf bank.old new.now }
    ensures value { IfOk result (λ b. Decides b (AreConverted (map (literal_at bank.old) old.now) (map (literal_at bank.old) new.now))) }
    ensures grows { Extends bank.old bank.new }
{
    bank.is_sound();
    if old.len() != new.len() {
        return Ok(false);
    }
    for place in 0..old.len() {
        let same = is_converted(bank, old[place], new[place])?;
        if !same {
            return Ok(false);
        }
    }
    Ok(true)
}

/// `s = t, .. ⊢ s' = t', ..` where s and s' have one normal form, and t and t'.
pub(crate) fn converts(bank: &mut Bank, parent: &Clause, step: &Clause) -> Result<bool, AllocError>
    requires parent { IsClauseOf bank.old parent.now }
    requires step { IsClauseOf bank.old step.now }
    ensures value { IfOk result (λ b. Decides b (((clause_at bank.old step.now).variables ≡ (clause_at bank.old parent.now).variables) × AreConverted (clause_at bank.old parent.now).literals (clause_at bank.old step.now).literals)) }
    ensures grows { Extends bank.old bank.new }
{
    bank.is_sound();
    if !same_types(step.vars.as_slice(), parent.vars.as_slice()) {
        return Ok(false);
    }
    let same = are_converted(bank, parent.lits.as_slice(), step.lits.as_slice())?;
    Ok(same)
}

/// Whether a literal is another one with terms put in for its variables.
fn is_instance(bank: &mut Bank, sigma: &[TermId], old: Lit, new: Lit) -> Result<bool, AllocError>
    requires terms { AreTerms bank.old sigma.now }
    requires old_left { old.left < length bank.old.terms }
    requires old_right { old.right < length bank.old.terms }
    requires new_left { new.left < length bank.old.terms }
    requires new_right { new.right < length bank.old.terms }
    requires left_given { IsGiven (map (tree_at bank.old) sigma.now) (tree_at bank.old old.left) }
    requires right_given { IsGiven (map (tree_at bank.old) sigma.now) (tree_at bank.old old.right) }
    ensures value { IfOk result (λ b. Decides b (literal_at bank.old new ≡ substituted_literal (map (tree_at bank.old) sigma.now) (literal_at bank.old old))) }
    ensures grows { Extends bank.old bank.new }
{
    bank.is_sound();
    if new.pos != old.pos {
        return Ok(false);
    }
    let left = bank.subst(old.left, sigma)?;
    if new.left != left {
        return Ok(false);
    }
    let right = bank.subst(old.right, sigma)?;
    Ok(new.right == right)
}

/// `C ⊢ C` with terms put in for its variables.
pub(crate) fn are_instances(
    bank: &mut Bank,
    sigma: &[TermId],
    old: &[Lit],
    new: &[Lit],
) -> Result<bool, AllocError>
    requires terms { AreTerms bank.old sigma.now }
    requires old { AreLiteralsOf bank.old old.now }
    requires new { AreLiteralsOf bank.old new.now }
    requires given { AreGiven (map (tree_at bank.old) sigma.now) (map (literal_at bank.old) old.now) }
    ensures value { IfOk result (λ b. Decides b (map (literal_at bank.old) new.now ≡ map (substituted_literal (map (tree_at bank.old) sigma.now)) (map (literal_at bank.old) old.now))) }
    ensures grows { Extends bank.old bank.new }
{
    bank.is_sound();
    if old.len() != new.len() {
        return Ok(false);
    }
    for place in 0..old.len() {
        let same = is_instance(bank, sigma, old[place], new[place])?;
        if !same {
            return Ok(false);
        }
    }
    Ok(true)
}
