//! Instances of a clause.

ghost use Rattle.std.specs.Prelude.{◌≡◌, ◌<◌, ◌++◌, length, map, nat_eq, slice_get, Some, if◌then◌else◌, IfOk};
ghost use Rattle.leo_q0.specs.Terms.{SimpleType};
ghost use Rattle.leo_terms.specs.Contents.{AreTerms, Extends, IsTerm, tree_at, type_at};
ghost use Rattle.leo_terms.specs.Tree.{IsGiven, type_of, variable};
ghost use Rattle.leo_clause.specs.Renaming.{AreGiven, AreRenamed, substituted_literal};
ghost use Rattle.leo_clause.specs.Trees.{clause_at, literal_at};
ghost use Rattle.leo_clause.specs.Typed.{AreLiteralsOf, AreTypesOf, IsTypedIn};
ghost use Rattle.leo_kernel.specs.Conditions.{AreTermsFor};
ghost use Rattle.leo_ext.specs.Binding.{given_for as given_for_of};
ghost use Rattle.leo_ext.specs.Bounds.{AreTrees, instance_line};
ghost use Rattle.leo_ext.specs.Listing.{IsStep};

use crate::choosing::variable_numbered;
use leo_clause::{Clause, Lit, Rule, StepRecord};
use leo_items::Items;
use leo_terms::{Bank, TermId, TyId};
use std::alloc::{AllocError, Global};

/// A term where the number is this, and else the variable with the number.
fn given_term(
    bank: &mut Bank,
    n: u64,
    term: TermId,
    number: u64,
    ty: TyId,
) -> Result<TermId, AllocError>
    requires ty { ty < length bank.old.types }
    requires within { term < length bank.old.terms }
    requires typed { number ≡ n → type_of (tree_at bank.old term) ≡ type_at bank.old ty }
    ensures made { IfOk result (λ t. IsTerm bank.new t ty (if nat_eq number n then tree_at bank.old term else variable number (type_at bank.old ty))) }
    ensures grows { Extends bank.old bank.new }
{
    bank.is_sound();
    if number == n {
        return Ok(term);
    }
    let variable = variable_numbered(bank, number, ty)?;
    Ok(variable)
}

/// All variables, with a term in the place of the variable `n`.
pub(crate) fn given_for(
    alloc: Global,
    bank: &mut Bank,
    vars: &[TyId],
    n: u64,
    term: TermId,
) -> Result<Vec<TermId>, AllocError>
    requires types { AreTypesOf bank.old vars.now }
    requires within { term < length bank.old.terms }
    requires typed { slice_get (map (type_at bank.old) vars.now) n ≡ Some (type_of (tree_at bank.old term)) }
    ensures given { IfOk result (λ sigma. AreTrees bank.new sigma.items (given_for_of n (tree_at bank.old term) 0 (map (type_at bank.old) vars.now))) }
    ensures grows { Extends bank.old bank.new }
{
    bank.is_sound();
    let mut sigma = Vec::new(alloc);
    for number in 0..vars.len() {
        let given = given_term(bank, n, term, number as u64, vars[number])?;
        sigma.push(given)?;
    }
    Ok(sigma)
}

/// A literal with terms put in for its variables.
fn instance_lit(bank: &mut Bank, lit: Lit, sigma: &[TermId]) -> Result<Lit, AllocError>
    requires left { lit.left < length bank.old.terms }
    requires right { lit.right < length bank.old.terms }
    requires terms { AreTerms bank.old sigma.now }
    requires left_given { IsGiven (map (tree_at bank.old) sigma.now) (tree_at bank.old lit.left) }
    requires right_given { IsGiven (map (tree_at bank.old) sigma.now) (tree_at bank.old lit.right) }
    ensures value { IfOk result (λ l. literal_at bank.new l ≡ substituted_literal (map (tree_at bank.old) sigma.now) (literal_at bank.old lit)) }
    ensures left_within { IfOk result (λ l. l.left < length bank.new.terms) }
    ensures right_within { IfOk result (λ l. l.right < length bank.new.terms) }
    ensures grows { Extends bank.old bank.new }
{
    let left = bank.subst(lit.left, sigma)?;
    let right = bank.subst(lit.right, sigma)?;
    Ok(Lit {
        pos: lit.pos,
        left,
        right,
    })
}

/// Literals with terms put in for their variables.
fn instance_lits(
    alloc: Global,
    bank: &mut Bank,
    lits: &[Lit],
    sigma: &[TermId],
) -> Result<Items<Lit>, AllocError>
    requires literals { AreLiteralsOf bank.old lits.now }
    requires terms { AreTerms bank.old sigma.now }
    requires given { AreGiven (map (tree_at bank.old) sigma.now) (map (literal_at bank.old) lits.now) }
    ensures made { IfOk result (λ ls. AreRenamed bank.old bank.new sigma.now lits.now ls (length lits.now)) }
    ensures grows { Extends bank.old bank.new }
{
    bank.is_sound();
    let mut made = Items::new(alloc);
    for lit in lits {
        let lit = instance_lit(bank, *lit, sigma)?;
        made.push(lit)?;
    }
    Ok(made)
}

/// The instance of a clause under a term for each variable, with variables more.
pub(crate) fn instance(
    alloc: Global,
    bank: &mut Bank,
    clause: &Clause,
    parent: u64,
    fresh: &[TyId],
    sigma: &[TermId],
) -> Result<StepRecord, AllocError>
    requires clause { IsTypedIn bank.old clause.now }
    requires fresh { AreTypesOf bank.old fresh.now }
    requires terms { AreTerms bank.old sigma.now }
    requires fits { AreTermsFor (map (type_at bank.old) clause.now.vars ++ map (type_at bank.old) fresh.now) (map (type_at bank.old) clause.now.vars) (map (tree_at bank.old) sigma.now) }
    ensures made { IfOk result (λ s. IsStep bank.new s (instance_line parent (clause_at bank.old clause.now) (map (type_at bank.old) fresh.now) (map (tree_at bank.old) sigma.now))) }
    ensures grows { Extends bank.old bank.new }
{
    bank.is_sound();
    let lits = instance_lits(alloc, bank, clause.lits.as_slice(), sigma)?;
    let mut vars = Items::from_slice(alloc, clause.vars.as_slice())?;
    vars.append(Items::from_slice(alloc, fresh)?)?;
    let sigma = Items::from_slice(alloc, sigma)?;
    Ok(StepRecord {
        clause: Clause { vars, lits },
        rule: Rule::Inst { parent, sigma },
    })
}
