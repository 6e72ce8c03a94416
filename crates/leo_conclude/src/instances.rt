//! Normal forms and instances of a clause.

ghost use Rattle.std.specs.Prelude.{◌≡◌, ◌<◌, length, map, IfOk};
ghost use Rattle.leo_terms.specs.Contents.{AreTerms, Extends, tree_at, type_at};
ghost use Rattle.leo_clause.specs.Renaming.{AreGiven, substituted_literal};
ghost use Rattle.leo_clause.specs.Trees.{clause_at, literal_at};
ghost use Rattle.leo_clause.specs.Typed.{AreLiteralsOf, IsTypedIn};
ghost use Rattle.leo_clausify.specs.Literals.{AreLiterals, IsLiteral};
ghost use Rattle.leo_clausify.specs.Splitting.{normal_literal};
ghost use Rattle.leo_unify.specs.Solutions.{sigma_at, IsSigmaOf};
ghost use Rattle.leo_conclude.specs.Conclusions.{instance as instance_of, normal_clause};
ghost use Rattle.leo_conclude.specs.Deriving.{IsDerivedAs};
ghost use Rattle.leo_conclude.specs.Origins.{IsSolutionFrom};
ghost use Rattle.leo_terms.specs.Tree.{IsGiven};
ghost use Rattle.leo_clause.specs.Renaming.{AreRenamed};

use crate::derived::{Derived, unchanged};
use leo_clause::{Clause, Lit, Rule};
use leo_items::Items;
use leo_terms::{Bank, TermId};
use leo_unify::Sigma;
use std::alloc::{AllocError, Global};

/// A literal with both sides in normal form.
fn normal_lit(bank: &mut Bank, lit: Lit) -> Result<Lit, AllocError>
    requires left { lit.left < length bank.old.terms }
    requires right { lit.right < length bank.old.terms }
    ensures made { IfOk result (λ l. IsLiteral bank.new l (normal_literal (literal_at bank.old lit))) }
    ensures grows { Extends bank.old bank.new }
{
    let left = bank.normal(lit.left)?;
    let right = bank.normal(lit.right)?;
    Ok(Lit {
        pos: lit.pos,
        left,
        right,
    })
}

/// Literals with all sides in normal form.
fn normal_lits(alloc: Global, bank: &mut Bank, lits: &[Lit]) -> Result<Items<Lit>, AllocError>
    requires { AreLiteralsOf bank.old lits.now }
    ensures made { IfOk result (λ ls. AreLiterals bank.new ls (map normal_literal (map (literal_at bank.old) lits.now))) }
    ensures grows { Extends bank.old bank.new }
{
    bank.is_sound();
    let mut normals = Items::new(alloc);
    for lit in lits {
        let lit = normal_lit(bank, *lit)?;
        normals.push(lit)?;
    }
    Ok(normals)
}

/// A literal with terms put in for its variables.
fn instance_lit(bank: &mut Bank, lit: Lit, sigma: &[TermId]) -> Result<Lit, AllocError>
    requires left { lit.left < length bank.old.terms }
    requires right { lit.right < length bank.old.terms }
    requires terms { AreTerms bank.old sigma.now }
    requires left_given { IsGiven (map (tree_at bank.old) sigma.now) (tree_at bank.old lit.left) }
    requires right_given { IsGiven (map (tree_at bank.old) sigma.now) (tree_at bank.old lit.right) }
    ensures value { IfOk result (λ l. literal_at bank.new l ≡ substituted_literal (map (tree_at bank.old) sigma.now) (literal_at bank.old lit)) }
    ensures left_within { IfOk result (λ l. l.left < length bank.new.terms) }
    ensures right_within { IfOk result (λ l. l.right < length bank.new.terms) }
    ensures grows { Extends bank.old bank.new }
{
    let left = bank.subst(lit.left, sigma)?;
    let right = bank.subst(lit.right, sigma)?;
    Ok(Lit {
        pos: lit.pos,
        left,
        right,
    })
}

/// Literals with terms put in for their variables.
fn instance_lits(
    alloc: Global,
    bank: &mut Bank,
    lits: &[Lit],
    sigma: &[TermId],
) -> Result<Items<Lit>, AllocError>
    requires literals { AreLiteralsOf bank.old lits.now }
    requires terms { AreTerms bank.old sigma.now }
    requires given { AreGiven (map (tree_at bank.old) sigma.now) (map (literal_at bank.old) lits.now) }
    ensures made { IfOk result (λ ls. AreRenamed bank.old bank.new sigma.now lits.now ls (length lits.now)) }
    ensures grows { Extends bank.old bank.new }
{
    bank.is_sound();
    let mut made = Items::new(alloc);
    for lit in lits {
        let lit = instance_lit(bank, *lit, sigma)?;
        made.push(lit)?;
    }
    Ok(made)
}

/// The clause in normal form.
pub(crate) fn normal_form(
    alloc: Global,
    bank: &mut Bank,
    clause: &Clause,
) -> Result<Derived, AllocError>
    requires { IsTypedIn bank.old clause.now }
    ensures derived { IfOk result (λ d. IsDerivedAs bank.new (clause_at bank.old clause.now) d (normal_clause (clause_at bank.old clause.now))) }
    ensures grows { Extends bank.old bank.new }
{
    bank.is_sound();
    let lits = normal_lits(alloc, bank, clause.lits.as_slice())?;
    let vars = Items::from_slice(alloc, clause.vars.as_slice())?;
    let derived = unchanged(alloc, clause)?;
    let derived = derived.after(alloc, Clause { vars, lits }, Rule::Convert { parent: 0 })?;
    Ok(derived)
}

/// The instance of a clause under a solution, in normal form.
pub(crate) fn instance(
    alloc: Global,
    bank: &mut Bank,
    clause: &Clause,
    sigma: &Sigma,
) -> Result<Derived, AllocError>
    requires clause { IsTypedIn bank.old clause.now }
    requires sigma { IsSigmaOf bank.old (clause_at bank.old clause.now).variables sigma.now }
    requires from { IsSolutionFrom (clause_at bank.old clause.now) (sigma_at bank.old sigma.now) }
    ensures derived { IfOk result (λ d. IsDerivedAs bank.new (clause_at bank.old clause.now) d (instance_of (clause_at bank.old clause.now) (sigma_at bank.old sigma.now))) }
    ensures grows { Extends bank.old bank.new }
{
    bank.is_sound();
    let terms = sigma.terms.as_slice();
    let lits = instance_lits(alloc, bank, clause.lits.as_slice(), terms)?;
    let normals = normal_lits(alloc, bank, lits.as_slice())?;
    let vars = Items::from_slice(alloc, sigma.vars.as_slice())?;
    let normal_vars = Items::from_slice(alloc, sigma.vars.as_slice())?;
    let rule = Rule::Inst {
        parent: 0,
        sigma: Items::from_slice(alloc, terms)?,
    };
    let derived = unchanged(alloc, clause)?;
    let derived = derived.after(alloc, Clause { vars, lits }, rule)?;
    let normal = Clause {
        vars: normal_vars,
        lits: normals,
    };
    let derived = derived.after(alloc, normal, Rule::Convert { parent: 1 })?;
    Ok(derived)
}
