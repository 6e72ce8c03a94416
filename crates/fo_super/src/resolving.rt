//! A clause resolved on a literal.

ghost use Rattle.std.specs.Prelude.{◌≡◌, ◌<◌, ◌++◌, ◌∷◌, [], ℕ, length, remove, map, List, IfOk, MatchOption, slice_get, Some};
ghost use Rattle.std.specs.Bool.{Decides};
ghost use Rattle.std.specs.List.{AllByRecursion};
ghost use Rattle.fo_terms.specs.Terms.{Terms};
ghost use Rattle.fo_terms.specs.Substitutions.{apply, image};
ghost use Rattle.fo_text.specs.declared.problem.FoClause.{FoClause};
ghost use Rattle.fo_text.specs.declared.problem.FoLit.{FoLit};
ghost use Rattle.fo_text.specs.Problems.{AreSorts, HaveSorts, IsLiteral};
ghost use Rattle.fo_replay.specs.Replays.{applied_literal, images as images_by, IsLight, IsLiteralAt};
ghost use Rattle.fo_replay.specs.Instances.{as_terms};
ghost use Rattle.fo_super.specs.Conclusions.{images_from, HasHeavyInstance, IsInstanced, IsResolved};
ghost use Rattle.fo_super.specs.Laws.{AreSorted};
ghost use Rattle.fo_super.specs.Numbering.{clause_variables, variables_of_all, renaming, IsNumbered};

use crate::applying::applied_literals;
use crate::images::images_of;
use crate::numbering::{names_of, renamed_terms};
use crate::typing::have_sorts;
use crate::weights::is_heavier;
use fo_terms::term::FoTerm;
use fo_terms::unify::unify;
use fo_text::problem::{FoClause, FoLit, FoSym};
use sqlite_items::Items;
use std::alloc::{AllocError, Global};
use std::slice;

/// A clause resolved on a literal: the terms of the instance, that instance, and the conclusion.
#[derive(Drop)]
pub struct FoResolved {
    pub terms: Items<FoTerm>,
    pub instance: FoClause,
    pub conclusion: FoClause,
}

/// The names of variables by first occurrence, and terms whose variables are numbered by them.
#[derive(Drop)]
struct Numbered {
    names: Vec<u32>,
    terms: Items<FoTerm>,
}

/// How many variables a clause has.
pub(crate) fn variables_of(clause: &FoClause) -> Result<u32, AllocError>
    ensures { IfOk result (λ n. n ≡ length clause.now.vars) }
{
    let count = clause.vars.len();
    if count > 0xffff_ffff {
        Err(AllocError)
    } else {
        Ok(count as u32)
    }
}

/// What terms make of the literals of a clause but one.
fn others(
    alloc: Global,
    terms: &[FoTerm],
    clause: &FoClause,
    place: usize,
) -> Result<Items<FoLit>, AllocError>
    requires { place < length clause.now.lits }
    ensures { IfOk result (λ ls. ls ≡ remove (map (applied_literal (images_by (as_terms terms.now))) clause.now.lits) place) }
{
    let mut literals = applied_literals(alloc, terms, clause.lits.as_slice())?;
    let _left_out = literals.remove(place);
    Ok(literals)
}

/// What pairs make of the variables of a clause, numbered by first occurrence in the clause without a
/// literal, and then in these terms.
fn numbered_images(
    alloc: Global,
    syms: &[FoSym],
    clause: &FoClause,
    place: usize,
    pairs: &[(u32, FoTerm)],
) -> Result<Numbered, AllocError>
    requires inside { place < length clause.now.lits }
    requires sorted { AllByRecursion (IsLiteral clause.now.vars syms.now) clause.now.lits }
    ensures terms { IfOk result (λ n. as_terms n.terms ≡ images_from (λ v. apply (renaming n.names.items) (image pairs.now v)) 0 (length clause.now.vars)) }
    ensures numbered { IfOk result (λ n. IsNumbered 0 (clause_variables (remove (map (applied_literal (images_by (as_terms n.terms))) clause.now.lits) place) ++ variables_of_all (as_terms n.terms)) (length n.names.items)) }
{
    let images = images_of(alloc, pairs, variables_of(clause)?)?;
    let literals = others(alloc, images.as_slice(), clause, place)?;
    let names = names_of(alloc, literals.as_slice(), images.as_slice())?;
    let terms = renamed_terms(alloc, &names, images.as_slice())?;
    Ok(Numbered { names, terms })
}

/// The sort of a variable's name.
fn sort_of(sorts: u32, vars: &[u32], name: u32) -> Result<u32, AllocError>
    ensures { IfOk result (λ s. s < sorts) }
{
    match vars.get(name as usize) {
        None => Err(AllocError),
        Some(sort) => {
            if *sort < sorts {
                Ok(*sort)
            } else {
                Err(AllocError)
            }
        }
    }
}

/// The sorts of names.
fn sorts_of(
    alloc: Global,
    sorts: u32,
    vars: &[u32],
    names: &[u32],
) -> Result<Items<u32>, AllocError>
    ensures exist { IfOk result (λ ss. AreSorts sorts ss) }
    ensures count { IfOk result (λ ss. length ss ≡ length names.now) }
{
    let mut list = Items::new(alloc);
    for name in names {
        let sort = sort_of(sorts, vars, *name)?;
        list.push(sort)?;
    }
    Ok(list)
}

/// Whether a clause is within the limits of a line.
pub(crate) fn is_light(clause: &FoClause) -> bool
    ensures { Decides result (IsLight clause.now) }
{
    if clause.lits.len() > 1000 {
        return false;
    }
    !is_heavier(clause.lits.as_slice(), 100_000)
}

/// A clause by its number, with one of its literals.
pub(crate) fn literal_at(
    clauses: &[FoClause],
    number: u32,
    place: u32,
) -> Option<(&FoClause, &FoLit)>
    ensures { MatchOption result ((c : FoClause) (l : FoLit) → IsLiteralAt clauses.now number place c l → ⊥) (λ x. IsLiteralAt clauses.now number place x.0.now x.1.now) }
{
    let clause = clauses.get(number as usize)?;
    let literal = clause.lits.get(place as usize)?;
    Some((clause, literal))
}

/// The instance of a clause by terms, over variables with their sorts.
fn instance_of(
    alloc: Global,
    clause: &FoClause,
    vars: Items<u32>,
    terms: &[FoTerm],
) -> Result<FoClause, AllocError>
    ensures { IfOk result (λ c. c ≡ record { vars = vars; lits = map (applied_literal (images_by (as_terms terms.now))) clause.now.lits }) }
{
    let lits = applied_literals(alloc, terms, clause.lits.as_slice())?;
    Ok(FoClause { vars, lits })
}

/// The same without one literal.
fn conclusion_of(
    alloc: Global,
    clause: &FoClause,
    vars: &[u32],
    terms: &[FoTerm],
    place: usize,
) -> Result<FoClause, AllocError>
    requires { place < length clause.now.lits }
    ensures { IfOk result (λ c. c ≡ record { vars = vars.now; lits = remove (map (applied_literal (images_by (as_terms terms.now))) clause.now.lits) place }) }
{
    let vars = Items::from_slice(alloc, vars)?;
    let lits = others(alloc, terms, clause, place)?;
    Ok(FoClause { vars, lits })
}

/// Variables with sorts for the names of terms that have these sorts.
fn typed_variables(
    alloc: Global,
    sorts: u32,
    syms: &[FoSym],
    clause: &FoClause,
    names: &[u32],
    terms: &[FoTerm],
) -> Result<Items<u32>, AllocError>
    ensures exist { IfOk result (λ vars. AreSorts sorts vars) }
    ensures count { IfOk result (λ vars. length vars ≡ length names.now) }
    ensures typed { IfOk result (λ vars. HaveSorts vars syms.now (as_terms terms.now) clause.now.vars) }
{
    let vars = sorts_of(alloc, sorts, clause.vars.as_slice(), names)?;
    if !have_sorts(alloc, vars.as_slice(), syms, terms, clause.vars.as_slice())? {
        return Err(AllocError);
    }
    Ok(vars)
}

/// The instance by numbered terms, and the conclusion, if the instance is within the limits of a line.
fn concluded(
    alloc: Global,
    sorts: u32,
    syms: &[FoSym],
    clause: &FoClause,
    place: usize,
    numbered: Numbered,
) -> Result<Option<FoResolved>, AllocError>
    requires { place < length clause.now.lits }
    ensures { IfOk result (λ o. MatchOption o (HasHeavyInstance clause.now (as_terms numbered.terms)) (λ r. (as_terms r.terms ≡ as_terms numbered.terms) × IsInstanced sorts syms.now clause.now place (length numbered.names.items) (as_terms numbered.terms) r.instance r.conclusion)) }
{
    let names = numbered.names;
    let terms = numbered.terms;
    let vars = typed_variables(alloc, sorts, syms, clause, &names, terms.as_slice())?;
    let conclusion = conclusion_of(alloc, clause, vars.as_slice(), terms.as_slice(), place)?;
    let instance = instance_of(alloc, clause, vars, terms.as_slice())?;
    if !is_light(&instance) {
        return Ok(None);
    }
    Ok(Some(FoResolved {
        terms,
        instance,
        conclusion,
    }))
}

/// A clause resolved on a literal: an instance by a most general unifier of the literal's sides, whose
/// variables are numbered by first occurrence in the conclusion, and then in the terms; and the
/// conclusion, which is the instance without that literal. None where there is no such literal, where
/// its sides have no unifier, or where the instance has more than 1,000 literals or weighs more than
/// 100,000.
///
/// # Errors
///
/// Want of memory, also where a clause would have more variables than a `u32` counts, and where a term
/// of the instance would not have the sort of its variable, or an unknown one. That a most general
/// unifier of two terms of one sort is never such is not proved.
pub fn resolved(
    alloc: Global,
    sorts: u32,
    syms: &[FoSym],
    clauses: &[FoClause],
    number: u32,
    place: u32,
) -> Result<Option<FoResolved>, AllocError>
    requires { AreSorted syms.now clauses.now number }
    ensures { IfOk result (λ o. MatchOption o ((vars : List ℕ) (terms : Terms) (i d : FoClause) → IsResolved sorts syms.now clauses.now number place vars terms i d → ⊥) (λ r. IsResolved sorts syms.now clauses.now number place r.instance.vars (as_terms r.terms) r.instance r.conclusion)) }
{
    let Some((clause, literal)) = literal_at(clauses, number, place) else {
        return Ok(None);
    };
    let Some(unifier) = unify(alloc, &literal.left, &literal.right)? else {
        return Ok(None);
    };
    let pairs = unifier.pairs.as_slice();
    let numbered = numbered_images(alloc, syms, clause, place as usize, pairs)?;
    let found = concluded(alloc, sorts, syms, clause, place as usize, numbered)?;
    Ok(found)
}

/// The same of a clause that stands alone.
pub(crate) fn resolved_alone(
    alloc: Global,
    sorts: u32,
    syms: &[FoSym],
    clause: &FoClause,
    place: u32,
) -> Result<Option<FoResolved>, AllocError>
    requires { AreSorted syms.now (clause.now ∷ []) 0 }
    ensures { IfOk result (λ o. MatchOption o ((vars : List ℕ) (terms : Terms) (i d : FoClause) → IsResolved sorts syms.now (clause.now ∷ []) 0 place vars terms i d → ⊥) (λ r. IsResolved sorts syms.now (clause.now ∷ []) 0 place r.instance.vars (as_terms r.terms) r.instance r.conclusion)) }
{
    let found = resolved(alloc, sorts, syms, slice::from_ref(clause), 0, place)?;
    Ok(found)
}
