//! The conclusions of a member.

ghost use Rattle.std.specs.Prelude.{◌≡◌, ◌∷◌, [], length, map, IfOk};
ghost use Rattle.leo_terms.specs.Contents.{Extends, type_at};
ghost use Rattle.leo_clause.specs.Trees.{clause_at};
ghost use Rattle.leo_clause.specs.Typed.{IsTypedIn};
ghost use Rattle.leo_unify.specs.Given.{pair_of, AreTypedPairs};
ghost use Rattle.leo_unify.specs.Solutions.{sigma_at, AreSigmasOf, IsSigmaOf};
ghost use Rattle.leo_conclude.specs.Conclusions.{conclusion, constraint_pairs, normal_clause, AreConclusions};
ghost use Rattle.leo_conclude.specs.Leaving.{AreConstraints, AreNumbersOf};
ghost use Rattle.leo_conclude.specs.Origins.{AreSolutionsFromClause, IsSolutionFrom};
ghost use Rattle.leo_conclude.specs.Results.{conclusion_clause, AreConclusionsOf, IsConclusionOf};

use crate::derived::Derived;
use crate::instances::{instance, normal_form};
use crate::relieving::relieve_all;
use leo_clause::{Clause, StepRecord};
use leo_items::Items;
use leo_terms::{Bank, TermId};
use leo_unify::laws::solutions_are_from_pairs;
use leo_unify::{Sigma, solve};
use std::alloc::{AllocError, Global};

/// A conclusion of a member that is due, in normal form, with the records that lead to it.
///
/// The records are numbered on from one line, which has the number 0 and the member's own clause.
#[derive(Drop)]
pub struct Conclusion {
    pub clause: Clause,
    pub records: Items<StepRecord>,
}

impl From<Derived> for Conclusion {
    fn from(derived: Derived) -> Conclusion
        ensures { result ≡ record { clause = derived.clause; records = derived.records } }
    {
        Conclusion {
            clause: derived.clause,
            records: derived.records,
        }
    }
}

/// The sides of the literals with these numbers.
fn pairs_of(
    alloc: Global,
    bank: &Bank,
    clause: &Clause,
    constraints: &[u32],
) -> Result<Items<(TermId, TermId)>, AllocError>
    requires clause { IsTypedIn bank.now clause.now }
    requires numbers { AreNumbersOf clause.now.lits constraints.now }
    ensures pairs { IfOk result (λ ps. map (pair_of bank.now) ps ≡ constraint_pairs (clause_at bank.now clause.now) constraints.now) }
    ensures typed { IfOk result (AreTypedPairs bank.now (clause_at bank.now clause.now).variables) }
{
    let _ = bank;
    let mut pairs = Items::new(alloc);
    for number in constraints {
        let lit = clause.lits.as_slice()[*number as usize];
        pairs.push((lit.left, lit.right))?;
    }
    Ok(pairs)
}

/// The conclusion for a solution.
fn concluded(
    alloc: Global,
    bank: &mut Bank,
    clause: &Clause,
    constraints: &[u32],
    sigma: &Sigma,
) -> Result<Conclusion, AllocError>
    requires clause { IsTypedIn bank.old clause.now }
    requires constraints { AreConstraints (clause_at bank.old clause.now).literals constraints.now }
    requires sigma { IsSigmaOf bank.old (clause_at bank.old clause.now).variables sigma.now }
    requires from { IsSolutionFrom (clause_at bank.old clause.now) (sigma_at bank.old sigma.now) }
    ensures conclusion { IfOk result (IsConclusionOf bank.new (clause_at bank.old clause.now)) }
    ensures clause { IfOk result (λ r. conclusion_clause bank.new r ≡ conclusion (clause_at bank.old clause.now) constraints.now (sigma_at bank.old sigma.now)) }
    ensures grows { Extends bank.old bank.new }
{
    let derived = instance(alloc, bank, clause, sigma)?;
    let relieved = relieve_all(alloc, bank, derived, constraints)?;
    Ok(Conclusion::from(relieved))
}

/// The conclusions for solutions.
fn concluded_all(
    alloc: Global,
    bank: &mut Bank,
    clause: &Clause,
    constraints: &[u32],
    sigmas: &[Sigma],
) -> Result<Items<Conclusion>, AllocError>
    requires clause { IsTypedIn bank.old clause.now }
    requires constraints { AreConstraints (clause_at bank.old clause.now).literals constraints.now }
    requires sigmas { AreSigmasOf bank.old (clause_at bank.old clause.now).variables sigmas.now }
    requires from { AreSolutionsFromClause (clause_at bank.old clause.now) (map (sigma_at bank.old) sigmas.now) }
    ensures each { IfOk result (AreConclusionsOf bank.new (clause_at bank.old clause.now)) }
    ensures clauses { IfOk result (λ rs. map (conclusion_clause bank.new) rs ≡ map (conclusion (clause_at bank.old clause.now) constraints.now) (map (sigma_at bank.old) sigmas.now)) }
    ensures grows { Extends bank.old bank.new }
{
    bank.is_sound();
    let mut found = Items::new(alloc);
    for sigma in sigmas {
        let next = concluded(alloc, bank, clause, constraints, sigma)?;
        found.push(next)?;
    }
    Ok(found)
}

/// The clause in normal form as the one conclusion.
fn unconstrained(
    alloc: Global,
    bank: &mut Bank,
    clause: &Clause,
) -> Result<Items<Conclusion>, AllocError>
    requires { IsTypedIn bank.old clause.now }
    ensures each { IfOk result (AreConclusionsOf bank.new (clause_at bank.old clause.now)) }
    ensures clauses { IfOk result (λ rs. map (conclusion_clause bank.new) rs ≡ normal_clause (clause_at bank.old clause.now) ∷ []) }
    ensures grows { Extends bank.old bank.new }
{
    let derived = normal_form(alloc, bank, clause)?;
    let mut found = Items::new(alloc);
    found.push(Conclusion::from(derived))?;
    Ok(found)
}

/// The conclusions of a member with this clause, of which the literals with these numbers are constraints: for each of the
/// first 16 solutions of the constraints, with at most `depth` guesses, the instance in normal form, where in the place of
/// each constraint stands what is left of it. Where there are no constraints, the clause in normal form is the one
/// conclusion. Terms that are too large or too deep find no memory.
pub fn conclusions(
    alloc: Global,
    bank: &mut Bank,
    clause: &Clause,
    constraints: &[u32],
    depth: u8,
) -> Result<Items<Conclusion>, AllocError>
    requires clause { IsTypedIn bank.old clause.now }
    requires numbers { AreNumbersOf clause.now.lits constraints.now }
    requires constraints { AreConstraints (clause_at bank.old clause.now).literals constraints.now }
    ensures conclusions { IfOk result (λ rs. AreConclusions (clause_at bank.old clause.now) depth constraints.now (map (conclusion_clause bank.new) rs)) }
    ensures each { IfOk result (AreConclusionsOf bank.new (clause_at bank.old clause.now)) }
    ensures grows { Extends bank.old bank.new }
{
    bank.is_sound();
    if constraints.is_empty() {
        let found = unconstrained(alloc, bank, clause)?;
        return Ok(found);
    }
    solutions_are_from_pairs();
    let pairs = pairs_of(alloc, bank, clause, constraints)?;
    let vars = clause.vars.as_slice();
    let sigmas = solve(alloc, bank, vars, pairs.as_slice(), depth)?;
    let found = concluded_all(alloc, bank, clause, constraints, sigmas.as_slice())?;
    Ok(found)
}
