//! A clause with the records that lead to it.

ghost use Rattle.std.specs.Prelude.{◌≡◌, ◌+◌, ◌<◌, ◌∷◌, ◌++◌, [], List, length, map, slice_get, Some, IfOk};
ghost use Rattle.leo_terms.specs.Contents.{tree_at};
ghost use Rattle.leo_terms.specs.Tree.{Tree};
ghost use Rattle.leo_clause.specs.Trees.{Literal, clause_at, literal_at};
ghost use Rattle.leo_clause.specs.Typed.{AreLiteralsOf, AreTyped, IsTypedIn};
ghost use Rattle.leo_kernel.specs.Conclusions.{Decomposes, NeverHolds};
ghost use Rattle.leo_kernel.specs.Conditions.{HaveOneHeadType};
ghost use Rattle.leo_conclude.specs.Deriving.{IsChanged};
ghost use Rattle.std.specs.Prelude.{take, drop};

use leo_clause::{Clause, Lit, Rule, StepRecord};
use leo_items::Items;
use leo_terms::Bank;
use std::alloc::{AllocError, Global};

/// A clause with the records that lead to it, each from the one before it, and the first from the line with number 0.
#[derive(Drop)]
pub(crate) struct Derived {
    pub clause: Clause,
    pub records: Items<StepRecord>,
}

/// A number as records have it.
pub(crate) fn numbered(at: usize) -> Result<u32, AllocError>
    ensures { IfOk result (λ n. n ≡ at) }
{
    let Ok(number) = u32::try_from(at) else {
        return Err(AllocError);
    };
    Ok(number)
}

/// The clause with new literals in the place of one.
fn replaced(alloc: Global, clause: &Clause, at: usize, new: &[Lit]) -> Result<Clause, AllocError>
    requires { at < length clause.now.lits }
    ensures vars { IfOk result (λ c. c.vars ≡ clause.now.vars) }
    ensures lits { IfOk result (λ c. c.lits ≡ take at clause.now.lits ++ (new.now ++ drop (at + 1) clause.now.lits)) }
{
    let vars = Items::from_slice(alloc, clause.vars.as_slice())?;
    let (front, _) = clause.lits.as_slice().split_at(at);
    let (_, rest) = clause.lits.as_slice().split_at(at + 1);
    let mut lits = Items::from_slice(alloc, front)?;
    lits.append(Items::from_slice(alloc, new)?)?;
    lits.append(Items::from_slice(alloc, rest)?)?;
    Ok(Clause { vars, lits })
}

/// The clause itself, with no records.
pub(crate) fn unchanged(alloc: Global, clause: &Clause) -> Result<Derived, AllocError>
    ensures { IfOk result (λ d. d ≡ record { clause = clause.now; records = [] }) }
{
    let clause = clause.copy(alloc)?;
    Ok(Derived {
        clause,
        records: Items::new(alloc),
    })
}

impl Derived {
    /// The number of the line with its clause.
    pub(crate) fn line(&self) -> u64
        ensures { result ≡ length self.now.records }
    {
        self.records.len() as u64
    }

    /// With one record more.
    pub(crate) fn after(
        self,
        alloc: Global,
        clause: Clause,
        rule: Rule,
    ) -> Result<Derived, AllocError>
        ensures clause { IfOk result (λ r. r.clause ≡ clause) }
        ensures records { IfOk result (λ r. r.records ≡ self.records ++ record { clause = clause; rule = rule } ∷ []) }
    {
        let mut records = self.records;
        let copy = clause.copy(alloc)?;
        records.push(StepRecord { clause: copy, rule })?;
        Ok(Derived { clause, records })
    }

    /// Without a literal that never holds.
    pub(crate) fn omitted(
        self,
        alloc: Global,
        bank: &Bank,
        at: usize,
    ) -> Result<Derived, AllocError>
        requires typed { IsTypedIn bank.now self.clause }
        requires within { at < length self.clause.lits }
        ensures { IfOk result (λ r. (front back : List Literal) (l : Literal) → (clause_at bank.now self.clause).literals ≡ front ++ (l ∷ back) → length front ≡ at → NeverHolds l → IsChanged bank.now self r front [] back) }
    {
        bank.is_sound();
        let lit = numbered(at)?;
        let parent = self.line();
        let clause = replaced(alloc, &self.clause, at, &[])?;
        let derived = self.after(alloc, clause, Rule::Drop { parent, lit })?;
        Ok(derived)
    }

    /// With the parts of an inequation in its place.
    pub(crate) fn decomposed(
        self,
        alloc: Global,
        bank: &Bank,
        at: usize,
        new: &[Lit],
    ) -> Result<Derived, AllocError>
        requires typed { IsTypedIn bank.now self.clause }
        requires within { at < length self.clause.lits }
        requires new { AreLiteralsOf bank.now new.now }
        ensures { IfOk result (λ r. (front back : List Literal) (l : Literal) → (clause_at bank.now self.clause).literals ≡ front ++ (l ∷ back) → length front ≡ at → Decomposes l (map (literal_at bank.now) new.now) → HaveOneHeadType l.left l.right → AreTyped (clause_at bank.now self.clause).variables (map (literal_at bank.now) new.now) → IsChanged bank.now self r front (map (literal_at bank.now) new.now) back) }
    {
        bank.is_sound();
        let lit = numbered(at)?;
        let parent = self.line();
        let clause = replaced(alloc, &self.clause, at, new)?;
        let derived = self.after(alloc, clause, Rule::Decompose { parent, lit })?;
        Ok(derived)
    }
}
