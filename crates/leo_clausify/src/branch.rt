//! A clause on the way to its leaves.

ghost use Rattle.std.specs.Prelude.{◌≡◌, ◌+◌, ◌<◌, ◌∷◌, ◌++◌, [], List, length, map, slice_get, Some, IfOk};
ghost use Rattle.leo_terms.specs.Contents.{Extends, type_at};
ghost use Rattle.leo_clause.specs.Choices.{Choice};
ghost use Rattle.leo_clause.specs.Trees.{clause_at, literal_at};
ghost use Rattle.leo_clause.specs.Typed.{AreLiteralsOf, AreTyped, AreTypesOf};
ghost use Rattle.leo_kernel.specs.Conclusions.{NeverHolds, with_new};
ghost use Rattle.leo_kernel.specs.Steps.{take_apart};
ghost use Rattle.leo_clausify.specs.Branches.{IsBranch, IsExtended};
ghost use Rattle.leo_clausify.specs.Moves.{Descends};
ghost use Rattle.leo_clausify.specs.Splitting.{normal_literal, turned};

use crate::literals::{normalized, placed};
use crate::moves::{Move, Step, copied};
use leo_clause::{Clause, Lit, LogicKind};
use leo_items::Items;
use leo_terms::{Bank, TyId};
use std::alloc::{AllocError, Global};

/// A clause with the steps that led to it.
#[derive(Drop)]
pub(crate) struct Branch {
    pub clause: Clause,
    pub steps: Items<Step>,
}

/// What a rule about truth values gives: the kind, the line of the symbol if a term is chosen, the types of fresh
/// variables, and the new literals.
#[derive(Drop)]
pub(crate) struct Pieces {
    pub kind: LogicKind,
    pub abbr: Option<u64>,
    pub fresh: Items<TyId>,
    pub new: Items<Lit>,
}

impl Branch {
    /// The same once more.
    pub(crate) fn copy(&self, alloc: Global) -> Result<Branch, AllocError>
        ensures { IfOk result (λ b. b ≡ self.now) }
    {
        let clause = self.clause.copy(alloc)?;
        let steps = copied(alloc, self.steps.as_slice())?;
        Ok(Branch { clause, steps })
    }

    /// The branch after one step more.
    pub(crate) fn after(
        self,
        alloc: Global,
        clause: Clause,
        rule: Move,
    ) -> Result<Branch, AllocError>
        ensures clause { IfOk result (λ b. b.clause ≡ clause) }
        ensures steps { IfOk result (λ b. b.steps ≡ self.steps ++ record { clause = clause; rule = rule } ∷ []) }
    {
        let mut steps = self.steps;
        let copy = clause.copy(alloc)?;
        steps.push(Step { clause: copy, rule })?;
        Ok(Branch { clause, steps })
    }

    /// The sides of a literal change places.
    pub(crate) fn turned(self, alloc: Global, bank: &Bank, at: u32) -> Result<Branch, AllocError>
        requires branch { IsBranch bank.now self }
        requires within { at < length self.clause.lits }
        ensures { IfOk result (λ r. (l : Lit) (later : List Choice) → slice_get self.clause.lits at ≡ Some l → IsExtended bank.now bank.now later self r (with_new (clause_at bank.now self.clause) at [] (turned (literal_at bank.now l) ∷ []))) }
    {
        bank.is_sound();
        let lit = self.clause.lits.as_slice()[at as usize];
        let turned = Lit {
            pos: lit.pos,
            left: lit.right,
            right: lit.left,
        };
        let clause = placed(alloc, &self.clause, at as usize, &[], &[turned])?;
        let branch = self.after(alloc, clause, Move::Arrange)?;
        Ok(branch)
    }

    /// A literal that never holds is left out.
    pub(crate) fn omitted(self, alloc: Global, bank: &Bank, at: u32) -> Result<Branch, AllocError>
        requires branch { IsBranch bank.now self }
        requires within { at < length self.clause.lits }
        ensures { IfOk result (λ r. (l : Lit) (later : List Choice) → slice_get self.clause.lits at ≡ Some l → NeverHolds (literal_at bank.now l) → IsExtended bank.now bank.now later self r (with_new (clause_at bank.now self.clause) at [] [])) }
    {
        bank.is_sound();
        let clause = placed(alloc, &self.clause, at as usize, &[], &[])?;
        let branch = self.after(alloc, clause, Move::Omit(at))?;
        Ok(branch)
    }

    /// A literal becomes other literals, and these their normal forms.
    pub(crate) fn taken(
        self,
        alloc: Global,
        bank: &mut Bank,
        at: u32,
        pieces: &Pieces,
    ) -> Result<Branch, AllocError>
        requires branch { IsBranch bank.old self }
        requires within { at < length self.clause.lits }
        requires fresh { AreTypesOf bank.old pieces.now.fresh }
        requires new { AreLiteralsOf bank.old pieces.now.new }
        requires typed { AreTyped (map (type_at bank.old) self.clause.vars ++ map (type_at bank.old) pieces.now.fresh) (map (literal_at bank.old) pieces.now.new) }
        ensures extended { IfOk result (λ r. (later : List Choice) → Descends later (clause_at bank.old self.clause) (record { clause = with_new (clause_at bank.old self.clause) at (map (type_at bank.old) pieces.now.fresh) (map (literal_at bank.old) pieces.now.new); rule = λ p. take_apart p at pieces.now.kind pieces.now.abbr }) → IsExtended bank.old bank.new later self r (with_new (clause_at bank.old self.clause) at (map (type_at bank.old) pieces.now.fresh) (map normal_literal (map (literal_at bank.old) pieces.now.new)))) }
        ensures grows { Extends bank.old bank.new }
    {
        let fresh = pieces.fresh.as_slice();
        let new = pieces.new.as_slice();
        let normals = normalized(alloc, bank, new)?;
        let clause = placed(alloc, &self.clause, at as usize, fresh, new)?;
        let normal = placed(alloc, &self.clause, at as usize, fresh, normals.as_slice())?;
        let rule = Move::Apart(at, pieces.kind, pieces.abbr);
        let branch = self.after(alloc, clause, rule)?;
        let branch = branch.after(alloc, normal, Move::Convert)?;
        Ok(branch)
    }
}
