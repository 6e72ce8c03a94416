//! The steps from a clause to a leaf, and their records.

ghost use Rattle.std.specs.Prelude.{◌≡◌, ◌+◌, ◌∷◌, ◌++◌, [], length, map, take, slice_get, Some, IfOk};
ghost use Rattle.leo_kernel.specs.Records.{AreStepsOf, IsStepOf};
ghost use Rattle.leo_kernel.specs.Steps.{line_at};
ghost use Rattle.leo_clausify.specs.Moves.{AreStepsIn, IsStepIn, lines_after, step_at};

use leo_clause::{Clause, LogicKind, Rule, StepRecord};
use leo_items::Items;
use leo_terms::{Bank, TermId};
use std::alloc::{AllocError, Global};

/// The rule of a step, whose parent is the line before it. Literals and lines are named by their numbers.
#[derive(Drop)]
pub(crate) enum Move {
    Arrange,
    Omit(u32),
    Apart(u32, LogicKind, Option<u64>),
    Convert,
    Inst(Items<TermId>),
}

/// A step: its clause, and the rule that gives it.
#[derive(Drop)]
pub(crate) struct Step {
    pub clause: Clause,
    pub rule: Move,
}

impl Move {
    /// The same rule once more.
    fn copy(&self, alloc: Global) -> Result<Move, AllocError>
        ensures { IfOk result (λ m. m ≡ self.now) }
    {
        let copied = match self {
            Move::Arrange => Move::Arrange,
            Move::Omit(lit) => Move::Omit(*lit),
            Move::Apart(lit, kind, abbr) => Move::Apart(*lit, *kind, *abbr),
            Move::Convert => Move::Convert,
            Move::Inst(sigma) => Move::Inst(Items::from_slice(alloc, sigma.as_slice())?),
        };
        Ok(copied)
    }

    /// The rule as a record has it, for the parent with this number.
    fn rule(&self, alloc: Global, parent: u64) -> Result<Rule, AllocError>
        ensures { IfOk result (λ r. r ≡ rule_for self.now parent) }
    {
        let rule = match self {
            Move::Arrange => Rule::Arrange { parent },
            Move::Omit(lit) => Rule::Drop { parent, lit: *lit },
            Move::Apart(lit, kind, abbr) => Rule::Logic {
                parent,
                lit: *lit,
                kind: *kind,
                abbr: *abbr,
            },
            Move::Convert => Rule::Convert { parent },
            Move::Inst(sigma) => Rule::Inst {
                parent,
                sigma: Items::from_slice(alloc, sigma.as_slice())?,
            },
        };
        Ok(rule)
    }
}

ghost use Rattle.leo_clausify.specs.Moves.{rule_for};

impl Step {
    /// The same step once more.
    pub(crate) fn copy(&self, alloc: Global) -> Result<Step, AllocError>
        ensures { IfOk result (λ s. s ≡ self.now) }
    {
        let clause = self.clause.copy(alloc)?;
        let rule = self.rule.copy(alloc)?;
        Ok(Step { clause, rule })
    }

    /// Its record, for the parent with this number.
    fn record(&self, alloc: Global, parent: u64) -> Result<StepRecord, AllocError>
        ensures { IfOk result (λ r. r ≡ record { clause = self.now.clause; rule = rule_for self.now.rule parent }) }
    {
        let clause = self.clause.copy(alloc)?;
        let rule = self.rule.rule(alloc, parent)?;
        Ok(StepRecord { clause, rule })
    }
}

/// The same steps once more.
pub(crate) fn copied(alloc: Global, steps: &[Step]) -> Result<Items<Step>, AllocError>
    ensures { IfOk result (λ copies. copies ≡ steps.now) }
{
    let mut copies = Items::new(alloc);
    for step in steps {
        copies.push(step.copy(alloc)?)?;
    }
    Ok(copies)
}

/// The records of steps, where the line before them has the number `before`.
pub(crate) fn records(
    alloc: Global,
    steps: &[Step],
    before: u64,
) -> Result<Items<StepRecord>, AllocError>
    ensures { IfOk result (λ rs. rs ≡ records_after before steps.now) }
{
    let mut records = Items::new(alloc);
    let mut parent = before;
    for step in steps {
        records.push(step.record(alloc, parent)?)?;
        let Some(next) = parent.checked_add(1) else {
            return Err(AllocError);
        };
        parent = next;
    }
    Ok(records)
}

ghost use Rattle.leo_clausify.specs.Moves.{records_after};
