//! Whether a clause is typed.

ghost use Rattle.std.specs.Prelude.{◌<◌, length, map, IfOk, OnOk};
ghost use Rattle.std.specs.Bool.{Decides};
ghost use Rattle.leo_terms.specs.Contents.{type_at};
ghost use Rattle.leo_clause.specs.Trees.{literal_at, clause_at};
ghost use Rattle.leo_clause.specs.Typed.{AreTypesOf, AreLiteralsOf, AreTyped, IsClauseOf, IsTyped, IsTypedLiteral};
ghost use Rattle.leo_kernel.specs.Visits.{HavePassed};

use crate::leaves::{LeafTest, Visit, walk};
use indexmap::IndexSet;
use leo_clause::{Clause, Lit};
use leo_terms::{Bank, DEPTH, TyId};
use std::alloc::{AllocError, Global};

/// Whether both sides of a literal are terms over these variables, of one type.
fn is_typed_lit(
    bank: &Bank,
    vars: &[TyId],
    lit: Lit,
    visited: &mut IndexSet<Visit>,
) -> Result<bool, AllocError>
    requires left { lit.left < length bank.now.terms }
    requires right { lit.right < length bank.now.terms }
    requires vars { AreTypesOf bank.now vars.now }
    requires visited { HavePassed bank.now (LeafTest.Over) vars.now visited.old.keys }
    ensures value { IfOk result (λ b. Decides b (IsTypedLiteral (map (type_at bank.now) vars.now) (literal_at bank.now lit))) }
    ensures visited { OnOk result (HavePassed bank.now (LeafTest.Over) vars.now visited.new.keys) }
{
    let left_type = bank.type_of(lit.left);
    let right_type = bank.type_of(lit.right);
    if left_type != right_type {
        return Ok(false);
    }
    let test = LeafTest::Over;
    let left = walk(bank, &test, vars, lit.left, 0, visited, DEPTH)?;
    if !left {
        return Ok(false);
    }
    let right = walk(bank, &test, vars, lit.right, 0, visited, DEPTH)?;
    Ok(right)
}

/// Whether each of these literals is typed over these variables.
fn are_typed(alloc: Global, bank: &Bank, vars: &[TyId], lits: &[Lit]) -> Result<bool, AllocError>
    requires vars { AreTypesOf bank.now vars.now }
    requires lits { AreLiteralsOf bank.now lits.now }
    ensures { IfOk result (λ b. Decides b (AreTyped (map (type_at bank.now) vars.now) (map (literal_at bank.now) lits.now))) }
{
    let mut visited = IndexSet::new(alloc);
    for lit in lits {
        let typed = is_typed_lit(bank, vars, *lit, &mut visited)?;
        if !typed {
            return Ok(false);
        }
    }
    Ok(true)
}

/// Whether each literal of a clause is typed over its variables.
pub(crate) fn is_typed(alloc: Global, bank: &Bank, clause: &Clause) -> Result<bool, AllocError>
    requires { IsClauseOf bank.now clause.now }
    ensures { IfOk result (λ b. Decides b (IsTyped (clause_at bank.now clause.now))) }
{
    let typed = are_typed(alloc, bank, clause.vars.as_slice(), clause.lits.as_slice())?;
    Ok(typed)
}
