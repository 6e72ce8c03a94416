//! The weight of a clause.

ghost use Rattle.std.specs.Prelude.{◌≡◌, ◌-◌, ◌^◌, map, min};
ghost use Rattle.leo_clause.specs.Trees.{literal_at, clause_at};
ghost use Rattle.leo_clause.specs.Typed.{AreLiteralsOf, IsTypedIn};
ghost use Rattle.leo_clause.specs.Weights.{clause_weight, literals_weight as weight_of_literals};

use crate::clause::{Clause, Lit};
use leo_terms::Bank;

/// How many variables, bound variables, symbols, logical constants and lambdas the sides of the literals of a clause
/// are made of; `u64::MAX` where there are more. Takes time for each literal, however large the terms are.
pub fn weight(bank: &Bank, c: &Clause) -> u64
    requires { IsTypedIn bank.now c.now }
    ensures { result ≡ min (clause_weight (clause_at bank.now c.now)) (2 ^ 64 - 1) }
{
    literals_weight(bank, c.lits.as_slice())
}

fn literals_weight(bank: &Bank, lits: &[Lit]) -> u64
    requires { AreLiteralsOf bank.now lits.now }
    ensures { result ≡ min (weight_of_literals (map (literal_at bank.now) lits.now)) (2 ^ 64 - 1) }
{
    let mut sum: u64 = 0;
    for lit in lits {
        let left = bank.weight(lit.left);
        let right = bank.weight(lit.right);
        sum = sum.saturating_add(left).saturating_add(right);
    }
    sum
}
