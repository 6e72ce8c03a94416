//! Normal forms of clauses.

ghost use Rattle.std.specs.Prelude.{◌<◌, length, map, IfOk};
ghost use Rattle.leo_terms.specs.Contents.{Extends};
ghost use Rattle.leo_clause.specs.Trees.{clause_at, literal_at};
ghost use Rattle.leo_clause.specs.Typed.{AreLiteralsOf, IsClauseOf};
ghost use Rattle.leo_clausify.specs.Literals.{AreLiterals, IsLiteral};
ghost use Rattle.leo_clausify.specs.Splitting.{normal_literal};
ghost use Rattle.leo_turn.specs.Intakes.{normal_clause};
ghost use Rattle.leo_turn.specs.Changing.{IsClauseIn};

use leo_clause::{Clause, Lit};
use leo_items::Items;
use leo_terms::Bank;
use std::alloc::{AllocError, Global};

/// A literal with both sides in normal form.
fn normal_lit(bank: &mut Bank, lit: Lit) -> Result<Lit, AllocError>
    requires left { lit.left < length bank.old.terms }
    requires right { lit.right < length bank.old.terms }
    ensures made { IfOk result (λ l. IsLiteral bank.new l (normal_literal (literal_at bank.old lit))) }
    ensures grows { Extends bank.old bank.new }
{
    let left = bank.normal(lit.left)?;
    let right = bank.normal(lit.right)?;
    Ok(Lit {
        pos: lit.pos,
        left,
        right,
    })
}

/// Literals with all sides in normal form.
fn normal_lits(alloc: Global, bank: &mut Bank, lits: &[Lit]) -> Result<Items<Lit>, AllocError>
    requires { AreLiteralsOf bank.old lits.now }
    ensures made { IfOk result (λ ls. AreLiterals bank.new ls (map normal_literal (map (literal_at bank.old) lits.now))) }
    ensures grows { Extends bank.old bank.new }
{
    bank.is_sound();
    let mut normals = Items::new(alloc);
    for lit in lits {
        let lit = normal_lit(bank, *lit)?;
        normals.push(lit)?;
    }
    Ok(normals)
}

/// The clause with all sides in normal form.
pub(crate) fn normal(alloc: Global, bank: &mut Bank, clause: &Clause) -> Result<Clause, AllocError>
    requires { IsClauseOf bank.old clause.now }
    ensures made { IfOk result (λ c. IsClauseIn bank.new c (normal_clause (clause_at bank.old clause.now))) }
    ensures grows { Extends bank.old bank.new }
{
    let lits = normal_lits(alloc, bank, clause.lits.as_slice())?;
    let vars = Items::from_slice(alloc, clause.vars.as_slice())?;
    Ok(Clause { vars, lits })
}
