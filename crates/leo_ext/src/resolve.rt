//! Negative literals, which are to be solved.

ghost use Rattle.std.specs.Prelude.{◌≡◌, slice_get, Some, OnOk};
ghost use Rattle.leo_clause.specs.Trees.{clause_at, literal_at};
ghost use Rattle.leo_clause.specs.Typed.{IsTypedIn};
ghost use Rattle.leo_ext.specs.Listing.{Adds};
ghost use Rattle.leo_ext.specs.Members.{resolve_at, resolve_members};

use crate::members::{number_of, one_record, put_member};
use leo_clause::{Clause, Lit, Rule};
use leo_para::Due;
use leo_terms::Bank;
use std::alloc::{AllocError, Global};

/// Appends the member of a literal, if it is negative.
fn put_resolve_at(
    alloc: Global,
    bank: &Bank,
    clause: &Clause,
    before: u64,
    at: usize,
    lit: Lit,
    dues: &mut Vec<Due>,
) -> Result<(), AllocError>
    requires clause { IsTypedIn bank.now clause.now }
    ensures adds { OnOk result (Adds bank.now bank.now dues.old.items dues.new.items (resolve_at before (clause_at bank.now clause.now) at (literal_at bank.now lit))) }
{
    bank.is_sound();
    if lit.pos {
        return Ok(());
    }
    let number = number_of(at)?;
    let conclusion = clause.copy(alloc)?;
    let records = one_record(alloc, conclusion, Rule::Convert { parent: before })?;
    put_member(alloc, records, &[number], dues)?;
    Ok(())
}

/// Appends a member for each negative literal of a clause, which stands in the line with the number `before`.
pub fn put_resolve(
    alloc: Global,
    bank: &Bank,
    clause: &Clause,
    before: u64,
    dues: &mut Vec<Due>,
) -> Result<(), AllocError>
    requires clause { IsTypedIn bank.now clause.now }
    ensures adds { OnOk result (Adds bank.now bank.now dues.old.items dues.new.items (resolve_members before (clause_at bank.now clause.now))) }
{
    bank.is_sound();
    let lits = clause.lits.as_slice();
    for at in 0..lits.len() {
        put_resolve_at(alloc, bank, clause, before, at, lits[at], dues)?;
    }
    Ok(())
}
