//! The paramodulations of one clause into another.

ghost use Rattle.std.specs.Prelude.{◌≡◌, IfOk, length};
ghost use Rattle.leo_terms.specs.Contents.{Extends};
ghost use Rattle.leo_clause.specs.Trees.{clause_at};
ghost use Rattle.leo_clause.specs.Typed.{IsTypedIn};
ghost use Rattle.leo_para.specs.Dues.{AreDue};
ghost use Rattle.leo_para.specs.Members.{due_members};
ghost use Rattle.leo_para.specs.Concluding.{AreDone, AreReady};

use crate::concluding::due_of;
use crate::due::{Found, members};
use crate::meeting::may_meet;
use crate::member::Due;
use crate::moving::moved_lits;
use leo_clause::{Clause, Lit};
use leo_items::Items;
use leo_terms::{Bank, TyId};
use std::alloc::{AllocError, Global};

/// How many variables these are, as terms number them.
fn count_of(vars: &[TyId]) -> Result<u32, AllocError>
    ensures { IfOk result (λ n. n ≡ length vars.now) }
{
    match u32::try_from(vars.len()) {
        Ok(count) => Ok(count),
        Err(_) => Err(AllocError),
    }
}

/// The steps of members, in their order.
fn dues_of(
    alloc: Global,
    bank: &mut Bank,
    from: &Clause,
    into: &Clause,
    moved: &[Lit],
    found: &[Found],
) -> Result<Items<Due>, AllocError>
    requires { AreReady bank.old from.now into.now moved.now found.now }
    ensures done { IfOk result (AreDone bank.old bank.new from.now into.now (due_members (clause_at bank.old from.now) (clause_at bank.old into.now))) }
    ensures grows { Extends bank.old bank.new }
{
    bank.is_sound();
    let mut dues = Items::new(alloc);
    for member in found {
        let due = due_of(alloc, bank, from, into, moved, member)?;
        dues.push(due)?;
    }
    Ok(dues)
}

/// The paramodulations that are due from one clause into another, in their order: by the equation and its side, then by
/// the literal, its side and the place in it.
///
/// Each is one record, which follows on two lines: line 0 has the clause `from`, line 1 the clause `into`. The last
/// literal of its clause is the one that is to be solved. The variables of `into` come behind those of `from`, so that
/// both may be one clause. The bank gains terms at most.
///
/// # Errors
///
/// Want of memory, also where a term is deeper than [`leo_terms::DEPTH`] levels, or where there are more than 2^32
/// variables or literals.
pub fn para(
    alloc: Global,
    bank: &mut Bank,
    from: &Clause,
    into: &Clause,
) -> Result<Items<Due>, AllocError>
    requires from { IsTypedIn bank.old from.now }
    requires into { IsTypedIn bank.old into.now }
    ensures due { IfOk result (AreDue bank.new (clause_at bank.old from.now) (clause_at bank.old into.now)) }
    ensures grows { Extends bank.old bank.new }
{
    bank.is_sound();
    if !may_meet(bank, from, into) {
        return Ok(Items::new(alloc));
    }
    let found = members(alloc, bank, from, into)?;
    if found.is_empty() {
        return Ok(Items::new(alloc));
    }
    let first = count_of(from.vars.as_slice())?;
    let moved = moved_lits(
        alloc,
        bank,
        first,
        into.vars.as_slice(),
        into.lits.as_slice(),
    )?;
    let dues = dues_of(alloc, bank, from, into, moved.as_slice(), &found)?;
    Ok(dues)
}
