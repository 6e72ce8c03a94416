//! What is left of constraints, in their places.

ghost use Rattle.std.specs.Prelude.{◌≡◌, ◌<◌, ◌∷◌, [], length, is_some, nat_eq, true, false, IfOk};
ghost use Rattle.std.specs.List.{list_any};
ghost use Rattle.leo_terms.specs.Contents.{tree_at};
ghost use Rattle.leo_clause.specs.Trees.{clause_at, literal_at};
ghost use Rattle.leo_clause.specs.Typed.{IsTypedIn};
ghost use Rattle.leo_unify.specs.Residues.{left_of_arguments, residue};
ghost use Rattle.leo_conclude.specs.Conclusions.{relieved as relieved_literals};
ghost use Rattle.leo_conclude.specs.Deriving.{IsChanged};
ghost use Rattle.leo_conclude.specs.Leaving.{AreConstraints, HasUnequal, HasUnequalApplications, IsApplicationIn, Leaves, LeavesApplications, parts_left};
ghost use Rattle.std.specs.Prelude.{None};
ghost use Rattle.leo_unify.specs.Tops.{application_of as application_of_tree};

use crate::derived::Derived;
use leo_clause::Lit;
use leo_terms::{Bank, DEPTH, TermId};
use leo_unify::{Application, application_of, choice_of, is_symbol};
use std::alloc::{AllocError, Global};

/// A clause in which an inequation was replaced by others, and the place behind these.
#[derive(Drop)]
pub(crate) struct Relieved {
    pub derived: Derived,
    pub end: usize,
}

/// Whether two terms that are no applications are one symbol, or choices at one type.
fn have_one_head(bank: &Bank, l: TermId, r: TermId) -> bool
    requires left { l < length bank.now.terms }
    requires right { r < length bank.now.terms }
    requires head { application_of_tree (tree_at bank.now l) ≡ None }
    ensures { result ≡ is_some (left_of_arguments (tree_at bank.now l) (tree_at bank.now r)) }
{
    bank.is_sound();
    match choice_of(bank, l) {
        Some(first) => match choice_of(bank, r) {
            Some(second) => first.ty == second.ty,
            None => false,
        },
        None => {
            if !is_symbol(bank, l) {
                return false;
            }
            l == r
        }
    }
}

/// Whether two terms have the same symbol, or choice at one type, as head, and as many arguments. Goes at most `room` levels
/// down.
fn have_parts(bank: &Bank, l: TermId, r: TermId, room: u32) -> Result<bool, AllocError>
    requires left { l < length bank.now.terms }
    requires right { r < length bank.now.terms }
    ensures { IfOk result (λ b. b ≡ is_some (left_of_arguments (tree_at bank.now l) (tree_at bank.now r))) }
{
    let Some(room) = room.checked_sub(1) else {
        return Err(AllocError);
    };
    match application_of(bank, l) {
        Some(first) => match application_of(bank, r) {
            Some(second) => {
                let have = have_parts(bank, first.function, second.function, room)?;
                Ok(have)
            }
            None => Ok(false),
        },
        None => Ok(have_one_head(bank, l, r)),
    }
}

/// The inequation of two applications is replaced by what is left of the functions' arguments, and then of the arguments.
#[cycle(relieve)]
fn relieve_application(
    alloc: Global,
    bank: &Bank,
    derived: Derived,
    at: usize,
    first: &Application,
    second: &Application,
    room: u32,
) -> Result<Relieved, AllocError>
    requires typed { IsTypedIn bank.now derived.clause }
    requires first { IsApplicationIn bank.now first.now }
    requires second { IsApplicationIn bank.now second.now }
    requires unequal { HasUnequalApplications bank.now derived.clause at first.now second.now }
    requires parts { is_some (left_of_arguments (tree_at bank.now first.now.function) (tree_at bank.now second.now.function)) ≡ true }
    ensures { IfOk result (λ r. LeavesApplications bank.now derived at first.now second.now r) }
{
    bank.is_sound();
    let functions = Lit {
        pos: false,
        left: first.function,
        right: second.function,
    };
    let arguments = Lit {
        pos: false,
        left: first.argument,
        right: second.argument,
    };
    let derived = derived.decomposed(alloc, bank, at, &[functions, arguments])?;
    let front = relieve_parts(
        alloc,
        bank,
        derived,
        at,
        first.function,
        second.function,
        room,
    )?;
    let whole = relieve(
        alloc,
        bank,
        front.derived,
        front.end,
        first.argument,
        second.argument,
        room,
    )?;
    Ok(whole)
}

/// The inequation of two heads: nothing is left of one symbol, and of two choices what is left of the properties.
#[cycle(relieve)]
fn relieve_heads(
    alloc: Global,
    bank: &Bank,
    derived: Derived,
    at: usize,
    l: TermId,
    r: TermId,
    room: u32,
) -> Result<Relieved, AllocError>
    requires typed { IsTypedIn bank.now derived.clause }
    requires left { l < length bank.now.terms }
    requires right { r < length bank.now.terms }
    requires unequal { HasUnequal bank.now derived.clause at l r }
    requires head { application_of_tree (tree_at bank.now l) ≡ None }
    requires parts { is_some (left_of_arguments (tree_at bank.now l) (tree_at bank.now r)) ≡ true }
    ensures { IfOk result (Leaves bank.now derived at l r (parts_left (tree_at bank.now l) (tree_at bank.now r))) }
{
    bank.is_sound();
    match choice_of(bank, l) {
        Some(first) => match choice_of(bank, r) {
            Some(second) => {
                let properties = Lit {
                    pos: false,
                    left: first.property,
                    right: second.property,
                };
                let derived = derived.decomposed(alloc, bank, at, &[properties])?;
                let whole = relieve(
                    alloc,
                    bank,
                    derived,
                    at,
                    first.property,
                    second.property,
                    room,
                )?;
                Ok(whole)
            }
            None => unreachable!(),
        },
        None => {
            let derived = derived.omitted(alloc, bank, at)?;
            Ok(Relieved { derived, end: at })
        }
    }
}

/// The inequation of two terms with one head and as many arguments is replaced by what is left of the arguments.
#[cycle(relieve)]
fn relieve_parts(
    alloc: Global,
    bank: &Bank,
    derived: Derived,
    at: usize,
    l: TermId,
    r: TermId,
    room: u32,
) -> Result<Relieved, AllocError>
    requires typed { IsTypedIn bank.now derived.clause }
    requires left { l < length bank.now.terms }
    requires right { r < length bank.now.terms }
    requires unequal { HasUnequal bank.now derived.clause at l r }
    requires parts { is_some (left_of_arguments (tree_at bank.now l) (tree_at bank.now r)) ≡ true }
    ensures { IfOk result (Leaves bank.now derived at l r (parts_left (tree_at bank.now l) (tree_at bank.now r))) }
{
    bank.is_sound();
    let Some(room) = room.checked_sub(1) else {
        return Err(AllocError);
    };
    match application_of(bank, l) {
        Some(first) => match application_of(bank, r) {
            Some(second) => {
                let whole = relieve_application(alloc, bank, derived, at, &first, &second, room)?;
                Ok(whole)
            }
            None => unreachable!(),
        },
        None => {
            let whole = relieve_heads(alloc, bank, derived, at, l, r, room)?;
            Ok(whole)
        }
    }
}

/// The inequation of two terms is replaced by what is left of it.
#[cycle(relieve)]
fn relieve(
    alloc: Global,
    bank: &Bank,
    derived: Derived,
    at: usize,
    l: TermId,
    r: TermId,
    room: u32,
) -> Result<Relieved, AllocError>
    requires typed { IsTypedIn bank.now derived.clause }
    requires left { l < length bank.now.terms }
    requires right { r < length bank.now.terms }
    requires unequal { HasUnequal bank.now derived.clause at l r }
    ensures { IfOk result (Leaves bank.now derived at l r (residue (tree_at bank.now l) (tree_at bank.now r))) }
{
    bank.is_sound();
    if l == r {
        let derived = derived.omitted(alloc, bank, at)?;
        return Ok(Relieved { derived, end: at });
    }
    let have = have_parts(bank, l, r, room)?;
    if !have {
        let Some(end) = at.checked_add(1) else {
            return Err(AllocError);
        };
        return Ok(Relieved { derived, end });
    }
    let whole = relieve_parts(alloc, bank, derived, at, l, r, room)?;
    Ok(whole)
}

/// Whether a number is among those of constraints.
fn is_constraint(constraints: &[u32], at: usize) -> bool
    ensures { result ≡ list_any (nat_eq at) constraints.now }
{
    constraints.iter().any(|n| *n as usize == at)
}

/// The clause in which each of these constraints is replaced by what is left of it: the last one first, so that those before
/// it keep their places.
pub(crate) fn relieve_all(
    alloc: Global,
    bank: &Bank,
    derived: Derived,
    constraints: &[u32],
) -> Result<Derived, AllocError>
    requires typed { IsTypedIn bank.now derived.clause }
    requires constraints { AreConstraints (clause_at bank.now derived.clause).literals constraints.now }
    ensures { IfOk result (λ r. IsChanged bank.now derived r [] (relieved_literals constraints.now 0 (clause_at bank.now derived.clause).literals) []) }
{
    bank.is_sound();
    let count = derived.clause.lits.len();
    let mut present = derived;
    for done in 0..count {
        let at = count - 1 - done;
        if is_constraint(constraints, at) {
            let lit = present.clause.lits.as_slice()[at];
            let next = relieve(alloc, bank, present, at, lit.left, lit.right, DEPTH)?;
            present = next.derived;
        }
    }
    Ok(present)
}
