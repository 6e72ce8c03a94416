//! Whether a clause subsumes another: literal by literal, taking back what was bound where that leads nowhere.

ghost use Rattle.std.specs.Prelude.{◌≡◌, ◌<◌, false, length, map, IfOk};
ghost use Rattle.std.specs.Bool.{Decides, OnFalse};
ghost use Rattle.leo_terms.specs.Contents.{tree_at, type_at};
ghost use Rattle.leo_clause.specs.Trees.{literal_at, clause_at};
ghost use Rattle.leo_clause.specs.Typed.{AreLiteralsOf, AreTyped, AreTypesOf, IsTypedIn, IsTypedLiteral};
ghost use Rattle.leo_keep.specs.Subsumption.{Subsumes};
ghost use Rattle.leo_keep.specs.Matching.{AreBindings, BothFit, IsAmong, IsSame, SendsAmong, SendsFirst};

use crate::matching::{Binding, fit_sides};
use leo_clause::{Clause, Lit};
use leo_terms::{Bank, TermId, TyId};
use std::alloc::{AllocError, Global};

/// How many literals a clause has at most that subsumes others.
pub(crate) const MOST_LITERALS: usize = 3;

/// Binds variables so that the literals of a pattern are among others, as they are or turned. Where that cannot be, the
/// bindings are as before.
#[cycle(search)]
fn all_among(
    bank: &Bank,
    vars: &[TyId],
    pattern: &[Lit],
    lits: &[Lit],
    bindings: &mut Vec<Binding>,
) -> Result<bool, AllocError>
    requires vars { AreTypesOf bank.now vars.now }
    requires pattern { AreLiteralsOf bank.now pattern.now }
    requires typed { AreTyped (map (type_at bank.now) vars.now) (map (literal_at bank.now) pattern.now) }
    requires lits { AreLiteralsOf bank.now lits.now }
    requires sound { AreBindings bank.now (map (type_at bank.now) vars.now) bindings.old.items }
    ensures found { IfOk result (λ b. Decides b (SendsAmong bank.now (map (type_at bank.now) vars.now) bindings.old.items (map (literal_at bank.now) pattern.now) (map (literal_at bank.now) lits.now))) }
    ensures restored { IfOk result (λ b. OnFalse b (bindings.new.items ≡ bindings.old.items)) }
{
    match pattern.split_first() {
        Some((first, rest)) => {
            let found = first_among(bank, vars, first, rest, lits, bindings)?;
            Ok(found)
        }
        None => Ok(true),
    }
}

/// The same of a first literal and the rest.
#[cycle(search)]
fn first_among(
    bank: &Bank,
    vars: &[TyId],
    first: &Lit,
    rest: &[Lit],
    lits: &[Lit],
    bindings: &mut Vec<Binding>,
) -> Result<bool, AllocError>
    requires vars { AreTypesOf bank.now vars.now }
    requires left { first.now.left < length bank.now.terms }
    requires right { first.now.right < length bank.now.terms }
    requires first_typed { IsTypedLiteral (map (type_at bank.now) vars.now) (literal_at bank.now first.now) }
    requires rest { AreLiteralsOf bank.now rest.now }
    requires typed { AreTyped (map (type_at bank.now) vars.now) (map (literal_at bank.now) rest.now) }
    requires lits { AreLiteralsOf bank.now lits.now }
    requires sound { AreBindings bank.now (map (type_at bank.now) vars.now) bindings.old.items }
    ensures found { IfOk result (λ b. Decides b (SendsFirst bank.now (map (type_at bank.now) vars.now) bindings.old.items (IsAmong (literal_at bank.now first.now) (map (literal_at bank.now) lits.now)) (map (literal_at bank.now) rest.now) (map (literal_at bank.now) lits.now))) }
    ensures restored { IfOk result (λ b. OnFalse b (bindings.new.items ≡ bindings.old.items)) }
{
    for lit in lits {
        let found = first_at(bank, vars, first, rest, lit, lits, bindings)?;
        if found {
            return Ok(true);
        }
    }
    Ok(false)
}

/// The same, where the first literal becomes this one.
#[cycle(search)]
fn first_at(
    bank: &Bank,
    vars: &[TyId],
    first: &Lit,
    rest: &[Lit],
    lit: &Lit,
    lits: &[Lit],
    bindings: &mut Vec<Binding>,
) -> Result<bool, AllocError>
    requires vars { AreTypesOf bank.now vars.now }
    requires left { first.now.left < length bank.now.terms }
    requires right { first.now.right < length bank.now.terms }
    requires first_typed { IsTypedLiteral (map (type_at bank.now) vars.now) (literal_at bank.now first.now) }
    requires rest { AreLiteralsOf bank.now rest.now }
    requires typed { AreTyped (map (type_at bank.now) vars.now) (map (literal_at bank.now) rest.now) }
    requires lit_left { lit.now.left < length bank.now.terms }
    requires lit_right { lit.now.right < length bank.now.terms }
    requires lits { AreLiteralsOf bank.now lits.now }
    requires sound { AreBindings bank.now (map (type_at bank.now) vars.now) bindings.old.items }
    ensures found { IfOk result (λ b. Decides b (SendsFirst bank.now (map (type_at bank.now) vars.now) bindings.old.items (IsSame (literal_at bank.now first.now) (literal_at bank.now lit.now)) (map (literal_at bank.now) rest.now) (map (literal_at bank.now) lits.now))) }
    ensures restored { IfOk result (λ b. OnFalse b (bindings.new.items ≡ bindings.old.items)) }
{
    if first.pos != lit.pos {
        return Ok(false);
    }
    let as_it_is = sides_at(bank, vars, first, rest, lit.left, lit.right, lits, bindings)?;
    if as_it_is {
        return Ok(true);
    }
    let turned = sides_at(bank, vars, first, rest, lit.right, lit.left, lits, bindings)?;
    Ok(turned)
}

/// The same, where the sides of the first literal become these.
#[cycle(search)]
fn sides_at(
    bank: &Bank,
    vars: &[TyId],
    first: &Lit,
    rest: &[Lit],
    left: TermId,
    right: TermId,
    lits: &[Lit],
    bindings: &mut Vec<Binding>,
) -> Result<bool, AllocError>
    requires vars { AreTypesOf bank.now vars.now }
    requires first_left { first.now.left < length bank.now.terms }
    requires first_right { first.now.right < length bank.now.terms }
    requires first_typed { IsTypedLiteral (map (type_at bank.now) vars.now) (literal_at bank.now first.now) }
    requires rest { AreLiteralsOf bank.now rest.now }
    requires typed { AreTyped (map (type_at bank.now) vars.now) (map (literal_at bank.now) rest.now) }
    requires left { left < length bank.now.terms }
    requires right { right < length bank.now.terms }
    requires lits { AreLiteralsOf bank.now lits.now }
    requires sound { AreBindings bank.now (map (type_at bank.now) vars.now) bindings.old.items }
    ensures found { IfOk result (λ b. Decides b (SendsFirst bank.now (map (type_at bank.now) vars.now) bindings.old.items (BothFit (tree_at bank.now first.now.left) (tree_at bank.now left) (tree_at bank.now first.now.right) (tree_at bank.now right)) (map (literal_at bank.now) rest.now) (map (literal_at bank.now) lits.now))) }
    ensures restored { IfOk result (λ b. OnFalse b (bindings.new.items ≡ bindings.old.items)) }
{
    let mark = bindings.len();
    let fits = fit_sides(bank, vars, first, left, right, bindings)?;
    if !fits {
        bindings.truncate(mark);
        return Ok(false);
    }
    let found = all_among(bank, vars, rest, lits, bindings)?;
    if !found {
        bindings.truncate(mark);
        return Ok(false);
    }
    Ok(true)
}

/// Whether a clause of one to three literals becomes part of another, where terms without loose indices are put in for its
/// variables of base types, and variables for the others.
pub(crate) fn subsumes(
    alloc: Global,
    bank: &Bank,
    clause: &Clause,
    other: &Clause,
) -> Result<bool, AllocError>
    requires typed { IsTypedIn bank.now clause.now }
    requires other_typed { IsTypedIn bank.now other.now }
    ensures { IfOk result (λ b. Decides b (Subsumes (clause_at bank.now clause.now) (clause_at bank.now other.now))) }
{
    if clause.is_empty() || clause.lits.len() > MOST_LITERALS {
        return Ok(false);
    }
    let mut bindings = Vec::new(alloc);
    let found = all_among(
        bank,
        clause.vars.as_slice(),
        clause.lits.as_slice(),
        other.lits.as_slice(),
        &mut bindings,
    )?;
    Ok(found)
}
