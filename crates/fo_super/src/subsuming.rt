//! Whether a clause subsumes another: literal by literal, taking back what was bound where that leads
//! nowhere.

ghost use Rattle.std.specs.Prelude.{◌≡◌, IfOk};
ghost use Rattle.std.specs.Bool.{Decides, OnFalse};
ghost use Rattle.fo_super.specs.Subsumption.{Subsumes};
ghost use Rattle.fo_super.specs.Matching.{AreBindings, BothFit, IsSentAmong, IsSentTo, SendsAmong, SendsFirst};

use crate::matching::{Binding, fit_sides};
use fo_terms::term::FoTerm;
use fo_text::problem::{FoClause, FoLit, FoSym};
use std::alloc::{AllocError, Global};

/// How many literals a clause has at most that subsumes others.
const MOST_LITERALS: usize = 3;

/// Binds variables so that the literals of a pattern are among others, as they are or turned. Where
/// that cannot be, the bindings are as before.
#[cycle(search)]
fn all_among(
    alloc: Global,
    syms: &[FoSym],
    clause: &FoClause,
    other: &FoClause,
    pattern: &[FoLit],
    bindings: &mut Vec<Binding>,
) -> Result<bool, AllocError>
    requires sound { AreBindings clause.now.vars other.now.vars syms.now bindings.old.items }
    ensures found { IfOk result (λ b. Decides b (SendsAmong clause.now.vars other.now.vars syms.now bindings.old.items pattern.now other.now.lits)) }
    ensures restored { IfOk result (λ b. OnFalse b (bindings.new.items ≡ bindings.old.items)) }
{
    match pattern.split_first() {
        Some((first, rest)) => {
            let found = first_among(alloc, syms, clause, other, first, rest, bindings)?;
            Ok(found)
        }
        None => Ok(true),
    }
}

/// The same of a first literal and the rest.
#[cycle(search)]
fn first_among(
    alloc: Global,
    syms: &[FoSym],
    clause: &FoClause,
    other: &FoClause,
    first: &FoLit,
    rest: &[FoLit],
    bindings: &mut Vec<Binding>,
) -> Result<bool, AllocError>
    requires sound { AreBindings clause.now.vars other.now.vars syms.now bindings.old.items }
    ensures found { IfOk result (λ b. Decides b (SendsFirst clause.now.vars other.now.vars syms.now bindings.old.items (IsSentAmong clause.now.vars other.now.vars syms.now first.now other.now.lits) rest.now other.now.lits)) }
    ensures restored { IfOk result (λ b. OnFalse b (bindings.new.items ≡ bindings.old.items)) }
{
    for literal in other.lits.as_slice() {
        let found = first_at(alloc, syms, clause, other, first, rest, literal, bindings)?;
        if found {
            return Ok(true);
        }
    }
    Ok(false)
}

/// The same, where the first literal becomes this one.
#[cycle(search)]
fn first_at(
    alloc: Global,
    syms: &[FoSym],
    clause: &FoClause,
    other: &FoClause,
    first: &FoLit,
    rest: &[FoLit],
    literal: &FoLit,
    bindings: &mut Vec<Binding>,
) -> Result<bool, AllocError>
    requires sound { AreBindings clause.now.vars other.now.vars syms.now bindings.old.items }
    ensures found { IfOk result (λ b. Decides b (SendsFirst clause.now.vars other.now.vars syms.now bindings.old.items (IsSentTo clause.now.vars other.now.vars syms.now first.now literal.now) rest.now other.now.lits)) }
    ensures restored { IfOk result (λ b. OnFalse b (bindings.new.items ≡ bindings.old.items)) }
{
    if first.pos != literal.pos {
        return Ok(false);
    }
    let as_it_is = sides_at(
        alloc,
        syms,
        clause,
        other,
        first,
        rest,
        &literal.left,
        &literal.right,
        bindings,
    )?;
    if as_it_is {
        return Ok(true);
    }
    let turned = sides_at(
        alloc,
        syms,
        clause,
        other,
        first,
        rest,
        &literal.right,
        &literal.left,
        bindings,
    )?;
    Ok(turned)
}

/// The same, where the sides of the first literal become these.
#[cycle(search)]
fn sides_at(
    alloc: Global,
    syms: &[FoSym],
    clause: &FoClause,
    other: &FoClause,
    first: &FoLit,
    rest: &[FoLit],
    left: &FoTerm,
    right: &FoTerm,
    bindings: &mut Vec<Binding>,
) -> Result<bool, AllocError>
    requires sound { AreBindings clause.now.vars other.now.vars syms.now bindings.old.items }
    ensures found { IfOk result (λ b. Decides b (SendsFirst clause.now.vars other.now.vars syms.now bindings.old.items (BothFit clause.now.vars other.now.vars syms.now first.now.left left.now first.now.right right.now) rest.now other.now.lits)) }
    ensures restored { IfOk result (λ b. OnFalse b (bindings.new.items ≡ bindings.old.items)) }
{
    let mark = bindings.len();
    let fits = fit_sides(alloc, syms, clause, other, first, left, right, bindings)?;
    if !fits {
        bindings.truncate(mark);
        return Ok(false);
    }
    let found = all_among(alloc, syms, clause, other, rest, bindings)?;
    if !found {
        bindings.truncate(mark);
        return Ok(false);
    }
    Ok(true)
}

/// Whether a clause of one to three literals becomes part of another: a substitution that sends each
/// variable to a term of its sort sends each of its literals to one of the other's, as it is or turned.
/// Two may go to one. The only error is want of memory.
pub fn subsumes(
    alloc: Global,
    syms: &[FoSym],
    clause: &FoClause,
    other: &FoClause,
) -> Result<bool, AllocError>
    ensures { IfOk result (λ b. Decides b (Subsumes syms.now clause.now other.now)) }
{
    if clause.lits.is_empty() || clause.lits.len() > MOST_LITERALS {
        return Ok(false);
    }
    let mut bindings = Vec::new(alloc);
    let found = all_among(
        alloc,
        syms,
        clause,
        other,
        clause.lits.as_slice(),
        &mut bindings,
    )?;
    Ok(found)
}
