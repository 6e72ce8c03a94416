//! The members of a turn, listed: those that can never be due may be left out.

ghost use Rattle.std.specs.Prelude.{◌≡◌, ◌≤◌, List, OnOk, Some, length, flat_map, filter, nat_eq, not, slice_get, true, false};
ghost use Rattle.fo_text.specs.declared.problem.FoClause.{FoClause};
ghost use Rattle.fo_text.specs.Words.{most_number};
ghost use Rattle.fo_replay.specs.Replays.{near as near_side};
ghost use Rattle.fo_super.specs.Members.{factorings, meetings, resolutions, superpositions};
ghost use Rattle.fo_super.specs.Sifting.{alone, from_literal, into_clause, into_literal, into_side, of_literal, of_negative, signed, with_other, with_others, AreListed, StandsIn};

use crate::conditions::{far, is_not_below, near};
use crate::member::FoMember;
use crate::sites::{Spot, head, list_places};
use fo_kbo::laws::order_laws;
use fo_text::answer::FoSide;
use fo_text::problem::{FoClause, FoLit};
use sqlite_items::Items;
use std::alloc::{AllocError, Global};

/// Lists superposition from a side of an equation into a side of a literal.
fn list_side(
    alloc: Global,
    from: Spot,
    equation: &FoLit,
    into: Spot,
    literal: &FoLit,
    out: &mut Items<FoMember>,
) -> Result<(), AllocError>
    ensures { OnOk result ((clauses : List FoClause) → StandsIn clauses from.clause from.literal equation.now → StandsIn clauses into.clause into.literal literal.now → AreListed clauses (into_side from.clause from.literal from.side into.clause into.literal into.side (near_side into.side literal.now)) out.old out.new) }
{
    order_laws();
    if !is_not_below(near(into.side, literal), far(into.side, literal)) {
        return Ok(());
    }
    let head = head(near(from.side, equation));
    list_places(alloc, from, head, into, near(into.side, literal), out)?;
    Ok(())
}

/// Lists superposition from a side of an equation into a literal.
fn list_literal(
    alloc: Global,
    from: Spot,
    equation: &FoLit,
    into: u32,
    place: u32,
    literal: &FoLit,
    out: &mut Items<FoMember>,
) -> Result<(), AllocError>
    ensures { OnOk result ((clauses : List FoClause) → StandsIn clauses from.clause from.literal equation.now → StandsIn clauses into place literal.now → AreListed clauses (into_literal from.clause from.literal from.side into (place, literal.now)) out.old out.new) }
{
    let left = Spot {
        clause: into,
        literal: place,
        side: FoSide::Left,
    };
    let right = Spot {
        clause: into,
        literal: place,
        side: FoSide::Right,
    };
    list_side(alloc, from, equation, left, literal, out)?;
    list_side(alloc, from, equation, right, literal, out)?;
    Ok(())
}

/// Lists superposition from a side of an equation into a clause.
fn list_clause(
    alloc: Global,
    from: Spot,
    equation: &FoLit,
    into: u32,
    receiver: &FoClause,
    out: &mut Items<FoMember>,
) -> Result<(), AllocError>
    requires { length receiver.now.lits ≤ most_number }
    ensures { OnOk result ((clauses : List FoClause) → StandsIn clauses from.clause from.literal equation.now → slice_get clauses into ≡ Some receiver.now → AreListed clauses (into_clause from.clause from.literal from.side into receiver.now.lits) out.old out.new) }
{
    let literals = receiver.lits.as_slice();
    for place in 0..literals.len() {
        list_literal(
            alloc,
            from,
            equation,
            into,
            place as u32,
            &literals[place],
            out,
        )?;
    }
    Ok(())
}

/// Lists superposition from a side of an equation into a clause, unless the side is below the other.
fn list_from_side(
    alloc: Global,
    from: Spot,
    equation: &FoLit,
    into: u32,
    receiver: &FoClause,
    out: &mut Items<FoMember>,
) -> Result<(), AllocError>
    requires { length receiver.now.lits ≤ most_number }
    ensures { OnOk result ((clauses : List FoClause) → StandsIn clauses from.clause from.literal equation.now → slice_get clauses into ≡ Some receiver.now → AreListed clauses (into_clause from.clause from.literal from.side into receiver.now.lits) out.old out.new) }
{
    order_laws();
    if !is_not_below(near(from.side, equation), far(from.side, equation)) {
        return Ok(());
    }
    list_clause(alloc, from, equation, into, receiver, out)?;
    Ok(())
}

/// Lists superposition from a literal into a clause, if the literal is positive.
fn list_from_literal(
    alloc: Global,
    from: u32,
    place: u32,
    literal: &FoLit,
    into: u32,
    receiver: &FoClause,
    out: &mut Items<FoMember>,
) -> Result<(), AllocError>
    requires { length receiver.now.lits ≤ most_number }
    ensures { OnOk result ((clauses : List FoClause) → StandsIn clauses from place literal.now → slice_get clauses into ≡ Some receiver.now → AreListed clauses (flat_map (from_literal from into receiver.now.lits) (signed true place literal.now)) out.old out.new) }
{
    if !literal.pos {
        return Ok(());
    }
    let left = Spot {
        clause: from,
        literal: place,
        side: FoSide::Left,
    };
    let right = Spot {
        clause: from,
        literal: place,
        side: FoSide::Right,
    };
    list_from_side(alloc, left, literal, into, receiver, out)?;
    list_from_side(alloc, right, literal, into, receiver, out)?;
    Ok(())
}

/// Lists superposition from a clause into a clause.
fn list_superpositions(
    alloc: Global,
    from: u32,
    giver: &FoClause,
    into: u32,
    receiver: &FoClause,
    out: &mut Items<FoMember>,
) -> Result<(), AllocError>
    requires giver { length giver.now.lits ≤ most_number }
    requires receiver { length receiver.now.lits ≤ most_number }
    ensures { OnOk result ((clauses : List FoClause) → slice_get clauses from ≡ Some giver.now → slice_get clauses into ≡ Some receiver.now → AreListed clauses (superpositions from giver.now.lits into receiver.now.lits) out.old out.new) }
{
    let literals = giver.lits.as_slice();
    for place in 0..literals.len() {
        list_from_literal(
            alloc,
            from,
            place as u32,
            &literals[place],
            into,
            receiver,
            out,
        )?;
    }
    Ok(())
}

/// Lists superposition from the given clause into a partner, and from the partner into the given clause
/// if it is another.
pub(crate) fn list_meeting(
    alloc: Global,
    given: u32,
    clause: &FoClause,
    number: u32,
    partner: &FoClause,
    out: &mut Items<FoMember>,
) -> Result<(), AllocError>
    requires given { length clause.now.lits ≤ most_number }
    requires partner { length partner.now.lits ≤ most_number }
    ensures { OnOk result ((clauses : List FoClause) → slice_get clauses given ≡ Some clause.now → slice_get clauses number ≡ Some partner.now → AreListed clauses (meetings given clause.now.lits (number, partner.now)) out.old out.new) }
{
    list_superpositions(alloc, given, clause, number, partner, out)?;
    if given == number {
        return Ok(());
    }
    list_superpositions(alloc, number, partner, given, clause, out)?;
    Ok(())
}

/// Lists factoring of a side of a literal with another literal, if that is positive.
fn list_other(
    number: u32,
    first: u32,
    side: FoSide,
    second: u32,
    literal: &FoLit,
    out: &mut Items<FoMember>,
) -> Result<(), AllocError>
    ensures { OnOk result ((clauses : List FoClause) → AreListed clauses (flat_map (with_other number first side) (filter (λ q. not (nat_eq first q.0)) (signed true second literal.now))) out.old out.new) }
{
    if !literal.pos {
        return Ok(());
    }
    if first == second {
        return Ok(());
    }
    out.push(FoMember::Factor {
        clause: number,
        first,
        first_side: side,
        second,
        second_side: FoSide::Left,
    })?;
    out.push(FoMember::Factor {
        clause: number,
        first,
        first_side: side,
        second,
        second_side: FoSide::Right,
    })?;
    Ok(())
}

/// Lists factoring of a side of a literal with the others.
fn list_others(
    number: u32,
    first: u32,
    side: FoSide,
    clause: &FoClause,
    out: &mut Items<FoMember>,
) -> Result<(), AllocError>
    requires { length clause.now.lits ≤ most_number }
    ensures { OnOk result ((clauses : List FoClause) → AreListed clauses (with_others number first side clause.now.lits) out.old out.new) }
{
    let literals = clause.lits.as_slice();
    for place in 0..literals.len() {
        list_other(number, first, side, place as u32, &literals[place], out)?;
    }
    Ok(())
}

/// Lists factoring of a literal with the others, if it is positive.
fn list_factors_of(
    number: u32,
    place: u32,
    literal: &FoLit,
    clause: &FoClause,
    out: &mut Items<FoMember>,
) -> Result<(), AllocError>
    requires { length clause.now.lits ≤ most_number }
    ensures { OnOk result ((clauses : List FoClause) → AreListed clauses (flat_map (of_literal number clause.now.lits) (signed true place literal.now)) out.old out.new) }
{
    if !literal.pos {
        return Ok(());
    }
    list_others(number, place, FoSide::Left, clause, out)?;
    list_others(number, place, FoSide::Right, clause, out)?;
    Ok(())
}

/// Lists factoring.
fn list_factorings(
    number: u32,
    clause: &FoClause,
    out: &mut Items<FoMember>,
) -> Result<(), AllocError>
    requires { length clause.now.lits ≤ most_number }
    ensures { OnOk result ((clauses : List FoClause) → AreListed clauses (factorings number clause.now.lits) out.old out.new) }
{
    let literals = clause.lits.as_slice();
    for place in 0..literals.len() {
        list_factors_of(number, place as u32, &literals[place], clause, out)?;
    }
    Ok(())
}

/// Lists equality resolution on a literal, if it is negative.
fn list_resolution(
    number: u32,
    place: u32,
    literal: &FoLit,
    out: &mut Items<FoMember>,
) -> Result<(), AllocError>
    ensures { OnOk result ((clauses : List FoClause) → AreListed clauses (of_negative number (signed false place literal.now)) out.old out.new) }
{
    if literal.pos {
        return Ok(());
    }
    out.push(FoMember::Resolve {
        clause: number,
        literal: place,
    })?;
    Ok(())
}

/// Lists equality resolution.
fn list_resolutions(
    number: u32,
    clause: &FoClause,
    out: &mut Items<FoMember>,
) -> Result<(), AllocError>
    requires { length clause.now.lits ≤ most_number }
    ensures { OnOk result ((clauses : List FoClause) → AreListed clauses (resolutions number clause.now.lits) out.old out.new) }
{
    let literals = clause.lits.as_slice();
    for place in 0..literals.len() {
        list_resolution(number, place as u32, &literals[place], out)?;
    }
    Ok(())
}

/// Lists what the given clause makes alone.
pub(crate) fn list_alone(
    given: u32,
    clause: &FoClause,
    out: &mut Items<FoMember>,
) -> Result<(), AllocError>
    requires { length clause.now.lits ≤ most_number }
    ensures { OnOk result ((clauses : List FoClause) → AreListed clauses (alone given clause.now.lits) out.old out.new) }
{
    list_resolutions(given, clause, out)?;
    list_factorings(given, clause, out)?;
    Ok(())
}
