//! Which paramodulations are due from one clause into another.

ghost use Rattle.std.specs.Prelude.{[], ◌++◌, ◌≡◌, ◌<◌, ◌&&◌, length, map, IfOk, OnOk};
ghost use Rattle.std.specs.List.{flat_map};
ghost use Rattle.leo_q0.specs.Terms.{same_type};
ghost use Rattle.leo_terms.specs.Tree.{type_of};
ghost use Rattle.leo_terms.specs.Contents.{Extends, tree_at};
ghost use Rattle.leo_clause.specs.Trees.{clause_at, literal_at};
ghost use Rattle.leo_clause.specs.Typed.{AreLiteralsOf, IsClauseOf};
ghost use Rattle.leo_kernel.specs.ByNumber.{side_number};
ghost use Rattle.leo_kernel.specs.Shapes.{side_of as side_of_tree};
ghost use Rattle.leo_para.specs.Spines.{heads_meet};
ghost use Rattle.leo_para.specs.Places.{places};
ghost use Rattle.leo_para.specs.Members.{due_members, each_literal, member_at, members_of_equation, members_of_target};
ghost use Rattle.leo_para.specs.Reading.{place_at};
ghost use Rattle.leo_para.specs.Truths.{AreTruths};
ghost use Rattle.leo_para.specs.Found.{IsLitOf, member_read};

use crate::heads::{head_of, meet};
use crate::spots::{Spot, places_of};
use crate::truths::{Truths, is_formula, make_truths};
use leo_clause::{Clause, Lit, Side};
use leo_items::Items;
use leo_terms::{Bank, TermId};
use std::alloc::{AllocError, Global};

/// A side of a literal that is looked for.
#[derive(Clone, Copy)]
pub(crate) struct Equation {
    pub number: usize,
    pub lit: Lit,
    pub side: Side,
}

/// A side of a literal in which it is looked for.
#[derive(Clone, Copy)]
pub(crate) struct Target {
    pub number: usize,
    pub lit: Lit,
    pub side: Side,
}

/// A paramodulation that is due.
#[derive(Drop)]
pub(crate) struct Found {
    /// The number of the equation among the literals of the first clause, the equation, and its side that is looked for.
    pub literal: usize,
    pub equation: Lit,
    pub side: Side,
    /// The number of the literal of the second clause, the literal, its side, the path in it by numbers of children, and
    /// the term to which it leads.
    pub place: usize,
    pub target: Lit,
    pub place_side: Side,
    pub path: Items<u8>,
    pub term: TermId,
}

/// A side of a literal.
pub(crate) fn side_of(lit: &Lit, side: Side) -> TermId
    ensures { result ≡ side_number side lit.now }
{
    match side {
        Side::Left => lit.left,
        Side::Right => lit.right,
    }
}

/// Whether a term may be looked for at a place: heads meet, and the types are equal.
fn meets(bank: &Bank, t: TermId, spot: &Spot) -> bool
    requires term { t < length bank.now.terms }
    requires spot { spot.now.term < length bank.now.terms }
    ensures { result ≡ (heads_meet spot.now.path (tree_at bank.now t) (tree_at bank.now spot.now.term) && same_type (type_of (tree_at bank.now t)) (type_of (tree_at bank.now spot.now.term))) }
{
    bank.is_sound();
    let first = head_of(bank, t);
    let second = head_of(bank, spot.term);
    if !meet(bank, spot.path.is_empty(), &first, &second) {
        return false;
    }
    bank.type_of(t) == bank.type_of(spot.term)
}

/// Appends the member at a place, if it is due.
fn put_spot(
    alloc: Global,
    bank: &Bank,
    equation: &Equation,
    target: &Target,
    spot: &Spot,
    found: &mut Vec<Found>,
) -> Result<(), AllocError>
    requires equation { IsLitOf bank.now equation.now.lit }
    requires spot { spot.now.term < length bank.now.terms }
    ensures found { OnOk result (map (member_read bank.now) found.new.items ≡ map (member_read bank.now) found.old.items ++ member_at equation.now.number (literal_at bank.now equation.now.lit) equation.now.side target.now.number (literal_at bank.now target.now.lit) target.now.side (place_at bank.now spot.now)) }
{
    if !meets(bank, side_of(&equation.lit, equation.side), spot) {
        return Ok(());
    }
    let path = Items::from_slice(alloc, spot.path.as_slice())?;
    found.push(Found {
        literal: equation.number,
        equation: equation.lit,
        side: equation.side,
        place: target.number,
        target: target.lit,
        place_side: target.side,
        path,
        term: spot.term,
    })?;
    Ok(())
}

/// Appends the members in a side of a literal that are due.
fn put_side(
    alloc: Global,
    bank: &Bank,
    equation: &Equation,
    target: &Target,
    found: &mut Vec<Found>,
) -> Result<(), AllocError>
    requires equation { IsLitOf bank.now equation.now.lit }
    requires target { IsLitOf bank.now target.now.lit }
    ensures found { OnOk result (map (member_read bank.now) found.new.items ≡ map (member_read bank.now) found.old.items ++ flat_map (member_at equation.now.number (literal_at bank.now equation.now.lit) equation.now.side target.now.number (literal_at bank.now target.now.lit) target.now.side) (places (side_of_tree target.now.side (literal_at bank.now target.now.lit)))) }
{
    let spots = places_of(alloc, bank, side_of(&target.lit, target.side))?;
    for spot in spots.as_slice() {
        put_spot(alloc, bank, equation, target, spot, found)?;
    }
    Ok(())
}

/// Appends the members in a literal that are due.
fn put_target(
    alloc: Global,
    bank: &Bank,
    truths: &Truths,
    equation: &Equation,
    number: usize,
    lit: Lit,
    found: &mut Vec<Found>,
) -> Result<(), AllocError>
    requires truths { AreTruths bank.now truths.now }
    requires equation { IsLitOf bank.now equation.now.lit }
    requires lit { IsLitOf bank.now lit }
    ensures found { OnOk result (map (member_read bank.now) found.new.items ≡ map (member_read bank.now) found.old.items ++ members_of_target equation.now.number (literal_at bank.now equation.now.lit) equation.now.side number (literal_at bank.now lit)) }
{
    let left = Target {
        number,
        lit,
        side: Side::Left,
    };
    put_side(alloc, bank, equation, &left, found)?;
    if is_formula(bank, truths, &left.lit) {
        return Ok(());
    }
    let right = Target {
        number: left.number,
        lit: left.lit,
        side: Side::Right,
    };
    put_side(alloc, bank, equation, &right, found)?;
    Ok(())
}

/// Appends the members of a side of an equation that are due in any literal.
fn put_equation_side(
    alloc: Global,
    bank: &Bank,
    truths: &Truths,
    equation: &Equation,
    targets: &[Lit],
    found: &mut Vec<Found>,
) -> Result<(), AllocError>
    requires truths { AreTruths bank.now truths.now }
    requires equation { IsLitOf bank.now equation.now.lit }
    requires targets { AreLiteralsOf bank.now targets.now }
    ensures found { OnOk result (map (member_read bank.now) found.new.items ≡ map (member_read bank.now) found.old.items ++ each_literal (members_of_target equation.now.number (literal_at bank.now equation.now.lit) equation.now.side) 0 (map (literal_at bank.now) targets.now)) }
{
    for number in 0..targets.len() {
        put_target(
            alloc,
            bank,
            truths,
            equation,
            number,
            targets[number],
            found,
        )?;
    }
    Ok(())
}

/// Appends the members of an equation that are due.
fn put_equation(
    alloc: Global,
    bank: &Bank,
    truths: &Truths,
    number: usize,
    lit: Lit,
    targets: &[Lit],
    found: &mut Vec<Found>,
) -> Result<(), AllocError>
    requires truths { AreTruths bank.now truths.now }
    requires lit { IsLitOf bank.now lit }
    requires targets { AreLiteralsOf bank.now targets.now }
    ensures found { OnOk result (map (member_read bank.now) found.new.items ≡ map (member_read bank.now) found.old.items ++ members_of_equation (map (literal_at bank.now) targets.now) number (literal_at bank.now lit)) }
{
    let left = Equation {
        number,
        lit,
        side: Side::Left,
    };
    if !left.lit.pos {
        return Ok(());
    }
    put_equation_side(alloc, bank, truths, &left, targets, found)?;
    if is_formula(bank, truths, &left.lit) {
        return Ok(());
    }
    let right = Equation {
        number: left.number,
        lit: left.lit,
        side: Side::Right,
    };
    put_equation_side(alloc, bank, truths, &right, targets, found)?;
    Ok(())
}

/// The members that are due from some literals into others, in their order.
pub(crate) fn members_of(
    alloc: Global,
    bank: &Bank,
    truths: &Truths,
    equations: &[Lit],
    targets: &[Lit],
) -> Result<Vec<Found>, AllocError>
    requires truths { AreTruths bank.now truths.now }
    requires equations { AreLiteralsOf bank.now equations.now }
    requires targets { AreLiteralsOf bank.now targets.now }
    ensures found { IfOk result (λ found. map (member_read bank.now) found.items ≡ each_literal (members_of_equation (map (literal_at bank.now) targets.now)) 0 (map (literal_at bank.now) equations.now)) }
{
    let mut found = Vec::new(alloc);
    for number in 0..equations.len() {
        put_equation(
            alloc,
            bank,
            truths,
            number,
            equations[number],
            targets,
            &mut found,
        )?;
    }
    Ok(found)
}

/// The paramodulations that are due from one clause into another, in their order: by the equation and its side, then by
/// the literal, its side and the place in it. The bank gains T and F at most.
///
/// # Errors
///
/// Want of memory, also where a term is deeper than [`leo_terms::DEPTH`] levels.
pub(crate) fn members(
    alloc: Global,
    bank: &mut Bank,
    from: &Clause,
    into: &Clause,
) -> Result<Vec<Found>, AllocError>
    requires from { IsClauseOf bank.old from.now }
    requires into { IsClauseOf bank.old into.now }
    ensures members { IfOk result (λ found. map (member_read bank.new) found.items ≡ due_members (clause_at bank.old from.now) (clause_at bank.old into.now)) }
    ensures grows { Extends bank.old bank.new }
{
    bank.is_sound();
    let truths = make_truths(bank)?;
    let found = members_of(
        alloc,
        bank,
        &truths,
        from.lits.as_slice(),
        into.lits.as_slice(),
    )?;
    Ok(found)
}
