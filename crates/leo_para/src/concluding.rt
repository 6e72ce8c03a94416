//! The step of a member: its conclusion and its record.

ghost use Rattle.std.specs.Prelude.{◌≡◌, ◌<◌, ◌++◌, ◌-◌, IfOk, Some, length, suc, take, drop};
ghost use Rattle.leo_terms.specs.Contents.{Extends, tree_at};
ghost use Rattle.leo_clause.specs.Trees.{literal_at};
ghost use Rattle.leo_clause.specs.Typed.{AreLiteralsOf, AreTypesOf, IsClauseOf};
ghost use Rattle.leo_kernel.specs.ByNumber.{other_side_number};
ghost use Rattle.leo_kernel.specs.Moved.{joined};
ghost use Rattle.leo_para.specs.Concluding.{Fits, IsConcluded, IsConstraint, IsStep, LeadsIn, rule_of as rule_of_member};
ghost use Rattle.leo_para.specs.Found.{IsLitOf};

use crate::due::{Found, side_of};
use crate::member::Due;
use crate::replacing::{replaced_in, subterm};
use leo_clause::{Clause, Lit, Rule, Side, StepRecord};
use leo_items::Items;
use leo_terms::{Bank, TermId, TyId};
use std::alloc::{AllocError, Global};

/// The side of a literal that is not named.
fn other_side_of(lit: &Lit, side: Side) -> TermId
    ensures { result ≡ other_side_number side lit.now }
{
    match side {
        Side::Left => lit.right,
        Side::Right => lit.left,
    }
}

/// Types, and others behind them.
fn joined_types(alloc: Global, types: &[TyId], more: &[TyId]) -> Result<Items<TyId>, AllocError>
    ensures { IfOk result (λ ts. ts ≡ types.now ++ more.now) }
{
    let mut all = Items::from_slice(alloc, types)?;
    all.append(Items::from_slice(alloc, more)?)?;
    Ok(all)
}

/// Literals, with new ones in the place of one.
fn with_lits(alloc: Global, lits: &[Lit], at: usize, new: &[Lit]) -> Result<Items<Lit>, AllocError>
    requires { at < length lits.now }
    ensures { IfOk result (λ ls. ls ≡ take at lits.now ++ (new.now ++ drop (suc at) lits.now)) }
{
    let (front, _) = lits.split_at(at);
    let (_, rest) = lits.split_at(at + 1);
    let mut placed = Items::from_slice(alloc, front)?;
    placed.append(Items::from_slice(alloc, new)?)?;
    placed.append(Items::from_slice(alloc, rest)?)?;
    Ok(placed)
}

/// The literals of a clause without one, behind them those of another with a new one in the place of one, and a last one.
fn joined_lits(
    alloc: Global,
    source: &[Lit],
    place: usize,
    target: &[Lit],
    target_place: usize,
    new: Lit,
    last: Lit,
) -> Result<Items<Lit>, AllocError>
    requires place { place < length source.now }
    requires target_place { target_place < length target.now }
    ensures { IfOk result (λ ls. ls ≡ joined source.now place target.now target_place new last) }
{
    let mut lits = with_lits(alloc, source, place, &[])?;
    let others = with_lits(alloc, target, target_place, &[new])?;
    lits.append(others)?;
    lits.push(last)?;
    Ok(lits)
}

/// The literal that is to be solved: a side of the equation is not what stands at the place.
fn constraint(bank: &Bank, member: &Found, there: &Lit) -> Lit
    requires equation { IsLitOf bank.now member.now.equation }
    requires place { IsLitOf bank.now there.now }
    requires leads { LeadsIn bank.now member.now there.now }
    ensures made { IsConstraint bank.now member.now there.now result }
{
    let whole = side_of(there, member.place_side);
    match subterm(bank, whole, member.path.as_slice()) {
        Some(right) => Lit {
            pos: false,
            left: side_of(&member.equation, member.side),
            right,
        },
        None => unreachable!(),
    }
}

/// The clause that a member's step concludes. The literals of the second clause are those whose variables were moved.
fn conclusion(
    alloc: Global,
    bank: &mut Bank,
    from: &Clause,
    into: &Clause,
    moved: &[Lit],
    member: &Found,
) -> Result<Clause, AllocError>
    requires from { IsClauseOf bank.old from.now }
    requires types { AreTypesOf bank.old into.now.vars }
    requires moved { AreLiteralsOf bank.old moved.now }
    requires fits { Fits bank.old from.now.lits moved.now member.now }
    ensures made { IfOk result (IsConcluded bank.old bank.new from.now into.now moved.now member.now) }
    ensures grows { Extends bank.old bank.new }
{
    bank.is_sound();
    let there = moved[member.place];
    let last = constraint(bank, member, &there);
    let by = other_side_of(&member.equation, member.side);
    let new = replaced_in(bank, &there, member.place_side, member.path.as_slice(), by)?;
    let vars = joined_types(alloc, from.vars.as_slice(), into.vars.as_slice())?;
    let lits = joined_lits(
        alloc,
        from.lits.as_slice(),
        member.literal,
        moved,
        member.place,
        new,
        last,
    )?;
    Ok(Clause { vars, lits })
}

/// A number as records have it.
fn narrow(number: usize) -> Result<u32, AllocError>
    ensures { IfOk result (λ n. n ≡ number) }
{
    match u32::try_from(number) {
        Ok(narrow) => Ok(narrow),
        Err(_) => Err(AllocError),
    }
}

/// The rule of a member's step, where line 0 has the equation and line 1 the place.
fn rule_of(alloc: Global, member: &Found) -> Result<Rule, AllocError>
    ensures { IfOk result (λ r. r ≡ rule_of_member member.now) }
{
    let lit = narrow(member.literal)?;
    let place = narrow(member.place)?;
    let path = Items::from_slice(alloc, member.path.as_slice())?;
    Ok(Rule::Para {
        from: 0,
        lit,
        side: member.side,
        target: 1,
        place,
        place_side: member.place_side,
        path,
    })
}

/// The number of the last of some literals.
fn number_of_last(lits: &[Lit]) -> Result<u32, AllocError>
    ensures { IfOk result (λ n. n ≡ length lits.now - 1) }
{
    narrow(lits.len().saturating_sub(1))
}

/// The step of a member.
pub(crate) fn due_of(
    alloc: Global,
    bank: &mut Bank,
    from: &Clause,
    into: &Clause,
    moved: &[Lit],
    member: &Found,
) -> Result<Due, AllocError>
    requires from { IsClauseOf bank.old from.now }
    requires types { AreTypesOf bank.old into.now.vars }
    requires moved { AreLiteralsOf bank.old moved.now }
    requires fits { Fits bank.old from.now.lits moved.now member.now }
    ensures made { IfOk result (IsStep bank.old bank.new from.now into.now moved.now member.now) }
    ensures grows { Extends bank.old bank.new }
{
    let clause = conclusion(alloc, bank, from, into, moved, member)?;
    let rule = rule_of(alloc, member)?;
    let last = number_of_last(clause.lits.as_slice())?;
    let mut records = Items::new(alloc);
    records.push(StepRecord { clause, rule })?;
    let pairs = Items::from_slice(alloc, &[last])?;
    Ok(Due { records, pairs })
}
