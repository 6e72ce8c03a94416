//! The kept clause of least number that is the same as a clause, or that subsumes it.

ghost use Rattle.std.specs.Prelude.{◌≡◌, ◌<◌, ◌≤◌, [], ◌∷◌, length, map, IfOk, IfSome, MatchOption, Some};
ghost use Rattle.std.specs.Bool.{Decides, OnFalse};
ghost use Rattle.leo_clause.specs.Trees.{clause_at, literal_at};
ghost use Rattle.leo_clause.specs.Typed.{AreLiteralsOf, IsClauseOf, IsTypedIn};
ghost use Rattle.leo_keep.specs.Fronts.{AreFronts, IsFront};
ghost use Rattle.leo_keep.specs.Groups.{AreFrontsIn, HasFront, IsLeastAmong, IsLeastInGroup, IsTarget};
ghost use Rattle.leo_keep.specs.Heads.{HaveHeads, NeverAmong};
ghost use Rattle.leo_keep.specs.Subsumption.{Subsumes};
ghost use Rattle.leo_keep.specs.Outcomes.{AreTypedIn, HoldsOfNone, IsLeast};

use crate::fronts::{Front, front_of, may_be_copy, may_start};
use crate::groups::{Fronts, Group, has_heads};
use crate::heads::{heads_of, may_be_among, may_send};
use crate::subsuming::subsumes;
use leo_clause::{Clause, Lit};
use leo_terms::{Bank, TyId};
use std::alloc::{AllocError, Global};

/// Whether two lists of literals are one.
fn same_lits(xs: &[Lit], ys: &[Lit]) -> bool
    ensures { Decides result (xs.now ≡ ys.now) }
{
    xs == ys
}

/// Whether two lists of types are one.
fn same_types(xs: &[TyId], ys: &[TyId]) -> bool
    ensures { Decides result (xs.now ≡ ys.now) }
{
    xs == ys
}

/// Whether two clauses are the same, literal for literal.
fn is_same(bank: &Bank, clause: &Clause, other: &Clause) -> bool
    requires clause { IsClauseOf bank.now clause.now }
    requires other { IsClauseOf bank.now other.now }
    ensures { Decides result (clause_at bank.now clause.now ≡ clause_at bank.now other.now) }
{
    bank.is_sound();
    if !same_lits(clause.lits.as_slice(), other.lits.as_slice()) {
        return false;
    }
    same_types(clause.vars.as_slice(), other.vars.as_slice())
}

/// The same of a clause with this front.
fn is_copy(bank: &Bank, front: &Option<Front>, clause: &Clause, other: &Clause) -> bool
    requires front { IsFront bank.now clause.now front.now }
    requires clause { IsClauseOf bank.now clause.now }
    requires other { IsClauseOf bank.now other.now }
    ensures { Decides result (clause_at bank.now clause.now ≡ clause_at bank.now other.now) }
{
    bank.is_sound();
    if !may_be_copy(front, other) {
        return false;
    }
    is_same(bank, clause, other)
}

/// The number of a kept clause, if it is less than `least` and the clause is the same; else `least`.
fn lesser_copy(
    bank: &Bank,
    kept: &[Clause],
    fronts: &[Option<Front>],
    number: u32,
    c: &Clause,
    least: u32,
) -> u32
    requires kept { AreTypedIn bank.now kept.now }
    requires fronts { AreFronts bank.now kept.now fronts.now }
    requires clause { IsTypedIn bank.now c.now }
    requires least { least ≤ length kept.now }
    ensures { IsLeastAmong (λ k. k ≡ clause_at bank.now c.now) (map (clause_at bank.now) kept.now) (number ∷ []) 1 least result }
{
    if number >= least {
        return least;
    }
    let at = number as usize;
    if is_copy(bank, &fronts[at], &kept[at], c) {
        number
    } else {
        least
    }
}

/// The least number below `before` of a kept clause that is the same, of these numbers; else `before`.
fn least_copy(
    bank: &Bank,
    kept: &[Clause],
    fronts: &[Option<Front>],
    numbers: &[u32],
    c: &Clause,
    before: u32,
) -> u32
    requires kept { AreTypedIn bank.now kept.now }
    requires fronts { AreFronts bank.now kept.now fronts.now }
    requires clause { IsTypedIn bank.now c.now }
    requires before { before ≤ length kept.now }
    ensures { IsLeastAmong (λ k. k ≡ clause_at bank.now c.now) (map (clause_at bank.now) kept.now) numbers.now (length numbers.now) before result }
{
    let mut least = before;
    for place in 0..numbers.len() {
        least = lesser_copy(bank, kept, fronts, numbers[place], c, least);
    }
    least
}

/// The same of a group, where the clause has this front.
fn least_copy_in(
    bank: &Bank,
    kept: &[Clause],
    fronts: &[Option<Front>],
    group: &Group,
    c: &Clause,
    front: &Front,
    before: u32,
) -> u32
    requires kept { AreTypedIn bank.now kept.now }
    requires fronts { AreFronts bank.now kept.now fronts.now }
    requires clause { IsTypedIn bank.now c.now }
    requires front { IsFront bank.now c.now (Some front.now) }
    requires before { before ≤ length kept.now }
    ensures { IsLeastInGroup (λ k. k ≡ clause_at bank.now c.now) (map (clause_at bank.now) kept.now) fronts.now group.now before result }
{
    bank.is_sound();
    if !has_heads(group, &front.heads) {
        return before;
    }
    least_copy(bank, kept, fronts, group.numbers.as_slice(), c, before)
}

/// The number below `end`, if it is one.
fn below(number: u32, end: u32) -> Option<u32>
    requires { number ≤ end }
    ensures { MatchOption result (number ≡ end) (λ n. (n ≡ number) × (number < end)) }
{
    if number < end { Some(number) } else { None }
}

/// The least number of a kept clause that is the same, where the clause has this front.
fn copied_with(
    bank: &Bank,
    kept: &[Clause],
    fronts: &Fronts,
    c: &Clause,
    front: &Front,
) -> Option<u32>
    requires kept { AreTypedIn bank.now kept.now }
    requires fronts { AreFronts bank.now kept.now fronts.now }
    requires few { length kept.now < 200000 }
    requires clause { IsTypedIn bank.now c.now }
    requires front { IsFront bank.now c.now (Some front.now) }
    ensures { MatchOption result (HoldsOfNone (λ k. k ≡ clause_at bank.now c.now) (map (clause_at bank.now) kept.now)) (IsLeast (λ k. k ≡ clause_at bank.now c.now) (map (clause_at bank.now) kept.now)) }
{
    let end = kept.len() as u32;
    let groups = fronts.groups();
    let mut least = end;
    for place in 0..groups.len() {
        let group = &groups[place];
        least = least_copy_in(bank, kept, fronts.as_slice(), group, c, front, least);
    }
    below(least, end)
}

/// The least number of a kept clause that is the same, where each is looked at.
fn first_copy(bank: &Bank, kept: &[Clause], fronts: &[Option<Front>], c: &Clause) -> Option<u32>
    requires kept { AreTypedIn bank.now kept.now }
    requires fronts { AreFronts bank.now kept.now fronts.now }
    requires few { length kept.now < 200000 }
    requires clause { IsTypedIn bank.now c.now }
    ensures { MatchOption result (HoldsOfNone (λ k. k ≡ clause_at bank.now c.now) (map (clause_at bank.now) kept.now)) (IsLeast (λ k. k ≡ clause_at bank.now c.now) (map (clause_at bank.now) kept.now)) }
{
    for number in 0..kept.len() {
        if is_copy(bank, &fronts[number], &kept[number], c) {
            return Some(number as u32);
        }
    }
    None
}

/// The least number of a kept clause that is the same.
pub(crate) fn copied(bank: &Bank, kept: &[Clause], fronts: &Fronts, c: &Clause) -> Option<u32>
    requires kept { AreTypedIn bank.now kept.now }
    requires fronts { AreFronts bank.now kept.now fronts.now }
    requires few { length kept.now < 200000 }
    requires clause { IsTypedIn bank.now c.now }
    ensures { MatchOption result (HoldsOfNone (λ k. k ≡ clause_at bank.now c.now) (map (clause_at bank.now) kept.now)) (IsLeast (λ k. k ≡ clause_at bank.now c.now) (map (clause_at bank.now) kept.now)) }
{
    match front_of(bank, c) {
        Some(front) => copied_with(bank, kept, fronts, c, &front),
        None => first_copy(bank, kept, fronts.as_slice(), c),
    }
}

/// A clause that another may subsume, with the heads of its literals.
#[derive(Clone, Copy)]
pub(crate) struct Target<'a> {
    pub(crate) clause: &'a Clause,
    pub(crate) heads: &'a [Lit],
}

/// Whether a clause with this front subsumes the target.
fn subsumes_with(
    alloc: Global,
    bank: &Bank,
    front: &Option<Front>,
    clause: &Clause,
    target: Target<'_>,
) -> Result<bool, AllocError>
    requires front { IsFront bank.now clause.now front.now }
    requires typed { IsTypedIn bank.now clause.now }
    requires target { IsTarget bank.now target }
    ensures { IfOk result (λ b. Decides b (Subsumes (clause_at bank.now clause.now) (clause_at bank.now target.entry.clause.now))) }
{
    if !may_start(bank, front, target.heads) {
        return Ok(false);
    }
    if !may_send(bank, clause.lits.as_slice(), target.heads) {
        return Ok(false);
    }
    let found = subsumes(alloc, bank, clause, target.clause)?;
    Ok(found)
}

/// The number of a kept clause, if it is less than `least` and the clause subsumes the target; else `least`.
fn lesser_subsuming(
    alloc: Global,
    bank: &Bank,
    kept: &[Clause],
    fronts: &[Option<Front>],
    number: u32,
    target: Target<'_>,
    least: u32,
) -> Result<u32, AllocError>
    requires kept { AreTypedIn bank.now kept.now }
    requires fronts { AreFronts bank.now kept.now fronts.now }
    requires target { IsTarget bank.now target }
    requires least { least ≤ length kept.now }
    ensures { IfOk result (IsLeastAmong (λ k. Subsumes k (clause_at bank.now target.entry.clause.now)) (map (clause_at bank.now) kept.now) (number ∷ []) 1 least) }
{
    if number >= least {
        return Ok(least);
    }
    let at = number as usize;
    let found = subsumes_with(alloc, bank, &fronts[at], &kept[at], target)?;
    if found { Ok(number) } else { Ok(least) }
}

/// The least number below `before` of a kept clause that subsumes the target, of these numbers; else `before`.
fn least_subsuming(
    alloc: Global,
    bank: &Bank,
    kept: &[Clause],
    fronts: &[Option<Front>],
    numbers: &[u32],
    target: Target<'_>,
    before: u32,
) -> Result<u32, AllocError>
    requires kept { AreTypedIn bank.now kept.now }
    requires fronts { AreFronts bank.now kept.now fronts.now }
    requires target { IsTarget bank.now target }
    requires before { before ≤ length kept.now }
    ensures { IfOk result (IsLeastAmong (λ k. Subsumes k (clause_at bank.now target.entry.clause.now)) (map (clause_at bank.now) kept.now) numbers.now (length numbers.now) before) }
{
    let mut least = before;
    for place in 0..numbers.len() {
        let number = numbers[place];
        least = lesser_subsuming(alloc, bank, kept, fronts, number, target, least)?;
    }
    Ok(least)
}

/// The front of the first clause of a group, if it still stands.
fn front_in<'a>(fronts: &'a [Option<Front>], group: &Group) -> Option<&'a Front>
    ensures { IfSome result (λ f. HasFront fronts.now f.now) }
{
    let number = group.numbers.as_slice().first()?;
    fronts.get(*number as usize)?.as_ref()
}

/// Whether a clause whose first literal has the heads of a group may subsume one with those heads.
fn may_group_start(bank: &Bank, fronts: &[Option<Front>], group: &Group, heads: &[Lit]) -> bool
    requires fronts { AreFrontsIn bank.now fronts.now }
    requires heads { AreLiteralsOf bank.now heads.now }
    ensures { OnFalse result (NeverAmong bank.now group.now.heads heads.now) }
{
    match front_in(fronts, group) {
        Some(front) => !has_heads(group, &front.heads) || may_be_among(bank, &front.heads, heads),
        None => true,
    }
}

/// The same as `least_subsuming`, of a group.
fn least_subsuming_in(
    alloc: Global,
    bank: &Bank,
    kept: &[Clause],
    fronts: &[Option<Front>],
    group: &Group,
    target: Target<'_>,
    before: u32,
) -> Result<u32, AllocError>
    requires kept { AreTypedIn bank.now kept.now }
    requires fronts { AreFronts bank.now kept.now fronts.now }
    requires target { IsTarget bank.now target }
    requires before { before ≤ length kept.now }
    ensures { IfOk result (IsLeastInGroup (λ k. Subsumes k (clause_at bank.now target.entry.clause.now)) (map (clause_at bank.now) kept.now) fronts.now group.now before) }
{
    if !may_group_start(bank, fronts, group, target.heads) {
        return Ok(before);
    }
    let numbers = group.numbers.as_slice();
    let least = least_subsuming(alloc, bank, kept, fronts, numbers, target, before)?;
    Ok(least)
}

/// The least number of a kept clause that subsumes the target.
fn subsuming_target(
    alloc: Global,
    bank: &Bank,
    kept: &[Clause],
    fronts: &Fronts,
    target: Target<'_>,
) -> Result<Option<u32>, AllocError>
    requires kept { AreTypedIn bank.now kept.now }
    requires fronts { AreFronts bank.now kept.now fronts.now }
    requires few { length kept.now < 200000 }
    requires target { IsTarget bank.now target }
    ensures { IfOk result (λ o. MatchOption o (HoldsOfNone (λ k. Subsumes k (clause_at bank.now target.entry.clause.now)) (map (clause_at bank.now) kept.now)) (IsLeast (λ k. Subsumes k (clause_at bank.now target.entry.clause.now)) (map (clause_at bank.now) kept.now))) }
{
    let end = kept.len() as u32;
    let groups = fronts.groups();
    let mut least = end;
    for place in 0..groups.len() {
        let group = &groups[place];
        least = least_subsuming_in(alloc, bank, kept, fronts.as_slice(), group, target, least)?;
    }
    let number = below(least, end);
    Ok(number)
}

/// The least number of a kept clause that subsumes the clause.
pub(crate) fn subsuming(
    alloc: Global,
    bank: &Bank,
    kept: &[Clause],
    fronts: &Fronts,
    c: &Clause,
) -> Result<Option<u32>, AllocError>
    requires kept { AreTypedIn bank.now kept.now }
    requires fronts { AreFronts bank.now kept.now fronts.now }
    requires few { length kept.now < 200000 }
    requires clause { IsTypedIn bank.now c.now }
    ensures { IfOk result (λ o. MatchOption o (HoldsOfNone (λ k. Subsumes k (clause_at bank.now c.now)) (map (clause_at bank.now) kept.now)) (IsLeast (λ k. Subsumes k (clause_at bank.now c.now)) (map (clause_at bank.now) kept.now))) }
{
    let heads = heads_of(alloc, bank, c.lits.as_slice())?;
    let target = Target {
        clause: c,
        heads: heads.as_slice(),
    };
    let found = subsuming_target(alloc, bank, kept, fronts, target)?;
    Ok(found)
}
