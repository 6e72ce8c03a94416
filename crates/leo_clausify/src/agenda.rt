//! The clauses that are still to be split, the last one first, and those that are leaves.

ghost use Rattle.std.specs.Prelude.{◌≡◌, ◌<◌, ℕ, [], length, map, slice_get, Some, IfOk, OnOk, MatchOption};
ghost use Rattle.leo_terms.specs.Contents.{Extends};
ghost use Rattle.leo_clause.specs.Trees.{literal_at};
ghost use Rattle.leo_clause.specs.Typed.{AreLiteralsOf};
ghost use Rattle.leo_clausify.specs.Agendas.{IsAgenda, IsFirstOf, Progresses, with_pending};
ghost use Rattle.leo_clausify.specs.Branches.{IsBranch};
ghost use Rattle.leo_clausify.specs.Forms.{forms_of, one_form, two_forms};
ghost use Rattle.leo_clausify.specs.Reducing.{HasRow, is_form};
ghost use Rattle.leo_clausify.specs.Splitting.{AreReduced};
ghost use Rattle.leo_clausify.specs.Ways.{IsWayOf, form_of, way_at};

use crate::branch::Branch;
use crate::closing::arranged_branch;
use crate::reducing::reduced;
use crate::ways::{Way, Ways, ways_of};
use leo_clause::{Abbr, Lit};
use leo_items::Items;
use leo_terms::Bank;
use std::alloc::{AllocError, Global};

/// How many leaves a clause may have.
const LEAVES: usize = 256;

/// A split that is under way.
#[derive(Drop)]
pub(crate) struct Agenda {
    /// The branches that may still be reduced; the last one comes first.
    pub pending: Items<Branch>,
    /// The leaves, in order and in arranged form.
    pub finished: Items<Branch>,
    pub choices: Abbr,
}

/// How a step went.
#[derive(Clone, Copy, Debug, PartialEq, Eq)]
pub(crate) enum Progress {
    More,
    Done,
    Full,
}

/// Whether a literal can be reduced.
fn is_reducible(bank: &Bank, lit: &Lit) -> bool
    requires left { lit.now.left < length bank.now.terms }
    requires right { lit.now.right < length bank.now.terms }
    ensures { result ≡ is_form (forms_of (literal_at bank.now lit.now)) }
{
    match ways_of(bank, lit) {
        Ways::Nothing => false,
        Ways::One(_) => true,
        Ways::Two(_, _) => true,
    }
}

/// The first literal that can be reduced.
fn first_reducible(bank: &Bank, lits: &[Lit]) -> Option<usize>
    requires { AreLiteralsOf bank.now lits.now }
    ensures { MatchOption result (AreReduced (map (literal_at bank.now) lits.now)) (IsFirstOf bank.now lits.now) }
{
    for at in 0..lits.len() {
        if is_reducible(bank, &lits[at]) {
            return Some(at);
        }
    }
    None
}

impl Agenda {
    /// A branch in which nothing can be reduced is a leaf, if there is room for one more.
    fn finish(
        &mut self,
        alloc: Global,
        bank: &mut Bank,
        branch: Branch,
    ) -> Result<Progress, AllocError>
        requires agenda { IsAgenda bank.old self.old }
        requires branch { IsBranch bank.old branch }
        requires reduced { AreReduced (map (literal_at bank.old) branch.clause.lits) }
        ensures progress { IfOk result (Progresses bank.old bank.new (with_pending self.old branch) self.new) }
        ensures grows { Extends bank.old bank.new }
    {
        bank.is_sound();
        if self.finished.len() >= LEAVES {
            return Ok(Progress::Full);
        }
        let leaf = arranged_branch(alloc, bank, branch)?;
        self.finished.push(leaf)?;
        Ok(Progress::More)
    }

    /// The first literal that can be reduced has one form.
    fn reduce_to_one(
        &mut self,
        alloc: Global,
        bank: &mut Bank,
        branch: Branch,
        at: u32,
        way: &Way,
    ) -> Result<(), AllocError>
        requires agenda { IsAgenda bank.old self.old }
        requires branch { IsBranch bank.old branch }
        requires way { IsWayOf bank.old way.now }
        requires row { HasRow bank.old branch at (way_at bank.old way.now) }
        requires first { IsFirstOf bank.old branch.clause.lits at }
        requires form { (l : Lit) → slice_get branch.clause.lits at ≡ Some l → forms_of (literal_at bank.old l) ≡ one_form (form_of (way_at bank.old way.now)) }
        ensures progress { OnOk result (Progresses bank.old bank.new (with_pending self.old branch) self.new Progress.More) }
        ensures grows { Extends bank.old bank.new }
    {
        bank.is_sound();
        let next = reduced(alloc, bank, &mut self.choices, branch, at, way)?;
        self.pending.push(next)?;
        Ok(())
    }

    /// It has two forms; the first comes first.
    fn reduce_to_two(
        &mut self,
        alloc: Global,
        bank: &mut Bank,
        branch: Branch,
        at: u32,
        first: &Way,
        second: &Way,
    ) -> Result<(), AllocError>
        requires agenda { IsAgenda bank.old self.old }
        requires branch { IsBranch bank.old branch }
        requires first_way { IsWayOf bank.old first.now }
        requires second_way { IsWayOf bank.old second.now }
        requires first_row { HasRow bank.old branch at (way_at bank.old first.now) }
        requires second_row { HasRow bank.old branch at (way_at bank.old second.now) }
        requires first { IsFirstOf bank.old branch.clause.lits at }
        requires forms { (l : Lit) → slice_get branch.clause.lits at ≡ Some l → forms_of (literal_at bank.old l) ≡ two_forms (form_of (way_at bank.old first.now)) (form_of (way_at bank.old second.now)) }
        ensures progress { OnOk result (Progresses bank.old bank.new (with_pending self.old branch) self.new Progress.More) }
        ensures grows { Extends bank.old bank.new }
    {
        bank.is_sound();
        let copy = branch.copy(alloc)?;
        let one = reduced(alloc, bank, &mut self.choices, branch, at, first)?;
        let other = reduced(alloc, bank, &mut self.choices, copy, at, second)?;
        self.pending.push(other)?;
        self.pending.push(one)?;
        Ok(())
    }

    /// The first literal that can be reduced takes its forms.
    fn reduce(
        &mut self,
        alloc: Global,
        bank: &mut Bank,
        branch: Branch,
        at: usize,
    ) -> Result<(), AllocError>
        requires agenda { IsAgenda bank.old self.old }
        requires branch { IsBranch bank.old branch }
        requires first { IsFirstOf bank.old branch.clause.lits at }
        ensures progress { OnOk result (Progresses bank.old bank.new (with_pending self.old branch) self.new Progress.More) }
        ensures grows { Extends bank.old bank.new }
    {
        bank.is_sound();
        let number = numbered(at)?;
        let lit = branch.clause.lits.as_slice()[at];
        match ways_of(bank, &lit) {
            Ways::Nothing => unreachable!(),
            Ways::One(way) => {
                self.reduce_to_one(alloc, bank, branch, number, &way)?;
                Ok(())
            }
            Ways::Two(first, second) => {
                self.reduce_to_two(alloc, bank, branch, number, &first, &second)?;
                Ok(())
            }
        }
    }

    /// One step: the branch that comes first is reduced once, or is a leaf.
    pub(crate) fn advance(&mut self, alloc: Global, bank: &mut Bank) -> Result<Progress, AllocError>
        requires { IsAgenda bank.old self.old }
        ensures progress { IfOk result (Progresses bank.old bank.new self.old self.new) }
        ensures grows { Extends bank.old bank.new }
    {
        bank.is_sound();
        match self.pending.pop() {
            None => Ok(Progress::Done),
            Some(branch) => match first_reducible(bank, branch.clause.lits.as_slice()) {
                None => {
                    let progress = self.finish(alloc, bank, branch)?;
                    Ok(progress)
                }
                Some(at) => {
                    self.reduce(alloc, bank, branch, at)?;
                    Ok(Progress::More)
                }
            },
        }
    }
}

/// A literal's number as records have it. Where it does not fit there is no memory for it.
fn numbered(at: usize) -> Result<u32, AllocError>
    ensures { IfOk result (λ n. n ≡ at) }
{
    let Ok(number) = u32::try_from(at) else {
        return Err(AllocError);
    };
    Ok(number)
}
