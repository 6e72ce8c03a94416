//! The state of the machine.

ghost use Rattle.std.specs.Prelude.{◌≡◌, IfOk, ◌+◌, ◌≤◌, ◌++◌, OnOk, length, map, take};
ghost use Rattle.fo_text.specs.Problems.{IsProblem};
ghost use Rattle.fo_super.specs.Passives.{IsFrontOf};
ghost use Rattle.fo_super.specs.Runs.{origin_of, search_of, IsState};
ghost use Rattle.fo_super.specs.Turns.{start as start_of, given as the_text, numbers_from};

use crate::member::FoMember;
use crate::notes::FoNotes;
use fo_terms::term::FoTerm;
use fo_text::problem::{FoClause, FoLit, FoProblem};
use sqlite_items::Items;
use std::alloc::{AllocError, Global};

/// Where a kept clause comes from.
#[derive(Drop)]
pub enum FoOrigin {
    /// The text of the problem.
    Given,
    /// A member, by an instance over variables of these sorts, with a term for each variable of the
    /// clause that is instanced.
    Concluded {
        member: FoMember,
        vars: Items<u32>,
        terms: Items<FoTerm>,
    },
}

/// The state of the machine on a problem: the kept clauses with their origins and notes on them, the
/// numbers of those that are passive, which rise, and how many turns were taken.
#[derive(Drop)]
pub struct FoState {
    pub problem: FoProblem,
    pub clauses: Items<FoClause>,
    pub origins: Items<FoOrigin>,
    pub notes: FoNotes,
    pub passive: Items<u32>,
    pub turns: u32,
}

/// A copy of a literal.
fn literal_copy(alloc: Global, literal: &FoLit) -> Result<FoLit, AllocError>
    ensures { IfOk result (λ l. l ≡ literal.now) }
{
    let left = literal.left.try_clone(alloc)?;
    let right = literal.right.try_clone(alloc)?;
    Ok(FoLit {
        pos: literal.pos,
        left,
        right,
    })
}

/// A copy of literals.
fn literal_copies(alloc: Global, literals: &[FoLit]) -> Result<Items<FoLit>, AllocError>
    ensures { IfOk result (λ ls. ls ≡ literals.now) }
{
    let mut copies = Items::new(alloc);
    for literal in literals {
        copies.push(literal_copy(alloc, literal)?)?;
    }
    Ok(copies)
}

/// A copy of a clause.
fn clause_copy(alloc: Global, clause: &FoClause) -> Result<FoClause, AllocError>
    ensures { IfOk result (λ c. c ≡ clause.now) }
{
    let vars = Items::from_slice(alloc, clause.vars.as_slice())?;
    let lits = literal_copies(alloc, clause.lits.as_slice())?;
    Ok(FoClause { vars, lits })
}

/// A copy of clauses.
fn clause_copies(alloc: Global, clauses: &[FoClause]) -> Result<Items<FoClause>, AllocError>
    ensures { IfOk result (λ cs. cs ≡ clauses.now) }
{
    let mut copies = Items::new(alloc);
    for clause in clauses {
        copies.push(clause_copy(alloc, clause)?)?;
    }
    Ok(copies)
}

/// The origins of the clauses of the text.
fn text_origins(alloc: Global, clauses: &[FoClause]) -> Result<Items<FoOrigin>, AllocError>
    ensures { IfOk result (λ os. map origin_of os ≡ map (λ c. the_text) clauses.now) }
{
    let mut origins = Items::new(alloc);
    for _ in clauses {
        origins.push(FoOrigin::Given)?;
    }
    Ok(origins)
}

/// Puts the numbers from one on at the end, so many.
pub(crate) fn push_numbers(
    from: u32,
    count: u32,
    numbers: &mut Items<u32>,
) -> Result<(), AllocError>
    requires { from + count ≤ 0xffffffff }
    ensures { OnOk result (numbers.new ≡ numbers.old ++ numbers_from from count) }
{
    for number in from..from + count {
        numbers.push(number)?;
    }
    Ok(())
}

/// Drops what is behind the first items, so many.
pub(crate) fn shorten<T: Drop>(items: &mut Items<T>, count: usize)
    requires { count ≤ length items.old }
    ensures { items.new ≡ take count items.old }
{
    for _ in count..items.len() {
        let _ = items.pop();
    }
}

impl FoState {
    /// The state at the start on a problem: every clause of the text is kept and passive.
    ///
    /// # Errors
    ///
    /// Want of memory.
    pub fn start(alloc: Global, problem: FoProblem) -> Result<FoState, AllocError>
        requires { IsProblem problem }
        ensures problem { IfOk result (λ s. s.problem ≡ problem) }
        ensures start { IfOk result (λ s. search_of s ≡ start_of problem) }
        ensures state { IfOk result IsState }
    {
        let clauses = clause_copies(alloc, problem.clauses.as_slice())?;
        let origins = text_origins(alloc, problem.clauses.as_slice())?;
        let notes = FoNotes::of(alloc, clauses.as_slice())?;
        let mut passive = Items::new(alloc);
        push_numbers(0, clauses.len() as u32, &mut passive)?;
        Ok(FoState {
            problem,
            clauses,
            origins,
            notes,
            passive,
            turns: 0,
        })
    }
}
