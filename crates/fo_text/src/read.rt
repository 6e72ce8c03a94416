//! Reading problems.

ghost use Rattle.std.specs.Prelude.{◌≡◌, ◌≤◌, ◌++◌, length, IfOk, IfErr, List, ℕ};
ghost use Rattle.std.specs.List.{AllByRecursion};
ghost use Rattle.fo_text.specs.Words.{most_number};
ghost use Rattle.fo_text.specs.Reads.{IsStop};
ghost use Rattle.fo_text.specs.Refusals.{IsRefusal};
ghost use Rattle.fo_text.specs.Pieces.{HasFewArgs};
ghost use Rattle.fo_text.specs.Problems.{AreSyms, AreClauses, IsProblem};
ghost use Rattle.fo_text.specs.Spellings.{syms_text, clauses_text, problem_text};
ghost use Rattle.fo_text.specs.Texts.{IsProblemText};
ghost use Rattle.fo_text.specs.declared.problem.FoProblem.{FoProblem};
ghost use Rattle.fo_text.specs.declared.problem.FoSym.{FoSym};

use crate::clauses::{clauses, most_if};
use crate::field::{field, keyword};
use crate::problem::{FoClause, FoProblem, FoSym};
use crate::refusal::{FoRefusal, Stop};
use crate::symbols::symbols;
use sqlite_items::Items;
use std::alloc::Global;

/// The symbols with their count.
fn counted_symbols(alloc: Global, input: &[u8], sorts: u32) -> Result<(Items<FoSym>, &[u8]), Stop>
    requires { sorts ≤ most_number }
    ensures syms { IfOk result (λ x. AreSyms sorts x.0) }
    ensures few { IfOk result (λ x. AllByRecursion HasFewArgs x.0) }
    ensures read { IfOk result (λ x. input.now ≡ syms_text x.0 ++ x.1.now) }
    ensures refused { IfErr result (IsStop (AreSyms sorts) syms_text input.now) }
{
    let (count, behind) = field(input, b"syms ", 0, most_if(sorts > 0))?;
    let (syms, rest) = symbols(alloc, behind, count, sorts)?;
    Ok((syms, rest))
}

/// The clauses with their count.
fn counted_clauses<'a>(
    alloc: Global,
    input: &'a [u8],
    sorts: u32,
    syms: &[FoSym],
) -> Result<(Items<FoClause>, &'a [u8]), Stop>
    requires sorts { sorts ≤ most_number }
    requires syms { AreSyms sorts syms.now }
    requires few { AllByRecursion HasFewArgs syms.now }
    ensures clauses { IfOk result (λ x. AreClauses sorts syms.now x.0) }
    ensures read { IfOk result (λ x. input.now ≡ clauses_text x.0 ++ x.1.now) }
    ensures refused { IfErr result (IsStop (AreClauses sorts syms.now) clauses_text input.now) }
{
    let (count, behind) = field(input, b"clauses ", 0, 999_999_999)?;
    let (list, rest) = clauses(alloc, behind, count, sorts, syms)?;
    Ok((list, rest))
}

/// The problem at the front.
fn problem(alloc: Global, input: &[u8]) -> Result<(FoProblem, &[u8]), Stop>
    ensures problem { IfOk result (λ x. IsProblem x.0) }
    ensures read { IfOk result (λ x. input.now ≡ problem_text x.0 ++ x.1.now) }
    ensures refused { IfErr result (IsStop IsProblem problem_text input.now) }
{
    let (turns, one) = field(input, b"leo3fo 1\nturns ", 1, 999_999_999)?;
    let (weight, two) = field(one, b"weight ", 1, 999_999_999)?;
    let (sorts, three) = field(two, b"sorts ", 0, 999_999_999)?;
    let (syms, four) = counted_symbols(alloc, three, sorts)?;
    let (clauses, five) = counted_clauses(alloc, four, sorts, syms.as_slice())?;
    let rest = keyword(five, b"end\n")?;
    let found = FoProblem {
        turns,
        weight,
        sorts,
        syms,
        clauses,
    };
    Ok((found, rest))
}

/// Reads a problem text. Where the input is one, its problem is read; no other problem has that text.
///
/// The time is linear in the length of a text that is read. Where one is refused in a clause, the
/// symbols are looked through forth and back until no sort with a term is found anew: twice or three
/// times where each symbol stands behind those that give its arguments' sorts, or each before them.
///
/// # Errors
///
/// - [`FoRefusal::Bad`] with the first byte with which no problem text goes on, conditions on
///   numbers and sorts included, or the length of an input that ends early.
/// - [`FoRefusal::Memory`].
pub fn read_problem(alloc: Global, bytes: &[u8]) -> Result<FoProblem, FoRefusal>
    ensures read { IfOk result (λ p. IsProblem p × (bytes.now ≡ problem_text p)) }
    ensures refused { IfErr result (IsRefusal IsProblemText bytes.now) }
{
    match problem(alloc, bytes) {
        Ok((found, [])) => Ok(found),
        Ok((_, rest)) => Err(FoRefusal::Bad {
            byte: bytes.len() - rest.len(),
        }),
        Err(Stop::At { left }) => Err(FoRefusal::Bad {
            byte: bytes.len() - left,
        }),
        Err(Stop::NoRoom) => Err(FoRefusal::Memory),
    }
}

/// A law: no two problems have one text.
pub fn problem_texts_are_unique()
    ensures { (p q : FoProblem) → IsProblem p → IsProblem q → problem_text p ≡ problem_text q → p ≡ q }
{}
