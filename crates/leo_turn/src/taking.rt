//! Taking in a clause.

ghost use Rattle.std.specs.Prelude.{◌≡◌, ◌+◌, ◌<◌, length, IfOk, OnOk, OnErr, None};
ghost use Rattle.leo_terms.specs.Contents.{Extends};
ghost use Rattle.leo_clause.specs.Trees.{clause_at};
ghost use Rattle.leo_kernel.specs.Steps.{clause_of};
ghost use Rattle.leo_turn.specs.Changing.{IsConverted};
ghost use Rattle.leo_turn.specs.Growth.{Grows};
ghost use Rattle.leo_turn.specs.Intakes.{Intakes, limit_if, normal_clause};
ghost use Rattle.leo_turn.specs.Searches.{IsSearch, choices_of, kept_of, lines_of};

use crate::choices::introduce_all;
use crate::keeping::take_leaves;
use crate::marks::{cut, marked};
use crate::normal::normal;
use crate::search::Search;
use leo_clause::{Clause, Rule, StepRecord};
use leo_clausify::{Split, split};
use leo_terms::Bank;
use std::alloc::{AllocError, Global};

/// Appends the normal form of the clause of a line to the journal.
fn convert(
    alloc: Global,
    bank: &mut Bank,
    search: &mut Search,
    line: u64,
) -> Result<Clause, AllocError>
    requires search { IsSearch bank.old search.old }
    requires line { line < length search.old.lines }
    ensures converted { IfOk result (λ k. IsConverted bank.old bank.new search.old search.new line k) }
    ensures longer { Grows search.old search.new }
    ensures grows { Extends bank.old bank.new }
{
    bank.is_sound();
    let clause = normal(alloc, bank, &search.lines.as_slice()[line as usize].clause)?;
    let copy = clause.copy(alloc)?;
    search.lines.push(StepRecord {
        clause: copy,
        rule: Rule::Convert { parent: line },
    })?;
    Ok(clause)
}

/// The limit on weights, where it is asked.
fn limit(search: &Search, heavy: bool) -> Option<u16>
    ensures { result ≡ limit_if heavy search.now.weight }
{
    if heavy { Some(search.weight) } else { None }
}

/// Takes in the clause of a line, but leaves what was added where there is no memory.
fn take_in(
    alloc: Global,
    bank: &mut Bank,
    search: &mut Search,
    line: u64,
    heavy: bool,
) -> Result<(), AllocError>
    requires search { IsSearch bank.old search.old }
    requires line { line < length search.old.lines }
    ensures search { IfOk result (λ _. IsSearch bank.new search.new) }
    ensures intakes { IfOk result (λ _. Intakes (length bank.old.symbols) (limit_if heavy search.old.weight) (kept_of bank.old search.old) (choices_of bank.old search.old) (clause_of (lines_of bank.old search.old) line) (kept_of bank.new search.new) (choices_of bank.new search.new)) }
    ensures longer { Grows search.old search.new }
    ensures grows { Extends bank.old bank.new }
{
    let limit = limit(search, heavy);
    let start = search.lines.len() as u64;
    let clause = convert(alloc, bank, search, line)?;
    let mut abbr = search.abbr.copy(alloc)?;
    match split(alloc, bank, &mut abbr, &clause)? {
        Split::Room => Ok(()),
        Split::Clauses(leaves) => {
            introduce_all(alloc, bank, search, abbr.items.as_slice())?;
            take_leaves(alloc, bank, search, leaves.as_slice(), start, limit)?;
            Ok(())
        }
    }
}

/// Takes in the clause of a line of the journal: it is brought to normal form and split, and each leaf in order is kept
/// if that is its outcome against all clauses that are kept by then; its weight counts only where `heavy` is true. A kept
/// leaf becomes the last kept clause and is passive, with its records in the journal. Answers how many were kept. Each list
/// of the search grows at its end at most, and the bank gains terms and symbols.
///
/// # Errors
///
/// Want of memory, also where a term is deeper than [`leo_terms::DEPTH`] levels. The search is as before then.
pub fn intake(
    alloc: Global,
    bank: &mut Bank,
    search: &mut Search,
    line: u64,
    heavy: bool,
) -> Result<u32, AllocError>
    requires search { IsSearch bank.old search.old }
    requires line { line < length search.old.lines }
    ensures search { IsSearch bank.new search.new }
    ensures intakes { IfOk result (λ _. Intakes (length bank.old.symbols) (limit_if heavy search.old.weight) (kept_of bank.old search.old) (choices_of bank.old search.old) (clause_of (lines_of bank.old search.old) line) (kept_of bank.new search.new) (choices_of bank.new search.new)) }
    ensures count { IfOk result (λ n. length search.new.kept ≡ length search.old.kept + n) }
    ensures longer { Grows search.old search.new }
    ensures err { OnErr result (search.new ≡ search.old) }
    ensures grows { Extends bank.old bank.new }
{
    let before = marked(search);
    match take_in(alloc, bank, search, line, heavy) {
        Ok(()) => Ok(search.kept.clauses().len() as u32 - before.kept),
        Err(error) => {
            cut(search, before);
            Err(error)
        }
    }
}
