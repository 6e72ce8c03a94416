//! Which leaves are kept.

ghost use Rattle.std.specs.Prelude.{◌≡◌, ◌<◌, length, map, IfOk, OnOk};
ghost use Rattle.std.specs.Bool.{Decides};
ghost use Rattle.leo_clausify.specs.Leaves.{leaf_clause};
ghost use Rattle.leo_keep.specs.declared.outcomes.Outcome.TheVariants as variant;
ghost use Rattle.leo_passive.specs.Entries.{AreBelow};
ghost use Rattle.leo_turn.specs.Changing.{AreLeavesOf, IsKept, IsLeafAt, HasSameSymbols, with_clause};
ghost use Rattle.leo_turn.specs.Growth.{Grows};
ghost use Rattle.leo_turn.specs.Intakes.{Takes, TakesAll};
ghost use Rattle.leo_turn.specs.Searches.{IsSearch, kept_of};

use crate::journal::{append_records, with_number};
use crate::search::Search;
use leo_clause::{Clause, weight};
use leo_clausify::Leaf;
use leo_keep::{Front, Outcome, front_of, outcome};
use leo_terms::Bank;
use std::alloc::{AllocError, Global};

/// Puts a clause with this front, which the line has, at the end of the kept clauses, and among the passive ones with its
/// weight.
fn keep(
    search: &mut Search,
    clause: Clause,
    front: Option<Front>,
    line: u64,
    weight: u64,
) -> Result<(), AllocError>
    requires few { length search.old.kept < 200000 }
    requires below { AreBelow (length search.old.kept) search.old.passive }
    ensures kept { OnOk result (search.new ≡ with_clause search.old clause front line weight) }
    ensures longer { Grows search.old search.new }
{
    let number = search.kept.clauses().len() as u32;
    search.at.push(line)?;
    search.fronts.add(front)?;
    search.passive.add(number, weight)?;
    match search.kept.add(clause) {
        Ok(_) => Ok(()),
        Err(error) => {
            search.passive.remove(number);
            Err(error)
        }
    }
}

/// Appends the records of a leaf to the journal, and keeps its clause.
fn keep_leaf(
    alloc: Global,
    bank: &Bank,
    search: &mut Search,
    leaf: &Leaf,
    start: u64,
) -> Result<(), AllocError>
    requires search { IsSearch bank.now search.old }
    requires few { length search.old.kept < 200000 }
    requires leaf { IsLeafAt bank.now search.old start leaf.now }
    ensures kept { IfOk result (λ _. IsKept bank.now search.old search.new leaf.now) }
    ensures longer { Grows search.old search.new }
{
    let clause = leaf.clause.copy(alloc)?;
    let weight = weight(bank, &clause);
    let front = front_of(bank, &clause);
    let first = with_number(alloc, search.abbr_at.as_slice(), start)?;
    let records = leaf.records.as_slice();
    append_records(alloc, bank, &mut search.lines, first.as_slice(), records)?;
    let line = search.lines.len() as u64 - 1;
    keep(search, clause, front, line, weight)?;
    Ok(())
}

fn is_kept(found: Outcome) -> bool
    ensures { Decides result (found ≡ variant.Kept) }
{
    match found {
        Outcome::Kept => true,
        _ => false,
    }
}

/// Keeps a leaf, if that is its outcome.
fn take_leaf(
    alloc: Global,
    bank: &Bank,
    search: &mut Search,
    leaf: &Leaf,
    start: u64,
    limit: Option<u16>,
) -> Result<(), AllocError>
    requires search { IsSearch bank.now search.old }
    requires leaf { IsLeafAt bank.now search.old start leaf.now }
    ensures search { IfOk result (λ _. IsSearch bank.now search.new) }
    ensures takes { IfOk result (λ _. Takes limit (kept_of bank.now search.old) (leaf_clause bank.now leaf.now) (kept_of bank.now search.new)) }
    ensures same { IfOk result (λ _. HasSameSymbols bank.now search.old search.new) }
    ensures longer { Grows search.old search.new }
{
    let found = outcome(
        alloc,
        bank,
        &search.kept,
        &search.fronts,
        &leaf.clause,
        limit,
    )?;
    if !is_kept(found) {
        return Ok(());
    }
    keep_leaf(alloc, bank, search, leaf, start)?;
    Ok(())
}

/// Keeps those of the leaves that have that outcome, one after the other.
pub(crate) fn take_leaves(
    alloc: Global,
    bank: &Bank,
    search: &mut Search,
    leaves: &[Leaf],
    start: u64,
    limit: Option<u16>,
) -> Result<(), AllocError>
    requires search { IsSearch bank.now search.old }
    requires leaves { AreLeavesOf bank.now search.old start leaves.now }
    ensures search { IfOk result (λ _. IsSearch bank.now search.new) }
    ensures takes { IfOk result (λ _. TakesAll limit (kept_of bank.now search.old) (map (leaf_clause bank.now) leaves.now) (kept_of bank.now search.new)) }
    ensures same { IfOk result (λ _. HasSameSymbols bank.now search.old search.new) }
    ensures longer { Grows search.old search.new }
{
    for leaf in leaves {
        take_leaf(alloc, bank, search, leaf, start, limit)?;
    }
    Ok(())
}
