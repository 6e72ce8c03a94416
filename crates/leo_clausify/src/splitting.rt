//! The leaves of a clause.

ghost use Rattle.std.specs.Prelude.{◌≡◌, ◌<◌, ◌≤◌, ◌∷◌, [], ℕ, List, length, map, slice_get, Some, true, false, IfOk, OnErr};
ghost use Rattle.leo_terms.specs.Contents.{Extends};
ghost use Rattle.leo_clause.specs.Trees.{clause_at};
ghost use Rattle.leo_clause.specs.Typed.{IsTypedIn};
ghost use Rattle.leo_clausify.specs.Agendas.{Ends, IsRunning};
ghost use Rattle.leo_clausify.specs.Leaves.{IsSplit};
ghost use Rattle.leo_clausify.specs.Moves.{records_after};
ghost use Rattle.leo_clausify.specs.Choosing.{AreInOrder};
ghost use Rattle.leo_clausify.specs.Splitting.{AreNormal};

use crate::agenda::{Agenda, Progress};
use crate::branch::Branch;
use crate::leaves::{Leaf, Split};
use crate::moves::records;
use leo_clause::{Abbr, Clause};
use leo_items::Items;
use leo_terms::Bank;
use std::alloc::{AllocError, Global};

/// The split at first.
fn begun(alloc: Global, choices: &Abbr, c: &Clause) -> Result<Agenda, AllocError>
    ensures { IfOk result (λ a. a ≡ record { pending = record { clause = c.now; steps = [] } ∷ []; finished = []; choices = choices.now }) }
{
    let clause = c.copy(alloc)?;
    let choices = choices.copy(alloc)?;
    let mut pending = Items::new(alloc);
    pending.push(Branch {
        clause,
        steps: Items::new(alloc),
    })?;
    Ok(Agenda {
        pending,
        finished: Items::new(alloc),
        choices,
    })
}

/// Goes on until nothing is pending, or until there are too many leaves.
fn exhaust(alloc: Global, bank: &mut Bank, agenda: &mut Agenda) -> Result<bool, AllocError>
    requires { IsRunning bank.old agenda.old }
    ensures ended { IfOk result (Ends bank.old bank.new agenda.old agenda.new) }
    ensures grows { Extends bank.old bank.new }
{
    bank.is_sound();
    for _ in 0..u32::MAX {
        match agenda.advance(alloc, bank)? {
            Progress::More => {}
            Progress::Done => return Ok(true),
            Progress::Full => return Ok(false),
        }
    }
    Err(AllocError)
}

/// The leaf at the end of a branch, whose records follow on the line with the number `before`.
fn leaf(alloc: Global, branch: &Branch, before: u64) -> Result<Leaf, AllocError>
    ensures { IfOk result (λ l. l ≡ record { clause = branch.now.clause; records = records_after before branch.now.steps }) }
{
    let clause = branch.clause.copy(alloc)?;
    let records = records(alloc, branch.steps.as_slice(), before)?;
    Ok(Leaf { clause, records })
}

/// The leaves of finished branches.
fn all_leaves(alloc: Global, branches: &[Branch], before: u64) -> Result<Items<Leaf>, AllocError>
    ensures { IfOk result (λ ls. ls ≡ map (λ b. record { clause = b.clause; records = records_after before b.steps }) branches.now) }
{
    let mut leaves = Items::new(alloc);
    for branch in branches {
        let next = leaf(alloc, branch, before)?;
        leaves.push(next)?;
    }
    Ok(leaves)
}

fn count_of(choices: &Abbr) -> u64
    ensures { result ≡ length choices.now.items }
{
    choices.items.len() as u64
}

/// The leaves of a clause in normal form: the clauses in which no literal can be reduced, in order, or `Room` if there
/// are more than 256. Each new choice symbol is put at the end of the list; at `Room` and on an error the list is as
/// before. The bank gains terms and symbols at most.
pub fn split(
    alloc: Global,
    bank: &mut Bank,
    abbr: &mut Abbr,
    c: &Clause,
) -> Result<Split, AllocError>
    requires clause { IsTypedIn bank.old c.now }
    requires normal { AreNormal (clause_at bank.old c.now).literals }
    requires choices { AreInOrder bank.old abbr.old.items }
    ensures split { IfOk result (IsSplit bank.old bank.new abbr.old abbr.new c.now) }
    ensures choices { AreInOrder bank.new abbr.new.items }
    ensures err { OnErr result (abbr.new ≡ abbr.old) }
    ensures grows { Extends bank.old bank.new }
{
    bank.is_sound();
    let mut agenda = begun(alloc, abbr, c)?;
    let fits = exhaust(alloc, bank, &mut agenda)?;
    if !fits {
        return Ok(Split::Room);
    }
    let before = count_of(&agenda.choices);
    let leaves = all_leaves(alloc, agenda.finished.as_slice(), before)?;
    *abbr = agenda.choices;
    Ok(Split::Clauses(leaves))
}
