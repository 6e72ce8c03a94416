//! Calls with ample memory, and their answers. What becomes of clauses with literals, the program `keep_rows` shows.

ghost use Rattle.std.specs.Prelude.{[], ◌≡◌};

use crate::{Fronts, Kept, Outcome, front_of, outcome};
use leo_clause::Clause;
use leo_items::Items;
use leo_terms::Bank;
use std::alloc::{AllocError, Global};
use std::test::Fail;

/// The clause without literals.
fn empty(alloc: Global) -> Clause
    ensures vars { result.vars ≡ [] }
    ensures lits { result.lits ≡ [] }
{
    Clause {
        vars: Items::new(alloc),
        lits: Items::new(alloc),
    }
}

/// Whether the clause without literals is kept once, and is a copy then.
fn is_kept_once(alloc: Global, bank: &Bank, kept: &mut Kept) -> Result<bool, AllocError>
    requires { kept.old ≡ [] }
{
    let clause = empty(alloc);
    let mut fronts = Fronts::new(alloc);
    let first = outcome(alloc, bank, kept, &fronts, &clause, Some(0))?;
    let number = kept.add(empty(alloc))?;
    fronts.add(front_of(bank, &clause))?;
    let second = outcome(alloc, bank, kept, &fronts, &clause, Some(0))?;
    kept.cut(0);
    fronts.cut(0);
    let third = outcome(alloc, bank, kept, &fronts, &clause, None)?;
    let as_wanted = first == Outcome::Kept && second == Outcome::Copy(number);
    Ok(as_wanted && third == Outcome::Kept && kept.clauses().is_empty())
}

/// A value that may be handed to another thread.
fn handed_over<T: Send>(value: T) -> T {
    value
}

#[test]
fn the_empty_clause_is_kept_once(rt: HostRuntime) -> Result<(), Fail> {
    let bank = Bank::new(rt.alloc())?;
    let mut kept = Kept::new(rt.alloc())?;
    let holds = is_kept_once(rt.alloc(), &bank, &mut kept)?;
    assert!(rt; holds);
    Ok(())
}

#[test]
fn kept_clauses_may_cross_threads(rt: HostRuntime) -> Result<(), Fail> {
    let kept = Kept::new(rt.alloc())?;
    let _ = handed_over(kept);
    Ok(())
}
