//! New literals and clauses.

ghost use Rattle.std.specs.Prelude.{◌≡◌, ◌+◌, ◌<◌, ◌∷◌, ◌++◌, [], length, take, drop, IfOk};

use leo_clause::{Clause, Lit};
use leo_items::Items;
use leo_terms::TyId;
use std::alloc::{AllocError, Global};

/// The literals with new ones in the place of one.
pub(crate) fn replaced(
    alloc: Global,
    lits: &[Lit],
    at: usize,
    new: &[Lit],
) -> Result<Items<Lit>, AllocError>
    requires { at < length lits.now }
    ensures { IfOk result (λ ls. ls ≡ take at lits.now ++ (new.now ++ drop (at + 1) lits.now)) }
{
    let (front, _) = lits.split_at(at);
    let (_, rest) = lits.split_at(at + 1);
    let mut out = Items::from_slice(alloc, front)?;
    out.append(Items::from_slice(alloc, new)?)?;
    out.append(Items::from_slice(alloc, rest)?)?;
    Ok(out)
}

/// The clause with new literals in the place of one, and with variables more.
pub(crate) fn placed(
    alloc: Global,
    clause: &Clause,
    at: usize,
    fresh: &[TyId],
    new: &[Lit],
) -> Result<Clause, AllocError>
    requires { at < length clause.now.lits }
    ensures vars { IfOk result (λ c. c.vars ≡ clause.now.vars ++ fresh.now) }
    ensures lits { IfOk result (λ c. c.lits ≡ take at clause.now.lits ++ (new.now ++ drop (at + 1) clause.now.lits)) }
{
    let mut vars = Items::from_slice(alloc, clause.vars.as_slice())?;
    vars.append(Items::from_slice(alloc, fresh)?)?;
    let lits = replaced(alloc, clause.lits.as_slice(), at, new)?;
    Ok(Clause { vars, lits })
}
