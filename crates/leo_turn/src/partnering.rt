//! The clauses with which a given clause is worked.

ghost use Rattle.std.specs.Prelude.{ℕ, ◌≡◌, ◌∷◌, ◌≤◌, IfOk};
ghost use Rattle.leo_turn.specs.Searches.{times};
ghost use Rattle.leo_turn.specs.Turns.{ArePartners};

use std::alloc::{AllocError, Global};

/// The numbers of the active clauses and of the given one, in rising order. Each stands there once.
pub(crate) fn partners(alloc: Global, active: &[u32], given: u32) -> Result<Vec<u32>, AllocError>
    requires once { (n : ℕ) → times n (given ∷ active.now) ≤ 1 }
    ensures { IfOk result (λ ns. ArePartners active.now given ns.items) }
{
    let mut numbers = Vec::new(alloc);
    numbers.push(given)?;
    numbers.extend_from_slice(active)?;
    numbers.sort_unstable();
    Ok(numbers)
}
