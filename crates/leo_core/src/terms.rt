//! The terms of a problem's hypotheses.

ghost use Rattle.std.specs.Prelude.{◌≡◌, map, IfOk};

use leo_items::Items;
use leo_problem::Hyp;
use leo_terms::TermId;
use std::alloc::{AllocError, Global};

/// The terms of hypotheses, in order.
pub(crate) fn terms(alloc: Global, hyps: &[Hyp]) -> Result<Items<TermId>, AllocError>
    ensures { IfOk result (λ found. found ≡ map (λ h. h.term) hyps.now) }
{
    let mut found = Items::new(alloc);
    for hyp in hyps {
        found.push(hyp.term)?;
    }
    Ok(found)
}
