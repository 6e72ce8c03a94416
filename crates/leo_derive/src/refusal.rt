//! Why a derivation is refused.

ghost use Rattle.std.specs.Prelude.{◌≡◌};
ghost use Rattle.leo_derive.specs.declared.refusal.CheckRefusal.TheVariants.{Memory};

use leo_kernel::Reason;
use std::alloc::AllocError;

/// Why a derivation is not accepted.
#[derive(Clone, Copy, Debug, PartialEq, Eq)]
pub enum CheckRefusal {
    /// The line of this number, from 0, is the first that is refused, for this reason. With `Reason::NoEmpty` every line
    /// is accepted and none is empty; the number is then that of the lines.
    No { line: u64, reason: Reason },
    /// Memory ran out, or a term goes deeper than a bank's terms may.
    Memory,
}

impl From<AllocError> for CheckRefusal {
    ghost from_gives = { λ _ refusal. refusal ≡ Memory };

    fn from(_failed: AllocError) -> CheckRefusal {
        CheckRefusal::Memory
    }
}
