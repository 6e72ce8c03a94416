//! Why a text is no derivation text of a problem.

ghost use Rattle.std.specs.Prelude.{◌≡◌};
ghost use Rattle.leo_tstp.specs.declared.refusal.Stop.TheVariants.{Memory};
ghost use Rattle.leo_tstp.specs.declared.refusal.TstpRefusal.TheVariants as answer;

use std::alloc::{AllocError, AllocFailed};

/// Why a text was not read.
#[derive(Clone, Copy, Debug, PartialEq, Eq)]
pub enum TstpRefusal {
    /// The text is no derivation text of the problem. The byte is that of the first token with which none goes on, or
    /// the length of the text.
    Bad { byte: u32 },
    Memory,
}

/// Why reading stops.
#[derive(Clone, Copy, Debug, PartialEq, Eq)]
pub(crate) enum Stop {
    /// No derivation text goes on with the next token, or the text ends too early.
    Refused,
    Memory,
}

impl From<AllocError> for Stop {
    ghost from_gives = { λ _ stop. stop ≡ Memory };

    fn from(_failed: AllocError) -> Stop {
        Stop::Memory
    }
}

impl<T: Drop> From<AllocFailed<T>> for Stop {
    ghost from_gives = { λ _ stop. stop ≡ Memory };

    fn from(_failed: AllocFailed<T>) -> Stop {
        Stop::Memory
    }
}

impl From<AllocError> for TstpRefusal {
    ghost from_gives = { λ _ refusal. refusal ≡ answer.Memory };

    fn from(_failed: AllocError) -> TstpRefusal {
        TstpRefusal::Memory
    }
}
