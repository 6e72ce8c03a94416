//! Why a text is not read.

use std::alloc::{AllocError, AllocFailed};

/// Why a text is not read.
#[derive(Clone, Copy, Debug, PartialEq, Eq, Drop)]
pub enum FoRefusal {
    /// The number of the first byte with which no such text goes on, or the length of the input
    /// where it ends early.
    Bad { byte: usize },
    Memory,
}

/// Why a piece of a text is not read: so many bytes of the input are left where no piece goes on.
#[derive(Clone, Copy, Debug, Drop)]
pub(crate) enum Stop {
    At { left: usize },
    NoRoom,
}

impl From<AllocError> for Stop {
    ghost use Rattle.std.specs.Prelude.{◌≡◌};
    ghost use Rattle.fo_text.specs.declared.refusal.Stop.TheVariants.{NoRoom};

    ghost from_gives = { λ _ e. e ≡ NoRoom };

    fn from(_: AllocError) -> Stop {
        Stop::NoRoom
    }
}

impl<T: Drop> From<AllocFailed<T>> for Stop {
    ghost use Rattle.std.specs.Prelude.{◌≡◌};
    ghost use Rattle.fo_text.specs.declared.refusal.Stop.TheVariants.{NoRoom};

    ghost from_gives = { λ _ e. e ≡ NoRoom };

    fn from(_: AllocFailed<T>) -> Stop {
        Stop::NoRoom
    }
}
