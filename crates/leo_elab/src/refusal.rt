//! Why a declaration or a formula is refused.

ghost use Rattle.std.specs.Prelude.{◌≡◌};
ghost use Rattle.leo_elab.specs.declared.refusal.ElabRefusal.TheVariants.{Memory};

use leo_syntax::Form;
use std::alloc::{AllocError, AllocFailed};
use thiserror::Error;

/// Why a declaration or a formula is refused. Each byte is where the node that offends begins.
#[derive(Clone, Copy, Debug, PartialEq, Eq, Error)]
pub enum ElabRefusal {
    /// The atom at that byte was declared before with another type, or as type and as constant.
    #[error("the atom at byte {byte} is declared twice")]
    Twice { byte: u32 },
    /// The atom at that byte is not declared.
    #[error("the atom at byte {byte} is not declared")]
    Unknown { byte: u32 },
    /// What begins at that byte has a type that does not fit.
    #[error("what begins at byte {byte} has the wrong type")]
    WrongType { byte: u32 },
    /// No binder binds the variable at that byte.
    #[error("no binder binds the variable at byte {byte}")]
    Free { byte: u32 },
    /// The word at that byte belongs to a form that the profile does not have.
    #[error("byte {byte} has a form that is not supported")]
    Unsupported { byte: u32, form: Form },
    #[error("out of memory")]
    Memory,
}

/// Why a list of typings is refused.
#[derive(Clone, Copy, Debug, PartialEq, Eq, Error)]
pub enum TypingsRefusal {
    /// The typing at that place of the list is the first that offends.
    #[error("{refusal}")]
    Offends { place: usize, refusal: ElabRefusal },
    #[error("out of memory")]
    Memory,
}

impl From<AllocError> for ElabRefusal {
    ghost from_gives = { λ _ refusal. refusal ≡ Memory };

    fn from(_failed: AllocError) -> ElabRefusal {
        ElabRefusal::Memory
    }
}

impl<T: Drop> From<AllocFailed<T>> for ElabRefusal {
    ghost from_gives = { λ _ refusal. refusal ≡ Memory };

    fn from(_failed: AllocFailed<T>) -> ElabRefusal {
        ElabRefusal::Memory
    }
}

impl From<AllocError> for TypingsRefusal {
    ghost use Rattle.leo_elab.specs.declared.refusal.TypingsRefusal.TheVariants as typings_refusal;

    ghost from_gives = { λ _ refusal. refusal ≡ typings_refusal.Memory };

    fn from(_failed: AllocError) -> TypingsRefusal {
        TypingsRefusal::Memory
    }
}
