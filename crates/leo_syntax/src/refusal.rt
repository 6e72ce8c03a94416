//! Why a text is not read.

ghost use Rattle.std.specs.Prelude.{◌≡◌};
ghost use Rattle.leo_syntax.specs.declared.refusal.ReadRefusal.TheVariants.{Memory};

use std::alloc::{AllocError, AllocFailed};
use thiserror::Error;

/// A form of the language that this profile does not have.
#[derive(Clone, Copy, Debug, PartialEq, Eq)]
pub enum Form {
    /// `!>`
    Polymorphism,
    /// A number where an item or a type is looked for.
    Number,
    /// A text in double quotes where an item or a type is looked for.
    Distinct,
    /// `[` where an item is looked for.
    Tuple,
    /// `$let` and `$ite`.
    Let,
    /// `@-` and `@@-`.
    Description,
    /// `<<`
    Subtype,
    /// `*` in a type.
    Product,
    /// `@` or `(` behind a type, and `$tType` where no type can stand.
    TypeArguments,
    /// `(` behind an atom in a formula.
    Arguments,
    /// `=` or `!=` behind `(`, and `@=`.
    Equality,
    /// Any other word that begins with one dollar sign.
    Word,
    /// A word that begins with two dollar signs.
    System,
    /// A mark that the profile has no use for.
    Mark,
    /// A statement of another language.
    Dialect,
}

/// Why a text is not read. At one token `Deep` comes before `Unsupported`, and that before `Syntax`.
#[derive(Clone, Copy, Debug, PartialEq, Eq, Error)]
pub enum ReadRefusal {
    /// No file goes on with the token at that byte, or the text ends there too early.
    #[error("no file goes on with byte {byte}")]
    Syntax { byte: u32 },
    /// The token at that byte belongs to a form that the profile does not have.
    #[error("byte {byte} has a form that is not supported")]
    Unsupported { byte: u32, form: Form },
    /// The token at that byte stands beyond the last level.
    #[error("byte {byte} is nested too deep")]
    Deep { byte: u32 },
    #[error("out of memory")]
    Memory,
}

impl From<AllocError> for ReadRefusal {
    ghost from_gives = { λ _ refusal. refusal ≡ Memory };

    fn from(_failed: AllocError) -> ReadRefusal {
        ReadRefusal::Memory
    }
}

impl<T: Drop> From<AllocFailed<T>> for ReadRefusal {
    ghost from_gives = { λ _ refusal. refusal ≡ Memory };

    fn from(_failed: AllocFailed<T>) -> ReadRefusal {
        ReadRefusal::Memory
    }
}
