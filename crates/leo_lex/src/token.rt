//! What the lexer gives, and why it refuses.

ghost use Rattle.std.specs.Prelude.{◌≡◌};
ghost use Rattle.leo_lex.specs.declared.token.LexRefusal.TheVariants.{Memory};

use crate::mark::Mark;
use std::alloc::AllocFailed;
use thiserror::Error;

/// What a token is.
#[derive(Clone, Copy, Debug, PartialEq, Eq)]
pub enum Kind {
    /// A lowercase letter, then letters, digits and `_`.
    Lower,
    /// An uppercase letter, then letters, digits and `_`.
    Upper,
    /// `$` and a lower.
    Dollar,
    /// `$$` and a lower.
    System,
    /// One character or more between single quotes: a byte from 32 to 126 other than a quote and
    /// `\`, or `\` and one of these two.
    Quoted,
    /// The same between double quotes, and maybe empty.
    Distinct,
    /// A sign or none and digits; then maybe `.` or `/` and digits; then maybe `E` or `e`, a sign or
    /// none and digits.
    Number,
    /// Punctuation or a connective.
    Mark(Mark),
}

/// A token and its bytes, from `start` up to and without `end`.
#[derive(Clone, Copy, Debug, PartialEq, Eq)]
pub struct Token {
    pub kind: Kind,
    pub start: u32,
    pub end: u32,
}

/// Why a text has no tokens.
#[derive(Clone, Copy, Debug, PartialEq, Eq, Error)]
pub enum LexRefusal {
    /// No token begins at that byte, or the token there has no end.
    #[error("no token begins at byte {byte}")]
    Lexical { byte: u32 },
    #[error("out of memory")]
    Memory,
}

impl<T: Drop> From<AllocFailed<T>> for LexRefusal {
    ghost from_gives = { λ _ refusal. refusal ≡ Memory };

    fn from(_failed: AllocFailed<T>) -> LexRefusal {
        LexRefusal::Memory
    }
}
