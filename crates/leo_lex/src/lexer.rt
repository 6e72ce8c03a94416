//! The tokens of a text.

ghost use Rattle.std.specs.Prelude.{◌≡◌, ◌≤◌, ◌*◌, ◌^◌, length, List, ℕ, IfOk, IfErr};
ghost use Rattle.leo_lex.specs.declared.token.Token.{Token};
ghost use Rattle.leo_lex.specs.Spaced.{Word, AreWords, spaced, spaced_tokens};
ghost use Rattle.leo_lex.specs.Spells.{HasTokens, Spells};
ghost use Rattle.leo_lex.specs.Cut.{AreTokens, IsRefusal, StopsAt};

use crate::forms::token_at;
use crate::gaps::gap_len;
use crate::token::{LexRefusal, Token};
use std::alloc::Global;

/// The tokens of a text of at most 64 MiB: at each place the longest that begins there, with white
/// space and comments between. White space is the bytes 9 to 13 and 32. A comment is `%` and what
/// stands behind it in its line, or `/*` up to the next `*/`, and holds any bytes.
///
/// The time is linear in the length of the text.
///
/// # Errors
///
/// - [`LexRefusal::Lexical`] at the first place where neither a token nor white space nor a comment
///   begins. A quote or a block comment without an end is refused where it begins.
/// - [`LexRefusal::Memory`].
pub fn tokens(alloc: Global, bytes: &[u8]) -> Result<Vec<Token>, LexRefusal>
    requires { length bytes.now ≤ 64 * 2 ^ 20 }
    ensures tokens { IfOk result (λ found. AreTokens bytes.now found.items) }
    ensures refusal { IfErr result (IsRefusal bytes.now) }
{
    let mut found = Vec::new(alloc);
    let mut at = 0;
    while at < bytes.len() {
        let rest = &bytes[at..];
        let gap = gap_len(rest);
        if gap > 0 {
            at += gap;
        } else {
            let Some((kind, len)) = token_at(rest) else {
                return Err(LexRefusal::Lexical { byte: at as u32 });
            };
            let end = at + len;
            found.push(Token {
                kind,
                start: at as u32,
                end: end as u32,
            })?;
            at = end;
        }
    }
    Ok(found)
}

/// A law: a text has one list of tokens at most, and where it has one it is not refused.
pub fn tokens_are_unique()
    ensures one_list { (bytes : List ℕ) (some others : List Token) → AreTokens bytes some → AreTokens bytes others → some ≡ others }
    ensures one_place { (bytes : List ℕ) (m n : ℕ) → StopsAt bytes m → StopsAt bytes n → m ≡ n }
    ensures not_both { (bytes : List ℕ) (some : List Token) (byte : ℕ) → AreTokens bytes some → StopsAt bytes byte → ⊥ }
{}

/// A law that writers rest on: words with a space behind each are the tokens of the text that they make.
pub fn spaced_words_are_tokens()
    ensures { (words : List Word) → AreWords words → AreTokens (spaced words) (spaced_tokens 0 words) }
{}

/// A law that writers rest on: bytes that are given as words, each ended by what stands behind it, have tokens with these
/// words.
pub fn spelled_words_are_tokens()
    ensures { (bytes : List ℕ) (words : List (List ℕ)) → Spells bytes words → HasTokens bytes words }
{}
