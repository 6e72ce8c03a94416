//! Lines of a word and a number.

ghost use Rattle.std.specs.Prelude.{◌≡◌, ◌≤◌, ◌++◌, ◌∷◌, ◌+◌, suc, length, IfOk, IfErr, MatchOption, IsTrue};
ghost use Rattle.fo_text.specs.Words.{most_number};
ghost use Rattle.fo_text.specs.Reads.{IsStop};
ghost use Rattle.fo_text.specs.Spellings.{field_text};
ghost use Rattle.fo_text.specs.Pieces.{common as common_front, StandsFirst, IsKeyword, keyword_text, IsBetween};

use crate::number::{Ends, number};
use crate::refusal::Stop;

/// What is behind the first bytes, where they are the same.
fn same_first<'a, 'b>(first: &'a [u8], second: &'b [u8]) -> Option<(&'a [u8], &'b [u8])>
    ensures { MatchOption result (common_front first.now second.now ≡ 0) (λ x. (common_front first.now second.now ≡ suc (common_front x.0.now x.1.now)) × (suc (length x.0.now) ≡ length first.now)) }
{
    let (x, xs) = first.split_first()?;
    let (y, ys) = second.split_first()?;
    if x == y { Some((xs, ys)) } else { None }
}

/// How many bytes two lists have in common at the front.
pub(crate) fn common(first: &[u8], second: &[u8]) -> usize
    ensures count { result ≡ common_front first.now second.now }
    ensures within { result ≤ length first.now }
{
    let mut count = 0;
    let mut one = first;
    let mut other = second;
    while let Some((xs, ys)) = same_first(one, other) {
        one = xs;
        other = ys;
        count += 1;
    }
    count
}

/// What is behind a word.
pub(crate) fn keyword<'a>(input: &'a [u8], word: &[u8]) -> Result<&'a [u8], Stop>
    ensures read { IfOk result (λ rest. input.now ≡ word.now ++ rest.now) }
    ensures refused { IfErr result (IsStop IsKeyword (keyword_text word.now) input.now) }
{
    let count = common(input, word);
    if count == word.len() {
        let (_, rest) = input.split_at(count);
        Ok(rest)
    } else {
        Err(Stop::At {
            left: input.len() - count,
        })
    }
}

/// What is behind the first byte.
pub(crate) fn behind_first(rest: &[u8], byte: u8) -> &[u8]
    requires { StandsFirst byte rest.now }
    ensures { rest.now ≡ byte ∷ result.now }
{
    match rest.split_first() {
        Some((_, tail)) => tail,
        None => rest,
    }
}

/// What is behind a byte, where the input begins with it.
pub(crate) fn behind_byte(rest: &[u8], byte: u8) -> Option<&[u8]>
    ensures { MatchOption result (StandsFirst byte rest.now → ⊥) (λ tail. rest.now ≡ byte ∷ tail.now) }
{
    match rest.split_first() {
        Some((first, tail)) => { if *first == byte { Some(tail) } else { None } }
        None => None,
    }
}

/// The number of a line that begins with a word.
pub(crate) fn field<'a>(
    input: &'a [u8],
    word: &[u8],
    least: u32,
    most: u32,
) -> Result<(u32, &'a [u8]), Stop>
    requires range { (least ≤ most) × (most ≤ most_number) }
    requires low { least ≤ 1 }
    ensures read { IfOk result (λ x. IsBetween least most x.0 × (input.now ≡ field_text word.now x.0 ++ x.1.now)) }
    ensures refused { IfErr result (IsStop (IsBetween least most) (field_text word.now) input.now) }
{
    let rest = keyword(input, word)?;
    let (value, left) = number(rest, least, most, Ends::Line)?;
    Ok((value, behind_first(left, b'\n')))
}
