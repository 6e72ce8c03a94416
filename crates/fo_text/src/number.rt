//! Numbers.

ghost use Rattle.std.specs.Prelude.{◌≡◌, ◌≤◌, ◌<◌, ◌↔◌, ◌++◌, decimal, IfOk, IfErr, IfSome, IsTrue, MatchOption};
ghost use Rattle.fo_text.specs.Words.{most_number};
ghost use Rattle.fo_text.specs.Numbers.{ends_with, may_end, IsNumberWord, number_word, IsRead, Extends, NoneExtends, Begins, NoneBegins, IsLongest};
ghost use Rattle.fo_text.specs.Reads.{IsStop};

use crate::refusal::Stop;

/// What stands behind a number: a line feed at zero and a space at the others, in the last.
#[derive(Clone, Copy, Debug)]
pub(crate) enum Ends {
    Space,
    Line,
    SpaceOrLine,
    DotOrLine,
    LineAtZero,
}

fn ends_number(ends: Ends, number: u32, byte: u8) -> bool
    ensures { result ≡ ends_with ends number byte }
{
    match ends {
        Ends::Space => byte == b' ',
        Ends::Line => byte == b'\n',
        Ends::SpaceOrLine => byte == b' ' || byte == b'\n',
        Ends::DotOrLine => byte == b'.' || byte == b'\n',
        Ends::LineAtZero => {
            if number == 0 {
                byte == b'\n'
            } else {
                byte == b' '
            }
        }
    }
}

/// Whether the number ends before what is left.
fn is_ended(ends: Ends, number: u32, rest: &[u8]) -> bool
    ensures { result ≡ may_end ends number rest.now }
{
    match rest.first() {
        None => false,
        Some(byte) => ends_number(ends, number, *byte),
    }
}

/// The number that the first digit writes, if one in the range begins so.
fn first_digit(input: &[u8], least: u32, most: u32) -> Option<(u32, &[u8])>
    ensures { MatchOption result (NoneBegins least most input.now) (λ x. Begins input.now x.0 x.1.now × (least ≤ x.0) × (x.0 ≤ most)) }
{
    let (byte, tail) = input.split_first()?;
    if !byte.is_ascii_digit() {
        return None;
    }
    let value = u32::from(*byte - b'0');
    if value < least || value > most {
        return None;
    }
    Some((value, tail))
}

/// The number with one more digit, if one up to the most has it.
fn next_digit(rest: &[u8], value: u32, most: u32) -> Option<(u32, &[u8])>
    requires { (value ≤ most) × (most ≤ most_number) }
    ensures { MatchOption result (NoneExtends most value rest.now) (λ x. Extends rest.now value x.0 x.1.now × (x.0 ≤ most)) }
{
    let (byte, tail) = rest.split_first()?;
    if value == 0 || !byte.is_ascii_digit() {
        return None;
    }
    let more = u64::from(value) * 10 + u64::from(*byte - b'0');
    if more > u64::from(most) {
        return None;
    }
    Some((more as u32, tail))
}

/// The number with all its digits.
fn digits(first: u32, tail: &[u8], most: u32) -> (u32, &[u8])
    requires { (first ≤ most) × (most ≤ most_number) }
    ensures { IsLongest most first tail.now result.0 result.1.now }
{
    let mut value = first;
    let mut rest = tail;
    while let Some((more, left)) = next_digit(rest, value, most) {
        value = more;
        rest = left;
    }
    (value, rest)
}

/// The number at the front, with as many digits as it has, and what is behind it.
pub(crate) fn plain_number(input: &[u8]) -> Option<(u32, &[u8])>
    ensures { IfSome result (λ x. input.now ≡ decimal x.0 ++ x.1.now) }
{
    let (first, tail) = first_digit(input, 0, 999_999_999)?;
    Some(digits(first, tail, 999_999_999))
}

/// The number at the front, which has no leading zero.
pub(crate) fn number(input: &[u8], least: u32, most: u32, ends: Ends) -> Result<(u32, &[u8]), Stop>
    requires range { (least ≤ most) × (most ≤ most_number) }
    requires low { least ≤ 1 }
    ensures read { IfOk result (λ x. IsRead least most ends input.now x.0 x.1.now) }
    ensures refused { IfErr result (IsStop (IsNumberWord least most ends) number_word input.now) }
{
    let Some((first, tail)) = first_digit(input, least, most) else {
        return Err(Stop::At { left: input.len() });
    };
    let (value, rest) = digits(first, tail, most);
    if is_ended(ends, value, rest) {
        Ok((value, rest))
    } else {
        Err(Stop::At { left: rest.len() })
    }
}
