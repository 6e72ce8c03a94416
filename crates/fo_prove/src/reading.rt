//! Reads a source up to and with the line `end`.

ghost use Rattle.std.specs.Prelude.{ℕ, ◌≡◌, ◌<◌, ◌≤◌, ◌↔◌, length, take, IsTrue, IfSome, IfNone, IfOk, IfErr};
ghost use Rattle.leo_edge.specs.Outside.{HasRisen};
ghost use Rattle.fo_prove.specs.Reading.{most_read, EndsText, HasNoEnd, HasNoEndUpTo, IsPiece, IsRead, IfFailed};

use leo_edge::{Next, Source};
use std::alloc::{AllocError, Global};

/// 64 MiB.
const MOST_READ: usize = 67_108_864;

/// Why a source is not read.
#[derive(Debug, Drop)]
pub(crate) enum Unread {
    /// It failed.
    Fault,
    /// No memory was found.
    Memory,
}

impl From<AllocError> for Unread {
    ghost use Rattle.std.specs.Prelude.{◌≡◌};
    ghost use Rattle.fo_prove.specs.declared.reading.Unread.TheVariants.{Memory};

    ghost from_gives = { λ _ e. e ≡ Memory };

    fn from(_: AllocError) -> Unread {
        Unread::Memory
    }
}

/// Whether the last line is exactly `end`.
fn is_ended(text: &[u8]) -> bool
    ensures { IsTrue result ↔ EndsText text.now }
{
    if text == b"end\n".as_slice() {
        return true;
    }
    text.ends_with(b"\nend\n")
}

/// How many bytes there are up to and with the first line that is exactly `end`, which is not among the first so many.
fn length_to_end(text: &[u8], passed: usize) -> Option<usize>
    requires within { passed ≤ length text.now }
    requires passed { HasNoEndUpTo passed text.now }
    ensures within { IfSome result (λ n. n ≤ length text.now) }
    ensures found { IfSome result (λ n. EndsText (take n text.now)) }
    ensures first { IfSome result (λ n. (k : ℕ) → k < n → EndsText (take k text.now) → ⊥) }
    ensures none { IfNone result (HasNoEnd text.now) }
{
    let mut done = passed;
    while done < text.len() {
        done += 1;
        if is_ended(&text[..done]) {
            return Some(done);
        }
    }
    None
}

/// Whether a source gave a piece, or has ended.
enum Piece {
    Given,
    Ended,
}

/// Appends the next piece that the source gives.
fn append_next<R: Source>(
    source: &mut R,
    buffer: &mut [u8],
    text: &mut Vec<u8>,
) -> Result<Piece, Unread>
    requires { 0 < length buffer.old }
    ensures same_length { length buffer.new ≡ length buffer.old }
    ensures never_falls { R.faults source.old ≤ R.faults source.new }
    ensures piece { IfOk result (λ p. IsPiece p (length buffer.old) (R.given source.old) (R.given source.new) (R.has_ended source.new) text.old.items text.new.items) }
    ensures failed { IfErr result (IfFailed (HasRisen (R.faults source.old) (R.faults source.new))) }
{
    match source.next(buffer) {
        Next::Got(count) => {
            text.extend_from_slice(&buffer[..count])?;
            Ok(Piece::Given)
        }
        Next::End => Ok(Piece::Ended),
        Next::Failed => Err(Unread::Fault),
    }
}

/// Reads the source up to and with the first line that is exactly `end`, to its end, or 64 MiB.
pub(crate) fn read_text<R: Source>(alloc: Global, source: &mut R) -> Result<Vec<u8>, Unread>
    ensures never_falls { R.faults source.old ≤ R.faults source.new }
    ensures within { IfOk result (λ v. length v.items ≤ most_read) }
    ensures read { IfOk result (λ v. IsRead (R.given source.old) (R.given source.new) (R.has_ended source.new) v.items) }
    ensures failed { IfErr result (IfFailed (HasRisen (R.faults source.old) (R.faults source.new))) }
{
    let mut buffer = [0u8; 16384];
    let mut text = Vec::new(alloc);
    while text.len() < MOST_READ {
        let passed = text.len();
        let asked = (MOST_READ - passed).min(16384);
        match append_next(source, &mut buffer[..asked], &mut text)? {
            Piece::Given => {
                if let Some(length) = length_to_end(&text, passed) {
                    text.truncate(length);
                    return Ok(text);
                }
            }
            Piece::Ended => return Ok(text),
        }
    }
    Ok(text)
}
