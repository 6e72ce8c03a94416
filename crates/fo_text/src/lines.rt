//! The lines of an answer: the words that they begin with, and what stands in them.

ghost use Rattle.std.specs.Prelude.{◌≡◌, ◌++◌, IfOk, IfErr, MatchOption};
ghost use Rattle.fo_text.specs.declared.lines.LineKind.{LineKind};
ghost use Rattle.fo_text.specs.declared.lines.FrontKind.{FrontKind};
ghost use Rattle.fo_text.specs.declared.answer.FoSide.{FoSide};
ghost use Rattle.fo_text.specs.Reads.{IsStop};
ghost use Rattle.fo_text.specs.Pieces.{StandsFirst};
ghost use Rattle.fo_text.specs.Answers.{IsSmall};
ghost use Rattle.fo_text.specs.AnswerSpellings.{side_byte, spaced_number, ended_side};
ghost use Rattle.fo_text.specs.AnswerReads.{IsKind, line_word, front_word, IsPlace, place_word};

use crate::answer::FoSide;
use crate::field::{behind_first, keyword};
use crate::number::{Ends, number};
use crate::refusal::Stop;

/// The lines behind `refuted`: the four steps, and the last line.
#[derive(Clone, Copy, Debug, Drop)]
pub(crate) enum LineKind {
    Instance,
    Paramodulation,
    Factoring,
    Dropping,
    Finish,
}

/// The lines before an end: a beat, that the prover gives up, and that it has a refutation.
#[derive(Clone, Copy, Debug, Drop)]
pub(crate) enum FrontKind {
    Beat,
    GivingUp,
    Refutation,
}

/// The line that begins with a byte.
fn line_of(byte: u8) -> Option<LineKind>
    ensures { MatchOption result ((t : LineKind) → StandsFirst byte (line_word t) → ⊥) (λ t. StandsFirst byte (line_word t)) }
{
    match byte {
        b'i' => Some(LineKind::Instance),
        b'p' => Some(LineKind::Paramodulation),
        b'f' => Some(LineKind::Factoring),
        b'd' => Some(LineKind::Dropping),
        b'%' => Some(LineKind::Finish),
        _ => None,
    }
}

fn line_text(kind: LineKind) -> &'static [u8]
    ensures { result.now ≡ line_word kind }
{
    match kind {
        LineKind::Instance => b"i ",
        LineKind::Paramodulation => b"p ",
        LineKind::Factoring => b"f ",
        LineKind::Dropping => b"d ",
        LineKind::Finish => b"% end\n",
    }
}

/// What a line begins with, to which its kind can be told.
pub(crate) fn line_kind(input: &[u8]) -> Result<(LineKind, &[u8]), Stop>
    ensures read { IfOk result (λ x. input.now ≡ line_word x.0 ++ x.1.now) }
    ensures refused { IfErr result (IsStop IsKind line_word input.now) }
{
    let Some((byte, _behind)) = input.split_first() else {
        return Err(Stop::At { left: input.len() });
    };
    let Some(kind) = line_of(*byte) else {
        return Err(Stop::At { left: input.len() });
    };
    let rest = keyword(input, line_text(kind))?;
    Ok((kind, rest))
}

/// The front line that begins with a byte.
fn front_of(byte: u8) -> Option<FrontKind>
    ensures { MatchOption result ((t : FrontKind) → StandsFirst byte (front_word t) → ⊥) (λ t. StandsFirst byte (front_word t)) }
{
    match byte {
        b'.' => Some(FrontKind::Beat),
        b'g' => Some(FrontKind::GivingUp),
        b'r' => Some(FrontKind::Refutation),
        _ => None,
    }
}

fn front_text(kind: FrontKind) -> &'static [u8]
    ensures { result.now ≡ front_word kind }
{
    match kind {
        FrontKind::Beat => b".\n",
        FrontKind::GivingUp => b"gaveup\n",
        FrontKind::Refutation => b"refuted\n",
    }
}

/// A line before the end of an answer, or the end's first.
pub(crate) fn front_kind(input: &[u8]) -> Result<(FrontKind, &[u8]), Stop>
    ensures read { IfOk result (λ x. input.now ≡ front_word x.0 ++ x.1.now) }
    ensures refused { IfErr result (IsStop IsKind front_word input.now) }
{
    let Some((byte, _behind)) = input.split_first() else {
        return Err(Stop::At { left: input.len() });
    };
    let Some(kind) = front_of(*byte) else {
        return Err(Stop::At { left: input.len() });
    };
    let rest = keyword(input, front_text(kind))?;
    Ok((kind, rest))
}

fn side_of(byte: u8) -> Option<FoSide>
    ensures { MatchOption result ((s : FoSide) → side_byte s ≡ byte → ⊥) (λ s. side_byte s ≡ byte) }
{
    match byte {
        b'l' => Some(FoSide::Left),
        b'r' => Some(FoSide::Right),
        _ => None,
    }
}

/// Both bytes of a side with a byte behind it.
fn side_text(side: FoSide, end: u8) -> [u8; 2]
    ensures { result ≡ ended_side end side }
{
    match side {
        FoSide::Left => [b'l', end],
        FoSide::Right => [b'r', end],
    }
}

/// A side, and behind it that byte.
pub(crate) fn side(input: &[u8], end: u8) -> Result<(FoSide, &[u8]), Stop>
    ensures read { IfOk result (λ x. input.now ≡ ended_side end x.0 ++ x.1.now) }
    ensures refused { IfErr result (IsStop IsKind (ended_side end) input.now) }
{
    let Some((byte, _behind)) = input.split_first() else {
        return Err(Stop::At { left: input.len() });
    };
    let Some(found) = side_of(*byte) else {
        return Err(Stop::At { left: input.len() });
    };
    let rest = keyword(input, &side_text(found, end))?;
    Ok((found, rest))
}

/// A number, and the space behind it.
pub(crate) fn spaced(input: &[u8]) -> Result<(u32, &[u8]), Stop>
    ensures read { IfOk result (λ x. IsSmall x.0 × (input.now ≡ spaced_number x.0 ++ x.1.now)) }
    ensures refused { IfErr result (IsStop IsSmall spaced_number input.now) }
{
    let (value, rest) = number(input, 0, 999_999_999, Ends::Space)?;
    Ok((value, behind_first(rest, b' ')))
}

/// A clause, a literal of it, and a side of that.
#[derive(Clone, Copy, Debug, Drop)]
pub(crate) struct LiteralSide {
    pub(crate) clause: u32,
    pub(crate) literal: u32,
    pub(crate) side: FoSide,
}

/// A clause, a literal and a side, with a space behind each.
pub(crate) fn place(input: &[u8]) -> Result<(LiteralSide, &[u8]), Stop>
    ensures read { IfOk result (λ x. IsPlace x.0 × (input.now ≡ place_word x.0 ++ x.1.now)) }
    ensures refused { IfErr result (IsStop IsPlace place_word input.now) }
{
    let (clause, one) = spaced(input)?;
    let (literal, two) = spaced(one)?;
    let (found, rest) = side(two, b' ')?;
    let found_place = LiteralSide {
        clause,
        literal,
        side: found,
    };
    Ok((found_place, rest))
}
