//! Reading answers.

ghost use Rattle.std.specs.Prelude.{◌≡◌, ◌++◌, IfOk, IfErr};
ghost use Rattle.fo_text.specs.Reads.{IsStop};
ghost use Rattle.fo_text.specs.Refusals.{IsRefusal};
ghost use Rattle.fo_text.specs.Answers.{IsAnswer, IsAnswerText};
ghost use Rattle.fo_text.specs.AnswerSpellings.{answer_text};
ghost use Rattle.fo_text.specs.AnswerReads.{IsKind, front_text};
ghost use Rattle.fo_text.specs.declared.answer.FoAnswer.{FoAnswer};

use crate::answer::{FoAnswer, FoEnd};
use crate::lines::{FrontKind, front_kind};
use crate::refusal::{FoRefusal, Stop};
use crate::steps::steps;
use std::alloc::Global;

/// The beats and the first line of the end: how many beats there are, and whether a refutation
/// follows.
fn front(input: &[u8]) -> Result<((u32, bool), &[u8]), Stop>
    ensures read { IfOk result (λ x. input.now ≡ front_text x.0 ++ x.1.now) }
    ensures refused { IfErr result (IsStop IsKind front_text input.now) }
{
    let mut beats: u32 = 0;
    let mut rest = input;
    loop {
        let (kind, left) = front_kind(rest)?;
        rest = left;
        match kind {
            FrontKind::GivingUp => return Ok(((beats, false), rest)),
            FrontKind::Refutation => return Ok(((beats, true), rest)),
            FrontKind::Beat => {
                if beats == 0xffff_ffff {
                    return Err(Stop::NoRoom);
                }
                beats += 1;
            }
        }
    }
}

/// The answer at the front.
fn answer(alloc: Global, input: &[u8]) -> Result<(FoAnswer, &[u8]), Stop>
    ensures answer { IfOk result (λ x. IsAnswer x.0) }
    ensures read { IfOk result (λ x. input.now ≡ answer_text x.0 ++ x.1.now) }
    ensures refused { IfErr result (IsStop IsAnswer answer_text input.now) }
{
    let ((beats, refuted), behind) = front(input)?;
    if refuted {
        let (list, rest) = steps(alloc, behind)?;
        let end = FoEnd::Refuted(list);
        Ok((FoAnswer { beats, end }, rest))
    } else {
        let end = FoEnd::GaveUp;
        Ok((FoAnswer { beats, end }, behind))
    }
}

/// Reads the text of an answer. Where the input is one, its answer is read; no other answer has that
/// text. The time is linear in the length.
///
/// # Errors
///
/// - [`FoRefusal::Bad`] with the first byte with which no answer text goes on, or the length of an
///   input that ends early.
/// - [`FoRefusal::Memory`], also where there are more beats than a `u32` counts: such a text has
///   8 GiB.
pub fn read_answer(alloc: Global, bytes: &[u8]) -> Result<FoAnswer, FoRefusal>
    ensures read { IfOk result (λ a. IsAnswer a × (bytes.now ≡ answer_text a)) }
    ensures refused { IfErr result (IsRefusal IsAnswerText bytes.now) }
{
    match answer(alloc, bytes) {
        Ok((found, [])) => Ok(found),
        Ok((_, rest)) => Err(FoRefusal::Bad {
            byte: bytes.len() - rest.len(),
        }),
        Err(Stop::At { left }) => Err(FoRefusal::Bad {
            byte: bytes.len() - left,
        }),
        Err(Stop::NoRoom) => Err(FoRefusal::Memory),
    }
}

/// A law: no two answers have one text.
pub fn answer_texts_are_unique()
    ensures { (a b : FoAnswer) → IsAnswer a → IsAnswer b → answer_text a ≡ answer_text b → a ≡ b }
{}
