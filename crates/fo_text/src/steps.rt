//! The steps of an answer.

ghost use Rattle.std.specs.Prelude.{◌≡◌, ◌++◌, IfOk, IfErr, Some};
ghost use Rattle.fo_text.specs.Reads.{IsStop};
ghost use Rattle.fo_text.specs.Answers.{IsStep};
ghost use Rattle.fo_text.specs.AnswerSpellings.{inst_word, para_word, factor_word, drop_word, step_text, steps_text};
ghost use Rattle.fo_text.specs.AnswerReads.{IsItem, item_text, AreSteps};

use crate::answer::FoStep;
use crate::field::{behind_first, field};
use crate::lines::{LineKind, line_kind, place, side, spaced};
use crate::number::{Ends, number};
use crate::refusal::Stop;
use crate::symbols::behind_space;
use crate::words::{path, word};
use sqlite_items::Items;
use std::alloc::Global;

/// The rest of an instance's line.
fn instance(alloc: Global, input: &[u8]) -> Result<(FoStep, &[u8]), Stop>
    ensures read { IfOk result (λ x. IsStep x.0 × (inst_word ++ input.now ≡ step_text x.0 ++ x.1.now)) }
    ensures refused { IfErr result (IsStop IsItem item_text (inst_word ++ input.now)) }
{
    let (parent, behind) = number(input, 0, 999_999_999, Ends::SpaceOrLine)?;
    let mut words = Items::new(alloc);
    let mut rest = behind;
    while let Some(tail) = behind_space(rest) {
        let (found, left) = word(tail)?;
        words.push(found)?;
        rest = left;
    }
    Ok((FoStep::Inst { parent, words }, behind_first(rest, b'\n')))
}

/// The rest of a paramodulation's line.
fn paramodulation(alloc: Global, input: &[u8]) -> Result<(FoStep, &[u8]), Stop>
    ensures read { IfOk result (λ x. IsStep x.0 × (para_word ++ input.now ≡ step_text x.0 ++ x.1.now)) }
    ensures refused { IfErr result (IsStop IsItem item_text (para_word ++ input.now)) }
{
    let (from, one) = place(input)?;
    let (target, two) = place(one)?;
    let (path, rest) = path(alloc, two)?;
    let step = FoStep::Para {
        from: from.clause,
        lit: from.literal,
        side: from.side,
        target: target.clause,
        place: target.literal,
        place_side: target.side,
        path,
    };
    Ok((step, rest))
}

/// The rest of a factoring's line.
fn factoring(input: &[u8]) -> Result<(FoStep, &[u8]), Stop>
    ensures read { IfOk result (λ x. IsStep x.0 × (factor_word ++ input.now ≡ step_text x.0 ++ x.1.now)) }
    ensures refused { IfErr result (IsStop IsItem item_text (factor_word ++ input.now)) }
{
    let (parent, one) = spaced(input)?;
    let (first, two) = spaced(one)?;
    let (second, three) = spaced(two)?;
    let (side, rest) = side(three, b'\n')?;
    let step = FoStep::Factor {
        parent,
        first,
        second,
        side,
    };
    Ok((step, rest))
}

/// The rest of the line of a drop.
fn dropping(input: &[u8]) -> Result<(FoStep, &[u8]), Stop>
    ensures read { IfOk result (λ x. IsStep x.0 × (drop_word ++ input.now ≡ step_text x.0 ++ x.1.now)) }
    ensures refused { IfErr result (IsStop IsItem item_text (drop_word ++ input.now)) }
{
    let (parent, behind) = spaced(input)?;
    let (lit, rest) = field(behind, b"", 0, 999_999_999)?;
    Ok((FoStep::Drop { parent, lit }, rest))
}

/// The next step, or the last line.
fn item(alloc: Global, input: &[u8]) -> Result<(Option<FoStep>, &[u8]), Stop>
    ensures read { IfOk result (λ x. IsItem x.0 × (input.now ≡ item_text x.0 ++ x.1.now)) }
    ensures refused { IfErr result (IsStop IsItem item_text input.now) }
{
    let (kind, behind) = line_kind(input)?;
    let (step, rest) = match kind {
        LineKind::Finish => return Ok((None, behind)),
        LineKind::Instance => instance(alloc, behind)?,
        LineKind::Paramodulation => paramodulation(alloc, behind)?,
        LineKind::Factoring => factoring(behind)?,
        LineKind::Dropping => dropping(behind)?,
    };
    Ok((Some(step), rest))
}

/// All steps, and the last line.
pub(crate) fn steps(alloc: Global, input: &[u8]) -> Result<(Items<FoStep>, &[u8]), Stop>
    ensures read { IfOk result (λ x. AreSteps x.0 × (input.now ≡ steps_text x.0 ++ x.1.now)) }
    ensures refused { IfErr result (IsStop AreSteps steps_text input.now) }
{
    let mut list = Items::new(alloc);
    let mut rest = input;
    loop {
        let (next, left) = item(alloc, rest)?;
        rest = left;
        match next {
            None => return Ok((list, rest)),
            Some(step) => list.push(step)?,
        }
    }
}
