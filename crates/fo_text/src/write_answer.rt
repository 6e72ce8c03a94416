//! Writing answers.

ghost use Rattle.std.specs.Prelude.{◌≡◌, ◌++◌, ◌∷◌, [], OnOk, decimal};
ghost use Rattle.std.specs.List.{flat_map};
ghost use Rattle.fo_text.specs.AnswerSpellings.{side_byte, word_text, tail_text, spaced_number, ended_side, place_text, path_text, step_text, beats_text, end_text, steps_text, answer_text};

use crate::answer::{FoAnswer, FoEnd, FoSide, FoStep, FoWord};
use crate::write::write_number;
use std::alloc::AllocError;

/// Writes a number and a space.
fn write_spaced_number(number: u32, out: &mut Vec<u8>) -> Result<(), AllocError>
    ensures { OnOk result (out.new.items ≡ out.old.items ++ spaced_number number) }
{
    write_number(number, out)?;
    out.push(b' ')?;
    Ok(())
}

/// Writes a side and a byte behind it.
fn write_side(side: FoSide, end: u8, out: &mut Vec<u8>) -> Result<(), AllocError>
    ensures { OnOk result (out.new.items ≡ out.old.items ++ ended_side end side) }
{
    out.push(match side {
        FoSide::Left => b'l',
        FoSide::Right => b'r',
    })?;
    out.push(end)?;
    Ok(())
}

/// Writes `N`, `vN` or `fN`.
fn write_word(word: FoWord, out: &mut Vec<u8>) -> Result<(), AllocError>
    ensures { OnOk result (out.new.items ≡ out.old.items ++ word_text word) }
{
    match word {
        FoWord::Number(number) => write_number(number, out),
        FoWord::Var(variable) => {
            out.push(b'v')?;
            write_number(variable, out)
        }
        FoWord::Sym(symbol) => {
            out.push(b'f')?;
            write_number(symbol, out)
        }
    }
}

fn write_spaced_word(word: FoWord, out: &mut Vec<u8>) -> Result<(), AllocError>
    ensures { OnOk result (out.new.items ≡ out.old.items ++ 32 ∷ word_text word) }
{
    out.push(b' ')?;
    write_word(word, out)
}

/// Writes words, each behind a space.
fn write_words(words: &[FoWord], out: &mut Vec<u8>) -> Result<(), AllocError>
    ensures { OnOk result (out.new.items ≡ out.old.items ++ flat_map (λ w. 32 ∷ word_text w) words.now) }
{
    for word in words {
        write_spaced_word(*word, out)?;
    }
    Ok(())
}

fn write_pointed(number: u32, out: &mut Vec<u8>) -> Result<(), AllocError>
    ensures { OnOk result (out.new.items ≡ out.old.items ++ 46 ∷ decimal number) }
{
    out.push(b'.')?;
    write_number(number, out)
}

/// Writes numbers, each behind a point.
fn write_arguments(numbers: &[u32], out: &mut Vec<u8>) -> Result<(), AllocError>
    ensures { OnOk result (out.new.items ≡ out.old.items ++ flat_map (λ n. 46 ∷ decimal n) numbers.now) }
{
    for number in numbers {
        write_pointed(*number, out)?;
    }
    Ok(())
}

/// Writes a path and the end of its line.
fn write_path(path: &[u32], out: &mut Vec<u8>) -> Result<(), AllocError>
    ensures { OnOk result (out.new.items ≡ out.old.items ++ path_text path.now) }
{
    match path.split_first() {
        None => out.extend_from_slice(b"e\n"),
        Some((first, others)) => {
            write_number(*first, out)?;
            write_arguments(others, out)?;
            out.push(b'\n')?;
            Ok(())
        }
    }
}

/// Writes a clause, a literal and a side, with a space behind each.
fn write_place(clause: u32, literal: u32, side: FoSide, out: &mut Vec<u8>) -> Result<(), AllocError>
    ensures { OnOk result (out.new.items ≡ out.old.items ++ place_text clause literal side) }
{
    write_spaced_number(clause, out)?;
    write_spaced_number(literal, out)?;
    write_side(side, b' ', out)
}

fn write_instance(parent: u32, words: &[FoWord], out: &mut Vec<u8>) -> Result<(), AllocError>
    ensures { OnOk result (out.new.items ≡ out.old.items ++ (decimal parent ++ tail_text 32 word_text words.now)) }
{
    write_number(parent, out)?;
    write_words(words, out)?;
    out.push(b'\n')?;
    Ok(())
}

fn write_factoring(
    parent: u32,
    first: u32,
    second: u32,
    side: FoSide,
    out: &mut Vec<u8>,
) -> Result<(), AllocError>
    ensures { OnOk result (out.new.items ≡ out.old.items ++ (spaced_number parent ++ (spaced_number first ++ (spaced_number second ++ ended_side 10 side)))) }
{
    write_spaced_number(parent, out)?;
    write_spaced_number(first, out)?;
    write_spaced_number(second, out)?;
    write_side(side, b'\n', out)
}

fn write_dropping(parent: u32, lit: u32, out: &mut Vec<u8>) -> Result<(), AllocError>
    ensures { OnOk result (out.new.items ≡ out.old.items ++ (spaced_number parent ++ (decimal lit ++ 10 ∷ []))) }
{
    write_spaced_number(parent, out)?;
    write_number(lit, out)?;
    out.push(b'\n')?;
    Ok(())
}

/// Writes the line of a step.
fn write_step(step: &FoStep, out: &mut Vec<u8>) -> Result<(), AllocError>
    ensures { OnOk result (out.new.items ≡ out.old.items ++ step_text step.now) }
{
    match step {
        FoStep::Inst { parent, words } => {
            out.extend_from_slice(b"i ")?;
            write_instance(*parent, words.as_slice(), out)
        }
        FoStep::Para {
            from,
            lit,
            side,
            target,
            place,
            place_side,
            path,
        } => {
            out.extend_from_slice(b"p ")?;
            write_place(*from, *lit, *side, out)?;
            write_place(*target, *place, *place_side, out)?;
            write_path(path.as_slice(), out)
        }
        FoStep::Factor {
            parent,
            first,
            second,
            side,
        } => {
            out.extend_from_slice(b"f ")?;
            write_factoring(*parent, *first, *second, *side, out)
        }
        FoStep::Drop { parent, lit } => {
            out.extend_from_slice(b"d ")?;
            write_dropping(*parent, *lit, out)
        }
    }
}

fn write_steps(steps: &[FoStep], out: &mut Vec<u8>) -> Result<(), AllocError>
    ensures { OnOk result (out.new.items ≡ out.old.items ++ flat_map step_text steps.now) }
{
    for step in steps {
        write_step(step, out)?;
    }
    Ok(())
}

fn write_beats(beats: u32, out: &mut Vec<u8>) -> Result<(), AllocError>
    ensures { OnOk result (out.new.items ≡ out.old.items ++ beats_text beats) }
{
    for _ in 0..beats {
        out.extend_from_slice(b".\n")?;
    }
    Ok(())
}

fn write_end(end: &FoEnd, out: &mut Vec<u8>) -> Result<(), AllocError>
    ensures { OnOk result (out.new.items ≡ out.old.items ++ end_text end.now) }
{
    match end {
        FoEnd::GaveUp => out.extend_from_slice(b"gaveup\n"),
        FoEnd::Refuted(steps) => {
            out.extend_from_slice(b"refuted\n")?;
            write_steps(steps.as_slice(), out)?;
            out.extend_from_slice(b"% end\n")
        }
    }
}

/// Writes the text of an answer at the end. The only error is want of memory; a part of the text may
/// be written then.
pub fn write_answer(answer: &FoAnswer, out: &mut Vec<u8>) -> Result<(), AllocError>
    ensures { OnOk result (out.new.items ≡ out.old.items ++ answer_text answer.now) }
{
    write_beats(answer.beats, out)?;
    write_end(&answer.end, out)
}
