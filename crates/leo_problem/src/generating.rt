//! Problems that are generated from a number.

ghost use Rattle.std.specs.Prelude.{◌≡◌, ◌≤◌, ◌<◌, ◌++◌, map, OnOk, IfOk, MatchOption};
ghost use Rattle.std.specs.List.{concat};
ghost use Rattle.leo_problem.specs.Generating.{IsFileName, IsGenerator, generated_text, typing_line, typings, implication_line, implications};
ghost use Rattle.leo_problem.specs.Generating as generating;

use itoa::Buffer;
use std::alloc::{AllocError, Global};

/// The greatest number of a generated problem.
const MOST_GENERATED: u32 = 100_000;

/// The number of the generated problem that the name stands for: the name is `gen:` with a number from 1 to
/// 100,000 behind it, in decimal digits without a leading zero. Any other name is that of a file.
pub fn generated(name: &str) -> Option<u32>
    ensures { MatchOption result (IsFileName name.now) (IsGenerator name.now) }
{
    let digits = name.strip_prefix("gen:")?;
    let Ok(number) = digits.parse::<u32>() else {
        return None;
    };
    let mut shown = Buffer::new();
    if shown.format(number) == digits && 1 <= number && number <= MOST_GENERATED {
        Some(number)
    } else {
        None
    }
}

/// Appends these parts.
fn add_parts(text: &mut Vec<u8>, parts: &[&[u8]]) -> Result<(), AllocError>
    ensures { OnOk result (text.new.items ≡ text.old.items ++ concat (map (λ part. part.now) parts.now)) }
{
    for part in parts {
        text.extend_from_slice(part)?;
    }
    Ok(())
}

/// Appends the typing of the symbol of that number.
#[tactic(auto, unfolding(crate::specs::Generating::typing_line))]
fn add_typing(text: &mut Vec<u8>, number: u32) -> Result<(), AllocError>
    ensures { OnOk result (text.new.items ≡ text.old.items ++ typing_line number) }
{
    let mut digits = Buffer::new();
    let symbol = digits.format(number).as_bytes();
    add_parts(text, &[b"thf(t", symbol, b",type,p", symbol, b": $o).\n"])
}

/// Appends the axiom that the symbol of that number implies the next.
#[tactic(auto, unfolding(crate::specs::Generating::implication_line))]
fn add_implication(text: &mut Vec<u8>, number: u32) -> Result<(), AllocError>
    requires { number < 100000 }
    ensures { OnOk result (text.new.items ≡ text.old.items ++ implication_line number) }
{
    let mut digits = Buffer::new();
    let symbol = digits.format(number).as_bytes();
    let mut next_digits = Buffer::new();
    let next = next_digits.format(number + 1).as_bytes();
    add_parts(
        text,
        &[
            b"thf(i",
            next,
            b",axiom,( p",
            symbol,
            b" => p",
            next,
            b" )).\n",
        ],
    )
}

/// Appends the conjecture, the symbol of that number.
#[tactic(auto, unfolding(crate::specs::Generating::conjecture_line))]
fn add_conjecture(text: &mut Vec<u8>, number: u32) -> Result<(), AllocError>
    ensures { OnOk result (text.new.items ≡ text.old.items ++ generating.conjecture_line number) }
{
    let mut digits = Buffer::new();
    let symbol = digits.format(number).as_bytes();
    add_parts(text, &[b"thf(c,conjecture,p", symbol, b").\n"])
}

/// Appends the axiom that the first symbol holds.
#[tactic(auto, unfolding(crate::specs::Generating::axiom_line))]
fn add_axiom(text: &mut Vec<u8>) -> Result<(), AllocError>
    ensures { OnOk result (text.new.items ≡ text.old.items ++ generating.axiom_line) }
{
    text.extend_from_slice(b"thf(a,axiom,p0).\n")
}

fn add_typings(text: &mut Vec<u8>, count: u32) -> Result<(), AllocError>
    ensures { OnOk result (text.new.items ≡ text.old.items ++ typings count) }
{
    for number in 0..count {
        add_typing(text, number)?;
    }
    Ok(())
}

fn add_implications(text: &mut Vec<u8>, count: u32) -> Result<(), AllocError>
    requires { count ≤ 100000 }
    ensures { OnOk result (text.new.items ≡ text.old.items ++ implications count) }
{
    for number in 0..count {
        add_implication(text, number)?;
    }
    Ok(())
}

/// The text of the generated problem of that number, from 1 to 100,000: p0 is an axiom, each of the symbols
/// p0, p1, .. implies the next, and the symbol of the number is the conjecture. Each of its `2 * count + 3`
/// statements stands on a line of its own.
///
/// # Errors
///
/// Want of memory alone.
pub fn generate(alloc: Global, count: u32) -> Result<Vec<u8>, AllocError>
    requires least { 1 ≤ count }
    requires most { count ≤ 100000 }
    ensures { IfOk result (λ text. text.items ≡ generated_text count) }
{
    let mut text = Vec::new(alloc);
    add_typings(&mut text, count + 1)?;
    add_axiom(&mut text)?;
    add_implications(&mut text, count)?;
    add_conjecture(&mut text, count)?;
    Ok(text)
}
