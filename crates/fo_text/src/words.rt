//! The words of an instance, and paths.

ghost use Rattle.std.specs.Prelude.{◌≡◌, ◌++◌, IfOk, IfErr, true};
ghost use Rattle.fo_text.specs.Reads.{IsStop};
ghost use Rattle.fo_text.specs.Pieces.{StandsFirst};
ghost use Rattle.fo_text.specs.Answers.{IsWord};
ghost use Rattle.fo_text.specs.AnswerSpellings.{word_text, path_text};
ghost use Rattle.fo_text.specs.AnswerReads.{IsEnded, ended_text, IsPath};
ghost use Rattle.fo_text.specs.Numbers.{may_end};
ghost use Rattle.fo_text.specs.declared.number.Ends.TheVariants.{SpaceOrLine};

use crate::answer::FoWord;
use crate::field::{behind_byte, behind_first, keyword};
use crate::number::{Ends, number};
use crate::refusal::Stop;
use sqlite_items::Items;
use std::alloc::Global;

/// A number, a variable or a symbol, before a space or the end of the line.
pub(crate) fn word(input: &[u8]) -> Result<(FoWord, &[u8]), Stop>
    ensures read { IfOk result (λ x. IsWord x.0 × (input.now ≡ word_text x.0 ++ x.1.now)) }
    ensures ended { IfOk result (λ x. may_end SpaceOrLine 0 x.1.now ≡ true) }
    ensures refused { IfErr result (IsStop (IsEnded 32 IsWord) (ended_text word_text) input.now) }
{
    if let Some(digits) = behind_byte(input, b'v') {
        let (variable, rest) = number(digits, 0, 999_999_999, Ends::SpaceOrLine)?;
        return Ok((FoWord::Var(variable), rest));
    }
    if let Some(digits) = behind_byte(input, b'f') {
        let (symbol, rest) = number(digits, 0, 999_999_999, Ends::SpaceOrLine)?;
        return Ok((FoWord::Sym(symbol), rest));
    }
    let (value, rest) = number(input, 0, 999_999_999, Ends::SpaceOrLine)?;
    Ok((FoWord::Number(value), rest))
}

/// A path that has numbers, and the end of its line.
fn numbers(alloc: Global, input: &[u8]) -> Result<(Items<u32>, &[u8]), Stop>
    requires { StandsFirst 101 input.now → ⊥ }
    ensures read { IfOk result (λ x. IsPath x.0 × (input.now ≡ path_text x.0 ++ x.1.now)) }
    ensures refused { IfErr result (IsStop IsPath path_text input.now) }
{
    let (first, behind) = number(input, 0, 999_999_999, Ends::DotOrLine)?;
    let mut list = Items::new(alloc);
    list.push(first)?;
    let mut rest = behind;
    while let Some(tail) = behind_byte(rest, b'.') {
        let (argument, left) = number(tail, 0, 999_999_999, Ends::DotOrLine)?;
        list.push(argument)?;
        rest = left;
    }
    Ok((list, behind_first(rest, b'\n')))
}

/// A path, and the end of its line.
pub(crate) fn path(alloc: Global, input: &[u8]) -> Result<(Items<u32>, &[u8]), Stop>
    ensures read { IfOk result (λ x. IsPath x.0 × (input.now ≡ path_text x.0 ++ x.1.now)) }
    ensures refused { IfErr result (IsStop IsPath path_text input.now) }
{
    match behind_byte(input, b'e') {
        Some(_behind) => {
            let rest = keyword(input, b"e\n")?;
            Ok((Items::new(alloc), rest))
        }
        None => numbers(alloc, input),
    }
}
