//! The lines of the symbols.

ghost use Rattle.std.specs.Prelude.{◌≡◌, ◌≤◌, ◌<◌, ◌++◌, ◌∷◌, length, IfOk, IfErr, MatchOption};
ghost use Rattle.std.specs.List.{AllByRecursion, flat_map};
ghost use Rattle.fo_text.specs.Words.{most_number};
ghost use Rattle.fo_text.specs.Reads.{IsStop};
ghost use Rattle.fo_text.specs.Problems.{IsSymbol};
ghost use Rattle.fo_text.specs.Spellings.{symbol_text};
ghost use Rattle.fo_text.specs.Pieces.{StandsFirst, AreMany, HasFewArgs};

use crate::field::behind_first;
use crate::number::{Ends, number};
use crate::problem::FoSym;
use crate::refusal::Stop;
use sqlite_items::Items;
use std::alloc::Global;

/// What is behind a space.
pub(crate) fn behind_space(rest: &[u8]) -> Option<&[u8]>
    ensures { MatchOption result (StandsFirst 32 rest.now → ⊥) (λ tail. rest.now ≡ 32 ∷ tail.now) }
{
    match rest.split_first() {
        Some((b' ', tail)) => Some(tail),
        _ => None,
    }
}

/// A symbol's line.
fn symbol(alloc: Global, input: &[u8], sorts: u32) -> Result<(FoSym, &[u8]), Stop>
    requires some { 0 < sorts }
    requires few { sorts ≤ most_number }
    ensures few { IfOk result (λ x. HasFewArgs x.0) }
    ensures read { IfOk result (λ x. IsSymbol sorts x.0 × (input.now ≡ symbol_text x.0 ++ x.1.now)) }
    ensures refused { IfErr result (IsStop (IsSymbol sorts) symbol_text input.now) }
{
    let (result_sort, behind) = number(input, 0, sorts - 1, Ends::SpaceOrLine)?;
    let mut args = Items::new(alloc);
    let mut rest = behind;
    while let Some(tail) = behind_space(rest) {
        let (arg, left) = number(tail, 0, sorts - 1, Ends::SpaceOrLine)?;
        if args.len() == 0xffff_ffff {
            return Err(Stop::NoRoom);
        }
        args.push(arg)?;
        rest = left;
    }
    let sym = FoSym {
        result: result_sort,
        args,
    };
    Ok((sym, behind_first(rest, b'\n')))
}

/// The lines of so many symbols.
pub(crate) fn symbols(
    alloc: Global,
    input: &[u8],
    count: u32,
    sorts: u32,
) -> Result<(Items<FoSym>, &[u8]), Stop>
    requires some { 0 < count → 0 < sorts }
    requires few { sorts ≤ most_number }
    ensures few { IfOk result (λ x. AllByRecursion HasFewArgs x.0) }
    ensures read { IfOk result (λ x. AreMany (IsSymbol sorts) count x.0 × (input.now ≡ flat_map symbol_text x.0 ++ x.1.now)) }
    ensures refused { IfErr result (IsStop (AreMany (IsSymbol sorts) count) (flat_map symbol_text) input.now) }
{
    let mut list = Items::new(alloc);
    let mut rest = input;
    for _ in 0..count {
        let (sym, left) = symbol(alloc, rest, sorts)?;
        list.push(sym)?;
        rest = left;
    }
    Ok((list, rest))
}
