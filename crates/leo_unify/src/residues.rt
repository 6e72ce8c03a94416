//! What is left of a pair that was solved.

ghost use Rattle.std.specs.Prelude.{◌≡◌, ◌<◌, length, map, IfOk, None};
ghost use Rattle.std.specs.Option.{option_map};
ghost use Rattle.leo_terms.specs.Contents.{tree_at};
ghost use Rattle.leo_unify.specs.Residues.{left_of_arguments, residue as residue_of};
ghost use Rattle.leo_unify.specs.Tops.{application_of as application_of_tree};
ghost use Rattle.leo_unify.specs.Views.{pair_at, ArePairsOf, AreOptionalPairsOf};

use crate::pairs::{Pair, application_of, choice_of, is_symbol, one_pair};
use leo_items::Items;
use leo_terms::{Bank, DEPTH, TermId};
use std::alloc::{AllocError, Global};

/// What is left of the arguments of two terms that are no applications.
#[cycle(left)]
fn left_of_heads(
    alloc: Global,
    bank: &Bank,
    l: TermId,
    r: TermId,
    room: u32,
) -> Result<Option<Items<Pair>>, AllocError>
    requires left { l < length bank.now.terms }
    requires right { r < length bank.now.terms }
    requires head { application_of_tree (tree_at bank.now l) ≡ None }
    ensures value { IfOk result (λ ps. option_map (map (pair_at bank.now)) ps ≡ left_of_arguments (tree_at bank.now l) (tree_at bank.now r)) }
    ensures within { IfOk result (AreOptionalPairsOf bank.now) }
{
    bank.is_sound();
    match choice_of(bank, l) {
        Some(first) => match choice_of(bank, r) {
            Some(second) => {
                if first.ty == second.ty {
                    let pairs = left_of(alloc, bank, first.property, second.property, room)?;
                    Ok(Some(pairs))
                } else {
                    Ok(None)
                }
            }
            None => Ok(None),
        },
        None => {
            if !is_symbol(bank, l) {
                return Ok(None);
            }
            if l == r {
                Ok(Some(Items::new(alloc)))
            } else {
                Ok(None)
            }
        }
    }
}

/// What is left of the arguments, from left to right, of two terms that have the same symbol or choice at one type as head,
/// and as many arguments. Goes at most `room` levels down.
#[cycle(left)]
fn left_of_parts(
    alloc: Global,
    bank: &Bank,
    l: TermId,
    r: TermId,
    room: u32,
) -> Result<Option<Items<Pair>>, AllocError>
    requires left { l < length bank.now.terms }
    requires right { r < length bank.now.terms }
    ensures value { IfOk result (λ ps. option_map (map (pair_at bank.now)) ps ≡ left_of_arguments (tree_at bank.now l) (tree_at bank.now r)) }
    ensures within { IfOk result (AreOptionalPairsOf bank.now) }
{
    let Some(room) = room.checked_sub(1) else {
        return Err(AllocError);
    };
    match application_of(bank, l) {
        Some(first) => match application_of(bank, r) {
            Some(second) => {
                let front = left_of_parts(alloc, bank, first.function, second.function, room)?;
                match front {
                    Some(mut pairs) => {
                        let more = left_of(alloc, bank, first.argument, second.argument, room)?;
                        pairs.append(more)?;
                        Ok(Some(pairs))
                    }
                    None => Ok(None),
                }
            }
            None => Ok(None),
        },
        None => {
            let pairs = left_of_heads(alloc, bank, l, r, room)?;
            Ok(pairs)
        }
    }
}

/// What is left of a pair.
#[cycle(left)]
fn left_of(
    alloc: Global,
    bank: &Bank,
    l: TermId,
    r: TermId,
    room: u32,
) -> Result<Items<Pair>, AllocError>
    requires left { l < length bank.now.terms }
    requires right { r < length bank.now.terms }
    ensures value { IfOk result (λ ps. map (pair_at bank.now) ps ≡ residue_of (tree_at bank.now l) (tree_at bank.now r)) }
    ensures within { IfOk result (ArePairsOf bank.now) }
{
    bank.is_sound();
    if l == r {
        return Ok(Items::new(alloc));
    }
    let below = left_of_parts(alloc, bank, l, r, room)?;
    match below {
        Some(pairs) => Ok(pairs),
        None => {
            let pairs = one_pair(alloc, l, r)?;
            Ok(pairs)
        }
    }
}

/// What is left of a pair of terms that is to become equal: nothing where the terms are equal; else what is left of the
/// arguments, from left to right, where both terms have the same symbol, or choice at one type, as head and as many
/// arguments; else the pair itself. Terms that are too deep find no memory.
pub fn residue(
    alloc: Global,
    bank: &Bank,
    left: TermId,
    right: TermId,
) -> Result<Items<Pair>, AllocError>
    requires left { left < length bank.now.terms }
    requires right { right < length bank.now.terms }
    ensures value { IfOk result (λ ps. map (pair_at bank.now) ps ≡ residue_of (tree_at bank.now left) (tree_at bank.now right)) }
    ensures within { IfOk result (ArePairsOf bank.now) }
{
    left_of(alloc, bank, left, right, DEPTH)
}
