//! The places in a term at which it may be rewritten.

ghost use Rattle.std.specs.Prelude.{[], ◌∷◌, ◌++◌, ◌≡◌, ◌<◌, length, map, IfOk, OnOk};
ghost use Rattle.leo_terms.specs.Contents.{IsArgumentBelow, argument, tree_at};
ghost use Rattle.leo_para.specs.Places.{argument_places, places};
ghost use Rattle.leo_para.specs.Reading.{AreSpotsOf, behind, place_at};

use leo_items::Items;
use leo_terms::{Bank, DEPTH, TermId, View};
use std::alloc::{AllocError, Global};

/// A term at a path in another, by numbers of children.
#[derive(Drop)]
pub(crate) struct Spot {
    pub path: Items<u8>,
    pub term: TermId,
}

/// The path to a child of what is at this path.
fn longer(alloc: Global, path: &[u8], child: u8) -> Result<Items<u8>, AllocError>
    ensures { IfOk result (λ longer. longer ≡ path.now ++ child ∷ []) }
{
    let mut longer = Items::from_slice(alloc, path)?;
    longer.push(child)?;
    Ok(longer)
}

/// Appends the places of a term that is at a path. Goes at most `room` levels down.
#[cycle(put)]
fn put_places(
    alloc: Global,
    bank: &Bank,
    t: TermId,
    path: &[u8],
    spots: &mut Vec<Spot>,
    room: u32,
) -> Result<(), AllocError>
    requires within { t < length bank.now.terms }
    requires spots { AreSpotsOf bank.now spots.old.items }
    ensures places { OnOk result (map (place_at bank.now) spots.new.items ≡ map (place_at bank.now) spots.old.items ++ map (behind path.now) (places (tree_at bank.now t))) }
    ensures spots { OnOk result (AreSpotsOf bank.now spots.new.items) }
{
    let Some(room) = room.checked_sub(1) else {
        return Err(AllocError);
    };
    bank.is_sound();
    let copy = Items::from_slice(alloc, path)?;
    spots.push(Spot {
        path: copy,
        term: t,
    })?;
    put_arguments(alloc, bank, t, path, spots, room)?;
    Ok(())
}

/// Appends the places in the arguments of a term that is at a path.
#[cycle(put)]
fn put_arguments(
    alloc: Global,
    bank: &Bank,
    t: TermId,
    path: &[u8],
    spots: &mut Vec<Spot>,
    room: u32,
) -> Result<(), AllocError>
    requires within { t < length bank.now.terms }
    requires spots { AreSpotsOf bank.now spots.old.items }
    ensures places { OnOk result (map (place_at bank.now) spots.new.items ≡ map (place_at bank.now) spots.old.items ++ map (behind path.now) (argument_places (tree_at bank.now t))) }
    ensures spots { OnOk result (AreSpotsOf bank.now spots.new.items) }
{
    let Some(room) = room.checked_sub(1) else {
        return Err(AllocError);
    };
    match bank.view(t) {
        View::App(f, a) => {
            let first = longer(alloc, path, 0)?;
            let second = longer(alloc, path, 1)?;
            put_arguments(alloc, bank, f, first.as_slice(), spots, room)?;
            put_places(alloc, bank, a, second.as_slice(), spots, room)?;
            Ok(())
        }
        View::Logic(_, x, y) => {
            let first = longer(alloc, path, 0)?;
            let second = longer(alloc, path, 1)?;
            put_argument(alloc, bank, x, first.as_slice(), spots, room)?;
            put_argument(alloc, bank, y, second.as_slice(), spots, room)?;
            Ok(())
        }
        View::Var(_) => Ok(()),
        View::Bound(_) => Ok(()),
        View::Sym(_) => Ok(()),
        View::Lam(_, _) => Ok(()),
    }
}

/// Appends the places of an argument that may be missing.
#[cycle(put)]
fn put_argument(
    alloc: Global,
    bank: &Bank,
    x: Option<TermId>,
    path: &[u8],
    spots: &mut Vec<Spot>,
    room: u32,
) -> Result<(), AllocError>
    requires within { IsArgumentBelow (length bank.now.terms) x }
    requires spots { AreSpotsOf bank.now spots.old.items }
    ensures places { OnOk result (map (place_at bank.now) spots.new.items ≡ map (place_at bank.now) spots.old.items ++ map (behind path.now) (places (argument (tree_at bank.now) x))) }
    ensures spots { OnOk result (AreSpotsOf bank.now spots.new.items) }
{
    match x {
        Some(t) => {
            put_places(alloc, bank, t, path, spots, room)?;
            Ok(())
        }
        None => Ok(()),
    }
}

/// The places of a term, in order.
pub(crate) fn places_of(alloc: Global, bank: &Bank, t: TermId) -> Result<Vec<Spot>, AllocError>
    requires { t < length bank.now.terms }
    ensures places { IfOk result (λ spots. map (place_at bank.now) spots.items ≡ places (tree_at bank.now t)) }
    ensures spots { IfOk result (λ spots. AreSpotsOf bank.now spots.items) }
{
    let mut spots = Vec::new(alloc);
    put_places(alloc, bank, t, &[], &mut spots, DEPTH)?;
    Ok(spots)
}
