//! The terms at the places of a term.

ghost use Rattle.std.specs.Prelude.{[], ◌∷◌, ◌++◌, ◌≡◌, ◌<◌, length, map, IfOk, OnOk};
ghost use Rattle.leo_terms.specs.Contents.{IsArgumentBelow, argument, tree_at};
ghost use Rattle.leo_para.specs.Places.{argument_places, places};
ghost use Rattle.leo_ext.specs.Terms.{AreWithin, terms_of};

use leo_terms::{Bank, DEPTH, TermId, View};
use std::alloc::{AllocError, Global};

/// Appends the terms at the places of a term. Goes at most `room` levels down.
#[cycle(put)]
fn put_places(bank: &Bank, t: TermId, terms: &mut Vec<TermId>, room: u32) -> Result<(), AllocError>
    requires within { t < length bank.now.terms }
    requires terms { AreWithin bank.now terms.old.items }
    ensures places { OnOk result (map (tree_at bank.now) terms.new.items ≡ map (tree_at bank.now) terms.old.items ++ terms_of (places (tree_at bank.now t))) }
    ensures terms { OnOk result (AreWithin bank.now terms.new.items) }
{
    let Some(room) = room.checked_sub(1) else {
        return Err(AllocError);
    };
    bank.is_sound();
    terms.push(t)?;
    put_arguments(bank, t, terms, room)?;
    Ok(())
}

/// Appends the terms at the places in the arguments of a term.
#[cycle(put)]
fn put_arguments(
    bank: &Bank,
    t: TermId,
    terms: &mut Vec<TermId>,
    room: u32,
) -> Result<(), AllocError>
    requires within { t < length bank.now.terms }
    requires terms { AreWithin bank.now terms.old.items }
    ensures places { OnOk result (map (tree_at bank.now) terms.new.items ≡ map (tree_at bank.now) terms.old.items ++ terms_of (argument_places (tree_at bank.now t))) }
    ensures terms { OnOk result (AreWithin bank.now terms.new.items) }
{
    let Some(room) = room.checked_sub(1) else {
        return Err(AllocError);
    };
    match bank.view(t) {
        View::App(f, a) => {
            put_arguments(bank, f, terms, room)?;
            put_places(bank, a, terms, room)?;
            Ok(())
        }
        View::Logic(_, x, y) => {
            put_argument(bank, x, terms, room)?;
            put_argument(bank, y, terms, room)?;
            Ok(())
        }
        View::Var(_) => Ok(()),
        View::Bound(_) => Ok(()),
        View::Sym(_) => Ok(()),
        View::Lam(_, _) => Ok(()),
    }
}

/// Appends the terms at the places of an argument that may be missing.
#[cycle(put)]
fn put_argument(
    bank: &Bank,
    x: Option<TermId>,
    terms: &mut Vec<TermId>,
    room: u32,
) -> Result<(), AllocError>
    requires within { IsArgumentBelow (length bank.now.terms) x }
    requires terms { AreWithin bank.now terms.old.items }
    ensures places { OnOk result (map (tree_at bank.now) terms.new.items ≡ map (tree_at bank.now) terms.old.items ++ terms_of (places (argument (tree_at bank.now) x))) }
    ensures terms { OnOk result (AreWithin bank.now terms.new.items) }
{
    match x {
        Some(t) => {
            put_places(bank, t, terms, room)?;
            Ok(())
        }
        None => Ok(()),
    }
}

/// The terms at the places of a term, in order.
pub(crate) fn terms_at(alloc: Global, bank: &Bank, t: TermId) -> Result<Vec<TermId>, AllocError>
    requires { t < length bank.now.terms }
    ensures places { IfOk result (λ terms. map (tree_at bank.now) terms.items ≡ terms_of (places (tree_at bank.now t))) }
    ensures terms { IfOk result (λ terms. AreWithin bank.now terms.items) }
{
    let mut terms = Vec::new(alloc);
    put_places(bank, t, &mut terms, DEPTH)?;
    Ok(terms)
}
