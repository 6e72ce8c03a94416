//! Pairs of terms, and the pairs of the arguments of two terms with one head.

ghost use Rattle.std.specs.Prelude.{◌≡◌, ◌∷◌, [], ◌<◌, length, map, IfOk, IfSome, Some, None};
ghost use Rattle.std.specs.Option.{option_map};
ghost use Rattle.leo_q0.specs.Terms.{same_type};
ghost use Rattle.leo_terms.specs.Contents.{tree_at, type_at};
ghost use Rattle.leo_unify.specs.Pairs.{and_pair, if_same, paired_arguments};
ghost use Rattle.leo_unify.specs.Tops.{application_of as application_of_tree, choice_of as choice_of_tree, is_atom as is_atom_tree, is_symbol as is_symbol_tree};
ghost use Rattle.leo_unify.specs.Views.{pair_at, application_at, chosen_at, ArePairsOf, AreOptionalPairsOf};

use leo_items::Items;
use leo_terms::{Bank, Op, TermId, TyId, View};
use std::alloc::{AllocError, Global};

/// Two terms of one type that are to become equal.
#[derive(Clone, Copy, Debug, PartialEq, Eq)]
pub struct Pair {
    pub left: TermId,
    pub right: TermId,
}

/// A function and its argument.
#[derive(Clone, Copy, Debug, PartialEq, Eq)]
pub struct Application {
    pub function: TermId,
    pub argument: TermId,
}

/// The choice of a thing of a type that has a property.
#[derive(Clone, Copy, Debug, PartialEq, Eq)]
pub struct Chosen {
    pub ty: TyId,
    pub property: TermId,
}

/// The parts of an application.
pub fn application_of(bank: &Bank, t: TermId) -> Option<Application>
    requires { t < length bank.now.terms }
    ensures value { option_map (application_at bank.now) result ≡ application_of_tree (tree_at bank.now t) }
    ensures function { IfSome result (λ a. a.function < t) }
    ensures argument { IfSome result (λ a. a.argument < t) }
{
    match bank.view(t) {
        View::Var(_) => None,
        View::Bound(_) => None,
        View::Sym(_) => None,
        View::App(function, argument) => Some(Application { function, argument }),
        View::Lam(_, _) => None,
        View::Logic(_, _, _) => None,
    }
}

/// The parts of a choice, where it is applied to nothing.
pub fn choice_of(bank: &Bank, t: TermId) -> Option<Chosen>
    requires { t < length bank.now.terms }
    ensures value { option_map (chosen_at bank.now) result ≡ choice_of_tree (tree_at bank.now t) }
    ensures property { IfSome result (λ a. a.property < t) }
    ensures ty { IfSome result (λ a. a.ty < length bank.now.types) }
{
    match bank.view(t) {
        View::Var(_) => None,
        View::Bound(_) => None,
        View::Sym(_) => None,
        View::App(_, _) => None,
        View::Lam(_, _) => None,
        View::Logic(op, x, _) => match op {
            Op::Eps(ty) => match x {
                Some(property) => Some(Chosen { ty, property }),
                None => unreachable!(),
            },
            Op::True => None,
            Op::False => None,
            Op::Not => None,
            Op::Or => None,
            Op::And => None,
            Op::Imp => None,
            Op::Eq(_) => None,
            Op::All(_) => None,
            Op::Some(_) => None,
        },
    }
}

/// Whether a term is a symbol or an index.
fn is_atom(bank: &Bank, t: TermId) -> bool
    requires { t < length bank.now.terms }
    ensures { result ≡ is_atom_tree (tree_at bank.now t) }
{
    match bank.view(t) {
        View::Var(_) => false,
        View::Bound(_) => true,
        View::Sym(_) => true,
        View::App(_, _) => false,
        View::Lam(_, _) => false,
        View::Logic(_, _, _) => false,
    }
}

/// Whether a term is a symbol.
pub fn is_symbol(bank: &Bank, t: TermId) -> bool
    requires { t < length bank.now.terms }
    ensures { result ≡ is_symbol_tree (tree_at bank.now t) }
{
    match bank.view(t) {
        View::Var(_) => false,
        View::Bound(_) => false,
        View::Sym(_) => true,
        View::App(_, _) => false,
        View::Lam(_, _) => false,
        View::Logic(_, _, _) => false,
    }
}

/// One pair as a list.
pub(crate) fn one_pair(
    alloc: Global,
    left: TermId,
    right: TermId,
) -> Result<Items<Pair>, AllocError>
    ensures { IfOk result (λ ps. ps ≡ record { left = left; right = right } ∷ []) }
{
    let mut pairs = Items::new(alloc);
    pairs.push(Pair { left, right })?;
    Ok(pairs)
}

/// The pairs of the arguments of two terms that are no applications.
fn paired_heads(
    alloc: Global,
    bank: &Bank,
    l: TermId,
    r: TermId,
) -> Result<Option<Items<Pair>>, AllocError>
    requires left { l < length bank.now.terms }
    requires right { r < length bank.now.terms }
    requires head { application_of_tree (tree_at bank.now l) ≡ None }
    ensures value { IfOk result (λ ps. option_map (map (pair_at bank.now)) ps ≡ paired_arguments (tree_at bank.now l) (tree_at bank.now r)) }
    ensures within { IfOk result (AreOptionalPairsOf bank.now) }
{
    bank.is_sound();
    match choice_of(bank, l) {
        Some(first) => match choice_of(bank, r) {
            Some(second) => {
                if first.ty == second.ty {
                    let pairs = one_pair(alloc, first.property, second.property)?;
                    Ok(Some(pairs))
                } else {
                    Ok(None)
                }
            }
            None => Ok(None),
        },
        None => {
            if !is_atom(bank, l) {
                return Ok(None);
            }
            if l == r {
                Ok(Some(Items::new(alloc)))
            } else {
                Ok(None)
            }
        }
    }
}

/// The pairs of the arguments, from left to right, of two terms that have the same symbol, the same index or choice at one
/// type as head, and as many arguments. Goes at most `room` levels down.
pub(crate) fn paired(
    alloc: Global,
    bank: &Bank,
    l: TermId,
    r: TermId,
    room: u32,
) -> Result<Option<Items<Pair>>, AllocError>
    requires left { l < length bank.now.terms }
    requires right { r < length bank.now.terms }
    ensures value { IfOk result (λ ps. option_map (map (pair_at bank.now)) ps ≡ paired_arguments (tree_at bank.now l) (tree_at bank.now r)) }
    ensures within { IfOk result (AreOptionalPairsOf bank.now) }
{
    let Some(room) = room.checked_sub(1) else {
        return Err(AllocError);
    };
    match application_of(bank, l) {
        Some(first) => match application_of(bank, r) {
            Some(second) => {
                let front = paired(alloc, bank, first.function, second.function, room)?;
                match front {
                    Some(mut pairs) => {
                        pairs.push(Pair {
                            left: first.argument,
                            right: second.argument,
                        })?;
                        Ok(Some(pairs))
                    }
                    None => Ok(None),
                }
            }
            None => Ok(None),
        },
        None => paired_heads(alloc, bank, l, r),
    }
}
