//! Variables that are applied to different indices.

ghost use Rattle.std.specs.Prelude.{◌≡◌, ◌<◌, length, map, nat_eq, IfOk};
ghost use Rattle.std.specs.List.{list_any};
ghost use Rattle.std.specs.Option.{option_map};
ghost use Rattle.leo_terms.specs.Contents.{Extends, tree_at, type_at};
ghost use Rattle.leo_unify.specs.Patterns.{index_at_head as index_of_head, long_index as index_of, new_index as new_index_of, pattern_of as pattern_of_tree};
ghost use Rattle.leo_unify.specs.Views.{pattern_at, HasTypes};

use leo_items::Items;
use leo_terms::{Bank, TermId, TyId, View};
use std::alloc::{AllocError, Global};

/// A variable, and the indices that it is applied to with their types, the last argument first.
#[derive(Drop)]
pub(crate) struct Pattern {
    pub number: u32,
    pub order: Items<u32>,
    pub types: Items<TyId>,
}

/// The loose index at the head of a term.
fn index_at_head(bank: &Bank, t: TermId) -> Result<Option<u32>, AllocError>
    requires { t < length bank.now.terms }
    ensures { IfOk result (λ i. i ≡ index_of_head 0 (tree_at bank.now t)) }
{
    let mut depth: u32 = 0;
    let mut part = t;
    loop {
        match bank.view(part) {
            View::Var(_) => return Ok(None),
            View::Bound(index) => {
                if index < depth {
                    return Ok(None);
                }
                return Ok(Some(index - depth));
            }
            View::Sym(_) => return Ok(None),
            View::App(f, _) => part = f,
            View::Lam(_, body) => {
                let Some(under) = depth.checked_add(1) else {
                    return Err(AllocError);
                };
                depth = under;
                part = body;
            }
            View::Logic(_, _, _) => return Ok(None),
        }
    }
}

/// The index of which a term is the eta-long form.
fn long_index(bank: &mut Bank, t: TermId) -> Result<Option<u32>, AllocError>
    requires { t < length bank.old.terms }
    ensures value { IfOk result (λ i. i ≡ index_of (tree_at bank.old t)) }
    ensures grows { Extends bank.old bank.new }
{
    bank.is_sound();
    let ty = bank.type_of(t);
    match index_at_head(bank, t)? {
        Some(index) => {
            let bound = bank.make_bound(index, ty)?;
            let long = bank.normal(bound)?;
            if t == long { Ok(Some(index)) } else { Ok(None) }
        }
        None => Ok(None),
    }
}

/// Whether a number stands in a list.
pub(crate) fn contains(order: &[u32], index: u32) -> bool
    ensures { result ≡ list_any (nat_eq index) order.now }
{
    order.iter().any(|other| index == *other)
}

/// The index of which a term is the eta-long form, if it is none of these.
fn new_index(bank: &mut Bank, order: &[u32], t: TermId) -> Result<Option<u32>, AllocError>
    requires { t < length bank.old.terms }
    ensures value { IfOk result (λ i. i ≡ new_index_of order.now (tree_at bank.old t)) }
    ensures grows { Extends bank.old bank.new }
{
    match long_index(bank, t)? {
        Some(index) => {
            if contains(order, index) {
                Ok(None)
            } else {
                Ok(Some(index))
            }
        }
        None => Ok(None),
    }
}

/// The pattern that a term is.
pub(crate) fn pattern_of(
    alloc: Global,
    bank: &mut Bank,
    t: TermId,
) -> Result<Option<Pattern>, AllocError>
    requires { t < length bank.old.terms }
    ensures value { IfOk result (λ p. option_map (pattern_at bank.new) p ≡ pattern_of_tree (tree_at bank.old t)) }
    ensures types { IfOk result (HasTypes bank.new) }
    ensures grows { Extends bank.old bank.new }
{
    bank.is_sound();
    let mut order = Items::new(alloc);
    let mut types = Items::new(alloc);
    let mut part = t;
    loop {
        match bank.view(part) {
            View::Var(number) => {
                return Ok(Some(Pattern {
                    number,
                    order,
                    types,
                }));
            }
            View::Bound(_) => return Ok(None),
            View::Sym(_) => return Ok(None),
            View::App(f, x) => {
                let ty = bank.type_of(x);
                match new_index(bank, order.as_slice(), x)? {
                    Some(index) => {
                        order.push(index)?;
                        types.push(ty)?;
                        part = f;
                    }
                    None => return Ok(None),
                }
            }
            View::Lam(_, _) => return Ok(None),
            View::Logic(_, _, _) => return Ok(None),
        }
    }
}
