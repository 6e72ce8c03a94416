//! Terms whose loose indices become those of new lambdas around them.

ghost use Rattle.std.specs.Prelude.{◌≡◌, ◌+◌, ◌<◌, ◌≤◌, length, map, IfOk, true};
ghost use Rattle.leo_terms.specs.Facts.{loose_range, variable_range};
ghost use Rattle.leo_terms.specs.Contents.{Extends, HasTypeBelow, IsArgumentBelow, IsArgumentTerm, IsTerm, Takes, argument, argument_type, connective, operator_type, tree_at, type_at, type_number};
ghost use Rattle.leo_terms.specs.Tree.{bound, logic};
ghost use Rattle.leo_clause.specs.Arranging.{place_in};
ghost use Rattle.leo_clause.specs.Typed.{AreTypesOf};
ghost use Rattle.leo_unify.specs.Patterns.{abstracted as abstracted_tree, is_covered as is_covered_tree, rebound as rebound_tree};
ghost use Rattle.leo_unify.specs.Views.{AreBodyTypes};

use crate::pattern::contains;
use leo_terms::{Bank, Op, TermId, TyId, View};
use std::alloc::AllocError;

/// Whether what is kept of a term says that variables have smaller numbers, and that no index is loose under `depth` lambdas.
fn has_none(bank: &Bank, number: u32, t: TermId, depth: u32) -> bool
    requires { t < length bank.now.terms }
    ensures { result ≡ true → (variable_range (tree_at bank.now t) ≤ number) × (loose_range (tree_at bank.now t) ≤ depth) }
{
    let range = bank.variable_range(t);
    let loose = bank.loose_range(t);
    range <= u64::from(number) && loose <= u64::from(depth)
}

/// Whether a variable does not occur in a term under `depth` lambdas, and all indices that are loose with these are
/// among the given ones. Goes at most `room` levels down.
#[cycle(cover)]
pub(crate) fn is_covered(
    bank: &Bank,
    number: u32,
    order: &[u32],
    t: TermId,
    depth: u32,
    room: u32,
) -> Result<bool, AllocError>
    requires { t < length bank.now.terms }
    ensures { IfOk result (λ b. b ≡ is_covered_tree number order.now depth (tree_at bank.now t)) }
{
    if has_none(bank, number, t, depth) {
        return Ok(true);
    }
    let Some(room) = room.checked_sub(1) else {
        return Err(AllocError);
    };
    match bank.view(t) {
        View::Var(n) => Ok(n != number),
        View::Bound(index) => {
            if index < depth {
                return Ok(true);
            }
            Ok(contains(order, index - depth))
        }
        View::Sym(_) => Ok(true),
        View::App(f, x) => {
            let first = is_covered(bank, number, order, f, depth, room)?;
            if !first {
                return Ok(false);
            }
            let second = is_covered(bank, number, order, x, depth, room)?;
            Ok(second)
        }
        View::Lam(_, body) => {
            let Some(under) = depth.checked_add(1) else {
                return Err(AllocError);
            };
            let covered = is_covered(bank, number, order, body, under, room)?;
            Ok(covered)
        }
        View::Logic(_, x, y) => {
            let first = is_argument_covered(bank, number, order, x, depth, room)?;
            if !first {
                return Ok(false);
            }
            let second = is_argument_covered(bank, number, order, y, depth, room)?;
            Ok(second)
        }
    }
}

#[cycle(cover)]
fn is_argument_covered(
    bank: &Bank,
    number: u32,
    order: &[u32],
    x: Option<TermId>,
    depth: u32,
    room: u32,
) -> Result<bool, AllocError>
    requires { IsArgumentBelow (length bank.now.terms) x }
    ensures { IfOk result (λ b. b ≡ is_covered_tree number order.now depth (argument (tree_at bank.now) x)) }
{
    match x {
        Some(t) => {
            let covered = is_covered(bank, number, order, t, depth, room)?;
            Ok(covered)
        }
        None => Ok(true),
    }
}

/// A number's place in the order; past its end where it is not there.
fn place_of(order: &[u32], number: u32) -> usize
    ensures { result ≡ place_in order.now number }
{
    for place in 0..order.len() {
        if number == order[place] {
            return place;
        }
    }
    order.len()
}

/// An index that is loose under `depth` lambdas, as the index of its place.
fn rebound_index(
    bank: &mut Bank,
    order: &[u32],
    t: TermId,
    index: u32,
    depth: u32,
) -> Result<TermId, AllocError>
    requires within { t < length bank.old.terms }
    requires reads { tree_at bank.old t ≡ bound index (type_at bank.old (type_number bank.old t)) }
    ensures made { IfOk result (λ r. IsTerm bank.new r (type_number bank.old t) (rebound_tree order.now depth (tree_at bank.old t))) }
    ensures grows { Extends bank.old bank.new }
{
    bank.is_sound();
    if index < depth {
        return Ok(t);
    }
    let ty = bank.type_of(t);
    let Ok(place) = u32::try_from(place_of(order, index - depth)) else {
        return Err(AllocError);
    };
    let Some(number) = depth.checked_add(place) else {
        return Err(AllocError);
    };
    let r = bank.make_bound(number, ty)?;
    Ok(r)
}

/// A logical constant with its arguments.
fn with_arguments(
    bank: &mut Bank,
    op: Op,
    x: Option<TermId>,
    y: Option<TermId>,
) -> Result<TermId, AllocError>
    requires first { IsArgumentBelow (length bank.old.terms) x }
    requires second { IsArgumentBelow (length bank.old.terms) y }
    requires type_within { HasTypeBelow (length bank.old.types) op }
    requires typed { Takes bank.old op (argument_type bank.old x) (argument_type bank.old y) (operator_type op) }
    ensures made { IfOk result (λ t. IsTerm bank.new t (operator_type op) (logic (connective bank.old op) (argument (tree_at bank.old) x) (argument (tree_at bank.old) y))) }
    ensures grows { Extends bank.old bank.new }
{
    match x {
        Some(first) => match y {
            Some(second) => bank.make_logic(op, &[first, second]),
            None => bank.make_logic(op, &[first]),
        },
        None => bank.make_logic(op, &[]),
    }
}

/// Whether no index of a term is loose under `depth` lambdas.
fn is_closed_under(bank: &Bank, t: TermId, depth: u32) -> bool
    requires { t < length bank.now.terms }
    ensures { result ≡ true → loose_range (tree_at bank.now t) ≤ depth }
{
    let loose = bank.loose_range(t);
    loose <= u64::from(depth)
}

/// A term under `depth` lambdas, whose loose indices become their places in the order. Goes at most `room` levels down.
#[cycle(rebind)]
pub(crate) fn rebound(
    bank: &mut Bank,
    order: &[u32],
    t: TermId,
    depth: u32,
    room: u32,
) -> Result<TermId, AllocError>
    requires { t < length bank.old.terms }
    ensures made { IfOk result (λ r. IsTerm bank.new r (type_number bank.old t) (rebound_tree order.now depth (tree_at bank.old t))) }
    ensures grows { Extends bank.old bank.new }
{
    bank.is_sound();
    if is_closed_under(bank, t, depth) {
        return Ok(t);
    }
    let Some(room) = room.checked_sub(1) else {
        return Err(AllocError);
    };
    match bank.view(t) {
        View::Var(_) => Ok(t),
        View::Bound(index) => rebound_index(bank, order, t, index, depth),
        View::Sym(_) => Ok(t),
        View::App(f, x) => {
            let function = rebound(bank, order, f, depth, room)?;
            let argument = rebound(bank, order, x, depth, room)?;
            let r = bank.make_app(function, argument)?;
            Ok(r)
        }
        View::Lam(ty, body) => {
            let Some(under) = depth.checked_add(1) else {
                return Err(AllocError);
            };
            let inner = rebound(bank, order, body, under, room)?;
            let r = bank.make_lam(ty, inner)?;
            Ok(r)
        }
        View::Logic(op, x, y) => {
            let first = rebound_argument(bank, order, x, depth, room)?;
            let second = rebound_argument(bank, order, y, depth, room)?;
            let r = with_arguments(bank, op, first, second)?;
            Ok(r)
        }
    }
}

#[cycle(rebind)]
fn rebound_argument(
    bank: &mut Bank,
    order: &[u32],
    x: Option<TermId>,
    depth: u32,
    room: u32,
) -> Result<Option<TermId>, AllocError>
    requires { IsArgumentBelow (length bank.old.terms) x }
    ensures made { IfOk result (λ r. IsArgumentTerm bank.new r (argument_type bank.old x) (rebound_tree order.now depth (argument (tree_at bank.old) x))) }
    ensures grows { Extends bank.old bank.new }
{
    bank.is_sound();
    match x {
        Some(t) => {
            let r = rebound(bank, order, t, depth, room)?;
            Ok(Some(r))
        }
        None => Ok(None),
    }
}

/// A function of indices of these types, the innermost first.
pub(crate) fn abstracted(
    bank: &mut Bank,
    types: &[TyId],
    body: TermId,
) -> Result<TermId, AllocError>
    requires types { AreTypesOf bank.old types.now }
    requires body { body < length bank.old.terms }
    requires typed { AreBodyTypes (map (type_at bank.old) types.now) (tree_at bank.old body) }
    ensures value { IfOk result (λ r. tree_at bank.new r ≡ abstracted_tree (map (type_at bank.old) types.now) (tree_at bank.old body)) }
    ensures within { IfOk result (λ r. r < length bank.new.terms) }
    ensures grows { Extends bank.old bank.new }
{
    bank.is_sound();
    let mut t = body;
    for ty in types {
        t = bank.make_lam(*ty, t)?;
    }
    Ok(t)
}
