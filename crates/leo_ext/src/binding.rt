//! What a variable at the head of a formula is bound to.

ghost use Rattle.std.specs.Prelude.{[], ◌∷◌, ◌<◌, ◌≡◌, length, map, nat_eq, true, false, IfOk, OnOk};
ghost use Rattle.std.specs.List.{list_any};
ghost use Rattle.leo_q0.specs.Terms.{SimpleType, arrow};
ghost use Rattle.leo_terms.specs.Contents.{Extends, IsTerm, tree_at, type_at};
ghost use Rattle.leo_terms.specs.Tree.{app, bound, type_of};
ghost use Rattle.leo_clause.specs.Arranging.{firsts};
ghost use Rattle.leo_clause.specs.Typed.{AreTypesOf};
ghost use Rattle.leo_clausify.specs.Picking.{IsTree};
ghost use Rattle.leo_ext.specs.Binding.{argument_types as argument_types_of, arrows, bindings as bindings_of, disjunction_binding, equation_binding, fresh_function as fresh_function_of, negation_binding, of_indices as of_indices_of, truth_binding, under_lambdas as under_lambdas_of};
ghost use Rattle.leo_ext.specs.Bounds.{AddsBindings, AreBindings, AreIndicesOf, AreTwo, AreTypes, IsBinding, IsType};

use crate::choosing::variable_numbered;
use leo_items::Items;
use leo_terms::{Bank, Op, TermId, TyId, TyView};
use std::alloc::{AllocError, Global};

/// The types of fresh variables, and what stands below the lambdas.
#[derive(Drop)]
pub(crate) struct Bound {
    pub fresh: Items<TyId>,
    pub body: TermId,
}

/// The types of the arguments that functions of a type take, one after the other.
pub(crate) fn argument_types(alloc: Global, bank: &Bank, ty: TyId) -> Result<Vec<TyId>, AllocError>
    requires { ty < length bank.now.types }
    ensures { IfOk result (λ ts. AreTypes bank.now ts.items (argument_types_of (type_at bank.now ty))) }
{
    let mut types = Vec::new(alloc);
    let mut rest = ty;
    while let TyView::Arrow(from, to) = bank.view_ty(rest) {
        types.push(from)?;
        rest = to;
    }
    Ok(types)
}

/// The type of functions that take arguments of these types, and give a thing of a type then.
fn function_type(bank: &mut Bank, types: &[TyId], to: TyId) -> Result<TyId, AllocError>
    requires types { AreTypesOf bank.old types.now }
    requires to { to < length bank.old.types }
    ensures made { IfOk result (λ i. IsType bank.new i (arrows (map (type_at bank.old) types.now) (type_at bank.old to))) }
    ensures grows { Extends bank.old bank.new }
{
    bank.is_sound();
    match types.split_first() {
        None => Ok(to),
        Some((first, rest)) => {
            let given = function_type(bank, rest, to)?;
            let whole = bank.arrow(*first, given)?;
            Ok(whole)
        }
    }
}

/// A function of the index of the outermost of some lambdas.
fn of_index(bank: &mut Bank, f: TermId, index: usize, ty: TyId) -> Result<TermId, AllocError>
    requires within { f < length bank.old.terms }
    requires ty { ty < length bank.old.types }
    requires function { (b : SimpleType) × (type_of (tree_at bank.old f) ≡ arrow (type_at bank.old ty) b) }
    ensures made { IfOk result (λ t. IsTree bank.new t (app (tree_at bank.old f) (bound index (type_at bank.old ty)))) }
    ensures grows { Extends bank.old bank.new }
{
    bank.is_sound();
    let Ok(number) = u32::try_from(index) else {
        return Err(AllocError);
    };
    let x = bank.make_bound(number, ty)?;
    let whole = bank.make_app(f, x)?;
    Ok(whole)
}

/// A function of the indices of lambdas of these types.
fn of_indices(bank: &mut Bank, types: &[TyId], f: TermId) -> Result<TermId, AllocError>
    requires types { AreTypesOf bank.old types.now }
    requires within { f < length bank.old.terms }
    requires function { (b : SimpleType) × (type_of (tree_at bank.old f) ≡ arrows (map (type_at bank.old) types.now) b) }
    ensures made { IfOk result (λ t. IsTree bank.new t (of_indices_of (map (type_at bank.old) types.now) (tree_at bank.old f))) }
    ensures grows { Extends bank.old bank.new }
{
    bank.is_sound();
    match types.split_first() {
        None => Ok(f),
        Some((first, rest)) => {
            let next = of_index(bank, f, rest.len(), *first)?;
            let whole = of_indices(bank, rest, next)?;
            Ok(whole)
        }
    }
}

/// A term below lambdas of these types.
pub(crate) fn under_lambdas(
    bank: &mut Bank,
    types: &[TyId],
    t: TermId,
) -> Result<TermId, AllocError>
    requires types { AreTypesOf bank.old types.now }
    requires within { t < length bank.old.terms }
    requires indices { AreIndicesOf (map (type_at bank.old) types.now) (tree_at bank.old t) }
    ensures made { IfOk result (λ r. IsTree bank.new r (under_lambdas_of (map (type_at bank.old) types.now) (tree_at bank.old t))) }
    ensures grows { Extends bank.old bank.new }
{
    bank.is_sound();
    match types.split_first() {
        None => Ok(t),
        Some((first, rest)) => {
            let below = under_lambdas(bank, rest, t)?;
            let whole = bank.make_lam(*first, below)?;
            Ok(whole)
        }
    }
}

/// A fresh variable as a function of the indices of lambdas of these types.
fn fresh_function(
    bank: &mut Bank,
    number: u64,
    whole: TyId,
    types: &[TyId],
    to: TyId,
) -> Result<TermId, AllocError>
    requires types { AreTypesOf bank.old types.now }
    requires to { to < length bank.old.types }
    requires whole { IsType bank.old whole (arrows (map (type_at bank.old) types.now) (type_at bank.old to)) }
    ensures made { IfOk result (λ t. IsTerm bank.new t to (fresh_function_of number (map (type_at bank.old) types.now) (type_at bank.old to))) }
    ensures grows { Extends bank.old bank.new }
{
    bank.is_sound();
    let variable = variable_numbered(bank, number, whole)?;
    let term = of_indices(bank, types, variable)?;
    Ok(term)
}

/// T or F.
fn truth_bound(alloc: Global, bank: &mut Bank, value: bool) -> Result<Bound, AllocError>
    ensures made { IfOk result (λ b. IsBinding bank.new b (truth_binding value)) }
    ensures grows { Extends bank.old bank.new }
{
    bank.is_sound();
    let op = if value { Op::True } else { Op::False };
    let body = bank.make_logic(op, &[])?;
    Ok(Bound {
        fresh: Items::new(alloc),
        body,
    })
}

/// `~ (H x)`.
fn negation_bound(
    alloc: Global,
    bank: &mut Bank,
    next: u64,
    types: &[TyId],
) -> Result<Bound, AllocError>
    requires { AreTypesOf bank.old types.now }
    ensures made { IfOk result (λ b. IsBinding bank.new b (negation_binding next (map (type_at bank.old) types.now))) }
    ensures grows { Extends bank.old bank.new }
{
    bank.is_sound();
    let truth = TyId::truth();
    let whole = function_type(bank, types, truth)?;
    let term = fresh_function(bank, next, whole, types, truth)?;
    let body = bank.make_logic(Op::Not, &[term])?;
    let fresh = Items::from_slice(alloc, &[whole])?;
    Ok(Bound { fresh, body })
}

/// Two fresh variables as functions of indices, and their type.
#[derive(Clone, Copy)]
struct Two {
    ty: TyId,
    first: TermId,
    second: TermId,
}

fn two_functions(bank: &mut Bank, next: u64, types: &[TyId], to: TyId) -> Result<Two, AllocError>
    requires types { AreTypesOf bank.old types.now }
    requires to { to < length bank.old.types }
    ensures made { IfOk result (AreTwo bank.new next (map (type_at bank.old) types.now) to (type_at bank.old to)) }
    ensures grows { Extends bank.old bank.new }
{
    bank.is_sound();
    let Some(after) = next.checked_add(1) else {
        return Err(AllocError);
    };
    let ty = function_type(bank, types, to)?;
    let first = fresh_function(bank, next, ty, types, to)?;
    let second = fresh_function(bank, after, ty, types, to)?;
    Ok(Two { ty, first, second })
}

/// `(H x) | (K x)`.
fn disjunction_bound(
    alloc: Global,
    bank: &mut Bank,
    next: u64,
    types: &[TyId],
) -> Result<Bound, AllocError>
    requires { AreTypesOf bank.old types.now }
    ensures made { IfOk result (λ b. IsBinding bank.new b (disjunction_binding next (map (type_at bank.old) types.now))) }
    ensures grows { Extends bank.old bank.new }
{
    bank.is_sound();
    let two = two_functions(bank, next, types, TyId::truth())?;
    let body = bank.make_logic(Op::Or, &[two.first, two.second])?;
    let fresh = Items::from_slice(alloc, &[two.ty, two.ty])?;
    Ok(Bound { fresh, body })
}

/// `(H x) = (K x)`, where these are things of a type.
fn equation_bound(
    alloc: Global,
    bank: &mut Bank,
    next: u64,
    types: &[TyId],
    ty: TyId,
) -> Result<Bound, AllocError>
    requires types { AreTypesOf bank.old types.now }
    requires ty { ty < length bank.old.types }
    ensures made { IfOk result (λ b. IsBinding bank.new b (equation_binding next (map (type_at bank.old) types.now) (type_at bank.old ty))) }
    ensures grows { Extends bank.old bank.new }
{
    bank.is_sound();
    let two = two_functions(bank, next, types, ty)?;
    let body = bank.make_logic(Op::Eq(ty), &[two.first, two.second])?;
    let fresh = Items::from_slice(alloc, &[two.ty, two.ty])?;
    Ok(Bound { fresh, body })
}

/// Whether a type stands among others.
fn stands_among(ty: TyId, others: &[TyId]) -> bool
    ensures { result ≡ list_any (nat_eq ty) others.now }
{
    others.iter().any(|other| ty == *other)
}

/// The types, each once.
fn different(alloc: Global, types: &[TyId]) -> Result<Vec<TyId>, AllocError>
    ensures { IfOk result (λ ts. ts.items ≡ firsts nat_eq [] types.now) }
{
    let mut kept = Vec::new(alloc);
    for ty in types {
        if !stands_among(*ty, &kept) {
            kept.push(*ty)?;
        }
    }
    Ok(kept)
}

/// Appends T, F, the negation and the disjunction.
fn put_connectives(
    alloc: Global,
    bank: &mut Bank,
    next: u64,
    types: &[TyId],
    bounds: &mut Vec<Bound>,
) -> Result<(), AllocError>
    requires { AreTypesOf bank.old types.now }
    ensures adds { OnOk result (AddsBindings bank.old bank.new bounds.old.items bounds.new.items (truth_binding true ∷ truth_binding false ∷ negation_binding next (map (type_at bank.old) types.now) ∷ disjunction_binding next (map (type_at bank.old) types.now) ∷ [])) }
    ensures grows { Extends bank.old bank.new }
{
    bank.is_sound();
    let yes = truth_bound(alloc, bank, true)?;
    bounds.push(yes)?;
    let no = truth_bound(alloc, bank, false)?;
    bounds.push(no)?;
    let negation = negation_bound(alloc, bank, next, types)?;
    bounds.push(negation)?;
    let disjunction = disjunction_bound(alloc, bank, next, types)?;
    bounds.push(disjunction)?;
    Ok(())
}

/// Appends an equation for each of some types.
fn put_equations(
    alloc: Global,
    bank: &mut Bank,
    next: u64,
    types: &[TyId],
    sides: &[TyId],
    bounds: &mut Vec<Bound>,
) -> Result<(), AllocError>
    requires types { AreTypesOf bank.old types.now }
    requires sides { AreTypesOf bank.old sides.now }
    ensures adds { OnOk result (AddsBindings bank.old bank.new bounds.old.items bounds.new.items (map (equation_binding next (map (type_at bank.old) types.now)) (map (type_at bank.old) sides.now))) }
    ensures grows { Extends bank.old bank.new }
{
    bank.is_sound();
    for side in sides {
        let bound = equation_bound(alloc, bank, next, types, *side)?;
        bounds.push(bound)?;
    }
    Ok(())
}

/// All that a function of arguments of these types is bound to, in order. Fresh variables are numbered from `next` on.
pub(crate) fn bindings(
    alloc: Global,
    bank: &mut Bank,
    next: u64,
    types: &[TyId],
) -> Result<Vec<Bound>, AllocError>
    requires { AreTypesOf bank.old types.now }
    ensures made { IfOk result (λ bs. AreBindings bank.new bs.items (bindings_of next (map (type_at bank.old) types.now))) }
    ensures grows { Extends bank.old bank.new }
{
    bank.is_sound();
    let mut bounds = Vec::new(alloc);
    put_connectives(alloc, bank, next, types, &mut bounds)?;
    let sides = different(alloc, types)?;
    put_equations(alloc, bank, next, types, &sides, &mut bounds)?;
    Ok(bounds)
}
