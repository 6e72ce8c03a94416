//! Heads, and the types of the arguments that they take.

ghost use Rattle.std.specs.Prelude.{◌≡◌, ◌<◌, ◌++◌, [], length, map, IfOk, IfSome, IfNone};
ghost use Rattle.leo_q0.specs.Terms.{arrow};
ghost use Rattle.leo_terms.specs.Contents.{Extends, HasTypeBelow, connective, tree_at, type_at};
ghost use Rattle.leo_terms.specs.Tree.{universal};
ghost use Rattle.leo_clause.specs.Typed.{AreTypesOf};
ghost use Rattle.leo_unify.specs.Acts.{constant_domains as constant_domains_of, domains as domains_of, is_constant as is_constant_tree, result_type as result_of, taken_by as taken_by_of};

use leo_items::Items;
use leo_terms::{Bank, Op, TermId, TyId, TyView, View};
use std::alloc::{AllocError, Global};

/// The parts of a type of functions.
#[derive(Clone, Copy)]
struct Function {
    from: TyId,
    to: TyId,
}

/// The parts of a type, where it is one of functions.
fn function_parts(bank: &Bank, ty: TyId) -> Option<Function>
    requires { ty < length bank.now.types }
    ensures value { IfSome result (λ f. type_at bank.now ty ≡ arrow (type_at bank.now f.from) (type_at bank.now f.to)) }
    ensures from { IfSome result (λ f. f.from < ty) }
    ensures to { IfSome result (λ f. f.to < ty) }
    ensures takes_none { IfNone result (domains_of (type_at bank.now ty) ≡ []) }
    ensures gives { IfNone result (result_of (type_at bank.now ty) ≡ type_at bank.now ty) }
{
    bank.is_sound();
    match bank.view_ty(ty) {
        TyView::Base(_) => None,
        TyView::Arrow(from, to) => Some(Function { from, to }),
    }
}

/// The types of the arguments that a function of a type takes one after the other.
pub(crate) fn domains(alloc: Global, bank: &Bank, ty: TyId) -> Result<Items<TyId>, AllocError>
    requires { ty < length bank.now.types }
    ensures value { IfOk result (λ ts. map (type_at bank.now) ts ≡ domains_of (type_at bank.now ty)) }
    ensures types { IfOk result (AreTypesOf bank.now) }
{
    let mut taken = Items::new(alloc);
    let mut part = ty;
    while let Some(function) = function_parts(bank, part) {
        taken.push(function.from)?;
        part = function.to;
    }
    Ok(taken)
}

/// The type of what a function of a type gives in the end.
pub(crate) fn result_type(bank: &Bank, ty: TyId) -> TyId
    requires { ty < length bank.now.types }
    ensures value { type_at bank.now result ≡ result_of (type_at bank.now ty) }
    ensures within { result < length bank.now.types }
{
    let mut part = ty;
    while let Some(function) = function_parts(bank, part) {
        part = function.to;
    }
    part
}

/// The types of one argument that is a property of things of a type.
fn property_domain(alloc: Global, bank: &mut Bank, ty: TyId) -> Result<Items<TyId>, AllocError>
    requires { ty < length bank.old.types }
    ensures value { IfOk result (λ ts. map (type_at bank.new) ts ≡ constant_domains_of (universal (type_at bank.old ty))) }
    ensures types { IfOk result (AreTypesOf bank.new) }
    ensures grows { Extends bank.old bank.new }
{
    bank.is_sound();
    let property = bank.arrow(ty, TyId::truth())?;
    let taken = Items::from_slice(alloc, &[property])?;
    Ok(taken)
}

/// The types of the arguments that stand with a logical constant itself.
fn constant_domains(alloc: Global, bank: &mut Bank, op: Op) -> Result<Items<TyId>, AllocError>
    requires { HasTypeBelow (length bank.old.types) op }
    ensures value { IfOk result (λ ts. map (type_at bank.new) ts ≡ constant_domains_of (connective bank.old op)) }
    ensures types { IfOk result (AreTypesOf bank.new) }
    ensures grows { Extends bank.old bank.new }
{
    bank.is_sound();
    let truth = TyId::truth();
    match op {
        Op::True => Ok(Items::new(alloc)),
        Op::False => Ok(Items::new(alloc)),
        Op::Not => Items::from_slice(alloc, &[truth]),
        Op::Or => Items::from_slice(alloc, &[truth, truth]),
        Op::And => Items::from_slice(alloc, &[truth, truth]),
        Op::Imp => Items::from_slice(alloc, &[truth, truth]),
        Op::Eq(ty) => Items::from_slice(alloc, &[ty, ty]),
        Op::All(ty) => property_domain(alloc, bank, ty),
        Op::Some(ty) => property_domain(alloc, bank, ty),
        Op::Eps(ty) => property_domain(alloc, bank, ty),
    }
}

/// The types of the arguments that a logical constant takes, whose type with its own arguments is given.
fn taken_by_constant(
    alloc: Global,
    bank: &mut Bank,
    op: Op,
    ty: TyId,
) -> Result<Items<TyId>, AllocError>
    requires op { HasTypeBelow (length bank.old.types) op }
    requires ty { ty < length bank.old.types }
    ensures value { IfOk result (λ ts. map (type_at bank.new) ts ≡ constant_domains_of (connective bank.old op) ++ domains_of (type_at bank.old ty)) }
    ensures types { IfOk result (AreTypesOf bank.new) }
    ensures grows { Extends bank.old bank.new }
{
    let mut taken = constant_domains(alloc, bank, op)?;
    let others = domains(alloc, bank, ty)?;
    taken.append(others)?;
    Ok(taken)
}

/// The types of the arguments that a head takes.
pub(crate) fn taken_by(alloc: Global, bank: &mut Bank, h: TermId) -> Result<Items<TyId>, AllocError>
    requires { h < length bank.old.terms }
    ensures value { IfOk result (λ ts. map (type_at bank.new) ts ≡ taken_by_of (tree_at bank.old h)) }
    ensures types { IfOk result (AreTypesOf bank.new) }
    ensures grows { Extends bank.old bank.new }
{
    bank.is_sound();
    let ty = bank.type_of(h);
    match bank.view(h) {
        View::Var(_) => domains(alloc, bank, ty),
        View::Bound(_) => domains(alloc, bank, ty),
        View::Sym(_) => domains(alloc, bank, ty),
        View::App(_, _) => Ok(Items::new(alloc)),
        View::Lam(_, _) => Ok(Items::new(alloc)),
        View::Logic(op, _, _) => taken_by_constant(alloc, bank, op, ty),
    }
}

/// Whether a term is a symbol or a logical constant.
pub(crate) fn is_constant(bank: &Bank, t: TermId) -> bool
    requires { t < length bank.now.terms }
    ensures { result ≡ is_constant_tree (tree_at bank.now t) }
{
    match bank.view(t) {
        View::Var(_) => false,
        View::Bound(_) => false,
        View::Sym(_) => true,
        View::App(_, _) => false,
        View::Lam(_, _) => false,
        View::Logic(_, _, _) => true,
    }
}
