//! Matching: terms for the variables of a term, so that it becomes another.

ghost use Rattle.std.specs.Prelude.{◌≡◌, ◌<◌, length, map, slice_get, Some, IfOk, MatchOption, is_none};
ghost use Rattle.std.specs.Bool.{Decides, OnTrue};
ghost use Rattle.leo_terms.specs.Contents.{HasTypeBelow, IsArgumentBelow, argument, connective, tree_at, type_at};
ghost use Rattle.leo_terms.specs.Facts.{tree_weight};
ghost use Rattle.leo_terms.specs.Tree.{app, lam, logic};
ghost use Rattle.leo_clause.specs.Typed.{AreTypesOf};
ghost use Rattle.leo_keep.specs.Subsumption.{MayReplace};
ghost use Rattle.leo_keep.specs.Matching.{AreBindings, BothFit, Fits, IsBoundTo, IsGivenAt, IsOverSome, IsUnbound, IsVariable, Narrows};

use crate::tops::{Constant, application_of, constant_of, is_one_constant, lambda_of};
use leo_clause::Lit;
use leo_terms::{Bank, DEPTH, TermId, TyId, TyView, View};
use std::alloc::AllocError;

/// What a variable is bound to.
#[derive(Clone, Copy, Debug, PartialEq, Eq)]
pub(crate) struct Binding {
    pub variable: u32,
    pub term: TermId,
}

/// The term that a variable is bound to.
fn bound_to(bindings: &[Binding], variable: u32) -> Option<TermId>
    ensures { MatchOption result (IsUnbound variable bindings.now) (λ t. IsBoundTo variable t bindings.now) }
{
    for binding in bindings {
        if binding.variable == variable {
            return Some(binding.term);
        }
    }
    None
}

/// Whether a term is a variable.
fn is_variable(bank: &Bank, t: TermId) -> bool
    requires { t < length bank.now.terms }
    ensures { Decides result (IsVariable (tree_at bank.now t)) }
{
    match bank.view(t) {
        View::Var(_) => true,
        View::Bound(_) => false,
        View::Sym(_) => false,
        View::App(_, _) => false,
        View::Lam(_, _) => false,
        View::Logic(_, _, _) => false,
    }
}

/// Whether a term may be put in for a variable of this type: it has the type, and where that is a base type no loose index,
/// where it is the type of a function it is a variable.
fn may_replace(bank: &Bank, ty: TyId, t: TermId) -> bool
    requires ty { ty < length bank.now.types }
    requires within { t < length bank.now.terms }
    ensures { Decides result (MayReplace (type_at bank.now ty) (tree_at bank.now t)) }
{
    if bank.type_of(t) != ty {
        return false;
    }
    match bank.view_ty(ty) {
        TyView::Base(_) => bank.is_locally_closed(t),
        TyView::Arrow(_, _) => is_variable(bank, t),
    }
}

/// Whether an argument is missing.
fn is_missing(x: Option<TermId>) -> bool
    ensures { result ≡ is_none x }
{
    match x {
        Some(_) => false,
        None => true,
    }
}

/// Binds a variable to a term, if the term may replace it and it is bound to no other.
fn bind(
    bank: &Bank,
    vars: &[TyId],
    variable: u32,
    t: TermId,
    bindings: &mut Vec<Binding>,
) -> Result<bool, AllocError>
    requires vars { AreTypesOf bank.now vars.now }
    requires variable { variable < length vars.now }
    requires within { t < length bank.now.terms }
    requires sound { AreBindings bank.now (map (type_at bank.now) vars.now) bindings.old.items }
    ensures { IfOk result (λ b. Narrows bank.now (map (type_at bank.now) vars.now) bindings.old.items bindings.new.items b (IsGivenAt variable (tree_at bank.now t))) }
{
    bank.is_sound();
    if !may_replace(bank, vars[variable as usize], t) {
        return Ok(false);
    }
    match bound_to(bindings, variable) {
        Some(bound) => Ok(bound == t),
        None => {
            bindings.push(Binding { variable, term: t })?;
            Ok(true)
        }
    }
}

/// Binds the variables of a term so that it becomes another. Goes at most `room` levels down.
#[cycle(fit)]
fn fit(
    bank: &Bank,
    vars: &[TyId],
    pattern: TermId,
    t: TermId,
    bindings: &mut Vec<Binding>,
    room: u32,
) -> Result<bool, AllocError>
    requires vars { AreTypesOf bank.now vars.now }
    requires pattern { pattern < length bank.now.terms }
    requires within { t < length bank.now.terms }
    requires over { IsOverSome (map (type_at bank.now) vars.now) (tree_at bank.now pattern) }
    requires sound { AreBindings bank.now (map (type_at bank.now) vars.now) bindings.old.items }
    ensures { IfOk result (λ b. Narrows bank.now (map (type_at bank.now) vars.now) bindings.old.items bindings.new.items b (Fits (tree_at bank.now pattern) (tree_at bank.now t))) }
{
    let Some(room) = room.checked_sub(1) else {
        return Err(AllocError);
    };
    if bank.is_ground(pattern) {
        return Ok(pattern == t);
    }
    fit_parts(bank, vars, pattern, t, bindings, room)
}

/// The same, by the parts of the term.
#[cycle(fit)]
fn fit_parts(
    bank: &Bank,
    vars: &[TyId],
    pattern: TermId,
    t: TermId,
    bindings: &mut Vec<Binding>,
    room: u32,
) -> Result<bool, AllocError>
    requires vars { AreTypesOf bank.now vars.now }
    requires pattern { pattern < length bank.now.terms }
    requires within { t < length bank.now.terms }
    requires over { IsOverSome (map (type_at bank.now) vars.now) (tree_at bank.now pattern) }
    requires sound { AreBindings bank.now (map (type_at bank.now) vars.now) bindings.old.items }
    ensures { IfOk result (λ b. Narrows bank.now (map (type_at bank.now) vars.now) bindings.old.items bindings.new.items b (Fits (tree_at bank.now pattern) (tree_at bank.now t))) }
{
    match bank.view(pattern) {
        View::Var(number) => {
            let bound = bind(bank, vars, number, t, bindings)?;
            Ok(bound)
        }
        View::Bound(_) => Ok(pattern == t),
        View::Sym(_) => Ok(pattern == t),
        View::App(f, a) => fit_app(bank, vars, f, a, t, bindings, room),
        View::Lam(ty, body) => fit_lam(bank, vars, ty, body, t, bindings, room),
        View::Logic(op, first, second) => {
            let pattern = Constant { op, first, second };
            fit_constant(bank, vars, &pattern, t, bindings, room)
        }
    }
}

/// The same of a function with its argument.
#[cycle(fit)]
fn fit_app(
    bank: &Bank,
    vars: &[TyId],
    f: TermId,
    a: TermId,
    t: TermId,
    bindings: &mut Vec<Binding>,
    room: u32,
) -> Result<bool, AllocError>
    requires vars { AreTypesOf bank.now vars.now }
    requires function { f < length bank.now.terms }
    requires argument { a < length bank.now.terms }
    requires within { t < length bank.now.terms }
    requires function_over { IsOverSome (map (type_at bank.now) vars.now) (tree_at bank.now f) }
    requires argument_over { IsOverSome (map (type_at bank.now) vars.now) (tree_at bank.now a) }
    requires sound { AreBindings bank.now (map (type_at bank.now) vars.now) bindings.old.items }
    ensures { IfOk result (λ b. Narrows bank.now (map (type_at bank.now) vars.now) bindings.old.items bindings.new.items b (Fits (app (tree_at bank.now f) (tree_at bank.now a)) (tree_at bank.now t))) }
{
    match application_of(bank, t) {
        Some(other) => {
            let first = fit(bank, vars, f, other.function, bindings, room)?;
            if !first {
                return Ok(false);
            }
            let second = fit(bank, vars, a, other.argument, bindings, room)?;
            Ok(second)
        }
        None => Ok(false),
    }
}

/// The same of a lambda.
#[cycle(fit)]
fn fit_lam(
    bank: &Bank,
    vars: &[TyId],
    ty: TyId,
    body: TermId,
    t: TermId,
    bindings: &mut Vec<Binding>,
    room: u32,
) -> Result<bool, AllocError>
    requires vars { AreTypesOf bank.now vars.now }
    requires ty { ty < length bank.now.types }
    requires body { body < length bank.now.terms }
    requires within { t < length bank.now.terms }
    requires over { IsOverSome (map (type_at bank.now) vars.now) (tree_at bank.now body) }
    requires sound { AreBindings bank.now (map (type_at bank.now) vars.now) bindings.old.items }
    ensures { IfOk result (λ b. Narrows bank.now (map (type_at bank.now) vars.now) bindings.old.items bindings.new.items b (Fits (lam (type_at bank.now ty) (tree_at bank.now body)) (tree_at bank.now t))) }
{
    bank.is_sound();
    match lambda_of(bank, t) {
        Some(other) => {
            if ty != other.ty {
                return Ok(false);
            }
            let fits = fit(bank, vars, body, other.body, bindings, room)?;
            Ok(fits)
        }
        None => Ok(false),
    }
}

/// The same of a logical constant.
#[cycle(fit)]
fn fit_constant(
    bank: &Bank,
    vars: &[TyId],
    pattern: &Constant,
    t: TermId,
    bindings: &mut Vec<Binding>,
    room: u32,
) -> Result<bool, AllocError>
    requires vars { AreTypesOf bank.now vars.now }
    requires op { HasTypeBelow (length bank.now.types) pattern.now.op }
    requires first { IsArgumentBelow (length bank.now.terms) pattern.now.first }
    requires second { IsArgumentBelow (length bank.now.terms) pattern.now.second }
    requires within { t < length bank.now.terms }
    requires first_over { IsOverSome (map (type_at bank.now) vars.now) (argument (tree_at bank.now) pattern.now.first) }
    requires second_over { IsOverSome (map (type_at bank.now) vars.now) (argument (tree_at bank.now) pattern.now.second) }
    requires sound { AreBindings bank.now (map (type_at bank.now) vars.now) bindings.old.items }
    ensures { IfOk result (λ b. Narrows bank.now (map (type_at bank.now) vars.now) bindings.old.items bindings.new.items b (Fits (logic (connective bank.now pattern.now.op) (argument (tree_at bank.now) pattern.now.first) (argument (tree_at bank.now) pattern.now.second)) (tree_at bank.now t))) }
{
    match constant_of(bank, t) {
        Some(other) => {
            if !is_one_constant(bank, pattern.op, other.op) {
                return Ok(false);
            }
            let first = fit_argument(bank, vars, pattern.first, other.first, bindings, room)?;
            if !first {
                return Ok(false);
            }
            let second = fit_argument(bank, vars, pattern.second, other.second, bindings, room)?;
            Ok(second)
        }
        None => Ok(false),
    }
}

/// The same of arguments that may be missing.
#[cycle(fit)]
fn fit_argument(
    bank: &Bank,
    vars: &[TyId],
    x: Option<TermId>,
    y: Option<TermId>,
    bindings: &mut Vec<Binding>,
    room: u32,
) -> Result<bool, AllocError>
    requires vars { AreTypesOf bank.now vars.now }
    requires pattern { IsArgumentBelow (length bank.now.terms) x }
    requires within { IsArgumentBelow (length bank.now.terms) y }
    requires over { IsOverSome (map (type_at bank.now) vars.now) (argument (tree_at bank.now) x) }
    requires sound { AreBindings bank.now (map (type_at bank.now) vars.now) bindings.old.items }
    ensures { IfOk result (λ b. Narrows bank.now (map (type_at bank.now) vars.now) bindings.old.items bindings.new.items b (Fits (argument (tree_at bank.now) x) (argument (tree_at bank.now) y))) }
{
    bank.is_sound();
    match x {
        Some(pattern) => match y {
            Some(t) => {
                let fits = fit(bank, vars, pattern, t, bindings, room)?;
                Ok(fits)
            }
            None => Ok(false),
        },
        None => Ok(is_missing(y)),
    }
}

/// Whether a term is too heavy to become another. Whatever is put in for variables, a term loses no weight.
fn is_too_heavy(bank: &Bank, pattern: TermId, t: TermId) -> bool
    requires pattern { pattern < length bank.now.terms }
    requires within { t < length bank.now.terms }
    ensures { OnTrue result (tree_weight (tree_at bank.now t) < tree_weight (tree_at bank.now pattern)) }
{
    bank.weight(t) < bank.weight(pattern)
}

/// Binds the variables of a literal so that its sides become these.
pub(crate) fn fit_sides(
    bank: &Bank,
    vars: &[TyId],
    lit: &Lit,
    left: TermId,
    right: TermId,
    bindings: &mut Vec<Binding>,
) -> Result<bool, AllocError>
    requires vars { AreTypesOf bank.now vars.now }
    requires lit_left { lit.now.left < length bank.now.terms }
    requires lit_right { lit.now.right < length bank.now.terms }
    requires left { left < length bank.now.terms }
    requires right { right < length bank.now.terms }
    requires left_over { IsOverSome (map (type_at bank.now) vars.now) (tree_at bank.now lit.now.left) }
    requires right_over { IsOverSome (map (type_at bank.now) vars.now) (tree_at bank.now lit.now.right) }
    requires sound { AreBindings bank.now (map (type_at bank.now) vars.now) bindings.old.items }
    ensures { IfOk result (λ b. Narrows bank.now (map (type_at bank.now) vars.now) bindings.old.items bindings.new.items b (BothFit (tree_at bank.now lit.now.left) (tree_at bank.now left) (tree_at bank.now lit.now.right) (tree_at bank.now right))) }
{
    if is_too_heavy(bank, lit.left, left) {
        return Ok(false);
    }
    if is_too_heavy(bank, lit.right, right) {
        return Ok(false);
    }
    let first = fit(bank, vars, lit.left, left, bindings, DEPTH)?;
    if !first {
        return Ok(false);
    }
    let second = fit(bank, vars, lit.right, right, bindings, DEPTH)?;
    Ok(second)
}
