//! Whether a term has a given type and normal form for some of the variables of a clause as its arguments.
//!
//! With fresh variables in the place of the arguments the normal form is the same but for their names, so that each
//! argument stands there where its fresh variable does.

ghost use Rattle.std.specs.Prelude.{◌≡◌, ◌+◌, ◌-◌, ◌<◌, ◌≤◌, ℕ, Some, length, map, slice_get, IfOk};
ghost use Rattle.std.specs.Bool.{Decides};
ghost use Rattle.std.specs.Option.{MatchOption};
ghost use Rattle.leo_terms.specs.Contents.{Extends, IsArgumentBelow, argument, connective, tree_at, type_at, type_number};
ghost use Rattle.leo_terms.specs.Facts.{variable_range};
ghost use Rattle.leo_terms.specs.Tree.{app, logic};
ghost use Rattle.leo_clause.specs.Typed.{AreTypesOf};
ghost use Rattle.leo_kernel.specs.ChosenClaims.{IsFunctionOf};
ghost use Rattle.leo_kernel.specs.ChosenMatching.{IsCandidate, IsFirst, IsFresh, IsNext, IsStep, LeadsTo};
ghost use Rattle.leo_kernel.specs.ChosenTerms.{MayHaveForm, renamed};

use crate::chosen_claims::Wanted;
use crate::chosen_shown::fits;
use leo_terms::{Bank, Op, TermId, TyId, TyView, View};
use std::alloc::AllocError;

/// One step down in a term and beside it in what it is renamed to.
#[derive(Clone, Copy)]
pub(crate) enum Step {
    /// The variable is the whole term; this is the number of the one beside it.
    Found(u32),
    /// It stands in these parts.
    Into(TermId, TermId),
    /// The other term is no renamed one.
    Apart,
}

/// The step into an argument.
fn into_argument(bank: &Bank, s: TermId, t: TermId, x: &Option<TermId>, y: &Option<TermId>) -> Step
    requires within { s < length bank.now.terms }
    requires first { IsArgumentBelow s x.now }
    requires second { IsArgumentBelow (length bank.now.terms) y.now }
    requires variable { 0 < variable_range (tree_at bank.now s) }
    requires range { variable_range (argument (tree_at bank.now) x.now) ≡ variable_range (tree_at bank.now s) }
    requires leads { LeadsTo (tree_at bank.now s) (tree_at bank.now t) (argument (tree_at bank.now) x.now) (argument (tree_at bank.now) y.now) }
    ensures { IsStep bank.now s t result }
{
    bank.is_sound();
    let _ = s;
    let _ = t;
    match x {
        Some(m) => match y {
            Some(n) => Step::Into(*m, *n),
            None => Step::Apart,
        },
        None => unreachable!(),
    }
}

/// One more than the greatest number of a variable of an argument.
fn argument_range(bank: &Bank, x: &Option<TermId>) -> u64
    requires { IsArgumentBelow (length bank.now.terms) x.now }
    ensures { result ≡ variable_range (argument (tree_at bank.now) x.now) }
{
    match x {
        Some(t) => bank.variable_range(*t),
        None => 0,
    }
}

/// The step from an application.
fn from_app(bank: &Bank, s: TermId, f: TermId, x: TermId, t: TermId) -> Step
    requires within { s < length bank.now.terms }
    requires other { t < length bank.now.terms }
    requires function { f < s }
    requires argument { x < s }
    requires reads { tree_at bank.now s ≡ app (tree_at bank.now f) (tree_at bank.now x) }
    ensures { IsStep bank.now s t result }
{
    let _ = s;
    let first = bank.variable_range(f);
    let second = bank.variable_range(x);
    match bank.view(t) {
        View::App(g, y) => {
            if first < second {
                Step::Into(x, y)
            } else {
                Step::Into(f, g)
            }
        }
        _ => Step::Apart,
    }
}

/// The step from a logical constant.
fn from_logic(
    bank: &Bank,
    s: TermId,
    op: Op,
    x: Option<TermId>,
    y: Option<TermId>,
    t: TermId,
) -> Step
    requires within { s < length bank.now.terms }
    requires other { t < length bank.now.terms }
    requires first { IsArgumentBelow s x }
    requires second { IsArgumentBelow s y }
    requires variable { 0 < variable_range (tree_at bank.now s) }
    requires reads { tree_at bank.now s ≡ logic (connective bank.now op) (argument (tree_at bank.now) x) (argument (tree_at bank.now) y) }
    ensures { IsStep bank.now s t result }
{
    let _ = op;
    let first = argument_range(bank, &x);
    let second = argument_range(bank, &y);
    match bank.view(t) {
        View::Logic(_, z, w) => {
            if first < second {
                into_argument(bank, s, t, &y, &w)
            } else {
                into_argument(bank, s, t, &x, &z)
            }
        }
        _ => Step::Apart,
    }
}

/// The step from a variable or a lambda, and none from a leaf of another kind.
fn step_from(bank: &Bank, s: TermId, t: TermId) -> Step
    requires within { s < length bank.now.terms }
    requires other { t < length bank.now.terms }
    requires variable { 0 < variable_range (tree_at bank.now s) }
    ensures { IsStep bank.now s t result }
{
    match bank.view(s) {
        View::App(f, x) => from_app(bank, s, f, x, t),
        View::Logic(op, x, y) => from_logic(bank, s, op, x, y, t),
        View::Var(_) => match bank.view(t) {
            View::Var(number) => Step::Found(number),
            _ => Step::Apart,
        },
        View::Lam(_, body) => match bank.view(t) {
            View::Lam(_, inner) => Step::Into(body, inner),
            _ => Step::Apart,
        },
        View::Bound(_) => unreachable!(),
        View::Sym(_) => unreachable!(),
    }
}

/// The number of the variable that stands in `form` where the variable with the greatest number first stands in a term,
/// if `form` is the term with other variables.
fn standing(bank: &Bank, term: TermId, form: TermId) -> Option<u32>
    requires within { term < length bank.now.terms }
    requires other { form < length bank.now.terms }
    requires variable { 0 < variable_range (tree_at bank.now term) }
    ensures { (rho : ℕ → ℕ) → tree_at bank.now form ≡ renamed rho (tree_at bank.now term) → result ≡ Some (rho (variable_range (tree_at bank.now term) - 1)) }
{
    let mut inner = term;
    let mut beside = form;
    loop {
        match step_from(bank, inner, beside) {
            Step::Found(number) => return Some(number),
            Step::Into(s, t) => {
                inner = s;
                beside = t;
            }
            Step::Apart => return None,
        }
    }
}

/// The first variable of a type.
fn variable_of(vars: &[TyId], ty: TyId) -> Option<usize>
    ensures { MatchOption result ((m : ℕ) → slice_get vars.now m ≡ Some ty → ⊥) (λ m. slice_get vars.now m ≡ Some ty) }
{
    for number in 0..vars.len() {
        if vars[number] == ty {
            return Some(number);
        }
    }
    None
}

/// The number of a variable that is one of these, of this type.
fn declared(vars: &[TyId], number: Option<u32>, ty: TyId) -> Option<u32>
    ensures { MatchOption result ((m : ℕ) → number ≡ Some m → slice_get vars.now m ≡ Some ty → ⊥) (λ m. (number ≡ Some m) × (slice_get vars.now m ≡ Some ty)) }
{
    match number {
        Some(n) => {
            if n as usize >= vars.len() {
                return None;
            }
            if vars[n as usize] == ty {
                Some(n)
            } else {
                None
            }
        }
        None => None,
    }
}

/// The number of a variable of the type, that may stand for the variable `top` of a term, the greatest one, if `form` is
/// the term with other variables. More than 2^32 variables find no memory.
fn candidate(
    bank: &Bank,
    vars: &[TyId],
    ty: TyId,
    top: u32,
    term: TermId,
    form: TermId,
) -> Result<Option<u32>, AllocError>
    requires within { term < length bank.now.terms }
    requires other { form < length bank.now.terms }
    requires range { variable_range (tree_at bank.now term) ≤ top + 1 }
    ensures { IfOk result (IsCandidate vars.now ty top (tree_at bank.now term) (tree_at bank.now form)) }
{
    if bank.variable_range(term) > u64::from(top) {
        let number = standing(bank, term, form);
        return Ok(declared(vars, number, ty));
    }
    match variable_of(vars, ty) {
        Some(place) => match u32::try_from(place) {
            Ok(number) => Ok(Some(number)),
            Err(_) => Err(AllocError),
        },
        None => Ok(None),
    }
}

/// A term with fresh variables as arguments, numbered from `top` downwards, as many as give it the type. `None` where no
/// number of them does. More than there are numbers find no memory.
fn with_fresh(bank: &mut Bank, t: TermId, ty: TyId, top: u32) -> Result<Option<TermId>, AllocError>
    requires within { t < length bank.old.terms }
    requires ty { ty < length bank.old.types }
    ensures value { IfOk result (IsFresh bank.new top (type_at bank.old ty) (tree_at bank.old t)) }
    ensures grows { Extends bank.old bank.new }
{
    bank.is_sound();
    let range = bank.variable_range(t);
    if range > u64::from(top) {
        return Err(AllocError);
    }
    let mut whole = t;
    let mut number = top;
    while bank.type_of(whole) != ty {
        let found = bank.type_of(whole);
        match bank.view_ty(found) {
            TyView::Base(_) => return Ok(None),
            TyView::Arrow(from, _) => {
                if u64::from(number) <= range {
                    return Err(AllocError);
                }
                let x = bank.make_var(number, from)?;
                whole = bank.make_app(whole, x)?;
                number -= 1;
            }
        }
    }
    Ok(Some(whole))
}

/// The number of a variable with which, as its first argument, a function may still get the form, if it may at all.
/// `None` where it may not.
fn first_argument(
    bank: &mut Bank,
    vars: &[TyId],
    f: TermId,
    from: TyId,
    to: TyId,
    top: u32,
    wanted: &Wanted,
) -> Result<Option<u32>, AllocError>
    requires function { IsFunctionOf bank.old from to f }
    requires vars { AreTypesOf bank.old vars.now }
    requires ty { wanted.now.ty < length bank.old.types }
    requires form { wanted.now.form < length bank.old.terms }
    requires other { type_number bank.old f ≡ wanted.now.ty → ⊥ }
    ensures value { IfOk result (IsFirst bank.old vars.now wanted.now from f) }
    ensures grows { Extends bank.old bank.new }
{
    let _ = to;
    let fresh = with_fresh(bank, f, wanted.ty, top)?;
    match fresh {
        Some(whole) => {
            let normal = bank.normal(whole)?;
            let number = candidate(bank, vars, from, top, normal, wanted.form)?;
            Ok(number)
        }
        None => Ok(None),
    }
}

/// A function applied to one of the variables, so that it may still get the form if it may at all. `None` where it may not.
fn extended(
    bank: &mut Bank,
    vars: &[TyId],
    t: TermId,
    wanted: &Wanted,
) -> Result<Option<TermId>, AllocError>
    requires within { t < length bank.old.terms }
    requires vars { AreTypesOf bank.old vars.now }
    requires ty { wanted.now.ty < length bank.old.types }
    requires form { wanted.now.form < length bank.old.terms }
    requires other { type_number bank.old t ≡ wanted.now.ty → ⊥ }
    ensures value { IfOk result (IsNext bank.old bank.new vars.now wanted.now t) }
    ensures grows { Extends bank.old bank.new }
{
    let ty = bank.type_of(t);
    match bank.view_ty(ty) {
        TyView::Base(_) => Ok(None),
        TyView::Arrow(from, to) => {
            let first = first_argument(bank, vars, t, from, to, u32::MAX, wanted)?;
            match first {
                Some(number) => {
                    let x = bank.make_var(number, from)?;
                    let next = bank.make_app(t, x)?;
                    Ok(Some(next))
                }
                None => Ok(None),
            }
        }
    }
}

/// Whether a term has the wanted type and form, for some of the variables as its arguments.
pub(crate) fn may_fit(
    bank: &mut Bank,
    vars: &[TyId],
    t: TermId,
    wanted: &Wanted,
) -> Result<bool, AllocError>
    requires within { t < length bank.old.terms }
    requires vars { AreTypesOf bank.old vars.now }
    requires ty { wanted.now.ty < length bank.old.types }
    requires form { wanted.now.form < length bank.old.terms }
    ensures value { IfOk result (λ b. Decides b (MayHaveForm (map (type_at bank.old) vars.now) (type_at bank.old wanted.now.ty) (tree_at bank.old wanted.now.form) (tree_at bank.old t))) }
    ensures grows { Extends bank.old bank.new }
{
    bank.is_sound();
    let mut term = t;
    while bank.type_of(term) != wanted.ty {
        match extended(bank, vars, term, wanted)? {
            Some(next) => term = next,
            None => return Ok(false),
        }
    }
    let fit = fits(bank, wanted, term)?;
    Ok(fit)
}
