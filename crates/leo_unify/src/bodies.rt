//! The bodies of the functions that variables become.

ghost use Rattle.std.specs.Prelude.{◌≡◌, ◌++◌, ◌+◌, ◌<◌, length, map, IfOk, true};
ghost use Rattle.leo_q0.specs.Terms.{SimpleType};
ghost use Rattle.leo_terms.specs.Contents.{AreTerms, Contents, Extends, HasTypeBelow, connective, tree_at, type_at};
ghost use Rattle.leo_terms.specs.Tree.{connective_type, type_of, variable};
ghost use Rattle.leo_clause.specs.Typed.{AreTypesOf};
ghost use Rattle.leo_unify.specs.Acts.{applied_to as applied_of, binders as binders_of, constant_domains, constant_with as constant_of, domains, fresh_values, function_of as function_of_tree, function_type as function_type_of, headed as headed_of, taken_by};
ghost use Rattle.leo_unify.specs.Heads.{is_head, own_arguments, AreIndexed, IsFrameOf};

use crate::binding::{Frame, Fresh};
use leo_items::Items;
use leo_terms::{Bank, Op, TermId, TyId, View};
use std::alloc::{AllocError, Global};

/// The type of functions of arguments of these types.
fn function_type(bank: &mut Bank, outer: &[TyId], ty: TyId) -> Result<TyId, AllocError>
    requires outer { AreTypesOf bank.old outer.now }
    requires ty { ty < length bank.old.types }
    ensures value { IfOk result (λ r. type_at bank.new r ≡ function_type_of (map (type_at bank.old) outer.now) (type_at bank.old ty)) }
    ensures within { IfOk result (λ r. r < length bank.new.types) }
    ensures grows { Extends bank.old bank.new }
{
    bank.is_sound();
    match outer {
        [] => Ok(ty),
        [first, rest @ ..] => {
            let inner = function_type(bank, rest, ty)?;
            let r = bank.arrow(*first, inner)?;
            Ok(r)
        }
    }
}

/// The arguments in the body of a function of arguments of these types, from the first to the last.
pub(crate) fn binders(
    alloc: Global,
    bank: &mut Bank,
    outer: &[TyId],
) -> Result<Items<TermId>, AllocError>
    requires { AreTypesOf bank.old outer.now }
    ensures value { IfOk result (λ ts. map (tree_at bank.new) ts ≡ binders_of (map (type_at bank.old) outer.now)) }
    ensures terms { IfOk result (λ ts. AreTerms bank.new ts) }
    ensures grows { Extends bank.old bank.new }
{
    bank.is_sound();
    let mut binders = Items::new(alloc);
    for place in 0..outer.len() {
        let Ok(index) = u32::try_from(outer.len() - place - 1) else {
            return Err(AllocError);
        };
        let binder = bank.make_bound(index, outer[place])?;
        binders.push(binder)?;
    }
    Ok(binders)
}

/// A function applied to these arguments, one after the other.
fn applied_to(bank: &mut Bank, f: TermId, arguments: &[TermId]) -> Result<TermId, AllocError>
    requires function { f < length bank.old.terms }
    requires arguments { AreTerms bank.old arguments.now }
    requires typed { (b : SimpleType) × (type_of (tree_at bank.old f) ≡ function_type_of (map type_of (map (tree_at bank.old) arguments.now)) b) }
    ensures value { IfOk result (λ r. tree_at bank.new r ≡ applied_of (tree_at bank.old f) (map (tree_at bank.old) arguments.now)) }
    ensures within { IfOk result (λ r. r < length bank.new.terms) }
    ensures grows { Extends bank.old bank.new }
{
    bank.is_sound();
    match arguments {
        [] => Ok(f),
        [first, rest @ ..] => {
            let whole = bank.make_app(f, *first)?;
            let r = applied_to(bank, whole, rest)?;
            Ok(r)
        }
    }
}

/// A fresh variable for a value of a type, and its value at all arguments.
#[derive(Clone, Copy)]
struct FreshValue {
    ty: TyId,
    value: TermId,
}

fn fresh_value(
    bank: &mut Bank,
    frame: &Frame,
    number: u32,
    ty: TyId,
) -> Result<FreshValue, AllocError>
    requires frame { IsFrameOf bank.old frame.now }
    requires ty { ty < length bank.old.types }
    ensures types { IfOk result (λ v. type_at bank.new v.ty ≡ function_type_of (map (type_at bank.old) frame.now.outer) (type_at bank.old ty)) }
    ensures value { IfOk result (λ v. tree_at bank.new v.value ≡ applied_of (variable number (function_type_of (map (type_at bank.old) frame.now.outer) (type_at bank.old ty))) (binders_of (map (type_at bank.old) frame.now.outer))) }
    ensures types_within { IfOk result (λ v. v.ty < length bank.new.types) }
    ensures within { IfOk result (λ v. v.value < length bank.new.terms) }
    ensures grows { Extends bank.old bank.new }
{
    bank.is_sound();
    let function = function_type(bank, frame.outer.as_slice(), ty)?;
    let variable = bank.make_var(number, function)?;
    let value = applied_to(bank, variable, frame.binders.as_slice())?;
    Ok(FreshValue {
        ty: function,
        value,
    })
}

/// Fresh variables for values of these types.
pub(crate) fn fresh(
    alloc: Global,
    bank: &mut Bank,
    frame: &Frame,
    taken: &[TyId],
) -> Result<Fresh, AllocError>
    requires frame { IsFrameOf bank.old frame.now }
    requires taken { AreTypesOf bank.old taken.now }
    ensures types { IfOk result (λ f. map (type_at bank.new) f.types ≡ map (function_type_of (map (type_at bank.old) frame.now.outer)) (map (type_at bank.old) taken.now)) }
    ensures types_of { IfOk result (λ f. AreTypesOf bank.new f.types) }
    ensures values { IfOk result (λ f. map (tree_at bank.new) f.values ≡ fresh_values (map (type_at bank.old) frame.now.outer) frame.now.next (map (type_at bank.old) taken.now)) }
    ensures values_of { IfOk result (λ f. AreTerms bank.new f.values) }
    ensures grows { Extends bank.old bank.new }
{
    bank.is_sound();
    let mut types = Items::new(alloc);
    let mut values = Items::new(alloc);
    let mut number = frame.next;
    for place in 0..taken.len() {
        let fresh = fresh_value(bank, frame, number, taken[place])?;
        types.push(fresh.ty)?;
        values.push(fresh.value)?;
        let Some(following) = number.checked_add(1) else {
            return Err(AllocError);
        };
        number = following;
    }
    Ok(Fresh { types, values })
}

/// How many arguments stand with a logical constant itself.
fn own_count(op: &Op) -> usize
    ensures { (c : Contents) → result ≡ own_arguments (connective c op.now) }
{
    match op {
        Op::True => 0,
        Op::False => 0,
        Op::Not => 1,
        Op::Or => 2,
        Op::And => 2,
        Op::Imp => 2,
        Op::Eq(_) => 2,
        Op::All(_) => 1,
        Op::Some(_) => 1,
        Op::Eps(_) => 1,
    }
}

/// A logical constant with the first of these as its arguments, applied to the others.
fn constant_with(bank: &mut Bank, op: Op, arguments: &[TermId]) -> Result<TermId, AllocError>
    requires op { HasTypeBelow (length bank.old.types) op }
    requires arguments { AreTerms bank.old arguments.now }
    requires typed { map type_of (map (tree_at bank.old) arguments.now) ≡ constant_domains (connective bank.old op) ++ domains (connective_type (connective bank.old op)) }
    ensures value { IfOk result (λ r. tree_at bank.new r ≡ constant_of (connective bank.old op) (map (tree_at bank.old) arguments.now)) }
    ensures within { IfOk result (λ r. r < length bank.new.terms) }
    ensures grows { Extends bank.old bank.new }
{
    bank.is_sound();
    let count = own_count(&op);
    let constant = bank.make_logic(op, &arguments[..count])?;
    let r = applied_to(bank, constant, &arguments[count..])?;
    Ok(r)
}

/// A head with these as its arguments.
pub(crate) fn headed(bank: &mut Bank, h: TermId, arguments: &[TermId]) -> Result<TermId, AllocError>
    requires within { h < length bank.old.terms }
    requires head { is_head (tree_at bank.old h) ≡ true }
    requires arguments { AreTerms bank.old arguments.now }
    requires typed { map type_of (map (tree_at bank.old) arguments.now) ≡ taken_by (tree_at bank.old h) }
    ensures value { IfOk result (λ r. tree_at bank.new r ≡ headed_of (tree_at bank.old h) (map (tree_at bank.old) arguments.now)) }
    ensures within { IfOk result (λ r. r < length bank.new.terms) }
    ensures grows { Extends bank.old bank.new }
{
    bank.is_sound();
    match bank.view(h) {
        View::Var(_) => applied_to(bank, h, arguments),
        View::Bound(_) => applied_to(bank, h, arguments),
        View::Sym(_) => applied_to(bank, h, arguments),
        View::App(_, _) => unreachable!(),
        View::Lam(_, _) => unreachable!(),
        View::Logic(op, _, _) => constant_with(bank, op, arguments),
    }
}

/// A function of arguments of these types with this body.
pub(crate) fn function_of(
    bank: &mut Bank,
    outer: &[TyId],
    body: TermId,
) -> Result<TermId, AllocError>
    requires outer { AreTypesOf bank.old outer.now }
    requires body { body < length bank.old.terms }
    requires indexed { AreIndexed (map (type_at bank.old) outer.now) (tree_at bank.old body) }
    ensures value { IfOk result (λ r. tree_at bank.new r ≡ function_of_tree (map (type_at bank.old) outer.now) (tree_at bank.old body)) }
    ensures within { IfOk result (λ r. r < length bank.new.terms) }
    ensures grows { Extends bank.old bank.new }
{
    bank.is_sound();
    match outer {
        [] => Ok(body),
        [first, rest @ ..] => {
            let inner = function_of(bank, rest, body)?;
            let r = bank.make_lam(*first, inner)?;
            Ok(r)
        }
    }
}
