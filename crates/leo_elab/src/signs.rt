//! The terms that the connectives, binders and equation marks make.

ghost use Rattle.std.specs.Prelude.{◌≡◌, ◌≢◌, ◌<◌, ◌+◌, ◌∷◌, [], ℕ, length, slice_get, Some, IfOk, IfErr, IfSome, IfNone, List, None, true, false};
ghost use Rattle.leo_q0.specs.Terms.{SimpleType, Term, truth, arrow, apply, constant, variable};
ghost use Rattle.leo_q0.specs.Connectives.{not_term, true_term, false_term};
ghost use Rattle.leo_terms.specs.Contents.{Contents, Extends, IsArrow, type_at, tree_at, type_number, symbol_type};
ghost use Rattle.leo_terms.specs.Tree.{IsBoundAt};
ghost use Rattle.leo_terms.specs.Decode.{connected};
ghost use Rattle.leo_elab.specs.declared.refusal.ElabRefusal.TheVariants.{Memory, WrongType};
ghost use Rattle.leo_elab.specs.Signs as sign;
ghost use Rattle.leo_elab.specs.Signs.{IsBodyOf};
ghost use Rattle.leo_elab.specs.Standing.{Stands};
ghost use Rattle.leo_elab.specs.Places.{IsFormulaIn, AppliesTo, QuantifiesOver, TakesFormulas, both, IsBodyIn};

use crate::quantifiers::Quantifier;
use crate::refusal::ElabRefusal;
use leo_syntax::{Binder, Connective, Sign};
use leo_terms::{Bank, Op, TermId, TyId, TyView};
use std::alloc::AllocError;

/// `$true`
pub fn true_sign(bank: &mut Bank) -> Result<TermId, AllocError>
    ensures made { IfOk result (λ t. (s : List SimpleType) → Stands bank.new s t true_term truth) }
    ensures within { IfOk result (λ r. r < length bank.new.terms) }
    ensures grows { Extends bank.old bank.new }
{
    let t = bank.make_logic(Op::True, &[])?;
    Ok(t)
}

/// `$false`
pub fn false_sign(bank: &mut Bank) -> Result<TermId, AllocError>
    ensures made { IfOk result (λ t. (s : List SimpleType) → Stands bank.new s t false_term truth) }
    ensures within { IfOk result (λ r. r < length bank.new.terms) }
    ensures grows { Extends bank.old bank.new }
{
    let t = bank.make_logic(Op::False, &[])?;
    Ok(t)
}

/// Not of a formula.
pub fn negated(bank: &mut Bank, t: TermId) -> Result<TermId, AllocError>
    requires { IsFormulaIn bank.old t }
    ensures made { IfOk result (λ r. (s : List SimpleType) (m : Term) → Stands bank.old s t m truth → Stands bank.new s r (apply not_term m) truth) }
    ensures within { IfOk result (λ r. r < length bank.new.terms) }
    ensures grows { Extends bank.old bank.new }
{
    let r = bank.make_logic(Op::Not, &[t])?;
    Ok(r)
}

/// A logical constant of two formulas.
fn both(bank: &mut Bank, op: Op, t: TermId, u: TermId) -> Result<TermId, AllocError>
    requires takes { TakesFormulas op }
    requires left { IsFormulaIn bank.old t }
    requires right { IsFormulaIn bank.old u }
    ensures made { IfOk result (λ r. (s : List SimpleType) (m n : Term) → Stands bank.old s t m truth → Stands bank.old s u n truth → Stands bank.new s r (both op m n) truth) }
    ensures formula { IfOk result (IsFormulaIn bank.new) }
    ensures grows { Extends bank.old bank.new }
{
    bank.is_sound();
    let r = bank.make_logic(op, &[t, u])?;
    Ok(r)
}

/// Not of a logical constant of two formulas.
fn neither(bank: &mut Bank, op: Op, t: TermId, u: TermId) -> Result<TermId, AllocError>
    requires takes { TakesFormulas op }
    requires left { IsFormulaIn bank.old t }
    requires right { IsFormulaIn bank.old u }
    ensures made { IfOk result (λ r. (s : List SimpleType) (m n : Term) → Stands bank.old s t m truth → Stands bank.old s u n truth → Stands bank.new s r (apply not_term (both op m n)) truth) }
    ensures within { IfOk result (λ r. r < length bank.new.terms) }
    ensures grows { Extends bank.old bank.new }
{
    let whole = both(bank, op, t, u)?;
    let r = negated(bank, whole)?;
    Ok(r)
}

/// Two formulas with a connective between them.
pub fn joined(
    bank: &mut Bank,
    connective: Connective,
    t: TermId,
    u: TermId,
) -> Result<TermId, AllocError>
    requires left { IsFormulaIn bank.old t }
    requires right { IsFormulaIn bank.old u }
    ensures made { IfOk result (λ r. (s : List SimpleType) (m n : Term) → Stands bank.old s t m truth → Stands bank.old s u n truth → Stands bank.new s r (sign.joined connective m n) truth) }
    ensures within { IfOk result (λ r. r < length bank.new.terms) }
    ensures grows { Extends bank.old bank.new }
{
    let same = Op::Eq(TyId::truth());
    match connective {
        Connective::Or => {
            let r = both(bank, Op::Or, t, u)?;
            Ok(r)
        }
        Connective::And => {
            let r = both(bank, Op::And, t, u)?;
            Ok(r)
        }
        Connective::Implies => {
            let r = both(bank, Op::Imp, t, u)?;
            Ok(r)
        }
        Connective::ImpliedBy => {
            let r = both(bank, Op::Imp, u, t)?;
            Ok(r)
        }
        Connective::Iff => {
            let r = both(bank, same, t, u)?;
            Ok(r)
        }
        Connective::Xor => {
            let r = neither(bank, same, t, u)?;
            Ok(r)
        }
        Connective::Nor => {
            let r = neither(bank, Op::Or, t, u)?;
            Ok(r)
        }
        Connective::Nand => {
            let r = neither(bank, Op::And, t, u)?;
            Ok(r)
        }
    }
}

/// An equation of two terms of the same type.
fn equation(bank: &mut Bank, t: TermId, u: TermId) -> Result<TermId, AllocError>
    requires left { t < length bank.old.terms }
    requires right { u < length bank.old.terms }
    requires same { type_number bank.old t ≡ type_number bank.old u }
    ensures made { IfOk result (λ r. (s : List SimpleType) (m n : Term) (a : SimpleType) → Stands bank.old s t m a → Stands bank.old s u n a → Stands bank.new s r (sign.equated Sign.Equal a m n) truth) }
    ensures formula { IfOk result (IsFormulaIn bank.new) }
    ensures grows { Extends bank.old bank.new }
{
    bank.is_sound();
    let ty = bank.type_of(t);
    let r = bank.make_logic(Op::Eq(ty), &[t, u])?;
    Ok(r)
}

/// An equation of two terms of the same type, or its negation.
fn marked(bank: &mut Bank, mark: Sign, t: TermId, u: TermId) -> Result<TermId, AllocError>
    requires left { t < length bank.old.terms }
    requires right { u < length bank.old.terms }
    requires same { type_number bank.old t ≡ type_number bank.old u }
    ensures made { IfOk result (λ r. (s : List SimpleType) (m n : Term) (a : SimpleType) → Stands bank.old s t m a → Stands bank.old s u n a → Stands bank.new s r (sign.equated mark a m n) truth) }
    ensures within { IfOk result (λ r. r < length bank.new.terms) }
    ensures grows { Extends bank.old bank.new }
{
    let whole = equation(bank, t, u)?;
    match mark {
        Sign::Equal => Ok(whole),
        Sign::NotEqual => {
            let r = negated(bank, whole)?;
            Ok(r)
        }
    }
}

/// An equation of two terms, or its negation, whose mark stands at that byte.
pub fn equated(
    bank: &mut Bank,
    mark: Sign,
    t: TermId,
    u: TermId,
    byte: u32,
) -> Result<TermId, ElabRefusal>
    requires left { t < length bank.old.terms }
    requires right { u < length bank.old.terms }
    ensures made { IfOk result (λ r. (s : List SimpleType) (m n : Term) (a b : SimpleType) → Stands bank.old s t m a → Stands bank.old s u n b → (a ≡ b) × Stands bank.new s r (sign.equated mark a m n) truth) }
    ensures byte { IfErr result (λ e. e ≢ Memory → e ≡ WrongType byte) }
    ensures differ { IfErr result (λ e. e ≢ Memory → type_at bank.old (type_number bank.old t) ≢ type_at bank.old (type_number bank.old u)) }
    ensures within { IfOk result (λ r. r < length bank.new.terms) }
    ensures grows { Extends bank.old bank.new }
{
    bank.is_sound();
    if bank.type_of(t) == bank.type_of(u) {
        let r = marked(bank, mark, t, u)?;
        Ok(r)
    } else {
        Err(ElabRefusal::WrongType { byte })
    }
}

/// `!!`, `??` or `@@+` of a set of things of a type.
fn over(
    bank: &mut Bank,
    quantifier: Quantifier,
    element: TyId,
    set: TermId,
) -> Result<TermId, AllocError>
    requires within { set < length bank.old.terms }
    requires set { IsArrow bank.old (type_number bank.old set) element 0 }
    ensures made { IfOk result (λ r. (s : List SimpleType) (p : Term) (a : SimpleType) → a ≡ type_at bank.old element → Stands bank.old s set p (arrow a truth) → Stands bank.new s r (sign.quantified quantifier a p) (sign.quantified_type quantifier a)) }
    ensures within { IfOk result (λ r. r < length bank.new.terms) }
    ensures grows { Extends bank.old bank.new }
{
    bank.is_sound();
    match quantifier {
        Quantifier::Pi => {
            let r = bank.make_logic(Op::All(element), &[set])?;
            Ok(r)
        }
        Quantifier::Sigma => {
            let r = bank.make_logic(Op::Some(element), &[set])?;
            Ok(r)
        }
        Quantifier::Choice => {
            let r = bank.make_logic(Op::Eps(element), &[set])?;
            Ok(r)
        }
    }
}

/// A body that a binder takes, under that binder of one variable.
fn under(bank: &mut Bank, binder: Binder, ty: TyId, body: TermId) -> Result<TermId, AllocError>
    requires ty { ty < length bank.old.types }
    requires body { body < length bank.old.terms }
    requires typed { IsBoundAt 0 (type_at bank.old ty) (tree_at bank.old body) }
    requires fits { IsBodyIn bank.old binder body }
    ensures made { IfOk result (λ r. (s : List SimpleType) (m : Term) (a b : SimpleType) → a ≡ type_at bank.old ty → Stands bank.old (a ∷ s) body m b → Stands bank.new s r (sign.bound binder (record { number = length s; type = a }) m) (sign.bound_type binder a b)) }
    ensures within { IfOk result (λ r. r < length bank.new.terms) }
    ensures grows { Extends bank.old bank.new }
{
    let function = bank.make_lam(ty, body)?;
    match binder {
        Binder::ForAll => {
            let r = over(bank, Quantifier::Pi, ty, function)?;
            Ok(r)
        }
        Binder::Exists => {
            let r = over(bank, Quantifier::Sigma, ty, function)?;
            Ok(r)
        }
        Binder::Lambda => Ok(function),
        Binder::Choice => {
            let r = over(bank, Quantifier::Choice, ty, function)?;
            Ok(r)
        }
    }
}

/// Whether a binder takes a body.
fn takes(bank: &Bank, binder: Binder, body: TermId) -> bool
    requires { body < length bank.now.terms }
    ensures yes { result ≡ true → IsBodyIn bank.now binder body }
    ensures no { result ≡ false → ¬ IsBodyOf binder (type_at bank.now (type_number bank.now body)) }
{
    match binder {
        Binder::Lambda => true,
        _ => bank.type_of(body) == TyId::truth(),
    }
}

/// A body, which begins at that byte, under a binder of one variable.
pub fn bound(
    bank: &mut Bank,
    binder: Binder,
    ty: TyId,
    body: TermId,
    byte: u32,
) -> Result<TermId, ElabRefusal>
    requires ty { ty < length bank.old.types }
    requires body { body < length bank.old.terms }
    requires typed { IsBoundAt 0 (type_at bank.old ty) (tree_at bank.old body) }
    ensures made { IfOk result (λ r. (s : List SimpleType) (m : Term) (a b : SimpleType) → a ≡ type_at bank.old ty → Stands bank.old (a ∷ s) body m b → IsBodyOf binder b × Stands bank.new s r (sign.bound binder (record { number = length s; type = a }) m) (sign.bound_type binder a b)) }
    ensures within { IfOk result (λ r. r < length bank.new.terms) }
    ensures byte { IfErr result (λ e. e ≢ Memory → e ≡ WrongType byte) }
    ensures misfit { IfErr result (λ e. e ≢ Memory → ¬ IsBodyOf binder (type_at bank.old (type_number bank.old body))) }
    ensures grows { Extends bank.old bank.new }
{
    bank.is_sound();
    if takes(bank, binder, body) {
        let r = under(bank, binder, ty, body)?;
        Ok(r)
    } else {
        Err(ElabRefusal::WrongType { byte })
    }
}

/// An operand of a connective in brackets: the index of a variable of the type of truth values.
fn operand(bank: &mut Bank, index: u32) -> Result<TermId, AllocError>
    ensures made { IfOk result (λ t. (s : List SimpleType) (n : ℕ) → slice_get s index ≡ Some truth → index + (n + 1) ≡ length s → Stands bank.new s t (variable (record { number = n; type = truth })) truth) }
    ensures formula { IfOk result (IsFormulaIn bank.new) }
    ensures grows { Extends bank.old bank.new }
{
    bank.is_sound();
    let t = bank.make_bound(index, TyId::truth())?;
    Ok(t)
}

/// `( ~ )`
pub fn negation_sign(bank: &mut Bank) -> Result<TermId, AllocError>
    ensures made { IfOk result (λ r. (s : List SimpleType) → Stands bank.new s r (sign.negation_function (length s)) (arrow truth truth)) }
    ensures within { IfOk result (λ r. r < length bank.new.terms) }
    ensures grows { Extends bank.old bank.new }
{
    let x = operand(bank, 0)?;
    let body = negated(bank, x)?;
    let r = under(bank, Binder::Lambda, TyId::truth(), body)?;
    Ok(r)
}

/// A connective in brackets.
pub fn connective_sign(bank: &mut Bank, connective: Connective) -> Result<TermId, AllocError>
    ensures made { IfOk result (λ r. (s : List SimpleType) → Stands bank.new s r (sign.connective_function (length s) connective) (arrow truth (arrow truth truth))) }
    ensures within { IfOk result (λ r. r < length bank.new.terms) }
    ensures grows { Extends bank.old bank.new }
{
    let x = operand(bank, 1)?;
    let y = operand(bank, 0)?;
    let body = joined(bank, connective, x, y)?;
    let inner = under(bank, Binder::Lambda, TyId::truth(), body)?;
    let r = under(bank, Binder::Lambda, TyId::truth(), inner)?;
    Ok(r)
}

/// A function applied to an argument, which begins at that byte.
pub fn applied(bank: &mut Bank, f: TermId, x: TermId, byte: u32) -> Result<TermId, ElabRefusal>
    requires function { f < length bank.old.terms }
    requires argument { x < length bank.old.terms }
    ensures made { IfOk result (λ r. (s : List SimpleType) (m n : Term) (a b : SimpleType) → Stands bank.old s f m a → Stands bank.old s x n b → AppliesTo bank.new s m n a b r) }
    ensures fits { IfOk result (λ r. sign.applied (type_at bank.old (type_number bank.old f)) (type_at bank.old (type_number bank.old x)) ≡ Some (type_at bank.new (type_number bank.new r))) }
    ensures within { IfOk result (λ r. r < length bank.new.terms) }
    ensures byte { IfErr result (λ e. e ≢ Memory → e ≡ WrongType byte) }
    ensures misfit { IfErr result (λ e. e ≢ Memory → sign.applied (type_at bank.old (type_number bank.old f)) (type_at bank.old (type_number bank.old x)) ≡ None) }
    ensures grows { Extends bank.old bank.new }
{
    bank.is_sound();
    match bank.view_ty(bank.type_of(f)) {
        TyView::Arrow(from, _) => {
            if from != bank.type_of(x) {
                return Err(ElabRefusal::WrongType { byte });
            }
            let r = bank.make_app(f, x)?;
            Ok(r)
        }
        TyView::Base(_) => Err(ElabRefusal::WrongType { byte }),
    }
}

/// What a set contains, if a term is a set.
fn element_of(bank: &Bank, set: TermId) -> Option<TyId>
    requires { set < length bank.now.terms }
    ensures found { IfSome result (λ i. IsArrow bank.now (type_number bank.now set) i 0) }
    ensures misfit { IfNone result (sign.element (type_at bank.now (type_number bank.now set)) ≡ None) }
{
    match bank.view_ty(bank.type_of(set)) {
        TyView::Arrow(from, to) => {
            if to == TyId::truth() {
                Some(from)
            } else {
                None
            }
        }
        TyView::Base(_) => None,
    }
}

/// `!!`, `??` or `@@+` of a term, which begins at that byte.
pub fn quantified(
    bank: &mut Bank,
    quantifier: Quantifier,
    set: TermId,
    byte: u32,
) -> Result<TermId, ElabRefusal>
    requires { set < length bank.old.terms }
    ensures made { IfOk result (λ r. (s : List SimpleType) (p : Term) (c : SimpleType) → Stands bank.old s set p c → QuantifiesOver bank.new quantifier s p c r) }
    ensures within { IfOk result (λ r. r < length bank.new.terms) }
    ensures byte { IfErr result (λ e. e ≢ Memory → e ≡ WrongType byte) }
    ensures misfit { IfErr result (λ e. e ≢ Memory → sign.element (type_at bank.old (type_number bank.old set)) ≡ None) }
    ensures grows { Extends bank.old bank.new }
{
    bank.is_sound();
    match element_of(bank, set) {
        Some(element) => {
            let r = over(bank, quantifier, element, set)?;
            Ok(r)
        }
        None => Err(ElabRefusal::WrongType { byte }),
    }
}
