//! What is said of a chosen thing, and the term that it is.

ghost use Rattle.std.specs.Prelude.{◌≡◌, ◌<◌, length, IfOk, IfSome};
ghost use Rattle.std.specs.Option.{option_map};
ghost use Rattle.leo_terms.specs.Contents.{Extends, IsTerm, tree_at, type_at, type_number};
ghost use Rattle.leo_terms.specs.Tree.{IsBoundAt, app, bound, lam, lifted, type_of};
ghost use Rattle.leo_clause.specs.Trees.{literal_at};
ghost use Rattle.leo_kernel.specs.Choosing.{chosen, difference_in, value as value_claim, difference as difference_claim};
ghost use Rattle.leo_kernel.specs.ChosenClaims.{IsClaimOf, IsFunctionOf, IsWanted, all_claim as all_claim_of, some_claim as some_claim_of, claim_at, claim_by, claim_of, type_chosen};
ghost use Rattle.leo_kernel.specs.Parts.{formula_of};
ghost use Rattle.leo_kernel.specs.Shapes.{IsArrowType, choice_tree, literal_type, not_tree};
ghost use Rattle.leo_kernel.specs.Tops.{AreParts, IsPropertyOf, formula_at};

use crate::rows::{Formula, top_of, value};
use leo_clause::{Lit, LogicKind};
use leo_terms::{Bank, Op, TermId, TyId, TyView};
use std::alloc::AllocError;

/// What is said of the chosen w.
#[derive(Clone, Copy)]
pub(crate) enum Claim {
    /// `P w` has the value, for a property P of things of the type.
    Value(TyId, TermId, bool),
    /// `f w ≠ g w`, for functions from things of the first type to those of the second.
    Difference(TyId, TyId, TermId, TermId),
}

/// The type and the normal form of a chosen term.
#[derive(Clone, Copy)]
pub(crate) struct Wanted {
    pub ty: TyId,
    pub form: TermId,
}

/// What `! P = F` becomes.
fn all_claim(bank: &Bank, formula: Formula, v: bool) -> Option<Claim>
    requires { AreParts bank.now formula }
    ensures value { option_map (claim_at bank.now) result ≡ all_claim_of (formula_at bank.now formula) v }
    ensures of_bank { IfSome result (IsClaimOf bank.now) }
{
    let _ = bank;
    match formula {
        Formula::All(ty, p) => {
            if v {
                None
            } else {
                Some(Claim::Value(ty, p, false))
            }
        }
        Formula::Not(_) => None,
        Formula::Or(_, _) => None,
        Formula::And(_, _) => None,
        Formula::Imp(_, _) => None,
        Formula::Eq(_, _, _) => None,
        Formula::Some(_, _) => None,
        Formula::Other => None,
    }
}

/// What `? P = T` becomes.
fn some_claim(bank: &Bank, formula: Formula, v: bool) -> Option<Claim>
    requires { AreParts bank.now formula }
    ensures value { option_map (claim_at bank.now) result ≡ some_claim_of (formula_at bank.now formula) v }
    ensures of_bank { IfSome result (IsClaimOf bank.now) }
{
    let _ = bank;
    match formula {
        Formula::Some(ty, p) => {
            if v {
                Some(Claim::Value(ty, p, true))
            } else {
                None
            }
        }
        Formula::Not(_) => None,
        Formula::Or(_, _) => None,
        Formula::And(_, _) => None,
        Formula::Imp(_, _) => None,
        Formula::Eq(_, _, _) => None,
        Formula::All(_, _) => None,
        Formula::Other => None,
    }
}

/// What `A = v` becomes.
fn claim_about(bank: &Bank, kind: LogicKind, a: TermId, v: bool) -> Option<Claim>
    requires { a < length bank.now.terms }
    ensures value { option_map (claim_at bank.now) result ≡ claim_by kind (formula_of (tree_at bank.now a)) v }
    ensures of_bank { IfSome result (IsClaimOf bank.now) }
{
    let formula = top_of(bank, a);
    match kind {
        LogicKind::AllF => all_claim(bank, formula, v),
        LogicKind::SomeT => some_claim(bank, formula, v),
        _ => None,
    }
}

/// What a literal about a truth value becomes, if it becomes a claim about a chosen thing.
pub(crate) fn claim_in(bank: &Bank, kind: LogicKind, lit: Lit) -> Option<Claim>
    requires left { lit.left < length bank.now.terms }
    requires right { lit.right < length bank.now.terms }
    ensures value { option_map (claim_at bank.now) result ≡ claim_of kind (literal_at bank.now lit) }
    ensures of_bank { IfSome result (IsClaimOf bank.now) }
{
    if !lit.pos {
        return None;
    }
    match value(bank, lit.right) {
        Some(v) => claim_about(bank, kind, lit.left, v),
        None => None,
    }
}

/// What `f ≠ g` becomes.
pub(crate) fn difference(bank: &Bank, lit: Lit) -> Claim
    requires left { lit.left < length bank.now.terms }
    requires right { lit.right < length bank.now.terms }
    requires functions { IsArrowType (literal_type (literal_at bank.now lit)) }
    requires same_type { type_of (tree_at bank.now lit.left) ≡ type_of (tree_at bank.now lit.right) }
    ensures value { claim_at bank.now result ≡ difference_in (literal_at bank.now lit) }
    ensures of_bank { IsClaimOf bank.now result }
{
    let ty = bank.type_of(lit.left);
    match bank.view_ty(ty) {
        TyView::Arrow(from, to) => Claim::Difference(from, to, lit.left, lit.right),
        TyView::Base(_) => unreachable!(),
    }
}

/// A function under one more lambda, applied to the variable of that lambda.
fn applied_inside(bank: &mut Bank, from: TyId, to: TyId, f: TermId) -> Result<TermId, AllocError>
    requires { IsFunctionOf bank.old from to f }
    ensures made { IfOk result (λ t. IsTerm bank.new t to (app (lifted 0 1 (tree_at bank.old f)) (bound 0 (type_at bank.old from)))) }
    ensures grows { Extends bank.old bank.new }
{
    let _ = to;
    bank.is_sound();
    let raised = bank.lift(f, 1)?;
    let index = bank.make_bound(0, from)?;
    let whole = bank.make_app(raised, index)?;
    Ok(whole)
}

/// `ε (λx. ~ A)`, for a truth value A with an index for x.
fn chosen_against(bank: &mut Bank, ty: TyId, a: TermId) -> Result<TermId, AllocError>
    requires ty { ty < length bank.old.types }
    requires within { a < length bank.old.terms }
    requires truth_value { type_number bank.old a ≡ 0 }
    requires index { IsBoundAt 0 (type_at bank.old ty) (tree_at bank.old a) }
    ensures made { IfOk result (λ t. IsTerm bank.new t ty (choice_tree (type_at bank.old ty) (lam (type_at bank.old ty) (not_tree (tree_at bank.old a))))) }
    ensures grows { Extends bank.old bank.new }
{
    bank.is_sound();
    let negated = bank.make_logic(Op::Not, &[a])?;
    let property = bank.make_lam(ty, negated)?;
    let term = bank.make_logic(Op::Eps(ty), &[property])?;
    Ok(term)
}

/// `ε P` for a true value, and `ε (λx. ~ (P x))` for a false one.
fn chosen_for_value(
    bank: &mut Bank,
    ty: TyId,
    property: TermId,
    v: bool,
) -> Result<TermId, AllocError>
    requires { IsPropertyOf bank.old ty property }
    ensures made { IfOk result (λ t. IsTerm bank.new t ty (chosen (value_claim (type_at bank.old ty) (tree_at bank.old property) v))) }
    ensures grows { Extends bank.old bank.new }
{
    bank.is_sound();
    if v {
        let term = bank.make_logic(Op::Eps(ty), &[property])?;
        return Ok(term);
    }
    let applied = applied_inside(bank, ty, TyId::truth(), property)?;
    let term = chosen_against(bank, ty, applied)?;
    Ok(term)
}

/// `ε (λx. ~ (f x = g x))`.
fn chosen_for_difference(
    bank: &mut Bank,
    from: TyId,
    to: TyId,
    f: TermId,
    g: TermId,
) -> Result<TermId, AllocError>
    requires first { IsFunctionOf bank.old from to f }
    requires second { IsFunctionOf bank.old from to g }
    ensures made { IfOk result (λ t. IsTerm bank.new t from (chosen (difference_claim (type_at bank.old from) (tree_at bank.old f) (tree_at bank.old g)))) }
    ensures grows { Extends bank.old bank.new }
{
    bank.is_sound();
    let left = applied_inside(bank, from, to, f)?;
    let right = applied_inside(bank, from, to, g)?;
    let equal = bank.make_logic(Op::Eq(to), &[left, right])?;
    let term = chosen_against(bank, from, equal)?;
    Ok(term)
}

/// The term that w must be.
fn make_chosen(bank: &mut Bank, claim: &Claim) -> Result<TermId, AllocError>
    requires { IsClaimOf bank.old claim.now }
    ensures made { IfOk result (λ t. IsTerm bank.new t (type_chosen claim.now) (chosen (claim_at bank.old claim.now))) }
    ensures grows { Extends bank.old bank.new }
{
    match claim {
        Claim::Value(ty, property, v) => {
            let term = chosen_for_value(bank, *ty, *property, *v)?;
            Ok(term)
        }
        Claim::Difference(from, to, f, g) => {
            let term = chosen_for_difference(bank, *from, *to, *f, *g)?;
            Ok(term)
        }
    }
}

/// The type of the chosen thing.
fn type_of_claim(claim: &Claim) -> TyId
    ensures { result ≡ type_chosen claim.now }
{
    match claim {
        Claim::Value(ty, _, _) => *ty,
        Claim::Difference(from, _, _, _) => *from,
    }
}

/// The type and the normal form of the term that w must be.
pub(crate) fn make_wanted(bank: &mut Bank, claim: &Claim) -> Result<Wanted, AllocError>
    requires { IsClaimOf bank.old claim.now }
    ensures made { IfOk result (λ w. IsWanted bank.new w (claim_at bank.old claim.now)) }
    ensures grows { Extends bank.old bank.new }
{
    bank.is_sound();
    let ty = type_of_claim(claim);
    let term = make_chosen(bank, claim)?;
    let form = bank.normal(term)?;
    Ok(Wanted { ty, form })
}
