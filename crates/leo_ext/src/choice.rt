//! Chosen terms in a clause, of which the axiom of choice speaks.

ghost use Rattle.std.specs.Prelude.{[], ◌∷◌, ◌≡◌, ◌<◌, length, map, IfOk, OnOk, MatchOption};
ghost use Rattle.std.specs.List.{flat_map};
ghost use Rattle.leo_terms.specs.Contents.{Extends, IsTerm, tree_at, type_at};
ghost use Rattle.leo_clause.specs.Trees.{clause_at, literal_at};
ghost use Rattle.leo_clause.specs.Typed.{AreTypesOf, IsTypedIn};
ghost use Rattle.leo_kernel.specs.Conclusions.{choice_clause};
ghost use Rattle.leo_kernel.specs.Steps.{choose};
ghost use Rattle.leo_kernel.specs.Tops.{IsPropertyOf};
ghost use Rattle.leo_clausify.specs.Literals.{AreLiterals};
ghost use Rattle.leo_para.specs.Places.{places};
ghost use Rattle.leo_para.specs.Spines.{head};
ghost use Rattle.leo_ext.specs.Chosen.{IsChosen, IsNotChosen, choice_by};
ghost use Rattle.leo_ext.specs.Listing.{Adds, IsStep};
ghost use Rattle.leo_ext.specs.Members.{choice_at, choice_for, choice_in, choice_instance, choice_literals, choice_member, choice_members};
ghost use Rattle.leo_ext.specs.Pairs.{IsLitOf};
ghost use Rattle.leo_ext.specs.Truths.{AreTruths};

use crate::heads::head_term;
use crate::members::{next_variable, put_member, two_records};
use crate::terms::terms_at;
use crate::truths::{Truths, is_formula};
use leo_clause::{Clause, Lit, Rule, StepRecord};
use leo_items::Items;
use leo_para::Due;
use leo_terms::{Bank, Op, TermId, TyId, View};
use std::alloc::{AllocError, Global};

/// A chosen term: of things of a type, one that has a property.
#[derive(Clone, Copy)]
pub(crate) struct Chosen {
    pub ty: TyId,
    pub property: TermId,
}

/// `P x = F`, `P (ε P) = T`.
fn chosen_lits(
    alloc: Global,
    bank: &mut Bank,
    truths: &Truths,
    chosen: &Chosen,
    x: TermId,
) -> Result<Items<Lit>, AllocError>
    requires truths { AreTruths bank.old truths.now }
    requires property { IsPropertyOf bank.old chosen.now.ty chosen.now.property }
    requires x { IsTerm bank.old x chosen.now.ty (tree_at bank.old x) }
    ensures made { IfOk result (λ ls. AreLiterals bank.new ls (choice_literals (type_at bank.old chosen.now.ty) (tree_at bank.old chosen.now.property) (tree_at bank.old x))) }
    ensures grows { Extends bank.old bank.new }
{
    bank.is_sound();
    let some = bank.make_app(chosen.property, x)?;
    let term = bank.make_logic(Op::Eps(chosen.ty), &[chosen.property])?;
    let that = bank.make_app(chosen.property, term)?;
    let first = truths.valued(some, false);
    let second = truths.valued(that, true);
    let lits = Items::from_slice(alloc, &[first, second])?;
    Ok(lits)
}

/// The axiom of choice for things of a type: for variables X and Y, `X Y = F`, `X (ε X) = T`.
fn axiom(
    alloc: Global,
    bank: &mut Bank,
    truths: &Truths,
    ty: TyId,
) -> Result<StepRecord, AllocError>
    requires truths { AreTruths bank.old truths.now }
    requires ty { ty < length bank.old.types }
    ensures made { IfOk result (λ s. IsStep bank.new s (record { clause = choice_clause (type_at bank.old ty); rule = choose })) }
    ensures grows { Extends bank.old bank.new }
{
    bank.is_sound();
    let of_property = bank.arrow(ty, TyId::truth())?;
    let property = bank.make_var(0, of_property)?;
    let x = bank.make_var(1, ty)?;
    let chosen = Chosen { ty, property };
    let lits = chosen_lits(alloc, bank, truths, &chosen, x)?;
    let vars = Items::from_slice(alloc, &[of_property, ty])?;
    Ok(StepRecord {
        clause: Clause { vars, lits },
        rule: Rule::Choice,
    })
}

/// The axiom of choice for a property, and for a fresh variable of a clause.
fn instance(
    alloc: Global,
    bank: &mut Bank,
    truths: &Truths,
    vars: &[TyId],
    parent: u64,
    chosen: &Chosen,
) -> Result<StepRecord, AllocError>
    requires truths { AreTruths bank.old truths.now }
    requires vars { AreTypesOf bank.old vars.now }
    requires property { IsPropertyOf bank.old chosen.now.ty chosen.now.property }
    ensures made { IfOk result (λ s. IsStep bank.new s (choice_instance parent (map (type_at bank.old) vars.now) (type_at bank.old chosen.now.ty) (tree_at bank.old chosen.now.property))) }
    ensures grows { Extends bank.old bank.new }
{
    bank.is_sound();
    let number = next_variable(vars)?;
    let x = bank.make_var(number, chosen.ty)?;
    let lits = chosen_lits(alloc, bank, truths, chosen, x)?;
    let mut all = Items::from_slice(alloc, vars)?;
    all.append(Items::from_slice(alloc, &[chosen.ty])?)?;
    let sigma = Items::from_slice(alloc, &[chosen.property, x])?;
    Ok(StepRecord {
        clause: Clause { vars: all, lits },
        rule: Rule::Inst { parent, sigma },
    })
}

/// Appends the member of a chosen term.
fn put_chosen(
    alloc: Global,
    bank: &mut Bank,
    truths: &Truths,
    clause: &Clause,
    before: u64,
    chosen: &Chosen,
    dues: &mut Vec<Due>,
) -> Result<(), AllocError>
    requires truths { AreTruths bank.old truths.now }
    requires clause { IsTypedIn bank.old clause.now }
    requires property { IsPropertyOf bank.old chosen.now.ty chosen.now.property }
    ensures adds { OnOk result (Adds bank.old bank.new dues.old.items dues.new.items (choice_member before (clause_at bank.old clause.now) (type_at bank.old chosen.now.ty) (tree_at bank.old chosen.now.property) ∷ [])) }
    ensures grows { Extends bank.old bank.new }
{
    bank.is_sound();
    let Some(parent) = before.checked_add(1) else {
        return Err(AllocError);
    };
    let first = axiom(alloc, bank, truths, chosen.ty)?;
    let second = instance(alloc, bank, truths, clause.vars.as_slice(), parent, chosen)?;
    let records = two_records(alloc, first, second)?;
    put_member(alloc, records, &[], dues)?;
    Ok(())
}

/// The chosen term that a term is, if it is one.
fn chosen_by(op: Op, x: Option<TermId>) -> Option<Chosen>
    ensures { result ≡ choice_by op x }
{
    match op {
        Op::Eps(ty) => match x {
            Some(property) => Some(Chosen { ty, property }),
            None => None,
        },
        Op::True => None,
        Op::False => None,
        Op::Not => None,
        Op::Or => None,
        Op::And => None,
        Op::Imp => None,
        Op::Eq(_) => None,
        Op::All(_) => None,
        Op::Some(_) => None,
    }
}

/// The chosen term that a term is, if it is one.
fn chosen_at(bank: &Bank, t: TermId) -> Option<Chosen>
    requires { t < length bank.now.terms }
    ensures { MatchOption result (IsNotChosen (tree_at bank.now t)) (IsChosen bank.now (tree_at bank.now t)) }
{
    match bank.view(t) {
        View::Logic(op, x, _) => chosen_by(op, x),
        View::Var(_) => None,
        View::Bound(_) => None,
        View::Sym(_) => None,
        View::App(_, _) => None,
        View::Lam(_, _) => None,
    }
}

/// Appends the member of the term at a place, if a chosen term without loose indices is its head.
fn put_choice_in(
    alloc: Global,
    bank: &mut Bank,
    truths: &Truths,
    clause: &Clause,
    before: u64,
    t: TermId,
    dues: &mut Vec<Due>,
) -> Result<(), AllocError>
    requires truths { AreTruths bank.old truths.now }
    requires clause { IsTypedIn bank.old clause.now }
    requires term { t < length bank.old.terms }
    ensures adds { OnOk result (Adds bank.old bank.new dues.old.items dues.new.items (choice_for before (clause_at bank.old clause.now) (head (tree_at bank.old t)))) }
    ensures grows { Extends bank.old bank.new }
{
    bank.is_sound();
    let function = head_term(bank, t);
    let Some(chosen) = chosen_at(bank, function) else {
        return Ok(());
    };
    if !bank.is_locally_closed(chosen.property) {
        return Ok(());
    }
    put_chosen(alloc, bank, truths, clause, before, &chosen, dues)?;
    Ok(())
}

/// Appends the members of the places in a side.
fn put_choice_side(
    alloc: Global,
    bank: &mut Bank,
    truths: &Truths,
    clause: &Clause,
    before: u64,
    side: TermId,
    dues: &mut Vec<Due>,
) -> Result<(), AllocError>
    requires truths { AreTruths bank.old truths.now }
    requires clause { IsTypedIn bank.old clause.now }
    requires side { side < length bank.old.terms }
    ensures adds { OnOk result (Adds bank.old bank.new dues.old.items dues.new.items (flat_map (choice_in before (clause_at bank.old clause.now)) (places (tree_at bank.old side)))) }
    ensures grows { Extends bank.old bank.new }
{
    bank.is_sound();
    let terms = terms_at(alloc, bank, side)?;
    for t in terms.as_slice() {
        put_choice_in(alloc, bank, truths, clause, before, *t, dues)?;
    }
    Ok(())
}

/// Appends the members of the places in a literal.
fn put_choice_at(
    alloc: Global,
    bank: &mut Bank,
    truths: &Truths,
    clause: &Clause,
    before: u64,
    at: usize,
    lit: Lit,
    dues: &mut Vec<Due>,
) -> Result<(), AllocError>
    requires truths { AreTruths bank.old truths.now }
    requires clause { IsTypedIn bank.old clause.now }
    requires lit { IsLitOf bank.old lit }
    ensures adds { OnOk result (Adds bank.old bank.new dues.old.items dues.new.items (choice_at before (clause_at bank.old clause.now) at (literal_at bank.old lit))) }
    ensures grows { Extends bank.old bank.new }
{
    bank.is_sound();
    let formula = is_formula(bank, truths, &lit);
    put_choice_side(alloc, bank, truths, clause, before, lit.left, dues)?;
    if formula {
        return Ok(());
    }
    put_choice_side(alloc, bank, truths, clause, before, lit.right, dues)?;
    Ok(())
}

/// Appends a member for each place of a clause with a chosen term as its head. The clause stands in the line with the number
/// `before`.
pub fn put_choice(
    alloc: Global,
    bank: &mut Bank,
    truths: &Truths,
    clause: &Clause,
    before: u64,
    dues: &mut Vec<Due>,
) -> Result<(), AllocError>
    requires truths { AreTruths bank.old truths.now }
    requires clause { IsTypedIn bank.old clause.now }
    ensures adds { OnOk result (Adds bank.old bank.new dues.old.items dues.new.items (choice_members before (clause_at bank.old clause.now))) }
    ensures grows { Extends bank.old bank.new }
{
    bank.is_sound();
    let lits = clause.lits.as_slice();
    for at in 0..lits.len() {
        put_choice_at(alloc, bank, truths, clause, before, at, lits[at], dues)?;
    }
    Ok(())
}
