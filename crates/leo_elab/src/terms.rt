//! From formulas as they are written to terms of a bank.
//!
//! What stands around a place is passed along: the declared atoms, and the variables of the binders,
//! of which the innermost comes last. `room` says how many levels the recursion may still go down.

ghost use Rattle.std.specs.Prelude.{◌≡◌, ◌≢◌, ◌<◌, ◌∷◌, [], ℕ, length, IfOk, IfErr, OnOk, Some, None};
ghost use Rattle.leo_q0.specs.Terms.{SimpleType, Term, truth};
ghost use Rattle.leo_syntax.specs.declared.tree.Node.TheOpen.{Node-F};
ghost use Rattle.leo_terms.specs.Contents.{Extends, type_at, type_number};
ghost use Rattle.leo_elab.specs.declared.refusal.ElabRefusal.TheVariants.{Memory};
ghost use Rattle.leo_elab.specs.Problem.{Declared, Scope};
ghost use Rattle.leo_elab.specs.Table.{AreNamesOf, KnowsNames, declared_in};
ghost use Rattle.leo_elab.specs.Signs.{quantifier_of, quantified, quantified_type, top};
ghost use Rattle.leo_elab.specs.Offences.{Offends, OffendsAsFormula, OffendsInArguments, OffendsInBinding};
ghost use Rattle.leo_elab.specs.Standing.{Stands, HasMeaning};
ghost use Rattle.leo_elab.specs.Places.{IsPlace, AreBoundIn, Around, IsFormulaIn, Elaborates, ElaboratesFormula, ElaboratesArguments, ElaboratesBinding, scope_in, types_in};

use crate::names::Names;
use crate::quantifiers::quantifier_of;
use crate::refusal::ElabRefusal;
use crate::scope::{Bound, enter, find};
use crate::signs::{
    applied, bound, connective_sign, equated, false_sign, joined, negated, negation_sign,
    quantified, true_sign,
};
use crate::types::read_type;
use leo_syntax::{Binder, Node, Sign, Tree, Variable};
use leo_terms::{Bank, TermId, TyId};
use std::alloc::Global;

/// How many levels the recursion goes down. A tree of a text with 500 levels needs half of it.
const ROOM: u32 = 6000;

/// The constant that an atom is.
fn constant(
    bank: &mut Bank,
    names: &Names,
    scope: &[Bound],
    tree: &Tree,
    atom: &[u8],
) -> Result<TermId, ElabRefusal>
    requires place { IsPlace bank.old names.now scope.now }
    requires top { top tree.now ≡ Node-F.Atom atom.now }
    ensures value { IfOk result (λ t. (d : Declared) (s : Scope) → Around bank.old names.now scope.now d s → Elaborates bank.new d s tree.now t) }
    ensures within { IfOk result (λ t. t < length bank.new.terms) }
    ensures refusal { IfErr result (λ e. e ≢ Memory → (d : Declared) (s : Scope) → Around bank.old names.now scope.now d s → Offends d s tree.now e) }
    ensures grows { Extends bank.old bank.new }
{
    bank.is_sound();
    match names.constant_named(atom) {
        Some(symbol) => {
            let t = bank.make_sym(symbol)?;
            Ok(t)
        }
        None => match names.type_named(atom) {
            Some(_) => Err(ElabRefusal::WrongType { byte: tree.byte }),
            None => Err(ElabRefusal::Unknown { byte: tree.byte }),
        },
    }
}

/// The variable of a binder that a name stands for.
fn variable(
    bank: &mut Bank,
    names: &Names,
    scope: &[Bound],
    tree: &Tree,
    name: &[u8],
) -> Result<TermId, ElabRefusal>
    requires place { IsPlace bank.old names.now scope.now }
    requires top { top tree.now ≡ Node-F.Var name.now }
    ensures value { IfOk result (λ t. (d : Declared) (s : Scope) → Around bank.old names.now scope.now d s → Elaborates bank.new d s tree.now t) }
    ensures within { IfOk result (λ t. t < length bank.new.terms) }
    ensures refusal { IfErr result (λ e. e ≢ Memory → (d : Declared) (s : Scope) → Around bank.old names.now scope.now d s → Offends d s tree.now e) }
    ensures grows { Extends bank.old bank.new }
{
    bank.is_sound();
    let Some(found) = find(scope, name) else {
        return Err(ElabRefusal::Free { byte: tree.byte });
    };
    let Ok(index) = u32::try_from(found.inside) else {
        return Err(ElabRefusal::Memory);
    };
    let t = bank.make_bound(index, found.ty)?;
    Ok(t)
}

/// A term.
#[cycle(term)]
fn term(
    alloc: Global,
    bank: &mut Bank,
    names: &Names,
    scope: &mut Vec<Bound>,
    tree: &Tree,
    room: u32,
) -> Result<TermId, ElabRefusal>
    requires { IsPlace bank.old names.now scope.old.items }
    ensures value { IfOk result (λ t. (d : Declared) (s : Scope) → Around bank.old names.now scope.old.items d s → Elaborates bank.new d s tree.now t) }
    ensures within { IfOk result (λ t. t < length bank.new.terms) }
    ensures refusal { IfErr result (λ e. e ≢ Memory → (d : Declared) (s : Scope) → Around bank.old names.now scope.old.items d s → Offends d s tree.now e) }
    ensures scope { OnOk result (scope.new.items ≡ scope.old.items) }
    ensures grows { Extends bank.old bank.new }
{
    bank.is_sound();
    let Some(room) = room.checked_sub(1) else {
        return Err(ElabRefusal::Memory);
    };
    match &tree.node {
        Node::Atom(name) => {
            let t = constant(bank, names, scope.as_slice(), tree, name.as_slice())?;
            Ok(t)
        }
        Node::Var(name) => {
            let t = variable(bank, names, scope.as_slice(), tree, name.as_slice())?;
            Ok(t)
        }
        Node::Apply(head, list) => {
            let t = application(
                alloc,
                bank,
                names,
                scope,
                tree,
                head.get(),
                list.as_slice(),
                room,
            )?;
            Ok(t)
        }
        Node::Bind(binder, variables, body) => {
            let t = binding(
                alloc,
                bank,
                names,
                scope,
                *binder,
                variables.as_slice(),
                body.get(),
                room,
            )?;
            Ok(t)
        }
        Node::Not(operand) => {
            let t = formula(alloc, bank, names, scope, operand.get(), room)?;
            let whole = negated(bank, t)?;
            Ok(whole)
        }
        Node::Join(connective, left, right) => {
            let t = formula(alloc, bank, names, scope, left.get(), room)?;
            let u = formula(alloc, bank, names, scope, right.get(), room)?;
            let whole = joined(bank, *connective, t, u)?;
            Ok(whole)
        }
        Node::Equal(mark, byte, left, right) => {
            let t = term(alloc, bank, names, scope, left.get(), room)?;
            let u = term(alloc, bank, names, scope, right.get(), room)?;
            let whole = equated(bank, *mark, t, u, *byte)?;
            Ok(whole)
        }
        Node::True => {
            let t = true_sign(bank)?;
            Ok(t)
        }
        Node::False => {
            let t = false_sign(bank)?;
            Ok(t)
        }
        Node::Negation => {
            let t = negation_sign(bank)?;
            Ok(t)
        }
        Node::Connective(connective) => {
            let t = connective_sign(bank, *connective)?;
            Ok(t)
        }
        Node::Pi => Err(ElabRefusal::WrongType { byte: tree.byte }),
        Node::Sigma => Err(ElabRefusal::WrongType { byte: tree.byte }),
        Node::Choice => Err(ElabRefusal::WrongType { byte: tree.byte }),
    }
}

/// A term that must be a formula.
#[cycle(term)]
fn formula(
    alloc: Global,
    bank: &mut Bank,
    names: &Names,
    scope: &mut Vec<Bound>,
    tree: &Tree,
    room: u32,
) -> Result<TermId, ElabRefusal>
    requires { IsPlace bank.old names.now scope.old.items }
    ensures value { IfOk result (λ t. (d : Declared) (s : Scope) → Around bank.old names.now scope.old.items d s → ElaboratesFormula bank.new d s tree.now t) }
    ensures formula { IfOk result (IsFormulaIn bank.new) }
    ensures refusal { IfErr result (λ e. e ≢ Memory → (d : Declared) (s : Scope) → Around bank.old names.now scope.old.items d s → OffendsAsFormula d s tree.now e) }
    ensures scope { OnOk result (scope.new.items ≡ scope.old.items) }
    ensures grows { Extends bank.old bank.new }
{
    bank.is_sound();
    let Some(room) = room.checked_sub(1) else {
        return Err(ElabRefusal::Memory);
    };
    let t = term(alloc, bank, names, scope, tree, room)?;
    if bank.type_of(t) == TyId::truth() {
        Ok(t)
    } else {
        Err(ElabRefusal::WrongType { byte: tree.byte })
    }
}

/// A head with its arguments.
#[cycle(term)]
fn application(
    alloc: Global,
    bank: &mut Bank,
    names: &Names,
    scope: &mut Vec<Bound>,
    tree: &Tree,
    head: &Tree,
    list: &[Tree],
    room: u32,
) -> Result<TermId, ElabRefusal>
    requires place { IsPlace bank.old names.now scope.old.items }
    requires top { top tree.now ≡ Node-F.Apply head.now list.now }
    ensures value { IfOk result (λ t. (d : Declared) (s : Scope) → Around bank.old names.now scope.old.items d s → Elaborates bank.new d s tree.now t) }
    ensures within { IfOk result (λ t. t < length bank.new.terms) }
    ensures refusal { IfErr result (λ e. e ≢ Memory → (d : Declared) (s : Scope) → Around bank.old names.now scope.old.items d s → Offends d s tree.now e) }
    ensures scope { OnOk result (scope.new.items ≡ scope.old.items) }
    ensures grows { Extends bank.old bank.new }
{
    bank.is_sound();
    let Some(room) = room.checked_sub(1) else {
        return Err(ElabRefusal::Memory);
    };
    match (quantifier_of(head), list) {
        (None, _) => {
            let f = term(alloc, bank, names, scope, head, room)?;
            let t = arguments(alloc, bank, names, scope, f, list, room)?;
            Ok(t)
        }
        (Some(_), []) => Err(ElabRefusal::WrongType { byte: head.byte }),
        (Some(quantifier), [set, rest @ ..]) => {
            let p = term(alloc, bank, names, scope, set, room)?;
            let f = quantified(bank, quantifier, p, set.byte)?;
            let t = arguments(alloc, bank, names, scope, f, rest, room)?;
            Ok(t)
        }
    }
}

/// A term applied to arguments, from left to right.
#[cycle(term)]
fn arguments(
    alloc: Global,
    bank: &mut Bank,
    names: &Names,
    scope: &mut Vec<Bound>,
    f: TermId,
    list: &[Tree],
    room: u32,
) -> Result<TermId, ElabRefusal>
    requires place { IsPlace bank.old names.now scope.old.items }
    requires function { f < length bank.old.terms }
    ensures value { IfOk result (λ t. (d : Declared) (s : Scope) (m : Term) (a : SimpleType) → Around bank.old names.now scope.old.items d s → Stands bank.old (types_in s) f m a → ElaboratesArguments bank.new d s m a list.now t) }
    ensures within { IfOk result (λ t. t < length bank.new.terms) }
    ensures refusal { IfErr result (λ e. e ≢ Memory → (d : Declared) (s : Scope) → Around bank.old names.now scope.old.items d s → OffendsInArguments d s (type_at bank.old (type_number bank.old f)) list.now e) }
    ensures scope { OnOk result (scope.new.items ≡ scope.old.items) }
    ensures grows { Extends bank.old bank.new }
{
    bank.is_sound();
    let Some(room) = room.checked_sub(1) else {
        return Err(ElabRefusal::Memory);
    };
    match list {
        [] => Ok(f),
        [first, rest @ ..] => {
            let x = term(alloc, bank, names, scope, first, room)?;
            let whole = applied(bank, f, x, first.byte)?;
            let t = arguments(alloc, bank, names, scope, whole, rest, room)?;
            Ok(t)
        }
    }
}

/// A body under a binder of these variables.
#[cycle(term)]
fn binding(
    alloc: Global,
    bank: &mut Bank,
    names: &Names,
    scope: &mut Vec<Bound>,
    binder: Binder,
    variables: &[Variable],
    body: &Tree,
    room: u32,
) -> Result<TermId, ElabRefusal>
    requires { IsPlace bank.old names.now scope.old.items }
    ensures value { IfOk result (λ t. (d : Declared) (s : Scope) → Around bank.old names.now scope.old.items d s → ElaboratesBinding bank.new d binder s variables.now body.now t) }
    ensures within { IfOk result (λ t. t < length bank.new.terms) }
    ensures refusal { IfErr result (λ e. e ≢ Memory → (d : Declared) (s : Scope) → Around bank.old names.now scope.old.items d s → OffendsInBinding d binder s variables.now body.now e) }
    ensures scope { OnOk result (scope.new.items ≡ scope.old.items) }
    ensures grows { Extends bank.old bank.new }
{
    bank.is_sound();
    let Some(room) = room.checked_sub(1) else {
        return Err(ElabRefusal::Memory);
    };
    match variables {
        [] => {
            let t = term(alloc, bank, names, scope, body, room)?;
            Ok(t)
        }
        [first, rest @ ..] => {
            let ty = read_type(bank, names, &first.ty, room)?;
            enter(alloc, scope, first.name.as_slice(), ty)?;
            let t = binding(alloc, bank, names, scope, binder, rest, body, room)?;
            let _left = scope.pop();
            let whole = bound(bank, binder, ty, t, body.byte)?;
            Ok(whole)
        }
    }
}

/// The term that a closed formula means.
pub fn elaborate(
    alloc: Global,
    bank: &mut Bank,
    names: &Names,
    tree: &Tree,
) -> Result<TermId, ElabRefusal>
    requires { AreNamesOf bank.old names.now }
    // The term is a closed formula, which decodes to the meaning of the tree.
    ensures meaning { IfOk result (HasMeaning bank.new (declared_in bank.old names.now) tree.now) }
    // A refusal is that of the first node that offends.
    ensures refusal { IfErr result (λ e. e ≢ Memory → OffendsAsFormula (declared_in bank.old names.now) [] tree.now e) }
    // The bank only grew.
    ensures grows { Extends bank.old bank.new }
{
    let mut scope = Vec::new(alloc);
    let t = formula(alloc, bank, names, &mut scope, tree, ROOM)?;
    Ok(t)
}
