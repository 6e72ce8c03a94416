//! A variable at the head of a formula, as each logical constant.

ghost use Rattle.std.specs.Prelude.{[], ◌∷◌, ◌≡◌, ◌<◌, length, map, slice_get, Some, IfOk, OnOk, MatchOption};
ghost use Rattle.leo_terms.specs.Contents.{Extends, tree_at, type_at};
ghost use Rattle.leo_clause.specs.declared.clause.Lit.{Lit};
ghost use Rattle.leo_clause.specs.Trees.{clause_at, literal_at};
ghost use Rattle.leo_clause.specs.Typed.{IsTypedIn};
ghost use Rattle.leo_ext.specs.Binding.{argument_types as argument_types_of};
ghost use Rattle.leo_ext.specs.Bounds.{AreBoundsOf, AreFitting, AreTypes, IsBinding, IsFitting, IsHeadIn, IsNoVariable, IsVariable, binding_at};
ghost use Rattle.leo_ext.specs.Listing.{Adds, IsStep};
ghost use Rattle.leo_ext.specs.Members.{primitive_at, primitive_by, primitive_line, primitive_member, primitive_members};
ghost use Rattle.leo_ext.specs.Truths.{AreTruths};

use crate::binding::{Bound, argument_types, bindings, under_lambdas};
use crate::heads::head_term;
use crate::members::{next_variable, one_record, put_member};
use crate::substituting::{given_for, instance};
use crate::truths::{Truths, is_formula};
use leo_clause::{Clause, StepRecord};
use leo_para::Due;
use leo_terms::{Bank, TermId, TyId, View};
use std::alloc::{AllocError, Global};

/// How many arguments a variable may have that is bound.
const ARGUMENTS: usize = 8;

/// A variable, by its number, and its type.
#[derive(Clone, Copy)]
pub(crate) struct Variable {
    pub number: u32,
    pub ty: TyId,
}

/// The instance of a clause in which a variable is bound.
fn bound_instance(
    alloc: Global,
    bank: &mut Bank,
    clause: &Clause,
    before: u64,
    variable: &Variable,
    types: &[TyId],
    bound: &Bound,
) -> Result<StepRecord, AllocError>
    requires clause { IsTypedIn bank.old clause.now }
    requires variable { IsHeadIn bank.old clause.now variable.now }
    requires types { AreTypes bank.old types.now (argument_types_of (type_at bank.old variable.now.ty)) }
    requires bound { IsBinding bank.old bound.now (binding_at bank.old bound.now) }
    requires fits { IsFitting (map (type_at bank.old) clause.now.vars) (argument_types_of (type_at bank.old variable.now.ty)) (binding_at bank.old bound.now) }
    ensures made { IfOk result (λ s. IsStep bank.new s (primitive_line before (clause_at bank.old clause.now) variable.now.number (type_at bank.old variable.now.ty) (binding_at bank.old bound.now))) }
    ensures grows { Extends bank.old bank.new }
{
    bank.is_sound();
    let term = under_lambdas(bank, types, bound.body)?;
    let number = u64::from(variable.number);
    let sigma = given_for(alloc, bank, clause.vars.as_slice(), number, term)?;
    let record = instance(alloc, bank, clause, before, bound.fresh.as_slice(), &sigma)?;
    Ok(record)
}

/// Appends the member in which a variable is bound.
fn put_bound(
    alloc: Global,
    bank: &mut Bank,
    clause: &Clause,
    before: u64,
    variable: &Variable,
    types: &[TyId],
    bound: &Bound,
    dues: &mut Vec<Due>,
) -> Result<(), AllocError>
    requires clause { IsTypedIn bank.old clause.now }
    requires variable { IsHeadIn bank.old clause.now variable.now }
    requires types { AreTypes bank.old types.now (argument_types_of (type_at bank.old variable.now.ty)) }
    requires bound { IsBinding bank.old bound.now (binding_at bank.old bound.now) }
    requires fits { IsFitting (map (type_at bank.old) clause.now.vars) (argument_types_of (type_at bank.old variable.now.ty)) (binding_at bank.old bound.now) }
    ensures adds { OnOk result (Adds bank.old bank.new dues.old.items dues.new.items (primitive_member before (clause_at bank.old clause.now) variable.now.number (type_at bank.old variable.now.ty) (binding_at bank.old bound.now) ∷ [])) }
    ensures grows { Extends bank.old bank.new }
{
    bank.is_sound();
    let record = bound_instance(alloc, bank, clause, before, variable, types, bound)?;
    let records = one_record(alloc, record.clause, record.rule)?;
    put_member(alloc, records, &[], dues)?;
    Ok(())
}

/// Appends the members in which a variable is bound, one after the other.
fn put_bounds(
    alloc: Global,
    bank: &mut Bank,
    clause: &Clause,
    before: u64,
    variable: &Variable,
    types: &[TyId],
    bounds: &[Bound],
    dues: &mut Vec<Due>,
) -> Result<(), AllocError>
    requires clause { IsTypedIn bank.old clause.now }
    requires variable { IsHeadIn bank.old clause.now variable.now }
    requires types { AreTypes bank.old types.now (argument_types_of (type_at bank.old variable.now.ty)) }
    requires bounds { AreBoundsOf bank.old bounds.now }
    requires fits { AreFitting (map (type_at bank.old) clause.now.vars) (argument_types_of (type_at bank.old variable.now.ty)) (map (binding_at bank.old) bounds.now) }
    ensures adds { OnOk result (Adds bank.old bank.new dues.old.items dues.new.items (map (primitive_member before (clause_at bank.old clause.now) variable.now.number (type_at bank.old variable.now.ty)) (map (binding_at bank.old) bounds.now))) }
    ensures grows { Extends bank.old bank.new }
{
    bank.is_sound();
    for bound in bounds {
        put_bound(alloc, bank, clause, before, variable, types, bound, dues)?;
    }
    Ok(())
}

/// Appends the members of a variable, if it has few arguments.
fn put_primitive_by(
    alloc: Global,
    bank: &mut Bank,
    clause: &Clause,
    before: u64,
    variable: &Variable,
    dues: &mut Vec<Due>,
) -> Result<(), AllocError>
    requires clause { IsTypedIn bank.old clause.now }
    requires variable { IsHeadIn bank.old clause.now variable.now }
    ensures adds { OnOk result (Adds bank.old bank.new dues.old.items dues.new.items (primitive_by before (clause_at bank.old clause.now) variable.now.number (type_at bank.old variable.now.ty))) }
    ensures grows { Extends bank.old bank.new }
{
    bank.is_sound();
    let types = argument_types(alloc, bank, variable.ty)?;
    let arguments = types.as_slice();
    if arguments.len() > ARGUMENTS {
        return Ok(());
    }
    let next = next_variable(clause.vars.as_slice())?;
    let bounds = bindings(alloc, bank, u64::from(next), arguments)?;
    put_bounds(
        alloc, bank, clause, before, variable, arguments, &bounds, dues,
    )?;
    Ok(())
}

/// The variable that a term is, if it is one.
fn variable_at(bank: &Bank, t: TermId) -> Option<Variable>
    requires { t < length bank.now.terms }
    ensures { MatchOption result (IsNoVariable (tree_at bank.now t)) (IsVariable bank.now (tree_at bank.now t)) }
{
    match bank.view(t) {
        View::Var(number) => {
            let ty = bank.type_of(t);
            Some(Variable { number, ty })
        }
        View::Bound(_) => None,
        View::Sym(_) => None,
        View::App(_, _) => None,
        View::Lam(_, _) => None,
        View::Logic(_, _, _) => None,
    }
}

/// Appends the members of a literal, if it says that a formula with a variable as its head is true, or false.
fn put_primitive_at(
    alloc: Global,
    bank: &mut Bank,
    truths: &Truths,
    clause: &Clause,
    before: u64,
    at: usize,
    dues: &mut Vec<Due>,
) -> Result<(), AllocError>
    requires truths { AreTruths bank.old truths.now }
    requires clause { IsTypedIn bank.old clause.now }
    requires at { at < length clause.now.lits }
    ensures adds { OnOk result ((l : Lit) → slice_get clause.now.lits at ≡ Some l → Adds bank.old bank.new dues.old.items dues.new.items (primitive_at before (clause_at bank.old clause.now) at (literal_at bank.old l))) }
    ensures grows { Extends bank.old bank.new }
{
    bank.is_sound();
    let lit = clause.lits.as_slice()[at];
    if !is_formula(bank, truths, &lit) {
        return Ok(());
    }
    let head = head_term(bank, lit.left);
    let Some(variable) = variable_at(bank, head) else {
        return Ok(());
    };
    put_primitive_by(alloc, bank, clause, before, &variable, dues)?;
    Ok(())
}

/// Appends the members for each literal of a clause that says that a formula with a variable as its head is true, or
/// false: the variable becomes each logical constant in turn. The clause stands in the line with the number `before`.
pub fn put_primitive(
    alloc: Global,
    bank: &mut Bank,
    truths: &Truths,
    clause: &Clause,
    before: u64,
    dues: &mut Vec<Due>,
) -> Result<(), AllocError>
    requires truths { AreTruths bank.old truths.now }
    requires clause { IsTypedIn bank.old clause.now }
    ensures adds { OnOk result (Adds bank.old bank.new dues.old.items dues.new.items (primitive_members before (clause_at bank.old clause.now))) }
    ensures grows { Extends bank.old bank.new }
{
    bank.is_sound();
    for at in 0..clause.lits.len() {
        put_primitive_at(alloc, bank, truths, clause, before, at, dues)?;
    }
    Ok(())
}
