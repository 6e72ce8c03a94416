//! Equations of functions, and their negations, as equations of values.

ghost use Rattle.std.specs.Prelude.{[], ◌∷◌, ◌≡◌, ◌<◌, ℕ, length, map, slice_get, Some, false, IfOk, OnOk, MatchOption};
ghost use Rattle.leo_terms.specs.Contents.{Extends, symbol_type, tree_at, type_at};
ghost use Rattle.leo_terms.specs.Tree.{app, symbol, type_of, variable};
ghost use Rattle.leo_terms.specs.Typing.{IsWellTyped};
ghost use Rattle.leo_clause.specs.Renaming.{AreBelow};
ghost use Rattle.leo_clause.specs.Trees.{clause_at, literal_at};
ghost use Rattle.leo_clause.specs.Typed.{AreTypesOf, IsClauseOf, IsOver, IsTypedIn};
ghost use Rattle.leo_kernel.specs.Choosing.{applied_to, chosen, claimed as claimed_literal, difference_in};
ghost use Rattle.leo_kernel.specs.Shapes.{equal, literal_type};
ghost use Rattle.leo_clausify.specs.Applied.{function_type};
ghost use Rattle.leo_clausify.specs.Choosing.{AreInOrder, chosen_form, closed_form, variable_terms, variables_of};
ghost use Rattle.leo_clausify.specs.Literals.{IsLiteral};
ghost use Rattle.leo_clausify.specs.Picking.{IsTree};
ghost use Rattle.leo_ext.specs.Functions.{AreExtended, AreExtendedOf, AreFunctions, IsDifferentAt, IsEqualAt, IsExtendedBy, IsPickedFor, extended_member};
ghost use Rattle.leo_ext.specs.Listing.{Adds};
ghost use Rattle.leo_ext.specs.Members.{is_arrow};
ghost use Rattle.leo_ext.specs.Pairs.{IsLitOf};

use crate::choosing::{applied_to_variables, difference_term, function, place_for};
use crate::literals::placed;
use crate::members::{next_variable, number_of, one_record, put_member};
use indexmap::IndexSet;
use leo_clause::{Abbr, Clause, Lit, Rule, order_in};
use leo_para::Due;
use leo_terms::{Bank, SymId, TermId, TyId, TyView};
use std::alloc::{AllocError, Global};

/// The type of functions from things of one type to things of another.
#[derive(Clone, Copy)]
pub(crate) struct Arrow {
    pub from: TyId,
    pub to: TyId,
}

/// A clause that the rule on functions gives: the number of the literal, the clause, and the line of the symbol if a term is
/// chosen.
#[derive(Drop)]
pub struct Extended {
    pub at: u32,
    pub clause: Clause,
    pub abbr: Option<u64>,
}

/// A closed term, and the variables of which it is a function.
#[derive(Drop)]
struct ClosedTerm {
    term: TermId,
    order: IndexSet<u64>,
}

/// `f w ≠ g w`, and the place of the symbol in w.
#[derive(Clone, Copy)]
pub(crate) struct Difference {
    pub place: usize,
    pub new: Lit,
}

/// The type of a literal, if its sides are functions.
fn arrow_of(bank: &Bank, lit: &Lit) -> Option<Arrow>
    requires lit { IsLitOf bank.now lit.now }
    requires same_type { type_of (tree_at bank.now lit.now.left) ≡ type_of (tree_at bank.now lit.now.right) }
    ensures { MatchOption result (is_arrow (literal_type (literal_at bank.now lit.now)) ≡ false) (AreFunctions bank.now lit.now) }
{
    let ty = bank.type_of(lit.left);
    match bank.view_ty(ty) {
        TyView::Arrow(from, to) => Some(Arrow { from, to }),
        TyView::Base(_) => None,
    }
}

/// `f x = g x` for a fresh variable.
fn equal_lit(bank: &mut Bank, number: u32, lit: &Lit, arrow: &Arrow) -> Result<Lit, AllocError>
    requires functions { AreFunctions bank.old lit.now arrow.now }
    ensures made { IfOk result (λ l. IsLiteral bank.new l (equal (app (tree_at bank.old lit.now.left) (variable number (type_at bank.old arrow.now.from))) (app (tree_at bank.old lit.now.right) (variable number (type_at bank.old arrow.now.from))))) }
    ensures grows { Extends bank.old bank.new }
{
    bank.is_sound();
    let x = bank.make_var(number, arrow.from)?;
    let left = bank.make_app(lit.left, x)?;
    let right = bank.make_app(lit.right, x)?;
    Ok(Lit {
        pos: true,
        left,
        right,
    })
}

/// The clause with `f x = g x` in the place of `f = g`.
fn equal_at(
    alloc: Global,
    bank: &mut Bank,
    clause: &Clause,
    at: usize,
    lit: &Lit,
    arrow: &Arrow,
) -> Result<Extended, AllocError>
    requires clause { IsTypedIn bank.old clause.now }
    requires lit { slice_get clause.now.lits at ≡ Some lit.now }
    requires functions { AreFunctions bank.old lit.now arrow.now }
    ensures made { IfOk result (IsEqualAt bank.old bank.new clause.now at lit.now) }
    ensures grows { Extends bank.old bank.new }
{
    bank.is_sound();
    let number = number_of(at)?;
    let fresh = next_variable(clause.vars.as_slice())?;
    let new = equal_lit(bank, fresh, lit, arrow)?;
    let conclusion = placed(alloc, clause, at, &[arrow.from], &[new])?;
    Ok(Extended {
        at: number,
        clause: conclusion,
        abbr: None,
    })
}

/// The normal form of the chosen term.
fn chosen_normal(bank: &mut Bank, lit: &Lit, arrow: &Arrow) -> Result<TermId, AllocError>
    requires functions { AreFunctions bank.old lit.now arrow.now }
    ensures made { IfOk result (λ t. IsTree bank.new t (chosen_form (difference_in (literal_at bank.old lit.now)))) }
    ensures typed { IfOk result (λ t. IsWellTyped (chosen (difference_in (literal_at bank.old lit.now)))) }
    ensures grows { Extends bank.old bank.new }
{
    let term = difference_term(bank, arrow.from, arrow.to, lit.left, lit.right)?;
    let form = bank.normal(term)?;
    Ok(form)
}

/// The closed term for the chosen one.
fn closed(
    alloc: Global,
    bank: &mut Bank,
    vars: &[TyId],
    lit: &Lit,
    arrow: &Arrow,
) -> Result<ClosedTerm, AllocError>
    requires types { AreTypesOf bank.old vars.now }
    requires functions { AreFunctions bank.old lit.now arrow.now }
    requires left { IsOver (map (type_at bank.old) vars.now) 0 (tree_at bank.old lit.now.left) }
    requires right { IsOver (map (type_at bank.old) vars.now) 0 (tree_at bank.old lit.now.right) }
    ensures made { IfOk result (λ f. IsTree bank.new f.term (closed_form (map (type_at bank.old) vars.now) (difference_in (literal_at bank.old lit.now)))) }
    ensures order { IfOk result (λ f. f.order.keys ≡ variables_of (chosen_form (difference_in (literal_at bank.old lit.now)))) }
    ensures typed { IfOk result (λ f. IsWellTyped (chosen (difference_in (literal_at bank.old lit.now)))) }
    ensures grows { Extends bank.old bank.new }
{
    let form = chosen_normal(bank, lit, arrow)?;
    let order = order_in(alloc, bank, form)?;
    let term = function(alloc, bank, vars, &order, form)?;
    Ok(ClosedTerm { term, order })
}

/// `f w ≠ g w`, where w is a symbol with variables as arguments.
fn claimed(
    bank: &mut Bank,
    head: SymId,
    vars: &[TyId],
    order: &IndexSet<u64>,
    lit: &Lit,
    arrow: &Arrow,
) -> Result<Lit, AllocError>
    requires head { head < length bank.old.symbols }
    requires types { AreTypesOf bank.old vars.now }
    requires variables { AreBelow (length vars.now) order.now.keys }
    requires function { type_at bank.old (symbol_type bank.old head) ≡ function_type (map (type_at bank.old) vars.now) order.now.keys (type_at bank.old arrow.now.from) }
    requires functions { AreFunctions bank.old lit.now arrow.now }
    ensures made { IfOk result (λ l. IsLiteral bank.new l (claimed_literal (difference_in (literal_at bank.old lit.now)) (applied_to (symbol head (type_at bank.old (symbol_type bank.old head))) (variable_terms (map (type_at bank.old) vars.now) order.now.keys)))) }
    ensures grows { Extends bank.old bank.new }
{
    bank.is_sound();
    let whole = bank.make_sym(head)?;
    let chosen = applied_to_variables(bank, whole, vars, order)?;
    let left = bank.make_app(lit.left, chosen)?;
    let right = bank.make_app(lit.right, chosen)?;
    Ok(Lit {
        pos: false,
        left,
        right,
    })
}

/// The symbol at a place of the list.
fn symbol_at(items: &[(SymId, TermId)], place: usize) -> SymId
    requires { place < length items.now }
    ensures { (item : ℕ × ℕ) → slice_get items.now place ≡ Some item → result ≡ item.0 }
{
    let (symbol, _) = items[place];
    symbol
}

/// `f w ≠ g w` for `f ≠ g`, and the place of the symbol in w.
fn picked(
    alloc: Global,
    bank: &mut Bank,
    choices: &mut Abbr,
    vars: &[TyId],
    lit: &Lit,
    arrow: &Arrow,
) -> Result<Difference, AllocError>
    requires types { AreTypesOf bank.old vars.now }
    requires functions { AreFunctions bank.old lit.now arrow.now }
    requires left { IsOver (map (type_at bank.old) vars.now) 0 (tree_at bank.old lit.now.left) }
    requires right { IsOver (map (type_at bank.old) vars.now) 0 (tree_at bank.old lit.now.right) }
    requires in_order { AreInOrder bank.old choices.old.items }
    ensures made { IfOk result (IsPickedFor bank.old bank.new choices.old.items choices.new.items (map (type_at bank.old) vars.now) (difference_in (literal_at bank.old lit.now))) }
    ensures grows { Extends bank.old bank.new }
{
    bank.is_sound();
    let closed = closed(alloc, bank, vars, lit, arrow)?;
    let place = place_for(bank, choices, closed.term)?;
    let head = symbol_at(choices.items.as_slice(), place);
    let new = claimed(bank, head, vars, &closed.order, lit, arrow)?;
    Ok(Difference { place, new })
}

/// The clause with `f w ≠ g w` in the place of `f ≠ g`.
fn different_at(
    alloc: Global,
    bank: &mut Bank,
    choices: &mut Abbr,
    clause: &Clause,
    at: usize,
    lit: &Lit,
    arrow: &Arrow,
) -> Result<Extended, AllocError>
    requires clause { IsTypedIn bank.old clause.now }
    requires lit { slice_get clause.now.lits at ≡ Some lit.now }
    requires functions { AreFunctions bank.old lit.now arrow.now }
    requires in_order { AreInOrder bank.old choices.old.items }
    ensures made { IfOk result (IsDifferentAt bank.old bank.new choices.old.items choices.new.items clause.now at lit.now) }
    ensures grows { Extends bank.old bank.new }
{
    bank.is_sound();
    let number = number_of(at)?;
    let picked = picked(alloc, bank, choices, clause.vars.as_slice(), lit, arrow)?;
    let conclusion = placed(alloc, clause, at, &[], &[picked.new])?;
    Ok(Extended {
        at: number,
        clause: conclusion,
        abbr: Some(picked.place as u64),
    })
}

/// Appends the clause of a literal, if its sides are functions.
fn put_extended_at(
    alloc: Global,
    bank: &mut Bank,
    choices: &mut Abbr,
    clause: &Clause,
    at: usize,
    lit: &Lit,
    extended: &mut Vec<Extended>,
) -> Result<(), AllocError>
    requires clause { IsTypedIn bank.old clause.now }
    requires lit { slice_get clause.now.lits at ≡ Some lit.now }
    requires in_order { AreInOrder bank.old choices.old.items }
    ensures made { OnOk result (IsExtendedBy bank.old bank.new choices.old.items choices.new.items clause.now at lit.now extended.old.items extended.new.items) }
    ensures grows { Extends bank.old bank.new }
{
    bank.is_sound();
    let Some(arrow) = arrow_of(bank, lit) else {
        return Ok(());
    };
    if lit.pos {
        let next = equal_at(alloc, bank, clause, at, lit, &arrow)?;
        extended.push(next)?;
        return Ok(());
    }
    let next = different_at(alloc, bank, choices, clause, at, lit, &arrow)?;
    extended.push(next)?;
    Ok(())
}

/// The clauses of all literals whose sides are functions, in order. The symbols for chosen arguments are in the list then.
pub fn all_extended(
    alloc: Global,
    bank: &mut Bank,
    choices: &mut Abbr,
    clause: &Clause,
) -> Result<Vec<Extended>, AllocError>
    requires clause { IsTypedIn bank.old clause.now }
    requires in_order { AreInOrder bank.old choices.old.items }
    ensures made { IfOk result (λ es. AreExtended bank.old bank.new choices.old.items choices.new.items clause.now es.items) }
    ensures grows { Extends bank.old bank.new }
{
    bank.is_sound();
    let mut extended = Vec::new(alloc);
    let lits = clause.lits.as_slice();
    for at in 0..lits.len() {
        put_extended_at(alloc, bank, choices, clause, at, &lits[at], &mut extended)?;
    }
    Ok(extended)
}

/// Appends the member of a clause that the rule on functions gives.
fn put_extended(
    alloc: Global,
    bank: &Bank,
    before: u64,
    extended: &Extended,
    dues: &mut Vec<Due>,
) -> Result<(), AllocError>
    requires { IsClauseOf bank.now extended.now.clause }
    ensures adds { OnOk result (Adds bank.now bank.now dues.old.items dues.new.items (extended_member bank.now before extended.now ∷ [])) }
{
    bank.is_sound();
    let conclusion = extended.clause.copy(alloc)?;
    let rule = Rule::FuncExt {
        parent: before,
        lit: extended.at,
        abbr: extended.abbr,
    };
    let records = one_record(alloc, conclusion, rule)?;
    put_member(alloc, records, &[], dues)?;
    Ok(())
}

/// Appends the members of clauses that the rule on functions gives. Their parent stands in the line with the number `before`.
pub fn put_func_ext(
    alloc: Global,
    bank: &Bank,
    before: u64,
    extended: &[Extended],
    dues: &mut Vec<Due>,
) -> Result<(), AllocError>
    requires { AreExtendedOf bank.now extended.now }
    ensures adds { OnOk result (Adds bank.now bank.now dues.old.items dues.new.items (map (extended_member bank.now before) extended.now)) }
{
    bank.is_sound();
    for one in extended {
        put_extended(alloc, bank, before, one, dues)?;
    }
    Ok(())
}
