//! A literal of a branch is reduced.

ghost use Rattle.std.specs.Prelude.{◌≡◌, ◌<◌, ◌≤◌, ◌∷◌, [], ℕ, List, length, map, slice_get, Some, IfOk};
ghost use Rattle.leo_terms.specs.Contents.{Extends, IsTerm, symbol_type, tree_at, type_at};
ghost use Rattle.leo_terms.specs.Tree.{symbol, type_of};
ghost use Rattle.leo_terms.specs.Typing.{IsWellTyped};
ghost use Rattle.leo_clause.specs.Arranging.{variable_type};
ghost use Rattle.leo_clause.specs.Renaming.{AreBelow};
ghost use Rattle.leo_clause.specs.Trees.{literal_at};
ghost use Rattle.leo_clause.specs.Typed.{AreTypesOf, IsOver};
ghost use Rattle.leo_kernel.specs.Choosing.{applied_to, chosen, claimed as claimed_literal, value as value_claim};
ghost use Rattle.leo_kernel.specs.Tops.{IsPropertyOf};
ghost use Rattle.leo_clausify.specs.Applied.{function_type};
ghost use Rattle.leo_clausify.specs.Branches.{IsBranch};
ghost use Rattle.leo_clausify.specs.Choosing.{AreInOrder, chosen_form, closed_form, variable_terms, variables_of};
ghost use Rattle.leo_clausify.specs.Literals.{AreLiterals};
ghost use Rattle.leo_clausify.specs.Picking.{IsPicked, IsTree};
ghost use Rattle.leo_clausify.specs.Reducing.{ArePieces, HasRow, IsReduced, IsTaken, IsWayOver};
ghost use Rattle.leo_clausify.specs.Ways.{IsRow, IsWayOf, chosen as chosen_way, form_of, kind_chosen, way_at};

use crate::branch::{Branch, Pieces};
use crate::choosing::{applied_to_variables, chosen_term, function, place_for};
use crate::literals::{applied, double, single};
use crate::ways::Way;
use indexmap::IndexSet;
use leo_clause::{Abbr, Lit, LogicKind, order_in};
use leo_items::Items;
use leo_terms::{Bank, SymId, TermId, TyId};
use std::alloc::{AllocError, Global};

/// A closed term, and the variables of which it is a function.
#[derive(Drop)]
struct ClosedTerm {
    term: TermId,
    order: IndexSet<u64>,
}

/// The normal form of a chosen term.
fn chosen_normal(bank: &mut Bank, ty: TyId, property: TermId, v: bool) -> Result<TermId, AllocError>
    requires { IsPropertyOf bank.old ty property }
    ensures made { IfOk result (λ t. IsTree bank.new t (chosen_form (value_claim (type_at bank.old ty) (tree_at bank.old property) v))) }
    ensures typed { IfOk result (λ t. IsWellTyped (chosen (value_claim (type_at bank.old ty) (tree_at bank.old property) v))) }
    ensures grows { Extends bank.old bank.new }
{
    let term = chosen_term(bank, ty, property, v)?;
    let form = bank.normal(term)?;
    Ok(form)
}

/// The closed term for a chosen one.
fn closed(
    alloc: Global,
    bank: &mut Bank,
    vars: &[TyId],
    ty: TyId,
    property: TermId,
    v: bool,
) -> Result<ClosedTerm, AllocError>
    requires types { AreTypesOf bank.old vars.now }
    requires property { IsPropertyOf bank.old ty property }
    requires over { IsOver (map (type_at bank.old) vars.now) 0 (tree_at bank.old property) }
    ensures made { IfOk result (λ f. IsTree bank.new f.term (closed_form (map (type_at bank.old) vars.now) (value_claim (type_at bank.old ty) (tree_at bank.old property) v))) }
    ensures order { IfOk result (λ f. f.order.keys ≡ variables_of (chosen_form (value_claim (type_at bank.old ty) (tree_at bank.old property) v))) }
    ensures typed { IfOk result (λ f. IsWellTyped (chosen (value_claim (type_at bank.old ty) (tree_at bank.old property) v))) }
    ensures grows { Extends bank.old bank.new }
{
    let form = chosen_normal(bank, ty, property, v)?;
    let order = order_in(alloc, bank, form)?;
    let term = function(alloc, bank, vars, &order, form)?;
    Ok(ClosedTerm { term, order })
}

/// `P w = v`, where w is a symbol with variables as arguments.
fn claimed(
    alloc: Global,
    bank: &mut Bank,
    head: SymId,
    vars: &[TyId],
    order: &IndexSet<u64>,
    ty: TyId,
    property: TermId,
    v: bool,
) -> Result<Items<Lit>, AllocError>
    requires head { head < length bank.old.symbols }
    requires types { AreTypesOf bank.old vars.now }
    requires variables { AreBelow (length vars.now) order.now.keys }
    requires function { type_at bank.old (symbol_type bank.old head) ≡ function_type (map (type_at bank.old) vars.now) order.now.keys (type_at bank.old ty) }
    requires property { IsPropertyOf bank.old ty property }
    ensures made { IfOk result (λ ls. AreLiterals bank.new ls (claimed_literal (value_claim (type_at bank.old ty) (tree_at bank.old property) v) (applied_to (symbol head (type_at bank.old (symbol_type bank.old head))) (variable_terms (map (type_at bank.old) vars.now) order.now.keys)) ∷ [])) }
    ensures grows { Extends bank.old bank.new }
{
    bank.is_sound();
    let whole = bank.make_sym(head)?;
    let chosen = applied_to_variables(bank, whole, vars, order)?;
    let claim = bank.make_app(property, chosen)?;
    let new = single(alloc, bank, claim, v)?;
    Ok(new)
}

/// The symbol at a place of the list.
fn symbol_at(items: &[(SymId, TermId)], place: usize) -> SymId
    requires { place < length items.now }
    ensures { (item : ℕ × ℕ) → slice_get items.now place ≡ Some item → result ≡ item.0 }
{
    let (symbol, _) = items[place];
    symbol
}

fn chosen_kind(v: bool) -> LogicKind
    ensures { result ≡ kind_chosen v }
{
    if v { LogicKind::SomeT } else { LogicKind::AllF }
}

/// What `! P = F` or `? P = T` becomes, and the symbol for the chosen thing.
fn picked(
    alloc: Global,
    bank: &mut Bank,
    choices: &mut Abbr,
    vars: &[TyId],
    ty: TyId,
    property: TermId,
    v: bool,
) -> Result<Pieces, AllocError>
    requires types { AreTypesOf bank.old vars.now }
    requires property { IsPropertyOf bank.old ty property }
    requires over { IsOver (map (type_at bank.old) vars.now) 0 (tree_at bank.old property) }
    requires in_order { AreInOrder bank.old choices.old.items }
    ensures made { IfOk result (ArePieces bank.old bank.new choices.old.items choices.new.items (map (type_at bank.old) vars.now) (chosen_way (type_at bank.old ty) (tree_at bank.old property) v)) }
    ensures grows { Extends bank.old bank.new }
{
    bank.is_sound();
    let closed = closed(alloc, bank, vars, ty, property, v)?;
    let place = place_for(bank, choices, closed.term)?;
    let head = symbol_at(choices.items.as_slice(), place);
    let new = claimed(alloc, bank, head, vars, &closed.order, ty, property, v)?;
    Ok(Pieces {
        kind: chosen_kind(v),
        abbr: Some(place as u64),
        fresh: Items::new(alloc),
        new,
    })
}

/// How many variables there are. Where the number does not fit there is no memory for one more.
fn count_of(vars: &[TyId]) -> Result<u32, AllocError>
    ensures { IfOk result (λ n. n ≡ length vars.now) }
{
    let Ok(count) = u32::try_from(vars.len()) else {
        return Err(AllocError);
    };
    Ok(count)
}

/// What a literal becomes by a rule about truth values.
fn pieces(
    alloc: Global,
    bank: &mut Bank,
    choices: &mut Abbr,
    vars: &[TyId],
    way: &Way,
) -> Result<Pieces, AllocError>
    requires taken { IsTaken way.now }
    requires way { IsWayOf bank.old way.now }
    requires types { AreTypesOf bank.old vars.now }
    requires over { IsWayOver (map (type_at bank.old) vars.now) (way_at bank.old way.now) }
    requires in_order { AreInOrder bank.old choices.old.items }
    ensures made { IfOk result (ArePieces bank.old bank.new choices.old.items choices.new.items (map (type_at bank.old) vars.now) (way_at bank.old way.now)) }
    ensures grows { Extends bank.old bank.new }
{
    bank.is_sound();
    match way {
        Way::Turn => unreachable!(),
        Way::Omit => unreachable!(),
        Way::Single(kind, a, v) => {
            let new = single(alloc, bank, *a, *v)?;
            Ok(Pieces {
                kind: *kind,
                abbr: None,
                fresh: Items::new(alloc),
                new,
            })
        }
        Way::Double(kind, a, v, b, w) => {
            let new = double(alloc, bank, *a, *v, *b, *w)?;
            Ok(Pieces {
                kind: *kind,
                abbr: None,
                fresh: Items::new(alloc),
                new,
            })
        }
        Way::Sides(kind, positive, s, t) => {
            let mut new = Items::new(alloc);
            new.push(Lit {
                pos: *positive,
                left: *s,
                right: *t,
            })?;
            Ok(Pieces {
                kind: *kind,
                abbr: None,
                fresh: Items::new(alloc),
                new,
            })
        }
        Way::Fresh(kind, ty, property, v) => {
            let number = count_of(vars)?;
            let new = applied(alloc, bank, number, *ty, *property, *v)?;
            let mut fresh = Items::new(alloc);
            fresh.push(*ty)?;
            Ok(Pieces {
                kind: *kind,
                abbr: None,
                fresh,
                new,
            })
        }
        Way::Chosen(ty, property, v) => {
            let pieces = picked(alloc, bank, choices, vars, *ty, *property, *v)?;
            Ok(pieces)
        }
    }
}

/// A literal of a branch is taken apart by a rule about truth values.
fn taken_apart(
    alloc: Global,
    bank: &mut Bank,
    choices: &mut Abbr,
    branch: Branch,
    at: u32,
    way: &Way,
) -> Result<Branch, AllocError>
    requires branch { IsBranch bank.old branch }
    requires taken { IsTaken way.now }
    requires way { IsWayOf bank.old way.now }
    requires row { HasRow bank.old branch at (way_at bank.old way.now) }
    requires in_order { AreInOrder bank.old choices.old.items }
    ensures made { IfOk result (λ r. (l : Lit) → slice_get branch.clause.lits at ≡ Some l → IsReduced bank.old bank.new choices.old.items choices.new.items branch r at (literal_at bank.old l) (form_of (way_at bank.old way.now))) }
    ensures grows { Extends bank.old bank.new }
{
    let pieces = pieces(alloc, bank, choices, branch.clause.vars.as_slice(), way)?;
    let taken = branch.taken(alloc, bank, at, &pieces)?;
    Ok(taken)
}

/// A literal of a branch takes one of its forms.
pub(crate) fn reduced(
    alloc: Global,
    bank: &mut Bank,
    choices: &mut Abbr,
    branch: Branch,
    at: u32,
    way: &Way,
) -> Result<Branch, AllocError>
    requires branch { IsBranch bank.old branch }
    requires way { IsWayOf bank.old way.now }
    requires row { HasRow bank.old branch at (way_at bank.old way.now) }
    requires in_order { AreInOrder bank.old choices.old.items }
    ensures made { IfOk result (λ r. (l : Lit) → slice_get branch.clause.lits at ≡ Some l → IsReduced bank.old bank.new choices.old.items choices.new.items branch r at (literal_at bank.old l) (form_of (way_at bank.old way.now))) }
    ensures grows { Extends bank.old bank.new }
{
    bank.is_sound();
    match way {
        Way::Turn => {
            let turned = branch.turned(alloc, bank, at)?;
            Ok(turned)
        }
        Way::Omit => {
            let omitted = branch.omitted(alloc, bank, at)?;
            Ok(omitted)
        }
        _ => {
            let taken = taken_apart(alloc, bank, choices, branch, at, way)?;
            Ok(taken)
        }
    }
}
