//! Closed terms for chosen things, and the symbols for them.

ghost use Rattle.std.specs.Prelude.{◌≡◌, ◌<◌, ◌≤◌, ◌∷◌, [], ℕ, length, map, slice_get, Some, IfOk, MatchOption};
ghost use Rattle.leo_q0.specs.Terms.{SimpleType, arrow};
ghost use Rattle.leo_terms.specs.Contents.{Extends, IsTerm, tree_at, type_at, type_number};
ghost use Rattle.leo_terms.specs.Tree.{IsBoundAt, app, bound, lam, lifted, type_of, variable};
ghost use Rattle.leo_clause.specs.Arranging.{variable_type};
ghost use Rattle.leo_clause.specs.Choices.{AreChoicesOf, choice_at};
ghost use Rattle.leo_clause.specs.Renaming.{AreBelow};
ghost use Rattle.leo_clause.specs.Typed.{AreTypesOf, IsOver};
ghost use Rattle.leo_kernel.specs.Choosing.{applied_to, chosen, difference};
ghost use Rattle.leo_kernel.specs.ChosenClaims.{IsFunctionOf};
ghost use Rattle.leo_kernel.specs.Shapes.{choice_tree, not_tree};
ghost use Rattle.leo_clausify.specs.Choosing.{AreChoices, function_of, indexed, variable_terms};
ghost use Rattle.leo_clausify.specs.Giving.{AreGivenBy, index_tree};
ghost use Rattle.leo_clausify.specs.Picking.{HasNone, IsFound, IsPlaced, IsTree};
ghost use Rattle.leo_clausify.specs.Applied.{function_type};

use indexmap::IndexSet;
use leo_clause::Abbr;
use leo_terms::{Bank, Op, SymId, TermId, TyId};
use std::alloc::{AllocError, Global};

/// A function under one more lambda, applied to the variable of that lambda.
fn applied_inside(bank: &mut Bank, from: TyId, to: TyId, f: TermId) -> Result<TermId, AllocError>
    requires { IsFunctionOf bank.old from to f }
    ensures made { IfOk result (λ t. IsTerm bank.new t to (app (lifted 0 1 (tree_at bank.old f)) (bound 0 (type_at bank.old from)))) }
    ensures grows { Extends bank.old bank.new }
{
    let _ = to;
    bank.is_sound();
    let raised = bank.lift(f, 1)?;
    let index = bank.make_bound(0, from)?;
    let whole = bank.make_app(raised, index)?;
    Ok(whole)
}

/// `ε (λx. ~ A)`, for a truth value A with an index for x.
fn chosen_against(bank: &mut Bank, ty: TyId, a: TermId) -> Result<TermId, AllocError>
    requires ty { ty < length bank.old.types }
    requires within { a < length bank.old.terms }
    requires truth_value { type_number bank.old a ≡ 0 }
    requires index { IsBoundAt 0 (type_at bank.old ty) (tree_at bank.old a) }
    ensures made { IfOk result (λ t. IsTerm bank.new t ty (choice_tree (type_at bank.old ty) (lam (type_at bank.old ty) (not_tree (tree_at bank.old a))))) }
    ensures grows { Extends bank.old bank.new }
{
    bank.is_sound();
    let negated = bank.make_logic(Op::Not, &[a])?;
    let property = bank.make_lam(ty, negated)?;
    let term = bank.make_logic(Op::Eps(ty), &[property])?;
    Ok(term)
}

/// `ε (λx. ~ (f x = g x))`.
pub(crate) fn difference_term(
    bank: &mut Bank,
    from: TyId,
    to: TyId,
    f: TermId,
    g: TermId,
) -> Result<TermId, AllocError>
    requires first { IsFunctionOf bank.old from to f }
    requires second { IsFunctionOf bank.old from to g }
    ensures made { IfOk result (λ t. IsTerm bank.new t from (chosen (difference (type_at bank.old from) (tree_at bank.old f) (tree_at bank.old g)))) }
    ensures grows { Extends bank.old bank.new }
{
    bank.is_sound();
    let left = applied_inside(bank, from, to, f)?;
    let right = applied_inside(bank, from, to, g)?;
    let equation = bank.make_logic(Op::Eq(to), &[left, right])?;
    let term = chosen_against(bank, from, equation)?;
    Ok(term)
}

/// The variable with this number, or an index if it is the variable `n`.
fn index_term(bank: &mut Bank, n: u64, number: u64, ty: TyId) -> Result<TermId, AllocError>
    requires { ty < length bank.old.types }
    ensures made { IfOk result (λ t. IsTerm bank.new t ty (index_tree n number (type_at bank.old ty))) }
    ensures grows { Extends bank.old bank.new }
{
    bank.is_sound();
    if number == n {
        let term = bank.make_bound(0, ty)?;
        Ok(term)
    } else {
        let Ok(number) = u32::try_from(number) else {
            return Err(AllocError);
        };
        let term = bank.make_var(number, ty)?;
        Ok(term)
    }
}

/// All variables, with an index for the variable `n`.
fn index_terms(
    alloc: Global,
    bank: &mut Bank,
    n: u64,
    vars: &[TyId],
) -> Result<Vec<TermId>, AllocError>
    requires { AreTypesOf bank.old vars.now }
    ensures given { IfOk result (λ sigma. AreGivenBy (index_tree n) bank.old bank.new vars.now sigma.items (length vars.now)) }
    ensures grows { Extends bank.old bank.new }
{
    bank.is_sound();
    let mut sigma = Vec::new(alloc);
    for number in 0..vars.len() {
        let term = index_term(bank, n, number as u64, vars[number])?;
        sigma.push(term)?;
    }
    Ok(sigma)
}

/// A variable's type.
fn type_in(vars: &[TyId], number: u64) -> TyId
    requires { number < length vars.now }
    ensures { slice_get vars.now number ≡ Some result }
{
    vars[number as usize]
}

/// A term as a function of one of its variables.
fn function_over(
    alloc: Global,
    bank: &mut Bank,
    vars: &[TyId],
    n: u64,
    t: TermId,
) -> Result<TermId, AllocError>
    requires types { AreTypesOf bank.old vars.now }
    requires within { t < length bank.old.terms }
    requires variable { n < length vars.now }
    requires over { IsOver (map (type_at bank.old) vars.now) 0 (tree_at bank.old t) }
    ensures made { IfOk result (λ r. IsTree bank.new r (lam (variable_type (map (type_at bank.old) vars.now) n) (indexed n 0 (tree_at bank.old t)))) }
    ensures grows { Extends bank.old bank.new }
{
    bank.is_sound();
    let sigma = index_terms(alloc, bank, n, vars)?;
    let body = bank.subst(t, &sigma)?;
    let whole = bank.make_lam(type_in(vars, n), body)?;
    Ok(whole)
}

/// The number at a place.
fn number_at(order: &IndexSet<u64>, place: usize) -> u64
    requires { place < length order.now.keys }
    ensures { slice_get order.now.keys place ≡ Some result }
{
    match order.get_index(place) {
        Some(number) => *number,
        None => unreachable!(),
    }
}

/// A term as a function of these variables, the first one outermost.
pub(crate) fn function(
    alloc: Global,
    bank: &mut Bank,
    vars: &[TyId],
    order: &IndexSet<u64>,
    t: TermId,
) -> Result<TermId, AllocError>
    requires types { AreTypesOf bank.old vars.now }
    requires within { t < length bank.old.terms }
    requires variables { AreBelow (length vars.now) order.now.keys }
    requires over { IsOver (map (type_at bank.old) vars.now) 0 (tree_at bank.old t) }
    ensures made { IfOk result (λ r. IsTree bank.new r (function_of (map (type_at bank.old) vars.now) order.now.keys (tree_at bank.old t))) }
    ensures grows { Extends bank.old bank.new }
{
    bank.is_sound();
    let mut whole = t;
    let count = order.len();
    for done in 0..count {
        let n = number_at(order, count - 1 - done);
        let next = function_over(alloc, bank, vars, n, whole)?;
        whole = next;
    }
    Ok(whole)
}

/// The place of the first item that has a term.
fn find(items: &[(SymId, TermId)], t: TermId) -> Option<usize>
    ensures { MatchOption result (HasNone items.now t (length items.now)) (IsFound items.now t) }
{
    for at in 0..items.len() {
        let (_, term) = items[at];
        if term == t {
            return Some(at);
        }
    }
    None
}

/// The place of the first symbol that stands for a closed term, after the list has got one for it if it had none.
pub(crate) fn place_for(bank: &mut Bank, choices: &mut Abbr, t: TermId) -> Result<usize, AllocError>
    requires within { t < length bank.old.terms }
    requires closed { IsOver [] 0 (tree_at bank.old t) }
    requires of_bank { AreChoicesOf bank.old choices.old.items }
    requires choices { AreChoices (map (choice_at bank.old) choices.old.items) }
    ensures placed { IfOk result (IsPlaced bank.old bank.new choices.old.items choices.new.items t) }
    ensures grows { Extends bank.old bank.new }
{
    bank.is_sound();
    match find(choices.items.as_slice(), t) {
        Some(at) => Ok(at),
        None => {
            let at = choices.items.len();
            let ty = bank.type_of(t);
            let symbol = bank.fresh(ty)?;
            choices.items.push((symbol, t))?;
            Ok(at)
        }
    }
}

/// A variable. Where its number does not fit there is no memory for it.
pub(crate) fn variable_numbered(
    bank: &mut Bank,
    number: u64,
    ty: TyId,
) -> Result<TermId, AllocError>
    requires { ty < length bank.old.types }
    ensures made { IfOk result (λ t. IsTerm bank.new t ty (variable number (type_at bank.old ty))) }
    ensures grows { Extends bank.old bank.new }
{
    bank.is_sound();
    let Ok(fitting) = u32::try_from(number) else {
        return Err(AllocError);
    };
    let term = bank.make_var(fitting, ty)?;
    Ok(term)
}

/// A term applied to a variable.
fn applied_to_variable(
    bank: &mut Bank,
    f: TermId,
    number: u64,
    ty: TyId,
) -> Result<TermId, AllocError>
    requires within { f < length bank.old.terms }
    requires ty { ty < length bank.old.types }
    requires function { (b : SimpleType) × (type_of (tree_at bank.old f) ≡ arrow (type_at bank.old ty) b) }
    ensures made { IfOk result (λ t. IsTree bank.new t (app (tree_at bank.old f) (variable number (type_at bank.old ty)))) }
    ensures grows { Extends bank.old bank.new }
{
    let x = variable_numbered(bank, number, ty)?;
    let whole = bank.make_app(f, x)?;
    Ok(whole)
}

/// A term applied to variables, one after the other.
pub(crate) fn applied_to_variables(
    bank: &mut Bank,
    f: TermId,
    vars: &[TyId],
    order: &IndexSet<u64>,
) -> Result<TermId, AllocError>
    requires within { f < length bank.old.terms }
    requires types { AreTypesOf bank.old vars.now }
    requires variables { AreBelow (length vars.now) order.now.keys }
    requires function { (a : SimpleType) × (type_of (tree_at bank.old f) ≡ function_type (map (type_at bank.old) vars.now) order.now.keys a) }
    ensures made { IfOk result (λ t. IsTree bank.new t (applied_to (tree_at bank.old f) (variable_terms (map (type_at bank.old) vars.now) order.now.keys))) }
    ensures grows { Extends bank.old bank.new }
{
    bank.is_sound();
    let mut whole = f;
    for place in 0..order.len() {
        let n = number_at(order, place);
        let next = applied_to_variable(bank, whole, n, type_in(vars, n))?;
        whole = next;
    }
    Ok(whole)
}
