//! States of a search, and a binding put into them.

ghost use Rattle.std.specs.Prelude.{◌≡◌, ◌+◌, ◌<◌, ◌++◌, ℕ, if◌then◌else◌, nat_eq, drop, length, map, slice_get, take, IfOk, Some};
ghost use Rattle.leo_terms.specs.Contents.{AreTerms, Extends, tree_at, type_at};
ghost use Rattle.leo_terms.specs.Tree.{variable, type_of, IsGiven};
ghost use Rattle.leo_clause.specs.Typed.{AreTypesOf};
ghost use Rattle.leo_unify.specs.Contexts.{IsBindingIn, IsPutTree, ArePairsGiven, ArePutPairs, ArePutTrees, AreTreesGiven};
ghost use Rattle.leo_unify.specs.Search.{given_from, with_binding as with_binding_of};
ghost use Rattle.leo_unify.specs.States.{state_at, IsStateOf};
ghost use Rattle.leo_unify.specs.Views.{binding_at, pair_at, ArePairsOf, IsBindingOf};

use crate::binding::Binding;
use crate::pairs::Pair;
use leo_items::Items;
use leo_terms::{Bank, TermId, TyId};
use std::alloc::{AllocError, Global};

/// A state of a search.
#[derive(Drop)]
pub(crate) struct State {
    /// The types of the variables, those that were handed in and then the fresh ones.
    pub vars: Items<TyId>,
    /// The terms of the variables that were handed in.
    pub terms: Items<TermId>,
    /// What is to become equal.
    pub pairs: Items<Pair>,
}

/// What stands for the variable of a number once one of them is bound.
fn given_at(
    bank: &mut Bank,
    ty: TyId,
    place: usize,
    number: u32,
    term: TermId,
) -> Result<TermId, AllocError>
    requires ty { ty < length bank.old.types }
    requires term { term < length bank.old.terms }
    ensures value { IfOk result (λ r. tree_at bank.new r ≡ (if nat_eq place number then tree_at bank.old term else variable place (type_at bank.old ty))) }
    ensures within { IfOk result (λ r. r < length bank.new.terms) }
    ensures grows { Extends bank.old bank.new }
{
    bank.is_sound();
    let Ok(fitting) = u32::try_from(place) else {
        return Err(AllocError);
    };
    if fitting == number {
        return Ok(term);
    }
    let r = bank.make_var(fitting, ty)?;
    Ok(r)
}

/// What stands for each variable once one of them is bound.
fn given(
    alloc: Global,
    bank: &mut Bank,
    vars: &[TyId],
    number: u32,
    term: TermId,
) -> Result<Vec<TermId>, AllocError>
    requires vars { AreTypesOf bank.old vars.now }
    requires term { term < length bank.old.terms }
    ensures value { IfOk result (λ ts. map (tree_at bank.new) ts.items ≡ given_from number (tree_at bank.old term) 0 (map (type_at bank.old) vars.now)) }
    ensures terms { IfOk result (λ ts. AreTerms bank.new ts.items) }
    ensures grows { Extends bank.old bank.new }
{
    bank.is_sound();
    let mut given = Vec::new(alloc);
    for place in 0..vars.len() {
        let next = given_at(bank, vars[place], place, number, term)?;
        given.push(next)?;
    }
    Ok(given)
}

/// A term with these put in for its variables, in normal form.
fn put_term(bank: &mut Bank, given: &[TermId], t: TermId) -> Result<TermId, AllocError>
    requires within { t < length bank.old.terms }
    requires terms { AreTerms bank.old given.now }
    requires given { IsGiven (map (tree_at bank.old) given.now) (tree_at bank.old t) }
    ensures put { IfOk result (λ r. IsPutTree (map (tree_at bank.old) given.now) (tree_at bank.old t) (tree_at bank.new r)) }
    ensures within { IfOk result (λ r. r < length bank.new.terms) }
    ensures grows { Extends bank.old bank.new }
{
    bank.is_sound();
    let s = bank.subst(t, given)?;
    let r = bank.normal(s)?;
    Ok(r)
}

/// The same for each term.
fn put_terms(
    alloc: Global,
    bank: &mut Bank,
    given: &[TermId],
    terms: &[TermId],
) -> Result<Items<TermId>, AllocError>
    requires within { AreTerms bank.old terms.now }
    requires terms { AreTerms bank.old given.now }
    requires given { AreTreesGiven (map (tree_at bank.old) given.now) (map (tree_at bank.old) terms.now) }
    ensures put { IfOk result (λ rs. ArePutTrees (map (tree_at bank.old) given.now) (map (tree_at bank.old) terms.now) (map (tree_at bank.new) rs)) }
    ensures within { IfOk result (λ rs. AreTerms bank.new rs) }
    ensures grows { Extends bank.old bank.new }
{
    bank.is_sound();
    let mut out = Items::new(alloc);
    for term in terms {
        let r = put_term(bank, given, *term)?;
        out.push(r)?;
    }
    Ok(out)
}

/// The same for both sides of a pair.
fn put_pair(bank: &mut Bank, given: &[TermId], pair: Pair) -> Result<Pair, AllocError>
    requires left { pair.left < length bank.old.terms }
    requires right { pair.right < length bank.old.terms }
    requires terms { AreTerms bank.old given.now }
    requires left_given { IsGiven (map (tree_at bank.old) given.now) (tree_at bank.old pair.left) }
    requires right_given { IsGiven (map (tree_at bank.old) given.now) (tree_at bank.old pair.right) }
    ensures put_left { IfOk result (λ p. IsPutTree (map (tree_at bank.old) given.now) (tree_at bank.old pair.left) (tree_at bank.new p.left)) }
    ensures put_right { IfOk result (λ p. IsPutTree (map (tree_at bank.old) given.now) (tree_at bank.old pair.right) (tree_at bank.new p.right)) }
    ensures left_within { IfOk result (λ p. p.left < length bank.new.terms) }
    ensures right_within { IfOk result (λ p. p.right < length bank.new.terms) }
    ensures grows { Extends bank.old bank.new }
{
    let left = put_term(bank, given, pair.left)?;
    let right = put_term(bank, given, pair.right)?;
    Ok(Pair { left, right })
}

/// The same for each pair.
fn put_pairs(
    alloc: Global,
    bank: &mut Bank,
    given: &[TermId],
    pairs: &[Pair],
) -> Result<Items<Pair>, AllocError>
    requires within { ArePairsOf bank.old pairs.now }
    requires terms { AreTerms bank.old given.now }
    requires given { ArePairsGiven (map (tree_at bank.old) given.now) (map (pair_at bank.old) pairs.now) }
    ensures put { IfOk result (λ ps. ArePutPairs (map (tree_at bank.old) given.now) (map (pair_at bank.old) pairs.now) (map (pair_at bank.new) ps)) }
    ensures within { IfOk result (ArePairsOf bank.new) }
    ensures grows { Extends bank.old bank.new }
{
    bank.is_sound();
    let mut out = Items::new(alloc);
    for pair in pairs {
        let r = put_pair(bank, given, *pair)?;
        out.push(r)?;
    }
    Ok(out)
}

/// The variables, and fresh ones behind them.
fn all_vars(alloc: Global, vars: &[TyId], fresh: &[TyId]) -> Result<Items<TyId>, AllocError>
    ensures { IfOk result (λ all. all ≡ vars.now ++ fresh.now) }
{
    let mut all = Items::from_slice(alloc, vars)?;
    let more = Items::from_slice(alloc, fresh)?;
    all.append(more)?;
    Ok(all)
}

/// The state with a binding put into all pairs and all terms so far.
pub(crate) fn with_binding(
    alloc: Global,
    bank: &mut Bank,
    state: &State,
    binding: &Binding,
) -> Result<State, AllocError>
    requires state { IsStateOf bank.old state.now }
    requires binding { IsBindingOf bank.old binding.now }
    requires typed { IsBindingIn (map (type_at bank.old) state.now.vars) (binding_at bank.old binding.now) }
    ensures value { IfOk result (λ s. (d e : ℕ) → state_at bank.new s e ≡ with_binding_of (state_at bank.old state.now d) e (binding_at bank.old binding.now)) }
    ensures state { IfOk result (IsStateOf bank.new) }
    ensures types { IfOk result (λ s. map type_of (map (tree_at bank.new) s.terms) ≡ map type_of (map (tree_at bank.old) state.now.terms)) }
    ensures grows { Extends bank.old bank.new }
{
    bank.is_sound();
    let vars = all_vars(alloc, state.vars.as_slice(), binding.fresh.as_slice())?;
    let sigma = given(alloc, bank, vars.as_slice(), binding.number, binding.term)?;
    let terms = put_terms(alloc, bank, &sigma, state.terms.as_slice())?;
    let pairs = put_pairs(alloc, bank, &sigma, state.pairs.as_slice())?;
    Ok(State { vars, terms, pairs })
}

/// The state with other pairs in the place of one.
pub(crate) fn with_pairs(
    alloc: Global,
    state: &State,
    place: usize,
    new: Items<Pair>,
) -> Result<State, AllocError>
    requires { place < length state.now.pairs }
    ensures vars { IfOk result (λ s. s.vars ≡ state.now.vars) }
    ensures terms { IfOk result (λ s. s.terms ≡ state.now.terms) }
    ensures pairs { IfOk result (λ s. s.pairs ≡ take place state.now.pairs ++ (new ++ drop (place + 1) state.now.pairs)) }
{
    let vars = Items::from_slice(alloc, state.vars.as_slice())?;
    let terms = Items::from_slice(alloc, state.terms.as_slice())?;
    let old = state.pairs.as_slice();
    let mut pairs = Items::from_slice(alloc, &old[..place])?;
    pairs.append(new)?;
    let behind = Items::from_slice(alloc, &old[place + 1..])?;
    pairs.append(behind)?;
    Ok(State { vars, terms, pairs })
}
