//! The search for solutions, depth first.

ghost use Rattle.std.specs.Prelude.{◌≡◌, ◌+◌, ◌≤◌, ◌<◌, ◌∷◌, [], ℕ, false, drop, length, map, take, IfOk};
ghost use Rattle.leo_terms.specs.Contents.{Contents, Extends, tree_at, type_at};
ghost use Rattle.leo_terms.specs.Tree.{type_of};
ghost use Rattle.leo_unify.specs.Contexts.{AreBindingsIn, IsActIn};
ghost use Rattle.leo_unify.specs.Search.{Finds, FindsAmong, done, rests, step_of, with_binding as with_binding_of};
ghost use Rattle.leo_unify.specs.Solutions.{AreSigmasOf, sigma_at};
ghost use Rattle.leo_unify.specs.States.{state_at, IsStateOf};
ghost use Rattle.leo_unify.specs.Views.{act_at, binding_at, pair_at, stays, AreBindingsOf, IsActOf};

use crate::act::{Act, act_on};
use crate::binding::Binding;
use crate::sigma::Sigma;
use crate::state::{State, with_binding, with_pairs};
use leo_items::Items;
use leo_terms::Bank;
use std::alloc::{AllocError, Global};

/// What is done first, with the place of its pair.
#[derive(Drop)]
struct Work {
    place: usize,
    act: Act,
}

/// Whether no case applies.
fn is_stay(act: &Act) -> bool
    ensures { (c : Contents) → result ≡ stays (act_at c act.now) }
{
    match act {
        Act::Stay => true,
        Act::Replace(_) => false,
        Act::Bind(_) => false,
        Act::Refuse => false,
        Act::Branch(_) => false,
    }
}

/// What is done with the first pair to which a case applies. Nothing is done where there is none.
fn first_work(alloc: Global, bank: &mut Bank, state: &State, depth: u8) -> Result<Work, AllocError>
    requires state { IsStateOf bank.old state.now }
    ensures value { IfOk result (λ w. step_of (state_at bank.old state.now depth) ≡
        done (state_at bank.old state.now depth) (act_at bank.new w.act) (take w.place (map (pair_at bank.old) state.now.pairs)) (drop (w.place + 1) (map (pair_at bank.old) state.now.pairs)) rests) }
    ensures place { IfOk result (λ w. stays (act_at bank.new w.act) ≡ false → w.place < length state.now.pairs) }
    ensures within { IfOk result (λ w. IsActOf bank.new w.act) }
    ensures typed { IfOk result (λ w. IsActIn (map (type_at bank.old) state.now.vars) (act_at bank.new w.act)) }
    ensures grows { Extends bank.old bank.new }
{
    bank.is_sound();
    let pairs = state.pairs.as_slice();
    for place in 0..pairs.len() {
        let act = act_on(alloc, bank, state.vars.as_slice(), depth, pairs[place])?;
        if !is_stay(&act) {
            return Ok(Work { place, act });
        }
    }
    Ok(Work {
        place: 0,
        act: Act::Stay,
    })
}

/// A state as the one solution.
fn solution(alloc: Global, state: State) -> Result<Items<Sigma>, AllocError>
    ensures { IfOk result (λ xs. xs ≡ record { vars = state.vars; terms = state.terms } ∷ []) }
{
    let mut found = Items::new(alloc);
    let State {
        vars,
        terms,
        pairs: _,
    } = state;
    found.push(Sigma { vars, terms })?;
    Ok(found)
}

/// The first `wanted` solutions of a state. More steps than there is memory for find none.
#[cycle(search)]
pub(crate) fn search(
    alloc: Global,
    bank: &mut Bank,
    state: State,
    depth: u8,
    wanted: usize,
) -> Result<Items<Sigma>, AllocError>
    requires state { IsStateOf bank.old state }
    ensures found { IfOk result (λ xs. Finds wanted (state_at bank.old state depth) (map (sigma_at bank.new) xs)) }
    ensures sigmas { IfOk result (AreSigmasOf bank.new (map type_of (map (tree_at bank.old) state.terms))) }
    ensures grows { Extends bank.old bank.new }
{
    bank.is_sound();
    if wanted == 0 {
        return Ok(Items::new(alloc));
    }
    let mut present = state;
    for _ in 0..u32::MAX {
        let work = first_work(alloc, bank, &present, depth)?;
        let place = work.place;
        let act = work.act;
        match act {
            Act::Stay => {
                let found = solution(alloc, present)?;
                return Ok(found);
            }
            Act::Replace(pairs) => {
                present = with_pairs(alloc, &present, place, pairs)?;
            }
            Act::Bind(binding) => {
                present = with_binding(alloc, bank, &present, &binding)?;
            }
            Act::Refuse => return Ok(Items::new(alloc)),
            Act::Branch(bindings) => {
                let Some(left) = depth.checked_sub(1) else {
                    return Err(AllocError);
                };
                let found = search_all(alloc, bank, &present, bindings.as_slice(), left, wanted)?;
                return Ok(found);
            }
        }
    }
    Err(AllocError)
}

/// The first `wanted` solutions of a state with each of these bindings put in, one after the other.
#[cycle(search)]
fn search_all(
    alloc: Global,
    bank: &mut Bank,
    state: &State,
    bindings: &[Binding],
    depth: u8,
    wanted: usize,
) -> Result<Items<Sigma>, AllocError>
    requires state { IsStateOf bank.old state.now }
    requires bindings { AreBindingsOf bank.old bindings.now }
    requires typed { AreBindingsIn (map (type_at bank.old) state.now.vars) (map (binding_at bank.old) bindings.now) }
    ensures found { IfOk result (λ xs. (d : ℕ) → FindsAmong wanted (map (with_binding_of (state_at bank.old state.now d) depth) (map (binding_at bank.old) bindings.now)) (map (sigma_at bank.new) xs)) }
    ensures sigmas { IfOk result (AreSigmasOf bank.new (map type_of (map (tree_at bank.old) state.now.terms))) }
    ensures grows { Extends bank.old bank.new }
{
    bank.is_sound();
    let mut found = Items::new(alloc);
    for place in 0..bindings.len() {
        let next = with_binding(alloc, bank, state, &bindings[place])?;
        let more = search(alloc, bank, next, depth, wanted - found.len())?;
        found.append(more)?;
    }
    Ok(found)
}
