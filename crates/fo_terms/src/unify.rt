//! Unification.

ghost use Rattle.std.specs.Prelude.{◌≡◌, ◌+◌, ◌*◌, ◌<◌, ◌≤◌, length, slice_get, IfOk, OnOk, OnErr, Some, All, MatchOption, IfSome, IfNone, map, [], ◌∷◌, ℕ};
ghost use Rattle.fo_terms.specs.Terms.{Term};
ghost use Rattle.fo_terms.specs.Substitutions.{Substitution, apply, image, IsUnifier, IsMostGeneralUnifier, IsIdempotent, IsOnce};
ghost use Rattle.fo_terms.specs.Places.{term_at, terms_at, ArePlaces};
ghost use Rattle.fo_terms.specs.Bindings.{IsIndexed, AreMade, AreBindings, IsLoose, IsSolution, pair_of};
ghost use Rattle.fo_terms.specs.Classes.{IsForest};
ghost use Rattle.fo_terms.specs.Solving.{IsState, IsWithin};
ghost use Rattle.fo_terms.specs.Rounds.{IsRound};

use crate::arrange::arrange;
use crate::bindings::{Bindings, Equation};
use crate::classes::Classes;
use crate::places::Places;
use crate::solve::{Step, settle};
use crate::substitution::{FoPairs, FoSubst};
use crate::term::FoTerm;
use crate::walk::applied_at;
use std::alloc::{AllocError, Global};

/// What one round comes to: all equations hold, or none can, or one more variable is bound, or two
/// classes are one.
#[derive(Clone, Copy, Debug)]
enum Round {
    Solved,
    Refused,
    Further,
}

/// Takes equations apart, and makes the binding or the class that one asks for.
fn next_round(
    places: &Places,
    bindings: &mut Bindings,
    classes: &mut Classes,
    work: &mut Vec<Equation>,
    right: usize,
) -> Result<Round, AllocError>
    requires indexed { IsIndexed bindings.old.made.items bindings.old.numbers }
    requires bindings { AreMade places.now.nodes.items bindings.old.made.items }
    requires places { ArePlaces places.now.nodes.items places.now.ends.items }
    requires forest { IsForest classes.old.parents.items }
    requires as_long { length classes.old.parents.items ≡ length places.now.nodes.items }
    requires within { All (IsWithin places.now.nodes.items) work.old.items }
    requires state { IsState places.now.nodes.items bindings.old.made.items classes.old.parents.items (term_at places.now.nodes.items 0) (term_at places.now.nodes.items right) work.old.items }
    ensures indexed { OnOk result (IsIndexed bindings.new.made.items bindings.new.numbers) }
    ensures round { IfOk result (λ round. IsRound places.now.nodes.items (term_at places.now.nodes.items 0) (term_at places.now.nodes.items right) bindings.old.made.items bindings.new.made.items classes.old.parents.items classes.new.parents.items work.new.items round) }
{
    match settle(places, bindings, classes, work)? {
        Step::Split => Ok(Round::Solved),
        Step::Clash => Ok(Round::Refused),
        Step::Bind(binding) => {
            bindings.bind(binding.variable, binding.place)?;
            Ok(Round::Further)
        }
        Step::Open(opening) => {
            work.push(opening.arguments)?;
            classes.join(opening.left_root, opening.right_root);
            Ok(Round::Further)
        }
    }
}

/// The bindings that the terms at the first place and at another ask for, if they have no different
/// symbols.
fn solve(alloc: Global, places: &Places, right: usize) -> Result<Option<Bindings>, AllocError>
    requires places { ArePlaces places.now.nodes.items places.now.ends.items }
    requires left { 0 < length places.now.nodes.items }
    requires right { right < length places.now.nodes.items }
    ensures indexed { IfOk result (λ o. IfSome o (λ b. IsIndexed b.made.items b.numbers)) }
    ensures solved { IfOk result (λ o. MatchOption o ((r : Substitution) → apply r (term_at places.now.nodes.items 0) ≡ apply r (term_at places.now.nodes.items right) → ⊥) (λ b. IsLoose places.now.nodes.items b.made.items (term_at places.now.nodes.items 0) (term_at places.now.nodes.items right))) }
{
    let mut bindings = Bindings::new(alloc);
    let mut classes = Classes::new(alloc, places.nodes.len())?;
    let mut work = Vec::new(alloc);
    work.push(Equation {
        left: 0,
        right,
        count: 1,
    })?;
    loop {
        match next_round(places, &mut bindings, &mut classes, &mut work, right)? {
            Round::Solved => return Ok(Some(bindings)),
            Round::Refused => return Ok(None),
            Round::Further => {}
        }
    }
}

/// The bindings that solve the terms at the first place and at another, if there are such.
fn solution(alloc: Global, places: &Places, right: usize) -> Result<Option<Bindings>, AllocError>
    requires places { ArePlaces places.now.nodes.items places.now.ends.items }
    requires left { 0 < length places.now.nodes.items }
    requires right { right < length places.now.nodes.items }
    ensures indexed { IfOk result (λ o. IfSome o (λ b. IsIndexed b.made.items b.numbers)) }
    ensures solved { IfOk result (λ o. MatchOption o ((r : Substitution) → apply r (term_at places.now.nodes.items 0) ≡ apply r (term_at places.now.nodes.items right) → ⊥) (λ b. IsSolution places.now.nodes.items b.made.items (term_at places.now.nodes.items 0) (term_at places.now.nodes.items right))) }
{
    match solve(alloc, places, right)? {
        None => Ok(None),
        Some(bindings) => {
            let found = arrange(alloc, places, &bindings)?;
            Ok(found)
        }
    }
}

/// Each bound variable with what the bindings make of it.
fn pairs_of(alloc: Global, places: &Places, bindings: &Bindings) -> Result<FoPairs, AllocError>
    requires indexed { IsIndexed bindings.now.made.items bindings.now.numbers }
    requires bindings { AreBindings places.now.nodes.items bindings.now.made.items }
    requires places { ArePlaces places.now.nodes.items places.now.ends.items }
    ensures { IfOk result (λ pairs. pairs ≡ map (pair_of places.now.nodes.items bindings.now.made.items) bindings.now.made.items) }
{
    let mut pairs = Vec::new(alloc);
    for binding in &bindings.made {
        let term = applied_at(alloc, places, bindings, binding.place)?;
        pairs.push((binding.variable, term))?;
    }
    Ok(FoPairs { pairs })
}

/// A most general unifier of two terms, which has no further effect where it is applied again; None
/// exactly where no substitution makes the terms equal. The only error is want of memory.
pub fn unify(alloc: Global, first: &FoTerm, second: &FoTerm) -> Result<Option<FoSubst>, AllocError>
    ensures most_general { IfOk result (λ o. IfSome o (λ s. IsMostGeneralUnifier (image s.pairs) first.now second.now)) }
    ensures idempotent { IfOk result (λ o. IfSome o (λ s. IsIdempotent (image s.pairs))) }
    ensures once { IfOk result (λ o. IfSome o (λ s. IsOnce s.pairs)) }
    ensures refused { IfOk result (λ o. IfNone o ((r : Substitution) → IsUnifier r first.now second.now → ⊥)) }
{
    let places = Places::of(alloc, first, second)?;
    let right = first.nodes().len();
    match solution(alloc, &places, right)? {
        None => Ok(None),
        Some(bindings) => {
            let pairs = pairs_of(alloc, &places, &bindings)?;
            Ok(Some(FoSubst { pairs }))
        }
    }
}
