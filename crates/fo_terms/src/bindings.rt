//! Bindings that share: each variable is bound once, to the place of a term that is not replaced
//! in turn.

ghost use Rattle.std.specs.Prelude.{◌≡◌, ◌+◌, ◌<◌, ◌≤◌, ◌++◌, ◌∷◌, [], length, slice_get, IfOk, OnOk, Some, suc, MatchOption};
ghost use Rattle.fo_terms.specs.Substitutions.{Substitution, apply};
ghost use Rattle.fo_terms.specs.Places.{term_at, ArePlaces};

use crate::places::Places;
use crate::term::FoNode;
use std::alloc::{AllocError, Global};
use std::collections::BTreeMap;

/// A variable with the place of its term.
#[derive(Clone, Copy, Debug)]
pub(crate) struct Binding {
    pub(crate) variable: u32,
    pub(crate) place: usize,
}

/// So many terms from one place on are to be those from another on.
#[derive(Clone, Copy, Debug)]
pub(crate) struct Equation {
    pub(crate) left: usize,
    pub(crate) right: usize,
    pub(crate) count: u32,
}

/// The bindings in the order in which they were made, and the number of each by its variable.
#[derive(Drop)]
pub(crate) struct Bindings {
    pub(crate) made: Vec<Binding>,
    pub(crate) numbers: BTreeMap<u32, usize>,
}

impl Bindings {
    ghost use Rattle.fo_terms.specs.Bindings.{IsFree, Binds, IsIndexed, AreMade, Obeys, IsResolved, IsBoundAt};

    pub(crate) fn new(alloc: Global) -> Bindings
        ensures none { result.made.items ≡ [] }
        ensures indexed { IsIndexed result.made.items result.numbers }
    {
        Bindings {
            made: Vec::new(alloc),
            numbers: BTreeMap::new(alloc),
        }
    }

    /// The number of a variable's binding.
    fn number(&self, variable: u32) -> Option<usize>
        requires { IsIndexed self.now.made.items self.now.numbers }
        ensures { MatchOption result (IsFree self.now.made.items variable) (λ k. Binds self.now.made.items k variable) }
    {
        self.numbers.get(&variable).copied()
    }

    /// Binds a variable that has no binding.
    pub(crate) fn bind(&mut self, variable: u32, place: usize) -> Result<(), AllocError>
        requires indexed { IsIndexed self.old.made.items self.old.numbers }
        requires free { IsFree self.old.made.items variable }
        ensures made { OnOk result (self.new.made.items ≡ self.old.made.items ++ record { variable = variable; place = place } ∷ []) }
        ensures indexed { OnOk result (IsIndexed self.new.made.items self.new.numbers) }
    {
        self.numbers.insert(variable, self.made.len())?;
        self.made.push(Binding { variable, place })?;
        Ok(())
    }

    pub(crate) fn binding(&self, number: usize) -> Binding
        requires { number < length self.now.made.items }
        ensures { slice_get self.now.made.items number ≡ Some result }
    {
        self.made[number]
    }

    /// The number of the binding of the variable at a place, if a bound one stands there.
    pub(crate) fn number_at(&self, places: &Places, at: usize) -> Option<usize>
        requires indexed { IsIndexed self.now.made.items self.now.numbers }
        requires inside { at < length places.now.nodes.items }
        ensures { MatchOption result (IsResolved places.now.nodes.items self.now.made.items at) (λ k. IsBoundAt places.now.nodes.items self.now.made.items k at) }
    {
        match places.node(at) {
            FoNode::Var(variable) => self.number(variable),
            FoNode::Sym(_, _) => None,
        }
    }

    /// The place that a place leads to by the bindings: a symbol, or a free variable, stands there.
    pub(crate) fn resolve(&self, places: &Places, at: usize) -> usize
        requires indexed { IsIndexed self.now.made.items self.now.numbers }
        requires bindings { AreMade places.now.nodes.items self.now.made.items }
        requires inside { at < length places.now.nodes.items }
        ensures inside { result < length places.now.nodes.items }
        ensures resolved { IsResolved places.now.nodes.items self.now.made.items result }
        ensures same { (r : Substitution) → Obeys places.now.nodes.items self.now.made.items r → apply r (term_at places.now.nodes.items result) ≡ apply r (term_at places.now.nodes.items at) }
    {
        let mut here = at;
        let mut passed = 0;
        while let Some(number) = self.number_at(places, here) {
            here = self.binding(number).place;
            passed = number + 1;
        }
        here
    }
}
