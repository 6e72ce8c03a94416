//! Facts that a bank keeps with each of its terms, so that they are looked up and not computed.

ghost use Rattle.std.specs.Prelude.{◌≡◌, ◌↔◌, ◌+◌, ◌-◌, ◌^◌, ◌<◌, ℕ, IsTrue, length, max, min};
ghost use Rattle.leo_q0.specs.Terms.{SimpleType};
ghost use Rattle.leo_terms.specs.Contents.{IsArgumentBelow, IsBank, IsSound, argument, tree_at, view_tree};
ghost use Rattle.leo_terms.specs.Facts.{loose_range, tree_weight, variable_range};
ghost use Rattle.leo_terms.specs.KeptFacts.{AreFactsOf};
ghost use Rattle.leo_terms.specs.Marks.{IsPartOf};

use crate::bank::Bank;
use crate::node::{TermId, View};

/// What is kept of a term.
#[derive(Clone, Copy, Debug, PartialEq, Eq)]
pub(crate) struct TermFacts {
    /// The weight, at most `u64::MAX`.
    pub weight: u64,
    /// How many lambdas bind all its indices.
    pub loose: u64,
    /// One more than the greatest number of a variable.
    pub variables: u64,
}

impl TermFacts {
    /// The facts of nothing.
    fn none() -> Self
        ensures { result ≡ record { weight = 0; loose = 0; variables = 0 } }
    {
        TermFacts {
            weight: 0,
            loose: 0,
            variables: 0,
        }
    }

    /// The facts of what has two parts.
    fn joined(self, other: TermFacts) -> Self
        ensures { result ≡ record { weight = min (self.weight + other.weight) (2 ^ 64 - 1); loose = max self.loose other.loose; variables = max self.variables other.variables } }
    {
        TermFacts {
            weight: self.weight.saturating_add(other.weight),
            loose: self.loose.max(other.loose),
            variables: self.variables.max(other.variables),
        }
    }

    /// The same with a weight that is larger by one.
    fn counted(self) -> Self
        ensures { result ≡ record { weight = min (self.weight + 1) (2 ^ 64 - 1); loose = self.loose; variables = self.variables } }
    {
        TermFacts {
            weight: self.weight.saturating_add(1),
            loose: self.loose,
            variables: self.variables,
        }
    }

    /// The same under a lambda.
    fn bound_by_lambda(self) -> Self
        ensures { result ≡ record { weight = self.weight; loose = self.loose - 1; variables = self.variables } }
    {
        TermFacts {
            weight: self.weight,
            loose: self.loose.saturating_sub(1),
            variables: self.variables,
        }
    }
}

impl Bank {
    /// How many variables, bound variables, symbols, logical constants and lambdas a term is made of; `u64::MAX` where
    /// there are more. Takes no time, since it is kept.
    pub fn weight(&self, t: TermId) -> u64
        requires { t < length self.now.terms }
        ensures weight { result ≡ min (tree_weight (tree_at self.now t)) (2 ^ 64 - 1) }
        ensures sound { IsBank self.now }
    {
        self.facts_at(t).weight
    }

    /// How many lambdas must stand around a term so that none of its indices is loose.
    pub fn loose_range(&self, t: TermId) -> u64
        requires { t < length self.now.terms }
        ensures range { result ≡ loose_range (tree_at self.now t) }
        ensures sound { IsBank self.now }
    {
        self.facts_at(t).loose
    }

    /// Whether no index of a term is loose.
    pub fn is_locally_closed(&self, t: TermId) -> bool
        requires { t < length self.now.terms }
        ensures closed { IsTrue result ↔ (loose_range (tree_at self.now t) ≡ 0) }
        ensures sound { IsBank self.now }
    {
        self.loose_range(t) == 0
    }

    /// One more than the greatest number of a variable of a term, and 0 where it has none.
    pub fn variable_range(&self, t: TermId) -> u64
        requires { t < length self.now.terms }
        ensures range { result ≡ variable_range (tree_at self.now t) }
        ensures sound { IsBank self.now }
    {
        self.facts_at(t).variables
    }

    /// Whether a term has no variables.
    pub fn is_ground(&self, t: TermId) -> bool
        requires { t < length self.now.terms }
        ensures no_variables { IsTrue result ↔ (variable_range (tree_at self.now t) ≡ 0) }
        ensures sound { IsBank self.now }
    {
        self.variable_range(t) == 0
    }

    pub(crate) fn facts_at(&self, t: TermId) -> TermFacts
        requires { t < length self.now.terms }
        ensures facts { AreFactsOf (tree_at self.now t) result }
        ensures sound { IsSound self.now }
    {
        match self.facts.get(t.index()) {
            Some(facts) => *facts,
            None => unreachable!(),
        }
    }

    fn argument_facts(&self, x: Option<TermId>) -> TermFacts
        requires { IsArgumentBelow (length self.now.terms) x }
        ensures facts { AreFactsOf (argument (tree_at self.now) x) result }
    {
        match x {
            Some(t) => self.facts_at(t),
            None => TermFacts::none(),
        }
    }

    /// The facts of a term with this view, from those of its parts.
    pub(crate) fn facts_of(&self, view: &View) -> TermFacts
        requires { (i : ℕ) → IsPartOf i view.now → i < length self.now.terms }
        ensures { (a : SimpleType) → AreFactsOf (view_tree self.now (tree_at self.now) view.now a) result }
    {
        let none = TermFacts::none();
        match view {
            View::Var(number) => TermFacts {
                weight: 1,
                loose: 0,
                variables: u64::from(*number) + 1,
            },
            View::Bound(index) => TermFacts {
                weight: 1,
                loose: u64::from(*index) + 1,
                variables: 0,
            },
            View::Sym(_) => none.counted(),
            View::App(f, a) => self.facts_at(*f).joined(self.facts_at(*a)),
            View::Lam(_, body) => self.facts_at(*body).bound_by_lambda().counted(),
            View::Logic(_, x, y) => {
                let x = self.argument_facts(*x);
                let y = self.argument_facts(*y);
                x.joined(y).counted()
            }
        }
    }
}
