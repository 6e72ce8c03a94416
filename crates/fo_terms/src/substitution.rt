//! Substitutions.

ghost use Rattle.std.specs.Prelude.{◌≡◌};

use crate::term::FoTerm;
use std::marker::Model;

/// Variables with the terms that replace them. A contract sees the list of the pairs.
#[derive(Drop)]
pub struct FoPairs {
    pub(crate) pairs: Vec<(u32, FoTerm)>,
}

impl Model for FoPairs {
    ghost use Rattle.std.specs.Prelude.{List, ℕ};
    ghost use Rattle.fo_terms.specs.Terms.{Term};

    ghost Value = { List (ℕ × Term) };

    ghost use Rattle.std.specs.Coded.{codes};
    ghost use Rattle.fo_terms.specs.contracts.term.FoTerm as term;

    ghost coded = { Prim.hlevel (codes, term.the_row.coded) };

    ghost view = { λ s. s.pairs.items };
}

impl FoPairs {
    /// The pairs as a slice.
    pub fn as_slice(&self) -> &[(u32, FoTerm)]
        ensures { result.now ≡ self.now }
    {
        self.pairs.as_slice()
    }
}

/// A substitution: each variable that is replaced, once, with its term. All are replaced at once.
#[derive(Drop)]
pub struct FoSubst {
    pub pairs: FoPairs,
}
