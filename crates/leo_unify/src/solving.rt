//! The solutions of pairs of terms.

ghost use Rattle.std.specs.Prelude.{◌≡◌, length, map, IfOk};
ghost use Rattle.leo_terms.specs.Contents.{AreTerms, Extends, tree_at, type_at};
ghost use Rattle.leo_clause.specs.Typed.{AreTypesOf};
ghost use Rattle.leo_unify.specs.Search.{AreSolutions, long_variables as long_variables_of};
ghost use Rattle.leo_unify.specs.Solutions.{sigma_at, AreSigmasOf};
ghost use Rattle.leo_unify.specs.Given.{as_pair, pair_of, AreTypedPairs};

use crate::pairs::Pair;
use crate::search::search;
use crate::sigma::Sigma;
use crate::state::State;
use leo_items::Items;
use leo_terms::{Bank, TermId, TyId};
use std::alloc::{AllocError, Global};

/// How many solutions there are at most.
const MOST: usize = 16;

/// Each variable in eta-long form.
fn long_variables(
    alloc: Global,
    bank: &mut Bank,
    vars: &[TyId],
) -> Result<Items<TermId>, AllocError>
    requires { AreTypesOf bank.old vars.now }
    ensures value { IfOk result (λ ts. map (tree_at bank.new) ts ≡ long_variables_of 0 (map (type_at bank.old) vars.now)) }
    ensures terms { IfOk result (λ ts. AreTerms bank.new ts) }
    ensures grows { Extends bank.old bank.new }
{
    bank.is_sound();
    let mut terms = Items::new(alloc);
    for place in 0..vars.len() {
        let Ok(number) = u32::try_from(place) else {
            return Err(AllocError);
        };
        let variable = bank.make_var(number, vars[place])?;
        let long = bank.normal(variable)?;
        terms.push(long)?;
    }
    Ok(terms)
}

/// The pairs as they are worked.
fn as_pairs(alloc: Global, pairs: &[(TermId, TermId)]) -> Result<Items<Pair>, AllocError>
    ensures { IfOk result (λ ps. ps ≡ map as_pair pairs.now) }
{
    let mut out = Items::new(alloc);
    for place in 0..pairs.len() {
        let (left, right) = pairs[place];
        out.push(Pair { left, right })?;
    }
    Ok(out)
}

/// The substitutions that solve pairs of terms over variables of these types, in the order in which they are found, where at
/// most `depth` guesses follow from one another; the first 16 of them, and all where there are fewer. Under a solution the
/// sides of a pair are equal, or begin both with a variable, or are both formulas that begin with no variable. The sides are
/// meant to be in normal form. Terms that are too large or too deep, and more than 2^32 steps of one branch, find no memory.
pub fn solve(
    alloc: Global,
    bank: &mut Bank,
    vars: &[TyId],
    pairs: &[(TermId, TermId)],
    depth: u8,
) -> Result<Items<Sigma>, AllocError>
    requires vars { AreTypesOf bank.old vars.now }
    requires pairs { AreTypedPairs bank.old (map (type_at bank.old) vars.now) pairs.now }
    ensures found { IfOk result (λ xs. AreSolutions (map (type_at bank.old) vars.now) (map (pair_of bank.old) pairs.now) depth (map (sigma_at bank.new) xs)) }
    ensures sigmas { IfOk result (AreSigmasOf bank.new (map (type_at bank.old) vars.now)) }
    ensures grows { Extends bank.old bank.new }
{
    bank.is_sound();
    let pairs = as_pairs(alloc, pairs)?;
    let kinds = Items::from_slice(alloc, vars)?;
    let terms = long_variables(alloc, bank, vars)?;
    let state = State {
        vars: kinds,
        terms,
        pairs,
    };
    let found = search(alloc, bank, state, depth, MOST)?;
    Ok(found)
}
