//! The arranged form of a clause: no literal stands twice, and variables are numbered as they come.

ghost use Rattle.std.specs.Prelude.{[], ◌≡◌, ◌<◌, List, length, slice_get, take, map, nat_eq, Some, IfOk, OnOk, OnErr};
ghost use Rattle.std.specs.List.{list_any};
ghost use Rattle.leo_terms.specs.Contents.{AreTerms, Extends, IsArgumentBelow, argument, tree_at};
ghost use Rattle.leo_terms.specs.Tree.{IsGiven};
ghost use Rattle.leo_clause.specs.Trees.{literal_at, clause_at};
ghost use Rattle.leo_clause.specs.Typed.{AreTypesOf, AreLiteralsOf, IsTypedIn};
ghost use Rattle.leo_clause.specs.Sameness.{same_numbers};
ghost use Rattle.leo_clause.specs.Arranging.{arranged as arranged_clause, firsts, occurring, occurring_in, place_in};
ghost use Rattle.leo_clause.specs.Renaming.{substituted_literal, AreBelow, AreGiven, AreMet, AreRenamed, IsRenaming};

use crate::clause::{Clause, Lit};
use indexmap::IndexSet;
use leo_items::Items;
use leo_terms::{Bank, DEPTH, TermId, TyId, View};
use std::alloc::{AllocError, Global};

impl Lit {
    /// Whether the other literal is this one, as it is or turned.
    pub(crate) fn is_same(self, other: Lit) -> bool
        ensures { result ≡ same_numbers self other }
    {
        let as_it_is = self.left == other.left && self.right == other.right;
        let turned = self.left == other.right && self.right == other.left;
        self.pos == other.pos && (as_it_is || turned)
    }
}

/// Whether a literal stands among others, as it is or turned.
fn stands_among(lit: Lit, others: &[Lit]) -> bool
    ensures { result ≡ list_any (same_numbers lit) others.now }
{
    others.iter().any(|other| lit.is_same(*other))
}

/// The literals, of which those that stand already, as they are or turned, are left out.
pub fn distinct(alloc: Global, lits: &[Lit]) -> Result<Items<Lit>, AllocError>
    ensures { IfOk result (λ kept. kept ≡ firsts same_numbers [] lits.now) }
{
    let mut kept = Items::new(alloc);
    for lit in lits {
        if !stands_among(*lit, kept.as_slice()) {
            kept.push(*lit)?;
        }
    }
    Ok(kept)
}

/// Appends the variables of a term that were not met yet, in the order in which they come. `visited` are terms whose
/// variables were met. Goes at most `room` levels down.
#[cycle(meet)]
fn meet(
    bank: &Bank,
    t: TermId,
    order: &mut IndexSet<u64>,
    visited: &mut IndexSet<TermId>,
    room: u32,
) -> Result<(), AllocError>
    requires within { t < length bank.now.terms }
    requires met { AreMet bank.now visited.old.keys order.old.keys }
    ensures order { OnOk result (order.new.keys ≡ firsts nat_eq order.old.keys (occurring (tree_at bank.now t))) }
    ensures met { OnOk result (AreMet bank.now visited.new.keys order.new.keys) }
{
    let Some(room) = room.checked_sub(1) else {
        return Err(AllocError);
    };
    if visited.contains(&t) {
        return Ok(());
    }
    meet_parts(bank, t, order, visited, room)?;
    visited.insert(t)?;
    Ok(())
}

/// The same, by the parts of the term.
#[cycle(meet)]
fn meet_parts(
    bank: &Bank,
    t: TermId,
    order: &mut IndexSet<u64>,
    visited: &mut IndexSet<TermId>,
    room: u32,
) -> Result<(), AllocError>
    requires within { t < length bank.now.terms }
    requires met { AreMet bank.now visited.old.keys order.old.keys }
    ensures order { OnOk result (order.new.keys ≡ firsts nat_eq order.old.keys (occurring (tree_at bank.now t))) }
    ensures met { OnOk result (AreMet bank.now visited.new.keys order.new.keys) }
{
    match bank.view(t) {
        View::Var(number) => {
            order.insert(u64::from(number))?;
            Ok(())
        }
        View::Bound(_) => Ok(()),
        View::Sym(_) => Ok(()),
        View::App(f, a) => {
            meet(bank, f, order, visited, room)?;
            meet(bank, a, order, visited, room)?;
            Ok(())
        }
        View::Lam(_, body) => {
            meet(bank, body, order, visited, room)?;
            Ok(())
        }
        View::Logic(_, x, y) => {
            meet_argument(bank, x, order, visited, room)?;
            meet_argument(bank, y, order, visited, room)?;
            Ok(())
        }
    }
}

#[cycle(meet)]
fn meet_argument(
    bank: &Bank,
    x: Option<TermId>,
    order: &mut IndexSet<u64>,
    visited: &mut IndexSet<TermId>,
    room: u32,
) -> Result<(), AllocError>
    requires within { IsArgumentBelow (length bank.now.terms) x }
    requires met { AreMet bank.now visited.old.keys order.old.keys }
    ensures order { OnOk result (order.new.keys ≡ firsts nat_eq order.old.keys (occurring (argument (tree_at bank.now) x))) }
    ensures met { OnOk result (AreMet bank.now visited.new.keys order.new.keys) }
{
    match x {
        Some(t) => {
            meet(bank, t, order, visited, room)?;
            Ok(())
        }
        None => Ok(()),
    }
}

/// The variables of a term, in the order in which they come.
pub fn order_in(alloc: Global, bank: &Bank, t: TermId) -> Result<IndexSet<u64>, AllocError>
    requires { t < length bank.now.terms }
    ensures { IfOk result (λ order. order.keys ≡ firsts nat_eq [] (occurring (tree_at bank.now t))) }
{
    let mut order = IndexSet::new(alloc);
    let mut visited = IndexSet::new(alloc);
    meet(bank, t, &mut order, &mut visited, DEPTH)?;
    Ok(order)
}

/// The variables of literals, in the order in which they come, the left side of each before the right.
pub fn order_of(alloc: Global, bank: &Bank, lits: &[Lit]) -> Result<IndexSet<u64>, AllocError>
    requires { AreLiteralsOf bank.now lits.now }
    ensures { IfOk result (λ order. order.keys ≡ firsts nat_eq [] (occurring_in (map (literal_at bank.now) lits.now))) }
{
    let mut order = IndexSet::new(alloc);
    let mut visited = IndexSet::new(alloc);
    for lit in lits {
        meet(bank, lit.left, &mut order, &mut visited, DEPTH)?;
        meet(bank, lit.right, &mut order, &mut visited, DEPTH)?;
    }
    Ok(order)
}

/// A number's place in the order; past its end where it is not there.
fn place_of(order: &IndexSet<u64>, n: u64) -> usize
    ensures { result ≡ place_in order.now.keys n }
{
    match order.get_index_of(&n) {
        Some(place) => place,
        None => order.len(),
    }
}

/// The number at a place.
fn number_at(order: &IndexSet<u64>, place: usize) -> u64
    requires { place < length order.now.keys }
    ensures { slice_get order.now.keys place ≡ Some result }
{
    match order.get_index(place) {
        Some(number) => *number,
        None => unreachable!(),
    }
}

/// A variable's type.
fn type_at(vars: &[TyId], number: u64) -> TyId
    requires { number < length vars.now }
    ensures { slice_get vars.now number ≡ Some result }
{
    vars[number as usize]
}

/// The types of the variables, in their order.
fn types_in(alloc: Global, vars: &[TyId], order: &IndexSet<u64>) -> Result<Items<TyId>, AllocError>
    requires { AreBelow (length vars.now) order.now.keys }
    ensures { IfOk result (λ types. map Some types ≡ map (slice_get vars.now) order.now.keys) }
{
    let mut types = Items::new(alloc);
    for place in 0..order.len() {
        let number = number_at(order, place);
        types.push(type_at(vars, number))?;
    }
    Ok(types)
}

/// A variable for each of the variables, with its place in the order as its number.
fn renaming(
    alloc: Global,
    bank: &mut Bank,
    vars: &[TyId],
    order: &IndexSet<u64>,
) -> Result<Vec<TermId>, AllocError>
    requires { AreTypesOf bank.old vars.now }
    ensures renaming { IfOk result (λ sigma. IsRenaming bank.old bank.new order.now.keys vars.now sigma.items (length vars.now)) }
    ensures grows { Extends bank.old bank.new }
{
    bank.is_sound();
    let mut sigma = Vec::new(alloc);
    for number in 0..vars.len() {
        let Ok(place) = u32::try_from(place_of(order, number as u64)) else {
            return Err(AllocError);
        };
        let term = bank.make_var(place, vars[number])?;
        sigma.push(term)?;
    }
    Ok(sigma)
}

/// A literal with terms put in for its variables.
fn renamed_literal(bank: &mut Bank, lit: Lit, sigma: &[TermId]) -> Result<Lit, AllocError>
    requires left { lit.left < length bank.old.terms }
    requires right { lit.right < length bank.old.terms }
    requires terms { AreTerms bank.old sigma.now }
    requires left_given { IsGiven (map (tree_at bank.old) sigma.now) (tree_at bank.old lit.left) }
    requires right_given { IsGiven (map (tree_at bank.old) sigma.now) (tree_at bank.old lit.right) }
    ensures value { IfOk result (λ l. literal_at bank.new l ≡ substituted_literal (map (tree_at bank.old) sigma.now) (literal_at bank.old lit)) }
    ensures left_within { IfOk result (λ l. l.left < length bank.new.terms) }
    ensures right_within { IfOk result (λ l. l.right < length bank.new.terms) }
    ensures grows { Extends bank.old bank.new }
{
    let left = bank.subst(lit.left, sigma)?;
    let right = bank.subst(lit.right, sigma)?;
    Ok(Lit {
        pos: lit.pos,
        left,
        right,
    })
}

/// Literals with terms put in for their variables.
fn renamed(
    alloc: Global,
    bank: &mut Bank,
    lits: &[Lit],
    sigma: &[TermId],
) -> Result<Items<Lit>, AllocError>
    requires literals { AreLiteralsOf bank.old lits.now }
    requires terms { AreTerms bank.old sigma.now }
    requires given { AreGiven (map (tree_at bank.old) sigma.now) (map (literal_at bank.old) lits.now) }
    ensures renamed { IfOk result (λ ls. AreRenamed bank.old bank.new sigma.now lits.now ls (length lits.now)) }
    ensures grows { Extends bank.old bank.new }
{
    bank.is_sound();
    let mut renamed = Items::new(alloc);
    for lit in lits {
        let lit = renamed_literal(bank, *lit, sigma)?;
        renamed.push(lit)?;
    }
    Ok(renamed)
}

/// The arranged form of a clause: of literals that are equal or turned only the first stays, the variables are numbered
/// from left to right as they come, the left side of a literal before the right, and those that do not occur are dropped.
pub fn arranged(alloc: Global, bank: &mut Bank, c: &Clause) -> Result<Clause, AllocError>
    requires { IsTypedIn bank.old c.now }
    ensures value { IfOk result (λ a. clause_at bank.new a ≡ arranged_clause (clause_at bank.old c.now)) }
    ensures typed { IfOk result (IsTypedIn bank.new) }
    ensures grows { Extends bank.old bank.new }
{
    bank.is_sound();
    let lits = distinct(alloc, c.lits.as_slice())?;
    let order = order_of(alloc, bank, lits.as_slice())?;
    let vars = types_in(alloc, c.vars.as_slice(), &order)?;
    let sigma = renaming(alloc, bank, c.vars.as_slice(), &order)?;
    let lits = renamed(alloc, bank, lits.as_slice(), &sigma)?;
    Ok(Clause { vars, lits })
}
