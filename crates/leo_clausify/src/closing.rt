//! Terms that are given for the variables of a clause, and the arranged form of a branch.

ghost use Rattle.std.specs.Prelude.{◌≡◌, ◌<◌, List, length, nat_eq, IfOk};
ghost use Rattle.leo_terms.specs.Contents.{Extends, IsTerm, type_at};
ghost use Rattle.leo_clause.specs.Arranging.{arranged as arranged_clause, place_in};
ghost use Rattle.leo_clause.specs.Choices.{Choice};
ghost use Rattle.leo_clause.specs.Trees.{clause_at};
ghost use Rattle.leo_clause.specs.Typed.{AreTypesOf};
ghost use Rattle.leo_clausify.specs.Branches.{IsBranch, IsExtended};
ghost use Rattle.leo_clausify.specs.Giving.{AreGivenBy, placed_tree, some_tree};

use crate::branch::Branch;
use crate::literals::truth;
use crate::moves::Move;
use indexmap::IndexSet;
use leo_clause::{Clause, arranged, distinct, order_of};
use leo_items::Items;
use leo_terms::{Bank, Op, TermId, TyId};
use std::alloc::{AllocError, Global};

/// A closed term of a type.
fn some_term(bank: &mut Bank, ty: TyId) -> Result<TermId, AllocError>
    requires { ty < length bank.old.types }
    ensures made { IfOk result (λ t. IsTerm bank.new t ty (some_tree (type_at bank.old ty))) }
    ensures grows { Extends bank.old bank.new }
{
    bank.is_sound();
    let t = truth(bank, true)?;
    let property = bank.make_lam(ty, t)?;
    let term = bank.make_logic(Op::Eps(ty), &[property])?;
    Ok(term)
}

/// A number's place in the order; past its end where it is not there.
fn place_of(order: &IndexSet<u64>, n: u64) -> usize
    ensures { result ≡ place_in order.now.keys n }
{
    match order.get_index_of(&n) {
        Some(place) => place,
        None => order.len(),
    }
}

/// What is given for a variable so that it gets its place in the order as its number; a closed term if it has none.
fn placed_term(
    bank: &mut Bank,
    order: &IndexSet<u64>,
    number: u64,
    ty: TyId,
) -> Result<TermId, AllocError>
    requires { ty < length bank.old.types }
    ensures made { IfOk result (λ t. IsTerm bank.new t ty (placed_tree order.now.keys number (type_at bank.old ty))) }
    ensures grows { Extends bank.old bank.new }
{
    bank.is_sound();
    if order.contains(&number) {
        let Ok(place) = u32::try_from(place_of(order, number)) else {
            return Err(AllocError);
        };
        let term = bank.make_var(place, ty)?;
        Ok(term)
    } else {
        let term = some_term(bank, ty)?;
        Ok(term)
    }
}

/// What is given for all variables.
fn placed_terms(
    alloc: Global,
    bank: &mut Bank,
    order: &IndexSet<u64>,
    vars: &[TyId],
) -> Result<Items<TermId>, AllocError>
    requires { AreTypesOf bank.old vars.now }
    ensures given { IfOk result (λ sigma. AreGivenBy (placed_tree order.now.keys) bank.old bank.new vars.now sigma (length vars.now)) }
    ensures grows { Extends bank.old bank.new }
{
    bank.is_sound();
    let mut sigma = Items::new(alloc);
    for number in 0..vars.len() {
        let term = placed_term(bank, order, number as u64, vars[number])?;
        sigma.push(term)?;
    }
    Ok(sigma)
}

/// The branch with its clause in arranged form.
pub(crate) fn arranged_branch(
    alloc: Global,
    bank: &mut Bank,
    branch: Branch,
) -> Result<Branch, AllocError>
    requires { IsBranch bank.old branch }
    ensures extended { IfOk result (λ r. (later : List Choice) → IsExtended bank.old bank.new later branch r (arranged_clause (clause_at bank.old branch.clause))) }
    ensures some { IfOk result (λ r. 0 < length r.steps) }
    ensures grows { Extends bank.old bank.new }
{
    bank.is_sound();
    let lits = distinct(alloc, branch.clause.lits.as_slice())?;
    let order = order_of(alloc, bank, lits.as_slice())?;
    let clause = arranged(alloc, bank, &branch.clause)?;
    let sigma = placed_terms(alloc, bank, &order, branch.clause.vars.as_slice())?;
    let vars = Items::from_slice(alloc, branch.clause.vars.as_slice())?;
    let branch = branch.after(alloc, Clause { vars, lits }, Move::Arrange)?;
    let branch = branch.after(alloc, clause, Move::Inst(sigma))?;
    Ok(branch)
}
