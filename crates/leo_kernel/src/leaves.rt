//! Walks over the leaves of a term, each shared part once.

ghost use Rattle.std.specs.Prelude.{◌≡◌, ◌<◌, List, length, map, IfOk, OnOk};
ghost use Rattle.leo_terms.specs.Contents.{IsArgumentBelow, argument, tree_at, type_at};
ghost use Rattle.leo_clause.specs.Typed.{AreTypesOf};
ghost use Rattle.leo_kernel.specs.Leaves.{leaves_pass, variable_passes, index_passes, symbol_passes};
ghost use Rattle.leo_kernel.specs.Visits.{HavePassed};

use indexmap::IndexSet;
use leo_terms::{Bank, SymId, TermId, TyId, View};
use std::alloc::AllocError;

/// What each leaf of a term must be.
#[derive(Clone, Copy, Debug, PartialEq, Eq)]
pub(crate) enum LeafTest {
    /// A variable of these, and no index is loose.
    Over,
    /// A variable of these.
    Declared,
    /// Not this symbol.
    Lacks(SymId),
}

/// A term that was visited under so many lambdas.
#[derive(Clone, Copy, Debug, PartialEq, Eq, Hash)]
pub(crate) struct Visit {
    pub term: TermId,
    pub depth: u32,
}

/// Whether a variable is one of these.
fn is_declared(bank: &Bank, vars: &[TyId], number: u32, ty: TyId) -> bool
    requires vars { AreTypesOf bank.now vars.now }
    requires ty { ty < length bank.now.types }
    ensures { result ≡ variable_passes (LeafTest.Over) (map (type_at bank.now) vars.now) number (type_at bank.now ty) }
{
    bank.is_sound();
    let place = number as usize;
    if place < vars.len() {
        vars[place] == ty
    } else {
        false
    }
}

fn variable_is_right(bank: &Bank, test: &LeafTest, vars: &[TyId], number: u32, ty: TyId) -> bool
    requires vars { AreTypesOf bank.now vars.now }
    requires ty { ty < length bank.now.types }
    ensures { result ≡ variable_passes test.now (map (type_at bank.now) vars.now) number (type_at bank.now ty) }
{
    match test {
        LeafTest::Over => is_declared(bank, vars, number, ty),
        LeafTest::Declared => is_declared(bank, vars, number, ty),
        LeafTest::Lacks(_) => true,
    }
}

fn index_is_right(test: &LeafTest, depth: u32, index: u32) -> bool
    ensures { result ≡ index_passes test.now depth index }
{
    match test {
        LeafTest::Over => index < depth,
        LeafTest::Declared => true,
        LeafTest::Lacks(_) => true,
    }
}

fn symbol_is_right(test: &LeafTest, symbol: SymId) -> bool
    ensures { result ≡ symbol_passes test.now symbol }
{
    match test {
        LeafTest::Over => true,
        LeafTest::Declared => true,
        LeafTest::Lacks(s) => symbol != *s,
    }
}

/// Whether each leaf of the term under `depth` lambdas passes. `visited` are terms that passed. Goes at most `room`
/// levels down.
#[cycle(walk)]
pub(crate) fn walk(
    bank: &Bank,
    test: &LeafTest,
    vars: &[TyId],
    t: TermId,
    depth: u32,
    visited: &mut IndexSet<Visit>,
    room: u32,
) -> Result<bool, AllocError>
    requires within { t < length bank.now.terms }
    requires vars { AreTypesOf bank.now vars.now }
    requires visited { HavePassed bank.now test.now vars.now visited.old.keys }
    ensures value { IfOk result (λ b. b ≡ leaves_pass test.now (map (type_at bank.now) vars.now) depth (tree_at bank.now t)) }
    ensures visited { OnOk result (HavePassed bank.now test.now vars.now visited.new.keys) }
{
    let Some(room) = room.checked_sub(1) else {
        return Err(AllocError);
    };
    let visit = Visit { term: t, depth };
    if visited.contains(&visit) {
        return Ok(true);
    }
    let passes = walk_parts(bank, test, vars, t, depth, visited, room)?;
    if !passes {
        return Ok(false);
    }
    visited.insert(visit)?;
    Ok(true)
}

/// The same, by the parts of the term.
#[cycle(walk)]
fn walk_parts(
    bank: &Bank,
    test: &LeafTest,
    vars: &[TyId],
    t: TermId,
    depth: u32,
    visited: &mut IndexSet<Visit>,
    room: u32,
) -> Result<bool, AllocError>
    requires within { t < length bank.now.terms }
    requires vars { AreTypesOf bank.now vars.now }
    requires visited { HavePassed bank.now test.now vars.now visited.old.keys }
    ensures value { IfOk result (λ b. b ≡ leaves_pass test.now (map (type_at bank.now) vars.now) depth (tree_at bank.now t)) }
    ensures visited { OnOk result (HavePassed bank.now test.now vars.now visited.new.keys) }
{
    match bank.view(t) {
        View::Var(number) => {
            let ty = bank.type_of(t);
            Ok(variable_is_right(bank, test, vars, number, ty))
        }
        View::Bound(index) => Ok(index_is_right(test, depth, index)),
        View::Sym(s) => Ok(symbol_is_right(test, s)),
        View::App(f, a) => {
            let first = walk(bank, test, vars, f, depth, visited, room)?;
            if !first {
                return Ok(false);
            }
            let second = walk(bank, test, vars, a, depth, visited, room)?;
            Ok(second)
        }
        View::Lam(_, body) => {
            let Some(under) = depth.checked_add(1) else {
                return Err(AllocError);
            };
            let passes = walk(bank, test, vars, body, under, visited, room)?;
            Ok(passes)
        }
        View::Logic(_, x, y) => {
            let first = walk_argument(bank, test, vars, x, depth, visited, room)?;
            if !first {
                return Ok(false);
            }
            let second = walk_argument(bank, test, vars, y, depth, visited, room)?;
            Ok(second)
        }
    }
}

#[cycle(walk)]
fn walk_argument(
    bank: &Bank,
    test: &LeafTest,
    vars: &[TyId],
    x: Option<TermId>,
    depth: u32,
    visited: &mut IndexSet<Visit>,
    room: u32,
) -> Result<bool, AllocError>
    requires within { IsArgumentBelow (length bank.now.terms) x }
    requires vars { AreTypesOf bank.now vars.now }
    requires visited { HavePassed bank.now test.now vars.now visited.old.keys }
    ensures value { IfOk result (λ b. b ≡ leaves_pass test.now (map (type_at bank.now) vars.now) depth (argument (tree_at bank.now) x)) }
    ensures visited { OnOk result (HavePassed bank.now test.now vars.now visited.new.keys) }
{
    match x {
        Some(t) => {
            let passes = walk(bank, test, vars, t, depth, visited, room)?;
            Ok(passes)
        }
        None => Ok(true),
    }
}
