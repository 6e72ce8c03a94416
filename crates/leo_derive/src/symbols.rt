//! The symbols of lines.

ghost use Rattle.std.specs.Prelude.{◌≡◌, ◌<◌, [], length, map, nat_eq, OnOk};
ghost use Rattle.leo_terms.specs.Contents.{AreTerms, IsArgumentBelow, argument, tree_at};
ghost use Rattle.leo_clause.specs.Arranging.{firsts};
ghost use Rattle.leo_clause.specs.Trees.{literal_at};
ghost use Rattle.leo_clause.specs.Typed.{AreLiteralsOf};
ghost use Rattle.leo_kernel.specs.Records.{AreTermsOfRule, IsStepOf};
ghost use Rattle.leo_kernel.specs.Steps.{line_at, rule_at};
ghost use Rattle.leo_derive.specs.Symbols.{AreCollected, symbols_in, symbols_in_line, symbols_in_literals, symbols_in_rule, symbols_of};

use indexmap::IndexSet;
use leo_clause::{Lit, Rule, StepRecord};
use leo_terms::{Bank, DEPTH, SymId, TermId, View};
use std::alloc::AllocError;

/// Appends the symbols of a term that were not met yet. `visited` are terms whose symbols were met. Goes at most `room`
/// levels down.
#[cycle(meet)]
fn meet(
    bank: &Bank,
    t: TermId,
    symbols: &mut IndexSet<SymId>,
    visited: &mut IndexSet<TermId>,
    room: u32,
) -> Result<(), AllocError>
    requires within { t < length bank.now.terms }
    requires met { AreCollected bank.now visited.old.keys symbols.old.keys }
    ensures symbols { OnOk result (symbols.new.keys ≡ firsts nat_eq symbols.old.keys (symbols_of (tree_at bank.now t))) }
    ensures met { OnOk result (AreCollected bank.now visited.new.keys symbols.new.keys) }
{
    let Some(room) = room.checked_sub(1) else {
        return Err(AllocError);
    };
    if visited.contains(&t) {
        return Ok(());
    }
    meet_parts(bank, t, symbols, visited, room)?;
    visited.insert(t)?;
    Ok(())
}

/// The same, by the parts of the term.
#[cycle(meet)]
fn meet_parts(
    bank: &Bank,
    t: TermId,
    symbols: &mut IndexSet<SymId>,
    visited: &mut IndexSet<TermId>,
    room: u32,
) -> Result<(), AllocError>
    requires within { t < length bank.now.terms }
    requires met { AreCollected bank.now visited.old.keys symbols.old.keys }
    ensures symbols { OnOk result (symbols.new.keys ≡ firsts nat_eq symbols.old.keys (symbols_of (tree_at bank.now t))) }
    ensures met { OnOk result (AreCollected bank.now visited.new.keys symbols.new.keys) }
{
    match bank.view(t) {
        View::Var(_) => Ok(()),
        View::Bound(_) => Ok(()),
        View::Sym(symbol) => {
            symbols.insert(symbol)?;
            Ok(())
        }
        View::App(f, a) => {
            meet(bank, f, symbols, visited, room)?;
            meet(bank, a, symbols, visited, room)?;
            Ok(())
        }
        View::Lam(_, body) => {
            meet(bank, body, symbols, visited, room)?;
            Ok(())
        }
        View::Logic(_, x, y) => {
            meet_argument(bank, x, symbols, visited, room)?;
            meet_argument(bank, y, symbols, visited, room)?;
            Ok(())
        }
    }
}

#[cycle(meet)]
fn meet_argument(
    bank: &Bank,
    x: Option<TermId>,
    symbols: &mut IndexSet<SymId>,
    visited: &mut IndexSet<TermId>,
    room: u32,
) -> Result<(), AllocError>
    requires within { IsArgumentBelow (length bank.now.terms) x }
    requires met { AreCollected bank.now visited.old.keys symbols.old.keys }
    ensures symbols { OnOk result (symbols.new.keys ≡ firsts nat_eq symbols.old.keys (symbols_of (argument (tree_at bank.now) x))) }
    ensures met { OnOk result (AreCollected bank.now visited.new.keys symbols.new.keys) }
{
    match x {
        Some(t) => {
            meet(bank, t, symbols, visited, room)?;
            Ok(())
        }
        None => Ok(()),
    }
}

fn meet_lits(
    bank: &Bank,
    lits: &[Lit],
    symbols: &mut IndexSet<SymId>,
    visited: &mut IndexSet<TermId>,
) -> Result<(), AllocError>
    requires lits { AreLiteralsOf bank.now lits.now }
    requires met { AreCollected bank.now visited.old.keys symbols.old.keys }
    ensures symbols { OnOk result (symbols.new.keys ≡ firsts nat_eq symbols.old.keys (symbols_in_literals (map (literal_at bank.now) lits.now))) }
    ensures met { OnOk result (AreCollected bank.now visited.new.keys symbols.new.keys) }
{
    for lit in lits {
        meet(bank, lit.left, symbols, visited, DEPTH)?;
        meet(bank, lit.right, symbols, visited, DEPTH)?;
    }
    Ok(())
}

fn meet_terms(
    bank: &Bank,
    terms: &[TermId],
    symbols: &mut IndexSet<SymId>,
    visited: &mut IndexSet<TermId>,
) -> Result<(), AllocError>
    requires terms { AreTerms bank.now terms.now }
    requires met { AreCollected bank.now visited.old.keys symbols.old.keys }
    ensures symbols { OnOk result (symbols.new.keys ≡ firsts nat_eq symbols.old.keys (symbols_in (map (tree_at bank.now) terms.now))) }
    ensures met { OnOk result (AreCollected bank.now visited.new.keys symbols.new.keys) }
{
    for t in terms {
        meet(bank, *t, symbols, visited, DEPTH)?;
    }
    Ok(())
}

fn meet_rule(
    bank: &Bank,
    rule: &Rule,
    symbols: &mut IndexSet<SymId>,
    visited: &mut IndexSet<TermId>,
) -> Result<(), AllocError>
    requires rule { AreTermsOfRule bank.now rule.now }
    requires met { AreCollected bank.now visited.old.keys symbols.old.keys }
    ensures symbols { OnOk result (symbols.new.keys ≡ firsts nat_eq symbols.old.keys (symbols_in_rule (rule_at bank.now rule.now))) }
    ensures met { OnOk result (AreCollected bank.now visited.new.keys symbols.new.keys) }
{
    match rule {
        Rule::Inst { sigma, .. } => {
            meet_terms(bank, sigma.as_slice(), symbols, visited)?;
            Ok(())
        }
        _ => Ok(()),
    }
}

/// Appends the symbols of a line, in its clause and in its rule, that were not met yet.
pub(crate) fn meet_line(
    bank: &Bank,
    line: &StepRecord,
    symbols: &mut IndexSet<SymId>,
    visited: &mut IndexSet<TermId>,
) -> Result<(), AllocError>
    requires line { IsStepOf bank.now line.now }
    requires met { AreCollected bank.now visited.old.keys symbols.old.keys }
    ensures symbols { OnOk result (symbols.new.keys ≡ firsts nat_eq symbols.old.keys (symbols_in_line (line_at bank.now line.now))) }
    ensures met { OnOk result (AreCollected bank.now visited.new.keys symbols.new.keys) }
{
    meet_lits(bank, line.clause.lits.as_slice(), symbols, visited)?;
    meet_rule(bank, &line.rule, symbols, visited)?;
    Ok(())
}
