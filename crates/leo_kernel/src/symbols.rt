//! Whether a symbol is new.

ghost use Rattle.std.specs.Prelude.{[], ◌∷◌, ◌<◌, ◌≡◌, List, length, map, true, IfOk, OnOk};
ghost use Rattle.std.specs.Bool.{Decides};
ghost use Rattle.leo_q0.specs.Terms.{SimpleType};
ghost use Rattle.leo_terms.specs.Contents.{AreTerms, tree_at};
ghost use Rattle.leo_terms.specs.Tree.{Tree, symbol as symbol_tree};
ghost use Rattle.leo_clause.specs.Trees.{clause_at, literal_at};
ghost use Rattle.leo_clause.specs.Typed.{AreLiteralsOf};
ghost use Rattle.leo_kernel.specs.Records.{AreStepsOf, AreTermsOfRule, IsStepOf};
ghost use Rattle.leo_kernel.specs.Shapes.{equal};
ghost use Rattle.leo_kernel.specs.Steps.{line_at, rule_at};
ghost use Rattle.leo_kernel.specs.Symbols.{HasNoVariable, IsNewSymbol, LackSymbol, LacksSymbol, LinesLackSymbol, LiteralsLackSymbol, RuleLacksSymbol};
ghost use Rattle.leo_kernel.specs.Visits.{HavePassed};

use crate::equations::is_symbol;
use crate::leaves::{LeafTest, Visit, walk};
use crate::plain::only_lit;
use indexmap::IndexSet;
use leo_clause::{Lit, Rule, StepRecord};
use leo_terms::{Bank, DEPTH, SymId, TermId};
use std::alloc::{AllocError, Global};

/// Whether a term lacks a symbol. `visited` are terms that lack it.
fn lacks(
    bank: &Bank,
    symbol: SymId,
    t: TermId,
    visited: &mut IndexSet<Visit>,
) -> Result<bool, AllocError>
    requires within { t < length bank.now.terms }
    requires visited { HavePassed bank.now (LeafTest.Lacks symbol) [] visited.old.keys }
    ensures value { IfOk result (λ b. Decides b (LacksSymbol symbol (tree_at bank.now t))) }
    ensures visited { OnOk result (HavePassed bank.now (LeafTest.Lacks symbol) [] visited.new.keys) }
{
    let test = LeafTest::Lacks(symbol);
    let passes = walk(bank, &test, &[], t, 0, visited, DEPTH)?;
    Ok(passes)
}

/// Whether terms lack a symbol.
pub(crate) fn terms_lack(
    alloc: Global,
    bank: &Bank,
    symbol: SymId,
    terms: &[TermId],
) -> Result<bool, AllocError>
    requires { AreTerms bank.now terms.now }
    ensures { IfOk result (λ b. Decides b (LackSymbol symbol (map (tree_at bank.now) terms.now))) }
{
    let mut visited = IndexSet::new(alloc);
    for t in terms {
        let passes = lacks(bank, symbol, *t, &mut visited)?;
        if !passes {
            return Ok(false);
        }
    }
    Ok(true)
}

/// Whether the sides of a literal lack a symbol.
fn lit_lacks(
    bank: &Bank,
    symbol: SymId,
    lit: Lit,
    visited: &mut IndexSet<Visit>,
) -> Result<bool, AllocError>
    requires left { lit.left < length bank.now.terms }
    requires right { lit.right < length bank.now.terms }
    requires visited { HavePassed bank.now (LeafTest.Lacks symbol) [] visited.old.keys }
    ensures value { IfOk result (λ b. Decides b (LacksSymbol symbol (tree_at bank.now lit.left) × LacksSymbol symbol (tree_at bank.now lit.right))) }
    ensures visited { OnOk result (HavePassed bank.now (LeafTest.Lacks symbol) [] visited.new.keys) }
{
    let left = lacks(bank, symbol, lit.left, visited)?;
    if !left {
        return Ok(false);
    }
    let right = lacks(bank, symbol, lit.right, visited)?;
    Ok(right)
}

/// Whether literals lack a symbol.
pub(crate) fn lits_lack(
    alloc: Global,
    bank: &Bank,
    symbol: SymId,
    lits: &[Lit],
) -> Result<bool, AllocError>
    requires { AreLiteralsOf bank.now lits.now }
    ensures { IfOk result (λ b. Decides b (LiteralsLackSymbol symbol (map (literal_at bank.now) lits.now))) }
{
    let mut visited = IndexSet::new(alloc);
    for lit in lits {
        let passes = lit_lacks(bank, symbol, *lit, &mut visited)?;
        if !passes {
            return Ok(false);
        }
    }
    Ok(true)
}

/// Whether the terms of a rule lack a symbol.
fn rule_lacks(alloc: Global, bank: &Bank, symbol: SymId, rule: &Rule) -> Result<bool, AllocError>
    requires { AreTermsOfRule bank.now rule.now }
    ensures { IfOk result (λ b. Decides b (RuleLacksSymbol symbol (rule_at bank.now rule.now))) }
{
    match rule {
        Rule::Inst { sigma, .. } => {
            let passes = terms_lack(alloc, bank, symbol, sigma.as_slice())?;
            Ok(passes)
        }
        _ => Ok(true),
    }
}

/// Whether a line lacks a symbol.
fn line_lacks(
    alloc: Global,
    bank: &Bank,
    symbol: SymId,
    line: &StepRecord,
) -> Result<bool, AllocError>
    requires { IsStepOf bank.now line.now }
    ensures { IfOk result (λ b. Decides b (LiteralsLackSymbol symbol (clause_at bank.now line.now.clause).literals × RuleLacksSymbol symbol (rule_at bank.now line.now.rule))) }
{
    let clause = lits_lack(alloc, bank, symbol, line.clause.lits.as_slice())?;
    if !clause {
        return Ok(false);
    }
    let rule = rule_lacks(alloc, bank, symbol, &line.rule)?;
    Ok(rule)
}

/// Whether no line has a symbol, in its clause or in its rule.
pub(crate) fn lines_lack(
    alloc: Global,
    bank: &Bank,
    symbol: SymId,
    lines: &[StepRecord],
) -> Result<bool, AllocError>
    requires { AreStepsOf bank.now lines.now }
    ensures { IfOk result (λ b. Decides b (LinesLackSymbol symbol (map (line_at bank.now) lines.now))) }
{
    for line in lines {
        let passes = line_lacks(alloc, bank, symbol, line)?;
        if !passes {
            return Ok(false);
        }
    }
    Ok(true)
}

/// Whether a term has no variable.
fn has_no_variable(alloc: Global, bank: &Bank, t: TermId) -> Result<bool, AllocError>
    requires { t < length bank.now.terms }
    ensures { IfOk result (λ b. Decides b (HasNoVariable (tree_at bank.now t))) }
{
    let mut visited = IndexSet::new(alloc);
    let test = LeafTest::Declared;
    let passes = walk(bank, &test, &[], t, 0, &mut visited, DEPTH)?;
    Ok(passes)
}

/// Whether a symbol may stand for a term: one without variables and without the symbol.
fn may_stand_for(alloc: Global, bank: &Bank, symbol: SymId, t: TermId) -> Result<bool, AllocError>
    requires { t < length bank.now.terms }
    ensures { IfOk result (λ b. Decides b (HasNoVariable (tree_at bank.now t) × LacksSymbol symbol (tree_at bank.now t))) }
{
    let closed = has_no_variable(alloc, bank, t)?;
    if !closed {
        return Ok(false);
    }
    let mut visited = IndexSet::new(alloc);
    let passes = lacks(bank, symbol, t, &mut visited)?;
    Ok(passes)
}

/// Whether a symbol may stand for t, where the clause is `s = t`.
fn may_be_defined(
    alloc: Global,
    bank: &Bank,
    symbol: SymId,
    lits: &[Lit],
) -> Result<bool, AllocError>
    requires { AreLiteralsOf bank.now lits.now }
    ensures { IfOk result (λ b. Decides b (((a : SimpleType) (t : Tree) → map (literal_at bank.now) lits.now ≡ equal (symbol_tree symbol a) t ∷ [] → HasNoVariable t) × ((a : SimpleType) (t : Tree) → map (literal_at bank.now) lits.now ≡ equal (symbol_tree symbol a) t ∷ [] → LacksSymbol symbol t))) }
{
    match only_lit(lits) {
        Some(lit) => {
            if !lit.pos {
                return Ok(true);
            }
            if !is_symbol(bank, lit.left, symbol) {
                return Ok(true);
            }
            let may = may_stand_for(alloc, bank, symbol, lit.right)?;
            Ok(may)
        }
        None => Ok(true),
    }
}

/// Whether no hypothesis and no line has a symbol, and it may stand for t, where the clause is `s = t`.
pub(crate) fn is_new_symbol(
    alloc: Global,
    bank: &Bank,
    symbol: SymId,
    hyps: &[TermId],
    lines: &[StepRecord],
    lits: &[Lit],
) -> Result<bool, AllocError>
    requires hypotheses { AreTerms bank.now hyps.now }
    requires lines { AreStepsOf bank.now lines.now }
    requires literals { AreLiteralsOf bank.now lits.now }
    ensures { IfOk result (λ b. Decides b (IsNewSymbol (map (tree_at bank.now) hyps.now) (map (line_at bank.now) lines.now) symbol (map (literal_at bank.now) lits.now))) }
{
    let unused = terms_lack(alloc, bank, symbol, hyps)?;
    if !unused {
        return Ok(false);
    }
    let absent = lines_lack(alloc, bank, symbol, lines)?;
    if !absent {
        return Ok(false);
    }
    let may = may_be_defined(alloc, bank, symbol, lits)?;
    Ok(may)
}
