//! Matching: terms for the variables of a term, so that it becomes another.

ghost use Rattle.std.specs.Prelude.{◌≡◌, ◌<◌, ◌∷◌, ◌++◌, [], length, slice_get, ℕ, List, Some, IfOk, MatchOption};
ghost use Rattle.std.specs.Bool.{Decides, OnTrue};
ghost use Rattle.fo_terms.specs.declared.term.FoNode.{FoNode};
ghost use Rattle.fo_terms.specs.Terms.{Term, variable as a_variable};
ghost use Rattle.fo_terms.specs.Prefix.{prefix, term_of, IsPrefix};
ghost use Rattle.fo_super.specs.Subsumption.{KeepsSort, sort_of as sort_of_term};
ghost use Rattle.fo_super.specs.Matching.{AreBindings, BothFit, Fits, IsBoundTo, IsPassed, IsRefused, IsUnbound, Narrows, StartsWithTerm};

use crate::nodes::behind;
use crate::terms::same_nodes;
use fo_terms::term::{FoNode, FoTerm};
use fo_text::problem::{FoClause, FoLit, FoSym};
use std::alloc::{AllocError, Global};

/// What a variable is bound to.
#[derive(Drop)]
pub(crate) struct Binding {
    pub variable: u32,
    pub term: FoTerm,
}

/// The term that a variable is bound to.
fn bound_to(bindings: &[Binding], variable: u32) -> Option<&FoTerm>
    ensures { MatchOption result (IsUnbound variable bindings.now) (λ t. IsBoundTo variable t.now bindings.now) }
{
    for binding in bindings {
        if binding.variable == variable {
            return Some(&binding.term);
        }
    }
    None
}

/// The sort of the term that begins with a node.
fn sort_of(vars: &[u32], syms: &[FoSym], node: FoNode) -> Option<u32>
    ensures { (t : Term) (back : List FoNode) → prefix t ≡ node ∷ back → result ≡ sort_of_term vars.now syms.now t }
{
    match node {
        FoNode::Var(variable) => {
            let sort = vars.get(variable as usize)?;
            Some(*sort)
        }
        FoNode::Sym(symbol, _) => {
            let symbol = syms.get(symbol as usize)?;
            Some(symbol.result)
        }
    }
}

/// Whether two sorts are there, and are one.
fn is_one_sort(sort: Option<u32>, other: Option<u32>) -> bool
    ensures { Decides result ((s : ℕ) × (sort ≡ Some s) × (other ≡ Some s)) }
{
    match sort {
        None => false,
        Some(sort) => match other {
            None => false,
            Some(other) => sort == other,
        },
    }
}

/// The sort of a variable.
fn sort_at(vars: &[u32], variable: u32) -> Option<u32>
    ensures { result ≡ slice_get vars.now variable }
{
    let sort = vars.get(variable as usize)?;
    Some(*sort)
}

/// Whether a term, of which these are the nodes, has the sort of a variable.
fn keeps_sort(
    syms: &[FoSym],
    clause: &FoClause,
    other: &FoClause,
    variable: u32,
    nodes: &[FoNode],
) -> bool
    requires { IsPrefix nodes.now }
    ensures { Decides result (KeepsSort clause.now.vars other.now.vars syms.now variable (term_of nodes.now)) }
{
    match nodes.split_first() {
        None => false,
        Some((node, _others)) => is_one_sort(
            sort_at(clause.vars.as_slice(), variable),
            sort_of(other.vars.as_slice(), syms, *node),
        ),
    }
}

/// The term with these nodes.
fn built(alloc: Global, nodes: &[FoNode]) -> Result<FoTerm, AllocError>
    requires { IsPrefix nodes.now }
    ensures { IfOk result (λ t. t ≡ term_of nodes.now) }
{
    match FoTerm::new(Vec::from_slice(alloc, nodes)?) {
        Some(term) => Ok(term),
        None => unreachable!(),
    }
}

/// Whether a term has these nodes.
fn has_nodes(term: &FoTerm, nodes: &[FoNode]) -> bool
    requires { IsPrefix nodes.now }
    ensures { Decides result (term.now ≡ term_of nodes.now) }
{
    same_nodes(term.nodes(), nodes)
}

/// Binds a variable to the term with these nodes, if that has its sort and it is bound to no other.
fn bind(
    alloc: Global,
    syms: &[FoSym],
    clause: &FoClause,
    other: &FoClause,
    variable: u32,
    nodes: &[FoNode],
    bindings: &mut Vec<Binding>,
) -> Result<bool, AllocError>
    requires nodes { IsPrefix nodes.now }
    requires sound { AreBindings clause.now.vars other.now.vars syms.now bindings.old.items }
    ensures { IfOk result (λ b. Narrows clause.now.vars other.now.vars syms.now bindings.old.items bindings.new.items b (Fits clause.now.vars other.now.vars syms.now (a_variable variable) (term_of nodes.now))) }
{
    if !keeps_sort(syms, clause, other, variable, nodes) {
        return Ok(false);
    }
    match bound_to(bindings, variable) {
        Some(bound) => Ok(has_nodes(bound, nodes)),
        None => {
            let term = built(alloc, nodes)?;
            bindings.push(Binding { variable, term })?;
            Ok(true)
        }
    }
}

/// The nodes of the term at the front, and those behind it.
fn split_term(nodes: &[FoNode]) -> (&[FoNode], &[FoNode])
    requires { StartsWithTerm nodes.now }
    ensures { (t : Term) (back : List FoNode) → nodes.now ≡ prefix t ++ back → (result.0.now ≡ prefix t) × (result.1.now ≡ back) }
{
    let rest = behind(nodes, 1);
    nodes.split_at(nodes.len() - rest.len())
}

/// What is behind the term at the front, where a variable can become that.
fn fit_variable<'a>(
    alloc: Global,
    syms: &[FoSym],
    clause: &FoClause,
    other: &FoClause,
    variable: u32,
    nodes: &'a [FoNode],
    bindings: &mut Vec<Binding>,
) -> Result<Option<&'a [FoNode]>, AllocError>
    requires starts { StartsWithTerm nodes.now }
    requires sound { AreBindings clause.now.vars other.now.vars syms.now bindings.old.items }
    ensures { IfOk result (λ o. (t : Term) (back : List FoNode) → nodes.now ≡ prefix t ++ back → MatchOption o (IsRefused clause.now.vars other.now.vars syms.now (FoNode.Var variable) t back bindings.old.items bindings.new.items) (λ rest. IsPassed clause.now.vars other.now.vars syms.now (FoNode.Var variable) t back bindings.old.items bindings.new.items rest.now)) }
{
    let (first, rest) = split_term(nodes);
    if bind(alloc, syms, clause, other, variable, first, bindings)? {
        Ok(Some(rest))
    } else {
        Ok(None)
    }
}

/// What is behind a node at the front, if it stands there.
fn behind_node(node: FoNode, nodes: &[FoNode]) -> Option<&[FoNode]>
    ensures { MatchOption result ((rest : List FoNode) → nodes.now ≡ node ∷ rest → ⊥) (λ rest. nodes.now ≡ node ∷ rest.now) }
{
    let (first, rest) = nodes.split_first()?;
    if *first == node { Some(rest) } else { None }
}

/// What is behind the nodes that the next node of a pattern can become.
fn fit_next<'a>(
    alloc: Global,
    syms: &[FoSym],
    clause: &FoClause,
    other: &FoClause,
    node: FoNode,
    nodes: &'a [FoNode],
    bindings: &mut Vec<Binding>,
) -> Result<Option<&'a [FoNode]>, AllocError>
    requires starts { StartsWithTerm nodes.now }
    requires sound { AreBindings clause.now.vars other.now.vars syms.now bindings.old.items }
    ensures { IfOk result (λ o. (t : Term) (back : List FoNode) → nodes.now ≡ prefix t ++ back → MatchOption o (IsRefused clause.now.vars other.now.vars syms.now node t back bindings.old.items bindings.new.items) (λ rest. IsPassed clause.now.vars other.now.vars syms.now node t back bindings.old.items bindings.new.items rest.now)) }
{
    match node {
        FoNode::Var(variable) => {
            fit_variable(alloc, syms, clause, other, variable, nodes, bindings)
        }
        FoNode::Sym(symbol, arguments) => { Ok(behind_node(FoNode::Sym(symbol, arguments), nodes)) }
    }
}

/// Binds the variables of a pattern so that it becomes a term. Both are given by their nodes.
fn fit(
    alloc: Global,
    syms: &[FoSym],
    clause: &FoClause,
    other: &FoClause,
    pattern: &[FoNode],
    nodes: &[FoNode],
    bindings: &mut Vec<Binding>,
) -> Result<bool, AllocError>
    requires pattern { IsPrefix pattern.now }
    requires nodes { IsPrefix nodes.now }
    requires sound { AreBindings clause.now.vars other.now.vars syms.now bindings.old.items }
    ensures { IfOk result (λ b. Narrows clause.now.vars other.now.vars syms.now bindings.old.items bindings.new.items b (Fits clause.now.vars other.now.vars syms.now (term_of pattern.now) (term_of nodes.now))) }
{
    let mut left = pattern;
    let mut right = nodes;
    while let Some((node, tail)) = left.split_first() {
        let found = fit_next(alloc, syms, clause, other, *node, right, bindings)?;
        let Some(rest) = found else {
            return Ok(false);
        };
        left = tail;
        right = rest;
    }
    Ok(true)
}

/// Whether a pattern is too long to become a term. Whatever replaces variables, it gets no shorter.
fn is_too_long(pattern: &FoTerm, term: &FoTerm) -> bool
    ensures { OnTrue result (length (prefix term.now) < length (prefix pattern.now)) }
{
    term.nodes().len() < pattern.nodes().len()
}

/// The same of terms.
fn fit_term(
    alloc: Global,
    syms: &[FoSym],
    clause: &FoClause,
    other: &FoClause,
    pattern: &FoTerm,
    term: &FoTerm,
    bindings: &mut Vec<Binding>,
) -> Result<bool, AllocError>
    requires sound { AreBindings clause.now.vars other.now.vars syms.now bindings.old.items }
    ensures { IfOk result (λ b. Narrows clause.now.vars other.now.vars syms.now bindings.old.items bindings.new.items b (Fits clause.now.vars other.now.vars syms.now pattern.now term.now)) }
{
    let fits = fit(
        alloc,
        syms,
        clause,
        other,
        pattern.nodes(),
        term.nodes(),
        bindings,
    )?;
    Ok(fits)
}

/// Binds the variables of a literal so that its sides become these.
pub(crate) fn fit_sides(
    alloc: Global,
    syms: &[FoSym],
    clause: &FoClause,
    other: &FoClause,
    literal: &FoLit,
    left: &FoTerm,
    right: &FoTerm,
    bindings: &mut Vec<Binding>,
) -> Result<bool, AllocError>
    requires sound { AreBindings clause.now.vars other.now.vars syms.now bindings.old.items }
    ensures { IfOk result (λ b. Narrows clause.now.vars other.now.vars syms.now bindings.old.items bindings.new.items b (BothFit clause.now.vars other.now.vars syms.now literal.now.left left.now literal.now.right right.now)) }
{
    if is_too_long(&literal.left, left) {
        return Ok(false);
    }
    if is_too_long(&literal.right, right) {
        return Ok(false);
    }
    let first = fit_term(alloc, syms, clause, other, &literal.left, left, bindings)?;
    if !first {
        return Ok(false);
    }
    let second = fit_term(alloc, syms, clause, other, &literal.right, right, bindings)?;
    Ok(second)
}
