//! Terms.

ghost use Rattle.std.specs.Prelude.{◌≡◌, ◌≤◌, ◌<◌, ◌+◌, ◌^◌, ◌++◌, ◌∷◌, [], length, map, reverse, IfOk, IfErr, OnOk, Some, ℕ, List};
ghost use Rattle.std.specs.List.{AllByRecursion};
ghost use Rattle.fo_text.specs.Reads.{IsStop};
ghost use Rattle.fo_text.specs.Pieces.{StandsFirst, HasFewArgs};
ghost use Rattle.fo_text.specs.Spellings.{nodes_text, term_text};
ghost use Rattle.fo_text.specs.Nodes.{Gives, Takes, CanBegin, AreMarks, IsCandidate};
ghost use Rattle.fo_text.specs.Terms.{IsTerm, ended_term, follow};
ghost use Rattle.fo_text.specs.declared.problem.FoSym.{FoSym};
ghost use Rattle.std.specs.Prelude.{slice_get};

use crate::nodes::{Names, node};
use crate::problem::FoSym;
use crate::refusal::Stop;
use fo_terms::term::{FoNode, FoTerm};
use std::alloc::{AllocError, Global};

/// Puts sorts on the stack, the first on top.
fn push_sorts(sorts: &[u32], wants: &mut Vec<Option<u32>>) -> Result<(), AllocError>
    ensures { OnOk result (reverse wants.new.items ≡ map Some sorts.now ++ reverse wants.old.items) }
{
    let mut left = sorts.len();
    while left > 0 {
        left -= 1;
        wants.push(Some(sorts[left]))?;
    }
    Ok(())
}

fn arguments(syms: &[FoSym], symbol: u32) -> &[u32]
    requires { symbol < length syms.now }
    ensures { (y : FoSym) → slice_get syms.now symbol ≡ Some y → result.now ≡ y.args }
{
    syms[symbol as usize].args.as_slice()
}

/// Puts the sorts of a node's arguments on the stack, the first on top.
fn push_arguments(
    names: Names<'_>,
    node: FoNode,
    want: Option<u32>,
    wants: &mut Vec<Option<u32>>,
) -> Result<(), AllocError>
    requires { IsCandidate names.vars.now names.syms.now names.usable.now want node }
    ensures { OnOk result ((s : ℕ) (args : List ℕ) → Gives names.entry.vars.now names.entry.syms.now node s args → reverse wants.new.items ≡ map Some args ++ reverse wants.old.items) }
{
    match node {
        FoNode::Var(_) => Ok(()),
        FoNode::Sym(symbol, _) => push_sorts(arguments(names.syms, symbol), wants),
    }
}

fn end_before(wants: &[Option<u32>], after: u8) -> u8
    ensures { result ≡ follow after (reverse wants.now) }
{
    if wants.is_empty() { after } else { b' ' }
}

/// The nodes of a term.
fn term_nodes<'a>(
    alloc: Global,
    input: &'a [u8],
    names: Names<'_>,
    want: Option<u32>,
    after: u8,
) -> Result<(Vec<FoNode>, &'a [u8]), Stop>
    requires few { AllByRecursion HasFewArgs names.syms.now }
    requires numbered { (length names.vars.now < 2 ^ 32) × (length names.syms.now < 2 ^ 32) }
    requires ahead { StandsFirst 32 input.now }
    requires after { after < 48 }
    ensures takes { IfOk result (λ x. Takes names.entry.vars.now names.entry.syms.now (want ∷ []) x.0.items []) }
    ensures read { IfOk result (λ x. input.now ≡ nodes_text x.0.items ++ x.1.now) }
    ensures ended { IfOk result (λ x. StandsFirst after x.1.now) }
    ensures refused { IfErr result (λ e. AreMarks names.entry.vars.now names.entry.syms.now names.entry.usable.now → CanBegin names.entry.vars.now names.entry.syms.now want → IsStop (IsTerm names.entry.vars.now names.entry.syms.now want) (ended_term after) input.now e) }
{
    let mut nodes = Vec::new(alloc);
    let mut wants = Vec::new(alloc);
    wants.push(want)?;
    let mut rest = input;
    while let Some(next) = wants.pop() {
        let end = end_before(&wants, after);
        let (found, left) = node(alloc, rest, names, next, end)?;
        nodes.push(found)?;
        push_arguments(names, found, next, &mut wants)?;
        rest = left;
    }
    Ok((nodes, rest))
}

/// A term, with that byte behind it.
pub(crate) fn term<'a>(
    alloc: Global,
    input: &'a [u8],
    names: Names<'_>,
    want: Option<u32>,
    after: u8,
) -> Result<(FoTerm, &'a [u8]), Stop>
    requires few { AllByRecursion HasFewArgs names.syms.now }
    requires numbered { (length names.vars.now < 2 ^ 32) × (length names.syms.now < 2 ^ 32) }
    requires ahead { StandsFirst 32 input.now }
    requires after { after < 48 }
    ensures term { IfOk result (λ x. IsTerm names.entry.vars.now names.entry.syms.now want x.0) }
    ensures read { IfOk result (λ x. input.now ≡ term_text x.0 ++ x.1.now) }
    ensures ended { IfOk result (λ x. StandsFirst after x.1.now) }
    ensures refused { IfErr result (λ e. AreMarks names.entry.vars.now names.entry.syms.now names.entry.usable.now → CanBegin names.entry.vars.now names.entry.syms.now want → IsStop (IsTerm names.entry.vars.now names.entry.syms.now want) (ended_term after) input.now e) }
{
    let (nodes, rest) = term_nodes(alloc, input, names, want, after)?;
    match FoTerm::new(nodes) {
        Some(found) => Ok((found, rest)),
        None => unreachable!(),
    }
}
