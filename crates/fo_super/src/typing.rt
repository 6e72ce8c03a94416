//! Sorts of terms.

ghost use Rattle.std.specs.Prelude.{◌≡◌, ◌++◌, ◌↔◌, List, ℕ, IfOk, OnOk, IsTrue, MatchOption, reverse};
ghost use Rattle.std.specs.Bool.{Decides};
ghost use Rattle.fo_terms.specs.Prefix.{prefix_of_all};
ghost use Rattle.fo_text.specs.Nodes.{Gives};
ghost use Rattle.fo_text.specs.Problems.{HaveSorts};
ghost use Rattle.fo_replay.specs.Parts.{Fill};
ghost use Rattle.fo_replay.specs.Instances.{as_terms};

use fo_terms::term::{FoNode, FoTerm};
use fo_text::problem::FoSym;
use std::alloc::{AllocError, Global};

/// Puts sorts on the stack, the first on top.
fn push_sorts(sorts: &[u32], wants: &mut Vec<u32>) -> Result<(), AllocError>
    ensures { OnOk result (reverse wants.new.items ≡ sorts.now ++ reverse wants.old.items) }
{
    let mut left = sorts.len();
    while left > 0 {
        left -= 1;
        wants.push(sorts[left])?;
    }
    Ok(())
}

/// The sorts of the arguments that a node of a sort wants.
fn arguments_of<'a>(vars: &[u32], syms: &'a [FoSym], node: FoNode, sort: u32) -> Option<&'a [u32]>
    ensures { MatchOption result ((args : List ℕ) → Gives vars.now syms.now node sort args → ⊥) (λ args. Gives vars.now syms.now node sort args.now) }
{
    match node {
        FoNode::Var(variable) => {
            let found = vars.get(variable as usize)?;
            if *found == sort { Some(&[]) } else { None }
        }
        FoNode::Sym(symbol, arguments) => {
            let found = syms.get(symbol as usize)?;
            if found.result == sort && found.args.len() == arguments as usize {
                Some(found.args.as_slice())
            } else {
                None
            }
        }
    }
}

/// Whether nodes are those of terms of these sorts, the first of which is on top of the stack.
fn fill(
    vars: &[u32],
    syms: &[FoSym],
    nodes: &[FoNode],
    mut wants: Vec<u32>,
) -> Result<bool, AllocError>
    ensures { IfOk result (λ b. IsTrue b ↔ Fill vars.now syms.now (reverse wants.items) nodes.now) }
{
    let mut rest = nodes;
    while let Some((node, tail)) = rest.split_first() {
        let Some(want) = wants.pop() else {
            return Ok(false);
        };
        let Some(args) = arguments_of(vars, syms, *node, want) else {
            return Ok(false);
        };
        push_sorts(args, &mut wants)?;
        rest = tail;
    }
    Ok(wants.is_empty())
}

/// The nodes of terms, one after the other.
fn nodes_of(alloc: Global, terms: &[FoTerm]) -> Result<Vec<FoNode>, AllocError>
    ensures { IfOk result (λ ns. ns.items ≡ prefix_of_all (as_terms terms.now)) }
{
    let mut nodes = Vec::new(alloc);
    for term in terms {
        nodes.extend_from_slice(term.nodes())?;
    }
    Ok(nodes)
}

/// Whether nodes are those of terms of these sorts.
fn fills(
    alloc: Global,
    vars: &[u32],
    syms: &[FoSym],
    nodes: &[FoNode],
    sorts: &[u32],
) -> Result<bool, AllocError>
    ensures { IfOk result (λ b. IsTrue b ↔ Fill vars.now syms.now sorts.now nodes.now) }
{
    let mut wants = Vec::new(alloc);
    push_sorts(sorts, &mut wants)?;
    let filled = fill(vars, syms, nodes, wants)?;
    Ok(filled)
}

/// Whether terms have these sorts, over variables with their sorts. The only error is want of memory.
pub fn have_sorts(
    alloc: Global,
    vars: &[u32],
    syms: &[FoSym],
    terms: &[FoTerm],
    sorts: &[u32],
) -> Result<bool, AllocError>
    ensures { IfOk result (λ b. Decides b (HaveSorts vars.now syms.now (as_terms terms.now) sorts.now)) }
{
    let nodes = nodes_of(alloc, terms)?;
    let filled = fills(alloc, vars, syms, &nodes, sorts)?;
    Ok(filled)
}
