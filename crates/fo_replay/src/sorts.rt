//! Sorts of terms.

ghost use Rattle.std.specs.Prelude.{◌≡◌, ◌++◌, ◌∷◌, [], ◌↔◌, ℕ, List, IfOk, OnOk, IsTrue, MatchOption, reverse};
ghost use Rattle.fo_text.specs.Problems.{HasSort};
ghost use Rattle.fo_text.specs.Nodes.{Gives};
ghost use Rattle.fo_replay.specs.Replays.{HaveOneSort};
ghost use Rattle.fo_replay.specs.Parts.{Fill};

use fo_terms::term::{FoNode, FoTerm};
use fo_text::problem::FoSym;
use std::alloc::{AllocError, Global};

/// Puts sorts on the stack, the first on top.
pub(crate) fn push_sorts(sorts: &[u32], wants: &mut Vec<u32>) -> Result<(), AllocError>
    ensures { OnOk result (reverse wants.new.items ≡ sorts.now ++ reverse wants.old.items) }
{
    let mut left = sorts.len();
    while left > 0 {
        left -= 1;
        wants.push(sorts[left])?;
    }
    Ok(())
}

/// The sorts of the arguments that a node of a sort wants.
fn arguments_of<'a>(vars: &[u32], syms: &'a [FoSym], node: FoNode, sort: u32) -> Option<&'a [u32]>
    ensures { MatchOption result ((args : List ℕ) → Gives vars.now syms.now node sort args → ⊥) (λ args. Gives vars.now syms.now node sort args.now) }
{
    match node {
        FoNode::Var(variable) => {
            let found = vars.get(variable as usize)?;
            if *found == sort { Some(&[]) } else { None }
        }
        FoNode::Sym(symbol, arguments) => {
            let found = syms.get(symbol as usize)?;
            if found.result == sort && found.args.len() == arguments as usize {
                Some(found.args.as_slice())
            } else {
                None
            }
        }
    }
}

/// Whether nodes are those of terms of these sorts, the first of which is on top of the stack.
pub(crate) fn fill(
    vars: &[u32],
    syms: &[FoSym],
    nodes: &[FoNode],
    mut wants: Vec<u32>,
) -> Result<bool, AllocError>
    ensures { IfOk result (λ b. IsTrue b ↔ Fill vars.now syms.now (reverse wants.items) nodes.now) }
{
    let mut rest = nodes;
    while let Some((node, tail)) = rest.split_first() {
        let Some(want) = wants.pop() else {
            return Ok(false);
        };
        let Some(args) = arguments_of(vars, syms, *node, want) else {
            return Ok(false);
        };
        push_sorts(args, &mut wants)?;
        rest = tail;
    }
    Ok(wants.is_empty())
}

/// Whether a term has a sort.
fn has_sort(
    alloc: Global,
    vars: &[u32],
    syms: &[FoSym],
    term: &FoTerm,
    sort: u32,
) -> Result<bool, AllocError>
    ensures { IfOk result (λ b. IsTrue b ↔ HasSort vars.now syms.now term.now sort) }
{
    let mut wants = Vec::new(alloc);
    wants.push(sort)?;
    fill(vars, syms, term.nodes(), wants)
}

/// The only sort that a node can give.
fn result_of(vars: &[u32], syms: &[FoSym], node: FoNode) -> Option<u32>
    ensures { MatchOption result ((s : ℕ) (args : List ℕ) → Gives vars.now syms.now node s args → ⊥) (λ s. (r : ℕ) (args : List ℕ) → Gives vars.now syms.now node r args → r ≡ s) }
{
    match node {
        FoNode::Var(variable) => {
            let found = vars.get(variable as usize)?;
            Some(*found)
        }
        FoNode::Sym(symbol, _) => {
            let found = syms.get(symbol as usize)?;
            Some(found.result)
        }
    }
}

/// The only sort that a term can have.
fn sort_of(vars: &[u32], syms: &[FoSym], term: &FoTerm) -> Option<u32>
    ensures { MatchOption result ((s : ℕ) → HasSort vars.now syms.now term.now s → ⊥) (λ s. (r : ℕ) → HasSort vars.now syms.now term.now r → r ≡ s) }
{
    match term.nodes().split_first() {
        None => None,
        Some((node, _others)) => result_of(vars, syms, *node),
    }
}

/// Whether two terms have one sort.
pub(crate) fn have_one_sort(
    alloc: Global,
    vars: &[u32],
    syms: &[FoSym],
    one: &FoTerm,
    other: &FoTerm,
) -> Result<bool, AllocError>
    ensures { IfOk result (λ b. IsTrue b ↔ HaveOneSort vars.now syms.now one.now other.now) }
{
    let Some(sort) = sort_of(vars, syms, one) else {
        return Ok(false);
    };
    if has_sort(alloc, vars, syms, one, sort)? {
        has_sort(alloc, vars, syms, other, sort)
    } else {
        Ok(false)
    }
}
