//! Terms applied to what stands for their variables.

ghost use Rattle.std.specs.Prelude.{◌≡◌, ◌++◌, ◌≤◌, IfOk, OnOk, MatchOption, Some, length, map, slice_get};
ghost use Rattle.std.specs.List.{flat_map};
ghost use Rattle.fo_terms.specs.Substitutions.{apply};
ghost use Rattle.fo_replay.specs.Replays.{applied_literal, images};
ghost use Rattle.fo_replay.specs.Parts.{image_nodes};
ghost use Rattle.fo_replay.specs.Instances.{as_terms};

use crate::numbering::built;
use fo_terms::term::{FoNode, FoTerm};
use fo_text::problem::FoLit;
use sqlite_items::Items;
use std::alloc::{AllocError, Global};

fn term_at(terms: &[FoTerm], number: u32) -> Option<&FoTerm>
    ensures { MatchOption result (length terms.now ≤ number) (λ t. slice_get terms.now number ≡ Some t.now) }
{
    terms.get(number as usize)
}

/// Puts the nodes of what the terms make of a node at the end.
fn push_image(terms: &[FoTerm], node: FoNode, out: &mut Vec<FoNode>) -> Result<(), AllocError>
    ensures { OnOk result (out.new.items ≡ out.old.items ++ image_nodes (images (as_terms terms.now)) node) }
{
    match node {
        FoNode::Sym(symbol, arguments) => {
            out.push(FoNode::Sym(symbol, arguments))?;
            Ok(())
        }
        FoNode::Var(variable) => match term_at(terms, variable) {
            None => {
                out.push(FoNode::Var(variable))?;
                Ok(())
            }
            Some(term) => {
                out.extend_from_slice(term.nodes())?;
                Ok(())
            }
        },
    }
}

fn image_nodes_of(
    alloc: Global,
    terms: &[FoTerm],
    nodes: &[FoNode],
) -> Result<Vec<FoNode>, AllocError>
    ensures { IfOk result (λ ns. ns.items ≡ flat_map (image_nodes (images (as_terms terms.now))) nodes.now) }
{
    let mut out = Vec::new(alloc);
    for node in nodes {
        push_image(terms, *node, &mut out)?;
    }
    Ok(out)
}

/// What terms that stand for variables, the first for number 0, make of a term. The only error is want
/// of memory.
pub fn applied(alloc: Global, terms: &[FoTerm], term: &FoTerm) -> Result<FoTerm, AllocError>
    ensures { IfOk result (λ t. t ≡ apply (images (as_terms terms.now)) term.now) }
{
    let nodes = image_nodes_of(alloc, terms, term.nodes())?;
    Ok(built(nodes))
}

/// What the terms make of a literal. The only error is want of memory.
pub fn applied_literal_of(
    alloc: Global,
    terms: &[FoTerm],
    literal: &FoLit,
) -> Result<FoLit, AllocError>
    ensures { IfOk result (λ l. l ≡ applied_literal (images (as_terms terms.now)) literal.now) }
{
    let left = applied(alloc, terms, &literal.left)?;
    let right = applied(alloc, terms, &literal.right)?;
    Ok(FoLit {
        pos: literal.pos,
        left,
        right,
    })
}

/// What the terms make of literals. The only error is want of memory.
pub fn applied_literals(
    alloc: Global,
    terms: &[FoTerm],
    literals: &[FoLit],
) -> Result<Items<FoLit>, AllocError>
    ensures { IfOk result (λ ls. ls ≡ map (applied_literal (images (as_terms terms.now))) literals.now) }
{
    let mut list = Items::new(alloc);
    for literal in literals {
        list.push(applied_literal_of(alloc, terms, literal)?)?;
    }
    Ok(list)
}
