//! The terms that a substitution gives to the variables of a clause.

ghost use Rattle.std.specs.Prelude.{◌≡◌, IfOk};
ghost use Rattle.fo_terms.specs.Terms.{variable as a_variable};
ghost use Rattle.fo_terms.specs.Substitutions.{image};
ghost use Rattle.fo_replay.specs.Instances.{as_terms};
ghost use Rattle.fo_super.specs.Conclusions.{images_from};

use crate::numbering::built;
use fo_terms::term::{FoNode, FoTerm};
use sqlite_items::Items;
use std::alloc::{AllocError, Global};

/// The variable with a number.
fn variable(alloc: Global, number: u32) -> Result<FoTerm, AllocError>
    ensures { IfOk result (λ t. t ≡ a_variable number) }
{
    let mut nodes = Vec::new(alloc);
    nodes.push(FoNode::Var(number))?;
    Ok(built(nodes))
}

/// What pairs of variables with their terms make of a variable. The only error is want of memory.
pub fn image_of(alloc: Global, pairs: &[(u32, FoTerm)], number: u32) -> Result<FoTerm, AllocError>
    ensures { IfOk result (λ t. t ≡ image pairs.now number) }
{
    let mut rest = pairs;
    while let Some((first, others)) = rest.split_first() {
        if first.0 == number {
            let term = first.1.try_clone(alloc)?;
            return Ok(term);
        }
        rest = others;
    }
    let term = variable(alloc, number)?;
    Ok(term)
}

/// What they make of the first variables, so many, in order. The only error is want of memory.
pub fn images_of(
    alloc: Global,
    pairs: &[(u32, FoTerm)],
    count: u32,
) -> Result<Items<FoTerm>, AllocError>
    ensures { IfOk result (λ ts. as_terms ts ≡ images_from (image pairs.now) 0 count) }
{
    let mut list = Items::new(alloc);
    for number in 0..count {
        let term = image_of(alloc, pairs, number)?;
        list.push(term)?;
    }
    Ok(list)
}
