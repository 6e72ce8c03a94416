//! Tests.

use crate::index::FoIndex;
use fo_terms::term::{FoNode, FoTerm};
use std::alloc::Global;
use std::test::Fail;

const V0: FoNode = FoNode::Var(0);

const V1: FoNode = FoNode::Var(1);

const F: FoNode = FoNode::Sym(0, 1);

const C: FoNode = FoNode::Sym(1, 0);

fn term(alloc: Global, nodes: &[FoNode]) -> Result<FoTerm, Fail> {
    let term = FoTerm::new(nodes.to_vec(alloc)?).ok_or("no term")?;
    Ok(term)
}

fn add(index: &mut FoIndex, alloc: Global, nodes: &[FoNode], number: u32) -> Result<(), Fail> {
    let stored = term(alloc, nodes)?;
    index.add(alloc, &stored, number)?;
    Ok(())
}

fn met(alloc: Global, nodes: &[FoNode]) -> Result<Vec<u32>, Fail> {
    let mut index = FoIndex::new(alloc);
    add(&mut index, alloc, &[F, V0], 7)?;
    add(&mut index, alloc, &[C], 5)?;
    add(&mut index, alloc, &[V0], 9)?;
    let asked = term(alloc, nodes)?;
    let found = index.meet(alloc, &asked)?;
    Ok(found)
}

#[test]
fn terms_that_unify_are_met(rt: HostRuntime) -> Result<(), Fail> {
    assert_eq!(rt; met(rt.alloc(), &[F, C])?.as_slice(), [7, 9].as_slice());
    assert_eq!(rt; met(rt.alloc(), &[C])?.as_slice(), [5, 9].as_slice());
    assert_eq!(rt; met(rt.alloc(), &[V1])?.as_slice(), [7, 5, 9].as_slice());
    assert_eq!(rt; met(rt.alloc(), &[F, F, V0])?.as_slice(), [].as_slice());
    Ok(())
}
