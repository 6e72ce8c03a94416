//! Tests.

use crate::term::{FoNode, FoTerm};
use crate::unify::unify;
use std::alloc::Global;
use std::test::Fail;

fn term(alloc: Global, nodes: &[FoNode]) -> Result<FoTerm, Fail> {
    let term = FoTerm::new(nodes.to_vec(alloc)?).ok_or("no term")?;
    Ok(term)
}

const V0: FoNode = FoNode::Var(0);

const V1: FoNode = FoNode::Var(1);

const F: FoNode = FoNode::Sym(0, 1);

const G: FoNode = FoNode::Sym(1, 2);

const C: FoNode = FoNode::Sym(2, 0);

#[test]
fn nodes_that_are_no_term(rt: HostRuntime) -> Result<(), Fail> {
    assert!(rt; FoTerm::new([].to_vec(rt.alloc())?).is_none());
    assert!(rt; FoTerm::new([F].to_vec(rt.alloc())?).is_none());
    assert!(rt; FoTerm::new([C, C].to_vec(rt.alloc())?).is_none());
    assert!(rt; FoTerm::new([G, C, V0].to_vec(rt.alloc())?).is_some());
    Ok(())
}

#[test]
fn a_variable_is_replaced_by_a_term(rt: HostRuntime) -> Result<(), Fail> {
    let first = term(rt.alloc(), &[F, V0])?;
    let second = term(rt.alloc(), &[F, F, V1])?;
    let found = unify(rt.alloc(), &first, &second)?.ok_or("no unifier")?;
    let pairs = found.pairs.as_slice();
    assert_eq!(rt; pairs.len(), 1);
    assert_eq!(rt; pairs[0].0, 0);
    assert_eq!(rt; pairs[0].1.nodes(), [F, V1].as_slice());
    Ok(())
}

#[test]
fn a_variable_in_its_own_term(rt: HostRuntime) -> Result<(), Fail> {
    let first = term(rt.alloc(), &[V0])?;
    let second = term(rt.alloc(), &[F, V0])?;
    assert!(rt; unify(rt.alloc(), &first, &second)?.is_none());
    Ok(())
}

#[test]
fn bindings_are_applied_to_one_another(rt: HostRuntime) -> Result<(), Fail> {
    let first = term(rt.alloc(), &[G, V0, V1])?;
    let second = term(rt.alloc(), &[G, F, V1, C])?;
    let found = unify(rt.alloc(), &first, &second)?.ok_or("no unifier")?;
    let pairs = found.pairs.as_slice();
    assert_eq!(rt; pairs.len(), 2);
    assert_eq!(rt; pairs[0].1.nodes(), [F, C].as_slice());
    assert_eq!(rt; pairs[1].1.nodes(), [C].as_slice());
    Ok(())
}

#[test]
fn different_symbols(rt: HostRuntime) -> Result<(), Fail> {
    let first = term(rt.alloc(), &[F, V0])?;
    let second = term(rt.alloc(), &[C])?;
    assert!(rt; unify(rt.alloc(), &first, &second)?.is_none());
    Ok(())
}
