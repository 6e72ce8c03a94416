//! Tests.

use crate::order::{FoOrder, compare};
use fo_terms::term::{FoNode, FoTerm};
use std::alloc::Global;
use std::test::Fail;

const V0: FoNode = FoNode::Var(0);

const V1: FoNode = FoNode::Var(1);

const F: FoNode = FoNode::Sym(0, 1);

const G: FoNode = FoNode::Sym(1, 2);

const C: FoNode = FoNode::Sym(2, 0);

const D: FoNode = FoNode::Sym(3, 0);

fn order(alloc: Global, left: &[FoNode], right: &[FoNode]) -> Result<FoOrder, Fail> {
    let first = FoTerm::new(left.to_vec(alloc)?).ok_or("no term")?;
    let second = FoTerm::new(right.to_vec(alloc)?).ok_or("no term")?;
    Ok(compare(&first, &second))
}

#[test]
fn the_variables_allow_or_refuse(rt: HostRuntime) -> Result<(), Fail> {
    assert_eq!(rt; order(rt.alloc(), &[F, V0], &[V0])?, FoOrder::Greater);
    assert_eq!(rt; order(rt.alloc(), &[V0], &[F, V0])?, FoOrder::Less);
    assert_eq!(rt; order(rt.alloc(), &[V0], &[V1])?, FoOrder::Unordered);
    assert_eq!(rt; order(rt.alloc(), &[F, F, V0], &[V1])?, FoOrder::Unordered);
    assert_eq!(rt;
        order(rt.alloc(), &[G, C, C], &[F, F, V0])?,
        FoOrder::Unordered
    );
    Ok(())
}

#[test]
fn heads_decide_under_equal_weights(rt: HostRuntime) -> Result<(), Fail> {
    assert_eq!(rt; order(rt.alloc(), &[D], &[C])?, FoOrder::Greater);
    assert_eq!(rt; order(rt.alloc(), &[C], &[V0])?, FoOrder::Unordered);
    assert_eq!(rt;
        order(rt.alloc(), &[G, V0, C], &[F, F, V0])?,
        FoOrder::Greater
    );
    Ok(())
}

#[test]
fn the_first_differing_arguments_decide(rt: HostRuntime) -> Result<(), Fail> {
    assert_eq!(rt;
        order(rt.alloc(), &[G, C, V0], &[G, C, V0])?,
        FoOrder::Equal
    );
    assert_eq!(rt; order(rt.alloc(), &[G, C, D], &[G, D, C])?, FoOrder::Less);
    assert_eq!(rt;
        order(rt.alloc(), &[G, V0, V1], &[G, V1, V0])?,
        FoOrder::Unordered
    );
    assert_eq!(rt;
        order(rt.alloc(), &[G, C, G, D, C], &[G, C, G, C, D])?,
        FoOrder::Greater
    );
    Ok(())
}

#[test]
fn variables_with_large_numbers(rt: HostRuntime) -> Result<(), Fail> {
    let x = FoNode::Var(4_000_000_000);
    let y = FoNode::Var(64);
    assert_eq!(rt; order(rt.alloc(), &[F, x], &[x])?, FoOrder::Greater);
    assert_eq!(rt; order(rt.alloc(), &[F, x], &[y])?, FoOrder::Unordered);
    assert_eq!(rt;
        order(rt.alloc(), &[G, x, y], &[G, y, x])?,
        FoOrder::Unordered
    );
    assert_eq!(rt; order(rt.alloc(), &[F, x], &[G, x, y])?, FoOrder::Less);
    Ok(())
}

#[test]
fn a_symbol_with_two_counts_of_arguments(rt: HostRuntime) -> Result<(), Fail> {
    let both = FoNode::Sym(0, 2);
    assert_eq!(rt;
        order(rt.alloc(), &[F, F, D], &[both, C, C])?,
        FoOrder::Greater
    );
    assert_eq!(rt;
        order(rt.alloc(), &[F, F, V0], &[both, C, V0])?,
        FoOrder::Greater
    );
    assert_eq!(rt;
        order(rt.alloc(), &[both, C, V0], &[F, F, V0])?,
        FoOrder::Less
    );
    Ok(())
}
