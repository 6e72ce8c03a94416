use crate::Passive;
use std::alloc::{AllocError, Global};
use std::test::Fail;

// The clauses 0, 1 and 2 with these weights.
fn with_weights(alloc: Global, first: u64, second: u64, third: u64) -> Result<Passive, AllocError> {
    let mut passive = Passive::new(alloc)?;
    passive.add(0, first)?;
    passive.add(1, second)?;
    passive.add(2, third)?;
    Ok(passive)
}

#[test]
fn the_lightest_and_the_oldest_are_taken(rt: HostRuntime) -> Result<(), Fail> {
    let mut passive = with_weights(rt.alloc(), 5, 2, 2)?;
    assert_eq!(rt; passive.peek(false), Some(1));
    assert_eq!(rt; passive.take(false), Some(1));
    assert_eq!(rt; passive.take(true), Some(0));
    assert_eq!(rt; passive.take(false), Some(2));
    assert_eq!(rt; passive.take(false), None);
    Ok(())
}

#[test]
fn heavy_clauses_are_taken_by_weight(rt: HostRuntime) -> Result<(), Fail> {
    let mut passive = with_weights(rt.alloc(), 900, 700, 700)?;
    assert_eq!(rt; passive.take(false), Some(1));
    assert_eq!(rt; passive.take(false), Some(2));
    assert_eq!(rt; passive.take(false), Some(0));
    Ok(())
}
