use crate::{counted, counted_by};
use std::test::Fail;

#[test]
fn three_threads_lose_no_turn(rt: HostRuntime) -> Result<(), Fail> {
    assert_eq!(rt; counted(&rt, rt.alloc(), 2000)?, (2000, 2000, 2000));
    Ok(())
}

#[test]
fn eight_guests_lose_no_turn(rt: HostRuntime) -> Result<(), Fail> {
    let book = counted_by(&rt, rt.alloc(), 8, 10_000)?;
    assert_eq!(rt; book.guests.len(), 256);
    for k in 0..8usize {
        assert_eq!(rt; book.guests.get(k).copied(), Some(10_000));
    }
    Ok(())
}
