ghost use Rattle.std.specs.Prelude.{◌≡◌, [], ◌∷◌, IfOk};

use crate::Slots;
use std::alloc::{AllocError, Global};
use std::test::Fail;

// Two lists of four slots, of which 3 and 1 were put in the first, and 3 was taken out again.
fn one_of_two(alloc: Global) -> Result<Slots, AllocError>
    ensures { IfOk result (λ s. s ≡ record { slots = 4; lists = (1 ∷ []) ∷ [] ∷ [] }) }
{
    let mut slots = Slots::with(alloc, 2, 4)?;
    slots.push_back(0, 3);
    slots.push_back(0, 1);
    slots.unlink(3);
    Ok(slots)
}

#[test]
fn a_slot_is_unlinked(rt: HostRuntime) -> Result<(), Fail> {
    let slots = one_of_two(rt.alloc())?;
    assert_eq!(rt; slots.front(0), Some(1));
    assert_eq!(rt; slots.next(1), None);
    assert_eq!(rt; slots.front(1), None);
    Ok(())
}

#[test]
fn lists_stay_where_slots_are_added(rt: HostRuntime) -> Result<(), Fail> {
    let mut slots = one_of_two(rt.alloc())?;
    slots.grow(3, 8)?;
    assert_eq!(rt; slots.front(0), Some(1));
    assert_eq!(rt; slots.next(1), None);
    assert_eq!(rt; slots.front(2), None);
    Ok(())
}

#[test]
fn slots_stand_in_the_order_in_which_they_were_put(rt: HostRuntime) -> Result<(), Fail> {
    let mut slots = Slots::with(rt.alloc(), 1, 3)?;
    slots.push_back(0, 2);
    slots.push_back(0, 0);
    slots.push_back(0, 1);
    assert_eq!(rt; slots.front(0), Some(2));
    assert_eq!(rt; slots.next(2), Some(0));
    assert_eq!(rt; slots.next(0), Some(1));
    assert_eq!(rt; slots.next(1), None);
    Ok(())
}
