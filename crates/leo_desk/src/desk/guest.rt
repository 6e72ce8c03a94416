//! What a guest calls.
ghost use Rattle.std.specs.Prelude.{◌≡◌, Some, None};
ghost use Rattle.leo_desk.specs.Seats.{IsGuestOf, guest_number, guest_left, guest_taken, SameGuest, GuestMayPut};

use super::Desk;
use crate::parted::Parted;
use crate::seats::GuestSeat;
use crate::trace::Trace;
use std::sync::Wait;

impl<B: Parted> Desk<B> {
    /// Waits for the guest's turn and takes the book, whose part of this guest is as the guest left it.
    pub fn guest_take<R: Wait>(&self, rt: &R, seat: &mut GuestSeat<B>) -> B
        requires desk { IsGuestOf self.now seat.old }
        requires free { guest_taken seat.old ≡ None }
        ensures seat { SameGuest seat.old seat.new × (guest_left seat.new ≡ guest_left seat.old) × (guest_taken seat.new ≡ Some result) }
        ensures settled { B.settled result }
        ensures guest_part { B.guest_part (guest_number seat.old) result ≡ B.guest_part (guest_number seat.old) (guest_left seat.old) }
    {
        self.take(rt, &mut seat.place)
    }

    /// Puts the book back. All parts but the guest's own must be as they were at the take.
    pub fn guest_put(&self, seat: &mut GuestSeat<B>, book: B)
        requires desk { IsGuestOf self.now seat.old }
        requires settled { B.settled book }
        requires kept { GuestMayPut B.owner_part B.guest_part seat.old book }
        ensures { SameGuest seat.old seat.new × (guest_left seat.new ≡ book) × (guest_taken seat.new ≡ None) }
    {
        let left = Trace::of(&book);
        self.put(&mut seat.place, book);
        seat.left = left;
    }
}
