//! What the owner calls.
ghost use Rattle.std.specs.Prelude.{◌≡◌, ◌≢◌, ℕ, ◌<◌, Some, None, IfOk, IsSome};
ghost use Rattle.leo_desk.specs.declared.board.Known.TheVariants.{Never, New, In};
ghost use Rattle.leo_desk.specs.Rule.{IsHome, aged};
ghost use Rattle.leo_desk.specs.Seats.{IsOwnerOf, owner_left, owner_taken, known, SameOwner, OwnerMayPut, IsGuestOf, guest_number, guest_left, guest_taken};

use super::Desk;
use crate::board::{Board, Spot};
use crate::parted::Parted;
use crate::seats::{GuestSeat, OwnerSeat};
use crate::trace::Trace;
use std::alloc::{AllocError, Global};
use std::sync::Wait;

impl<B: Parted> Desk<B> {
    /// A desk with the book on it, and the owner's seat. Where there is no memory, the book is dropped.
    pub fn new(alloc: Global, book: B) -> Result<(Desk<B>, OwnerSeat<B>), AllocError>
        requires { B.settled book }
        ensures { IfOk result (λ t. IsOwnerOf t.0 t.1 × (owner_left t.1 ≡ book) × (owner_taken t.1 ≡ None) × ((k : ℕ) → known t.1 k ≡ Never)) }
    {
        let left = Trace::of(&book);
        let mut slots = Vec::new(alloc);
        slots.push(Spot::Book(book))?;
        let Ok((board, place)) = Board::new(alloc, &[0, 0], slots, &left) else {
            return Err(AllocError);
        };
        Ok((Desk { board }, OwnerSeat { place, left }))
    }

    /// Waits for the owner's turn and takes the book. The owner's part is as the owner left it, and the part
    /// of each guest that was brought in is as that guest left it.
    pub fn owner_take<R: Wait>(&self, rt: &R, seat: &mut OwnerSeat<B>) -> B
        requires desk { IsOwnerOf self.now seat.old }
        requires free { owner_taken seat.old ≡ None }
        ensures seat { SameOwner seat.old seat.new × (owner_left seat.new ≡ owner_left seat.old) × (owner_taken seat.new ≡ Some result) }
        ensures known { (k : ℕ) → known seat.new k ≡ known seat.old k }
        ensures settled { B.settled result }
        ensures owner_part { B.owner_part result ≡ B.owner_part (owner_left seat.old) }
        ensures guests_in { (k : ℕ) (book : B) → known seat.old k ≡ In book → B.guest_part k result ≡ B.guest_part k book }
    {
        self.take(rt, &mut seat.place)
    }

    /// Puts the book back. Each guest's part must be as it was at the take, or, where the guest was put out
    /// since, as that guest has it.
    pub fn owner_put(&self, seat: &mut OwnerSeat<B>, book: B)
        requires desk { IsOwnerOf self.now seat.old }
        requires settled { B.settled book }
        requires kept { OwnerMayPut B.guest_part seat.old book }
        ensures seat { SameOwner seat.old seat.new × (owner_left seat.new ≡ book) × (owner_taken seat.new ≡ None) }
        ensures known { (k : ℕ) → known seat.new k ≡ aged (known seat.old k) }
    {
        let left = Trace::of(&book);
        self.put(&mut seat.place, book);
        seat.left = left;
    }

    /// A seat for a guest number that was never out. The guest's part is that of the book in hand, and
    /// stays so until the guest has taken a turn.
    pub fn seat_out(&self, seat: &mut OwnerSeat<B>, number: u32, book: &B) -> GuestSeat<B>
        requires desk { IsOwnerOf self.now seat.old }
        requires taken { IsSome (owner_taken seat.old) }
        requires number { (number < 256) × (known seat.old number ≡ Never) }
        ensures seat { SameOwner seat.old seat.new × (owner_left seat.new ≡ owner_left seat.old) × (owner_taken seat.new ≡ owner_taken seat.old) }
        ensures known { (known seat.new number ≡ New book.now) × ((k : ℕ) → k ≢ number → known seat.new k ≡ known seat.old k) }
        ensures guest { IsGuestOf self.now result × (guest_number result ≡ number) × (guest_left result ≡ book.now) × (guest_taken result ≡ None) }
    {
        let place = self.put_out(&mut seat.place, number, book);
        GuestSeat {
            place,
            number,
            left: Trace::of(book),
        }
    }

    /// Takes a guest's seat back. From now on the owner knows that guest's part as the guest left it.
    pub fn seat_in(&self, seat: &mut OwnerSeat<B>, guest: GuestSeat<B>)
        requires desk { IsOwnerOf self.now seat.old × IsGuestOf self.now guest }
        requires free { (owner_taken seat.old ≡ None) × (guest_taken guest ≡ None) }
        ensures seat { SameOwner seat.old seat.new × (owner_left seat.new ≡ owner_left seat.old) × (owner_taken seat.new ≡ None) }
        ensures known { (known seat.new (guest_number guest) ≡ In (guest_left guest)) × ((k : ℕ) → k ≢ guest_number guest → known seat.new k ≡ known seat.old k) }
    {
        let GuestSeat {
            place,
            number: _,
            left: _,
        } = guest;
        self.bring_in(&mut seat.place, place);
    }

    /// The book, once every guest is in: with the owner's part as left and each guest's as brought in.
    pub fn close(self, seat: OwnerSeat<B>) -> B
        requires desk { IsOwnerOf self seat }
        requires free { owner_taken seat ≡ None }
        requires guests { (k : ℕ) → IsHome (known seat k) }
        ensures settled { B.settled result }
        ensures owner_part { B.owner_part result ≡ B.owner_part (owner_left seat) }
        ensures guests_in { (k : ℕ) (book : B) → known seat k ≡ In book → B.guest_part k result ≡ B.guest_part k book }
    {
        let Desk { board } = self;
        let OwnerSeat { place, left: _ } = seat;
        let mut closed = board.close_with(place);
        let spot = closed.take(0);
        closed.free();
        match spot {
            Spot::Book(book) => book,
            _ => unreachable!(),
        }
    }
}
