//! The seats at a desk.
ghost use Rattle.std.specs.Prelude.{◌≡◌, ◌<◌};
ghost use Rattle.leo_desk.specs.Place.{OwnerSits, GuestSits};

use crate::board::Place;
use crate::trace::Trace;

/// The owner's seat.
///
/// Clauses see the book as the owner left it (`owner_left`), the book that it has taken (`owner_taken`),
/// and what it knows of each guest number (`known`).
#[derive(Drop)]
pub struct OwnerSeat<B> {
    pub(crate) place: Place<B>,
    pub(crate) left: Trace<B>,
    ghost sits: { OwnerSits place left.value },
}

/// The seat of one guest.
///
/// Clauses see its number (`guest_number`), the book as that guest left it or as it was when the guest was
/// put out (`guest_left`), and the book that it has taken (`guest_taken`).
#[derive(Drop)]
pub struct GuestSeat<B> {
    pub(crate) place: Place<B>,
    pub(crate) number: u32,
    pub(crate) left: Trace<B>,
    ghost sits: { GuestSits place number left.value },
}

impl<B> GuestSeat<B> {
    ghost use Rattle.leo_desk.specs.Seats.{guest_number};

    /// The guest's number, below 256.
    pub fn number(&self) -> u32
        ensures { (result ≡ guest_number self.now) × (result < 256) }
    {
        self.number
    }
}
