//! A ticket lock round a book: one owner and up to 256 numbered guests take turns at it, and each seat
//! knows its own part of the book as it left it.
//!
//! A turn reaches from a take to the put that follows it. The rule that the table under the desk keeps
//! between any two atomic steps is `Ruled` in `specs/Rule.antt`; the steps are six: a ticket is drawn, the
//! served number is looked at, the next ticket is served, a guest is announced, its seat is split off the
//! owner's, and it is joined to the owner's again. No clause says that a turn comes, in which order, or
//! how long a seat waits.
#![tactic(auto)]

mod board;
mod desk;
mod parted;
mod plays;
mod seats;
#[cfg(test)]
mod tests;
mod trace;

pub use board::{Known, Role, Spot, View};
pub use desk::Desk;
pub use parted::Parted;
pub use seats::{GuestSeat, OwnerSeat};
