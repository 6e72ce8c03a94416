//! The desk, and the turns that seats take at it.
ghost use Rattle.std.specs.Prelude.{◌≡◌};

use crate::board::Board;
use crate::parted::Parted;

mod guest;
mod owner;
mod steps;

/// A lock round a book. Seats have the book in the order of their tickets.
///
/// It is a condition of each call that its seats are of this desk (`IsOwnerOf`, `IsGuestOf`). A seat that
/// is dropped between its take and its put leaves the desk shut for ever. Only `new` takes memory.
#[derive(Drop)]
pub struct Desk<B: Parted> {
    pub(crate) board: Board<B>,
    ghost sized: { (board.shared.table_id.words ≡ 2) × (board.shared.table_id.slots ≡ 1) },
}
