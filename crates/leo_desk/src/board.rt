//! The table under the desk: word 0 is the next ticket, word 1 the ticket that is served, and slot 0 has the book while no seat has it.
use crate::parted::Parted;
use crate::trace::Trace;
use atomic_table::{Seat, Shared, Table, TableRule};
use std::alloc::Global;
use std::collections::LinkedList;

/// What lies in the slot. `Shown` is for the proofs alone: a step announces a book by it.
#[derive(Drop)]
pub enum Spot<B> {
    Empty,
    Book(B),
    Shown(Trace<B>),
}

/// Whose seat it is. A seat that was brought in is `Spent`.
pub enum Role {
    Owner,
    Guest(u64),
    Spent,
}

/// What the owner knows of one guest number. A guest that was put out since the owner took the book is `New`, with the book of that moment. One that was brought in left the book of its `In`.
pub enum Known<B> {
    Never,
    New(B),
    Out,
    In(B),
}

/// What a seat knows. No value of it is made: the ticket is a count that never wraps, and the list is one of 256.
pub struct View<B> {
    pub role: Role,
    pub left: Option<B>,
    pub ticket: Option<u64>,
    pub taken: Option<B>,
    pub guests: LinkedList<Known<B>, Global>,
    /// The guest that the next split puts out, and the book in hand.
    pub called: Option<(u64, B)>,
}

/// The rule of the desk, for the table.
pub struct Turns;

impl<B: Parted> TableRule<Spot<B>, View<B>, Trace<B>> for Turns {
    ghost use Rattle.leo_desk.specs.Rule.{Ruled, first_view};

    ghost holds = { λ _. Ruled B.owner_part B.guest_part B.settled };

    ghost first = { λ key. first_view key.value };
}

/// The table with its slot.
pub type Board<B> = Table<Spot<B>, View<B>, Trace<B>, Turns, Global>;

/// What all seats share of it.
pub type Top<B> = Shared<Spot<B>, View<B>, Trace<B>, Turns>;

/// A seat at the table.
pub type Place<B> = Seat<Spot<B>, View<B>>;
