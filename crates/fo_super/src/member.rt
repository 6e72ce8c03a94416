//! A member of a turn.

use fo_text::answer::FoSide;
use sqlite_items::Items;

/// A place at which a rule may apply. Clauses and literals go by number, from 0.
#[derive(Drop)]
pub enum FoMember {
    /// Equality resolution on a literal of a clause.
    Resolve {
        clause: u32,
        literal: u32,
    },
    /// Factoring of two literals of a clause, at a side of each.
    Factor {
        clause: u32,
        first: u32,
        first_side: FoSide,
        second: u32,
        second_side: FoSide,
    },
    /// Superposition from a side of a literal of one clause to the path in a side of a literal of
    /// another. A path is the numbers of arguments, from the whole side on.
    Superpose {
        from: u32,
        literal: u32,
        side: FoSide,
        into: u32,
        place: u32,
        place_side: FoSide,
        path: Items<u32>,
    },
}
