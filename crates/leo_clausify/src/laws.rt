//! The laws, each a clause of a function that does nothing.

ghost use Rattle.leo_clausify.specs.Laws.{SplitChoicesAreFrom, SplitLeavesAreFrom};

/// Each base type in the term of an item that a split puts at the end of the list is `$o` or stands in the clause or in an
/// earlier item, and each symbol stands there. So it is with the leaves, whose choice symbols are those of the list.
pub fn split_laws()
    ensures choices { SplitChoicesAreFrom }
    ensures leaves { SplitLeavesAreFrom }
{}
