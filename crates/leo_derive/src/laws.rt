//! The laws, each a clause of a function that does nothing.

ghost use Rattle.leo_derive.specs.Laws.{PrunedLinesAreAccepted, MappedLinesAreAccepted, EmptyLinesStay};

/// Of accepted lines the pruned ones are accepted, and one of them is empty.
pub fn pruning_laws()
    ensures { PrunedLinesAreAccepted }
{}

/// Accepted lines are accepted with other numbers for their symbols, and an empty one stays empty.
pub fn symbol_laws()
    ensures accepted { MappedLinesAreAccepted }
    ensures empty { EmptyLinesStay }
{}
