//! The laws, each a clause of a function that does nothing.

ghost use Rattle.leo_keep.specs.Laws.{OutcomesAreUnique};

/// A clause has one outcome.
pub fn outcome_laws()
    ensures { OutcomesAreUnique }
{}
