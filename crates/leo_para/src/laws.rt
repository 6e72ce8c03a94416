//! The laws, each a clause of a function that does nothing.

ghost use Rattle.leo_para.specs.Laws.{DueMembersAddNoBase, DueMembersAddNoSymbol, DueMembersAreAccepted};

/// The step of each paramodulation that is due is accepted after the lines of both clauses, and has no symbol and no base
/// type that is in neither of them.
pub fn due_laws()
    ensures accepted { DueMembersAreAccepted }
    ensures symbols { DueMembersAddNoSymbol }
    ensures bases { DueMembersAddNoBase }
{}
