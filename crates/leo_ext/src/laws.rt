//! The laws, each a clause of a function that does nothing.

ghost use Rattle.leo_ext.specs.Laws.{UnaryChoicesAreFromClause, UnaryMembersAreAccepted, UnaryMembersAreFromClause, UnaryMembersHaveLines, UnaryPairsAreNegative};

/// The lines of each member, of which there is at least one, are accepted behind those of the choice symbols and of the
/// clause, and its literals that are to be solved are negative ones of the last line's clause.
pub fn unary_laws()
    ensures accepted { UnaryMembersAreAccepted }
    ensures lines { UnaryMembersHaveLines }
    ensures pairs { UnaryPairsAreNegative }
{}

/// Each base type in the lines of a member is `$o` or stands in the clause, and each symbol in them stands there or is a
/// choice symbol of the list as the call leaves it. Each base type in the term of a choice symbol that is new is `$o` or
/// stands in the clause, and each symbol in that term stands there. The contract of `unary` says which lines and which
/// choice symbols these are.
pub fn unary_members_are_from_clause()
    ensures lines { UnaryMembersAreFromClause }
    ensures choices { UnaryChoicesAreFromClause }
{}
