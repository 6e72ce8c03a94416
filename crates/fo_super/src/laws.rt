//! The laws, each a clause of a function that does nothing.

ghost use Rattle.fo_super.specs.Replaying.{MembersAreUnique, MembersReplay, MembersSort};
ghost use Rattle.fo_super.specs.Unique.{TurnsAreUnique};
ghost use Rattle.fo_super.specs.Laws.{ConclusionsReplay, InstancesReplay, NumbersByOccurrence, OutcomesAreUnique, RenumberedUnifiersAreGeneral, ResolutionsAreUnique};

/// A clause has one outcome.
pub fn outcome_laws()
    ensures { OutcomesAreUnique }
{}

/// Variables that are renumbered by the names that are met, each once, are numbered by first occurrence,
/// and a most general unifier stays one once its variables are renumbered.
pub fn numbering_laws()
    ensures occurrence { NumbersByOccurrence }
    ensures general { RenumberedUnifiersAreGeneral }
{}

/// A clause whose literals are sorted is resolved on a literal in one way. The lines of a resolution
/// replay: that of the instance over any clauses in which the clause stands, and that of the conclusion
/// over any in which the instance stands.
pub fn resolution_laws()
    ensures unique { ResolutionsAreUnique }
    ensures instances { InstancesReplay }
    ensures conclusions { ConclusionsReplay }
{}

/// A member that is due has one conclusion. Its lines replay, one after the other, behind any clauses
/// among which those that it names stand; the last two give the instance and the conclusion, of which
/// both sides of each literal have one sort.
pub fn member_laws()
    ensures unique { MembersAreUnique }
    ensures replay { MembersReplay }
    ensures sorted { MembersSort }
{}

/// A turn has one result: from a search to which turns on a problem lead, it leads to one search.
pub fn turn_laws()
    ensures { TurnsAreUnique }
{}
