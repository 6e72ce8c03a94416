//! Laws of runs, each the contract of a function that does nothing.

ghost use Rattle.leo_core.specs.Laws.{OneIsOwed, RunsAreCounted, EndsComeLast, EndsAreEntered, EndingsAreRight, LoadedLinesAreNameable};

/// Wherever a run stands, exactly one thing is owed, or it has ended and nothing is.
pub fn owing_law()
    ensures { OneIsOwed }
{}

/// A run has an event for each turn and one for its end, and no more turns than its limit. Its end comes last and once, and
/// says how it stands: won where the empty clause is kept, else at the limit, or else with no passive clause.
pub fn run_laws()
    ensures counted { RunsAreCounted }
    ensures last { EndsComeLast }
    ensures entered { EndsAreEntered }
    ensures endings { EndingsAreRight }
{}

/// Lines that are from the hypotheses of a problem are nameable, where the problem says what its files say or the generated
/// text: each base type in a line is `$o`, `$i` or one of an atom, and each symbol in it is one of an atom, or one that this
/// line or an earlier one abbreviates. Such are the lines of a derivation from a problem that was loaded.
pub fn naming_law()
    ensures { LoadedLinesAreNameable }
{}
