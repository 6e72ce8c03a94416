//! The laws, each a clause of a function that does nothing.

ghost use Rattle.leo_simulation.specs.Laws.{BankLinesAreProper, LinesAreDerivable, RefutationsDeriveFalsity};

/// What the kernel accepts is derivable in Q0 with choice.
///
/// Where each line is accepted after those before it, what it says is derivable from the hypotheses, the symbols that lines
/// abbreviate unfolded; so where one of the lines has no literals, falsity is.
///
/// Proved by a derivation in Q0 for each of the kernel's fourteen rules. A symbol that a line abbreviates is a constant with
/// a definition first; then each definition gives way to its closed term, the last one first.
pub fn soundness_laws()
    ensures lines { LinesAreDerivable }
    ensures falsity { RefutationsDeriveFalsity }
{}

/// What the laws above ask of lines holds of all records of a bank.
pub fn bank_laws()
    ensures { BankLinesAreProper }
{}
