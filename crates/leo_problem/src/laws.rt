//! Laws of problems, each the contract of a function that does nothing.

ghost use Rattle.leo_problem.specs.Laws.{OneProblem};

use leo_lex::tokens_are_unique;

/// Where the contents of all files that may be asked for are told, they say one thing at most, a
/// theory or a refusal, unless one of them cannot be read. So does a generated text, for which no file
/// is asked for.
pub fn problems_are_unique()
    ensures { OneProblem }
{
    tokens_are_unique();
}
