//! Laws of the search, each as the contract of a function with an empty body.

ghost use Rattle.leo_unify.specs.Laws.{SolutionsAreFromPairs, SolutionsAreUnique};

/// A state has one list of first solutions, so that the contract of `solve` says which they are.
pub fn solutions_are_unique()
    ensures { SolutionsAreUnique }
{}

/// Each base type in the solutions of pairs is `$o` or stands in the pairs or in the types of their variables, and each symbol
/// stands in the pairs. The contract of `solve` says which solutions these are.
pub fn solutions_are_from_pairs()
    ensures { SolutionsAreFromPairs }
{}
