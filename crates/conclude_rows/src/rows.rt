//! The rows. A row has four cells: what it says, the depth, the digits of the numbers of the constraints, and the clause.

/// Clauses without constraints.
pub(crate) const UNCONSTRAINED: &[&str] = &[
    "no constraint; 0; ; . +ab",
    "no constraint, in normal form; 0; ; . +fx@\\a@b",
    "functions in eta-long form; 0; ; . +fg",
    "a negative literal is no constraint by itself; 0; ; . -aa",
    "no literal; 0; ; .",
];

/// One solution.
pub(crate) const SOLVED: &[&str] = &[
    "a variable; 0; 0; 1 -0a +r0@T",
    "in the constraint's place; 0; 1; 1 +ab -0fa@ +r0@T",
    "a function, and the normal form of the instance; 0; 0; 2 -0x@\\fx@\\ +0a@b",
    "two constraints; 0; 01; 11 -0a -1b +m0@1@T",
    "a constraint that is not named; 0; 0; 1 -0a -0b",
    "the empty clause; 0; 0; 1 -0a",
];

/// No solution, or several in their order.
pub(crate) const COUNTED: &[&str] = &[
    "no solution; 0; 0; . -ab",
    "two constraints that do not agree; 0; 01; 1 -0a -0b",
    "two solutions at depth 1; 1; 0; 2 -0a@a +0b@b",
    "none of them at depth 0; 0; 0; 2 -0a@a +0b@b",
    "fresh variables; 1; 0; 3 -0a@pq& +0b@T",
    "an early constraint that needs a guess; 0; 01; 2 -0a@a -0x@\\x\\",
    "the same one, named second; 0; 10; 2 -0a@a -0x@\\x\\",
];

/// What is left of constraints that have a solution.
pub(crate) const RESIDUES: &[&str] = &[
    "nothing of equal sides; 0; 0; . -aa +ab",
    "formulas that differ; 0; 0; . -pq",
    "an argument; 0; 0; . -up@uq@",
    "two arguments, from left to right; 0; 0; . -vp@q@vq@p@",
    "nothing of an equal argument; 0; 0; . -vp@q@vp@p@",
    "an argument of an argument; 0; 0; . -uup@@uuq@@",
    "the property of a chosen thing; 0; 0; . -rx@\\ema@x@\\e",
    "connectives are not taken apart; 0; 0; . -pq&qp&",
    "two variables as heads; 0; 0; 22 -0a@1b@",
    "of two constraints, each in its place; 0; 02; . -up@uq@ +ab -vp@q@vq@q@",
];
