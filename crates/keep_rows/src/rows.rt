//! The rows. A row has four cells: what it says, the limit on weights, the kept clauses, and the clause that was found.

/// What the first kept clause says of the clause.
pub(crate) const KEPT: &[&str] = &[
    "p a beside p X; ; 1 +r0@T; . +ra@T",
    "p X beside p X; ; 1 +r0@T; 1 +r0@T",
    "p a is F beside p X is T; ; 1 +r0@T; . +ra@F",
    "p X beside p a; ; . +ra@T; 1 +r0@T",
    "p a or p b beside p X; ; 1 +r0@T; . +ra@T +rb@T",
    "p X or p Y beside its factor; ; 11 +r0@T +r1@T; 1 +r0@T",
    "the same literals in another order; ; . +ra@T +rb@T; . +rb@T +ra@T",
    "the same with another variable number; ; 1 +r0@T; 11 +r1@T",
    "nothing beside nothing; ; .; .",
    "anything beside nothing; ; .; . +ra@T",
    "nothing beside anything; ; 1 +r0@T; .",
];

/// Clauses that always hold.
pub(crate) const TAUTOLOGIES: &[&str] = &[
    "a = a; ; ; . +aa",
    "a != a; ; ; . -aa",
    "a = b or a != b; ; ; . +ab -ab",
    "a = b or b != a; ; ; . +ab -ba",
    "b != a or a = b; ; ; . -ba +ab",
    "p = T or p = F; ; ; . +pT +pF",
    "p = F or p = T; ; ; . +pF +pT",
    "p = T or F = p; ; ; . +pT +Fp",
    "p = T or q = F; ; ; . +pT +qF",
    "p != T or p != F; ; ; . -pT -pF",
    "X = X; ; ; 1 +00",
    "a tautology comes before a copy; ; . +aa; . +aa",
];

/// Limits on weights.
pub(crate) const WEIGHTS: &[&str] = &[
    "p a weighs three; 3; ; . +ra@T",
    "p a weighs more than two; 2; ; . +ra@T",
    "the empty clause weighs nothing; 0; ; .",
    "a tautology comes before heavy; 0; ; . +aa",
    "heavy comes before a copy; 2; . +ra@T; . +ra@T",
    "without a limit; ; ; . +ra@T",
];

/// The least of several clauses.
pub(crate) const LEAST: &[&str] = &[
    "the first of two that subsume; ; . +pT/1 +r0@T/1 +r0@T; . +ra@T",
    "the first of two copies; ; . +pT/. +ra@T/. +ra@T; . +ra@T",
    "a copy comes before one that subsumes; ; 1 +r0@T/. +ra@T; . +ra@T",
];

/// Terms for variables.
pub(crate) const MATCHES: &[&str] = &[
    "f X = X beside f a = a; ; 1 +f0@0; . +fa@a",
    "f X = X beside f a = b; ; 1 +f0@0; . +fa@b",
    "f X = a beside a = f b; ; 1 +f0@a; . +afb@",
    "f X != a beside f b = a; ; 1 -f0@a; . +fb@a",
    "X = a beside p = T; ; 1 +0a; . +pT",
    "X is a truth value, beside p = T; ; 0 +0T; . +pT",
    "f X = a or g X = b beside two terms for X; ; 1 +f0@a +g0@b; . +fa@a +gb@b",
    "f X = a or g X = b beside one term for X; ; 1 +f0@a +g0@b; . +fb@a +gb@b",
    "f X = b or g X = b, where the first term leads nowhere; ; 1 +f0@b +g0@b; . +fa@b +fk@b +gk@b",
    "three literals; ; 1 +f0@a +g0@b -0k; . -ak +ga@b +fa@a",
    "four literals; ; 1 +f0@a +g0@b -0k +0h; . -ak +ga@b +fa@a +ah",
    "no literals; ; .; . +pT",
    "^x. X beside ^x. a; ; 1 +0\\f; . +a\\f",
    "^x. X beside ^x. x; ; 1 +0\\f; . +x\\f",
    "^x. f x beside ^x. f x, where a variable stands elsewhere; ; 1 +fx@\\g +0a; . +fx@\\g +ba",
    "X = f beside ^x. a = f; ; 2 +0f; . +a\\f",
    "X = f beside g = f; ; 2 +0f; . +gf",
    "X = f beside Y = f; ; 2 +0f; 2 +0f +pT",
    "X a = b beside Y a = b; ; 2 +0a@b; 2 +0a@b +pT",
    "X a = b beside f a = b; ; 2 +0a@b; . +fa@b",
    "X a != Y a beside Z a != Z a; ; 22 -0a@1a@; 2 -0a@0a@",
    "X = f or Y = g beside Z = f or Z = g; ; 22 +0f +1g; 2 +0f +0g +pT",
    "~X beside ~p; ; 0 +0~T; . +p~T",
    "X | Y beside p & q; ; 00 +01|T; . +pq&T",
    "X = Y, as a formula, beside a = b; ; 11 +01=T; . +ab=T",
    "! r beside ? r; ; 1 +r!T +0a; . +r?T +ba",
];

/// Numbers of literals.
pub(crate) const ROOM: &[&str] = &[
    "sixty-four literals; ; ; . +pT +pT +pT +pT +pT +pT +pT +pT +pT +pT +pT +pT +pT +pT +pT +pT +pT +pT +pT +pT +pT +pT +pT +pT +pT +pT +pT +pT +pT +pT +pT +pT +pT +pT +pT +pT +pT +pT +pT +pT +pT +pT +pT +pT +pT +pT +pT +pT +pT +pT +pT +pT +pT +pT +pT +pT +pT +pT +pT +pT +pT +pT +pT +pT",
    "sixty-five literals; ; ; . +pT +pT +pT +pT +pT +pT +pT +pT +pT +pT +pT +pT +pT +pT +pT +pT +pT +pT +pT +pT +pT +pT +pT +pT +pT +pT +pT +pT +pT +pT +pT +pT +pT +pT +pT +pT +pT +pT +pT +pT +pT +pT +pT +pT +pT +pT +pT +pT +pT +pT +pT +pT +pT +pT +pT +pT +pT +pT +pT +pT +pT +pT +pT +pT +pT",
    "a tautology comes before room; ; ; . +aa +pT +pT +pT +pT +pT +pT +pT +pT +pT +pT +pT +pT +pT +pT +pT +pT +pT +pT +pT +pT +pT +pT +pT +pT +pT +pT +pT +pT +pT +pT +pT +pT +pT +pT +pT +pT +pT +pT +pT +pT +pT +pT +pT +pT +pT +pT +pT +pT +pT +pT +pT +pT +pT +pT +pT +pT +pT +pT +pT +pT +pT +pT +pT +pT +pT",
];
