//! The rows. A row has three cells: what it says, the clause of the equations, and the clause in which they are used.

/// Equations from left to right and from right to left, and the literals that stay.
pub(crate) const DIRECTIONS: &[&str] = &[
    "from left to right; . +ab; . +ra@T",
    "from right to left; . +ab; . +rb@T",
    "in both directions; . +ab; . +ma@b@T",
    "in both sides of an equation; . +ab; . +fa@b",
    "in a negative literal; . +ab; . -ra@T",
    "a negative equation; . -ab; . +ra@T",
    "other literals stay in their order; . +pT +ab +qF; . -kh +ra@T +pF",
    "from nothing; .; . +pT",
    "into nothing; . +pT; .",
];

/// Literals about truth values.
pub(crate) const FORMULAS: &[&str] = &[
    "a formula is T; . +pT; . +p~q",
    "a formula is F; . +pF; . +p~q",
    "a formula from its left side alone; . +pT; . +T~q",
    "in the left side of a formula alone; . +Tq; . +pT",
    "an equation of formulas in both directions; . +pq; . +p~q",
    "a formula into itself; . +pT; . +pT",
];

/// Places in terms.
pub(crate) const PLACES: &[&str] = &[
    "in an argument of a logical constant; . +ab; . +ra@~T",
    "in all arguments from left to right; . +pT; . +pq&p|T",
    "under a lambda; . +ab; . +ra@\\!T",
    "a lambda, through its head; . +rx@\\mk@x@\\; . +rx@\\!T",
    "a function of another type; . +fg; . +fa@b",
    "a logical constant of one type; . +ab=T; . +kh=T",
    "a logical constant of another type; . +ab=T; . +pq=T",
    "a chosen thing; . +rx@\\ea; . +rrx@\\e@T",
    "an index as the head; . +x\\f; . +x\\g",
];

/// Variables, those of the second clause behind those of the first.
pub(crate) const VARIABLES: &[&str] = &[
    "the variables of both; 1 +f0@a; 1 +f0@b",
    "a clause with itself; 1 +f0@a; 1 +f0@a",
    "two variables; 1 +00; 1 +00",
    "variables at whole sides; 1 +0a; 1 +0b",
    "a variable at the whole sides of its type; 1 +0a; . +fb@k +pT",
    "a variable inside; 1 +0a; . +rb@T",
    "a variable as what is looked for inside; . +ab; 1 +r0@T",
    "a function as the head; 2 +0a@b; . +fk@h",
    "a property as the head; 3 +0a@T; . +rb@F",
    "a function and an index; 2 +0f; . +x\\g",
    "several variables; 121 +f0@2 -1f; 31 +rf1@@T +01@F",
];
