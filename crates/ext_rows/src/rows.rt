//! The rows. A row has two cells: what it says, and clauses with `/` between them, whose members are asked for one after the
//! other.

/// Negative literals that are to be solved.
pub(crate) const RESOLVING: &[&str] = &[
    "a negative literal; . -ab",
    "a positive literal; . +ab",
    "each negative literal in its order; . -ab +pT -ba",
    "of truth values, and its two cases behind it; . -pq",
    "of functions, and their values behind it; . -fg",
    "no literal; .",
];

/// Two positive literals that become one.
pub(crate) const FACTORS: &[&str] = &[
    "two formulas of one value; . +ra@T +rb@T",
    "two formulas of two values; . +ra@T +rb@F",
    "heads that do not meet; . +pT +qT",
    "a formula and an equation of formulas; . +pT +pq",
    "a formula is not turned; . +TT +pT",
    "two equations; . +fa@b +fb@a",
    "the second one turned; . +ab +ba",
    "as it is, and then turned; . +aa +aa",
    "a variable and a symbol; 1 +0a +bk",
    "two variables do not meet; 11 +0a +1b",
    "equations of two types; . +ab +fg",
    "equations of formulas; . +pq +qp",
    "each two in their order; . +ra@T +rb@T +rk@T",
    "a negative one; . +ra@T -rb@T",
];

/// Equations of truth values.
pub(crate) const TRUTH_VALUES: &[&str] = &[
    "an equation of formulas; . +pq",
    "T on the left side; . +Tp",
    "a formula; . +pT",
    "in the literal's place; . +ab +pq -kh",
];

/// Equations of functions.
pub(crate) const FUNCTIONS: &[&str] = &[
    "an equation of functions; . +fg",
    "a fresh variable behind the others; 13 +fg",
    "of two arguments; . +mm",
    "one symbol for two literals; . -fg -fg",
    "turned, another symbol; . -fg -gf",
    "a symbol of an earlier clause; . -fg / . -fg",
    "an earlier symbol and a new one; . -fg / . -gf -fg",
    "the forms alone decide; . -fg / . -fx@\\g",
    "with the variables of the sides; 2 -0f",
    "variables in the order in which they come; 12 -10\\",
];

/// Variables at the heads of formulas.
pub(crate) const BINDINGS: &[&str] = &[
    "a variable alone; 0 +0T",
    "a formula that is false; 0 +0F",
    "an equation is no formula; 0 +0p",
    "an argument; 3 +0a@T",
    "arguments of one type; 4 +0a@b@T",
    "arguments of two types; 5 +0p@a@T",
    "an argument that is a function; 6 +0f@T",
    "other variables stay; 10 +1T +0a",
    "each literal; 0 +0T +0F",
    "eight arguments; F +0a@a@a@a@a@a@a@a@T",
    "nine arguments; G +0a@a@a@a@a@a@a@a@a@T",
];

/// Chosen things.
pub(crate) const CHOSEN: &[&str] = &[
    "a chosen thing; . +rre@T",
    "on both sides of an equation; . +rerx@\\e",
    "each place; . +mre@re@T",
    "inside a chosen thing; . +mre@ea",
    "through a lambda; . +cre\\@T",
    "inside a lambda; . +cfre@\\@T",
    "with a loose index; . +cmx@e\\@T",
    "a chosen function; . +ccex@\\@T",
    "a fresh variable behind the others; 1 +rm0@e@T",
];

/// All kinds at once.
pub(crate) const ORDER: &[&str] = &["all kinds in their order; 0 -rea +pq +fg +0T +ra@T"];
