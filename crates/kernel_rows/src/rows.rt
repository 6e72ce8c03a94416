//! The rows: what is asked of each rule. A row has four cells: what it says, the digits of its variables' types, its literals,
//! and its rule with its numbers as words.

/// The hypotheses of each board.
pub(crate) const HYPOTHESES: &[&str] = &["p", "p~"];

/// The lines that the rows name, from number 0 on.
pub(crate) const LINES: &[&str] = &[
    "0: p = T; ; +pT; refl",
    "1: ~p = T; ; +p~T; refl",
    "2: T = F, p != p; ; +TF -pp; refl",
    "3: T = F; ; +TF; refl",
    "4: p = p, p != q; ; +pp -pq; refl",
    "5: p | q = T; ; +pq|T; refl",
    "6: p | q = F; ; +pq|F; refl",
    "7: a = b; ; +ab; refl",
    "8: f a = b; ; +fa@b; refl",
    "9: p = q; ; +pq; refl",
    "10: p != q; ; -pq; refl",
    "11: f = g; ; +fg; refl",
    "12: f != g; ; -fg; refl",
    "13: f a != f b; ; -fa@fb@; refl",
    "14: f X = a; 1; +f0@a; refl",
    "15: X = Y, X = a; 11; +01 +0a; refl",
    "16: ! r = T; ; +r!T; refl",
    "17: ! r = F; ; +r!F; refl",
    "18: ? r = T; ; +r?T; refl",
    "19: s = @r, for a chosen thing; ; +sre; abbreviate s",
    "20: ? (m X) = T; 1; +m0@?T; refl",
    "21: w = ^x. @(m x); ; +wmx@e\\; abbreviate w",
    "22: (^x. a) = f; ; +a\\f; refl",
    "23: k = @x. ~(r x); ; +krx@~\\e; abbreviate k",
    "24: n = @x. ~(f x = g x); ; +nfx@gx@=~\\e; abbreviate n",
    "25: (^x. x) a = b; ; +x\\a@b; refl",
    "26: ? (m X) = T, with another variable; 11; +m0@?T; refl",
    "27: (a = b) != (p = q); ; -ab=pq=; refl",
    "28: a = b, p = T; ; +ab +pT; refl",
    "29: a = b, a != b; ; +ab -ab; refl",
];

/// Hypotheses as clauses.
pub(crate) const ASSUMPTIONS: &[&str] = &[
    "axiom: p; ; +pT; axiom 0",
    "axiom: no third hypothesis; ; +pT; axiom 2",
    "axiom: two truth values that are things; ; +aT; axiom 0",
    "axiom: the other hypothesis; ; +pT; axiom 1",
];

/// Other forms with the same normal form.
pub(crate) const CONVERSIONS: &[&str] = &[
    "convert: (^x. x) a is a; ; +ab; convert 25",
    "convert: no such line; ; +ab; convert 99",
    "convert: a thing and a truth value; ; +ap; convert 25",
    "convert: a is not b; ; +bb; convert 25",
];

/// Terms for variables.
pub(crate) const INSTANCES: &[&str] = &[
    "inst: b for X; ; +fb@a; inst 14 b",
    "inst: another term; ; +fa@a; inst 14 b",
    "inst: no term; ; +fb@a; inst 14",
    "inst: a truth value; ; +fb@a; inst 14 p",
    "inst: no such line; ; +fb@a; inst 99 b",
];

/// Replacing equals.
pub(crate) const PARAMODULANTS: &[&str] = &[
    "para: a = b into f a; ; +fb@b -aa; para 7 0 8 0 1",
    "para: the variables are moved; 11; +aa -f0@f1@; para 14 0 14 0",
    "para: the variables are not moved; 11; +aa -f0@f0@; para 14 0 14 0",
    "para: not replaced; ; +fa@b -aa; para 7 0 8 0 1",
    "para: without the inequation; ; +fb@b; para 7 0 8 0 1",
    "para: by an inequation; ; +fb@b -fa@fa@; para 13 0 8 0",
    "para: into a function; ; +fb@b -aa; para 7 0 8 0 0",
    "para: under a lambda; ; +b\\f -aa; para 7 0 22 0 0",
    "para: a child that is not there; ; +fb@b -aa; para 7 0 8 0 2",
    "para: no second literal; ; +fb@b -aa; para 7 1 8 0 1",
    "para: no such line; ; +fb@b -aa; para 99 0 8 0 1",
];

/// The same literals, in another order and turned, and more.
pub(crate) const ARRANGEMENTS: &[&str] = &[
    "arrange: turned; ; -pp +FT; arrange 2",
    "arrange: one more; ; -pp +TF +pT; arrange 2",
    "arrange: no such line; ; +TF; arrange 99",
    "arrange: a thing and a truth value; ; -pp +TF +ap; arrange 2",
    "arrange: one is missing; ; -pp; arrange 2",
];

/// Literals that never hold.
pub(crate) const DROPS: &[&str] = &[
    "drop: p != p; ; +TF; drop 2 1",
    "drop: T = F; ; -pp; drop 2 0",
    "drop: p = T; ; ; drop 0 0",
    "drop: p = T has one literal; ; ; drop 0 1",
    "drop: no such line; ; ; drop 99 0",
    "drop: p = p; ; -pq; drop 4 0",
    "drop: p != q; ; +pp; drop 4 1",
    "drop: the other literal stays; ; -pp; drop 2 1",
    "drop: what is left has no type; ; +aT; drop 2 1",
];

/// Truth values taken apart.
pub(crate) const CONNECTIVES: &[&str] = &[
    "not: ~p = T; ; +pF; logic 1 0 not",
    "not: the value stays; ; +pT; logic 1 0 not",
    "not: with an abbreviation; ; +pF; logic 1 0 not 19",
    "not: an abbreviation that is no line; ; +pF; logic 1 0 not 99",
    "not: no second literal; ; +pF; logic 1 1 not",
    "not: no such line; ; +pF; logic 99 0 not",
    "or_t; ; +pT +qT; logic 5 0 or_t",
    "or_f1; ; +pF; logic 6 0 or_f1",
    "or_f2: the other side; ; +pF; logic 6 0 or_f2",
    "and_t1: of a disjunction; ; +pT; logic 5 0 and_t1",
    "all_t; 1; +r0@T; logic 16 0 all_t",
    "all_t: no variable; ; +ra@T; logic 16 0 all_t",
];

/// Quantifiers with a chosen thing.
pub(crate) const CHOSEN_THINGS: &[&str] = &[
    "some_t: r s; ; +rs@T; logic 18 0 some_t 19",
    "some_t: no abbreviation; ; +rs@T; logic 18 0 some_t",
    "some_t: a line that abbreviates nothing; ; +rs@T; logic 18 0 some_t 0",
    "some_t: an abbreviation of another thing; ; +rk@T; logic 18 0 some_t 23",
    "some_t: another value; ; +rs@F; logic 18 0 some_t 19",
    "some_t: m X (w X); 1; +m0@w0@@T; logic 20 0 some_t 21",
    "some_t: not applied to the variable; 1; +m0@s@T; logic 20 0 some_t 19",
    "some_t: applied to another variable; 11; +m0@w1@@T; logic 26 0 some_t 21",
    "all_f: r k; ; +rk@F; logic 17 0 all_f 23",
    "all_f: the thing that has the property; ; +rs@F; logic 17 0 all_f 19",
    "all_f: no abbreviation; ; +rk@F; logic 17 0 all_f",
    "all_f: another value; ; +rk@T; logic 17 0 all_f 23",
];

/// Equations of truth values.
pub(crate) const CASES: &[&str] = &[
    "bool_ext: p = q, first case; ; +pF +qT; bool_ext 9 0 one",
    "bool_ext: p = q, second case; ; +pT +qF; bool_ext 9 0 two",
    "bool_ext: p = q, the cases turned; ; +pT +qF; bool_ext 9 0 one",
    "bool_ext: p != q, first case; ; +pT +qT; bool_ext 10 0 one",
    "bool_ext: p != q, second case; ; +pF +qF; bool_ext 10 0 two",
    "bool_ext: things; ; +aT +bT; bool_ext 7 0 one",
    "bool_ext: no second literal; ; +pF +qT; bool_ext 9 1 one",
    "bool_ext: no such line; ; +pF +qT; bool_ext 99 0 one",
];

/// Equations of functions.
pub(crate) const FUNCTIONS: &[&str] = &[
    "func_ext: f X = g X; 1; +f0@g0@; func_ext 11 0",
    "func_ext: f X = f X; 1; +f0@f0@; func_ext 11 0",
    "func_ext: f = g with an abbreviation; 1; +f0@g0@; func_ext 11 0 24",
    "func_ext: f n != g n; ; -fn@gn@; func_ext 12 0 24",
    "func_ext: no abbreviation; ; -fn@gn@; func_ext 12 0",
    "func_ext: another abbreviation; ; -fs@gs@; func_ext 12 0 19",
    "func_ext: not of the chosen thing; ; -fa@ga@; func_ext 12 0 24",
    "func_ext: things; ; +ab; func_ext 7 0",
    "func_ext: no second literal; 1; +f0@g0@; func_ext 11 1",
    "func_ext: no such line; 1; +f0@g0@; func_ext 99 0",
];

/// Inequations of applications.
pub(crate) const DECOMPOSITIONS: &[&str] = &[
    "decompose: f a != f b; ; -ff -ab; decompose 13 0",
    "decompose: the functions are left out; ; -ab; decompose 13 0",
    "decompose: an equation; ; +ab; decompose 7 0",
    "decompose: equations at two types; ; -aa; decompose 27 0",
    "decompose: no second literal; ; -ff -ab; decompose 13 1",
    "decompose: no such line; ; -ff -ab; decompose 99 0",
];

/// What is true of itself.
pub(crate) const AXIOMS: &[&str] = &[
    "refl: a = a; ; +aa; refl",
    "refl: X = X; 1; +00; refl",
    "refl: a = b; ; +ab; refl",
    "refl: a != a; ; -aa; refl",
    "refl: a variable that is not there; ; +00; refl",
    "choice; 31; +01@F +00e@T; choice",
    "choice: the values turned; 31; +01@T +00e@F; choice",
    "choice: the variables turned; 13; +10@F +11e@T; choice",
    "choice: one variable; 3; +0a@F +00e@T; choice",
];

/// Two literals become one.
pub(crate) const FACTORS: &[&str] = &[
    "factor: X = Y, X = a; 11; +01 -00 -1a; factor 15 0 1",
    "factor: the second stays; 11; +0a -00 -1a; factor 15 0 1",
    "factor: one literal; 11; +01 -00 -1a; factor 15 1 1",
    "factor: no third literal; 11; +01 -00 -1a; factor 15 0 2",
    "factor: no such line; 11; +01 -00 -1a; factor 99 0 1",
    "factor: things and truth values; ; +ab; factor 28 0 1",
    "factor: an equation and an inequation; ; +ab -aa -bb; factor 29 0 1",
];

/// New symbols.
pub(crate) const DEFINITIONS: &[&str] = &[
    "abbreviate: h = a; ; +ha; abbreviate h",
    "abbreviate: an old symbol; ; +sa; abbreviate s",
    "abbreviate: h = f h; ; +hfh@; abbreviate h",
    "abbreviate: a term with a variable; 1; +hf0@; abbreviate h",
    "abbreviate: a clause with a variable; 1; +ha; abbreviate h",
    "abbreviate: another symbol; ; +ba; abbreviate h",
    "abbreviate: h != a; ; -ha; abbreviate h",
    "abbreviate: a truth value; ; +hp; abbreviate h",
];

/// A whole derivation of the empty clause from p and ~p.
pub(crate) const DERIVATION: &[&str] = &[
    "l0: p = T; ; +pT; axiom 0",
    "l1: ~p = T; ; +p~T; axiom 1",
    "l2: p = F; ; +pF; logic 1 0 not",
    "l3: T = F, p != p; ; +TF -pp; para 0 0 2 0",
    "l4 with the second literal; ; -pp; drop 3 1",
    "l4: p != p; ; -pp; drop 3 0",
    "l5: the empty clause; ; ; drop 4 0",
];
