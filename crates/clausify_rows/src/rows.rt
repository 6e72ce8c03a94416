//! The rows. A row has two cells: what it says, and the clause.

/// Truth values, and literals that never hold.
pub(crate) const TRUTH_VALUES: &[&str] = &[
    "T on the left alone is turned; . +Tp",
    "F on the left alone is turned, and then flipped; . -Fp",
    "T = F is left out; . +TF +pT",
    "F = T is left out; . +pT +FT",
    "p != p is left out; . -pp +qT",
    "what never holds alone leaves nothing; . +TF",
    "p != T is flipped; . -pT",
    "p != F is flipped; . -pF",
    "T != F is flipped; . -TF",
    "T = T stays; . +TT",
    "p = q stays; . +pq",
    "a = a stays; . +aa",
];

/// Connectives and equations.
pub(crate) const CONNECTIVES: &[&str] = &[
    "not p is T; . +p~T",
    "not p is F; . +p~F",
    "not p is not T; . -p~T",
    "p or q is T; . +pq|T",
    "p or q is F; . +pq|F",
    "p and q is T; . +pq&T",
    "p and q is F; . +pq&F",
    "p implies q is T; . +pq>T",
    "p implies q is F; . +pq>F",
    "an equation of things is T; . +ab=T",
    "an equation of things is F; . +ab=F",
    "an equation of formulas is T; . +pq=T",
    "an equation with T is T; . +Tp=T",
    "an equation with F is F; . +pF=F",
];

/// The order of literals and of leaves.
pub(crate) const ORDERS: &[&str] = &[
    "other literals stay in their order; . +ab +pq|T -kh",
    "equal literals once; . +pp|T",
    "turned literals once; . +ab +ba",
    "two forms of each of two literals; . +pq&T +pq|F",
];

/// Quantifiers, fresh variables and choice symbols.
pub(crate) const QUANTIFIERS: &[&str] = &[
    "all are r is T; . +rx@\\!T",
    "some is r is F; . +rx@\\?F",
    "all are r is F; . +rx@\\!F",
    "some is r is T; . +rx@\\?T",
    "a choice with a variable; 1 +m0@x@\\!F",
    "variables of a choice in order of first occurrence; 11 +m1@x@m0@x@&\\?T",
    "some for each; . +my@x@\\?\\!T",
    "one symbol for one term; . +rx@\\?T +rx@\\?T",
    "one symbol in two leaves; . +rx@\\?rx@\\?&T",
    "two symbols for two terms; . +rx@\\?T +rx@~\\!F",
    "a variable that is not used; 1 +pT",
    "a fresh variable that is not used; . +p\\!T",
];

/// Clauses that are not split.
pub(crate) const OTHERS: &[&str] = &[
    "a thing and a truth value; . +pa",
    "a loose index; . +rx@T",
    "a property alone; . +r!T",
    "a function of things with its argument; . +rx@\\a@T",
];

/// Many leaves.
pub(crate) const MANY: &[&str] = &[
    "two to the eighth; . +pq&T +pq&T +pq&T +pq&T +pq&T +pq&T +pq&T +pq&T",
    "one more; . +pq&pq&|pq&|pq&|pq&|pq&|pq&|pq&|p&T",
    "a choice and two to the eighth; . +rx@\\?T +pq&T +pq&T +pq&T +pq&T +pq&T +pq&T +pq&T +pq&T",
    "a choice and one more; . +rx@\\?T +pq&pq&|pq&|pq&|pq&|pq&|pq&|pq&|p&T",
];
