//! The records of a derivation's steps: a clause and the rule that gives it.

use crate::clause::Clause;
use leo_items::Items;
use leo_terms::{SymId, TermId};

/// A side of a literal.
#[derive(Clone, Copy, Debug, PartialEq, Eq)]
pub enum Side {
    Left,
    Right,
}

/// Which of the two conclusions of a rule.
#[derive(Clone, Copy, Debug, PartialEq, Eq)]
pub enum Half {
    One,
    Two,
}

/// How a literal about a truth value is taken apart. Where a rule's name ends in `T` or `F`, it works on `A = T` or on
/// `A = F`.
#[derive(Clone, Copy, Debug, PartialEq, Eq)]
pub enum LogicKind {
    /// `~ A = v` gives `A =` the other value.
    Not,
    /// `A | B = T` gives `A = T`, `B = T`.
    OrT,
    /// `A | B = F` gives `A = F`.
    OrF1,
    /// `A | B = F` gives `B = F`.
    OrF2,
    /// `A & B = T` gives `A = T`.
    AndT1,
    /// `A & B = T` gives `B = T`.
    AndT2,
    /// `A & B = F` gives `A = F`, `B = F`.
    AndF,
    /// `A => B = T` gives `A = F`, `B = T`.
    ImpT,
    /// `A => B = F` gives `A = T`.
    ImpF1,
    /// `A => B = F` gives `B = F`.
    ImpF2,
    /// `(s = t) = T` gives `s = t`.
    EqT,
    /// `(s = t) = F` gives `s != t`.
    EqF,
    /// `A != T` gives `A = F`, and `A != F` gives `A = T`.
    Flip,
    /// `! P = T` gives `P X = T` for a fresh variable X.
    AllT,
    /// `? P = F` gives `P X = F` for a fresh variable X.
    SomeF,
    /// `! P = F` gives `P w = F` for a chosen w.
    AllF,
    /// `? P = T` gives `P w = T` for a chosen w.
    SomeT,
}

/// A rule, with what it was applied to. Lines, literals and variables are named by their numbers, from 0 on.
#[derive(Drop)]
pub enum Rule {
    /// `H = T` for the hypothesis H of this number.
    Axiom {
        hyp: u64,
    },
    /// The parent, whose sides are put into another form with the same normal form.
    Convert {
        parent: u64,
    },
    /// The parent with a term for each of its variables.
    Inst {
        parent: u64,
        sigma: Items<TermId>,
    },
    /// One occurrence of a side of a positive literal is replaced by its other side.
    Para {
        /// The line of the equation, its literal, and the side that is looked for.
        from: u64,
        lit: u32,
        side: Side,
        /// The line in which it is replaced, the literal, the side and the path to the occurrence.
        target: u64,
        place: u32,
        place_side: Side,
        path: Items<u8>,
    },
    /// The parent's literals, in any order and turned at will, and perhaps more.
    Arrange {
        parent: u64,
    },
    /// The parent without a literal that is never true.
    Drop {
        parent: u64,
        lit: u32,
    },
    /// A literal about a truth value, taken apart. `abbr` is the line that abbreviates the chosen term, where one is chosen.
    Logic {
        parent: u64,
        lit: u32,
        kind: LogicKind,
        abbr: Option<u64>,
    },
    /// An equation of truth values as its two cases.
    BoolExt {
        parent: u64,
        lit: u32,
        half: Half,
    },
    /// An equation of functions as one of their values. `abbr` is the line that abbreviates the chosen argument, where one
    /// is chosen.
    FuncExt {
        parent: u64,
        lit: u32,
        abbr: Option<u64>,
    },
    /// An inequation of two applications as the inequations of their parts.
    Decompose {
        parent: u64,
        lit: u32,
    },
    /// `s = s`.
    Refl,
    /// The axiom of choice.
    Choice,
    /// Two literals of one polarity become one, where they agree.
    Factor {
        parent: u64,
        first: u32,
        second: u32,
    },
    /// A new symbol for a closed term.
    Abbreviate {
        symbol: SymId,
    },
}

/// A line of a derivation.
#[derive(Drop)]
pub struct StepRecord {
    pub clause: Clause,
    pub rule: Rule,
}
