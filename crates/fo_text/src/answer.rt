//! Answers of a child prover.

use sqlite_items::Items;

/// An answer: how many beats stand before its end, and its end.
#[derive(Drop)]
pub struct FoAnswer {
    pub beats: u32,
    pub end: FoEnd,
}

/// How a prover ends: it gives up, or it refutes the problem by steps. They are numbered on from the
/// number of the problem's clauses.
#[derive(Drop)]
pub enum FoEnd {
    GaveUp,
    Refuted(Items<FoStep>),
}

/// The words of one line of a refutation, in order. Clauses and steps, literals, variables and
/// symbols go by number, from 0.
#[derive(Drop)]
pub enum FoStep {
    /// An instance of the parent. The words are the number of its variables, their sorts, and a
    /// term in prefix form for each variable of the parent.
    Inst {
        parent: u32,
        words: Items<FoWord>,
    },
    /// An equation is applied: that of a literal, turned so that this side of it comes first, to
    /// the term at a path in this side of a literal of the target. A path is the numbers of
    /// arguments, from the whole side on.
    Para {
        from: u32,
        lit: u32,
        side: FoSide,
        target: u32,
        place: u32,
        place_side: FoSide,
        path: Items<u32>,
    },
    /// Two literals of the parent become one. At [`FoSide::Right`] the second is turned before.
    Factor {
        parent: u32,
        first: u32,
        second: u32,
        side: FoSide,
    },
    /// A negative literal with equal sides is dropped.
    Drop {
        parent: u32,
        lit: u32,
    },
}

/// A number, a variable or a symbol.
#[derive(Clone, Copy, Debug, PartialEq, Eq, Drop)]
pub enum FoWord {
    Number(u32),
    Var(u32),
    Sym(u32),
}

/// A side of an equation.
#[derive(Clone, Copy, Debug, PartialEq, Eq, Drop)]
pub enum FoSide {
    Left,
    Right,
}
