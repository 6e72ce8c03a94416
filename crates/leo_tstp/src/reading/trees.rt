//! What a text says, as trees. Types and symbols are named by their places in lists.

ghost use Rattle.std.specs.Prelude.{◌≡◌, IfOk, slice_get};
ghost use Rattle.leo_terms.specs.Contents.{AddsShared};

use indexmap::IndexSet;
use leo_clause::Rule;
use leo_items::Boxed;
use std::alloc::{AllocError, Global};

/// How a type is made: a base type, or of the types of two places.
#[derive(Clone, Copy, Debug, PartialEq, Eq, Hash)]
pub(crate) enum TypeNode {
    Base(usize),
    Arrow(usize, usize),
}

/// How many levels a term or a type may have.
pub(crate) const ROOM: u32 = 1_100;

/// The place of `$o` in every list of types.
pub(crate) const TRUTH: usize = 0;

/// A list of types, in which each stands once, behind its parts.
#[derive(Drop)]
pub(crate) struct Types {
    pub(crate) nodes: IndexSet<TypeNode>,
}

impl Types {
    /// `$o` and `$i`.
    pub(crate) fn new(alloc: Global) -> Result<Types, AllocError> {
        let mut nodes = IndexSet::new(alloc);
        nodes.insert(TypeNode::Base(0))?;
        nodes.insert(TypeNode::Base(1))?;
        Ok(Types { nodes })
    }

    /// The place of a type.
    pub(crate) fn place(&mut self, node: TypeNode) -> Result<usize, AllocError>
        ensures { IfOk result (λ p. AddsShared self.old.nodes.keys self.new.nodes.keys node p) }
    {
        let (place, _) = self.nodes.insert_full(node)?;
        Ok(place)
    }

    /// How the type of a place is made.
    pub(crate) fn node(&self, place: usize) -> Option<TypeNode>
        ensures { result ≡ slice_get self.now.nodes.keys place }
    {
        self.nodes.get_index(place).copied()
    }
}

/// What stands between two formulas.
#[derive(Clone, Copy)]
pub(crate) enum Joint {
    Or,
    And,
    Implies,
}

#[derive(Clone, Copy)]
pub(crate) enum Quantifier {
    All,
    Some,
    Choice,
}

/// A term as it is read.
#[derive(Drop)]
pub(crate) enum Parsed {
    /// A variable of the clause.
    Variable(u32),
    /// The variable of a lambda, by how many lambdas stand around that one.
    Level(usize),
    Symbol(usize),
    Apply(Boxed<Parsed>, Boxed<Parsed>),
    Lambda(usize, Boxed<Parsed>),
    Truth(bool),
    Not(Boxed<Parsed>),
    Join(Joint, Boxed<Parsed>, Boxed<Parsed>),
    Equal(Boxed<Parsed>, Boxed<Parsed>),
    Quantify(Quantifier, Boxed<Parsed>),
}

/// A term with its type.
#[derive(Drop)]
pub(crate) struct Typed {
    pub(crate) term: Parsed,
    pub(crate) ty: usize,
}

/// An equation of two terms, or its negation.
#[derive(Drop)]
pub(crate) struct ParsedLiteral {
    pub(crate) positive: bool,
    pub(crate) left: Parsed,
    pub(crate) right: Parsed,
}

/// The name of a rule.
#[derive(Clone, Copy)]
pub(crate) enum RuleName {
    Axiom,
    Convert,
    Inst,
    Para,
    Arrange,
    Drop,
    Logic,
    BoolExt,
    FuncExt,
    Decompose,
    Refl,
    Choice,
    Factor,
    Abbreviate,
}

/// A rule as it is read.
#[derive(Drop)]
pub(crate) enum ParsedRule {
    /// A rule without terms and symbols.
    Plain(Rule),
    Inst { parent: u64, sigma: Vec<Parsed> },
    /// An abbreviation by the symbol whose type stands before the line.
    Abbreviate,
}

/// A line as it is read.
#[derive(Drop)]
pub(crate) struct ParsedLine {
    pub(crate) literals: Vec<ParsedLiteral>,
    pub(crate) rule: ParsedRule,
}
