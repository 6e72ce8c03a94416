//! What a text says, as trees. Brackets are gone.

use leo_items::{Boxed, Items};

/// What stands between two formulas. `Or` and `And` also stand in chains, which nest to the right.
#[derive(Clone, Copy, Debug, PartialEq, Eq)]
pub enum Connective {
    /// `|`
    Or,
    /// `&`
    And,
    /// `=>`
    Implies,
    /// `<=`
    ImpliedBy,
    /// `<=>`
    Iff,
    /// `<~>`
    Xor,
    /// `~|`
    Nor,
    /// `~&`
    Nand,
}

/// What binds variables.
#[derive(Clone, Copy, Debug, PartialEq, Eq)]
pub enum Binder {
    /// `!`
    ForAll,
    /// `?`
    Exists,
    /// `^`
    Lambda,
    /// `@+`
    Choice,
}

/// Which equation it is.
#[derive(Clone, Copy, Debug, PartialEq, Eq)]
pub enum Sign {
    /// `=`
    Equal,
    /// `!=`
    NotEqual,
}

/// A type that is a word.
#[derive(Drop)]
pub enum TypeWord {
    /// `$i` or `$iType`
    Individual,
    /// `$o` or `$oType`
    Truth,
    /// `$tType`
    TypeOfTypes,
    /// The content of an atom, so that `'$i'` is no `$i`.
    Atom(Items<u8>),
}

/// A type. Its byte is that of the token at which its text begins, where brackets around the whole
/// of it do not count.
#[cycle(types)]
#[derive(Drop)]
pub struct TypeTree {
    pub byte: u32,
    pub node: TypeNode,
}

/// How a type is made.
#[cycle(types)]
#[derive(Drop)]
pub enum TypeNode {
    Base(TypeWord),
    /// A function from the first type to the second.
    Arrow(Boxed<TypeTree>, Boxed<TypeTree>),
}

/// A variable that a binder binds.
#[derive(Drop)]
pub struct Variable {
    pub name: Items<u8>,
    pub ty: TypeTree,
}

/// A formula or a term. Its byte is that of the token at which its text begins, where brackets
/// around the whole of it do not count.
#[cycle(tree)]
#[derive(Drop)]
pub struct Tree {
    pub byte: u32,
    pub node: Node,
}

/// How a formula or a term is made.
#[cycle(tree)]
#[derive(Drop)]
pub enum Node {
    /// The content of an atom, without quotes.
    Atom(Items<u8>),
    Var(Items<u8>),
    /// `$true`
    True,
    /// `$false`
    False,
    /// A head and its arguments, of which there is one at least. A head that is an application was
    /// written in brackets. So trees nest no deeper than the levels of their text.
    Apply(Boxed<Tree>, Items<Tree>),
    /// A binder, its variables, of which there is one at least, and its body.
    Bind(Binder, Items<Variable>, Boxed<Tree>),
    Not(Boxed<Tree>),
    Join(Connective, Boxed<Tree>, Boxed<Tree>),
    /// The byte is that of the `=` or `!=`.
    Equal(Sign, u32, Boxed<Tree>, Boxed<Tree>),
    /// `( ~ )`
    Negation,
    /// A connective in brackets.
    Connective(Connective),
    /// `!!`
    Pi,
    /// `??`
    Sigma,
    /// `@@+`
    Choice,
}

/// A statement of a file, with its first byte. Names, atoms and files are contents, without quotes.
#[derive(Drop)]
pub enum Statement {
    /// A `thf` statement of another role than `type`.
    Formula {
        byte: u32,
        name: Items<u8>,
        role: Items<u8>,
        role_byte: u32,
        tree: Tree,
    },
    /// A `thf` statement of the role `type`.
    Typing {
        byte: u32,
        name: Items<u8>,
        atom: Items<u8>,
        atom_byte: u32,
        ty: TypeTree,
    },
    /// All of a file, or its statements of these names.
    Include {
        byte: u32,
        file: Items<u8>,
        file_byte: u32,
        names: Option<Items<Items<u8>>>,
    },
}
