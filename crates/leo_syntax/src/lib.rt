//! The grammar of typed higher-order texts: trees of formulas and types, read and written.
#![tactic(auto)]

mod annotations;
mod classes;
mod file;
mod formulas;
mod includes;
mod laws;
mod listing;
mod refusal;
mod source;
mod statements;
mod tree;
mod typed;
mod types;
mod variables;
mod writing;

pub use file::read;
pub use laws::{refusals_are_first, texts_are_taken, written_texts_are_read};
pub use listing::write;
pub use refusal::{Form, ReadRefusal};
pub use tree::{
    Binder, Connective, Node, Sign, Statement, Tree, TypeNode, TypeTree, TypeWord, Variable,
};

#[cfg(test)]
mod tests;
