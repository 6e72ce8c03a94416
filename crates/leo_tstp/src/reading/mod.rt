//! From the tokens of a text to what its lines say, as trees. What is looked for is known at each token, types too.

pub(crate) mod clauses;
pub(crate) mod lexicon;
pub(crate) mod lines;
pub(crate) mod patterns;
pub(crate) mod rules;
pub(crate) mod source;
pub(crate) mod terms;
pub(crate) mod trees;
pub(crate) mod types;
