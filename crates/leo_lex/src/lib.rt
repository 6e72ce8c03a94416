//! The tokens of a text in typed higher-order form.
#![tactic(auto)]

mod forms;
mod gaps;
mod lexer;
mod mark;
mod token;

pub use lexer::{spaced_words_are_tokens, spelled_words_are_tokens, tokens, tokens_are_unique};
pub use mark::{MARKS, Mark};
pub use token::{Kind, LexRefusal, Token};

#[cfg(test)]
mod tests;
