//! Reading whole texts.

ghost use Rattle.std.specs.Prelude.{◌≡◌, ◌≢◌, ◌<◌, ◌^◌, length, List, IfOk, IfErr, OnOk};
ghost use Rattle.leo_lex.specs.Cut.{AreTokens};
ghost use Rattle.leo_syntax.specs.Lexemes.{lexemes};
ghost use Rattle.leo_syntax.specs.Rules.{file_outcome, accepted, refused};
ghost use Rattle.leo_syntax.specs.Grammar.{IsFile};
ghost use Rattle.leo_syntax.specs.declared.tree.Statement.{Statement};
ghost use Rattle.leo_syntax.specs.declared.refusal.ReadRefusal.TheVariants.{Memory};

use crate::refusal::ReadRefusal;
use crate::source::Source;
use crate::statements::statement;
use crate::tree::Statement;
use leo_lex::Token;
use std::alloc::Global;

fn statements(alloc: Global, source: &Source<'_>) -> Result<Vec<Statement>, ReadRefusal>
    requires { length source.now.bytes.now < 2 ^ 32 }
    ensures grammar { IfOk result (λ list. IsFile (lexemes source.now.bytes.now source.now.tokens.now) list.items) }
    ensures only { IfOk result (λ list. (other : List Statement) → IsFile (lexemes source.now.bytes.now source.now.tokens.now) other → list.items ≡ other) }
    ensures taken { OnOk result (file_outcome (length source.now.bytes.now) (lexemes source.now.bytes.now source.now.tokens.now) ≡ accepted) }
    ensures refusal { IfErr result (λ e. e ≢ Memory → file_outcome (length source.now.bytes.now) (lexemes source.now.bytes.now source.now.tokens.now) ≡ refused e) }
{
    let mut list = Vec::new(alloc);
    let mut at = 0;
    while at < source.tokens.len() {
        let next = statement(alloc, source, &mut at)?;
        list.push(next)?;
    }
    Ok(list)
}

/// The statements of a text, whose tokens are those that `leo_lex::tokens` gives of it.
///
/// A body has at most 500 levels, so trees nest no deeper than that, and the time is linear in the
/// length of the text.
///
/// # Errors
///
/// At the first token with which no file goes on, in this order at one token:
///
/// - [`ReadRefusal::Deep`] where it stands beyond the last level.
/// - [`ReadRefusal::Unsupported`] where it belongs to a form that the profile does not have.
/// - [`ReadRefusal::Syntax`] otherwise, and at the length of a text that ends early.
///
/// And [`ReadRefusal::Memory`].
pub fn read(alloc: Global, bytes: &[u8], tokens: &[Token]) -> Result<Vec<Statement>, ReadRefusal>
    requires short { length bytes.now < 2 ^ 32 }
    requires tokens { AreTokens bytes.now tokens.now }
    // The statements are those of the grammar.
    ensures grammar { IfOk result (λ list. IsFile (lexemes bytes.now tokens.now) list.items) }
    // The text has no other statements by the grammar.
    ensures only { IfOk result (λ list. (other : List Statement) → IsFile (lexemes bytes.now tokens.now) other → list.items ≡ other) }
    // The table takes each token of a text that is read.
    ensures taken { OnOk result (file_outcome (length bytes.now) (lexemes bytes.now tokens.now) ≡ accepted) }
    // A refusal is that of the first token that the table refuses.
    ensures refusal { IfErr result (λ e. e ≢ Memory → file_outcome (length bytes.now) (lexemes bytes.now tokens.now) ≡ refused e) }
{
    statements(alloc, &Source { bytes, tokens })
}
