//! What the grammar and its table say of each other.

ghost use Rattle.std.specs.Prelude.{◌≡◌, ◌⊎◌, ℕ, List, ◌++◌, length};
ghost use Rattle.leo_syntax.specs.declared.refusal.ReadRefusal.{ReadRefusal};
ghost use Rattle.leo_syntax.specs.declared.refusal.ReadRefusal.TheVariants.{Syntax};
ghost use Rattle.leo_lex.specs.Cut.{AreTokens};
ghost use Rattle.leo_lex.specs.declared.token.Token.{Token};
ghost use Rattle.leo_syntax.specs.Lexemes.{Ahead, lexemes};
ghost use Rattle.leo_syntax.specs.Rules.{Part, accepted, goes_on, file_outcome, refused};
ghost use Rattle.leo_syntax.specs.Prefix.{file_steps, GoesOn, InLevels, IsTaken, StopsWith};
ghost use Rattle.leo_syntax.specs.Grammar.{IsFile};
ghost use Rattle.leo_syntax.specs.RoundTrip.{IsReadBack};
ghost use Rattle.leo_syntax.specs.declared.tree.Statement.{Statement};

use leo_lex::spaced_words_are_tokens;

/// A law: a refusal is that of the first token with which no file goes on.
pub fn refusals_are_first()
    // A refused text ends early, or it has a first token that is refused.
    ensures place { (end : ℕ) (ls : Ahead) (e : ReadRefusal) → file_outcome end ls ≡ refused e
        → ((wanted : List Part) × (file_steps ls ≡ goes_on wanted) × (e ≡ Syntax end)) ⊎ StopsWith ls e }
    // No file begins with the tokens up to and with that one.
    ensures stays { (ls : Ahead) (e : ReadRefusal) (more : Ahead) (end : ℕ) → StopsWith ls e → file_outcome end (ls ++ more) ≡ refused e }
    // Some file begins with the tokens before it, unless they lead beyond the last level.
    ensures goes_on { (ls : Ahead) (wanted : List Part) → file_steps ls ≡ goes_on wanted → InLevels wanted → GoesOn ls }
{}

/// A law: a text of the grammar is read, unless it is nested beyond the last level.
pub fn texts_are_taken()
    ensures { (end : ℕ) (ls : Ahead) (list : List Statement) → IsFile ls list → IsTaken (file_outcome end ls) }
{}

/// A law: what is written of the statements of a text that was read is read back as the same
/// statements, but for the bytes where they stand.
pub fn written_texts_are_read()
    ensures { (bytes : List ℕ) (tokens : List Token) (list : List Statement) → AreTokens bytes tokens → IsFile (lexemes bytes tokens) list
        → file_outcome (length bytes) (lexemes bytes tokens) ≡ accepted → IsReadBack list }
{
    spaced_words_are_tokens();
}
