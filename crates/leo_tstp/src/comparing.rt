//! Texts that differ in comments and white space alone.

ghost use Rattle.std.specs.Prelude.{◌≡◌, ◌≤◌, length, IfNone};
ghost use Rattle.leo_tstp.specs.TextWords as spec;
ghost use Rattle.leo_tstp.specs.TextWords.{TokensFit, words};

use leo_lex::Token;

/// The bytes of a token.
fn word_of(bytes: &[u8], token: Token) -> &[u8]
    requires ordered { token.start ≤ token.end }
    requires fits { token.end ≤ length bytes.now }
    ensures { result.now ≡ spec.word_of bytes.now token }
{
    &bytes[token.start as usize..token.end as usize]
}

/// The number of the first token of a text with which another does not go on as it does.
pub(crate) fn first_difference(
    bytes: &[u8],
    tokens: &[Token],
    other: &[u8],
    others: &[Token],
) -> Option<usize>
    requires fit { TokensFit bytes.now tokens.now }
    requires others_fit { TokensFit other.now others.now }
    ensures { IfNone result (words bytes.now tokens.now ≡ words other.now others.now) }
{
    for place in 0..tokens.len() {
        if place >= others.len() {
            return Some(place);
        }
        if word_of(bytes, tokens[place]) != word_of(other, others[place]) {
            return Some(place);
        }
    }
    if others.len() > tokens.len() {
        return Some(tokens.len());
    }
    None
}
