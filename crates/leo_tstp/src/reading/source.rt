//! A text with the place of its next token.

ghost use Rattle.std.specs.Prelude.{◌≡◌, ◌≢◌, ◌≤◌, ◌<◌, ◌^◌, ◌∷◌, ◌↔◌, List, ℕ, Some, None, IsTrue, map, slice_get};
ghost use Rattle.std.specs.Prelude as spec;
ghost use Rattle.std.specs.Str.{bytes_eq};
ghost use Rattle.leo_tstp.specs.Ahead.{IsTaken, Passes, TakesWord, TakesWords, ahead, ahead_of, first_word, second_word, token_word};

use crate::reading::lexicon::Lexicon;
use crate::reading::trees::Types;
use crate::refusal::Stop;
use indexmap::IndexSet;
use itoa::Buffer;
use leo_lex::Token;
use std::alloc::Global;

/// A text, what was met in it, and what stands around the next token.
#[derive(Drop)]
pub(crate) struct Reader<'a> {
    pub(crate) alloc: Global,
    pub(crate) bytes: &'a [u8],
    pub(crate) tokens: &'a [Token],
    /// The number of the next token.
    pub(crate) at: usize,
    pub(crate) types: Types,
    pub(crate) lexicon: Lexicon,
    /// How many symbols were introduced.
    pub(crate) introduced: usize,
    /// The types of the clause's variables.
    pub(crate) variables: Vec<usize>,
    /// The types of the variables of the lambdas around, the outermost first.
    pub(crate) scope: Vec<usize>,
    /// The hypotheses that stand in the text, and those that lines take.
    pub(crate) listed: IndexSet<u64>,
    pub(crate) used: IndexSet<u64>,
}

/// The number that digits without a leading zero say.
pub(crate) fn decimal(text: &[u8]) -> Option<u64>
    ensures { (n : ℕ) → n < 2 ^ 64 → text.now ≡ spec.decimal n → result ≡ Some n }
{
    let Ok(digits) = str::from_utf8(text) else {
        return None;
    };
    let Ok(number) = digits.parse::<u64>() else {
        return None;
    };
    let mut shown = Buffer::new();
    if shown.format(number) == digits {
        Some(number)
    } else {
        None
    }
}

/// The number behind a letter.
pub(crate) fn number_behind(text: &[u8], letter: u8) -> Option<u64>
    ensures reads { (n : ℕ) → n < 2 ^ 64 → text.now ≡ letter ∷ spec.decimal n → result ≡ Some n }
    ensures other { (b : ℕ) (bs : List ℕ) → text.now ≡ b ∷ bs → b ≢ letter → result ≡ None }
{
    match text.split_first() {
        Some((first, rest)) => {
            if *first == letter {
                decimal(rest)
            } else {
                None
            }
        }
        None => None,
    }
}

/// The number at a place of a list.
pub(crate) fn number_at(numbers: &[usize], place: usize) -> Option<usize>
    ensures { result ≡ slice_get numbers.now place }
{
    numbers.get(place).copied()
}

pub(crate) fn is(word: &[u8], text: &[u8]) -> bool
    ensures same { IsTrue result ↔ (word.now ≡ text.now) }
    ensures test { result ≡ bytes_eq word.now text.now }
{
    word == text
}

/// The bytes of a token of a text.
fn text_at<'a>(bytes: &'a [u8], token: &Token) -> &'a [u8]
    ensures { result.now ≡ token_word bytes.now token.now }
{
    let (start, end) = (token.start as usize, token.end as usize);
    if start <= end && end <= bytes.len() {
        &bytes[start..end]
    } else {
        b""
    }
}

impl<'a> Reader<'a> {
    /// The bytes of a token, and none behind the last.
    pub(crate) fn word_at(&self, at: usize) -> &'a [u8]
        ensures { result.now ≡ first_word (ahead self.now.bytes.now self.now.tokens.now at) }
    {
        match self.tokens.get(at) {
            Some(token) => text_at(self.bytes, token),
            None => b"",
        }
    }

    /// The bytes of the token behind the next.
    pub(crate) fn word_behind(&self) -> &'a [u8]
        ensures { result.now ≡ second_word (ahead_of self.now) }
    {
        if self.at < self.tokens.len() {
            self.word_at(self.at + 1)
        } else {
            b""
        }
    }

    /// The bytes of the next token.
    pub(crate) fn word(&self) -> &'a [u8]
        ensures { result.now ≡ first_word (ahead_of self.now) }
    {
        self.word_at(self.at)
    }

    /// The number behind a letter, which is the next token.
    pub(crate) fn numbered(&self, letter: u8) -> Option<u64>
        ensures { (n : ℕ) → n < 2 ^ 64 → first_word (ahead_of self.now) ≡ letter ∷ spec.decimal n → result ≡ Some n }
    {
        number_behind(self.word(), letter)
    }

    pub(crate) fn sees(&self, text: &[u8]) -> bool
        ensures { IsTrue result ↔ (first_word (ahead_of self.now) ≡ text.now) }
    {
        is(self.word(), text)
    }

    /// Passes the next token, if there is one.
    pub(crate) fn pass(&mut self)
        ensures passes { Passes self.old self.new }
        ensures stays { self.new ≡ record self.old { at = self.new.at } }
    {
        if self.at < self.tokens.len() {
            self.at += 1;
        }
    }

    /// Passes that token.
    pub(crate) fn take(&mut self, text: &[u8]) -> Result<(), Stop>
        ensures takes { TakesWord self.old text.now result self.new }
        ensures stays { self.new ≡ record self.old { at = self.new.at } }
    {
        if self.sees(text) {
            self.pass();
            Ok(())
        } else {
            Err(Stop::Refused)
        }
    }

    /// Passes those tokens.
    pub(crate) fn take_all(&mut self, texts: &[&[u8]]) -> Result<(), Stop>
        ensures takes { TakesWords self.old (map (λ t. t.now) texts.now) result self.new }
        ensures stays { self.new ≡ record self.old { at = self.new.at } }
    {
        for text in texts {
            self.take(text)?;
        }
        Ok(())
    }

    /// Passes the tokens of a text.
    pub(crate) fn take_tokens(&mut self, text: &[u8], tokens: &[Token]) -> Result<(), Stop>
        ensures takes { TakesWords self.old (map (token_word text.now) tokens.now) result self.new }
        ensures stays { self.new ≡ record self.old { at = self.new.at } }
    {
        for token in tokens {
            self.take(text_at(text, token))?;
        }
        Ok(())
    }

    /// Passes a number up to a greatest one.
    pub(crate) fn take_number(&mut self, greatest: u64) -> Result<u64, Stop>
        ensures takes { (n : ℕ) (rest : List (List ℕ)) → n ≤ greatest → ahead_of self.old ≡ spec.decimal n ∷ rest → IsTaken result (λ m. (m ≡ n) × (ahead_of self.new ≡ rest)) }
        ensures stays { self.new ≡ record self.old { at = self.new.at } }
    {
        match decimal(self.word()) {
            Some(number) => {
                if number > greatest {
                    return Err(Stop::Refused);
                }
                self.pass();
                Ok(number)
            }
            None => Err(Stop::Refused),
        }
    }

    /// Passes a letter with that number.
    pub(crate) fn take_numbered(&mut self, letter: u8, number: u64) -> Result<(), Stop>
        ensures takes { TakesWord self.old (letter ∷ spec.decimal number) result self.new }
        ensures stays { self.new ≡ record self.old { at = self.new.at } }
    {
        if self.numbered(letter) == Some(number) {
            self.pass();
            Ok(())
        } else {
            Err(Stop::Refused)
        }
    }
}
