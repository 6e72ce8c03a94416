//! A text and its tokens.

ghost use Rattle.std.specs.Prelude.{◌≡◌, ◌-◌, ◌+◌, ◌^◌, ℕ, List, take, drop, ◌<◌, ◌≤◌, ◌++◌, length, MatchOption, MatchResult, OnOk, IfOk, suc, [], Some, None, ◌≢◌, Bool, true, false, if◌then◌else◌};
ghost use Rattle.std.specs.Bool.{OnTrue};
ghost use Rattle.leo_syntax.specs.Lexemes as lexemes;
ghost use Rattle.leo_syntax.specs.Reading as spec;
ghost use Rattle.leo_syntax.specs.Fits.{TokensFit};

use crate::classes::{
    Bracket, Class, Guard, Keyword, Says, Wanted, bracket_of, class_of, form, guard_form,
    keyword_of,
};
use crate::refusal::{Form, ReadRefusal};
use leo_items::Items;
use leo_lex::{Kind, Mark, Token};
use std::alloc::{AllocError, Global};

/// A text with the list of its tokens. A place in it is the number of the next token.
#[derive(Clone, Copy)]
pub struct Source<'a> {
    pub bytes: &'a [u8],
    pub tokens: &'a [Token],
    ghost within: { TokensFit bytes.now tokens.now },
}

#[tactic(auto, unfolding(crate::specs::Lexemes::is_mark_kind, crate::specs::Lexemes::same_mark))]
fn is_mark(kind: Kind, mark: Mark) -> bool
    ensures { result ≡ lexemes.is_mark_kind mark kind }
{
    match kind {
        Kind::Mark(other) => other == mark,
        Kind::Lower
        | Kind::Upper
        | Kind::Dollar
        | Kind::System
        | Kind::Quoted
        | Kind::Distinct
        | Kind::Number => false,
    }
}

#[tactic(auto, unfolding(crate::specs::Lexemes::are_digits, leo_lex::specs::Bytes::is_digit))]
fn are_digits(text: &[u8]) -> bool
    ensures { result ≡ lexemes.are_digits text.now }
{
    text.iter().all(|byte| byte.is_ascii_digit())
}

/// What stands between quotes, without the `\` before a quote or another `\`.
fn unescaped(alloc: Global, text: &[u8]) -> Result<Items<u8>, AllocError>
    ensures { IfOk result (λ it. it ≡ lexemes.unescaped false text.now) }
{
    let mut found = Vec::new(alloc);
    let mut escaping = false;
    for byte in text {
        if !escaping && *byte == b'\\' {
            escaping = true;
        } else {
            escaping = false;
            found.push(*byte)?;
        }
    }
    Ok(Items::from_vec(found))
}

#[tactic(auto, unfolding(crate::specs::Lexemes::content))]
fn content(alloc: Global, text: &[u8]) -> Result<Items<u8>, AllocError>
    ensures { IfOk result (λ it. it ≡ lexemes.content text.now) }
{
    if text.len() < 2 {
        return Ok(Items::new(alloc));
    }
    unescaped(alloc, &text[1..text.len() - 1])
}

#[tactic(auto, unfolding(crate::specs::Lexemes::said_by))]
fn text_said(
    alloc: Global,
    says: Says,
    kind: Kind,
    text: &[u8],
) -> Result<Option<Items<u8>>, AllocError>
    ensures { IfOk result (λ it. it ≡ lexemes.said_by says kind text.now) }
{
    match (says, kind) {
        (Says::Lower | Says::Atom | Says::Name, Kind::Lower) | (Says::Upper, Kind::Upper) => {
            let found = Items::from_slice(alloc, text)?;
            Ok(Some(found))
        }
        (Says::Quoted | Says::Atom | Says::Name, Kind::Quoted) => {
            let found = content(alloc, text)?;
            Ok(Some(found))
        }
        (Says::Name, Kind::Number) => digits_said(alloc, text),
        _ => Ok(None),
    }
}

fn digits_said(alloc: Global, text: &[u8]) -> Result<Option<Items<u8>>, AllocError>
    ensures { IfOk result (λ it. it ≡ (if lexemes.are_digits text.now then Some text.now else None)) }
{
    if are_digits(text) {
        let found = Items::from_slice(alloc, text)?;
        Ok(Some(found))
    } else {
        Ok(None)
    }
}

fn is_close(class: Class) -> bool
    ensures { result ≡ spec.is_close class }
{
    matches!(class, Class::Close)
}

fn refused_as(form: Option<Form>, start: u32) -> ReadRefusal
    ensures { result ≡ lexemes.refused_as form start }
{
    match form {
        Some(form) => ReadRefusal::Unsupported { byte: start, form },
        None => ReadRefusal::Syntax { byte: start },
    }
}

impl<'a> Source<'a> {
    ghost use Rattle.leo_syntax.specs.Grammar as grammar;
    ghost use Rattle.leo_syntax.specs.Source.{ahead, end_of, IsNext};

    /// The token at a place.
    pub fn token(&self, at: usize) -> Option<Token>
        ensures { MatchOption result (ahead self.now at ≡ []) (λ t. IsNext self.now at t) }
    {
        if at < self.tokens.len() {
            Some(self.tokens[at])
        } else {
            None
        }
    }

    /// The bytes of a token.
    fn text(&self, token: Token) -> &'a [u8]
        requires ordered { token.start ≤ token.end }
        requires fits { token.end ≤ length self.now.bytes.now }
        ensures { result.now ≡ take (token.end - token.start) (drop token.start self.now.bytes.now) }
    {
        &self.bytes[token.start as usize..token.end as usize]
    }

    #[tactic(auto, unfolding(crate::specs::Grammar::sees))]
    pub fn sees(&self, at: usize, mark: Mark) -> bool
        ensures value { result ≡ grammar.sees mark (ahead self.now at) }
        ensures within { OnTrue result (at < length self.now.tokens.now) }
    {
        match self.token(at) {
            Some(token) => is_mark(token.kind, mark),
            None => false,
        }
    }

    /// What the next token is to a formula or a type.
    #[tactic(auto, unfolding(crate::specs::Grammar::class_at))]
    pub fn class(&self, at: usize) -> Class
        ensures { result ≡ grammar.class_at (ahead self.now at) }
    {
        match self.token(at) {
            Some(token) => class_of(token.kind, self.text(token)),
            None => Class::Other,
        }
    }

    /// Whether a `)` comes behind the next token.
    #[tactic(auto, using(crate::proofs::Sources::rest_ahead, crate::proofs::Sources::rest_none))]
    pub fn closes_next(&self, at: usize) -> bool
        ensures { result ≡ spec.is_close (grammar.class_at (spec.rest (ahead self.now at))) }
    {
        let mut next = at;
        self.pass(&mut next);
        is_close(self.class(next))
    }

    #[tactic(auto, unfolding(crate::specs::Reading::keyword_at))]
    pub fn keyword(&self, at: usize) -> Keyword
        ensures { result ≡ spec.keyword_at (ahead self.now at) }
    {
        match self.token(at) {
            Some(token) => keyword_of(token.kind, self.text(token)),
            None => Keyword::Other,
        }
    }

    /// What the next token is to annotations.
    #[tactic(auto, unfolding(crate::specs::Grammar::bracket_at))]
    pub fn bracket(&self, at: usize) -> Bracket
        ensures { result ≡ grammar.bracket_at (ahead self.now at) }
    {
        match self.token(at) {
            Some(token) => bracket_of(token.kind),
            None => Bracket::Plain,
        }
    }

    /// Passes the next token, if there is one.
    #[tactic(auto, using(crate::proofs::Sources::rest_ahead, crate::proofs::Sources::rest_none))]
    pub fn pass(&self, at: &mut usize)
        ensures after { ahead self.now at.new ≡ spec.rest (ahead self.now at.old) }
        ensures forward { at.old ≤ at.new }
        ensures passed { at.old < length self.now.tokens.now → at.old < at.new }
    {
        if *at < self.tokens.len() {
            *at += 1;
        }
    }

    /// Passes the mark, where it comes next.
    #[tactic(auto, using(crate::proofs::Sources::rest_ahead))]
    pub fn eat(&self, at: &mut usize, mark: Mark) -> bool
        ensures value { result ≡ grammar.sees mark (ahead self.now at.old) }
        ensures after { ahead self.now at.new ≡ (if result then spec.rest (ahead self.now at.old) else ahead self.now at.old) }
        ensures forward { at.old ≤ at.new }
        ensures passed { OnTrue result (at.old < at.new) }
    {
        let found = self.sees(*at, mark);
        if found {
            *at += 1;
        }
        found
    }

    /// The length of the text, which is the place of what is missing at its end.
    fn end(&self) -> u32
        requires { length self.now.bytes.now < 2 ^ 32 }
        ensures { result ≡ end_of self.now }
    {
        self.bytes.len() as u32
    }

    /// Where the next token begins.
    #[tactic(auto, unfolding(crate::specs::Grammar::byte_of))]
    pub fn byte_at(&self, at: usize) -> u32
        ensures { result ≡ grammar.byte_of (ahead self.now at) }
    {
        match self.token(at) {
            Some(token) => token.start,
            None => 0,
        }
    }

    /// Why the next token is not what is looked for.
    #[tactic(auto, unfolding(crate::specs::Reading::refusal_at, crate::specs::Lexemes::refusal))]
    pub fn refusal(&self, at: usize, wanted: Wanted) -> ReadRefusal
        requires { length self.now.bytes.now < 2 ^ 32 }
        ensures { result ≡ spec.refusal_at wanted (end_of self.now) (ahead self.now at) }
    {
        match self.token(at) {
            Some(token) => refused_as(form(wanted, token.kind, self.text(token)), token.start),
            None => ReadRefusal::Syntax { byte: self.end() },
        }
    }

    /// The next token stands directly behind a bracket and is an equality sign.
    #[tactic(auto, unfolding(crate::specs::Reading::equality_at))]
    pub fn equality(&self, at: usize) -> ReadRefusal
        requires { length self.now.bytes.now < 2 ^ 32 }
        ensures { result ≡ spec.equality_at (end_of self.now) (ahead self.now at) }
    {
        match self.token(at) {
            Some(token) => ReadRefusal::Unsupported {
                byte: token.start,
                form: Form::Equality,
            },
            None => ReadRefusal::Syntax { byte: self.end() },
        }
    }

    /// No file goes on with the next token, and no form has it.
    #[tactic(auto, unfolding(crate::specs::Reading::syntax_at))]
    pub fn no_form(&self, at: usize) -> ReadRefusal
        requires { length self.now.bytes.now < 2 ^ 32 }
        ensures { result ≡ spec.syntax_at (end_of self.now) (ahead self.now at) }
    {
        match self.token(at) {
            Some(token) => ReadRefusal::Syntax { byte: token.start },
            None => ReadRefusal::Syntax { byte: self.end() },
        }
    }

    #[tactic(auto, unfolding(crate::specs::Reading::deep_at))]
    pub fn too_deep(&self, at: usize) -> ReadRefusal
        requires { length self.now.bytes.now < 2 ^ 32 }
        ensures { result ≡ spec.deep_at (end_of self.now) (ahead self.now at) }
    {
        match self.token(at) {
            Some(token) => ReadRefusal::Deep { byte: token.start },
            None => ReadRefusal::Syntax { byte: self.end() },
        }
    }

    /// The levels beyond the one that a part takes, which must be left.
    pub fn enter(&self, at: usize, left: usize) -> Result<usize, ReadRefusal>
        requires { length self.now.bytes.now < 2 ^ 32 }
        ensures { MatchResult result (λ beyond. left ≡ suc beyond) (λ e. (left ≡ 0) × (e ≡ spec.deep_at (end_of self.now) (ahead self.now at))) }
    {
        if left == 0 {
            Err(self.too_deep(at))
        } else {
            Ok(left - 1)
        }
    }

    /// The next token must not be one that the guard stops.
    #[tactic(auto, unfolding(crate::specs::Reading::read_guard))]
    pub fn guard(&self, at: usize, guard: Guard) -> Result<(), ReadRefusal>
        ensures { spec.Gives (spec.read_guard guard (end_of self.now) (ahead self.now at)) result (ahead self.now at) }
    {
        let Some(token) = self.token(at) else {
            return Ok(());
        };
        match guard_form(guard, class_of(token.kind, self.text(token))) {
            Some(form) => Err(ReadRefusal::Unsupported {
                byte: token.start,
                form,
            }),
            None => Ok(()),
        }
    }

    /// Passes the mark, which is wanted next.
    pub fn expect(&self, at: &mut usize, mark: Mark) -> Result<(), ReadRefusal>
        requires { length self.now.bytes.now < 2 ^ 32 }
        ensures gives { spec.Gives (spec.read_mark mark (end_of self.now) (ahead self.now at.old)) result (ahead self.now at.new) }
        ensures forward { at.old ≤ at.new }
    {
        if self.eat(at, mark) {
            Ok(())
        } else {
            Err(self.refusal(*at, Wanted::Other))
        }
    }

    /// What the next token says to one who looks for such a token.
    #[tactic(auto, unfolding(crate::specs::Reading::said_at))]
    fn said_here(
        &self,
        alloc: Global,
        at: usize,
        says: Says,
    ) -> Result<Option<Items<u8>>, AllocError>
        ensures value { IfOk result (λ it. it ≡ spec.said_at (lexemes.said says) (ahead self.now at)) }
        ensures within { IfOk result (λ it. it ≢ None → at < length self.now.tokens.now) }
    {
        match self.token(at) {
            Some(token) => text_said(alloc, says, token.kind, self.text(token)),
            None => Ok(None),
        }
    }

    /// Passes the next token, which must say something of that kind.
    #[tactic(auto, using(crate::proofs::Sources::rest_ahead))]
    pub fn say(&self, alloc: Global, at: &mut usize, says: Says) -> Result<Items<u8>, ReadRefusal>
        requires { length self.now.bytes.now < 2 ^ 32 }
        ensures gives { spec.Gives (spec.read_said (lexemes.said says) (end_of self.now) (ahead self.now at.old)) result (ahead self.now at.new) }
        ensures forward { at.old ≤ at.new }
        ensures progress { OnOk result (at.old < at.new) }
        ensures within { OnOk result (at.old < length self.now.tokens.now) }
    {
        match self.said_here(alloc, *at, says)? {
            Some(found) => {
                self.pass(at);
                Ok(found)
            }
            None => Err(self.refusal(*at, Wanted::Other)),
        }
    }
}
