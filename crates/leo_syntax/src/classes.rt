//! What a token is to the grammar.

ghost use Rattle.std.specs.Prelude.{◌≡◌};
ghost use Rattle.std.specs.Str.{bytes_eq};
ghost use Rattle.leo_syntax.specs.Classes as spec;

use crate::refusal::Form;
use crate::tree::{Binder, Connective, Sign};
use leo_lex::{Kind, Mark};

/// A word or a mark that is an item by itself.
#[derive(Clone, Copy)]
pub enum Symbol {
    True,
    False,
    Pi,
    Sigma,
    Choice,
}

/// What a token is to a formula or a type.
#[derive(Clone, Copy)]
pub enum Class {
    /// A lower or a quoted token.
    Atom,
    /// An upper.
    Variable,
    Symbol(Symbol),
    /// `$i` or `$iType`
    Individual,
    /// `$o` or `$oType`
    Truth,
    /// `$tType`
    TypeOfTypes,
    Not,
    Bind(Binder),
    Join(Connective),
    Equal(Sign),
    /// `@`
    Apply,
    /// `(`
    Open,
    /// `)`
    Close,
    /// `>`
    Arrow,
    /// `*`
    Star,
    /// Any other token, or the end of the text.
    Other,
}

/// What begins a statement.
#[derive(Clone, Copy)]
pub enum Keyword {
    Thf,
    Include,
    Other,
}

/// What is looked for where a token is refused.
#[derive(Clone, Copy)]
pub enum Wanted {
    Item,
    /// A type without an arrow.
    OperandType,
    Statement,
    /// Anything else.
    Other,
}

/// Which brackets stand around something.
#[derive(Clone, Copy)]
pub enum Shape {
    /// `( )`
    Round,
    /// `[ ]`
    Square,
    /// `{ }`
    Curly,
}

/// What a token is to annotations.
#[derive(Clone, Copy)]
pub enum Bracket {
    Opens(Shape),
    Closes(Shape),
    /// Any other token.
    Plain,
}

/// Which tokens say something that is looked for.
#[derive(Clone, Copy)]
pub enum Says {
    Lower,
    Upper,
    /// A quoted token says its content.
    Quoted,
    /// A lower or a quoted token.
    Atom,
    /// An atom or digits.
    Name,
}

/// What must not stand directly behind a token.
#[derive(Clone, Copy)]
pub enum Guard {
    /// An equality sign behind `(`.
    BehindBracket,
    /// A bracket behind an atom.
    BehindAtom,
    /// A product or arguments behind a type.
    BehindType,
}

#[tactic(auto, unfolding(crate::specs::Classes::mark_class))]
fn mark_class(mark: Mark) -> Class
    ensures { result ≡ spec.mark_class mark }
{
    match mark {
        Mark::Not => Class::Not,
        Mark::ForAll => Class::Bind(Binder::ForAll),
        Mark::Exists => Class::Bind(Binder::Exists),
        Mark::Lambda => Class::Bind(Binder::Lambda),
        Mark::Choice => Class::Bind(Binder::Choice),
        Mark::Or => Class::Join(Connective::Or),
        Mark::And => Class::Join(Connective::And),
        Mark::Implies => Class::Join(Connective::Implies),
        Mark::ImpliedBy => Class::Join(Connective::ImpliedBy),
        Mark::Iff => Class::Join(Connective::Iff),
        Mark::Xor => Class::Join(Connective::Xor),
        Mark::Nor => Class::Join(Connective::Nor),
        Mark::Nand => Class::Join(Connective::Nand),
        Mark::Equal => Class::Equal(Sign::Equal),
        Mark::NotEqual => Class::Equal(Sign::NotEqual),
        Mark::Pi => Class::Symbol(Symbol::Pi),
        Mark::Sigma => Class::Symbol(Symbol::Sigma),
        Mark::ChoiceOf => Class::Symbol(Symbol::Choice),
        Mark::At => Class::Apply,
        Mark::OpenRound => Class::Open,
        Mark::CloseRound => Class::Close,
        Mark::Greater => Class::Arrow,
        Mark::Star => Class::Star,
        _ => Class::Other,
    }
}

#[tactic(auto, unfolding(crate::specs::Classes::mark_bracket))]
fn mark_bracket(mark: Mark) -> Bracket
    ensures { result ≡ spec.mark_bracket mark }
{
    match mark {
        Mark::OpenRound => Bracket::Opens(Shape::Round),
        Mark::OpenSquare => Bracket::Opens(Shape::Square),
        Mark::OpenCurly => Bracket::Opens(Shape::Curly),
        Mark::CloseRound => Bracket::Closes(Shape::Round),
        Mark::CloseSquare => Bracket::Closes(Shape::Square),
        Mark::CloseCurly => Bracket::Closes(Shape::Curly),
        _ => Bracket::Plain,
    }
}

#[tactic(auto, unfolding(crate::specs::Classes::bracket_by))]
pub fn bracket_of(kind: Kind) -> Bracket
    ensures { result ≡ spec.bracket_by kind }
{
    match kind {
        Kind::Mark(mark) => mark_bracket(mark),
        _ => Bracket::Plain,
    }
}

#[tactic(auto, unfolding(crate::specs::Classes::same_shape))]
pub fn same_shape(shape: Shape, other: Shape) -> bool
    ensures { result ≡ spec.same_shape shape other }
{
    match (shape, other) {
        (Shape::Round, Shape::Round)
        | (Shape::Square, Shape::Square)
        | (Shape::Curly, Shape::Curly) => true,
        _ => false,
    }
}

fn is(text: &[u8], word: &[u8]) -> bool
    ensures { result ≡ bytes_eq text.now word.now }
{
    text == word
}

#[tactic(auto, unfolding(crate::specs::Classes::dollar_class))]
fn dollar_class(text: &[u8]) -> Class
    ensures { result ≡ spec.dollar_class text.now }
{
    if is(text, b"$true") {
        Class::Symbol(Symbol::True)
    } else if is(text, b"$false") {
        Class::Symbol(Symbol::False)
    } else if is(text, b"$i") || is(text, b"$iType") {
        Class::Individual
    } else if is(text, b"$o") || is(text, b"$oType") {
        Class::Truth
    } else if is(text, b"$tType") {
        Class::TypeOfTypes
    } else {
        Class::Other
    }
}

#[tactic(auto, unfolding(crate::specs::Classes::class_by))]
pub fn class_of(kind: Kind, text: &[u8]) -> Class
    ensures { result ≡ spec.class_by kind text.now }
{
    match kind {
        Kind::Lower | Kind::Quoted => Class::Atom,
        Kind::Upper => Class::Variable,
        Kind::Dollar => dollar_class(text),
        Kind::Mark(mark) => mark_class(mark),
        Kind::System | Kind::Distinct | Kind::Number => Class::Other,
    }
}

#[tactic(auto, unfolding(crate::specs::Classes::word_keyword))]
fn word_keyword(text: &[u8]) -> Keyword
    ensures { result ≡ spec.word_keyword text.now }
{
    if is(text, b"thf") {
        Keyword::Thf
    } else if is(text, b"include") {
        Keyword::Include
    } else {
        Keyword::Other
    }
}

#[tactic(auto, unfolding(crate::specs::Classes::keyword_by))]
pub fn keyword_of(kind: Kind, text: &[u8]) -> Keyword
    ensures { result ≡ spec.keyword_by kind text.now }
{
    match kind {
        Kind::Lower => word_keyword(text),
        _ => Keyword::Other,
    }
}

#[tactic(auto, unfolding(crate::specs::Classes::mark_form))]
fn mark_form(mark: Mark) -> Option<Form>
    ensures { result ≡ spec.mark_form mark }
{
    match mark {
        Mark::TypeForAll => Some(Form::Polymorphism),
        Mark::Description | Mark::DescriptionOf => Some(Form::Description),
        Mark::Subtype => Some(Form::Subtype),
        Mark::EqualityOf => Some(Form::Equality),
        Mark::OpenCurly
        | Mark::CloseCurly
        | Mark::TypeExists
        | Mark::Identical
        | Mark::LongArrow
        | Mark::Assign
        | Mark::Plus
        | Mark::Minus
        | Mark::Less
        | Mark::Star => Some(Form::Mark),
        _ => None,
    }
}

#[tactic(auto, unfolding(crate::specs::Classes::is_known_word))]
fn is_known_word(text: &[u8]) -> bool
    ensures { result ≡ spec.is_known_word text.now }
{
    is(text, b"$true")
        || is(text, b"$false")
        || is(text, b"$i")
        || is(text, b"$iType")
        || is(text, b"$o")
        || is(text, b"$oType")
}

#[tactic(auto, unfolding(crate::specs::Classes::dollar_form))]
fn dollar_form(text: &[u8]) -> Option<Form>
    ensures { result ≡ spec.dollar_form text.now }
{
    if is_known_word(text) {
        None
    } else if is(text, b"$tType") {
        Some(Form::TypeArguments)
    } else if is(text, b"$let") || is(text, b"$ite") {
        Some(Form::Let)
    } else {
        Some(Form::Word)
    }
}

#[tactic(auto, unfolding(crate::specs::Classes::stray_form))]
fn stray_form(kind: Kind, text: &[u8]) -> Option<Form>
    ensures { result ≡ spec.stray_form kind text.now }
{
    match kind {
        Kind::Dollar => dollar_form(text),
        Kind::System => Some(Form::System),
        Kind::Mark(mark) => mark_form(mark),
        Kind::Lower | Kind::Upper | Kind::Quoted | Kind::Distinct | Kind::Number => None,
    }
}

#[tactic(auto, unfolding(crate::specs::Classes::item_form))]
fn item_form(kind: Kind, text: &[u8]) -> Option<Form>
    ensures { result ≡ spec.item_form kind text.now }
{
    match kind {
        Kind::Number => Some(Form::Number),
        Kind::Distinct => Some(Form::Distinct),
        Kind::Mark(Mark::OpenSquare) => Some(Form::Tuple),
        _ => stray_form(kind, text),
    }
}

#[tactic(auto, unfolding(crate::specs::Classes::type_form))]
fn type_form(kind: Kind, text: &[u8]) -> Option<Form>
    ensures { result ≡ spec.type_form kind text.now }
{
    match kind {
        Kind::Number => Some(Form::Number),
        Kind::Distinct => Some(Form::Distinct),
        Kind::Mark(Mark::Star) => Some(Form::Product),
        _ => stray_form(kind, text),
    }
}

#[tactic(auto, unfolding(crate::specs::Classes::is_dialect))]
fn is_dialect(text: &[u8]) -> bool
    ensures { result ≡ spec.is_dialect text.now }
{
    is(text, b"fof") || is(text, b"cnf") || is(text, b"tff") || is(text, b"tcf") || is(text, b"tpi")
}

#[tactic(auto, unfolding(crate::specs::Classes::statement_form))]
fn statement_form(kind: Kind, text: &[u8]) -> Option<Form>
    ensures { result ≡ spec.statement_form kind text.now }
{
    match kind {
        Kind::Lower => {
            if is_dialect(text) {
                Some(Form::Dialect)
            } else {
                None
            }
        }
        _ => stray_form(kind, text),
    }
}

/// The form that a refused token belongs to.
#[tactic(auto, unfolding(crate::specs::Classes::form_by))]
pub fn form(wanted: Wanted, kind: Kind, text: &[u8]) -> Option<Form>
    ensures { result ≡ spec.form_by wanted kind text.now }
{
    match wanted {
        Wanted::Item => item_form(kind, text),
        Wanted::OperandType => type_form(kind, text),
        Wanted::Statement => statement_form(kind, text),
        Wanted::Other => stray_form(kind, text),
    }
}

/// The form that a token belongs to which the guard does not let pass.
#[tactic(auto, unfolding(crate::specs::Classes::guard_form))]
pub fn guard_form(guard: Guard, class: Class) -> Option<Form>
    ensures { result ≡ spec.guard_form guard class }
{
    match (guard, class) {
        (Guard::BehindBracket, Class::Equal(_)) => Some(Form::Equality),
        (Guard::BehindAtom, Class::Open) => Some(Form::Arguments),
        (Guard::BehindType, Class::Open | Class::Apply) => Some(Form::TypeArguments),
        (Guard::BehindType, Class::Star) => Some(Form::Product),
        _ => None,
    }
}
