//! Writing trees. A bracket stands only where every text of the tree has one, so that the text has
//! no more levels than any other text of the tree.

ghost use Rattle.std.specs.Prelude.{◌≡◌, ◌++◌, ◌∷◌, [], ◌<◌, OnOk, map};
ghost use Rattle.std.specs.List.{list_all};
ghost use Rattle.leo_lex.specs.Bytes as class;
ghost use Rattle.leo_syntax.specs.Texts as spec;
ghost use Rattle.leo_syntax.specs.declared.writing.Place.TheVariants.{Item};

use crate::tree::{Binder, Connective, Node, Sign, Tree, TypeNode, TypeTree, TypeWord, Variable};
use std::alloc::AllocError;

/// Where a tree stands. At a sealed place the mark of an equation stands behind the tree, which must
/// not take it.
#[derive(Clone, Copy)]
pub enum Place {
    /// A body, or between brackets.
    Formula,
    /// Behind `~` or a binder, or beside a connective.
    Operand,
    /// An operand that ends in an equation, at a sealed place.
    SealedOperand,
    /// The right operand of that connective, which stands in chains.
    Chain(Connective),
    /// The right side of an equation.
    Side,
    SealedSide,
    /// The left side of an equation.
    Left,
    /// The last argument of an application.
    Last,
    SealedLast,
    /// A head, or an argument before others.
    Item,
}

/// Appends a word and a space.
pub fn word(out: &mut Vec<u8>, text: &[u8]) -> Result<(), AllocError>
    ensures { OnOk result (out.new.items ≡ out.old.items ++ spec.word text.now) }
{
    out.extend_from_slice(text)?;
    out.push(b' ')?;
    Ok(())
}

/// A bracket that opens, unless the part stands without.
fn open(out: &mut Vec<u8>, stands: bool) -> Result<(), AllocError>
    ensures { OnOk result (out.new.items ≡ out.old.items ++ spec.opened stands) }
{
    if stands { Ok(()) } else { word(out, b"(") }
}

fn close(out: &mut Vec<u8>, stands: bool) -> Result<(), AllocError>
    ensures { OnOk result (out.new.items ≡ out.old.items ++ spec.closed stands) }
{
    if stands { Ok(()) } else { word(out, b")") }
}

#[tactic(auto, unfolding(crate::specs::Texts::connective_text))]
fn connective_text(connective: Connective) -> &'static [u8]
    ensures { result.now ≡ spec.connective_text connective }
{
    match connective {
        Connective::Or => b"|",
        Connective::And => b"&",
        Connective::Implies => b"=>",
        Connective::ImpliedBy => b"<=",
        Connective::Iff => b"<=>",
        Connective::Xor => b"<~>",
        Connective::Nor => b"~|",
        Connective::Nand => b"~&",
    }
}

#[tactic(auto, unfolding(crate::specs::Texts::binder_text))]
fn binder_text(binder: Binder) -> &'static [u8]
    ensures { result.now ≡ spec.binder_text binder }
{
    match binder {
        Binder::ForAll => b"!",
        Binder::Exists => b"?",
        Binder::Lambda => b"^",
        Binder::Choice => b"@+",
    }
}

#[tactic(auto, unfolding(crate::specs::Texts::sign_text))]
fn sign_text(sign: Sign) -> &'static [u8]
    ensures { result.now ≡ spec.sign_text sign }
{
    match sign {
        Sign::Equal => b"=",
        Sign::NotEqual => b"!=",
    }
}

impl Place {
    fn joins(self, connective: Connective) -> bool
        ensures { result ≡ spec.joins self connective }
    {
        match (self, connective) {
            (Place::Formula, _) => true,
            (Place::Chain(Connective::Or), Connective::Or) => true,
            (Place::Chain(Connective::And), Connective::And) => true,
            _ => false,
        }
    }

    /// Whether a negation of that operand stands here without brackets.
    fn negates(self, operand: &Tree) -> bool
        ensures { result ≡ spec.negates self (spec.writer operand.now).ends }
    {
        match self {
            Place::Left | Place::Last | Place::SealedLast | Place::Item => false,
            Place::SealedSide => ends_in_equation(operand),
            _ => true,
        }
    }

    /// Whether a binder with that body stands here without brackets.
    fn binds(self, body: &Tree) -> bool
        ensures { result ≡ spec.binds self (spec.writer body.now).ends }
    {
        match self {
            Place::Left | Place::Item => false,
            Place::SealedSide | Place::SealedLast => ends_in_equation(body),
            _ => true,
        }
    }

    fn equates(self) -> bool
        ensures { result ≡ spec.equates self }
    {
        matches!(
            self,
            Place::Formula | Place::Operand | Place::SealedOperand | Place::Chain(_)
        )
    }

    fn applies(self) -> bool
        ensures { result ≡ spec.applies self }
    {
        !matches!(self, Place::Last | Place::SealedLast | Place::Item)
    }

    fn is_sealed(self) -> bool
        ensures { result ≡ spec.is_sealed self }
    {
        matches!(
            self,
            Place::SealedOperand | Place::SealedSide | Place::SealedLast
        )
    }

    /// Where the operand of what is here stands.
    fn operand(self, stands: bool) -> Place
        ensures { result ≡ spec.operand_of self stands }
    {
        if stands && self.is_sealed() {
            Place::SealedOperand
        } else {
            Place::Operand
        }
    }

    /// Where the right side of an equation that is here stands.
    fn side(self) -> Place
        ensures { result ≡ spec.side_of self }
    {
        match self {
            Place::SealedOperand => Place::SealedSide,
            _ => Place::Side,
        }
    }

    /// Where an argument stands that has so many behind it, with itself, and whose last stands here.
    fn before(self, count: usize) -> Place
        ensures last { count ≡ 1 → result ≡ self }
        ensures others { 1 < count → result ≡ Item }
    {
        if count == 1 { self } else { Place::Item }
    }

    /// Where the last argument of an application that is here stands.
    fn last(self) -> Place
        ensures { result ≡ spec.last_of self }
    {
        match self {
            Place::Left | Place::SealedSide => Place::SealedLast,
            _ => Place::Last,
        }
    }
}

/// Whether the text of a tree as an operand ends in an equation, so that it takes no other mark.
fn ends_in_equation(tree: &Tree) -> bool
    ensures { result ≡ (spec.writer tree.now).ends }
{
    match &tree.node {
        Node::Bind(_, _, body) => ends_in_equation(body.get()),
        Node::Not(operand) => ends_in_equation(operand.get()),
        Node::Equal(..) => true,
        _ => false,
    }
}

fn right_of(connective: Connective) -> Place
    ensures { result ≡ spec.right_of connective }
{
    match connective {
        Connective::Or | Connective::And => Place::Chain(connective),
        _ => Place::Operand,
    }
}

#[tactic(auto, unfolding(crate::specs::Texts::is_hidden))]
fn is_hidden(byte: u8) -> bool
    ensures { result ≡ spec.is_hidden byte }
{
    byte == b'\'' || byte == b'\\'
}

fn character(out: &mut Vec<u8>, byte: u8) -> Result<(), AllocError>
    ensures { OnOk result (out.new.items ≡ out.old.items ++ spec.character byte) }
{
    if is_hidden(byte) {
        out.push(b'\\')?;
    }
    out.push(byte)?;
    Ok(())
}

/// Appends a content with `\` before a quote and before another `\`.
fn escape(out: &mut Vec<u8>, content: &[u8]) -> Result<(), AllocError>
    ensures { OnOk result (out.new.items ≡ out.old.items ++ spec.escaped content.now) }
{
    for byte in content {
        character(out, *byte)?;
    }
    Ok(())
}

#[tactic(auto, unfolding(crate::specs::Texts::quoted))]
pub fn quoted(out: &mut Vec<u8>, content: &[u8]) -> Result<(), AllocError>
    ensures { OnOk result (out.new.items ≡ out.old.items ++ spec.word (spec.quoted content.now)) }
{
    out.push(b'\'')?;
    escape(out, content)?;
    out.extend_from_slice(b"' ")?;
    Ok(())
}

#[tactic(auto, unfolding(leo_lex::specs::Bytes::is_word))]
fn is_word(byte: u8) -> bool
    ensures { result ≡ class.is_word byte }
{
    byte.is_ascii_alphanumeric() || byte == b'_'
}

#[tactic(auto, unfolding(leo_lex::specs::Bytes::is_lower))]
fn is_lower(byte: u8) -> bool
    ensures { result ≡ class.is_lower byte }
{
    byte.is_ascii_lowercase()
}

#[tactic(auto, unfolding(leo_lex::specs::Bytes::is_digit))]
fn is_digit(byte: u8) -> bool
    ensures { result ≡ class.is_digit byte }
{
    byte.is_ascii_digit()
}

fn are_words(text: &[u8]) -> bool
    ensures { result ≡ list_all class.is_word text.now }
{
    text.iter().all(|byte| is_word(*byte))
}

fn are_digits(text: &[u8]) -> bool
    ensures { result ≡ list_all class.is_digit text.now }
{
    text.iter().all(|byte| is_digit(*byte))
}

/// Whether an atom can stand without quotes.
#[tactic(auto, unfolding(crate::specs::Texts::is_bare))]
fn is_bare(name: &[u8]) -> bool
    ensures { result ≡ spec.is_bare name.now }
{
    match name {
        [] => false,
        [first, rest @ ..] => is_lower(*first) && are_words(rest),
    }
}

#[tactic(auto, unfolding(crate::specs::Texts::is_number))]
fn is_number(name: &[u8]) -> bool
    ensures { result ≡ spec.is_number name.now }
{
    match name {
        [] => false,
        [first, rest @ ..] => is_digit(*first) && are_digits(rest),
    }
}

/// Appends an atom, without quotes where it can stand so.
#[tactic(auto, unfolding(crate::specs::Texts::atom_text))]
pub fn atom(out: &mut Vec<u8>, name: &[u8]) -> Result<(), AllocError>
    ensures { OnOk result (out.new.items ≡ out.old.items ++ spec.word (spec.atom_text name.now)) }
{
    if is_bare(name) {
        word(out, name)
    } else {
        quoted(out, name)
    }
}

#[tactic(auto, unfolding(crate::specs::Texts::name_text))]
pub fn name(out: &mut Vec<u8>, text: &[u8]) -> Result<(), AllocError>
    ensures { OnOk result (out.new.items ≡ out.old.items ++ spec.word (spec.name_text text.now)) }
{
    if is_number(text) {
        word(out, text)
    } else {
        atom(out, text)
    }
}

#[tactic(auto, unfolding(crate::specs::Texts::type_word_text))]
fn type_word(out: &mut Vec<u8>, found: &TypeWord) -> Result<(), AllocError>
    ensures { OnOk result (out.new.items ≡ out.old.items ++ spec.word (spec.type_word_text found.now)) }
{
    match found {
        TypeWord::Individual => word(out, b"$i"),
        TypeWord::Truth => word(out, b"$o"),
        TypeWord::TypeOfTypes => word(out, b"$tType"),
        TypeWord::Atom(name) => atom(out, name.as_slice()),
    }
}

/// Appends a type. In an operand of an arrow another arrow is in brackets.
#[cycle(types_written)]
pub fn write_type(out: &mut Vec<u8>, ty: &TypeTree, whole: bool) -> Result<(), AllocError>
    ensures { OnOk result (out.new.items ≡ out.old.items ++ spec.type_written whole ty.now) }
{
    match &ty.node {
        TypeNode::Base(found) => type_word(out, found),
        TypeNode::Arrow(from, to) => {
            open(out, whole)?;
            write_type(out, from.get(), false)?;
            word(out, b">")?;
            write_type(out, to.get(), true)?;
            close(out, whole)
        }
    }
}

fn variable(out: &mut Vec<u8>, variable: &Variable) -> Result<(), AllocError>
    ensures { OnOk result (out.new.items ≡ out.old.items ++ spec.variable_written variable.now) }
{
    word(out, variable.name.as_slice())?;
    word(out, b":")?;
    write_type(out, &variable.ty, true)
}

fn variables(out: &mut Vec<u8>, list: &[Variable]) -> Result<(), AllocError>
    ensures { OnOk result (out.new.items ≡ out.old.items ++ spec.variables_written list.now) }
{
    match list {
        [] => Ok(()),
        [first, rest @ ..] => {
            variable(out, first)?;
            further_variables(out, rest)
        }
    }
}

fn further_variables(out: &mut Vec<u8>, list: &[Variable]) -> Result<(), AllocError>
    ensures { OnOk result (out.new.items ≡ out.old.items ++ spec.further_variables list.now) }
{
    for found in list {
        word(out, b",")?;
        variable(out, found)?;
    }
    Ok(())
}

/// A binder with its variables, up to the body.
fn binder(out: &mut Vec<u8>, found: Binder, list: &[Variable]) -> Result<(), AllocError>
    ensures { OnOk result (out.new.items ≡ out.old.items ++ spec.binder_written found list.now) }
{
    word(out, binder_text(found))?;
    word(out, b"[")?;
    variables(out, list)?;
    word(out, b"]")?;
    word(out, b":")
}

fn in_brackets(out: &mut Vec<u8>, text: &[u8]) -> Result<(), AllocError>
    ensures { OnOk result (out.new.items ≡ out.old.items ++ spec.sign_written text.now) }
{
    word(out, b"(")?;
    word(out, text)?;
    word(out, b")")
}

#[cycle(trees_written)]
fn arguments(out: &mut Vec<u8>, list: &[Tree], last: Place) -> Result<(), AllocError>
    ensures { OnOk result (out.new.items ≡ out.old.items ++ spec.arguments_written last (map spec.writer list.now)) }
{
    for at in 0..list.len() {
        word(out, b"@")?;
        write_tree(out, &list[at], last.before(list.len() - at))?;
    }
    Ok(())
}

/// Appends a tree as it stands at that place.
#[cycle(trees_written)]
pub fn write_tree(out: &mut Vec<u8>, tree: &Tree, place: Place) -> Result<(), AllocError>
    ensures { OnOk result (out.new.items ≡ out.old.items ++ spec.written place tree.now) }
{
    match &tree.node {
        Node::Atom(name) => atom(out, name.as_slice()),
        Node::Var(name) => word(out, name.as_slice()),
        Node::True => word(out, b"$true"),
        Node::False => word(out, b"$false"),
        Node::Apply(head, list) => {
            open(out, place.applies())?;
            write_tree(out, head.get(), Place::Item)?;
            arguments(out, list.as_slice(), place.last())?;
            close(out, place.applies())
        }
        Node::Bind(found, list, body) => {
            let stands = place.binds(body.get());
            open(out, stands)?;
            binder(out, *found, list.as_slice())?;
            write_tree(out, body.get(), place.operand(stands))?;
            close(out, stands)
        }
        Node::Not(operand) => {
            let stands = place.negates(operand.get());
            open(out, stands)?;
            word(out, b"~")?;
            write_tree(out, operand.get(), place.operand(stands))?;
            close(out, stands)
        }
        Node::Join(connective, left, right) => {
            open(out, place.joins(*connective))?;
            write_tree(out, left.get(), Place::Operand)?;
            word(out, connective_text(*connective))?;
            write_tree(out, right.get(), right_of(*connective))?;
            close(out, place.joins(*connective))
        }
        Node::Equal(sign, _, left, right) => {
            open(out, place.equates())?;
            write_tree(out, left.get(), Place::Left)?;
            word(out, sign_text(*sign))?;
            write_tree(out, right.get(), place.side())?;
            close(out, place.equates())
        }
        Node::Negation => in_brackets(out, b"~"),
        Node::Connective(connective) => in_brackets(out, connective_text(*connective)),
        Node::Pi => word(out, b"!!"),
        Node::Sigma => word(out, b"??"),
        Node::Choice => word(out, b"@@+"),
    }
}
