//! Reading statements.

ghost use Rattle.std.specs.Prelude.{◌≡◌, ◌<◌, ◌≤◌, ◌^◌, length, codes, OnOk};
ghost use Rattle.std.specs.Str.{bytes_eq};
ghost use Rattle.leo_syntax.specs.Reading as spec;
ghost use Rattle.leo_syntax.specs.Reading.{Gives};
ghost use Rattle.leo_syntax.specs.Source.{ahead, end_of};

use crate::annotations::annotations;
use crate::classes::{Class, Guard, Keyword, Says, Wanted};
use crate::formulas::formula;
use crate::includes::selection;
use crate::refusal::ReadRefusal;
use crate::source::Source;
use crate::tree::Statement;
use crate::typed::Typed;
use crate::types::read_type;
use leo_items::Items;
use leo_lex::Mark;
use std::alloc::Global;

/// How many levels a body may have, and the token behind the last.
const MAX_LEVELS: usize = 501;

/// What stands in the brackets of a typing, up to and with the bracket that closes them.
#[cycle(typing)]
fn typing_inside(
    alloc: Global,
    source: &Source<'_>,
    at: &mut usize,
    left: usize,
) -> Result<Typed, ReadRefusal>
    requires { length source.now.bytes.now < 2 ^ 32 }
    ensures gives { Gives (spec.opened (end_of source.now) left (spec.typing (end_of source.now) left) (ahead source.now at.old)) result (ahead source.now at.new) }
    ensures forward { at.old ≤ at.new }
{
    let _beyond = source.enter(*at, left)?;
    source.guard(*at, Guard::BehindBracket)?;
    let found = typing(alloc, source, at, left)?;
    source.expect(at, Mark::CloseRound)?;
    Ok(found)
}

/// An atom with its type, for which `left` levels are left.
#[tactic(auto, unfolding(crate::specs::Reading::typed))]
fn atom_typed(
    alloc: Global,
    source: &Source<'_>,
    at: &mut usize,
    left: usize,
) -> Result<Typed, ReadRefusal>
    requires { length source.now.bytes.now < 2 ^ 32 }
    ensures gives { Gives (spec.typed (end_of source.now) left (ahead source.now at.old)) result (ahead source.now at.new) }
    ensures forward { at.old ≤ at.new }
{
    let atom_byte = source.byte_at(*at);
    let atom = source.say(alloc, at, Says::Atom)?;
    source.expect(at, Mark::Colon)?;
    let ty = read_type(alloc, source, at, left)?;
    Ok(Typed {
        atom,
        atom_byte,
        ty,
    })
}

/// An atom with its type, maybe in brackets.
#[cycle(typing)]
#[tactic(auto, unfolding(crate::specs::Reading::typing))]
fn typing(
    alloc: Global,
    source: &Source<'_>,
    at: &mut usize,
    left: usize,
) -> Result<Typed, ReadRefusal>
    requires { length source.now.bytes.now < 2 ^ 32 }
    ensures gives { Gives (spec.typing (end_of source.now) left (ahead source.now at.old)) result (ahead source.now at.new) }
    ensures forward { at.old ≤ at.new }
{
    let beyond = source.enter(*at, left)?;
    match source.class(*at) {
        Class::Open => {
            source.pass(at);
            let found = typing_inside(alloc, source, at, beyond)?;
            Ok(found)
        }
        _ => {
            let found = atom_typed(alloc, source, at, left)?;
            Ok(found)
        }
    }
}

fn is_typing(role: &[u8]) -> bool
    ensures { result ≡ bytes_eq role.now (codes "type") }
{
    role == b"type".as_slice()
}

/// The end of a statement.
#[tactic(auto, unfolding(crate::specs::Reading::ended))]
fn ended(source: &Source<'_>, at: &mut usize) -> Result<(), ReadRefusal>
    requires { length source.now.bytes.now < 2 ^ 32 }
    ensures gives { Gives (spec.ended (end_of source.now) (ahead source.now at.old)) result (ahead source.now at.new) }
    ensures forward { at.old ≤ at.new }
{
    source.expect(at, Mark::CloseRound)?;
    source.expect(at, Mark::Dot)?;
    Ok(())
}

/// What stands behind a body.
#[tactic(auto, unfolding(crate::specs::Reading::ending))]
fn ending(alloc: Global, source: &Source<'_>, at: &mut usize) -> Result<(), ReadRefusal>
    requires { length source.now.bytes.now < 2 ^ 32 }
    ensures gives { Gives (spec.ending (end_of source.now) (ahead source.now at.old)) result (ahead source.now at.new) }
    ensures forward { at.old ≤ at.new }
{
    annotations(alloc, source, at)?;
    ended(source, at)?;
    Ok(())
}

/// A typing, and what stands behind it.
#[tactic(auto, unfolding(crate::specs::Reading::typing_statement))]
fn typing_statement(
    alloc: Global,
    source: &Source<'_>,
    at: &mut usize,
    byte: u32,
    name: Items<u8>,
) -> Result<Statement, ReadRefusal>
    requires { length source.now.bytes.now < 2 ^ 32 }
    ensures gives { Gives (spec.typing_statement (end_of source.now) byte name (ahead source.now at.old)) result (ahead source.now at.new) }
    ensures forward { at.old ≤ at.new }
{
    let Typed {
        atom,
        atom_byte,
        ty,
    } = typing(alloc, source, at, MAX_LEVELS)?;
    ending(alloc, source, at)?;
    Ok(Statement::Typing {
        byte,
        name,
        atom,
        atom_byte,
        ty,
    })
}

/// A formula, and what stands behind it.
#[tactic(auto, unfolding(crate::specs::Reading::formula_statement))]
fn formula_statement(
    alloc: Global,
    source: &Source<'_>,
    at: &mut usize,
    byte: u32,
    name: Items<u8>,
    role: Items<u8>,
    role_byte: u32,
) -> Result<Statement, ReadRefusal>
    requires { length source.now.bytes.now < 2 ^ 32 }
    ensures gives { Gives (spec.formula_statement (end_of source.now) byte name role role_byte (ahead source.now at.old)) result (ahead source.now at.new) }
    ensures forward { at.old ≤ at.new }
{
    let tree = formula(alloc, source, at, MAX_LEVELS)?;
    ending(alloc, source, at)?;
    Ok(Statement::Formula {
        byte,
        name,
        role,
        role_byte,
        tree,
    })
}

/// The body that the role calls for, and what stands behind it.
#[tactic(auto, unfolding(crate::specs::Reading::stated))]
fn stated(
    alloc: Global,
    source: &Source<'_>,
    at: &mut usize,
    byte: u32,
    name: Items<u8>,
    role: Items<u8>,
    role_byte: u32,
) -> Result<Statement, ReadRefusal>
    requires { length source.now.bytes.now < 2 ^ 32 }
    ensures gives { Gives (spec.stated (end_of source.now) byte name role role_byte (ahead source.now at.old)) result (ahead source.now at.new) }
    ensures forward { at.old ≤ at.new }
{
    if is_typing(role.as_slice()) {
        let found = typing_statement(alloc, source, at, byte, name)?;
        Ok(found)
    } else {
        let found = formula_statement(alloc, source, at, byte, name, role, role_byte)?;
        Ok(found)
    }
}

/// What stands behind the `thf` of a statement that began at `byte`.
#[tactic(auto, unfolding(crate::specs::Reading::headed))]
fn headed(
    alloc: Global,
    source: &Source<'_>,
    at: &mut usize,
    byte: u32,
) -> Result<Statement, ReadRefusal>
    requires { length source.now.bytes.now < 2 ^ 32 }
    ensures gives { Gives (spec.headed (end_of source.now) byte (ahead source.now at.old)) result (ahead source.now at.new) }
    ensures forward { at.old ≤ at.new }
{
    source.expect(at, Mark::OpenRound)?;
    source.guard(*at, Guard::BehindBracket)?;
    let name = source.say(alloc, at, Says::Name)?;
    source.expect(at, Mark::Comma)?;
    let role_byte = source.byte_at(*at);
    let role = source.say(alloc, at, Says::Lower)?;
    source.expect(at, Mark::Comma)?;
    let found = stated(alloc, source, at, byte, name, role, role_byte)?;
    Ok(found)
}

/// What stands behind the `include` of a statement that began at `byte`.
#[tactic(auto, unfolding(crate::specs::Reading::included))]
fn included(
    alloc: Global,
    source: &Source<'_>,
    at: &mut usize,
    byte: u32,
) -> Result<Statement, ReadRefusal>
    requires { length source.now.bytes.now < 2 ^ 32 }
    ensures gives { Gives (spec.included (end_of source.now) byte (ahead source.now at.old)) result (ahead source.now at.new) }
    ensures forward { at.old ≤ at.new }
{
    source.expect(at, Mark::OpenRound)?;
    source.guard(*at, Guard::BehindBracket)?;
    let file_byte = source.byte_at(*at);
    let file = source.say(alloc, at, Says::Quoted)?;
    let names = selection(alloc, source, at)?;
    ended(source, at)?;
    Ok(Statement::Include {
        byte,
        file,
        file_byte,
        names,
    })
}

/// A statement.
#[tactic(auto, unfolding(crate::specs::Reading::statement))]
pub fn statement(
    alloc: Global,
    source: &Source<'_>,
    at: &mut usize,
) -> Result<Statement, ReadRefusal>
    requires short { length source.now.bytes.now < 2 ^ 32 }
    requires more { at.old < length source.now.tokens.now }
    ensures gives { Gives (spec.statement (end_of source.now) (ahead source.now at.old)) result (ahead source.now at.new) }
    ensures progress { OnOk result (at.old < at.new) }
{
    let byte = source.byte_at(*at);
    match source.keyword(*at) {
        Keyword::Thf => {
            source.pass(at);
            let found = headed(alloc, source, at, byte)?;
            Ok(found)
        }
        Keyword::Include => {
            source.pass(at);
            let found = included(alloc, source, at, byte)?;
            Ok(found)
        }
        Keyword::Other => Err(source.refusal(*at, Wanted::Statement)),
    }
}
