//! Reading types. `left` says how many levels there are from the part on.

ghost use Rattle.std.specs.Prelude.{◌≡◌, ◌<◌, ◌≤◌, ◌^◌, length, IfOk};
ghost use Rattle.leo_syntax.specs.Grammar as grammar;
ghost use Rattle.leo_syntax.specs.Reading as spec;
ghost use Rattle.leo_syntax.specs.Reading.{Gives};
ghost use Rattle.leo_syntax.specs.Source.{ahead, end_of};

use crate::classes::{Class, Guard, Says, Wanted};
use crate::refusal::ReadRefusal;
use crate::source::Source;
use crate::tree::{TypeNode, TypeTree, TypeWord};
use leo_items::Boxed;
use leo_lex::Mark;
use std::alloc::{AllocError, Global};

fn arrow(alloc: Global, byte: u32, from: TypeTree, to: TypeTree) -> Result<TypeTree, AllocError>
    ensures { IfOk result (λ ty. ty ≡ grammar.arrow byte from to) }
{
    Ok(TypeTree {
        byte,
        node: TypeNode::Arrow(Boxed::new(alloc, from)?, Boxed::new(alloc, to)?),
    })
}

fn base(byte: u32, word: TypeWord) -> TypeTree
    ensures { result ≡ grammar.type_at byte word }
{
    TypeTree {
        byte,
        node: TypeNode::Base(word),
    }
}

/// A type in brackets, where `left` levels are left behind the first of them.
#[cycle(ty)]
fn type_inside(
    alloc: Global,
    source: &Source<'_>,
    at: &mut usize,
    left: usize,
) -> Result<TypeTree, ReadRefusal>
    requires { length source.now.bytes.now < 2 ^ 32 }
    ensures gives { Gives (spec.opened (end_of source.now) left (spec.ty (end_of source.now) left) (ahead source.now at.old)) result (ahead source.now at.new) }
    ensures forward { at.old ≤ at.new }
{
    let _beyond = source.enter(*at, left)?;
    source.guard(*at, Guard::BehindBracket)?;
    let ty = read_type(alloc, source, at, left)?;
    source.expect(at, Mark::CloseRound)?;
    Ok(ty)
}

/// A type without an arrow, where `left` levels are left behind it.
#[cycle(ty)]
#[tactic(auto, unfolding(crate::specs::Reading::operand_type_with))]
fn operand_type(
    alloc: Global,
    source: &Source<'_>,
    at: &mut usize,
    left: usize,
) -> Result<TypeTree, ReadRefusal>
    requires { length source.now.bytes.now < 2 ^ 32 }
    ensures gives { Gives (spec.operand_type_with (end_of source.now) left (spec.ty (end_of source.now) left) (ahead source.now at.old)) result (ahead source.now at.new) }
    ensures forward { at.old ≤ at.new }
{
    let byte = source.byte_at(*at);
    match source.class(*at) {
        Class::Atom => {
            let name = source.say(alloc, at, Says::Atom)?;
            Ok(base(byte, TypeWord::Atom(name)))
        }
        Class::Individual => {
            source.pass(at);
            Ok(base(byte, TypeWord::Individual))
        }
        Class::Truth => {
            source.pass(at);
            Ok(base(byte, TypeWord::Truth))
        }
        Class::TypeOfTypes => {
            source.pass(at);
            Ok(base(byte, TypeWord::TypeOfTypes))
        }
        Class::Open => {
            source.pass(at);
            let inner = type_inside(alloc, source, at, left)?;
            Ok(inner)
        }
        _ => Err(source.refusal(*at, Wanted::OperandType)),
    }
}

#[cycle(ty)]
#[tactic(auto, unfolding(crate::specs::Reading::ty, crate::specs::Reading::type_with))]
pub fn read_type(
    alloc: Global,
    source: &Source<'_>,
    at: &mut usize,
    left: usize,
) -> Result<TypeTree, ReadRefusal>
    requires { length source.now.bytes.now < 2 ^ 32 }
    ensures gives { Gives (spec.ty (end_of source.now) left (ahead source.now at.old)) result (ahead source.now at.new) }
    ensures forward { at.old ≤ at.new }
{
    let beyond = source.enter(*at, left)?;
    let byte = source.byte_at(*at);
    let from = operand_type(alloc, source, at, beyond)?;
    source.guard(*at, Guard::BehindType)?;
    match source.class(*at) {
        Class::Arrow => {
            source.pass(at);
            let to = read_type(alloc, source, at, beyond)?;
            let ty = arrow(alloc, byte, from, to)?;
            Ok(ty)
        }
        _ => Ok(from),
    }
}
