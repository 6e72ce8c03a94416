//! From types as they are written to types of a bank.

ghost use Rattle.std.specs.Prelude.{◌≡◌, ◌≢◌, ◌<◌, length, IfOk, IfErr};
ghost use Rattle.leo_terms.specs.Contents.{Extends, type_at};
ghost use Rattle.leo_elab.specs.declared.refusal.ElabRefusal.TheVariants.{Memory};
ghost use Rattle.leo_syntax.specs.declared.tree.TypeNode.TheOpen.{TypeNode-F};
ghost use Rattle.leo_elab.specs.Problem.{Declared};
ghost use Rattle.leo_elab.specs.Signs.{type_top};
ghost use Rattle.leo_elab.specs.Table.{AreNamesOf, KnowsNames};
ghost use Rattle.leo_elab.specs.Meaning.{MeansType};
ghost use Rattle.leo_elab.specs.Offences.{OffendsInType};

use crate::names::Names;
use crate::refusal::ElabRefusal;
use leo_syntax::{Form, TypeNode, TypeTree, TypeWord};
use leo_terms::{Bank, TyId};

/// The type that a word means.
fn word_type(
    bank: &Bank,
    names: &Names,
    ty: &TypeTree,
    word: &TypeWord,
) -> Result<TyId, ElabRefusal>
    requires names { AreNamesOf bank.now names.now }
    requires top { type_top ty.now ≡ TypeNode-F.Base word.now }
    ensures within { IfOk result (λ i. i < length bank.now.types) }
    ensures value { IfOk result (λ i. (d : Declared) → KnowsNames bank.now names.now d → MeansType d ty.now (type_at bank.now i)) }
    ensures refusal { IfErr result (λ e. (d : Declared) → KnowsNames bank.now names.now d → OffendsInType d ty.now e) }
{
    bank.is_sound();
    match word {
        TypeWord::Individual => Ok(TyId::thing()),
        TypeWord::Truth => Ok(TyId::truth()),
        TypeWord::TypeOfTypes => Err(ElabRefusal::Unsupported {
            byte: ty.byte,
            form: Form::TypeArguments,
        }),
        TypeWord::Atom(name) => match names.type_named(name.as_slice()) {
            Some(known) => Ok(known),
            None => match names.constant_named(name.as_slice()) {
                Some(_) => Err(ElabRefusal::WrongType { byte: ty.byte }),
                None => Err(ElabRefusal::Unknown { byte: ty.byte }),
            },
        },
    }
}

/// How many levels the recursion goes down. A type of a text with 500 levels needs less.
pub const ROOM: u32 = 6000;

/// The type that a type tree means. Goes at most `room` levels down.
pub fn read_type(
    bank: &mut Bank,
    names: &Names,
    ty: &TypeTree,
    room: u32,
) -> Result<TyId, ElabRefusal>
    requires { AreNamesOf bank.old names.now }
    ensures within { IfOk result (λ i. i < length bank.new.types) }
    ensures value { IfOk result (λ i. (d : Declared) → KnowsNames bank.old names.now d → MeansType d ty.now (type_at bank.new i)) }
    ensures refusal { IfErr result (λ e. e ≢ Memory → (d : Declared) → KnowsNames bank.old names.now d → OffendsInType d ty.now e) }
    ensures rest { bank.new ≡ record bank.old { types = bank.new.types } }
    ensures grows { Extends bank.old bank.new }
{
    bank.is_sound();
    let Some(room) = room.checked_sub(1) else {
        return Err(ElabRefusal::Memory);
    };
    match &ty.node {
        TypeNode::Base(word) => {
            let known = word_type(bank, names, ty, word)?;
            Ok(known)
        }
        TypeNode::Arrow(from, to) => {
            let a = read_type(bank, names, from.get(), room)?;
            let b = read_type(bank, names, to.get(), room)?;
            let whole = bank.arrow(a, b)?;
            Ok(whole)
        }
    }
}
