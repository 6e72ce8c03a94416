//! What is wrong in typings.

ghost use Rattle.std.specs.Prelude.{◌≡◌, ◌≢◌, ◌<◌, ℕ, true, false, length, OnOk, IfOk, IfErr, Some, None, slice_get};
ghost use Rattle.leo_syntax.specs.declared.tree.TypeNode.TheOpen.{TypeNode-F};
ghost use Rattle.leo_elab.specs.declared.refusal.ElabRefusal.TheVariants.{Memory};
ghost use Rattle.leo_elab.specs.Problem.{Declared, named};
ghost use Rattle.leo_elab.specs.Signs.{type_top};
ghost use Rattle.leo_elab.specs.Offences.{OffendsInType};
ghost use Rattle.leo_elab.specs.Declaring.{DeclaresType};
ghost use Rattle.leo_elab.specs.Pairs.{IsEachOnce};
ghost use Rattle.leo_elab.specs.Places.{IsType};
ghost use Rattle.leo_elab.specs.Typings as spec;

use crate::firsts::{Firsts, Typing};
use crate::refusal::{ElabRefusal, TypingsRefusal};
use crate::types::ROOM;
use leo_syntax::{Form, TypeNode, TypeTree, TypeWord};
use std::alloc::AllocError;

/// Whether a type is `$tType` as a whole.
pub fn declares_type(ty: &TypeTree) -> bool
    ensures value { result ≡ spec.declares_type ty.now }
    ensures yes { result ≡ true → DeclaresType ty.now }
    ensures no { result ≡ false → ¬ DeclaresType ty.now }
{
    match &ty.node {
        TypeNode::Base(word) => matches!(word, TypeWord::TypeOfTypes),
        TypeNode::Arrow(_, _) => false,
    }
}

fn are_same(word: &TypeWord, other: &TypeWord) -> bool
    ensures yes { result ≡ true → word.now ≡ other.now }
    ensures no { result ≡ false → word.now ≢ other.now }
{
    match word {
        TypeWord::Individual => matches!(other, TypeWord::Individual),
        TypeWord::Truth => matches!(other, TypeWord::Truth),
        TypeWord::TypeOfTypes => matches!(other, TypeWord::TypeOfTypes),
        TypeWord::Atom(name) => match other {
            TypeWord::Atom(other_name) => name.as_slice() == other_name.as_slice(),
            _ => false,
        },
    }
}

/// Whether two types say the same. Goes at most `room` levels down.
fn are_alike(ty: &TypeTree, other: &TypeTree, room: u32) -> Result<bool, AllocError>
    ensures yes { IfOk result (λ b. b ≡ true → spec.AreAlike ty.now other.now) }
    ensures no { IfOk result (λ b. b ≡ false → ¬ spec.AreAlike ty.now other.now) }
{
    let Some(room) = room.checked_sub(1) else {
        return Err(AllocError);
    };
    match &ty.node {
        TypeNode::Base(word) => match &other.node {
            TypeNode::Base(other_word) => Ok(are_same(word, other_word)),
            TypeNode::Arrow(_, _) => Ok(false),
        },
        TypeNode::Arrow(from, to) => match &other.node {
            TypeNode::Base(_) => Ok(false),
            TypeNode::Arrow(other_from, other_to) => {
                let domains = are_alike(from.get(), other_from.get(), room)?;
                let ranges = are_alike(to.get(), other_to.get(), room)?;
                Ok(domains && ranges)
            }
        },
    }
}

fn check_word(firsts: &Firsts<'_>, ty: &TypeTree, word: &TypeWord) -> Result<(), ElabRefusal>
    requires once { IsEachOnce firsts.now }
    requires top { type_top ty.now ≡ TypeNode-F.Base word.now }
    ensures fine { OnOk result ((d : Declared) → spec.SaysWhatAtomsAre firsts.now d → IsType d ty.now) }
    ensures refusal { IfErr result (λ e. (d : Declared) → spec.SaysWhatAtomsAre firsts.now d → OffendsInType d ty.now e) }
{
    match word {
        TypeWord::Individual => Ok(()),
        TypeWord::Truth => Ok(()),
        TypeWord::TypeOfTypes => Err(ElabRefusal::Unsupported {
            byte: ty.byte,
            form: Form::TypeArguments,
        }),
        TypeWord::Atom(name) => match firsts.type_of(name.as_slice()) {
            Some(first) => {
                if declares_type(first) {
                    Ok(())
                } else {
                    Err(ElabRefusal::WrongType { byte: ty.byte })
                }
            }
            None => Err(ElabRefusal::Unknown { byte: ty.byte }),
        },
    }
}

/// Looks for the first word of a type that offends. Goes at most `room` levels down.
fn check_type(firsts: &Firsts<'_>, ty: &TypeTree, room: u32) -> Result<(), ElabRefusal>
    requires { IsEachOnce firsts.now }
    ensures fine { OnOk result ((d : Declared) → spec.SaysWhatAtomsAre firsts.now d → IsType d ty.now) }
    ensures refusal { IfErr result (λ e. e ≢ Memory → (d : Declared) → spec.SaysWhatAtomsAre firsts.now d → OffendsInType d ty.now e) }
{
    let Some(room) = room.checked_sub(1) else {
        return Err(ElabRefusal::Memory);
    };
    match &ty.node {
        TypeNode::Base(word) => {
            check_word(firsts, ty, word)?;
            Ok(())
        }
        TypeNode::Arrow(from, to) => {
            check_type(firsts, from.get(), room)?;
            check_type(firsts, to.get(), room)?;
            Ok(())
        }
    }
}

/// Looks for what is wrong in a typing, where the first of its atom has that type.
fn check_typing(
    firsts: &Firsts<'_>,
    first: &TypeTree,
    typing: &Typing<'_>,
) -> Result<(), ElabRefusal>
    requires once { IsEachOnce firsts.now }
    requires first { named typing.now.atom firsts.now ≡ Some first.now }
    ensures right { OnOk result (spec.IsRight firsts.now typing.now) }
    ensures refusal { IfErr result (λ e. e ≢ Memory → spec.OffendsAmong firsts.now typing.now e) }
{
    if !are_alike(first, typing.ty, ROOM)? {
        return Err(ElabRefusal::Twice {
            byte: typing.atom_byte,
        });
    }
    if declares_type(typing.ty) {
        return Ok(());
    }
    check_type(firsts, typing.ty, ROOM)?;
    Ok(())
}

fn at_place(refusal: ElabRefusal, place: usize) -> TypingsRefusal
    ensures { spec.IsAt place refusal result }
{
    match refusal {
        ElabRefusal::Memory => TypingsRefusal::Memory,
        _ => TypingsRefusal::Offends { place, refusal },
    }
}

/// Looks for the first typing in which something is wrong.
pub fn check_typings(firsts: &Firsts<'_>, typings: &[Typing<'_>]) -> Result<(), TypingsRefusal>
    requires { firsts.now ≡ spec.first_typings typings.now }
    ensures right { OnOk result (spec.AreRight typings.now) }
    ensures refusal { IfErr result (spec.IsRefusalOf typings.now) }
{
    for (place, typing) in typings.iter().enumerate() {
        let Some(first) = firsts.type_of(typing.atom) else {
            unreachable!()
        };
        if let Err(refusal) = check_typing(firsts, first, typing) {
            return Err(at_place(refusal, place));
        }
    }
    Ok(())
}
