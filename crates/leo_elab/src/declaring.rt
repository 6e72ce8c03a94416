//! Declaring the atoms of a whole problem at once.

ghost use Rattle.std.specs.Prelude.{◌≡◌, ◌<◌, ◌≤◌, ◌+◌, ◌^◌, length, OnOk, IfOk, IfErr};
ghost use Rattle.leo_terms.specs.Contents.{Extends, start};
ghost use Rattle.leo_elab.specs.Pairs.{IsEachOnce};
ghost use Rattle.leo_elab.specs.Passes.{AreTypesUpTo, AreConstantsUpTo};
ghost use Rattle.leo_elab.specs.Table.{AreNamesOf, declared_in};
ghost use Rattle.leo_elab.specs.Typings as spec;

use crate::checking::{check_typings, declares_type};
use crate::firsts::{Firsts, Typing, first_typings};
use crate::names::Names;
use crate::refusal::TypingsRefusal;
use crate::typings::{declare_constant, declare_type};
use leo_terms::Bank;
use std::alloc::{AllocError, Global};

/// How many atoms may stand before a type, so that base types have numbers.
const MOST_ATOMS: usize = 4_000_000_000;

/// Declares the atom at a place, if it is a type.
fn type_at(
    alloc: Global,
    bank: &mut Bank,
    names: &mut Names,
    firsts: &Firsts<'_>,
    place: usize,
) -> Result<(), AllocError>
    requires place { place < length firsts.now }
    requires once { IsEachOnce firsts.now }
    requires before { AreTypesUpTo bank.old names.old firsts.now place }
    ensures now { OnOk result (AreTypesUpTo bank.new names.new firsts.now (place + 1)) }
    ensures grows { Extends bank.old bank.new }
{
    bank.is_sound();
    let (atom, ty) = firsts.at(place);
    if !declares_type(ty) {
        return Ok(());
    }
    if place > MOST_ATOMS {
        return Err(AllocError);
    }
    match declare_type(alloc, bank, names, atom, ty) {
        Ok(()) => Ok(()),
        Err(_) => Err(AllocError),
    }
}

/// Declares the atoms that are types.
fn declare_types(
    alloc: Global,
    bank: &mut Bank,
    names: &mut Names,
    firsts: &Firsts<'_>,
) -> Result<(), AllocError>
    requires once { IsEachOnce firsts.now }
    requires before { AreTypesUpTo bank.old names.old firsts.now 0 }
    ensures now { OnOk result (AreTypesUpTo bank.new names.new firsts.now (length firsts.now)) }
    ensures grows { Extends bank.old bank.new }
{
    bank.is_sound();
    for place in 0..firsts.len() {
        type_at(alloc, bank, names, firsts, place)?;
    }
    Ok(())
}

/// Declares the atom at a place, if it is a constant.
fn constant_at(
    alloc: Global,
    bank: &mut Bank,
    names: &mut Names,
    firsts: &Firsts<'_>,
    place: usize,
) -> Result<(), AllocError>
    requires place { place < length firsts.now }
    requires once { IsEachOnce firsts.now }
    requires before { AreConstantsUpTo bank.old names.old firsts.now place }
    ensures now { OnOk result (AreConstantsUpTo bank.new names.new firsts.now (place + 1)) }
    ensures grows { Extends bank.old bank.new }
{
    bank.is_sound();
    let (atom, ty) = firsts.at(place);
    if declares_type(ty) {
        return Ok(());
    }
    // Nothing is wrong in the type, so that only memory can be missing.
    match declare_constant(alloc, bank, names, atom, ty) {
        Ok(()) => Ok(()),
        Err(_) => Err(AllocError),
    }
}

/// Declares the atoms that are constants.
fn declare_constants(
    alloc: Global,
    bank: &mut Bank,
    names: &mut Names,
    firsts: &Firsts<'_>,
) -> Result<(), AllocError>
    requires once { IsEachOnce firsts.now }
    requires before { AreConstantsUpTo bank.old names.old firsts.now 0 }
    ensures now { OnOk result (AreConstantsUpTo bank.new names.new firsts.now (length firsts.now)) }
    ensures grows { Extends bank.old bank.new }
{
    bank.is_sound();
    for place in 0..firsts.len() {
        constant_at(alloc, bank, names, firsts, place)?;
    }
    Ok(())
}

/// Declares all atoms of a problem, whose types and constants may be declared after their use: what
/// an atom is, is what its first typing makes of it. The types become base types in the order of
/// their first typings, and so do the constants symbols. The bank must be new.
///
/// The time is linear in the length of the typings, but for the look-ups of atoms.
///
/// # Errors
///
/// - [`TypingsRefusal::Offends`] at the first typing in which something is wrong: an atom that was
///   typed otherwise before, or else the first word of its type that is not declared, is a constant,
///   or is `$tType` in a type.
/// - [`TypingsRefusal::Memory`]: the bank only grew.
pub fn declare_all(
    alloc: Global,
    bank: &mut Bank,
    typings: &[Typing<'_>],
) -> Result<Names, TypingsRefusal>
    requires new { bank.old ≡ start }
    ensures names { IfOk result (λ names. AreNamesOf bank.new names) }
    // Nothing is wrong in any typing, and the names are what the first typings make of them.
    ensures declares { IfOk result (λ names. spec.AreDeclared typings.now (declared_in bank.new names)) }
    // A refusal is that of the first typing in which something is wrong.
    ensures refusal { IfErr result (spec.IsRefusalOf typings.now) }
    // The bank only grew.
    ensures grows { Extends bank.old bank.new }
{
    bank.is_sound();
    let firsts = first_typings(alloc, typings)?;
    check_typings(&firsts, typings)?;
    let mut names = Names::new(alloc);
    declare_types(alloc, bank, &mut names, &firsts)?;
    declare_constants(alloc, bank, &mut names, &firsts)?;
    Ok(names)
}
