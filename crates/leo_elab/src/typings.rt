//! Declaring atoms.

ghost use Rattle.std.specs.Prelude.{◌≡◌, ◌≢◌, ◌<◌, ◌≤◌, ◌+◌, ◌^◌, ◌++◌, ◌∷◌, [], ℕ, length, true, false, OnOk, IfErr, None, Some};
ghost use Rattle.leo_terms.specs.Contents.{Extends, type_at, symbol_type};
ghost use Rattle.leo_elab.specs.declared.refusal.ElabRefusal.TheVariants.{Memory, Twice};
ghost use Rattle.leo_elab.specs.Problem.{Declared, named};
ghost use Rattle.leo_elab.specs.Table.{AreNamesOf, KnowsNames, declared_in};
ghost use Rattle.leo_elab.specs.Meaning.{MeansType};
ghost use Rattle.leo_elab.specs.Offences.{OffendsInType};
ghost use Rattle.leo_elab.specs.Declaring.{Declares, DeclaresType, IsUndeclared, OffendsInTyping, AreConstantsNamed};

use crate::checking::declares_type;
use crate::names::Names;
use crate::refusal::ElabRefusal;
use crate::types::{ROOM, read_type};
use leo_syntax::TypeTree;
use leo_terms::{Bank, SymId};
use std::alloc::Global;

/// Declares an atom as the next base type.
pub fn declare_type(
    alloc: Global,
    bank: &mut Bank,
    names: &mut Names,
    atom: &[u8],
    ty: &TypeTree,
) -> Result<(), ElabRefusal>
    requires names { AreNamesOf bank.old names.old }
    requires constants { AreConstantsNamed bank.old names.old }
    requires room { bank.old.bases < 2 ^ 32 }
    requires undeclared { IsUndeclared (declared_in bank.old names.old) atom.now }
    requires whole { DeclaresType ty.now }
    ensures names { OnOk result (AreNamesOf bank.new names.new) }
    ensures constants { OnOk result (AreConstantsNamed bank.new names.new) }
    ensures declares { OnOk result (Declares (declared_in bank.old names.old) atom.now ty.now bank.old.bases (length bank.old.symbols) (declared_in bank.new names.new)) }
    ensures bases { bank.new.bases ≤ bank.old.bases + 1 }
    ensures counted { OnOk result (bank.new.bases ≡ bank.old.bases + 1) }
    ensures symbols { bank.new.symbols ≡ bank.old.symbols }
    ensures refusal { IfErr result (λ e. e ≡ Memory) }
    ensures grows { Extends bank.old bank.new }
{
    let number = bank.base()?;
    names.add_type(alloc, atom, number)?;
    Ok(())
}

/// Declares an atom as a constant.
pub fn declare_constant(
    alloc: Global,
    bank: &mut Bank,
    names: &mut Names,
    atom: &[u8],
    ty: &TypeTree,
) -> Result<(), ElabRefusal>
    requires names { AreNamesOf bank.old names.old }
    requires constants { AreConstantsNamed bank.old names.old }
    requires undeclared { IsUndeclared (declared_in bank.old names.old) atom.now }
    ensures names { OnOk result (AreNamesOf bank.new names.new) }
    ensures constants { OnOk result (AreConstantsNamed bank.new names.new) }
    ensures declares { OnOk result (Declares (declared_in bank.old names.old) atom.now ty.now bank.old.bases (length bank.old.symbols) (declared_in bank.new names.new)) }
    ensures refusal { IfErr result (λ e. e ≢ Memory → OffendsInType (declared_in bank.old names.old) ty.now e) }
    ensures bases { bank.new.bases ≡ bank.old.bases }
    ensures counted { OnOk result (length bank.new.symbols ≡ length bank.old.symbols + 1) }
    ensures grows { Extends bank.old bank.new }
{
    let number = read_type(bank, names, ty, ROOM)?;
    let symbol = bank.symbol(alloc, atom, number)?;
    names.add_constant(alloc, atom, symbol)?;
    Ok(())
}

/// The refusal of an atom that was declared before with a type that is refused now.
fn again(refusal: ElabRefusal, atom_byte: u32) -> ElabRefusal
    ensures twice { result ≢ Memory → result ≡ Twice atom_byte }
    ensures from { result ≢ Memory → refusal ≢ Memory }
{
    match refusal {
        ElabRefusal::Memory => ElabRefusal::Memory,
        _ => ElabRefusal::Twice { byte: atom_byte },
    }
}

/// Whether a constant, declared once more, has the type of its symbol.
fn declare_again(
    bank: &mut Bank,
    names: &Names,
    symbol: SymId,
    atom_byte: u32,
    ty: &TypeTree,
) -> Result<(), ElabRefusal>
    requires names { AreNamesOf bank.old names.now }
    requires symbol { symbol < length bank.old.symbols }
    ensures same { OnOk result (MeansType (declared_in bank.old names.now) ty.now (type_at bank.old (symbol_type bank.old symbol))) }
    ensures refusal { IfErr result (λ e. e ≢ Memory → e ≡ Twice atom_byte) }
    ensures differs { IfErr result (λ e. e ≢ Memory → ¬ MeansType (declared_in bank.old names.now) ty.now (type_at bank.old (symbol_type bank.old symbol))) }
    ensures bases { bank.new.bases ≡ bank.old.bases }
    ensures symbols { bank.new.symbols ≡ bank.old.symbols }
    ensures grows { Extends bank.old bank.new }
{
    let declared = bank.make_sym(symbol)?;
    let number = match read_type(bank, names, ty, ROOM) {
        Ok(number) => number,
        Err(refusal) => return Err(again(refusal, atom_byte)),
    };
    if bank.type_of(declared) == number {
        Ok(())
    } else {
        Err(ElabRefusal::Twice { byte: atom_byte })
    }
}

/// Declares an atom: as the next base type where its type is `$tType`, else as the next constant of
/// that type. The same typing may come once more. The types that the typing names must be declared.
///
/// Fewer than 2^32 base types may stand in the bank.
///
/// # Errors
///
/// - [`ElabRefusal::Twice`] at the atom, where it was declared otherwise.
/// - The first word of the type that is unknown, a constant, or `$tType` in a type.
/// - [`ElabRefusal::Memory`]: the bank only grew; the names may not fit it any more.
pub fn declare(
    alloc: Global,
    bank: &mut Bank,
    names: &mut Names,
    atom: &[u8],
    atom_byte: u32,
    ty: &TypeTree,
) -> Result<(), ElabRefusal>
    requires names { AreNamesOf bank.old names.old }
    requires constants { AreConstantsNamed bank.old names.old }
    requires room { bank.old.bases < 2 ^ 32 }
    ensures names { OnOk result (AreNamesOf bank.new names.new) }
    ensures constants { OnOk result (AreConstantsNamed bank.new names.new) }
    // What is declared afterwards.
    ensures declares { OnOk result (Declares (declared_in bank.old names.old) atom.now ty.now bank.old.bases (length bank.old.symbols) (declared_in bank.new names.new)) }
    // A refusal is what is wrong in the typing.
    ensures refusal { IfErr result (λ e. e ≢ Memory → OffendsInTyping (declared_in bank.old names.old) atom.now atom_byte ty.now e) }
    ensures bases { bank.new.bases ≤ bank.old.bases + 1 }
    ensures grows { Extends bank.old bank.new }
{
    bank.is_sound();
    if let Some(_known) = names.type_named(atom) {
        return if declares_type(ty) {
            Ok(())
        } else {
            Err(ElabRefusal::Twice { byte: atom_byte })
        };
    }
    if let Some(symbol) = names.constant_named(atom) {
        declare_again(bank, names, symbol, atom_byte, ty)?;
        return Ok(());
    }
    if declares_type(ty) {
        declare_type(alloc, bank, names, atom, ty)?;
        Ok(())
    } else {
        declare_constant(alloc, bank, names, atom, ty)?;
        Ok(())
    }
}
