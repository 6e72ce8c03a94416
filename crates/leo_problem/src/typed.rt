//! The typings among statements.

ghost use Rattle.std.specs.Prelude.{◌≡◌, ◌≢◌, ◌<◌, length, slice_get, Some, None, OnOk, IfOk, IfErr};
ghost use Rattle.std.specs.Option.{option_copied};
ghost use Rattle.leo_elab.specs.Table.{AreNamesOf, declared_in};
ghost use Rattle.leo_elab.specs.Typings.{AreDeclared, IsRefusalOf};
ghost use Rattle.leo_problem.specs.declared.refusal.LoadRefusal.TheVariants.{Memory};
ghost use Rattle.leo_problem.specs.Steps.{OffendsInTypings};
ghost use Rattle.leo_problem.specs.Theories as theories;
ghost use Rattle.leo_terms.specs.Contents.{Extends, start};

use crate::gathered::Kept;
use crate::refusal::{LoadRefusal, refused_meaning};
use leo_elab::{Names, Typing, TypingsRefusal, declare_all};
use leo_items::Items;
use leo_syntax::Statement;
use leo_terms::Bank;
use std::alloc::{AllocError, Global};

fn typing_in(statement: &Statement) -> Option<Typing<'_>>
    ensures { result ≡ theories.typing_in statement.now }
{
    match statement {
        Statement::Typing {
            atom,
            atom_byte,
            ty,
            ..
        } => Some(Typing {
            atom: atom.as_slice(),
            atom_byte: *atom_byte,
            ty,
        }),
        _ => None,
    }
}

fn typings<'a>(alloc: Global, kept: &'a [Kept]) -> Result<Vec<Typing<'a>>, AllocError>
    ensures { IfOk result (λ v. v.items ≡ theories.typings kept.now) }
{
    let mut found = Vec::new(alloc);
    for one in kept {
        if let Some(typing) = typing_in(&one.statement) {
            found.push(typing)?;
        }
    }
    Ok(found)
}

fn is_typing(statement: &Statement) -> bool
    ensures { result ≡ theories.is_typing statement.now }
{
    matches!(statement, Statement::Typing { .. })
}

/// The file of the typing with that place among the typings.
fn typing_file(kept: &[Kept], place: usize) -> Option<&Items<u8>>
    ensures { option_copied result ≡ slice_get (theories.typing_files kept.now) place }
{
    let mut left = place;
    for one in kept {
        if is_typing(&one.statement) {
            if left == 0 {
                return Some(&one.file);
            }
            left -= 1;
        }
    }
    None
}

fn refused_typings(alloc: Global, kept: &[Kept], refusal: TypingsRefusal) -> LoadRefusal
    requires { IsRefusalOf (theories.typings kept.now) refusal }
    ensures { result ≢ Memory → OffendsInTypings kept.now result }
{
    match refusal {
        TypingsRefusal::Offends { place, refusal } => match typing_file(kept, place) {
            Some(file) => refused_meaning(alloc, file.as_slice(), refusal),
            None => unreachable!(),
        },
        TypingsRefusal::Memory => LoadRefusal::Memory,
    }
}

/// Declares the atoms of all typings.
pub fn declare(alloc: Global, bank: &mut Bank, kept: &[Kept]) -> Result<Names, LoadRefusal>
    requires new { bank.old ≡ start }
    ensures names { IfOk result (λ names. AreNamesOf bank.new names) }
    ensures declares { IfOk result (λ names. AreDeclared (theories.typings kept.now) (declared_in bank.new names)) }
    ensures refusal { IfErr result (λ r. r ≢ Memory → OffendsInTypings kept.now r) }
{
    let found = typings(alloc, kept)?;
    match declare_all(alloc, bank, &found) {
        Ok(names) => Ok(names),
        Err(refusal) => Err(refused_typings(alloc, kept, refusal)),
    }
}
