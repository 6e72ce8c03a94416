//! Writing statements.

ghost use Rattle.std.specs.Prelude.{◌≡◌, ◌++◌, OnOk};
ghost use Rattle.leo_syntax.specs.Texts as spec;

use crate::tree::Statement;
use crate::writing::{Place, atom, name, quoted, word, write_tree, write_type};
use leo_items::Items;
use std::alloc::AllocError;

fn further_names(out: &mut Vec<u8>, list: &[Items<u8>]) -> Result<(), AllocError>
    ensures { OnOk result (out.new.items ≡ out.old.items ++ spec.further_names list.now) }
{
    for found in list {
        word(out, b",")?;
        name(out, found.as_slice())?;
    }
    Ok(())
}

fn names(out: &mut Vec<u8>, list: &[Items<u8>]) -> Result<(), AllocError>
    ensures { OnOk result (out.new.items ≡ out.old.items ++ spec.names_written list.now) }
{
    match list {
        [] => Ok(()),
        [first, rest @ ..] => {
            name(out, first.as_slice())?;
            further_names(out, rest)
        }
    }
}

fn selection(out: &mut Vec<u8>, found: &Option<Items<Items<u8>>>) -> Result<(), AllocError>
    ensures { OnOk result (out.new.items ≡ out.old.items ++ spec.selection_written found.now) }
{
    match found {
        Some(list) => {
            word(out, b",")?;
            word(out, b"[")?;
            names(out, list.as_slice())?;
            word(out, b"]")
        }
        None => Ok(()),
    }
}

/// A `thf` statement up to its body.
fn head(out: &mut Vec<u8>, label: &[u8], role: &[u8]) -> Result<(), AllocError>
    ensures { OnOk result (out.new.items ≡ out.old.items ++ spec.head_written label.now role.now) }
{
    word(out, b"thf")?;
    word(out, b"(")?;
    name(out, label)?;
    word(out, b",")?;
    word(out, role)?;
    word(out, b",")
}

fn end(out: &mut Vec<u8>) -> Result<(), AllocError>
    ensures { OnOk result (out.new.items ≡ out.old.items ++ spec.end_written) }
{
    word(out, b")")?;
    word(out, b".")
}

fn statement(out: &mut Vec<u8>, found: &Statement) -> Result<(), AllocError>
    ensures { OnOk result (out.new.items ≡ out.old.items ++ spec.statement_written found.now) }
{
    match found {
        Statement::Formula {
            name,
            role,
            tree,
            ..
        } => {
            head(out, name.as_slice(), role.as_slice())?;
            write_tree(out, tree, Place::Formula)?;
            end(out)
        }
        Statement::Typing {
            name,
            atom: typed,
            ty,
            ..
        } => {
            head(out, name.as_slice(), b"type")?;
            atom(out, typed.as_slice())?;
            word(out, b":")?;
            write_type(out, ty, true)?;
            end(out)
        }
        Statement::Include { file, names, .. } => {
            word(out, b"include")?;
            word(out, b"(")?;
            quoted(out, file.as_slice())?;
            selection(out, names)?;
            end(out)
        }
    }
}

/// Appends a text of the statements: words with a space behind each, atoms and names without quotes
/// where they can stand so, and brackets only where a part needs them. Annotations and redundant
/// brackets of the text that was read are gone, and so are its bytes.
///
/// The recursion is as deep as the trees nest, which for trees that were read is 500 levels.
///
/// # Errors
///
/// [`AllocError`]: a part of the text may have been appended.
pub fn write(list: &[Statement], out: &mut Vec<u8>) -> Result<(), AllocError>
    ensures { OnOk result (out.new.items ≡ out.old.items ++ spec.list_written list.now) }
{
    for found in list {
        statement(out, found)?;
    }
    Ok(())
}
