//! Which statements an include keeps.

ghost use Rattle.std.specs.Prelude.{◌≡◌, ◌++◌, OnOk};
ghost use Rattle.leo_problem.specs.Gathering as gathering;

use crate::gathered::Kept;
use leo_items::Items;
use leo_syntax::Statement;
use std::alloc::AllocError;

const NO_NAME: &[u8] = b"";

fn name_of(statement: &Statement) -> &[u8]
    ensures { result.now ≡ gathering.name_of statement.now }
{
    match statement {
        Statement::Formula { name, .. } => name.as_slice(),
        Statement::Typing { name, .. } => name.as_slice(),
        Statement::Include { .. } => NO_NAME,
    }
}

fn is_among(name: &[u8], names: &[Items<u8>]) -> bool
    ensures { result ≡ gathering.is_among name.now names.now }
{
    for other in names {
        if name == other.as_slice() {
            return true;
        }
    }
    false
}

fn is_selected(names: &Option<Items<Items<u8>>>, one: &Kept) -> bool
    ensures { result ≡ gathering.is_selected names.now one.now }
{
    match names {
        None => true,
        Some(names) => is_among(name_of(&one.statement), names.as_slice()),
    }
}

/// Appends the statements that an include with that list of names keeps.
pub fn append_selected(
    kept: &mut Vec<Kept>,
    inner: Vec<Kept>,
    names: &Option<Items<Items<u8>>>,
) -> Result<(), AllocError>
    ensures { OnOk result (kept.new.items ≡ kept.old.items ++ gathering.selected names.now inner.items) }
{
    for one in inner {
        if is_selected(names, &one) {
            kept.push(one)?;
        }
    }
    Ok(())
}
