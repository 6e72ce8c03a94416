//! Where includes are looked for.

ghost use Rattle.std.specs.Prelude.{◌≡◌, ◌+◌, ◌-◌, ◌<◌, ◌≤◌, length, take, IfOk};
ghost use Rattle.std.specs.Option.{option_copied};
ghost use Rattle.leo_problem.specs.Gathering as gathering;

use std::alloc::{AllocError, Global};

/// The part of a name up to its last slash.
fn folder_of(name: &[u8]) -> &[u8]
    ensures { result.now ≡ gathering.folder_of name.now }
{
    let mut len = name.len();
    while len > 0 && name[len - 1] != b'/' {
        len -= 1;
    }
    &name[..len]
}

/// Where includes are looked for: in the root, if there is one, else in the folder of the file.
pub fn folder_by(alloc: Global, name: &[u8], root: Option<&str>) -> Result<Vec<u8>, AllocError>
    ensures { IfOk result (λ folder. folder.items ≡ gathering.folder_by name.now (option_copied root.entry)) }
{
    match root {
        Some(root) => {
            let mut folder = Vec::from_slice(alloc, root.as_bytes())?;
            folder.push(b'/')?;
            Ok(folder)
        }
        None => Vec::from_slice(alloc, folder_of(name)),
    }
}

fn begins_with_slash(name: &[u8]) -> bool
    ensures { result ≡ gathering.begins_with_slash name.now }
{
    match name {
        [] => false,
        [first, ..] => *first == b'/',
    }
}

/// By which name an include's file is asked for.
pub fn joined(alloc: Global, folder: &[u8], name: &[u8]) -> Result<Vec<u8>, AllocError>
    ensures { IfOk result (λ whole. whole.items ≡ gathering.joined folder.now name.now) }
{
    if begins_with_slash(name) {
        return Vec::from_slice(alloc, name);
    }
    let mut whole = Vec::from_slice(alloc, folder)?;
    whole.extend_from_slice(name)?;
    Ok(whole)
}
