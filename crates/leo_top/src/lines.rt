//! What stands in the lines of an answer.
ghost use Rattle.std.specs.Prelude.{◌≡◌, ◌++◌, map, IfOk, OnOk};
ghost use Rattle.std.specs.List.{concat};
ghost use Rattle.leo_top.specs.Lines as lines;

use std::alloc::{AllocError, Global};

/// Appends these parts.
pub fn add_parts(text: &mut Vec<u8>, parts: &[&[u8]]) -> Result<(), AllocError>
    ensures { OnOk result (text.new.items ≡ text.old.items ++ concat (map (λ part. part.now) parts.now)) }
{
    for part in parts {
        text.extend_from_slice(part)?;
    }
    Ok(())
}

/// Appends a line made of these parts.
pub fn add_line(text: &mut Vec<u8>, parts: &[&[u8]]) -> Result<(), AllocError>
    ensures { OnOk result (text.new.items ≡ text.old.items ++ lines.line (map (λ part. part.now) parts.now)) }
{
    add_parts(text, parts)?;
    text.push(b'\n')?;
    Ok(())
}

fn shown_byte(byte: u8) -> u8
    ensures { result ≡ lines.shown_byte byte }
{
    if byte >= 32 && byte <= 126 {
        byte
    } else {
        b'?'
    }
}

/// A file's name as it is shown.
pub fn shown(alloc: Global, name: &[u8]) -> Result<Vec<u8>, AllocError>
    ensures { IfOk result (λ v. v.items ≡ lines.shown name.now) }
{
    name.iter().map(|b| shown_byte(*b)).collect(alloc)
}
