//! Numbers, atoms, names and files as they are written.

ghost use Rattle.std.specs.Prelude.{◌≡◌, ◌++◌, OnOk, IfOk, decimal};
ghost use Rattle.std.specs.List.{flat_map, list_all};
ghost use Rattle.leo_lex.specs.Bytes as bytes;
ghost use Rattle.leo_tstp.specs.Words as spec;

use itoa::Buffer;
use std::alloc::{AllocError, Global};

/// Appends a number.
pub(crate) fn write_number(number: u64, out: &mut Vec<u8>) -> Result<(), AllocError>
    ensures { OnOk result (out.new.items ≡ out.old.items ++ decimal number) }
{
    let mut buffer = Buffer::new();
    out.extend_from_slice(buffer.format(number).as_bytes())
}

fn shown_byte(byte: u8) -> u8
    ensures { result ≡ spec.shown_byte byte }
{
    if byte >= 32 && byte <= 126 {
        byte
    } else {
        b'?'
    }
}

/// A file's name with `?` for each byte that is not shown.
fn shown(alloc: Global, name: &[u8]) -> Result<Vec<u8>, AllocError>
    ensures { IfOk result (λ v. v.items ≡ spec.shown name.now) }
{
    name.iter().map(|b| shown_byte(*b)).collect(alloc)
}

fn write_escaped(byte: u8, out: &mut Vec<u8>) -> Result<(), AllocError>
    ensures { OnOk result (out.new.items ≡ out.old.items ++ spec.escaped byte) }
{
    if byte == b'\'' || byte == b'\\' {
        out.push(b'\\')?;
    }
    out.push(byte)?;
    Ok(())
}

fn write_all_escaped(content: &[u8], out: &mut Vec<u8>) -> Result<(), AllocError>
    ensures { OnOk result (out.new.items ≡ out.old.items ++ flat_map spec.escaped content.now) }
{
    for byte in content {
        write_escaped(*byte, out)?;
    }
    Ok(())
}

#[tactic(auto, unfolding(crate::specs::Words::in_quotes))]
fn write_quoted(content: &[u8], out: &mut Vec<u8>) -> Result<(), AllocError>
    ensures { OnOk result (out.new.items ≡ out.old.items ++ spec.in_quotes content.now) }
{
    out.push(b'\'')?;
    write_all_escaped(content, out)?;
    out.push(b'\'')?;
    Ok(())
}

#[tactic(auto, unfolding(leo_lex::specs::Bytes::is_word))]
fn is_word_byte(byte: u8) -> bool
    ensures { result ≡ bytes.is_word byte }
{
    byte.is_ascii_alphabetic() || byte.is_ascii_digit() || byte == b'_'
}

fn all_word_bytes(text: &[u8]) -> bool
    ensures { result ≡ list_all bytes.is_word text.now }
{
    text.iter().all(|b| is_word_byte(*b))
}

/// Whether this is a letter from `a` to `z`, and then letters, digits and `_`.
#[tactic(auto, unfolding(crate::specs::Words::is_lower_word, leo_lex::specs::Bytes::is_lower))]
fn is_lower_word(word: &[u8]) -> bool
    ensures { result ≡ spec.is_lower_word word.now }
{
    match word.split_first() {
        None => false,
        Some((first, rest)) => first.is_ascii_lowercase() && all_word_bytes(rest),
    }
}

#[tactic(auto, unfolding(leo_lex::specs::Bytes::is_digit))]
fn all_digits(text: &[u8]) -> bool
    ensures { result ≡ list_all bytes.is_digit text.now }
{
    text.iter().all(|b| b.is_ascii_digit())
}

/// Whether this is one digit or more.
#[tactic(auto, unfolding(crate::specs::Words::are_digits))]
fn are_digits(text: &[u8]) -> bool
    ensures { result ≡ spec.are_digits text.now }
{
    !text.is_empty() && all_digits(text)
}

/// Appends an atom, bare where it is a lower word.
#[tactic(auto, unfolding(crate::specs::Words::atom_text))]
pub(crate) fn write_atom(atom: &[u8], out: &mut Vec<u8>) -> Result<(), AllocError>
    ensures { OnOk result (out.new.items ≡ out.old.items ++ spec.atom_text atom.now) }
{
    if is_lower_word(atom) {
        out.extend_from_slice(atom)
    } else {
        write_quoted(atom, out)
    }
}

/// Appends the name of a statement, bare where it is a lower word or digits.
#[tactic(auto, unfolding(crate::specs::Words::name_text))]
pub(crate) fn write_name(name: &[u8], out: &mut Vec<u8>) -> Result<(), AllocError>
    ensures { OnOk result (out.new.items ≡ out.old.items ++ spec.name_text name.now) }
{
    if is_lower_word(name) || are_digits(name) {
        out.extend_from_slice(name)
    } else {
        write_quoted(name, out)
    }
}

/// Appends a file's name in quotes.
#[tactic(auto, unfolding(crate::specs::Words::file_text))]
pub(crate) fn write_file(alloc: Global, name: &[u8], out: &mut Vec<u8>) -> Result<(), AllocError>
    ensures { OnOk result (out.new.items ≡ out.old.items ++ spec.file_text name.now) }
{
    if name.is_empty() {
        return out.extend_from_slice(b"'?'");
    }
    let name = shown(alloc, name)?;
    write_quoted(&name, out)
}
