//! The texts of the answers.
ghost use Rattle.std.specs.Prelude.{◌≡◌, ◌++◌, OnOk};
ghost use Rattle.std.specs.List.{concat};
ghost use Rattle.leo_top.specs.Answers.{status_word};
ghost use Rattle.leo_top.specs.Texts as texts;

use crate::lines::{add_line, shown};
use crate::refusal::{cause_words, is_of_file};
use crate::status::Status;
use itoa::Buffer;
use leo_problem::What;
use std::alloc::{AllocError, Global};

/// Appends the status line.
#[tactic(auto, unfolding(crate::specs::Texts::status_line))]
pub fn add_status(
    alloc: Global,
    text: &mut Vec<u8>,
    status: Status,
    subject: &[u8],
) -> Result<(), AllocError>
    ensures { OnOk result (text.new.items ≡ text.old.items ++ texts.status_line (status_word status) subject.now) }
{
    let subject = shown(alloc, subject)?;
    add_line(text, &[b"% SZS status ", status.word(), b" for ", &subject])
}

/// Appends a line on the file.
#[tactic(auto, unfolding(crate::specs::Texts::file_line))]
pub fn add_note(
    alloc: Global,
    text: &mut Vec<u8>,
    file: &[u8],
    words: &[u8],
) -> Result<(), AllocError>
    ensures { OnOk result (text.new.items ≡ text.old.items ++ texts.file_line file.now words.now) }
{
    let file = shown(alloc, file)?;
    add_line(text, &[b"% leo3: ", &file, b": ", words])
}

/// Appends a line on a byte of the file.
#[tactic(auto, unfolding(crate::specs::Texts::byte_line))]
pub fn add_byte_note(
    alloc: Global,
    text: &mut Vec<u8>,
    file: &[u8],
    byte: u32,
    words: &[u8],
) -> Result<(), AllocError>
    ensures { OnOk result (text.new.items ≡ text.old.items ++ texts.byte_line file.now byte words.now) }
{
    let mut buffer = Buffer::new();
    let byte = buffer.format(byte).as_bytes();
    let file = shown(alloc, file)?;
    add_line(text, &[b"% leo3: ", &file, b": byte ", byte, b": ", words])
}

/// Appends the line on a file in which that is wrong, at that byte.
pub fn add_cause(
    alloc: Global,
    text: &mut Vec<u8>,
    about: &[u8],
    byte: u32,
    what: What,
) -> Result<(), AllocError>
    ensures { OnOk result (text.new.items ≡ text.old.items ++ texts.cause_line about.now byte what) }
{
    if is_of_file(what) {
        add_note(alloc, text, about, cause_words(what))
    } else {
        add_byte_note(alloc, text, about, byte, cause_words(what))
    }
}

/// Appends the line on a generated problem.
#[tactic(auto, unfolding(crate::specs::Texts::generated_line))]
fn add_generated(text: &mut Vec<u8>, number: u32, statements: u32) -> Result<(), AllocError>
    ensures { OnOk result (text.new.items ≡ text.old.items ++ texts.generated_line number statements) }
{
    let mut first = Buffer::new();
    let number = first.format(number).as_bytes();
    let mut second = Buffer::new();
    let statements = second.format(statements).as_bytes();
    add_line(
        text,
        &[b"% leo3: gen ", number, b": ", statements, b" statements"],
    )
}

/// Appends what is said about a problem.
fn add_about(text: &mut Vec<u8>, about: Option<u32>, statements: u32) -> Result<(), AllocError>
    ensures { OnOk result (text.new.items ≡ text.old.items ++ concat (texts.about_lines about statements)) }
{
    match about {
        Some(number) => add_generated(text, number, statements),
        None => Ok(()),
    }
}

/// Appends the lines with which each answer to a loaded problem begins.
pub fn add_opening(
    alloc: Global,
    text: &mut Vec<u8>,
    status: Status,
    file: &[u8],
    about: Option<u32>,
    statements: u32,
) -> Result<(), AllocError>
    ensures { OnOk result (text.new.items ≡ text.old.items ++ concat (texts.opening_lines (status_word status) file.now (texts.about_lines about statements))) }
{
    add_status(alloc, text, status, file)?;
    add_about(text, about, statements)?;
    Ok(())
}

/// Appends the line on the end of the clauses.
#[tactic(auto, unfolding(crate::specs::Texts::turns_line))]
pub fn add_turns(text: &mut Vec<u8>, turns: u32) -> Result<(), AllocError>
    ensures { OnOk result (text.new.items ≡ text.old.items ++ texts.turns_line turns) }
{
    let mut buffer = Buffer::new();
    let turns = buffer.format(turns).as_bytes();
    add_line(text, &[b"% leo3: no clause left after ", turns, b" turns"])
}

/// Appends the line on the end of the turns.
#[tactic(auto, unfolding(crate::specs::Texts::limit_line))]
pub fn add_limit(text: &mut Vec<u8>, turns: u32) -> Result<(), AllocError>
    ensures { OnOk result (text.new.items ≡ text.old.items ++ texts.limit_line turns) }
{
    let mut buffer = Buffer::new();
    let turns = buffer.format(turns).as_bytes();
    add_line(text, &[b"% leo3: turn limit ", turns])
}

/// Appends the line before a derivation.
#[tactic(auto, unfolding(crate::specs::Texts::start_line))]
pub fn add_start(alloc: Global, text: &mut Vec<u8>, file: &[u8]) -> Result<(), AllocError>
    ensures { OnOk result (text.new.items ≡ text.old.items ++ texts.start_line file.now) }
{
    let file = shown(alloc, file)?;
    add_line(text, &[b"% SZS output start Refutation for ", &file])
}

/// Appends the line after a derivation.
#[tactic(auto, unfolding(crate::specs::Texts::end_line))]
pub fn add_end(alloc: Global, text: &mut Vec<u8>, file: &[u8]) -> Result<(), AllocError>
    ensures { OnOk result (text.new.items ≡ text.old.items ++ texts.end_line file.now) }
{
    let file = shown(alloc, file)?;
    add_line(text, &[b"% SZS output end Refutation for ", &file])
}
