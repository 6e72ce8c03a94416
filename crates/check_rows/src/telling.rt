//! One row for one call of the checker: its text, its status and its code.

use crate::rows::{COMMAND, Given, PLAIN, Row, WHOLE};
use leo_edge::{MemFiles, MemSink, Words};
use leo_top::check_proof;
use std::alloc::{AllocError, Global};

/// What a row is worked with.
#[derive(Drop)]
struct World {
    words: Words,
    files: MemFiles,
    out: MemSink,
}

fn bytes_of(given: &Given<&'static [u8]>, usual: &'static [u8]) -> &'static [u8] {
    match given {
        Given::Usual => usual,
        Given::Own(bytes) => bytes,
    }
}

fn words_of(given: &Given<&'static [&'static str]>) -> &'static [&'static str] {
    match given {
        Given::Usual => COMMAND,
        Given::Own(words) => words,
    }
}

/// The words, the files and the sink of a row.
fn prepared(alloc: Global, row: &Row) -> Result<World, AllocError> {
    let mut words = Words::new(alloc);
    for word in words_of(&row.words) {
        words.push(word)?;
    }
    let mut files = MemFiles::new(alloc);
    files.add("p.p", bytes_of(&row.problem, PLAIN))?;
    files.add("d.s", bytes_of(&row.proof, WHOLE))?;
    if let Some(fetch) = row.failing_fetch {
        files.failing.push(fetch)?;
    }
    let mut out = MemSink::new(alloc);
    if let Some(put) = row.failing_put {
        out.failing.push(put)?;
    }
    Ok(World { words, files, out })
}

fn tell(rt: &impl Print, text: &[u8]) {
    match std::str::from_utf8(text) {
        Ok(text) => {
            let _ = print!(rt; "{text}");
        }
        Err(_) => {
            let _ = println!(rt; "no text");
        }
    }
}

/// Shows what the checker answers to a row.
pub(crate) fn show(rt: &(impl Print + AllocGlobal), row: &Row) {
    let _ = println!(rt; "% {}", row.title);
    let Ok(mut world) = prepared(rt.alloc(), row) else {
        let _ = println!(rt; "no room for the row");
        return;
    };
    let ending = check_proof(rt.alloc(), &world.words, &mut world.files, &mut world.out);
    tell(rt, &world.out.taken);
    let _ = println!(rt; "{:?} {}", ending.status, ending.code);
}
