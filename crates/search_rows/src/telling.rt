//! One row for one call: the answer, and what the checker says of its derivation.

use crate::rows::{AXIOMS, Row};
use leo_edge::{MemFiles, MemSink, Words};
use leo_top::{Status, check_proof, leo3_alone};
use std::alloc::{AllocError, Global};

/// The words of the prover.
fn prover_words(alloc: Global, row: &Row) -> Result<Words, AllocError> {
    let mut words = Words::new(alloc);
    words.push("leo3")?;
    for option in row.options {
        words.push(option)?;
    }
    words.push(row.file)?;
    Ok(words)
}

/// The words of the checker.
fn checker_words(alloc: Global, row: &Row) -> Result<Words, AllocError> {
    let mut words = Words::new(alloc);
    for word in ["leo3_check", row.file, "d.s"] {
        words.push(word)?;
    }
    Ok(words)
}

/// The files of a row, with a derivation beside them.
fn files_with(alloc: Global, row: &Row, derivation: &[u8]) -> Result<MemFiles, AllocError> {
    let mut files = MemFiles::new(alloc);
    files.add("x.p", row.problem)?;
    files.add("axioms.p", AXIOMS)?;
    files.add("d.s", derivation)?;
    Ok(files)
}

fn tell_line(rt: &impl Print, line: &str) {
    let _ = println!(rt; "  {line}");
}

/// The lines of an answer; of a derivation only how many there are.
fn tell(rt: &impl Print, text: &[u8]) {
    let Ok(text) = std::str::from_utf8(text) else {
        let _ = println!(rt; "  no text");
        return;
    };
    let mut count = 0_u32;
    for line in text.lines() {
        if line.starts_with("%") {
            tell_line(rt, line);
        } else {
            count = count.saturating_add(1);
        }
    }
    if count > 0 {
        let _ = println!(rt; "  {count} lines in between");
    }
}

/// What the checker says of an answer.
fn checked(rt: &(impl Print + AllocGlobal), row: &Row, text: &[u8]) -> Result<(), AllocError> {
    let alloc = rt.alloc();
    let words = checker_words(alloc, row)?;
    let mut files = files_with(alloc, row, text)?;
    let mut out = MemSink::new(alloc);
    let ending = check_proof(alloc, &words, &mut files, &mut out);
    let _ = println!(rt; "  the checker: {:?} {}", ending.status, ending.code);
    Ok(())
}

/// The answer to a row.
fn answered(rt: &(impl Print + AllocGlobal), row: &Row) -> Result<(), AllocError> {
    let alloc = rt.alloc();
    let words = prover_words(alloc, row)?;
    let mut files = files_with(alloc, row, b"")?;
    let mut out = MemSink::new(alloc);
    let ending = leo3_alone(alloc, &words, &mut files, &mut out);
    tell(rt, &out.taken);
    let _ = println!(rt; "  {:?} {}", ending.status, ending.code);
    match ending.status {
        Status::Theorem | Status::Unsatisfiable => checked(rt, row, &out.taken),
        _ => Ok(()),
    }
}

/// Shows the answer to a row.
pub(crate) fn show(rt: &(impl Print + AllocGlobal), row: &Row) {
    let _ = println!(rt; "{}", row.title);
    if answered(rt, row).is_err() {
        let _ = println!(rt; "  no room for the row");
    }
}
