//! One row for one call: the answer, and what the replay says of it.

use crate::replaying::{Outcome, replay_of};
use crate::rows::{Outside, Row};
use fo_prove::{FoStatus, prove};
use leo_edge::{MemSink, MemSource};
use std::alloc::{AllocError, Global};

/// Of a longer answer only the number of its lines is told.
const MOST_LINES: usize = 30;

/// The source of a row.
fn source_of(alloc: Global, row: &Row) -> Result<MemSource, AllocError> {
    let mut content = Vec::from_slice(alloc, row.text)?;
    content.extend_from_slice(row.behind)?;
    let mut source = MemSource::new(alloc, &content)?;
    match row.outside {
        Outside::SourceFails { call } => source.failing.push(call)?,
        Outside::SourceBytes | Outside::Bytes => source.at_most = 1,
        Outside::SourceBytesFail { call } => {
            source.at_most = 1;
            source.failing.push(call)?;
        }
        Outside::Whole | Outside::SinkFails { .. } => {}
    }
    Ok(source)
}

/// The sink of a row.
fn sink_of(alloc: Global, row: &Row) -> Result<MemSink, AllocError> {
    let mut sink = MemSink::new(alloc);
    match row.outside {
        Outside::SinkFails { put } => sink.failing.push(put)?,
        Outside::Bytes => sink.at_most = 1,
        _ => {}
    }
    Ok(sink)
}

/// The lines of an answer, or how many there are.
fn tell(rt: &impl Print, text: &[u8]) {
    let Ok(text) = std::str::from_utf8(text) else {
        let _ = println!(rt; "  no text");
        return;
    };
    let count = text.lines().count();
    if count > MOST_LINES {
        let _ = println!(rt; "  {count} lines");
        return;
    }
    for line in text.lines() {
        let _ = println!(rt; "  {line}");
    }
}

/// What the replay says of a refutation.
fn tell_replay(
    rt: &(impl Print + AllocGlobal),
    row: &Row,
    answer: &[u8],
) -> Result<(), AllocError> {
    match replay_of(rt.alloc(), row.text, answer)? {
        Outcome::NoRefutation => {
            let _ = println!(rt; "  no refutation");
        }
        Outcome::Stopped { step } => {
            let _ = println!(rt; "  step {step} does not replay");
        }
        Outcome::Whole {
            steps,
            is_empty_given: true,
        } => {
            let _ = println!(rt; "  {steps} steps replay, one of them is empty");
        }
        Outcome::Whole { steps, .. } => {
            let _ = println!(rt; "  {steps} steps replay, none of them is empty");
        }
    }
    Ok(())
}

/// The answer to a row.
fn answered(rt: &(impl Print + AllocGlobal), row: &Row) -> Result<(), AllocError> {
    let alloc = rt.alloc();
    let mut source = source_of(alloc, row)?;
    let mut out = sink_of(alloc, row)?;
    let ending = prove(alloc, &mut source, &mut out);
    tell(rt, &out.taken);
    let _ = println!(rt; "  {:?} {}", ending.status, ending.code);
    match ending.status {
        FoStatus::Refuted => tell_replay(rt, row, &out.taken),
        _ => Ok(()),
    }
}

/// Shows the answer to a row.
pub(crate) fn show(rt: &(impl Print + AllocGlobal), row: &Row) {
    let _ = println!(rt; "{}", row.title);
    if answered(rt, row).is_err() {
        let _ = println!(rt; "  no room for the row");
    }
}
