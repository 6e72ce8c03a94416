//! The top call.

ghost use Rattle.std.specs.Prelude.{◌≡◌, ◌≤◌, length};
ghost use Rattle.leo_edge.specs.Outside.{HasRisen};
ghost use Rattle.fo_prove.specs.Proving.{code_of, IsAnswered, IsProved};
ghost use Rattle.fo_prove.specs.Reading.{most_read};

use crate::reading::{Unread, read_text};
use crate::running::run;
use crate::status::{FoEnding, FoStatus};
use fo_text::read::read_problem;
use fo_text::refusal::FoRefusal;
use leo_edge::{Sink, Source};
use std::alloc::Global;

/// The status of a text that is refused at this byte.
fn bad(byte: usize) -> FoStatus
    requires { byte ≤ most_read }
    ensures { result ≡ FoStatus.Bad byte }
{
    FoStatus::Bad { byte: byte as u32 }
}

/// Reads the problem of a text, and puts the answer.
fn answer<O: Sink>(alloc: Global, text: &[u8], out: &mut O) -> FoStatus
    requires { length text.now ≤ most_read }
    ensures { IsAnswered text.now (O.taken out.old) (O.taken out.new) (HasRisen (O.faults out.old) (O.faults out.new)) result }
{
    match read_problem(alloc, text) {
        Ok(problem) => run(alloc, problem, out),
        Err(FoRefusal::Bad { byte }) => bad(byte),
        Err(FoRefusal::Memory) => FoStatus::NoMemory,
    }
}

/// The child prover: reads a problem text from the source, and puts the answer to it to the sink.
///
/// It reads up to and with the first line that is exactly `end`, or to the end of the source, or 64
/// MiB; bytes that came with that line and stand behind it are passed over. The answer has a beat, a
/// line `.`, for every tenth turn of the machine, and then the line `gaveup`, or the line `refuted`,
/// the steps of a refutation and the line `% end`. It has at most 1 MiB: where the beat or the
/// refutation that is due passes that, the prover gives up.
///
/// Nothing is written where what was read is no problem text ([`FoStatus::Bad`]) or the source failed.
/// [`FoStatus::ReadFault`] comes only where the source's count of faults rose, and
/// [`FoStatus::WriteFault`] only where the sink's did; a part of an answer was written then. For want of
/// memory only beats were written.
pub fn prove<R: Source, O: Sink>(alloc: Global, source: &mut R, out: &mut O) -> FoEnding
    ensures code { result.code ≡ code_of result.status }
    ensures proved { IsProved (R.given source.old) (R.given source.new) (R.has_ended source.new) (HasRisen (R.faults source.old) (R.faults source.new)) (O.taken out.old) (O.taken out.new) (HasRisen (O.faults out.old) (O.faults out.new)) result.status }
{
    match read_text(alloc, source) {
        Ok(text) => FoEnding::with(answer(alloc, &text, out)),
        Err(Unread::Fault) => FoEnding::with(FoStatus::ReadFault),
        Err(Unread::Memory) => FoEnding::with(FoStatus::NoMemory),
    }
}
