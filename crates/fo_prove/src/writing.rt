//! Puts bytes to a sink.

ghost use Rattle.std.specs.Prelude.{◌≡◌, ◌≤◌, OnOk, OnErr};
ghost use Rattle.leo_edge.specs.Outside.{HasRisen};
ghost use Rattle.fo_prove.specs.Writing.{IsCut, IsTaken};

use leo_edge::{Put, Sink};

/// The sink took no more.
#[derive(Debug, Drop)]
pub(crate) struct SinkFailed;

/// Puts the piece; where a part of it was taken, the rest is put again. After a failure nothing more is put.
pub(crate) fn put_piece<O: Sink>(out: &mut O, piece: &[u8]) -> Result<(), SinkFailed>
    ensures never_falls { O.faults out.old ≤ O.faults out.new }
    ensures ok { OnOk result (IsTaken piece.now (O.taken out.old) (O.taken out.new)) }
    ensures cut { OnErr result (IsCut piece.now (O.taken out.old) (O.taken out.new)) }
    ensures failed { OnErr result (HasRisen (O.faults out.old) (O.faults out.new)) }
{
    let mut done = 0;
    while done < piece.len() {
        match out.put(&piece[done..]) {
            Put::Took(count) => done += count,
            Put::Failed => return Err(SinkFailed),
        }
    }
    Ok(())
}
