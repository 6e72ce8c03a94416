//! The input of the host.
ghost use Rattle.std.specs.Prelude.{◌≡◌, ◌<◌, ◌≤◌, length, None, false};
ghost use Rattle.leo_edge.specs.Outside.{IfGiven};

use crate::outside::{Next, Source};
use std::io::{ErrorKind, Read};

/// The input of the host, read to its end. It does not tell what it gave.
#[derive(Drop)]
pub struct HostIn<R: Read + Drop> {
    reader: R,
    has_ended: bool,
    faults: u64,
}

impl<R: Read + Drop> HostIn<R> {
    /// What this reader reads. No call has failed yet.
    pub fn new(reader: R) -> HostIn<R>
        ensures { (result.has_ended ≡ false) × (result.faults ≡ 0) }
    {
        HostIn {
            reader,
            has_ended: false,
            faults: 0,
        }
    }
}

/// Reads at least one byte. A read that was interrupted is tried again.
fn read_some(reader: &mut impl Read, buf: &mut [u8]) -> Next
    ensures got { IfGiven result (λ n. (0 < n) × (n ≤ length buf.old)) }
    ensures same_length { length buf.new ≡ length buf.old }
{
    for _ in 0..u64::MAX {
        match reader.read(buf) {
            Ok(0) => return Next::End,
            Ok(count) => return Next::Got(count),
            Err(e) if e.kind() == ErrorKind::Interrupted => {}
            Err(_) => return Next::Failed,
        }
    }
    Next::Failed
}

impl<R: Read + Drop> Source for HostIn<R> {
    ghost given = { λ _. None };

    ghost has_ended = { λ s. s.has_ended };

    ghost faults = { λ s. s.faults };

    fn next(&mut self, buf: &mut [u8]) -> Next {
        if self.has_ended {
            return Next::End;
        }
        match read_some(&mut self.reader, buf) {
            Next::Got(count) => Next::Got(count),
            Next::End => {
                self.has_ended = true;
                Next::End
            }
            Next::Failed => {
                self.faults = self.faults.saturating_add(1);
                Next::Failed
            }
        }
    }
}
