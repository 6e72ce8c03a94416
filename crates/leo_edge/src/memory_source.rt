//! A source in memory.
ghost use Rattle.std.specs.Prelude.{◌≡◌, ◌≤◌, [], Some, length, take, false, IfOk};

use crate::outside::{Next, Source};
use std::alloc::{AllocError, Global};

/// A source in memory, which counts its calls from 1. A call whose number is in `failing` fails, unless the source has
/// ended; any other gives at most `at_most` bytes, and at least one, until all were given.
#[derive(Drop)]
pub struct MemSource {
    content: Vec<u8>,
    place: usize,
    has_ended: bool,
    pub failing: Vec<u64>,
    pub at_most: usize,
    pub calls: u64,
    pub faults: u64,
}

impl MemSource {
    /// A source of this content, which gives as much at a time as there is room for.
    pub fn new(alloc: Global, content: &[u8]) -> Result<MemSource, AllocError>
        ensures { IfOk result (λ s. (s.content.items ≡ content.now) × (s.place ≡ 0) × (s.has_ended ≡ false) × (s.failing.items ≡ []) × (s.at_most ≡ usize.MAX) × (s.calls ≡ 0) × (s.faults ≡ 0)) }
    {
        let content = Vec::from_slice(alloc, content)?;
        Ok(MemSource {
            content,
            place: 0,
            has_ended: false,
            failing: Vec::new(alloc),
            at_most: usize::MAX,
            calls: 0,
            faults: 0,
        })
    }
}

/// Puts bytes at the front of a buffer.
fn put_front(buf: &mut [u8], bytes: &[u8])
    requires { length bytes.now ≤ length buf.old }
    ensures front { take (length bytes.now) buf.new ≡ bytes.now }
    ensures same_length { length buf.new ≡ length buf.old }
{
    buf[..bytes.len()].copy_from_slice(bytes);
}

impl Source for MemSource {
    ghost given = { λ s. Some (take s.place s.content.items) };

    ghost has_ended = { λ s. s.has_ended };

    ghost faults = { λ s. s.faults };

    fn next(&mut self, buf: &mut [u8]) -> Next {
        self.calls = self.calls.saturating_add(1);
        let place = self.place.min(self.content.len());
        let left = &self.content.as_slice()[place..];
        if self.has_ended || left.is_empty() {
            self.has_ended = true;
            return Next::End;
        }
        if self.failing.as_slice().contains(&self.calls) {
            self.faults = self.faults.saturating_add(1);
            return Next::Failed;
        }
        let count = self.at_most.max(1).min(buf.len()).min(left.len());
        put_front(buf, &left[..count]);
        self.place = place + count;
        Next::Got(count)
    }
}
