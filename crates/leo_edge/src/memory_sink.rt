//! A sink in memory.
ghost use Rattle.std.specs.Prelude.{◌≡◌, [], min, Some};

use crate::outside::{Put, Sink};
use std::alloc::Global;

/// A sink in memory, which counts its puts from 1. A put whose number is in `failing` fails, and so does
/// one that finds no memory; any other takes at most `at_most` bytes, and at least one.
#[derive(Drop)]
pub struct MemSink {
    pub taken: Vec<u8>,
    pub failing: Vec<u64>,
    pub at_most: usize,
    pub puts: u64,
    pub faults: u64,
}

impl MemSink {
    /// A sink that takes each piece whole.
    pub fn new(alloc: Global) -> MemSink
        ensures taken { result.taken.items ≡ [] }
        ensures failing { result.failing.items ≡ [] }
        ensures whole { result.at_most ≡ usize.MAX }
        ensures counts { (result.puts ≡ 0) × (result.faults ≡ 0) }
    {
        MemSink {
            taken: Vec::new(alloc),
            failing: Vec::new(alloc),
            at_most: usize::MAX,
            puts: 0,
            faults: 0,
        }
    }
}

impl Sink for MemSink {
    ghost taken = { λ s. Some s.taken.items };

    ghost faults = { λ s. s.faults };

    fn put(&mut self, piece: &[u8]) -> Put {
        self.puts = self.puts.saturating_add(1);
        let count = self.at_most.max(1).min(piece.len());
        if self.failing.as_slice().contains(&self.puts) {
            self.faults = self.faults.saturating_add(1);
            return Put::Failed;
        }
        match self.taken.extend_from_slice(&piece[..count]) {
            Ok(()) => Put::Took(count),
            Err(_) => {
                self.faults = self.faults.saturating_add(1);
                Put::Failed
            }
        }
    }
}
