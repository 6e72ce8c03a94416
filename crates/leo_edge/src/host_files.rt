//! The files of the host.
ghost use Rattle.std.specs.Prelude.{◌≡◌, ◌≤◌, ◌+◌, length, take, Option, Some, None};
ghost use Rattle.std.specs.Option.{option_map};
ghost use Rattle.std.specs.String.{string_bytes};
ghost use Rattle.leo_edge.specs.Memory.{next_number};

use crate::outside::{Fetched, Files};
use std::alloc::Global;
use std::fs;
use std::io::{ErrorKind, Read};

/// The files of the host, by their paths. They tell no content.
#[derive(Drop)]
pub struct HostFiles<R: fs::Files + Drop> {
    host: R,
    alloc: Global,
    faults: u64,
    failed: Option<String>,
}

impl<R: fs::Files + Drop> HostFiles<R> {
    /// The files of this host. No fetch has failed yet.
    pub fn new(alloc: Global, host: R) -> HostFiles<R>
        ensures { (result.faults ≡ 0) × (result.failed ≡ None) }
    {
        HostFiles {
            host,
            alloc,
            faults: 0,
            failed: None,
        }
    }

    fn fail(&mut self, name: String) -> Fetched
        ensures answer { result ≡ Fetched.Failed }
        ensures count { self.new.faults ≡ next_number self.old.faults }
        ensures never_falls { self.old.faults ≤ self.new.faults }
        ensures failed { option_map string_bytes self.new.failed ≡ Some (string_bytes name) }
    {
        self.faults = self.faults.saturating_add(1);
        self.failed = Some(name);
        Fetched::Failed
    }
}

// Appends all that is left, if it has at most `limit` bytes; else a part of it may have been appended.
fn read_within(source: &mut impl Read, limit: usize, into: &mut Vec<u8>) -> Fetched
    ensures stays { take (length into.old.items) into.new.items ≡ into.old.items }
    ensures longer { length into.old.items ≤ length into.new.items }
    ensures within { length into.new.items ≤ length into.old.items + limit }
{
    let mut room = limit;
    let mut buffer = [0u8; 16384];
    for _ in 0..u64::MAX {
        match source.read(&mut buffer) {
            Ok(0) => return Fetched::Got,
            Ok(count) => {
                if count > room {
                    return Fetched::Long;
                }
                if into.extend_from_slice(&buffer[..count]).is_err() {
                    return Fetched::Memory;
                }
                room -= count;
            }
            Err(e) if e.kind() == ErrorKind::Interrupted => {}
            Err(_) => return Fetched::Failed,
        }
    }
    Fetched::Failed
}

impl<R: fs::Files + Drop> Files for HostFiles<R> {
    ghost content = { λ _ _. None };

    ghost faults = { λ s. s.faults };

    ghost failed = { λ s. option_map string_bytes s.failed };

    fn fetch(&mut self, name: &str, limit: usize, into: &mut Vec<u8>) -> Fetched {
        let Ok(copy) = String::from_str(self.alloc, name) else {
            return Fetched::Memory;
        };
        let Ok(mut file) = fs::open(&self.host, name) else {
            return self.fail(copy);
        };
        let before = into.len();
        let fetched = read_within(&mut file, limit, into);
        if fetched == Fetched::Got {
            return Fetched::Got;
        }
        into.truncate(before);
        if fetched == Fetched::Failed {
            return self.fail(copy);
        }
        fetched
    }
}
