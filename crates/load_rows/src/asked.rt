//! Files in memory that keep the names that they are asked for.

ghost use Rattle.std.specs.Prelude.{◌≡◌, [], false};
ghost use Rattle.std.specs.Option.{option_map};
ghost use Rattle.std.specs.String.{string_bytes};
ghost use Rattle.leo_edge.specs.Memory.{content_of};

use leo_edge::{Fetched, Files, MemFiles};
use std::alloc::Global;

/// Files in memory, and the names that they were asked for, unless none is to be kept.
#[derive(Drop)]
pub struct Asked {
    pub files: MemFiles,
    pub names: Vec<String>,
    pub is_quiet: bool,
}

impl Asked {
    /// No files, which were asked for nothing.
    pub fn new(alloc: Global) -> Asked
        ensures files { result.files.files.items ≡ [] }
        ensures names { result.names.items ≡ [] }
        ensures tells { result.is_quiet ≡ false }
    {
        Asked {
            files: MemFiles::new(alloc),
            names: Vec::new(alloc),
            is_quiet: false,
        }
    }
}

impl Files for Asked {
    ghost content = { λ s name. content_of s.files.files.items name };

    ghost faults = { λ s. s.files.faults };

    ghost failed = { λ s. option_map string_bytes s.files.failed };

    fn fetch(&mut self, name: &str, limit: usize, into: &mut Vec<u8>) -> Fetched {
        if self.is_quiet {
            return self.files.fetch(name, limit, into);
        }
        let Ok(copy) = String::from_str(*self.names.allocator(), name) else {
            return Fetched::Memory;
        };
        if self.names.push(copy).is_err() {
            return Fetched::Memory;
        }
        self.files.fetch(name, limit, into)
    }
}
