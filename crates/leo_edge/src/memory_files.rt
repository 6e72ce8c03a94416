//! Files in memory.
ghost use Rattle.std.specs.Prelude.{◌≡◌, ◌≤◌, [], ◌∷◌, ◌++◌, Option, Some, None, OnOk, OnErr, option_copied};
ghost use Rattle.std.specs.Option.{option_map};
ghost use Rattle.std.specs.String.{string_bytes};
ghost use Rattle.leo_edge.specs.Memory.{next_number, content_of};

use crate::outside::{Fetched, Files};
use std::alloc::{AllocError, Global};

/// A file in memory.
#[derive(Drop)]
pub struct MemFile {
    pub name: String,
    pub content: Vec<u8>,
}

/// Files in memory, which count their fetches from 1. A fetch whose number is in `failing`, or whose
/// name stands nowhere, fails. Of two files of one name the first is found.
#[derive(Drop)]
pub struct MemFiles {
    pub files: Vec<MemFile>,
    pub failing: Vec<u64>,
    pub fetches: u64,
    pub faults: u64,
    pub failed: Option<String>,
}

impl MemFiles {
    /// No files, and no fetch that fails.
    pub fn new(alloc: Global) -> MemFiles
        ensures files { result.files.items ≡ [] }
        ensures failing { result.failing.items ≡ [] }
        ensures counts { (result.fetches ≡ 0) × (result.faults ≡ 0) × (result.failed ≡ None) }
    {
        MemFiles {
            files: Vec::new(alloc),
            failing: Vec::new(alloc),
            fetches: 0,
            faults: 0,
            failed: None,
        }
    }

    /// Puts a file behind the others; for want of memory they stay as they were.
    pub fn add(&mut self, name: &str, content: &[u8]) -> Result<(), AllocError>
        ensures added { OnOk result ((f : MemFile) × (self.new.files.items ≡ self.old.files.items ++ f ∷ []) × (string_bytes f.name ≡ name.now) × (f.content.items ≡ content.now)) }
        ensures err { OnErr result (self.new.files.items ≡ self.old.files.items) }
        ensures failing { self.new.failing.items ≡ self.old.failing.items }
        ensures counts { (self.new.fetches ≡ self.old.fetches) × (self.new.faults ≡ self.old.faults) }
        ensures failed { option_map string_bytes self.new.failed ≡ option_map string_bytes self.old.failed }
    {
        let alloc = *self.files.allocator();
        let name = String::from_str(alloc, name)?;
        let content = Vec::from_slice(alloc, content)?;
        self.files.push(MemFile { name, content })?;
        Ok(())
    }

    fn fail(&mut self, name: String) -> Fetched
        ensures answer { result ≡ Fetched.Failed }
        ensures files { self.new.files.items ≡ self.old.files.items }
        ensures count { self.new.faults ≡ next_number self.old.faults }
        ensures never_falls { self.old.faults ≤ self.new.faults }
        ensures fetches { self.new.fetches ≡ self.old.fetches }
        ensures failed { option_map string_bytes self.new.failed ≡ Some (string_bytes name) }
    {
        self.faults = self.faults.saturating_add(1);
        self.failed = Some(name);
        Fetched::Failed
    }
}

// The content of the first file of that name.
fn content_of<'a>(files: &'a [MemFile], name: &str) -> Option<&'a [u8]>
    ensures { option_copied result ≡ content_of files.now name.now }
{
    for file in files {
        if file.name.as_str() == name {
            return Some(file.content.as_slice());
        }
    }
    None
}

impl Files for MemFiles {
    ghost content = { λ s name. content_of s.files.items name };

    ghost faults = { λ s. s.faults };

    ghost failed = { λ s. option_map string_bytes s.failed };

    fn fetch(&mut self, name: &str, limit: usize, into: &mut Vec<u8>) -> Fetched {
        let Ok(copy) = String::from_str(*self.files.allocator(), name) else {
            return Fetched::Memory;
        };
        self.fetches = self.fetches.saturating_add(1);
        if self.failing.as_slice().contains(&self.fetches) {
            return self.fail(copy);
        }
        let Some(content) = content_of(self.files.as_slice(), name) else {
            return self.fail(copy);
        };
        if content.len() > limit {
            return Fetched::Long;
        }
        match into.extend_from_slice(content) {
            Ok(()) => Fetched::Got,
            Err(_) => Fetched::Memory,
        }
    }
}
