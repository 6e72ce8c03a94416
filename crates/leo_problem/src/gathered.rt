//! What is gathered from files.

ghost use Rattle.std.specs.Prelude.{◌≡◌, ◌+◌, ◌<◌, ◌≤◌};
ghost use Rattle.leo_problem.specs.Limits.{room_for};

use leo_items::Items;
use leo_syntax::Statement;

/// A statement that is no include, with the name by which its file was asked for.
#[derive(Drop)]
pub struct Kept {
    pub file: Items<u8>,
    pub statement: Statement,
}

/// How many files were read, and how many bytes they have.
#[derive(Clone, Copy, Debug, PartialEq, Eq)]
pub struct Counts {
    pub files: u32,
    pub bytes: usize,
}

/// How many bytes a file may have.
pub const MOST_BYTES: usize = 16_777_216;

/// How many bytes all files may have together.
pub const MOST_BYTES_OF_ALL: usize = 67_108_864;

impl Counts {
    /// Nothing is read yet.
    pub fn none() -> Counts
        ensures { result ≡ record { files = 0; bytes = 0 } }
    {
        Counts { files: 0, bytes: 0 }
    }

    /// How many bytes the next file may have.
    pub fn room(self) -> usize
        ensures { result ≡ room_for self.bytes }
    {
        MOST_BYTES.min(MOST_BYTES_OF_ALL.saturating_sub(self.bytes))
    }

    /// The counts with one more file of so many bytes.
    pub fn with_file(self, len: usize) -> Counts
        requires files { self.files < 64 }
        requires bytes { len ≤ room_for self.bytes }
        ensures { result ≡ record { files = self.files + 1; bytes = self.bytes + len } }
    {
        Counts {
            files: self.files + 1,
            bytes: self.bytes + len,
        }
    }
}
