//! What the child prover ends with.

ghost use Rattle.std.specs.Prelude.{◌≡◌};
ghost use Rattle.fo_prove.specs.Proving.{code_of};

/// How a call ended.
#[derive(Clone, Copy, Debug, PartialEq, Eq)]
pub enum FoStatus {
    /// A refutation was written, with all its steps.
    Refuted,
    /// It was written that the prover gives up.
    GaveUp,
    /// What was read is no problem text: this is the number of the first byte with which no such
    /// text goes on, or its length where it ends early. Nothing was written.
    Bad { byte: u32 },
    /// The source failed. Nothing was written.
    ReadFault,
    /// The sink failed. A part of an answer was written.
    WriteFault,
    /// No memory was found. Only beats were written.
    NoMemory,
}

impl FoStatus {
    /// The exit code of a program that ends so.
    pub fn code(self) -> u8
        ensures { result ≡ code_of self }
    {
        match self {
            FoStatus::Refuted => 0,
            FoStatus::GaveUp => 1,
            FoStatus::Bad { .. } => 2,
            FoStatus::ReadFault => 4,
            FoStatus::WriteFault => 5,
            FoStatus::NoMemory => 6,
        }
    }
}

/// How a call ended, and the exit code of a program that ends so.
#[derive(Clone, Copy, Debug, PartialEq, Eq)]
pub struct FoEnding {
    pub status: FoStatus,
    pub code: u8,
}

impl FoEnding {
    pub(crate) fn with(status: FoStatus) -> FoEnding
        ensures status { result.status ≡ status }
        ensures code { result.code ≡ code_of status }
    {
        FoEnding {
            status,
            code: status.code(),
        }
    }
}
