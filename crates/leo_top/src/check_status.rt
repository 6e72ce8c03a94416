//! How a check ends.

ghost use Rattle.std.specs.Prelude.{◌≡◌};
ghost use Rattle.leo_top.specs.Checking.{check_code};

/// How a check ended.
#[derive(Clone, Copy, Debug, PartialEq, Eq)]
pub enum CheckStatus {
    /// Each line of the derivation follows, and one is empty: falsity is derivable from the problem's hypotheses.
    Accepted,
    /// A line does not follow, or none is empty.
    Refused,
    /// The text is no derivation of the problem.
    BadProof,
    /// The problem is refused, or the derivation's text has more than 64 MiB.
    Input,
    /// The words are no command.
    UsageError,
    /// A file could not be read.
    OSError,
    /// The answer could not be put, or only a part of it.
    WriteFault,
    /// No memory was found.
    MemoryOut,
    /// The text that `--help` or `--version` asks for was put.
    Shown,
}

impl CheckStatus {
    /// The exit code of a program that ends so.
    pub fn code(self) -> u8
        ensures { result ≡ check_code self }
    {
        match self {
            CheckStatus::Accepted | CheckStatus::Shown => 0,
            CheckStatus::Refused | CheckStatus::BadProof => 1,
            CheckStatus::Input => 2,
            CheckStatus::UsageError => 3,
            CheckStatus::OSError => 4,
            CheckStatus::WriteFault => 5,
            CheckStatus::MemoryOut => 6,
        }
    }
}
