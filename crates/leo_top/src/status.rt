//! The statuses that an answer can have.

/// The status of an answer, after the SZS ontology.
#[derive(Clone, Copy, Debug, PartialEq, Eq)]
pub enum Status {
    /// The conjecture follows.
    Theorem,
    /// The axioms have no model, and there is no conjecture.
    Unsatisfiable,
    /// The search ended without an answer.
    GaveUp,
    /// The file is no text of the language.
    SyntaxError,
    /// What the file says is not well typed.
    TypeError,
    /// The file is no problem that the prover takes.
    InputError,
    /// The words are no command.
    UsageError,
    /// The file could not be read.
    OSError,
    /// The answer could not be written.
    WriteFault,
    /// No memory was found.
    MemoryOut,
    /// A text was asked for, that of `--help` or of `--version`, and was written.
    Shown,
}

impl Status {
    ghost use Rattle.std.specs.Prelude.{◌≡◌};
    ghost use Rattle.leo_top.specs.Answers.{code_of, status_word};

    /// The exit code of a program that ends with this status.
    pub fn code(self) -> u8
        ensures { result ≡ code_of self }
    {
        match self {
            Status::Theorem => 0,
            Status::Unsatisfiable => 0,
            Status::GaveUp => 1,
            Status::SyntaxError => 2,
            Status::TypeError => 2,
            Status::InputError => 2,
            Status::UsageError => 3,
            Status::OSError => 4,
            Status::WriteFault => 5,
            Status::MemoryOut => 6,
            Status::Shown => 0,
        }
    }

    /// The word of the status.
    pub fn word(self) -> &'static [u8]
        ensures { result.now ≡ status_word self }
    {
        match self {
            Status::Theorem => b"Theorem",
            Status::Unsatisfiable => b"Unsatisfiable",
            Status::GaveUp => b"GaveUp",
            Status::SyntaxError => b"SyntaxError",
            Status::TypeError => b"TypeError",
            Status::InputError => b"InputError",
            Status::UsageError => b"UsageError",
            Status::OSError => b"OSError",
            Status::WriteFault => b"WriteFault",
            Status::MemoryOut => b"MemoryOut",
            Status::Shown => b"Shown",
        }
    }
}
