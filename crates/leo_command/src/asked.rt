//! What the words of a command come to.

ghost use Rattle.std.specs.Prelude.{◌≡◌};
ghost use Rattle.leo_command.specs.declared.asked.CommandRefusal.TheVariants.{Memory};

use std::alloc::AllocError;

/// What a command asks for.
#[derive(Debug, Drop)]
pub enum Asked<T> {
    /// To do this.
    Work(T),
    /// To print this text, that of `--help` or of `--version`, and to end.
    Print(String),
}

/// Why the words of a command are not taken.
#[derive(Clone, Copy, Debug, PartialEq, Eq)]
pub enum CommandRefusal {
    /// They are no words of the command.
    Usage,
    /// Memory ran out.
    Memory,
}

impl From<AllocError> for CommandRefusal {
    ghost from_gives = { λ _ refusal. refusal ≡ Memory };

    fn from(_error: AllocError) -> CommandRefusal {
        CommandRefusal::Memory
    }
}
