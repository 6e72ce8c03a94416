//! Why a step is refused.

ghost use Rattle.std.specs.Prelude.{◌≡◌};
ghost use Rattle.leo_kernel.specs.declared.reason.StepRefusal.TheVariants.{Memory};

use std::alloc::AllocError;

/// The first condition of a step's rule that does not hold, in this order.
#[derive(Clone, Copy, Debug, PartialEq, Eq)]
pub enum Reason {
    /// A line that the rule names is not an earlier one, or no hypothesis has the number that it names.
    Parent,
    /// No literal has a number that the rule names, or the two literals of a factor are one.
    Literal,
    /// A path leads nowhere, or under a lambda.
    Place,
    /// The step's clause is not typed, or what the rule names does not have the type that the rule asks for.
    Types,
    /// An abbreviation is missing, not asked for, not new, not closed, or does not stand for the chosen term.
    Symbol,
    /// The step's clause is not what the rule concludes.
    Shape,
    /// No line is empty. No step is refused for it: it is the answer to a whole derivation.
    NoEmpty,
}

/// Why a step is not accepted.
#[derive(Clone, Copy, Debug, PartialEq, Eq)]
pub enum StepRefusal {
    /// A condition of its rule does not hold; this is the first.
    Refused { reason: Reason },
    /// Memory ran out, or a term goes deeper than a bank's terms may.
    Memory,
}

impl From<AllocError> for StepRefusal {
    ghost from_gives = { λ _ refusal. refusal ≡ Memory };

    fn from(_failed: AllocError) -> StepRefusal {
        StepRefusal::Memory
    }
}
