//! The laws of answers.

ghost use Rattle.fo_prove.specs.Replayed.{RefutationsReplay};
ghost use Rattle.fo_prove.specs.Unique.{AnswersAreUnique, WholeAnswersAreUnique};

use fo_super::laws::{member_laws, turn_laws};

/// The steps of each answer that is a refutation replay, one after the other, behind the clauses of the
/// text, and one of them is empty.
pub fn refutation_laws()
    ensures { RefutationsReplay }
{
    member_laws();
}

/// A problem has one answer: the runs of the machine on it end with the same beats and the same end.
/// Two calls that write their answers to it whole write the same bytes, and end alike.
pub fn answer_laws()
    ensures unique { AnswersAreUnique }
    ensures whole { WholeAnswersAreUnique }
{
    turn_laws();
}
