//! Weights of clauses.

ghost use Rattle.std.specs.Prelude.{◌≡◌, ◌<◌, ◌≤◌, ◌^◌, MatchOption, length, sum_by};
ghost use Rattle.std.specs.Bool.{Decides};
ghost use Rattle.fo_text.specs.Words.{most_number};
ghost use Rattle.fo_replay.specs.Replays.{clause_weight, literal_weight};

use fo_text::problem::{FoClause, FoLit};

/// The weight of a literal, if it is at most the limit.
fn weight_within(literal: &FoLit, limit: usize) -> Option<usize>
    ensures { MatchOption result (limit < literal_weight literal.now) (λ n. (n ≡ literal_weight literal.now) × (n ≤ limit)) }
{
    let left = literal.left.nodes().len();
    let right = literal.right.nodes().len();
    if left > limit || right > limit - left {
        None
    } else {
        Some(left + right)
    }
}

/// Whether literals weigh more than the limit: each symbol and each variable weighs 1.
pub fn is_heavier(literals: &[FoLit], limit: u32) -> bool
    ensures { Decides result (limit < sum_by literal_weight literals.now) }
{
    let limit = limit as usize;
    let mut weight = 0;
    for literal in literals {
        match weight_within(literal, limit - weight) {
            None => return true,
            Some(more) => weight += more,
        }
    }
    false
}

/// The weight of a literal.
fn literal_weight_of(literal: &FoLit) -> u128
    ensures weight { result ≡ literal_weight literal.now }
    ensures small { result < 2 ^ 66 }
{
    literal.left.nodes().len() as u128 + literal.right.nodes().len() as u128
}

/// The weight of a clause.
pub(crate) fn weight(clause: &FoClause) -> u128
    requires { length clause.now.lits ≤ most_number }
    ensures { result ≡ clause_weight clause.now }
{
    let mut weight = 0;
    for literal in clause.lits.as_slice() {
        weight += literal_weight_of(literal);
    }
    weight
}
