//! Literals and clauses, copied and looked up.

ghost use Rattle.std.specs.Prelude.{◌≡◌, ◌≤◌, ◌↔◌, [], ◌∷◌, List, IfOk, IsTrue, MatchOption, Some, slice_get, sum_by};
ghost use Rattle.fo_terms.specs.declared.term.FoNode.{FoNode};
ghost use Rattle.fo_text.specs.declared.problem.FoClause.{FoClause};
ghost use Rattle.fo_text.specs.declared.problem.FoLit.{FoLit};
ghost use Rattle.fo_replay.specs.Replays.{near as near_side, far as far_side, differ, IsLiteralAt, IsLight, literal_weight};

use fo_terms::term::{FoNode, FoTerm};
use fo_text::answer::FoSide;
use fo_text::problem::{FoClause, FoLit};
use sqlite_items::Items;
use std::alloc::{AllocError, Global};

/// A copy of a literal.
pub(crate) fn copy_of(alloc: Global, literal: &FoLit) -> Result<FoLit, AllocError>
    ensures { IfOk result (λ l. l ≡ literal.now) }
{
    let left = literal.left.try_clone(alloc)?;
    let right = literal.right.try_clone(alloc)?;
    Ok(FoLit {
        pos: literal.pos,
        left,
        right,
    })
}

/// A copy of literals.
pub(crate) fn copies_of(alloc: Global, literals: &[FoLit]) -> Result<Items<FoLit>, AllocError>
    ensures { IfOk result (λ ls. ls ≡ literals.now) }
{
    let mut copies = Items::new(alloc);
    for literal in literals {
        copies.push(copy_of(alloc, literal)?)?;
    }
    Ok(copies)
}

/// A negative literal of copies of two terms.
pub(crate) fn denial(alloc: Global, left: &FoTerm, right: &FoTerm) -> Result<FoLit, AllocError>
    ensures { IfOk result (λ l. l ≡ differ left.now right.now) }
{
    let left = left.try_clone(alloc)?;
    let right = right.try_clone(alloc)?;
    Ok(FoLit {
        pos: false,
        left,
        right,
    })
}

/// This side of a literal.
pub(crate) fn near(side: FoSide, literal: &FoLit) -> &FoTerm
    ensures { result.now ≡ near_side side literal.now }
{
    match side {
        FoSide::Left => &literal.left,
        FoSide::Right => &literal.right,
    }
}

/// The other side of a literal.
pub(crate) fn far(side: FoSide, literal: &FoLit) -> &FoTerm
    ensures { result.now ≡ far_side side literal.now }
{
    match side {
        FoSide::Left => &literal.right,
        FoSide::Right => &literal.left,
    }
}

/// What is behind the first nodes, where they are the same.
fn same_first<'a, 'b>(
    one: &'a [FoNode],
    other: &'b [FoNode],
) -> Option<(&'a [FoNode], &'b [FoNode])>
    ensures { MatchOption result ((n : FoNode) (xs ys : List FoNode) → one.now ≡ n ∷ xs → other.now ≡ n ∷ ys → ⊥) (λ x. (n : FoNode) × (one.now ≡ n ∷ x.0.now) × (other.now ≡ n ∷ x.1.now)) }
{
    let (first, ones) = one.split_first()?;
    let (second, others) = other.split_first()?;
    if *first == *second {
        Some((ones, others))
    } else {
        None
    }
}

fn are_empty(one: &[FoNode], other: &[FoNode]) -> bool
    ensures { IsTrue result ↔ ((one.now ≡ []) × (other.now ≡ [])) }
{
    one.is_empty() && other.is_empty()
}

/// Whether two terms are equal.
pub(crate) fn same_term(one: &FoTerm, other: &FoTerm) -> bool
    ensures { IsTrue result ↔ (one.now ≡ other.now) }
{
    let mut left = one.nodes();
    let mut right = other.nodes();
    while let Some((ones, others)) = same_first(left, right) {
        left = ones;
        right = others;
    }
    are_empty(left, right)
}

/// A clause by its number.
pub(crate) fn clause_at(clauses: &[FoClause], number: u32) -> Option<&FoClause>
    ensures { MatchOption result ((c : FoClause) → slice_get clauses.now number ≡ Some c → ⊥) (λ c. slice_get clauses.now number ≡ Some c.now) }
{
    clauses.get(number as usize)
}

/// A literal with its clause.
pub(crate) fn literal_at(
    clauses: &[FoClause],
    number: u32,
    place: u32,
) -> Option<(&FoClause, &FoLit)>
    ensures { MatchOption result ((c : FoClause) (l : FoLit) → IsLiteralAt clauses.now number place c l → ⊥) (λ x. IsLiteralAt clauses.now number place x.0.now x.1.now) }
{
    let clause = clauses.get(number as usize)?;
    let literal = clause.lits.get(place as usize)?;
    Some((clause, literal))
}

/// The weight of a literal, if it is at most the limit.
fn weight_of(literal: &FoLit) -> Option<usize>
    ensures { MatchOption result (literal_weight literal.now ≤ 100000 → ⊥) (λ n. (n ≡ literal_weight literal.now) × (n ≤ 100000)) }
{
    let left = literal.left.nodes().len();
    let right = literal.right.nodes().len();
    if left > 100_000 || right > 100_000 - left {
        None
    } else {
        Some(left + right)
    }
}

/// Whether a clause is within the limits.
pub(crate) fn is_light(clause: &FoClause) -> bool
    ensures { IsTrue result ↔ IsLight clause.now }
{
    clause.lits.len() <= 1000 && is_light_list(clause.lits.as_slice())
}

/// Whether literals weigh no more than the limit.
fn is_light_list(literals: &[FoLit]) -> bool
    ensures { IsTrue result ↔ (sum_by literal_weight literals.now ≤ 100000) }
{
    let mut weight = 0;
    for literal in literals {
        match weight_of(literal) {
            None => return false,
            Some(more) => {
                if more > 100_000 - weight {
                    return false;
                }
                weight += more;
            }
        }
    }
    true
}
