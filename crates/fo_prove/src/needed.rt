//! The clauses on which a clause rests.

ghost use Rattle.std.specs.Prelude.{◌≡◌, ◌<◌, ◌+◌, ◌⊎◌, ℕ, length, map, replicate, slice_set, true, false, vec_len, IfOk};
ghost use Rattle.fo_super.specs.Runs.{origin_of};
ghost use Rattle.fo_prove.specs.Refutations.{IsParent};
ghost use Rattle.fo_prove.specs.Marks.{AreEarlier, AreNeeded, IsClosedFrom, IsMarkedFor};

use fo_super::member::FoMember;
use fo_super::state::FoOrigin;
use std::alloc::{AllocError, Global};

/// Marks a clause.
fn mark(marks: &mut [bool], number: u32)
    requires { number < length marks.old }
    ensures { IsMarkedFor (λ k. k ≡ number) marks.old marks.new }
{
    marks[number as usize] = true;
}

/// Marks two clauses.
fn mark_both(marks: &mut [bool], one: u32, other: u32)
    requires one { one < length marks.old }
    requires other { other < length marks.old }
    ensures { IsMarkedFor (λ k. (k ≡ one) ⊎ (k ≡ other)) marks.old marks.new }
{
    mark(marks, one);
    mark(marks, other);
}

/// Marks the parents of a clause.
fn mark_parents(marks: &mut [bool], origin: &FoOrigin)
    requires { (m : ℕ) → IsParent (origin_of origin.now) m → m < length marks.old }
    ensures { IsMarkedFor (IsParent (origin_of origin.now)) marks.old marks.new }
{
    match origin {
        FoOrigin::Given => {}
        FoOrigin::Concluded { member, .. } => match member {
            FoMember::Resolve { clause, .. } => mark(marks, *clause),
            FoMember::Factor { clause, .. } => mark(marks, *clause),
            FoMember::Superpose { from, into, .. } => mark_both(marks, *from, *into),
        },
    }
}

/// Marks the parents of a clause that is marked.
fn visit(marks: &mut [bool], origins: &[FoOrigin], at: usize)
    requires within { at < length origins.now }
    requires same_length { length marks.old ≡ length origins.now }
    requires earlier { AreEarlier (map origin_of origins.now) }
    ensures same_length { length marks.new ≡ length origins.now }
    ensures visited { (e : ℕ) → IsClosedFrom (at + 1) (map origin_of origins.now) e marks.old → IsClosedFrom at (map origin_of origins.now) e marks.new }
{
    if marks[at] {
        let origin = &origins[at];
        mark_parents(marks, origin);
    }
}

/// Marks the parents of all clauses that are marked, the last first.
fn visit_all(marks: &mut [bool], origins: &[FoOrigin])
    requires same_length { length marks.old ≡ length origins.now }
    requires earlier { AreEarlier (map origin_of origins.now) }
    ensures same_length { length marks.new ≡ length origins.now }
    ensures visited { (e : ℕ) → IsClosedFrom (length origins.now) (map origin_of origins.now) e marks.old → IsClosedFrom 0 (map origin_of origins.now) e marks.new }
{
    let mut left = origins.len();
    while left > 0 {
        left -= 1;
        visit(marks, origins, left);
    }
}

/// No mark but one.
fn first_mark(alloc: Global, count: usize, last: usize) -> Result<Vec<bool>, AllocError>
    requires { last < count }
    ensures marks { IfOk result (λ marks. marks.items ≡ slice_set (replicate count false) last true) }
    ensures length { IfOk result (λ marks. vec_len marks ≡ count) }
{
    let mut marks = vec![in alloc; false; count]?;
    marks[last] = true;
    Ok(marks)
}

/// Marks on the clauses: those on which a clause rests.
pub(crate) fn needed(
    alloc: Global,
    origins: &[FoOrigin],
    last: usize,
) -> Result<Vec<bool>, AllocError>
    requires within { last < length origins.now }
    requires earlier { AreEarlier (map origin_of origins.now) }
    ensures { IfOk result (λ marks. AreNeeded (map origin_of origins.now) last marks.items) }
{
    let mut marks = first_mark(alloc, origins.len(), last)?;
    visit_all(&mut marks, origins);
    Ok(marks)
}
