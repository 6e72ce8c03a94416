//! Results that a bank keeps, so that work is done once for each shared term, and how deep a call goes.

ghost use Rattle.std.specs.Prelude.{◌≡◌, ◌+◌, ◌<◌, ◌⊎◌, ℕ, [], length, slice_get, IfOk, IfSome, OnOk, OnErr, Some, true};
ghost use Rattle.leo_terms.specs.Tree.{lifted};
ghost use Rattle.leo_terms.specs.Normal.{IsNormalFormOf, IsExpansionOf, IsPut};
ghost use Rattle.leo_terms.specs.Contents.{Grows, IsSound, IsTerm, tree_at, type_number};

use crate::bank::Bank;
use crate::node::TermId;
use indexmap::IndexMap;
use std::alloc::AllocError;
use std::hash::Hash;

/// How many levels of a term a call goes down at most; below them it answers that there is no memory.
///
/// A level takes less than 3,400 bytes of stack even where nothing is optimised, so that a call takes less than half of
/// a stack of 8 MiB. Quantifiers nested 500 times are 1,000 levels, since each has a lambda.
pub const DEPTH: u32 = 1_100;

/// How many results are kept from one call to the next.
const KEPT: usize = 1 << 16;

/// A term to be lifted: its indices from `from` on are raised by `by`.
#[derive(Clone, Copy, Debug, PartialEq, Eq, Hash)]
pub(crate) struct Lift {
    pub term: TermId,
    pub from: u64,
    pub by: u32,
}

/// A normal term in which another is put in for an index.
#[derive(Clone, Copy, Debug, PartialEq, Eq, Hash)]
pub(crate) struct Put {
    pub term: TermId,
    pub index: u64,
    pub put: TermId,
}

/// The levels that are left one level further down.
pub(crate) fn deeper(room: u32) -> Result<u32, AllocError>
    ensures ok { IfOk result (λ left. left + 1 ≡ room) }
    ensures err { OnErr result (room ≡ 0) }
{
    match room.checked_sub(1) {
        Some(left) => Ok(left),
        None => Err(AllocError),
    }
}

/// The result that a table has for a key.
fn find<K: Eq + Hash>(table: &IndexMap<K, TermId>, key: &K) -> Option<TermId>
    ensures { IfSome result (λ r. (i : ℕ) × (k : K) × (slice_get table.now.entries i ≡ Some (k, r)) × (K.eq key.now k ≡ true)) }
{
    table.get(key).copied()
}

/// Keeps a result for a key, in the place of an earlier one.
fn keep<K: Eq + Hash + Drop>(
    table: &mut IndexMap<K, TermId>,
    key: K,
    term: TermId,
) -> Result<(), AllocError>
    ensures entries { (i : ℕ) (k : K) (r : ℕ) → slice_get table.new.entries i ≡ Some (k, r) →
        (slice_get table.old.entries i ≡ Some (k, r)) ⊎ ((r ≡ term) × (K.eq key k ≡ true)) }
{
    table.insert(key, term)?;
    Ok(())
}

/// Lets go of a table's results once there are many.
fn shorten<K: Eq + Hash + Drop>(table: &mut IndexMap<K, TermId>)
    ensures { (i : ℕ) (k : K) (r : ℕ) → slice_get table.new.entries i ≡ Some (k, r) → slice_get table.old.entries i ≡ Some (k, r) }
{
    if table.len() > KEPT {
        table.clear();
    }
}

impl Bank {
    pub(crate) fn known_lift(&self, term: TermId, from: u64, by: u32) -> Option<TermId>
        ensures made { IfSome result (λ r. (term < length self.now.terms) × IsTerm self.now r (type_number self.now term) (lifted from by (tree_at self.now term))) }
        ensures sound { IsSound self.now }
    {
        find(&self.lifts, &Lift { term, from, by })
    }

    pub(crate) fn keep_lift(
        &mut self,
        term: TermId,
        from: u64,
        by: u32,
        r: TermId,
    ) -> Result<(), AllocError>
        requires within { term < length self.old.terms }
        requires made { IsTerm self.old r (type_number self.old term) (lifted from by (tree_at self.old term)) }
        ensures same { self.new ≡ self.old }
        ensures grows { Grows self.old self.new }
    {
        keep(&mut self.lifts, Lift { term, from, by }, r)
    }

    pub(crate) fn known_put(&self, term: TermId, index: u64, put: TermId) -> Option<TermId>
        ensures made { IfSome result (λ r. (term < length self.now.terms) × (put < length self.now.terms) × IsPut self.now self.now term index put r) }
        ensures sound { IsSound self.now }
    {
        find(&self.puts, &Put { term, index, put })
    }

    pub(crate) fn keep_put(
        &mut self,
        term: TermId,
        index: u64,
        put: TermId,
        r: TermId,
    ) -> Result<(), AllocError>
        requires within { term < length self.old.terms }
        requires put_within { put < length self.old.terms }
        requires made { IsPut self.old self.old term index put r }
        ensures same { self.new ≡ self.old }
        ensures grows { Grows self.old self.new }
    {
        keep(&mut self.puts, Put { term, index, put }, r)
    }

    pub(crate) fn known_expansion(&self, term: TermId) -> Option<TermId>
        ensures made { IfSome result (λ r. IsExpansionOf self.now self.now term r) }
        ensures sound { IsSound self.now }
    {
        find(&self.expansions, &term)
    }

    pub(crate) fn keep_expansion(&mut self, term: TermId, r: TermId) -> Result<(), AllocError>
        requires within { term < length self.old.terms }
        requires made { IsExpansionOf self.old self.old term r }
        ensures same { self.new ≡ self.old }
        ensures grows { Grows self.old self.new }
    {
        keep(&mut self.expansions, term, r)
    }

    pub(crate) fn known_normal(&self, term: TermId) -> Option<TermId>
        ensures made { IfSome result (λ r. IsNormalFormOf self.now self.now term r) }
        ensures sound { IsSound self.now }
    {
        find(&self.normals, &term)
    }

    pub(crate) fn keep_normal(&mut self, term: TermId, r: TermId) -> Result<(), AllocError>
        requires within { term < length self.old.terms }
        requires made { IsNormalFormOf self.old self.old term r }
        ensures same { self.new ≡ self.old }
        ensures grows { Grows self.old self.new }
    {
        keep(&mut self.normals, term, r)
    }

    /// Lets go of results of single steps once there are many.
    pub(crate) fn forget(&mut self)
        ensures same { self.new ≡ self.old }
        ensures grows { Grows self.old self.new }
    {
        shorten(&mut self.lifts);
        shorten(&mut self.puts);
        shorten(&mut self.expansions);
    }
}
