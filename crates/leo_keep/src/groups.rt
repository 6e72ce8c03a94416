//! What quick tests know of the kept clauses, with the clauses in groups by the heads of their first literals, so that
//! whole groups need not be looked at.

ghost use Rattle.std.specs.Prelude.{◌≡◌, ◌≤◌, [], ◌∷◌, ◌++◌, length, take, IfSome, OnErr, OnOk};
ghost use Rattle.std.specs.Bool.{Decides};
ghost use Rattle.leo_keep.specs.Groups.{AreGrouped, HasHeadsAt, IsFrontGrouped, IsGrouped, StayGrouped};

use crate::fronts::Front;
use leo_clause::Lit;
use std::alloc::{AllocError, Global};
use std::marker::Model;

/// The numbers of clauses whose first literals have the same heads.
#[derive(Drop)]
pub(crate) struct Group {
    pub(crate) heads: Lit,
    pub(crate) numbers: Vec<u32>,
}

/// Whether a group is that of these heads.
pub(crate) fn has_heads(group: &Group, heads: &Lit) -> bool
    ensures { Decides result (group.now.heads ≡ heads.now) }
{
    group.heads == *heads
}

/// The place of the group of these heads.
fn place_of(groups: &[Group], heads: &Lit) -> Option<usize>
    ensures { IfSome result (λ p. HasHeadsAt groups.now p heads.now) }
{
    for place in 0..groups.len() {
        if has_heads(&groups[place], heads) {
            return Some(place);
        }
    }
    None
}

fn append(group: &mut Group, number: u32) -> Result<(), AllocError>
    ensures heads { group.new.heads ≡ group.old.heads }
    ensures ok { OnOk result (group.new.numbers.items ≡ group.old.numbers.items ++ number ∷ []) }
    ensures err { OnErr result (group.new.numbers.items ≡ group.old.numbers.items) }
{
    group.numbers.push(number)?;
    Ok(())
}

/// Puts a number to the group of these heads.
fn put(alloc: Global, groups: &mut Vec<Group>, heads: &Lit, number: u32) -> Result<(), AllocError>
    ensures put { OnOk result (IsGrouped groups.new.items heads.now number) }
    ensures stay { StayGrouped groups.old.items groups.new.items }
{
    match place_of(groups, heads) {
        Some(place) => append(&mut groups[place], number),
        None => {
            let mut numbers = Vec::new(alloc);
            numbers.push(number)?;
            groups.push(Group {
                heads: *heads,
                numbers,
            })?;
            Ok(())
        }
    }
}

/// Puts the number of a clause with this front to its group; the clause without literals stands in none.
fn put_front(
    alloc: Global,
    groups: &mut Vec<Group>,
    front: &Option<Front>,
    number: u32,
) -> Result<(), AllocError>
    ensures put { OnOk result (IsFrontGrouped groups.new.items front.now number) }
    ensures stay { StayGrouped groups.old.items groups.new.items }
{
    match front {
        Some(front) => put(alloc, groups, &front.heads, number),
        None => Ok(()),
    }
}

/// What quick tests know of kept clauses, each with its place in the list as its number. A contract sees the list.
#[derive(Drop)]
pub struct Fronts {
    alloc: Global,
    fronts: Vec<Option<Front>>,
    // A group may also have numbers of clauses that were dropped: those are looked at in vain.
    groups: Vec<Group>,
}

impl Model for Fronts {
    ghost use Rattle.std.specs.Prelude.{List, Option};
    ghost use Rattle.leo_keep.specs.declared.fronts.Front.{Front};
    ghost use Rattle.leo_keep.specs.Groups.{AreGrouped};

    ghost Value = { List (Option Front) };

    ghost view = { λ f. f.fronts.items };

    ghost invariant = { λ f. AreGrouped f.fronts.items f.groups.items };
}

impl Fronts {
    /// Those of no clauses.
    pub fn new(alloc: Global) -> Fronts
        ensures { result ≡ [] }
    {
        Fronts {
            alloc,
            fronts: Vec::new(alloc),
            groups: Vec::new(alloc),
        }
    }

    /// How many there are.
    pub fn len(&self) -> usize
        ensures { result ≡ length self.now }
    {
        self.fronts.as_slice().len()
    }

    /// Appends that of a clause. Where there is no memory, the list is as before.
    pub fn add(&mut self, front: Option<Front>) -> Result<(), AllocError>
        ensures ok { OnOk result (self.new ≡ self.old ++ front ∷ []) }
        ensures err { OnErr result (self.new ≡ self.old) }
    {
        let Ok(number) = u32::try_from(self.fronts.as_slice().len()) else {
            return Err(AllocError);
        };
        put_front(self.alloc, &mut self.groups, &front, number)?;
        self.fronts.push(front)?;
        Ok(())
    }

    /// Drops all but the first `count`. Takes no memory.
    pub fn cut(&mut self, count: usize)
        requires { count ≤ length self.old }
        ensures { self.new ≡ take count self.old }
    {
        self.fronts.truncate(count);
    }

    /// The list.
    pub(crate) fn as_slice(&self) -> &[Option<Front>]
        ensures { result.now ≡ self.now }
    {
        self.fronts.as_slice()
    }

    /// The groups.
    pub(crate) fn groups(&self) -> &[Group]
        ensures { AreGrouped self.now result.now }
    {
        self.groups.as_slice()
    }
}
