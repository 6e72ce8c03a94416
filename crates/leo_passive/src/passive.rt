//! Numbers with weights in lists of slots.
ghost use Rattle.std.specs.Prelude.{◌≡◌, ℕ, ◌+◌, ◌*◌, ◌^◌, ◌<◌, ◌≤◌, List, [], ◌∷◌, ◌++◌, length, true, false, IfOk, IfSome, IsTrue, MatchOption, MatchResult};
ghost use Rattle.std.specs.Option.{option_map};
ghost use Rattle.leo_passive.specs.Table.{list_of_weight, of_list, half, lighter_of, IsLonger};
ghost use Rattle.leo_passive.specs.Entries.{Entry, AreBelow, has_number, without, IsOldest, IsLightest};

use leo_lists::Slots;
use std::alloc::{AllocError, Global};
use std::marker::Model;

/// The list of all clauses by age.
const AGES: u32 = 0;

/// The list of clauses that are heavier than all others; those before it are for one weight each.
const HEAVY: u32 = 514;

/// How many lists there are.
const LISTS: u32 = 515;

/// The passive clauses: numbers below 2^30, each with its weight.
///
/// Clauses see the entries in rising order of number.
#[derive(Drop)]
pub struct Passive {
    slots: Slots,
    weights: Vec<u64, Global>,
}

impl Model for Passive {
    ghost use Rattle.std.specs.Prelude.{List};
    ghost use Rattle.leo_passive.specs.Entries.{Entry};
    ghost use Rattle.leo_passive.specs.Table.{entries_of, HasEntries};

    ghost Value = { List Entry };

    ghost view = { λ p. entries_of p.slots p.weights.items };

    ghost invariant = { λ p. HasEntries p.slots p.weights.items (entries_of p.slots p.weights.items) };
}

// The list of a weight.
fn list_of(weight: u64) -> u32
    ensures { result ≡ list_of_weight weight }
{
    if weight <= 512 {
        weight as u32 + 1
    } else {
        HEAVY
    }
}

// The number of the clause of a slot.
fn number_of(slot: Option<u32>) -> Option<u32>
    ensures { result ≡ option_map half slot }
{
    match slot {
        None => None,
        Some(slot) => Some(slot / 2),
    }
}

impl Passive {
    /// No clauses.
    pub fn new(alloc: Global) -> Result<Passive, AllocError>
        ensures { IfOk result (λ p. p ≡ []) }
    {
        Ok(Passive {
            slots: Slots::with(alloc, LISTS, 0)?,
            weights: Vec::new(alloc),
        })
    }

    /// The number of the oldest clause, which has the least number, or else of the lightest, and of these of
    /// least number; none exactly where there is no clause. Takes no memory.
    pub fn peek(&self, oldest: bool) -> Option<u32>
        ensures oldest { oldest ≡ true → IsOldest self.now result }
        ensures lightest { oldest ≡ false → IsLightest self.now result }
    {
        if oldest {
            self.oldest()
        } else {
            number_of(self.lightest())
        }
    }

    /// The clause that `peek` tells, which is taken out. Takes no memory.
    pub fn take(&mut self, oldest: bool) -> Option<u32>
        ensures oldest { oldest ≡ true → IsOldest self.old result }
        ensures lightest { oldest ≡ false → IsLightest self.old result }
        ensures left { MatchOption result (self.new ≡ self.old) (λ n. self.new ≡ without n self.old) }
    {
        let number = self.peek(oldest)?;
        self.remove(number);
        Some(number)
    }

    /// Takes out a clause that stands. All others stay in their order. Takes no memory.
    pub fn remove(&mut self, number: u32)
        requires { IsTrue (has_number number self.old) }
        ensures { self.new ≡ without number self.old }
    {
        self.slots.unlink(2 * number);
        self.slots.unlink(2 * number + 1);
    }

    /// Adds a clause, whose number is greater than all that stand. Where there is no memory, all is as before.
    pub fn add(&mut self, number: u32, weight: u64) -> Result<(), AllocError>
        requires number { number < 2 ^ 30 }
        requires newest { AreBelow number self.old }
        ensures { MatchResult result
            (λ _. self.new ≡ self.old ++ record { number = number; weight = weight } ∷ [])
            (λ _. self.new ≡ self.old) }
    {
        make_room(&mut self.slots, &mut self.weights, number)?;
        self.weights[number as usize] = weight;
        self.slots.push_back(AGES, 2 * number);
        self.slots.push_back(list_of(weight), 2 * number + 1);
        Ok(())
    }

    // The number of the oldest clause.
    fn oldest(&self) -> Option<u32>
        ensures { IsOldest self.now result }
    {
        number_of(self.slots.front(AGES))
    }

    // The slot of the lightest clause.
    fn lightest(&self) -> Option<u32>
        ensures { IsLightest self.now (option_map half result) }
    {
        for list in 1..HEAVY {
            let front = self.slots.front(list);
            if front.is_some() {
                return front;
            }
        }
        self.least_heavy()
    }

    // The slot of the lightest clause, where all are in the last list.
    fn least_heavy(&self) -> Option<u32>
        requires { (k : ℕ) → 0 < k → k < 514 → of_list k self.now ≡ [] }
        ensures { IsLightest self.now (option_map half result) }
    {
        let mut best = None;
        let mut here = self.slots.front(HEAVY);
        for _ in 0..self.weights.len() {
            let Some(slot) = here else { break };
            best = Some(lighter(&self.weights, best, slot));
            here = self.slots.next(slot);
        }
        best
    }
}

// The lighter of two slots, the first where they weigh the same.
fn lighter(weights: &[u64], best: Option<u32>, slot: u32) -> u32
    requires best { IfSome best (λ b. half b < length weights.now) }
    requires slot { half slot < length weights.now }
    ensures { result ≡ lighter_of weights.now best slot }
{
    match best {
        None => slot,
        Some(best) => {
            if weights[best as usize / 2] <= weights[slot as usize / 2] {
                best
            } else {
                slot
            }
        }
    }
}

// Room for the slots and the weight of a number. Lists and weights that are there stay.
fn make_room(
    slots: &mut Slots,
    weights: &mut Vec<u64, Global>,
    number: u32,
) -> Result<(), AllocError>
    requires number { number < 2 ^ 30 }
    requires table { (length slots.old.lists ≡ 515) × (slots.old.slots ≤ 2 * length weights.old.items) × (length weights.old.items ≤ 2 ^ 30) }
    ensures weights { IsLonger weights.old.items weights.new.items × (length weights.new.items ≤ 2 ^ 30) }
    ensures slots { (slots.new.lists ≡ slots.old.lists) × (slots.old.slots ≤ slots.new.slots) × (slots.new.slots ≤ 2 * length weights.new.items) }
    ensures room { IfOk result (λ _. (number < length weights.new.items) × (2 * number + 1 < slots.new.slots)) }
{
    let count = number as usize + 1;
    if weights.len() < count {
        weights.resize(count, 0)?;
    }
    slots.grow(LISTS, 2 * weights.len() as u32)
}
