//! Bindings in an order in which each stands before those of the variables of its term.

ghost use Rattle.std.specs.Prelude.{◌≡◌, ◌<◌, ◌≤◌, ◌++◌, ◌∷◌, [], ℕ, length, slice_get, set, reverse, IfOk, OnOk, IfSome, IfNone, Some, true, false};
ghost use Rattle.fo_terms.specs.Substitutions.{Substitution};
ghost use Rattle.fo_terms.specs.Places.{ArePlaces};
ghost use Rattle.fo_terms.specs.Bindings.{IsIndexed, AreMade, AreBindings, Obeys};
ghost use Rattle.fo_terms.specs.Arranging.{IsReady, IsBlocked, AreOrdered, AreArranged, AreStuck, IsTried, SayTheSame, unmarked};

use crate::bindings::{Binding, Bindings};
use crate::places::Places;
use std::alloc::{AllocError, Global};

/// Bindings that stand in the order, the last first, and a mark for each of them.
#[derive(Drop)]
struct Arranged {
    marks: Vec<bool>,
    done: Vec<Binding>,
}

fn is_marked(marks: &[bool], number: usize) -> bool
    requires { number < length marks.now }
    ensures { slice_get marks.now number ≡ Some result }
{
    marks[number]
}

/// Whether all bound variables of the term at a place have marked bindings.
fn is_ready(places: &Places, bindings: &Bindings, marks: &[bool], at: usize) -> bool
    requires indexed { IsIndexed bindings.now.made.items bindings.now.numbers }
    requires bindings { AreMade places.now.nodes.items bindings.now.made.items }
    requires places { ArePlaces places.now.nodes.items places.now.ends.items }
    requires as_long { length marks.now ≡ length bindings.now.made.items }
    requires inside { at < length places.now.nodes.items }
    ensures ready { result ≡ true → IsReady places.now.nodes.items bindings.now.made.items marks.now at }
    ensures blocked { result ≡ false → IsBlocked places.now.nodes.items bindings.now.made.items marks.now at }
{
    for here in at..places.behind(at) {
        if let Some(number) = bindings.number_at(places, here) {
            if !is_marked(marks, number) {
                return false;
            }
        }
    }
    true
}

/// Whether all are marked.
fn are_marked(marks: &[bool]) -> bool
    ensures marked { result ≡ true → (k : ℕ) → k < length marks.now → slice_get marks.now k ≡ Some true }
    ensures unmarked { result ≡ false → (k : ℕ) × (slice_get marks.now k ≡ Some false) }
{
    for number in 0..marks.len() {
        if !is_marked(marks, number) {
            return false;
        }
    }
    true
}

impl Arranged {
    ghost use Rattle.fo_terms.specs.declared.bindings.Binding.{Binding};

    /// None of so many bindings.
    fn new(alloc: Global, count: usize) -> Result<Arranged, AllocError>
        ensures as_long { IfOk result (λ a. length a.marks.items ≡ count) }
        ensures none { IfOk result (λ a. a.done.items ≡ []) }
        ensures unmarked { IfOk result (λ a. (k : ℕ) → slice_get a.marks.items k ≡ Some true → ⊥) }
    {
        let mut marks = Vec::new(alloc);
        for _ in 0..count {
            marks.push(false)?;
        }
        Ok(Arranged {
            marks,
            done: Vec::new(alloc),
        })
    }

    /// Marks a binding and puts it behind the others.
    fn add(&mut self, number: usize, binding: Binding) -> Result<(), AllocError>
        requires { number < length self.old.marks.items }
        ensures done { OnOk result (self.new.done.items ≡ self.old.done.items ++ binding ∷ []) }
        ensures marks { OnOk result (self.new.marks.items ≡ set self.old.marks.items number true) }
    {
        self.done.push(binding)?;
        self.marks[number] = true;
        Ok(())
    }

    /// Adds a binding, if it was not added before and all bound variables of its term have theirs
    /// added. Whether it did.
    fn try_add(
        &mut self,
        places: &Places,
        bindings: &Bindings,
        number: usize,
    ) -> Result<bool, AllocError>
        requires indexed { IsIndexed bindings.now.made.items bindings.now.numbers }
        requires bindings { AreMade places.now.nodes.items bindings.now.made.items }
        requires places { ArePlaces places.now.nodes.items places.now.ends.items }
        requires arranged { AreArranged places.now.nodes.items bindings.now.made.items self.old.marks.items self.old.done.items }
        requires inside { number < length bindings.now.made.items }
        ensures arranged { OnOk result (AreArranged places.now.nodes.items bindings.now.made.items self.new.marks.items self.new.done.items) }
        ensures tried { IfOk result (IsTried self.old.marks.items self.new.marks.items) }
        ensures blocked { IfOk result (λ changed. changed ≡ false → (b : Binding) → slice_get bindings.now.made.items number ≡ Some b → slice_get self.old.marks.items number ≡ Some false → IsBlocked places.now.nodes.items bindings.now.made.items self.old.marks.items b.place) }
    {
        let binding = bindings.binding(number);
        if is_marked(&self.marks, number) {
            return Ok(false);
        }
        if is_ready(places, bindings, &self.marks, binding.place) {
            self.add(number, binding)?;
            Ok(true)
        } else {
            Ok(false)
        }
    }

    /// Tries each binding from the last on.
    fn sweep_back(&mut self, places: &Places, bindings: &Bindings) -> Result<(), AllocError>
        requires indexed { IsIndexed bindings.now.made.items bindings.now.numbers }
        requires bindings { AreMade places.now.nodes.items bindings.now.made.items }
        requires places { ArePlaces places.now.nodes.items places.now.ends.items }
        requires arranged { AreArranged places.now.nodes.items bindings.now.made.items self.old.marks.items self.old.done.items }
        ensures arranged { OnOk result (AreArranged places.now.nodes.items bindings.now.made.items self.new.marks.items self.new.done.items) }
        ensures no_more { OnOk result (unmarked self.new.marks.items ≤ unmarked self.old.marks.items) }
    {
        let mut number = bindings.made.len();
        while number > 0 {
            number -= 1;
            let _ = self.try_add(places, bindings, number)?;
        }
        Ok(())
    }

    /// Tries each binding from the first on. Whether one was added.
    fn sweep(&mut self, places: &Places, bindings: &Bindings) -> Result<bool, AllocError>
        requires indexed { IsIndexed bindings.now.made.items bindings.now.numbers }
        requires bindings { AreMade places.now.nodes.items bindings.now.made.items }
        requires places { ArePlaces places.now.nodes.items places.now.ends.items }
        requires arranged { AreArranged places.now.nodes.items bindings.now.made.items self.old.marks.items self.old.done.items }
        ensures arranged { OnOk result (AreArranged places.now.nodes.items bindings.now.made.items self.new.marks.items self.new.done.items) }
        ensures fewer { IfOk result (λ changed. changed ≡ true → unmarked self.new.marks.items < unmarked self.old.marks.items) }
        ensures stuck { IfOk result (λ changed. changed ≡ false → AreStuck places.now.nodes.items bindings.now.made.items self.new.marks.items (length bindings.now.made.items)) }
    {
        let mut changed = false;
        for number in 0..bindings.made.len() {
            if self.try_add(places, bindings, number)? {
                changed = true;
            }
        }
        Ok(changed)
    }
}

/// The bindings from the last on.
fn reversed(alloc: Global, places: &Places, done: &[Binding]) -> Result<Bindings, AllocError>
    requires { AreOrdered places.now.nodes.items done.now }
    ensures made { IfOk result (λ b. b.made.items ≡ reverse done.now) }
    ensures indexed { IfOk result (λ b. IsIndexed b.made.items b.numbers) }
{
    let _length = places.nodes.len();
    let mut bindings = Bindings::new(alloc);
    let mut at = done.len();
    while at > 0 {
        at -= 1;
        let binding = done[at];
        bindings.bind(binding.variable, binding.place)?;
    }
    Ok(bindings)
}

/// The bindings in an order in which no term has a variable that is bound with it or before it; None
/// where there is no such order, so that no substitution obeys them.
pub(crate) fn arrange(
    alloc: Global,
    places: &Places,
    bindings: &Bindings,
) -> Result<Option<Bindings>, AllocError>
    requires indexed { IsIndexed bindings.now.made.items bindings.now.numbers }
    requires bindings { AreMade places.now.nodes.items bindings.now.made.items }
    requires places { ArePlaces places.now.nodes.items places.now.ends.items }
    ensures indexed { IfOk result (λ o. IfSome o (λ b. IsIndexed b.made.items b.numbers)) }
    ensures arranged { IfOk result (λ o. IfSome o (λ b. AreBindings places.now.nodes.items b.made.items × SayTheSame places.now.nodes.items bindings.now.made.items b.made.items)) }
    ensures refused { IfOk result (λ o. IfNone o ((r : Substitution) → Obeys places.now.nodes.items bindings.now.made.items r → ⊥)) }
{
    let mut arranged = Arranged::new(alloc, bindings.made.len())?;
    while arranged.sweep(places, bindings)? {
        arranged.sweep_back(places, bindings)?;
    }
    if are_marked(&arranged.marks) {
        let found = reversed(alloc, places, &arranged.done)?;
        Ok(Some(found))
    } else {
        Ok(None)
    }
}
