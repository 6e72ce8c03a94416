//! Parts of banks.

ghost use Rattle.std.specs.Prelude.{[], ◌∷◌, ◌++◌, ◌≡◌, ◌+◌, ◌<◌, ◌≤◌, ◌⊎◌, ℕ, IfOk, Some, get_or, length, map, slice_get};
ghost use Rattle.std.specs.Option.{option_map};
ghost use Rattle.leo_terms.specs.Contents.{AreTerms, Grows, IsBank, IsSound, IsTerm, tree_at, type_number};
ghost use Rattle.leo_terms.specs.Parts.{IsPart};
ghost use Rattle.leo_terms.specs.Marks.{AreMovedParts, AreNeeded, ArePartsMarked, IsMoved, IsPartOf, Marks, first_part, moved_view, second_part};

use crate::bank::Bank;
use crate::copy::{copied, copied_symbols};
use crate::node::{TermId, View};
use indexmap::{IndexMap, IndexSet};
use std::alloc::{AllocError, Global};

/// The first term in a view.
fn first_part(view: &View) -> Option<TermId>
    ensures { result ≡ first_part view.now }
{
    match view {
        View::App(f, _) => Some(*f),
        View::Lam(_, body) => Some(*body),
        View::Logic(_, x, _) => *x,
        _ => None,
    }
}

/// The second term in a view.
fn second_part(view: &View) -> Option<TermId>
    ensures { result ≡ second_part view.now }
{
    match view {
        View::App(_, a) => Some(*a),
        View::Logic(_, _, y) => *y,
        _ => None,
    }
}

/// Whether the term with a number is marked.
fn is_marked(marks: &[bool], place: usize) -> bool
    requires { place < length marks.now }
    ensures { slice_get marks.now place ≡ Some result }
{
    marks[place]
}

/// Marks a term, if one stands there.
fn mark(marks: &mut Vec<bool>, t: Option<TermId>)
    requires { (i : ℕ) → t ≡ Some i → i < length marks.old.items }
    ensures { Marks marks.old.items marks.new.items (λ i. t ≡ Some i) }
{
    if let Some(t) = t {
        marks[t.index()] = true;
    }
}

/// Marks the terms in a view.
fn mark_parts(marks: &mut Vec<bool>, view: &View)
    requires { (i : ℕ) → IsPartOf i view.now → i < length marks.old.items }
    ensures { Marks marks.old.items marks.new.items (λ i. IsPartOf i view.now) }
{
    mark(marks, first_part(view));
    mark(marks, second_part(view));
}

/// Marks terms.
fn mark_all(marks: &mut Vec<bool>, terms: &[TermId])
    requires { (k t : ℕ) → slice_get terms.now k ≡ Some t → t < length marks.old.items }
    ensures { Marks marks.old.items marks.new.items (λ t. (k : ℕ) × (slice_get terms.now k ≡ Some t)) }
{
    for t in terms {
        mark(marks, Some(*t));
    }
}

/// The number that a term has now.
fn number_at(numbers: &[TermId], t: TermId) -> TermId
    requires { t < length numbers.now }
    ensures { result ≡ get_or numbers.now t 0 }
{
    numbers[t.index()]
}

/// The numbers that terms have now.
fn numbers_at(
    alloc: Global,
    numbers: &[TermId],
    terms: &[TermId],
) -> Result<Vec<TermId>, AllocError>
    requires { (k t : ℕ) → slice_get terms.now k ≡ Some t → t < length numbers.now }
    ensures { IfOk result (λ r. r.items ≡ map (λ t. get_or numbers.now t 0) terms.now) }
{
    let mut moved = Vec::new(alloc);
    for t in terms {
        moved.push(number_at(numbers, *t))?;
    }
    Ok(moved)
}

/// A view with the numbers that its terms have now.
fn moved_view(numbers: &[TermId], view: View) -> View
    requires { (i : ℕ) → IsPartOf i view → i < length numbers.now }
    ensures { result ≡ moved_view numbers.now view }
{
    match view {
        View::App(f, a) => View::App(number_at(numbers, f), number_at(numbers, a)),
        View::Lam(ty, body) => View::Lam(ty, number_at(numbers, body)),
        View::Logic(op, x, y) => {
            let x = moved_argument(numbers, x);
            let y = moved_argument(numbers, y);
            View::Logic(op, x, y)
        }
        _ => view,
    }
}

fn moved_argument(numbers: &[TermId], x: Option<TermId>) -> Option<TermId>
    requires { (i : ℕ) → x ≡ Some i → i < length numbers.now }
    ensures { result ≡ option_map (λ t. get_or numbers.now t 0) x }
{
    match x {
        Some(t) => Some(number_at(numbers, t)),
        None => None,
    }
}

impl Bank {
    /// A bank with the types and symbols of this one under their numbers, and of its terms only the given ones with
    /// their subterms; and the numbers that the given terms have there, in their order. Takes time for each term of
    /// this bank.
    pub fn part(&self, alloc: Global, terms: &[TermId]) -> Result<(Bank, Vec<TermId>), AllocError>
        requires { AreTerms self.now terms.now }
        ensures part { IfOk result (λ r. IsPart self.now terms.now r.0 r.1.items) }
        ensures sound { IsBank self.now }
    {
        self.is_sound();
        let marks = self.needed(alloc, terms)?;
        let mut part = self.without_terms(alloc)?;
        let moved = self.move_marked(alloc, &marks, &mut part)?;
        let numbers = numbers_at(alloc, &moved, terms)?;
        Ok((part, numbers))
    }

    /// Which terms are given ones or subterms of these.
    fn needed(&self, alloc: Global, terms: &[TermId]) -> Result<Vec<bool>, AllocError>
        requires { AreTerms self.now terms.now }
        ensures needed { IfOk result (λ marks. AreNeeded self.now terms.now marks.items 0) }
        ensures sound { IsSound self.now }
    {
        let mut marks = vec![in alloc; false; self.terms.len()]?;
        mark_all(&mut marks, terms);
        self.mark_subterms(terms, &mut marks);
        Ok(marks)
    }

    /// Marks the subterms of marked terms, from high numbers to low, since parts have lower numbers.
    fn mark_subterms(&self, terms: &[TermId], marks: &mut Vec<bool>)
        requires { AreNeeded self.now terms.now marks.old.items (length self.now.terms) }
        ensures { AreNeeded self.now terms.now marks.new.items 0 }
    {
        for place in (0..marks.len()).rev() {
            if is_marked(marks, place) {
                let view = self.top(TermId::new(place));
                mark_parts(marks, &view);
            }
        }
    }

    /// A bank with the same types and symbols, and no terms.
    fn without_terms(&self, alloc: Global) -> Result<Bank, AllocError>
        ensures bank { IfOk result (λ b. b ≡ record self.now { terms = [] }) }
        ensures sound { IfOk result IsSound }
    {
        Ok(Bank {
            bases: self.bases,
            types: copied(alloc, &self.types)?,
            symbols: copied_symbols(alloc, &self.symbols)?,
            terms: IndexSet::new(alloc),
            facts: Vec::new(alloc),
            lifts: IndexMap::new(alloc),
            puts: IndexMap::new(alloc),
            expansions: IndexMap::new(alloc),
            normals: IndexMap::new(alloc),
        })
    }

    /// Makes the marked terms again in a bank with the same types and symbols: the number there of each of them.
    fn move_marked(
        &self,
        alloc: Global,
        marks: &[bool],
        part: &mut Bank,
    ) -> Result<Vec<TermId>, AllocError>
        requires of_bank { length marks.now ≡ length self.now.terms }
        requires parts { ArePartsMarked self.now marks.now 0 }
        requires part { IsMoved self.now marks.now part.old [] 0 }
        ensures moved { IfOk result (λ numbers. IsMoved self.now marks.now part.new numbers.items (length self.now.terms)) }
    {
        let mut numbers = Vec::new(alloc);
        for place in 0..marks.len() {
            let number = self.move_next(place, marks, &numbers, part)?;
            numbers.push(number)?;
        }
        Ok(numbers)
    }

    /// Makes the next term again, if it is marked; the number of any other does not matter.
    fn move_next(
        &self,
        place: usize,
        marks: &[bool],
        numbers: &[TermId],
        part: &mut Bank,
    ) -> Result<TermId, AllocError>
        requires of_bank { length marks.now ≡ length self.now.terms }
        requires within { place < length marks.now }
        requires parts { ArePartsMarked self.now marks.now 0 }
        requires moved { IsMoved self.now marks.now part.old numbers.now place }
        ensures moved { IfOk result (λ r. IsMoved self.now marks.now part.new (numbers.now ++ r ∷ []) (place + 1)) }
    {
        let _ = &self.terms;
        if is_marked(marks, place) {
            self.move_term(TermId::new(place), numbers, part)
        } else {
            Ok(TermId::new(0))
        }
    }

    /// Makes a term again of its parts, whose numbers in the other bank are given.
    fn move_term(
        &self,
        t: TermId,
        numbers: &[TermId],
        part: &mut Bank,
    ) -> Result<TermId, AllocError>
        requires within { t < length self.now.terms }
        requires numbered { t ≤ length numbers.now }
        requires parts { AreMovedParts self.now part.old numbers.now t }
        requires sound { IsSound part.old }
        requires rest { part.old ≡ record self.now { terms = part.old.terms } }
        ensures made { IfOk result (λ r. IsTerm part.new r (type_number self.now t) (tree_at self.now t)) }
        ensures only { IfOk result (λ r. (u : ℕ) → u < length part.new.terms → (u < length part.old.terms) ⊎ (u ≡ r)) }
        ensures rest { part.new ≡ record self.now { terms = part.new.terms } }
        ensures grows { Grows part.old part.new }
    {
        let view = moved_view(numbers, self.top(t));
        part.numbered(view, self.ty_of(t))
    }
}
