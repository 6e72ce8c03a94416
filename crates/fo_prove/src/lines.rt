//! The lines of a refutation.

ghost use Rattle.std.specs.Prelude.{◌≡◌, ◌<◌, [], ℕ, length, map, Bool, true, false, List, IfOk, OnOk};
ghost use Rattle.fo_super.specs.Runs.{origin_of, search_of};
ghost use Rattle.fo_terms.specs.Terms.{Terms};
ghost use Rattle.fo_super.specs.Members.{Member};
ghost use Rattle.fo_super.specs.Turns.{concluded, given};
ghost use Rattle.fo_super.specs.Viewing.{member_of};
ghost use Rattle.fo_replay.specs.Instances.{as_terms};
ghost use Rattle.fo_prove.specs.Refutations.{literals_of, AreLines, IsParent, IsRefutation, RestsOn};
ghost use Rattle.fo_prove.specs.Marks.{Adds, AreEarlier, AreNeeded, AreParentsWithin};

use crate::needed::needed;
use crate::own::own_step;
use crate::steps::{count_lines, lines_of, sum_of};
use fo_super::member::FoMember;
use fo_super::state::{FoOrigin, FoState};
use fo_terms::term::FoTerm;
use fo_text::answer::FoStep;
use fo_text::problem::FoClause;
use sqlite_items::Items;
use std::alloc::{AllocError, Global};

/// Lines, with the number of the next one, and the number of the last line of each clause so far.
#[derive(Drop)]
struct Lines {
    next: u32,
    last: Items<u32>,
    steps: Items<FoStep>,
}

impl Lines {
    /// Adds a clause of the text, which has the number of its line.
    fn add_text(&mut self) -> Result<(), AllocError>
        ensures { OnOk result ((literals : ℕ → ℕ) (mark : Bool) → Adds literals given mark self.old.next self.old.last self.old.steps self.new.next self.new.last self.new.steps) }
    {
        let number = self.last.len();
        if number > 0xffff_ffff {
            return Err(AllocError);
        }
        self.last.push(number as u32)?;
        Ok(())
    }

    /// Adds a clause that is not needed.
    fn leave_out(&mut self) -> Result<(), AllocError>
        ensures { OnOk result ((literals : ℕ → ℕ) (m : Member) (vars : List ℕ) (terms : Terms) → Adds literals (concluded m vars terms) false self.old.next self.old.last self.old.steps self.new.next self.new.last self.new.steps) }
    {
        self.last.push(0)?;
        Ok(())
    }

    /// Adds the lines of a member.
    fn add_member(
        &mut self,
        alloc: Global,
        clauses: &[FoClause],
        member: &FoMember,
        vars: &[u32],
        terms: &[FoTerm],
    ) -> Result<(), AllocError>
        requires lines { AreParentsWithin (concluded (member_of member.now) vars.now (as_terms terms.now)) (length self.old.last) }
        requires clauses { AreParentsWithin (concluded (member_of member.now) vars.now (as_terms terms.now)) (length clauses.now) }
        ensures { OnOk result (Adds (literals_of clauses.now) (concluded (member_of member.now) vars.now (as_terms terms.now)) true self.old.next self.old.last self.old.steps self.new.next self.new.last self.new.steps) }
    {
        let steps = lines_of(
            alloc,
            clauses,
            self.last.as_slice(),
            self.next,
            member,
            vars,
            terms,
        )?;
        let next = sum_of(self.next, count_lines(member))?;
        self.last.push(next - 1)?;
        self.steps.append(steps)?;
        self.next = next;
        Ok(())
    }

    /// Adds the lines of a clause, where it is needed.
    fn add(
        &mut self,
        alloc: Global,
        clauses: &[FoClause],
        origin: &FoOrigin,
        is_needed: bool,
    ) -> Result<(), AllocError>
        requires lines { AreParentsWithin (origin_of origin.now) (length self.old.last) }
        requires clauses { AreParentsWithin (origin_of origin.now) (length clauses.now) }
        ensures { OnOk result (Adds (literals_of clauses.now) (origin_of origin.now) is_needed self.old.next self.old.last self.old.steps self.new.next self.new.last self.new.steps) }
    {
        match origin {
            FoOrigin::Given => {
                self.add_text()?;
                Ok(())
            }
            FoOrigin::Concluded {
                member,
                vars,
                terms,
            } => {
                if !is_needed {
                    self.leave_out()?;
                    return Ok(());
                }
                self.add_member(alloc, clauses, member, vars.as_slice(), terms.as_slice())?;
                Ok(())
            }
        }
    }
}

/// The lines of the clauses that are marked, from the number of the first on.
fn marked_lines(
    alloc: Global,
    clauses: &[FoClause],
    origins: &[FoOrigin],
    marks: &[bool],
    first: u32,
) -> Result<Items<FoStep>, AllocError>
    requires clauses { length clauses.now ≡ length origins.now }
    requires marks { length marks.now ≡ length origins.now }
    requires earlier { AreEarlier (map origin_of origins.now) }
    ensures { IfOk result (λ steps. (e : ℕ) → AreNeeded (map origin_of origins.now) e marks.now → AreLines (RestsOn (map origin_of origins.now) e) (literals_of clauses.now) first [] (map origin_of origins.now) steps) }
{
    let mut lines = Lines {
        next: first,
        last: Items::new(alloc),
        steps: Items::new(alloc),
    };
    let mut at = 0;
    while at < origins.len() {
        let origin = &origins[at];
        lines.add(alloc, clauses, origin, marks[at])?;
        at += 1;
    }
    Ok(lines.steps)
}

/// The steps that give an empty clause.
pub(crate) fn refutation(
    alloc: Global,
    state: &FoState,
    empty: usize,
) -> Result<Items<FoStep>, AllocError>
    requires counted { length state.now.origins ≡ length state.now.clauses }
    requires earlier { AreEarlier (search_of state.now).origins }
    requires within { empty < length state.now.clauses }
    requires text { length state.now.problem.clauses < 0xffffffff }
    ensures { IfOk result (IsRefutation state.now.problem (search_of state.now) empty) }
{
    let clauses = state.clauses.as_slice();
    let origins = state.origins.as_slice();
    let origin = &origins[empty];
    match origin {
        FoOrigin::Given => {
            let clause = &clauses[empty];
            let r = own_step(alloc, clause, empty)?;
            Ok(r)
        }
        FoOrigin::Concluded { .. } => {
            let marks = needed(alloc, origins, empty)?;
            let first = state.problem.clauses.len() as u32;
            let r = marked_lines(alloc, clauses, origins, &marks, first)?;
            Ok(r)
        }
    }
}
