//! The book of a run.

ghost use Rattle.std.specs.Prelude.{◌≡◌, ◌++◌, ◌∷◌, [], map, Some, None, IfOk, OnErr};
ghost use Rattle.leo_q0.specs.Connectives.{false_term};
ghost use Rattle.leo_q0.specs.Derivations.{Derives};
ghost use Rattle.leo_kernel.specs.Records.{AreStepsOf};
ghost use Rattle.leo_kernel.specs.Steps.{line_at};
ghost use Rattle.leo_problem.specs.Loading.{IsProblem, theory_of};
ghost use Rattle.leo_derive.specs.Pruning.{IsPruned};
ghost use Rattle.leo_derive.specs.Verdicts.{IsRefutation, hypotheses_of};
ghost use Rattle.leo_turn.specs.Origins.{AreFrom};
ghost use Rattle.leo_core.specs.declared.event.Cause.TheVariants.{Won};
ghost use Rattle.leo_core.specs.declared.event.Owed.TheVariants as owed;
ghost use Rattle.leo_core.specs.Books.{HasTurned, IsBook, IsNew, IsUnchanged, ended, lines_of, standing_of};
ghost use Rattle.leo_core.specs.Limits.{AreSettings};
ghost use Rattle.leo_core.specs.Machine.{IsDue, IsOwed, MayEnd};

use crate::event::{Cause, Event, Owed};
use crate::refuted::has_empty;
use crate::settings::Settings;
use crate::terms::terms;
use leo_clause::StepRecord;
use leo_derive::prune;
use leo_problem::Problem;
use leo_simulation::laws::{bank_laws, soundness_laws};
use leo_turn::Search;
use std::alloc::{AllocError, Global};
use std::marker::Model;

/// A run of the search on a problem: the problem, the settings, the search, and the journal of all that happened. The
/// journal is always that of a run from the start of the problem to where the search stands.
#[derive(Drop)]
pub struct Book {
    problem: Problem,
    settings: Settings,
    search: Search,
    /// Whether the empty clause is kept.
    refuted: bool,
    journal: Vec<Event>,
    ending: Option<Cause>,
}

impl Model for Book {
    ghost use Rattle.leo_core.specs.Books.{Pages};

    ghost Value = { Pages };

    ghost use Rattle.leo_core.specs.Inside.{pages_of, IsWhole};

    ghost view = { pages_of };

    ghost invariant = { IsWhole };
}

impl Book {
    /// The book at the start of a problem, with settings in their ranges: the hypotheses are taken in, and no turn was made.
    /// The room for the whole journal is made here.
    ///
    /// # Errors
    ///
    /// Want of memory, also where a term is deeper than [`leo_terms::DEPTH`] levels.
    pub fn start(alloc: Global, problem: Problem, settings: Settings) -> Result<Book, AllocError>
        requires problem { IsProblem problem }
        requires settings { AreSettings settings }
        ensures new { IfOk result (IsNew problem settings) }
        ensures book { IfOk result IsBook }
    {
        let journal = Vec::with_capacity(alloc, settings.turns as usize + 1)?;
        let mut problem = problem;
        let hyps = terms(alloc, problem.hyps.as_slice())?;
        let search = leo_turn::start(
            alloc,
            &mut problem.bank,
            hyps.as_slice(),
            settings.depth,
            settings.weight,
        )?;
        let refuted = has_empty(search.kept.clauses(), 0);
        Ok(Book {
            problem,
            settings,
            search,
            refuted,
            journal,
            ending: None,
        })
    }

    /// Every book is a run of its problem: for callers that make no other call.
    pub fn is_run(&self)
        ensures { IsBook self.now }
    {
        let _ = &self.ending;
    }

    /// What is due, whatever has ended.
    fn due(&self) -> Owed
        ensures { IsDue self.now.settings.turns (standing_of self.now).state result }
    {
        if self.refuted {
            return Owed::End(Cause::Won);
        }
        if self.search.turns == self.settings.turns {
            return Owed::End(Cause::Limit);
        }
        match self.search.passive.peek(true) {
            Some(_) => Owed::Turn,
            None => Owed::End(Cause::Exhausted),
        }
    }

    /// What the run owes next; none exactly where it has ended.
    pub fn owed(&self) -> Option<Owed>
        ensures { IsOwed self.now.settings.turns (standing_of self.now) result }
    {
        match self.ending {
            Some(_) => None,
            None => Some(self.due()),
        }
    }

    /// A turn of the search, where one is owed. It is entered into the journal.
    ///
    /// # Errors
    ///
    /// Want of memory. But for terms that came to the bank, all is as before then.
    pub fn turn(&mut self, alloc: Global) -> Result<(), AllocError>
        requires { IsOwed self.old.settings.turns (standing_of self.old) (Some owed.Turn) }
        ensures turned { IfOk result (λ _. HasTurned self.old self.new) }
        ensures err { OnErr result (IsUnchanged self.old self.new) }
        ensures book { IsBook self.new }
    {
        let count = self.search.kept.clauses().len();
        let record = leo_turn::turn(alloc, &mut self.problem.bank, &mut self.search)?;
        self.refuted = has_empty(self.search.kept.clauses(), count);
        self.journal.push_reserved(Event::Turn {
            given: record.given,
            kept: record.kept,
        });
        Ok(())
    }

    /// Ends a run that goes on, for a cause that is due or for want of memory, and enters its end. Takes no memory.
    pub fn end(&mut self, cause: Cause)
        requires going { self.old.ending ≡ None }
        requires cause { MayEnd self.old.settings.turns (standing_of self.old).state cause }
        ensures { self.new ≡ ended self.old cause }
    {
        self.journal.push_reserved(Event::Ended(cause));
        self.ending = Some(cause);
    }

    /// The derivation of a run that was won: the lines of the search on which the first empty one rests, in order and numbered
    /// anew. They refute the problem: falsity is derivable in Q0 with choice from its hypotheses. Each base type in a line is
    /// `$o` or stands in the hypotheses, and each symbol stands there or is one that the line or an earlier one abbreviates.
    ///
    /// # Errors
    ///
    /// Want of memory.
    pub fn derivation(&self, alloc: Global) -> Result<Vec<StepRecord>, AllocError>
        requires { self.now.ending ≡ Some Won }
        ensures steps { IfOk result (λ found. AreStepsOf self.now.problem.bank found.items) }
        ensures pruned { IfOk result (λ found. IsPruned (lines_of self.now) (map (line_at self.now.problem.bank) found.items)) }
        ensures refutation { IfOk result (λ found. IsRefutation (hypotheses_of self.now.problem) (map (line_at self.now.problem.bank) found.items)) }
        ensures origin { IfOk result (λ found. AreFrom (hypotheses_of self.now.problem) (map (line_at self.now.problem.bank) found.items)) }
        ensures falsity { IfOk result (λ _. Derives (map (λ h. h.formula) (theory_of self.now.problem).hypotheses) false_term) }
    {
        soundness_laws();
        bank_laws();
        self.problem.bank.is_sound();
        let found = prune(alloc, &self.problem, self.search.lines.as_slice())?;
        Ok(found)
    }

    /// The problem. Its bank also has the terms of the search.
    pub fn problem(&self) -> &Problem
        ensures { result.now ≡ self.now.problem }
    {
        &self.problem
    }

    /// All that happened, in order.
    pub fn journal(&self) -> &[Event]
        ensures { result.now ≡ self.now.journal }
    {
        self.journal.as_slice()
    }

    /// Why the run ended, if it has.
    pub fn ending(&self) -> Option<Cause>
        ensures { result ≡ self.now.ending }
    {
        self.ending
    }

    /// How many turns there were.
    pub fn turns(&self) -> u32
        ensures { result ≡ (standing_of self.now).state.turns }
    {
        self.search.turns
    }

    /// The lines of the search, in the order in which they were found. Each is accepted after those before it.
    pub fn lines(&self) -> &[StepRecord]
        ensures { result.now ≡ self.now.search.lines }
    {
        self.search.lines.as_slice()
    }
}
