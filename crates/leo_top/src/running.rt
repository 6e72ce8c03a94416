//! Runs of the search, from their start to their end.

ghost use Rattle.std.specs.Prelude.{◌≡◌, ◌≤◌, suc, Some, None, MatchOption};
ghost use Rattle.leo_terms.specs.Contents.{IsBank};
ghost use Rattle.leo_core.specs.declared.event.Owed.TheVariants as owed;
ghost use Rattle.leo_core.specs.Books.{HasGrown, IsBook, standing_of};
ghost use Rattle.leo_core.specs.Machine.{IsOwed, MayEnd};

use leo_core::laws::run_laws;
use leo_core::{Book, Cause, Owed};
use std::alloc::Global;

/// Why a run that goes on ends now; none where a turn is due.
fn end_of(book: &Book) -> Option<Cause>
    requires { book.now.ending ≡ None }
    ensures { MatchOption result (IsOwed book.now.settings.turns (standing_of book.now) (Some owed.Turn)) (MayEnd book.now.settings.turns (standing_of book.now).state) }
{
    match book.owed() {
        Some(Owed::End(cause)) => Some(cause),
        Some(Owed::Turn) | None => None,
    }
}

/// Ends a run.
fn finish(book: &mut Book, cause: Cause)
    requires going { book.old.ending ≡ None }
    requires cause { MayEnd book.old.settings.turns (standing_of book.old).state cause }
    ensures ended { book.new.ending ≡ Some cause }
    ensures problem { book.new.problem ≡ book.old.problem }
    ensures settings { book.new.settings ≡ book.old.settings }
    ensures book { IsBook book.new }
{
    book.end(cause);
    book.is_run();
}

/// Makes a turn where one is due, and else ends the run and says why. It also ends where a turn finds no memory.
fn step(alloc: Global, book: &mut Book) -> Option<Cause>
    requires going { book.old.ending ≡ None }
    requires bank { IsBank book.old.problem.bank }
    ensures ended { book.new.ending ≡ result }
    ensures turned { MatchOption result ((standing_of book.new).state.turns ≡ suc (standing_of book.old).state.turns) (λ _. Unit {0}) }
    ensures limit { MatchOption result ((standing_of book.new).state.turns ≤ book.new.settings.turns) (λ _. Unit {0}) }
    ensures problem { HasGrown book.old.problem book.new.problem }
    ensures settings { book.new.settings ≡ book.old.settings }
    ensures book { IsBook book.new }
{
    run_laws();
    match end_of(book) {
        Some(cause) => {
            finish(book, cause);
            Some(cause)
        }
        None => match book.turn(alloc) {
            Ok(()) => None,
            Err(_) => {
                finish(book, Cause::Memory);
                Some(Cause::Memory)
            }
        },
    }
}

/// Makes turns until the run ends, and says why it ended.
pub fn run(alloc: Global, book: &mut Book) -> Cause
    requires going { book.old.ending ≡ None }
    requires bank { IsBank book.old.problem.bank }
    ensures ended { book.new.ending ≡ Some result }
    ensures problem { HasGrown book.old.problem book.new.problem }
    ensures settings { book.new.settings ≡ book.old.settings }
    ensures book { IsBook book.new }
{
    'turns: loop {
        if let Some(cause) = step(alloc, book) {
            return cause;
        }
    }
}
