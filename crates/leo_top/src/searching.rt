//! The answer to a problem, by a run of the search.

ghost use Rattle.std.specs.Prelude.{◌≡◌, IfOk, None, Some, map};
ghost use Rattle.std.specs.List.{concat};
ghost use Rattle.leo_terms.specs.Contents.{IsBank};
ghost use Rattle.leo_kernel.specs.Records.{AreStepsOf};
ghost use Rattle.leo_core.specs.declared.event.Cause.TheVariants as cause;
ghost use Rattle.leo_core.specs.Books.{IsBook, standing_of};
ghost use Rattle.leo_core.specs.Limits.{AreSettings};
ghost use Rattle.leo_problem.specs.Loading.{IsProblem, theory_of};
ghost use Rattle.leo_problem.specs.Theories.{says};
ghost use Rattle.leo_tstp.specs.Derivations.{printed};
ghost use Rattle.leo_tstp.specs.Records.{AreSymbolsOf};
ghost use Rattle.leo_top.specs.Answers as answers;
ghost use Rattle.leo_top.specs.Texts as texts;

use crate::running::run;
use crate::status::Status;
use crate::texts::{add_end, add_limit, add_opening, add_start, add_turns};
use leo_clause::StepRecord;
use leo_core::laws::naming_law;
use leo_core::{Book, Cause, Settings};
use leo_problem::{Problem, generated};
use leo_tstp::print;
use std::alloc::{AllocError, Global};

/// An answer: its status and its text.
#[derive(Drop)]
pub struct Answer {
    pub status: Status,
    pub text: Vec<u8>,
}

/// The status of a refutation, with a conjecture or without.
fn refuted_status(conjectured: bool) -> Status
    ensures { result ≡ answers.refuted_status conjectured }
{
    if conjectured {
        Status::Theorem
    } else {
        Status::Unsatisfiable
    }
}

/// The text of a refutation by these lines.
fn refuted_text(
    alloc: Global,
    status: Status,
    file: &str,
    about: Option<u32>,
    problem: &Problem,
    steps: &[StepRecord],
) -> Result<Vec<u8>, AllocError>
    requires problem { IsProblem problem.now }
    requires steps { AreStepsOf problem.now.bank steps.now }
    requires symbols { AreSymbolsOf problem.now.bank steps.now }
    ensures { IfOk result (λ v. v.items ≡ concat (texts.refuted_lines (answers.status_word status) file.now (texts.about_lines about problem.now.statements) (printed problem.now steps.now))) }
{
    let name = file.as_bytes();
    let mut text = Vec::new(alloc);
    add_opening(alloc, &mut text, status, name, about, problem.statements)?;
    add_start(alloc, &mut text, name)?;
    print(alloc, problem, steps, &mut text)?;
    add_end(alloc, &mut text, name)?;
    Ok(text)
}

/// The text of a search that ended at its limit of turns.
fn limit_text(
    alloc: Global,
    file: &str,
    about: Option<u32>,
    statements: u32,
    turns: u32,
) -> Result<Vec<u8>, AllocError>
    ensures { IfOk result (λ v. v.items ≡ concat (texts.limit_lines (answers.status_word Status.GaveUp) file.now (texts.about_lines about statements) turns)) }
{
    let name = file.as_bytes();
    let mut text = Vec::new(alloc);
    add_opening(alloc, &mut text, Status::GaveUp, name, about, statements)?;
    add_limit(&mut text, turns)?;
    Ok(text)
}

/// The text of a search that ended with no clause left.
fn exhausted_text(
    alloc: Global,
    file: &str,
    about: Option<u32>,
    statements: u32,
    turns: u32,
) -> Result<Vec<u8>, AllocError>
    ensures { IfOk result (λ v. v.items ≡ concat (texts.exhausted_lines (answers.status_word Status.GaveUp) file.now (texts.about_lines about statements) turns)) }
{
    let name = file.as_bytes();
    let mut text = Vec::new(alloc);
    add_opening(alloc, &mut text, Status::GaveUp, name, about, statements)?;
    add_turns(&mut text, turns)?;
    Ok(text)
}

/// The answer to a run that was won.
fn won(alloc: Global, file: &str, about: Option<u32>, book: &Book) -> Result<Answer, AllocError>
    requires about { answers.IsAbout file.now about }
    requires ended { book.now.ending ≡ Some cause.Won }
    requires book { IsBook book.now }
    requires bank { IsBank book.now.problem.bank }
    ensures { IfOk result (λ a. answers.IsMadeOf (answers.AnswersRun file.now book.now cause.Won a.status) a.text.items) }
{
    naming_law();
    let steps = book.derivation(alloc)?;
    let problem = book.problem();
    let status = refuted_status(problem.conjecture);
    let text = refuted_text(alloc, status, file, about, problem, &steps)?;
    Ok(Answer { status, text })
}

/// The answer to a run that ended at its limit of turns.
fn limited(
    alloc: Global,
    file: &str,
    about: Option<u32>,
    limit: u32,
    book: &Book,
) -> Result<Answer, AllocError>
    requires about { answers.IsAbout file.now about }
    requires limit { book.now.settings.turns ≡ limit }
    ensures { IfOk result (λ a. answers.IsMadeOf (answers.AnswersRun file.now book.now cause.Limit a.status) a.text.items) }
{
    let text = limit_text(alloc, file, about, book.problem().statements, limit)?;
    Ok(Answer {
        status: Status::GaveUp,
        text,
    })
}

/// The answer to a run that ended with no clause left.
fn exhausted(
    alloc: Global,
    file: &str,
    about: Option<u32>,
    book: &Book,
) -> Result<Answer, AllocError>
    requires about { answers.IsAbout file.now about }
    ensures { IfOk result (λ a. answers.IsMadeOf (answers.AnswersRun file.now book.now cause.Exhausted a.status) a.text.items) }
{
    let text = exhausted_text(alloc, file, about, book.problem().statements, book.turns())?;
    Ok(Answer {
        status: Status::GaveUp,
        text,
    })
}

/// The answer to a run that ended for this cause; none where there was no memory.
fn answer_run(
    alloc: Global,
    file: &str,
    limit: u32,
    book: &Book,
    cause: Cause,
) -> Result<Answer, AllocError>
    requires limit { book.now.settings.turns ≡ limit }
    requires ended { book.now.ending ≡ Some cause }
    requires book { IsBook book.now }
    requires bank { IsBank book.now.problem.bank }
    ensures { IfOk result (λ a. answers.IsMadeOf (answers.AnswersRun file.now book.now cause a.status) a.text.items) }
{
    let about = generated(file);
    match cause {
        Cause::Won => won(alloc, file, about, book),
        Cause::Limit => limited(alloc, file, about, limit, book),
        Cause::Exhausted => exhausted(alloc, file, about, book),
        Cause::Memory => Err(AllocError),
    }
}

/// The answer to a problem, by the run of a new book.
fn answer_book(alloc: Global, file: &str, limit: u32, book: &mut Book) -> Result<Answer, AllocError>
    requires limit { book.old.settings.turns ≡ limit }
    requires going { book.old.ending ≡ None }
    requires problem { IsProblem book.old.problem }
    requires bank { IsBank book.old.problem.bank }
    ensures { IfOk result (λ a. answers.IsMadeOf (answers.AnswersProblem file.now book.old.settings (says (theory_of book.old.problem)) a.status) a.text.items) }
{
    let cause = run(alloc, book);
    let answer = answer_run(alloc, file, limit, book, cause)?;
    Ok(answer)
}

/// The answer to the problem of this file, by a run of the search by these settings.
pub fn answer_problem(
    alloc: Global,
    file: &str,
    settings: Settings,
    problem: Problem,
) -> Result<Answer, AllocError>
    requires problem { IsProblem problem }
    requires settings { AreSettings settings }
    ensures { IfOk result (λ a. answers.IsMadeOf (answers.AnswersProblem file.now settings (says (theory_of problem)) a.status) a.text.items) }
{
    match Book::start(alloc, problem, settings) {
        Ok(book) => {
            let mut book = book;
            answer_book(alloc, file, settings.turns, &mut book)
        }
        Err(_) => Err(AllocError),
    }
}
