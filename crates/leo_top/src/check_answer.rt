//! Answers to checks, made whole.

ghost use Rattle.std.specs.Prelude.{◌≡◌, ◌∷◌, [], ◌≤◌, ◌*◌, ◌^◌, ℕ, List, length, map, codes, IfOk};
ghost use Rattle.std.specs.List.{concat};
ghost use Rattle.std.specs.Option.{option_copied};
ghost use Rattle.leo_q0.specs.Connectives.{false_term};
ghost use Rattle.leo_q0.specs.Derivations.{Derives};
ghost use Rattle.leo_kernel.specs.Records.{AreStepsOf};
ghost use Rattle.leo_problem.specs.declared.loaded.Problem.{Problem as ProblemValue};
ghost use Rattle.leo_problem.specs.Loading.{IsProblem, theory_of};
ghost use Rattle.leo_tstp.specs.TextWords.{IsDerivationText};
ghost use Rattle.leo_top.specs.Answers.{IsMadeOf, status_word};
ghost use Rattle.leo_top.specs.Checking as checking;
ghost use Rattle.leo_top.specs.CheckTexts as lines;
ghost use Rattle.leo_top.specs.Refusals as refusals;
ghost use Rattle.leo_top.specs.Texts as texts;

use crate::check_status::CheckStatus;
use crate::lines::add_line;
use crate::refusal::{is_of_file, refused_status};
use crate::status::Status;
use crate::texts::{add_byte_note, add_cause, add_status};
use itoa::Buffer;
use leo_clause::StepRecord;
use leo_command::Check;
use leo_derive::{CheckRefusal, check};
use leo_edge::{Fetched, Files};
use leo_kernel::Reason;
use leo_problem::{LoadRefusal, Problem, What, load};
use leo_tstp::{TstpRefusal, read};
use std::alloc::{AllocError, Global};

/// The most bytes of a derivation's text.
const LIMIT: usize = 64 << 20;

/// An answer: its status and its text.
#[derive(Drop)]
pub(crate) struct CheckAnswer {
    pub status: CheckStatus,
    pub text: Vec<u8>,
}

/// The word for a reason.
fn reason_word(reason: Reason) -> &'static [u8]
    ensures { result.now ≡ lines.reason_word reason }
{
    match reason {
        Reason::Parent => b"parent",
        Reason::Literal => b"literal",
        Reason::Place => b"place",
        Reason::Types => b"types",
        Reason::Symbol => b"symbol",
        Reason::Shape => b"shape",
        Reason::NoEmpty => b"noempty",
    }
}

/// The line on a derivation that is accepted.
#[tactic(auto, unfolding(crate::specs::CheckTexts::accepted_line))]
fn accepted_text(alloc: Global) -> Result<Vec<u8>, AllocError>
    ensures { IfOk result (λ v. v.items ≡ concat (lines.accepted_line ∷ [])) }
{
    let mut text = Vec::new(alloc);
    add_line(&mut text, &[b"accepted"])?;
    Ok(text)
}

/// The line on a line that is refused.
#[tactic(auto, unfolding(crate::specs::CheckTexts::refused_line))]
fn refused_text(alloc: Global, line: u64, reason: Reason) -> Result<Vec<u8>, AllocError>
    ensures { IfOk result (λ v. v.items ≡ concat (lines.refused_line line reason ∷ [])) }
{
    let mut buffer = Buffer::new();
    let number = buffer.format(line).as_bytes();
    let mut text = Vec::new(alloc);
    add_line(
        &mut text,
        &[b"refused at line l", number, b": ", reason_word(reason)],
    )?;
    Ok(text)
}

/// The line on a text that does not go on as that of a derivation.
#[tactic(auto, unfolding(crate::specs::CheckTexts::stopped_line))]
fn stopped_text(alloc: Global, byte: u32) -> Result<Vec<u8>, AllocError>
    ensures { IfOk result (λ v. v.items ≡ concat (lines.stopped_line byte ∷ [])) }
{
    let mut buffer = Buffer::new();
    let number = buffer.format(byte).as_bytes();
    let mut text = Vec::new(alloc);
    add_line(&mut text, &[b"refused at byte ", number])?;
    Ok(text)
}

/// The line on a file that cannot be read.
#[tactic(auto, unfolding(crate::specs::CheckTexts::fault_line))]
fn fault_text(alloc: Global) -> Result<Vec<u8>, AllocError>
    ensures { IfOk result (λ v. v.items ≡ concat (lines.fault_line ∷ [])) }
{
    let mut text = Vec::new(alloc);
    add_line(&mut text, &[b"read fault"])?;
    Ok(text)
}

/// The lines on the text of a derivation that is too large.
fn large_text(alloc: Global, file: &[u8], proof: &[u8]) -> Result<Vec<u8>, AllocError>
    ensures { IfOk result (λ v. v.items ≡ concat (texts.status_line (codes "InputError") file.now ∷ texts.byte_line proof.now 0 (codes "large") ∷ [])) }
{
    let mut text = Vec::new(alloc);
    add_status(alloc, &mut text, Status::InputError, file)?;
    add_byte_note(alloc, &mut text, proof, 0, b"large")?;
    Ok(text)
}

/// The lines on a problem that is refused.
fn refusal_text(
    alloc: Global,
    file: &[u8],
    about: &[u8],
    byte: u32,
    what: What,
) -> Result<Vec<u8>, AllocError>
    ensures { IfOk result (λ v. v.items ≡ concat (texts.refused_lines (status_word (refusals.refused_status what)) file.now about.now byte what)) }
{
    let mut text = Vec::new(alloc);
    add_status(alloc, &mut text, refused_status(what), file)?;
    add_cause(alloc, &mut text, about, byte, what)?;
    Ok(text)
}

/// The answer to the lines of a derivation.
fn judged(
    alloc: Global,
    problem: &mut Problem,
    steps: &[StepRecord],
) -> Result<CheckAnswer, AllocError>
    requires problem { IsProblem problem.old }
    requires steps { AreStepsOf problem.old.bank steps.now }
    ensures answer { IfOk result (λ a. (p : ProblemValue) (bytes : List ℕ) → checking.IsSameProblem p problem.old → IsDerivationText problem.old bytes steps.now → IsMadeOf (checking.AnswersText p bytes a.status) a.text.items) }
    ensures falsity { IfOk result (λ a. a.status ≡ CheckStatus.Accepted → Derives (map (λ h. h.formula) (theory_of problem.old).hypotheses) false_term) }
{
    match check(alloc, problem, steps) {
        Ok(()) => {
            let text = accepted_text(alloc)?;
            Ok(CheckAnswer {
                status: CheckStatus::Accepted,
                text,
            })
        }
        Err(CheckRefusal::No { line, reason }) => {
            let text = refused_text(alloc, line, reason)?;
            Ok(CheckAnswer {
                status: CheckStatus::Refused,
                text,
            })
        }
        Err(CheckRefusal::Memory) => Err(AllocError),
    }
}

/// The answer to the text of a derivation, for a problem.
fn answer_text(
    alloc: Global,
    problem: &mut Problem,
    bytes: &[u8],
) -> Result<CheckAnswer, AllocError>
    requires problem { IsProblem problem.old }
    requires length { length bytes.now ≤ 64 * 2 ^ 20 }
    ensures answer { IfOk result (λ a. IsMadeOf (checking.AnswersText problem.old bytes.now a.status) a.text.items) }
    ensures falsity { IfOk result (λ a. a.status ≡ CheckStatus.Accepted → Derives (map (λ h. h.formula) (theory_of problem.old).hypotheses) false_term) }
{
    match read(alloc, problem, bytes) {
        Ok(steps) => judged(alloc, problem, steps.as_slice()),
        Err(TstpRefusal::Bad { byte }) => {
            let text = stopped_text(alloc, byte)?;
            Ok(CheckAnswer {
                status: CheckStatus::BadProof,
                text,
            })
        }
        Err(TstpRefusal::Memory) => Err(AllocError),
    }
}

/// The answer where a file cannot be read.
fn unreadable(alloc: Global) -> Result<CheckAnswer, AllocError>
    ensures status { IfOk result (λ a. a.status ≡ CheckStatus.OSError) }
    ensures text { IfOk result (λ a. a.text.items ≡ concat (lines.fault_line ∷ [])) }
{
    let text = fault_text(alloc)?;
    Ok(CheckAnswer {
        status: CheckStatus::OSError,
        text,
    })
}

/// The answer for a problem, whose derivation's text is in this file.
fn answer_proof<F: Files>(
    alloc: Global,
    problem: &mut Problem,
    file: &str,
    proof: &str,
    files: &mut F,
) -> Result<CheckAnswer, AllocError>
    requires problem { IsProblem problem.old }
    ensures answer { IfOk result (λ a. IsMadeOf (checking.AnswersProof problem.old file.now proof.now (F.content files.old proof.now) (F.faults files.old) (F.faults files.new) (F.failed files.new) a.status) a.text.items) }
    ensures falsity { IfOk result (λ a. a.status ≡ CheckStatus.Accepted → Derives (map (λ h. h.formula) (theory_of problem.old).hypotheses) false_term) }
{
    let mut bytes = Vec::new(alloc);
    match files.fetch(proof, LIMIT, &mut bytes) {
        Fetched::Got => answer_text(alloc, problem, &bytes),
        Fetched::Long => {
            let text = large_text(alloc, file.as_bytes(), proof.as_bytes())?;
            Ok(CheckAnswer {
                status: CheckStatus::Input,
                text,
            })
        }
        Fetched::Failed => unreadable(alloc),
        Fetched::Memory => Err(AllocError),
    }
}

/// The answer to a problem that is refused.
fn answer_refusal(
    alloc: Global,
    file: &[u8],
    about: &[u8],
    byte: u32,
    what: What,
) -> Result<CheckAnswer, AllocError>
    ensures { IfOk result (λ a. IsMadeOf (checking.AnswersRefusal file.now about.now byte what a.status) a.text.items) }
{
    if is_of_file(what) {
        return unreadable(alloc);
    }
    let text = refusal_text(alloc, file, about, byte, what)?;
    Ok(CheckAnswer {
        status: CheckStatus::Input,
        text,
    })
}

/// The answer to a check.
pub(crate) fn answer_check<F: Files>(
    alloc: Global,
    file: &str,
    proof: &str,
    root: Option<&str>,
    files: &mut F,
) -> Result<CheckAnswer, AllocError>
    ensures answer { IfOk result (λ a. IsMadeOf (checking.AnswersCheck file.now proof.now (option_copied root.entry) (F.content files.old) (F.faults files.old) (F.faults files.new) (F.failed files.new) a.status) a.text.items) }
    ensures falsity { IfOk result (λ a. a.status ≡ CheckStatus.Accepted → checking.IsProvedFalse file.now (option_copied root.entry) (F.content files.old)) }
{
    match load(alloc, files, file, root) {
        Ok(problem) => {
            let mut problem = problem;
            answer_proof(alloc, &mut problem, file, proof, files)
        }
        Err(
            LoadRefusal::Refused {
                file: about,
                byte,
                what,
            },
        ) => answer_refusal(alloc, file.as_bytes(), about.as_slice(), byte, what),
        Err(LoadRefusal::Memory) => Err(AllocError),
    }
}
