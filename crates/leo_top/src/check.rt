//! The call that checks a derivation.

ghost use Rattle.std.specs.Prelude.{◌≡◌, ◌⊎◌, ℕ, List, ◌∷◌, []};
ghost use Rattle.std.specs.List.{concat};
ghost use Rattle.std.specs.Option.{option_copied};
ghost use Rattle.clap.specs.Words.{fault_of};
ghost use Rattle.leo_command.specs.Commands.{IsCheck, IsRequest, check_app};
ghost use Rattle.leo_command.specs.declared.check.Check as asked;
ghost use Rattle.leo_edge.specs.Outside.{HasRisen};
ghost use Rattle.leo_top.specs.Checking as checking;
ghost use Rattle.leo_top.specs.CheckTexts as lines;

use crate::check_answer::answer_check;
use crate::check_status::CheckStatus;
use crate::writing::put_text;
use leo_command::{Asked, Check, CommandRefusal, check_asked};
use leo_edge::{Files, Sink, Words};
use std::alloc::Global;

/// What a check ended with: its status, and the exit code of a program that ends so.
#[derive(Clone, Copy, Debug, PartialEq, Eq)]
pub struct CheckEnding {
    pub status: CheckStatus,
    pub code: u8,
}

impl CheckEnding {
    fn with(status: CheckStatus) -> CheckEnding
        ensures status { result.status ≡ status }
        ensures code { result.code ≡ checking.check_code status }
    {
        CheckEnding {
            status,
            code: status.code(),
        }
    }
}

/// Puts the text, and ends with the status.
fn put<O: Sink>(out: &mut O, status: CheckStatus, text: &[u8]) -> CheckEnding
    ensures code { result.code ≡ checking.check_code result.status }
    ensures put { checking.IsPut text.now (O.taken out.old) (O.taken out.new) (HasRisen (O.faults out.old) (O.faults out.new)) status result.status }
{
    match put_text(out, text) {
        Ok(()) => CheckEnding::with(status),
        Err(_) => CheckEnding::with(CheckStatus::WriteFault),
    }
}

/// Puts the line that says that no memory was found.
fn no_memory<O: Sink>(out: &mut O) -> CheckEnding
    ensures code { result.code ≡ checking.check_code result.status }
    ensures put { checking.IsPut (concat (lines.memory_line ∷ [])) (O.taken out.old) (O.taken out.new) (HasRisen (O.faults out.old) (O.faults out.new)) CheckStatus.MemoryOut result.status }
{
    put(out, CheckStatus::MemoryOut, b"no memory\n")
}

/// Puts the line that says that the words are no command.
fn usage<O: Sink>(out: &mut O) -> CheckEnding
    ensures code { result.code ≡ checking.check_code result.status }
    ensures put { checking.IsPut (concat (lines.usage_line ∷ [])) (O.taken out.old) (O.taken out.new) (HasRisen (O.faults out.old) (O.faults out.new)) CheckStatus.UsageError result.status }
{
    put(out, CheckStatus::UsageError, b"usage\n")
}

/// The folder of included files, if one is named.
fn root_of(check: &Check) -> Option<&str>
    ensures { option_copied result ≡ checking.root_of check.now }
{
    match &check.root {
        Some(root) => Some(root.as_str()),
        None => None,
    }
}

/// Checks, and puts the answer.
fn checked<F: Files, O: Sink>(
    alloc: Global,
    check: &Check,
    files: &mut F,
    out: &mut O,
) -> CheckEnding
    ensures code { result.code ≡ checking.check_code result.status }
    ensures answer { (words : List (List ℕ)) → IsCheck words check.now → checking.IsChecked words (F.content files.old) (F.faults files.old) (F.faults files.new) (F.failed files.new) (O.taken out.old) (O.taken out.new) (HasRisen (O.faults out.old) (O.faults out.new)) result.status }
    ensures accepted { result.status ≡ CheckStatus.Accepted → checking.IsProvedFalse (checking.file_of check.now) (checking.root_of check.now) (F.content files.old) }
{
    let file = check.file.as_str();
    let proof = check.proof.as_str();
    match answer_check(alloc, file, proof, root_of(check), files) {
        Ok(answer) => put(out, answer.status, &answer.text),
        Err(_) => no_memory(out),
    }
}

/// Answers the words of `leo3_check`: loads the problem that they name, reads the derivation, checks it and puts the
/// answer, in lines of its own:
///
/// - `accepted`: each line of the derivation follows, and one is empty. Then falsity is derivable in Q0 with choice from
///   the problem's hypotheses.
/// - `refused at line lN: REASON`: line N is the first that does not follow; REASON is the condition of its rule that does
///   not hold (`parent`, `literal`, `place`, `types`, `symbol` or `shape`), or `noempty` with the number of lines.
/// - `refused at byte B`: the text is no derivation of the problem.
/// - The status line and the line of `leo3` on a problem that is refused, or on a text of over 64 MiB.
/// - `usage`, `read fault`, `no memory`.
///
/// `OSError` comes only where the files' count of faults rose, `WriteFault` only where the sink's did, and `MemoryOut` for
/// want of memory.
pub fn check_proof<F: Files, O: Sink>(
    alloc: Global,
    words: &Words,
    files: &mut F,
    out: &mut O,
) -> CheckEnding
    ensures code { result.code ≡ checking.check_code result.status }
    // The bytes put are those of the answer to these words and these files, or a part of them.
    ensures answer { checking.IsChecked words.now (F.content files.old) (F.faults files.old) (F.faults files.new) (F.failed files.new) (O.taken out.old) (O.taken out.new) (HasRisen (O.faults out.old) (O.faults out.new)) result.status }
    // Of an accepted derivation falsity is derivable from the problem's hypotheses.
    ensures accepted { result.status ≡ CheckStatus.Accepted → checking.IsRefuted words.now (F.content files.old) }
{
    match check_asked(alloc, words) {
        Ok(Asked::Work(check)) => checked(alloc, &check, files, out),
        Ok(Asked::Print(text)) => put(out, CheckStatus::Shown, text.as_bytes()),
        Err(CommandRefusal::Usage) => usage(out),
        Err(CommandRefusal::Memory) => no_memory(out),
    }
}
