//! The call that answers a command.
ghost use Rattle.std.specs.Prelude.{◌≡◌, ◌⊎◌, ℕ, List, [], ◌∷◌, codes, true, false, IfOk};
ghost use Rattle.std.specs.List.{concat};
ghost use Rattle.std.specs.Option.{option_copied};
ghost use Rattle.clap.specs.Words.{fault_of};
ghost use Rattle.leo_command.specs.Commands.{IsRequest, leo3_app};
ghost use Rattle.leo_command.specs.declared.leo3.Search.{Search};
ghost use Rattle.leo_core.specs.Limits.{AreSettings};
ghost use Rattle.leo_edge.specs.Outside.{HasRisen};
ghost use Rattle.leo_problem.specs.Laws.{AreTold, IsUnread};
ghost use Rattle.leo_problem.specs.Loading.{ProblemOf};
ghost use Rattle.leo_problem.specs.Theories.{Answer};
ghost use Rattle.leo_top.specs.Answers as answers;
ghost use Rattle.leo_top.specs.Texts.{status_line};

use crate::answer::answer_file;
use crate::status::Status;
use crate::texts::add_status;
use crate::writing::put_text;
use leo_command::{Asked, CommandRefusal, Search, leo3_asked};
use leo_core::Settings;
use leo_edge::{Files, Sink, Words};
use leo_problem::laws::problems_are_unique;
use std::alloc::{AllocError, Global};

/// What a call ended with: its status, and the exit code of a program that ends so.
#[derive(Clone, Copy, Debug, PartialEq, Eq)]
pub struct Alone {
    pub status: Status,
    pub code: u8,
}

impl Alone {
    fn with(status: Status) -> Alone
        ensures status { result.status ≡ status }
        ensures code { result.code ≡ answers.code_of status }
    {
        Alone {
            status,
            code: status.code(),
        }
    }
}

// Puts the text, and ends with the status.
fn written<O: Sink>(out: &mut O, status: Status, text: &[u8]) -> Alone
    ensures code { result.code ≡ answers.code_of result.status }
    ensures written { answers.IsWritten text.now (O.taken out.old) (O.taken out.new) (HasRisen (O.faults out.old) (O.faults out.new)) status result.status }
{
    match put_text(out, text) {
        Ok(()) => Alone::with(status),
        Err(_) => Alone::with(Status::WriteFault),
    }
}

// The line that says that no memory was found.
fn memory_line(alloc: Global, subject: &[u8]) -> Result<Vec<u8>, AllocError>
    ensures { IfOk result (λ v. v.items ≡ concat (status_line (codes "MemoryOut") subject.now ∷ [])) }
{
    let mut text = Vec::new(alloc);
    add_status(alloc, &mut text, Status::MemoryOut, subject)?;
    Ok(text)
}

// Puts the line that says that no memory was found, for the program.
fn no_memory<O: Sink>(out: &mut O) -> Alone
    ensures code { result.code ≡ answers.code_of result.status }
    ensures written { answers.IsWritten (concat (status_line (codes "MemoryOut") (codes "leo3") ∷ [])) (O.taken out.old) (O.taken out.new) (HasRisen (O.faults out.old) (O.faults out.new)) Status.MemoryOut result.status }
{
    written(out, Status::MemoryOut, b"% SZS status MemoryOut for leo3\n")
}

// Puts the line that says that no memory was found, for the file where there is room for it.
fn without_memory<O: Sink>(alloc: Global, file: &str, out: &mut O) -> Alone
    ensures code { result.code ≡ answers.code_of result.status }
    ensures written { (lines : List (List ℕ)) × answers.SaysNoMemory file.now lines × answers.IsWritten (concat lines) (O.taken out.old) (O.taken out.new) (HasRisen (O.faults out.old) (O.faults out.new)) Status.MemoryOut result.status }
{
    match memory_line(alloc, file.as_bytes()) {
        Ok(text) => written(out, Status::MemoryOut, &text),
        Err(_) => no_memory(out),
    }
}

// Puts the line that says that the words are no command.
fn usage<O: Sink>(out: &mut O) -> Alone
    ensures code { result.code ≡ answers.code_of result.status }
    ensures written { answers.IsWritten (concat (status_line (codes "UsageError") (codes "leo3") ∷ [])) (O.taken out.old) (O.taken out.new) (HasRisen (O.faults out.old) (O.faults out.new)) Status.UsageError result.status }
{
    written(
        out,
        Status::UsageError,
        b"% SZS status UsageError for leo3\n",
    )
}

// The folder of included files, if one is named.
fn root_of(search: &Search) -> Option<&str>
    ensures { option_copied result ≡ answers.root_of search.now }
{
    match &search.root {
        Some(root) => Some(root.as_str()),
        None => None,
    }
}

// The settings of the run.
fn settings_of(search: &Search) -> Settings
    ensures { result ≡ answers.settings_of search.now }
{
    Settings {
        turns: search.settings.turns,
        depth: search.settings.depth,
        weight: search.settings.weight,
    }
}

// Answers for the problem of a search, and puts the answer.
fn searched<F: Files, O: Sink>(alloc: Global, search: &Search, files: &mut F, out: &mut O) -> Alone
    requires { AreSettings (answers.settings_of search.now) }
    ensures code { result.code ≡ answers.code_of result.status }
    ensures answer { (words : List (List ℕ)) → answers.IsCommand words search.now → answers.IsAnswered words (F.content files.old) (F.faults files.old) (F.faults files.new) (F.failed files.new) (O.taken out.old) (O.taken out.new) (HasRisen (O.faults out.old) (O.faults out.new)) result.status }
{
    let file = search.file.as_str();
    match answer_file(alloc, file, root_of(search), settings_of(search), files) {
        Ok(answer) => written(out, answer.status, &answer.text),
        Err(_) => without_memory(alloc, file, out),
    }
}

// Answers the words, and puts the answer.
fn answered<F: Files, O: Sink>(alloc: Global, words: &Words, files: &mut F, out: &mut O) -> Alone
    ensures code { result.code ≡ answers.code_of result.status }
    ensures answer { answers.IsAnswered words.now (F.content files.old) (F.faults files.old) (F.faults files.new) (F.failed files.new) (O.taken out.old) (O.taken out.new) (HasRisen (O.faults out.old) (O.faults out.new)) result.status }
{
    match leo3_asked(alloc, words) {
        Ok(Asked::Work(search)) => {
            if search.settings.children == 0 {
                searched(alloc, &search, files, out)
            } else {
                usage(out)
            }
        }
        Ok(Asked::Print(text)) => written(out, Status::Shown, text.as_bytes()),
        Err(CommandRefusal::Usage) => usage(out),
        Err(CommandRefusal::Memory) => no_memory(out),
    }
}

/// Answers the words of a command: loads the problem that they name, and puts the answer line by line.
///
/// The words are those of `leo3`, as [`leo_command::leo3_asked`] reads them; `--children` must be 0. `--help` and
/// `--version` put their text, with status `Shown`. A search runs on the problem by `--turns`, `--depth` and `--weight`.
/// Where it is won, the answer is a derivation of falsity from the problem's hypotheses, among which is the negation of
/// its conjecture: as `Theorem` where there is a conjecture, and as `Unsatisfiable` where there is none. Else it is
/// `GaveUp`, and says whether the turns were as many as the limit or no clause was left. Behind the status line of a
/// generated problem stands how many statements it has. A problem that is refused is a `SyntaxError`, a `TypeError` or an
/// `InputError`. Other words are a `UsageError`. `OSError` comes only where the files' count of faults rose, `WriteFault`
/// only where the sink's did, and `MemoryOut` for want of memory.
pub fn leo3_alone<F: Files, O: Sink>(
    alloc: Global,
    words: &Words,
    files: &mut F,
    out: &mut O,
) -> Alone
    ensures code { result.code ≡ answers.code_of result.status }
    // The bytes put are those of the answer to these words and these files, or a part of them.
    ensures answer { answers.IsAnswered words.now (F.content files.old) (F.faults files.old) (F.faults files.new) (F.failed files.new) (O.taken out.old) (O.taken out.new) (HasRisen (O.faults out.old) (O.faults out.new)) result.status }
    // Where the contents of all files that may be asked for are told, the answer to what they say is given, unless a
    // fault stands in the way.
    ensures exact { (search : Search) (said : Answer) → answers.IsCommand words.now search → AreTold (F.content files.old) (answers.file_of search) (answers.root_of search) → ProblemOf (F.content files.old) (answers.file_of search) (answers.root_of search) said → ¬ IsUnread said → answers.IsExact (answers.file_of search) (answers.settings_of search) said (O.taken out.old) (O.taken out.new) result.status ⊎ answers.IsFault result.status }
    // A theorem's conjecture follows: with its negation, falsity is derivable.
    ensures theorem { result.status ≡ Status.Theorem → answers.IsRefutable words.now (F.content files.old) true }
    // Without a conjecture, falsity is derivable from what is assumed.
    ensures unsatisfiable { result.status ≡ Status.Unsatisfiable → answers.IsRefutable words.now (F.content files.old) false }
    // Each other cause.
    ensures usage { result.status ≡ Status.UsageError → answers.IsNoCommand words.now }
    ensures no_command { ((search : Search) → ¬ answers.IsCommand words.now search) → (result.status ≡ Status.UsageError) ⊎ ((result.status ≡ Status.Shown) ⊎ answers.IsFault result.status) }
    ensures shown { result.status ≡ Status.Shown → IsRequest (fault_of leo3_app words.now) }
    ensures read_fault { result.status ≡ Status.OSError → answers.IsUnreadable words.now (F.content files.old) (F.faults files.old) (F.faults files.new) (F.failed files.new) }
    ensures write_fault { result.status ≡ Status.WriteFault → HasRisen (O.faults out.old) (O.faults out.new) }
{
    problems_are_unique();
    answered(alloc, words, files, out)
}
