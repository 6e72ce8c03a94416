//! Answers to the files of problems, made whole.
ghost use Rattle.std.specs.Prelude.{◌≡◌, IfOk};
ghost use Rattle.std.specs.List.{concat};
ghost use Rattle.std.specs.Option.{option_copied};
ghost use Rattle.leo_core.specs.Limits.{AreSettings};
ghost use Rattle.leo_top.specs.Answers as answers;
ghost use Rattle.leo_top.specs.Refusals as refusals;
ghost use Rattle.leo_top.specs.Texts as texts;

use crate::refusal::refused_status;
use crate::searching::{Answer, answer_problem};
use crate::texts::{add_cause, add_status};
use leo_core::Settings;
use leo_edge::Files;
use leo_problem::{LoadRefusal, What, load};
use std::alloc::{AllocError, Global};

/// The answer to a problem that is refused, with the file and the byte at which that is wrong.
fn refused(
    alloc: Global,
    file: &[u8],
    about: &[u8],
    byte: u32,
    what: What,
) -> Result<Answer, AllocError>
    ensures status { IfOk result (λ a. a.status ≡ refusals.refused_status what) }
    ensures text { IfOk result (λ a. a.text.items ≡ concat (texts.refused_lines (answers.status_word (refusals.refused_status what)) file.now about.now byte what)) }
{
    let status = refused_status(what);
    let mut text = Vec::new(alloc);
    add_status(alloc, &mut text, status, file)?;
    add_cause(alloc, &mut text, about, byte, what)?;
    Ok(Answer { status, text })
}

/// The answer to the problem of this file, with this folder of included files, by a search with these settings.
pub fn answer_file<F: Files>(
    alloc: Global,
    file: &str,
    root: Option<&str>,
    settings: Settings,
    files: &mut F,
) -> Result<Answer, AllocError>
    requires { AreSettings settings }
    ensures { IfOk result (λ a. answers.IsMadeOf (answers.AnswersFile file.now (option_copied root.entry) settings (F.content files.old) (F.faults files.old) (F.faults files.new) (F.failed files.new) a.status) a.text.items) }
{
    match load(alloc, files, file, root) {
        Ok(problem) => answer_problem(alloc, file, settings, problem),
        Err(
            LoadRefusal::Refused {
                file: about,
                byte,
                what,
            },
        ) => refused(alloc, file.as_bytes(), about.as_slice(), byte, what),
        Err(LoadRefusal::Memory) => Err(AllocError),
    }
}
