//! Loading a problem from its files, or from a generated text.

ghost use Rattle.std.specs.Prelude.{◌≡◌, ◌≢◌, ◌≤◌, ℕ, List, IfOk, IfErr};
ghost use Rattle.std.specs.Option.{option_copied};
ghost use Rattle.leo_problem.specs.declared.refusal.LoadRefusal.TheVariants.{Memory};
ghost use Rattle.leo_problem.specs.Loading.{IsProblem, ProblemOf, IsFault, theory_of};
ghost use Rattle.leo_problem.specs.Theories.{says, refused};
ghost use Rattle.leo_problem.specs.Gathered.{IsGathered};
ghost use Rattle.leo_problem.specs.Generating.{IsFileName, IsGenerator, generated_text};
ghost use Rattle.leo_problem.specs.Pieces.{IsNoFault, AreOfText};
ghost use Rattle.leo_problem.specs.Texts.{AreStatements, RefusesText};

use crate::folders::folder_by;
use crate::gathered::{Counts, Kept};
use crate::gathering::{Place, gather, keep_all};
use crate::generating::{generate, generated};
use crate::loaded::Problem;
use crate::reading::statements;
use crate::refusal::LoadRefusal;
use crate::theory::problem;
use leo_edge::Files;
use leo_syntax::Statement;
use std::alloc::Global;

/// The statements of the generated text of that number, for which the name stands.
fn generated_statements(
    alloc: Global,
    name: &[u8],
    count: u32,
) -> Result<Vec<Statement>, LoadRefusal>
    requires { IsGenerator name.now count }
    ensures statements { IfOk result (λ list. AreStatements (generated_text count) list.items) }
    ensures refusal { IfErr result (λ r. r ≢ Memory → RefusesText name.now (generated_text count) r) }
    ensures no_fault { IfErr result IsNoFault }
{
    let text = generate(alloc, count)?;
    let list = statements(alloc, name, &text)?;
    Ok(list)
}

/// The statements that are kept of the generated text of that number, for which the name stands.
fn from_text(alloc: Global, name: &[u8], count: u32) -> Result<Vec<Kept>, LoadRefusal>
    requires { IsGenerator name.now count }
    ensures kept { IfOk result (λ ks. AreOfText name.now count ks.items) }
    ensures refusal { IfErr result (λ r. r ≢ Memory → RefusesText name.now (generated_text count) r) }
    ensures no_fault { IfErr result IsNoFault }
{
    let list = generated_statements(alloc, name, count)?;
    let kept = keep_all(alloc, name, list)?;
    Ok(kept)
}

/// The statements that are kept of the files of a problem.
fn from_files<F: Files>(
    alloc: Global,
    files: &mut F,
    name: &str,
    root: Option<&str>,
) -> Result<Vec<Kept>, LoadRefusal>
    requires { IsFileName name.now }
    ensures gathered { IfOk result (λ ks. IsGathered (F.content files.old) name.now (option_copied root.entry) ks.items) }
    ensures refusal { IfErr result (λ r. r ≢ Memory → ProblemOf (F.content files.old) name.now (option_copied root.entry) (refused r)) }
    ensures fault { IfErr result (IsFault (F.faults files.old) (F.faults files.new) (F.failed files.new)) }
    ensures stays { (n : List ℕ) → F.content files.new n ≡ F.content files.old n }
    ensures never_falls { F.faults files.old ≤ F.faults files.new }
{
    let folder = folder_by(alloc, name.as_bytes(), root)?;
    let place = Place {
        folder: folder.as_slice(),
        level: 0,
        file: name.as_bytes(),
    };
    let mut counts = Counts::none();
    let kept = gather(alloc, files, &place, &mut counts)?;
    Ok(kept)
}

/// The statements that are kept of the files of a problem, or of the generated text for which the name stands.
fn gathered<F: Files>(
    alloc: Global,
    files: &mut F,
    name: &str,
    root: Option<&str>,
) -> Result<Vec<Kept>, LoadRefusal>
    ensures gathered { IfOk result (λ ks. IsGathered (F.content files.old) name.now (option_copied root.entry) ks.items) }
    ensures refusal { IfErr result (λ r. r ≢ Memory → ProblemOf (F.content files.old) name.now (option_copied root.entry) (refused r)) }
    ensures fault { IfErr result (IsFault (F.faults files.old) (F.faults files.new) (F.failed files.new)) }
    ensures stays { (n : List ℕ) → F.content files.new n ≡ F.content files.old n }
    ensures never_falls { F.faults files.old ≤ F.faults files.new }
    ensures asks_nothing { (n : ℕ) → IsGenerator name.now n → files.new ≡ files.old }
{
    match generated(name) {
        Some(count) => {
            let kept = from_text(alloc, name.as_bytes(), count)?;
            Ok(kept)
        }
        None => {
            let kept = from_files(alloc, files, name, root)?;
            Ok(kept)
        }
    }
}

/// The problem of a file of that name, with the files that it includes: a file whose name begins with
/// a slash by that name, any other in the root, or without a root in the folder of the problem's file.
/// A name for which [`generated`] gives a number asks for no file: the problem is that of the generated text.
///
/// A problem has at most 64 files, 8 levels of includes below its file, 16 MiB in a file and 64 MiB in
/// all. Files are read in order: the problem's, then its includes, each with its own at its place. The
/// statements of an include stand at its place; where it has a list of names, only those of these names.
///
/// # Errors
///
/// The first of these, and [`LoadRefusal::Memory`]:
///
/// - for each file in reading order: there is no room for it among the files or levels, it cannot be
///   read, it is too large, or the first of its bytes with which no token begins, or else the first of
///   its tokens with which no file goes on;
/// - then over all statements: the first role that is not listed, the second conjecture, the first
///   typing in which something is wrong, and the first formula in which something is wrong.
pub fn load<F: Files>(
    alloc: Global,
    files: &mut F,
    name: &str,
    root: Option<&str>,
) -> Result<Problem, LoadRefusal>
    // The atoms stand in the bank, and each hypothesis is a closed formula there.
    ensures problem { IfOk result IsProblem }
    // The problem says what the files say, or the generated text.
    ensures says { IfOk result (λ p. ProblemOf (F.content files.old) name.now (option_copied root.entry) (says (theory_of p))) }
    // A refusal is the first.
    ensures refusal { IfErr result (λ r. r ≢ Memory → ProblemOf (F.content files.old) name.now (option_copied root.entry) (refused r)) }
    // A read fault comes only where the count of faults rose, for the file whose fetch failed last.
    ensures fault { IfErr result (IsFault (F.faults files.old) (F.faults files.new) (F.failed files.new)) }
    ensures stays { (n : List ℕ) → F.content files.new n ≡ F.content files.old n }
    ensures never_falls { F.faults files.old ≤ F.faults files.new }
    // Where the name stands for a generated text, no file is asked for.
    ensures asks_nothing { (n : ℕ) → IsGenerator name.now n → files.new ≡ files.old }
{
    let kept = gathered(alloc, files, name, root)?;
    let loaded = problem(alloc, &kept)?;
    Ok(loaded)
}
