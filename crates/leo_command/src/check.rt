//! The command of the checker.

ghost use Rattle.std.specs.Prelude.{◌≡◌, IfOk};
ghost use Rattle.clap.specs.Words.{app_of, found_of, rows_of};
ghost use Rattle.leo_command.specs.Commands.{IsAskedOf, IsCheckIn, IsTaken, check_app};

use crate::asked::{Asked, CommandRefusal};
use crate::parsing::{Parse, ROOT, option, parsed, program, text_of, with, word, word_list};
use clap::{ArgMatches, Command};
use leo_edge::Words;
use std::alloc::{AllocError, Global};

/// What the command is for.
const ABOUT: &str = "Checks a derivation against the TPTP problem that it refutes";

/// What `leo3_check` is asked to check.
#[derive(Debug, Drop)]
pub struct Check {
    /// The problem's file.
    pub file: String,
    /// The file with the derivation.
    pub proof: String,
    /// The folder of included files, if one is named.
    pub root: Option<String>,
}

/// The command of `leo3_check`.
fn command<'a>(alloc: Global) -> Result<Command<'a>, AllocError>
    ensures { IfOk result (λ c. app_of c ≡ check_app) }
{
    let check = program(alloc, "leo3_check", ABOUT);
    let root = option(alloc, "root", "DIR", ROOT);
    let check = with(check, root)?;
    let file = word(alloc, "file", "FILE", "The problem");
    let check = with(check, file)?;
    let proof = word(alloc, "proof", "PROOF", "The file with the derivation");
    with(check, proof)
}

/// The check that the matches ask for.
fn check_in(alloc: Global, matches: &ArgMatches<'_>) -> Result<Check, CommandRefusal>
    ensures { IsTaken (IsCheckIn (rows_of (found_of matches.now))) result }
{
    let root = text_of(alloc, matches, "root")?;
    let file = text_of(alloc, matches, "file")?;
    let proof = text_of(alloc, matches, "proof")?;
    match (file, proof) {
        (Some(file), Some(proof)) => Ok(Check { file, proof, root }),
        _ => Err(CommandRefusal::Usage),
    }
}

/// What the words of `leo3_check` ask for, the program's name first: `leo3_check [--root DIR] FILE PROOF`.
///
/// # Errors
///
/// `Usage` where they are no words of this command, and `Memory`.
pub fn check_asked(alloc: Global, words: &Words) -> Result<Asked<Check>, CommandRefusal>
    ensures { IsAskedOf check_app IsCheckIn words.now result }
{
    let list = word_list(alloc, words)?;
    match parsed(alloc, command(alloc)?, &list)? {
        Parse::Matches(matches) => Ok(Asked::Work(check_in(alloc, &matches)?)),
        Parse::Text(text) => Ok(Asked::Print(text)),
    }
}
