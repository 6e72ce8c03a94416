//! The command of the prover.

ghost use Rattle.std.specs.Prelude.{◌≡◌, ◌<◌, ◌^◌, ℕ, List, IfOk, MatchOption, option_map, codes, [], true};
ghost use Rattle.std.specs.String.{string_bytes};
ghost use Rattle.clap.specs.Words.{app_of, found_of, rows_of};
ghost use Rattle.leo_command.specs.Commands.{IsAskedOf, AreSettings, IsSearchIn, IsTaken, leo3_app};

use crate::asked::{Asked, CommandRefusal};
use crate::numbers::number_of;
use crate::parsing::{
    Parse, ROOT, option, option_or, parsed, program, text_of, with, word, word_list,
};
use clap::{ArgMatches, Command};
use leo_edge::Words;
use std::alloc::{AllocError, Global};

/// What the command is for.
const ABOUT: &str = "Looks for a refutation of a TPTP problem in higher-order logic (THF0)";

// What its options are for.
const TURNS: &str = "Turns at most, from 1 to 1000000";

const EVERY: &str = "Turns from one child to the next, from 10 to 100000";

const CHILDREN: &str = "Child provers at one time, from 0 to 8";

const CHILD: &str = "The program of the child provers";

const DEPTH: &str = "Branches of a unification at most, from 0 to 6";

const WEIGHT: &str = "Weight of a clause that is kept, from 1 to 512";

const PATIENCE: &str = "Beats to wait for a child, from 1 to 100000";

/// How a search is run.
#[derive(Clone, Copy, Debug, PartialEq, Eq)]
pub struct Settings {
    /// How many turns it takes at most, from 1 to 1,000,000.
    pub turns: u32,
    /// After how many turns the clauses are shown to a child prover again, from 10 to 100,000.
    pub every: u32,
    /// How many child provers run at one time, at most 8.
    pub children: u8,
    /// How many branches a unification takes at most, from 0 to 6.
    pub depth: u8,
    /// How heavy a clause may be that is kept, from 1 to 512.
    pub weight: u16,
    /// After how many beats a child prover is given up, from 1 to 100,000.
    pub patience: u32,
}

/// What `leo3` is asked to search.
#[derive(Debug, Drop)]
pub struct Search {
    /// The problem's file.
    pub file: String,
    /// The folder of included files, if one is named.
    pub root: Option<String>,
    /// The program of the child provers.
    pub child: String,
    pub settings: Settings,
}

/// The command of `leo3`.
fn command<'a>(alloc: Global) -> Result<Command<'a>, AllocError>
    ensures { IfOk result (λ c. app_of c ≡ leo3_app) }
{
    let leo3 = program(alloc, "leo3", ABOUT);
    let turns = option_or(alloc, "turns", "20000", "N", TURNS);
    let leo3 = with(leo3, turns)?;
    let every = option_or(alloc, "every", "200", "N", EVERY);
    let leo3 = with(leo3, every)?;
    let children = option_or(alloc, "children", "0", "N", CHILDREN);
    let leo3 = with(leo3, children)?;
    let child = option_or(alloc, "child", "leo3_fo", "PROGRAM", CHILD);
    let leo3 = with(leo3, child)?;
    let depth = option_or(alloc, "depth", "4", "N", DEPTH);
    let leo3 = with(leo3, depth)?;
    let weight = option_or(alloc, "weight", "256", "N", WEIGHT);
    let leo3 = with(leo3, weight)?;
    let patience = option_or(alloc, "patience", "10000", "N", PATIENCE);
    let leo3 = with(leo3, patience)?;
    let root = option(alloc, "root", "DIR", ROOT);
    let leo3 = with(leo3, root)?;
    let file = word(alloc, "file", "FILE", "The problem");
    with(leo3, file)
}

/// The settings that the options give, if their numbers are in their ranges.
fn settings_in(matches: &ArgMatches<'_>) -> Option<Settings>
    ensures { MatchOption result ((s : Settings) → ¬ AreSettings (rows_of (found_of matches.now)) s) (AreSettings (rows_of (found_of matches.now))) }
{
    Some(Settings {
        turns: number_of(matches, "turns", 1, 1_000_000)?,
        every: number_of(matches, "every", 10, 100_000)?,
        children: number_of(matches, "children", 0, 8)? as u8,
        depth: number_of(matches, "depth", 0, 6)? as u8,
        weight: number_of(matches, "weight", 1, 512)? as u16,
        patience: number_of(matches, "patience", 1, 100_000)?,
    })
}

/// The search that the matches ask for.
fn search_in(alloc: Global, matches: &ArgMatches<'_>) -> Result<Search, CommandRefusal>
    ensures { IsTaken (IsSearchIn (rows_of (found_of matches.now))) result }
{
    let Some(settings) = settings_in(matches) else {
        return Err(CommandRefusal::Usage);
    };
    let root = text_of(alloc, matches, "root")?;
    let file = text_of(alloc, matches, "file")?;
    let child = text_of(alloc, matches, "child")?;
    match (file, child) {
        (Some(file), Some(child)) => Ok(Search {
            file,
            root,
            child,
            settings,
        }),
        _ => Err(CommandRefusal::Usage),
    }
}

/// What the words of `leo3` ask for, the program's name first:
/// `leo3 [--turns N] [--every N] [--children N] [--child PROGRAM] [--depth N] [--weight N] [--patience N] [--root DIR] FILE`.
///
/// # Errors
///
/// `Usage` where they are no words of this command, or a number is out of its range, and `Memory`.
pub fn leo3_asked(alloc: Global, words: &Words) -> Result<Asked<Search>, CommandRefusal>
    ensures { IsAskedOf leo3_app IsSearchIn words.now result }
{
    let list = word_list(alloc, words)?;
    match parsed(alloc, command(alloc)?, &list)? {
        Parse::Matches(matches) => Ok(Asked::Work(search_in(alloc, &matches)?)),
        Parse::Text(text) => Ok(Asked::Print(text)),
    }
}
