//! What the commands of the programs share.

ghost use Rattle.std.specs.Prelude.{◌≡◌, ◌∷◌, [], IfOk, IfErr, map, true, false, option_map, Option};
ghost use Rattle.clap.specs.Words.{app_of, fault_of, first_of, is_simple, is_simple_and_free, matches_of, rows_of, found_of, rule_of, with_rule, kind_of};
ghost use Rattle.std.specs.String.{string_bytes};
ghost use Rattle.leo_command.specs.Commands as commands;

use crate::asked::CommandRefusal;
use clap::error::ErrorKind;
use clap::{Arg, ArgAction, ArgMatches, Command, Error};
use leo_edge::Words;
use std::alloc::{AllocError, Global};

/// What `--root` is for.
pub const ROOT: &str = "The folder of included files, in place of that of FILE";

/// The version of the programs.
const VERSION: &str = "0.1.0";

/// What a parse of a command gives.
#[derive(Debug, Drop)]
pub enum Parse<'a> {
    Matches(ArgMatches<'a>),
    /// The text of `--help` or of `--version`.
    Text(String),
}

/// The words as texts.
pub fn word_list<'a>(alloc: Global, words: &'a Words) -> Result<Vec<&'a str>, AllocError>
    ensures { IfOk result (λ list. map (λ w. w.now) list.items ≡ words.now) }
{
    let mut list = Vec::new(alloc);
    for number in 0..words.len() {
        list.push(words.word(number))?;
    }
    Ok(list)
}

/// A program with `--help` and `--version`.
pub fn program<'a>(alloc: Global, name: &'a str, about: &'a str) -> Command<'a>
    ensures { app_of result ≡ commands.program name.entry.now }
{
    Command::new(alloc, name).version(VERSION).about(about)
}

/// An option with one value.
pub fn option<'a>(alloc: Global, id: &'a str, value: &'a str, help: &'a str) -> Arg<'a>
    ensures rule { rule_of result ≡ commands.option_rule id.entry.now }
    ensures own { result.global ≡ false }
{
    Arg::new(alloc, id)
        .long(id)
        .action(ArgAction::Set)
        .value_name(value)
        .help(help)
}

/// An option with one value, which is `default` where the option is not given.
pub fn option_or<'a>(
    alloc: Global,
    id: &'a str,
    default: &'a str,
    value: &'a str,
    help: &'a str,
) -> Arg<'a>
    ensures rule { rule_of result ≡ commands.default_rule id.entry.now default.entry.now }
    ensures own { result.global ≡ false }
{
    option(alloc, id, value, help).default_value(default)
}

/// A word that must be there.
pub fn word<'a>(alloc: Global, id: &'a str, value: &'a str, help: &'a str) -> Arg<'a>
    ensures rule { rule_of result ≡ commands.word_rule id.entry.now }
    ensures own { result.global ≡ false }
{
    Arg::new(alloc, id)
        .action(ArgAction::Set)
        .required(true)
        .value_name(value)
        .help(help)
}

/// The command with one argument more.
pub fn with<'a>(command: Command<'a>, arg: Arg<'a>) -> Result<Command<'a>, AllocError>
    requires own { arg.global ≡ false }
    ensures { IfOk result (λ c. app_of c ≡ with_rule (app_of command.entry) (rule_of arg.entry)) }
{
    command.arg(arg)
}

/// What an error of a parse comes to.
fn refused<'a>(alloc: Global, error: &Error) -> Result<Parse<'a>, CommandRefusal>
    ensures { commands.IsRefused (kind_of error.now) result }
{
    match error.kind() {
        ErrorKind::OutOfMemory => Err(CommandRefusal::Memory),
        ErrorKind::DisplayHelp | ErrorKind::DisplayVersion => {
            let text = error.to_string(alloc)?;
            Ok(Parse::Text(text))
        }
        _ => Err(CommandRefusal::Usage),
    }
}

/// What the words come to by the command, by its own rules.
pub fn parsed<'a, 'w>(
    alloc: Global,
    command: Command<'a>,
    words: &'a [&'w str],
) -> Result<Parse<'a>, CommandRefusal>
    requires simple { is_simple_and_free (app_of command) ≡ true }
    ensures { commands.IsParse (app_of command.entry) (map (λ w. w.now) words.now) result }
{
    match command.try_get_matches_from(words) {
        Ok(matches) => Ok(Parse::Matches(matches)),
        Err(error) => refused(alloc, &error),
    }
}

/// The text of an option or of a word, if it has one.
pub fn text_of(
    alloc: Global,
    matches: &ArgMatches<'_>,
    id: &str,
) -> Result<Option<String>, AllocError>
    ensures { IfOk result (λ t. option_map string_bytes t ≡ first_of id.now (rows_of (found_of matches.now))) }
{
    match matches.get_str(id) {
        Some(text) => Ok(Some(String::from_str(alloc, text)?)),
        None => Ok(None),
    }
}
