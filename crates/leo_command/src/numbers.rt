//! Numbers in words.

ghost use Rattle.std.specs.Prelude.{ℕ, List, ◌≡◌, ◌≤◌, ◌<◌, ◌^◌, MatchOption, decimal};
ghost use Rattle.clap.specs.Words.{found_of, rows_of};
ghost use Rattle.leo_command.specs.Commands.{IsNumberOf, IsNumberWord};

use clap::ArgMatches;

/// The number that a word names, from `least` to `most`, in decimal digits without a sign or a leading zero.
pub fn number(word: &str, least: u32, most: u32) -> Option<u32>
    ensures { MatchOption result ((n : ℕ) → ¬ IsNumberWord word.now least most n) (IsNumberWord word.now least most) }
{
    let Ok(number) = word.parse::<u32>() else {
        return None;
    };
    let mut digits = itoa::Buffer::new();
    if digits.format(number) == word && least <= number && number <= most {
        Some(number)
    } else {
        None
    }
}

/// The number that an option names, in its range.
pub fn number_of(matches: &ArgMatches<'_>, id: &str, least: u32, most: u32) -> Option<u32>
    ensures { MatchOption result ((n : ℕ) → ¬ IsNumberOf (rows_of (found_of matches.now)) id.now least most n) (IsNumberOf (rows_of (found_of matches.now)) id.now least most) }
{
    match matches.get_str(id) {
        Some(word) => number(word, least, most),
        None => None,
    }
}
