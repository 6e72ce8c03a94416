//! Adds and takes passive clauses, as many as its word says, so that a script can time them.
#![tactic(auto)]

ghost use Rattle.std.specs.Prelude.{◌≡◌, ◌^◌, ◌<◌, ◌≤◌, length, IfOk};

use leo_passive::Passive;
use std::alloc::{AllocError, Global};
use std::env;
use std::process::ExitCode;
use std::rt::Env;

/// How many clauses there are without a word.
const FEW: u32 = 1000;

// That many clauses, whose weights go round.
fn filled(alloc: Global, count: u32) -> Result<Passive, AllocError>
    requires { count < 2 ^ 30 }
    ensures { IfOk result (λ p. length p ≡ count) }
{
    let mut passive = Passive::new(alloc)?;
    for number in 0..count {
        passive.add(number, (number % 513) as u64)?;
    }
    Ok(passive)
}

// Takes clauses, every fifth by age and the others by weight, and counts them.
fn emptied(mut passive: Passive, most: u32) -> u32
    ensures { result ≤ most }
{
    let mut taken = 0;
    for turn in 0..most {
        if passive.take(turn % 5 == 0).is_some() {
            taken += 1;
        }
    }
    taken
}

// The number in the first word.
fn count_of_words(rt: &(impl Env + AllocGlobal)) -> u32 {
    match env::args(rt) {
        Ok(mut args) => {
            let _program = args.next();
            match args.next() {
                Some(word) => word.as_str().parse::<u32>().unwrap_or(FEW),
                None => FEW,
            }
        }
        Err(_) => FEW,
    }
}

fn main(rt: HostRuntime) -> ExitCode {
    let count = count_of_words(&rt).min(1 << 29);
    match filled(rt.alloc(), count) {
        Ok(passive) => {
            let taken = emptied(passive, count);
            let _ = println!(&rt; "{taken} of {count} taken");
            ExitCode::SUCCESS
        }
        Err(_) => ExitCode::FAILURE,
    }
}
