//! Loads a problem with as many statements as its word says, so that a script can time it.
#![tactic(auto)]

use leo_edge::MemFiles;
use leo_problem::{LoadRefusal, load};
use std::alloc::{AllocError, Global};
use std::env;
use std::process::ExitCode;
use std::rt::Env;

/// How many statements there are without a word.
const FEW: u32 = 1000;

/// Half of the statements declare predicates, and the others each say something of one.
fn text_of(alloc: Global, count: u32) -> Result<String, AllocError> {
    let mut text = String::new(alloc);
    for number in 0..count / 2 {
        let typing = format!(in alloc; "thf(t{number},type,a{number}: $i > $o).\n")?;
        text.push_str(typing.as_str())?;
        let axiom = format!(in alloc; "thf(h{number},axiom,! [X: $i] : (a{number} @ X)).\n")?;
        text.push_str(axiom.as_str())?;
    }
    Ok(text)
}

/// How many statements were kept.
fn loaded(alloc: Global, count: u32) -> Result<u32, LoadRefusal> {
    let text = text_of(alloc, count)?;
    let mut files = MemFiles::new(alloc);
    files.add("many.p", text.as_bytes())?;
    let problem = load(alloc, &mut files, "many.p", None)?;
    Ok(problem.statements)
}

// The number in the first word.
fn count_of_words(rt: &(impl Env + AllocGlobal)) -> u32 {
    match env::args(rt) {
        Ok(mut args) => {
            let _program = args.next();
            match args.next() {
                Some(word) => word.as_str().parse::<u32>().unwrap_or(FEW),
                None => FEW,
            }
        }
        Err(_) => FEW,
    }
}

fn main(rt: HostRuntime) -> ExitCode {
    let count = count_of_words(&rt);
    match loaded(rt.alloc(), count) {
        Ok(statements) => {
            let _ = println!(&rt; "{statements} statements");
            ExitCode::SUCCESS
        }
        Err(_) => ExitCode::FAILURE,
    }
}
