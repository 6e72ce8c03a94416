//! The checker as a program: `leo3_check FILE PROOF`.
#![tactic(auto)]

use leo_edge::{HostFiles, HostOut};
use leo_top::{check_proof, command_words};
use std::io;
use std::process::ExitCode;

/// The exit code of a run that finds no memory for its words.
const NO_MEMORY: u8 = 6;

// Answers the words over the host's files and its output, and gives the exit code.
fn run(rt: &HostRuntime) -> io::Result<u8> {
    let words = command_words(rt)?;
    let mut files = HostFiles::new(rt.alloc(), rt.clone()?);
    let mut out = HostOut::new(rt.clone()?);
    Ok(check_proof(rt.alloc(), &words, &mut files, &mut out).code)
}

fn main(rt: HostRuntime) -> ExitCode {
    match run(&rt) {
        Ok(code) => ExitCode::from(code),
        Err(_) => ExitCode::from(NO_MEMORY),
    }
}
