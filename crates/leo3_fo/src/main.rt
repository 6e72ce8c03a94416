//! The child prover as a program: it reads a problem text from its input, and writes the answer to its output.
#![tactic(auto)]

use fo_prove::prove;
use leo_edge::{HostIn, HostOut};
use std::io;
use std::process::ExitCode;

/// The exit code of a run that finds no memory for its output.
const NO_MEMORY: u8 = 6;

// Answers the input of the host, and gives the exit code.
fn run(rt: &HostRuntime) -> io::Result<u8> {
    let mut source = HostIn::new(rt.stdin());
    let mut out = HostOut::new(rt.clone()?);
    Ok(prove(rt.alloc(), &mut source, &mut out).code)
}

fn main(rt: HostRuntime) -> ExitCode {
    match run(&rt) {
        Ok(code) => ExitCode::from(code),
        Err(_) => ExitCode::from(NO_MEMORY),
    }
}
