//! What the programs share: the words that the host gives.

use leo_edge::Words;
use std::rt::Env;
use std::{env, io};

/// The words of the command, the program's name first. Where one is not UTF-8 there are none, which is no command.
pub fn command_words(rt: &(impl Env + AllocGlobal)) -> io::Result<Words> {
    let mut words = Words::new(rt.alloc());
    match env::args(rt) {
        Ok(args) => {
            for arg in args {
                words.push(arg.as_str())?;
            }
        }
        Err(e) if e.kind() == io::ErrorKind::InvalidData => {}
        Err(e) => return Err(e),
    }
    Ok(words)
}
