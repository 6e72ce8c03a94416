//! One row for one text: what is printed of it, or where it is refused.

ghost use Rattle.std.specs.Prelude.{IfOk};
ghost use Rattle.leo_problem.specs.Loading.{IsProblem};

use crate::rows::Row;
use leo_edge::MemFiles;
use leo_problem::{LoadRefusal, Problem, load};
use leo_tstp::{TstpRefusal, print, read};
use std::alloc::Global;

/// The file of each problem.
const FILE: &str = "p.p";

fn loaded(alloc: Global, row: &Row) -> Result<Problem, LoadRefusal>
    ensures { IfOk result IsProblem }
{
    let mut files = MemFiles::new(alloc);
    files.add(FILE, row.problem)?;
    load(alloc, &mut files, FILE, None)
}

/// What is printed of what was read.
fn printed(alloc: Global, problem: &mut Problem, text: &[u8]) -> Result<Vec<u8>, TstpRefusal>
    requires { IsProblem problem.old }
{
    if text.len() > 67_108_864 {
        return Err(TstpRefusal::Memory);
    }
    let lines = read(alloc, problem, text)?;
    let mut out = Vec::new(alloc);
    print(alloc, problem, lines.as_slice(), &mut out)?;
    Ok(out)
}

fn tell(rt: &impl Print, text: &[u8]) {
    match std::str::from_utf8(text) {
        Ok(text) => {
            let _ = print!(rt; "{text}");
        }
        Err(_) => {
            let _ = println!(rt; "no text");
        }
    }
}

/// Shows what becomes of a text.
pub(crate) fn show(rt: &(impl Print + AllocGlobal), row: &Row) {
    let _ = println!(rt; "% {}", row.title);
    let Ok(mut problem) = loaded(rt.alloc(), row) else {
        let _ = println!(rt; "no problem");
        return;
    };
    match printed(rt.alloc(), &mut problem, row.text) {
        Ok(text) => tell(rt, &text),
        Err(TstpRefusal::Bad { byte }) => {
            let _ = println!(rt; "refused at byte {byte}");
        }
        Err(TstpRefusal::Memory) => {
            let _ = println!(rt; "no memory");
        }
    }
}
