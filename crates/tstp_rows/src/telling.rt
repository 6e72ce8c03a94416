//! One row for one derivation: its text.

ghost use Rattle.std.specs.Prelude.{IfOk};
ghost use Rattle.leo_problem.specs.Loading.{IsProblem};

use crate::cases::{Case, lines_of};
use crate::given::make_terms;
use leo_edge::MemFiles;
use leo_problem::{LoadRefusal, Problem, load};
use leo_tstp::print;
use std::alloc::{AllocError, Global};

/// A problem, and a derivation over it.
pub(crate) struct Row {
    pub(crate) title: &'static str,
    pub(crate) file: &'static str,
    pub(crate) text: &'static [u8],
    pub(crate) case: Case,
}

fn loaded(alloc: Global, row: &Row) -> Result<Problem, LoadRefusal>
    ensures { IfOk result IsProblem }
{
    let mut files = MemFiles::new(alloc);
    files.add(row.file, row.text)?;
    load(alloc, &mut files, row.file, None)
}

/// The text of a derivation over the problem.
fn printed(alloc: Global, problem: &mut Problem, case: Case) -> Result<Vec<u8>, AllocError>
    requires { IsProblem problem.old }
{
    let terms = make_terms(&mut problem.bank)?;
    let lines = lines_of(alloc, &problem.bank, &terms, problem.hyps.as_slice(), case)?;
    let mut out = Vec::new(alloc);
    print(alloc, problem, &lines, &mut out)?;
    Ok(out)
}

fn tell(rt: &impl Print, text: &[u8]) {
    match std::str::from_utf8(text) {
        Ok(text) => {
            let _ = print!(rt; "{text}");
        }
        Err(_) => {
            let _ = println!(rt; "no text");
        }
    }
}

/// Shows a derivation.
pub(crate) fn show(rt: &(impl Print + AllocGlobal), row: &Row) {
    let _ = println!(rt; "% {}", row.title);
    let Ok(mut problem) = loaded(rt.alloc(), row) else {
        let _ = println!(rt; "no problem");
        return;
    };
    match printed(rt.alloc(), &mut problem, row.case) {
        Ok(text) => tell(rt, &text),
        Err(_) => {
            let _ = println!(rt; "no memory");
        }
    }
}
