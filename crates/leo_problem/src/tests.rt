//! A problem may cross threads.

use super::{LoadRefusal, Problem, load};
use leo_edge::MemFiles;
use std::alloc::Global;
use std::test::Fail;

/// A value that may be handed to another thread.
fn handed_over<T: Send>(value: T) -> T {
    value
}

fn loaded(alloc: Global) -> Result<Problem, LoadRefusal> {
    let mut files = MemFiles::new(alloc);
    files.add("e.p", b"")?;
    let problem = load(alloc, &mut files, "e.p", None)?;
    Ok(handed_over(problem))
}

#[test]
fn a_problem_may_cross_threads(rt: HostRuntime) -> Result<(), Fail> {
    match loaded(rt.alloc()) {
        Ok(problem) => assert_eq!(rt; problem.statements, 0),
        Err(_) => assert!(rt; false),
    }
    Ok(())
}
