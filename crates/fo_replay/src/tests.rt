//! Tests.

use crate::replay::replay;
use fo_text::answer::{FoEnd, FoStep};
use fo_text::problem::{FoClause, FoProblem};
use fo_text::read::read_problem;
use fo_text::read_answer::read_answer;
use fo_text::write::write_problem;
use sqlite_items::Items;
use std::alloc::Global;
use std::test::Fail;

/// Two sorts; f0 to f2 are constants of sort 0, f3 is one of sort 1, f4 takes two terms of sort 0
/// and gives one, and f5 takes one of sort 1.
const HEAD: &str = "leo3fo 1\nturns 1\nweight 1\nsorts 2\nsyms 6\n0\n0\n0\n1\n0 0 0\n0 1\nclauses ";

/// The clauses: `f4(v0, f2) = v0`, and `f4(f0, v0) = f1` or `f4(v0, f2) != f5(v1)`; then a negative
/// literal with equal sides beside a positive one, and two literals of one polarity.
const CLAUSES: &str =
    "4\n1 0 1 + f4 v0 f2 v0\n2 0 1 2 + f4 f0 v0 f1 - f4 v0 f2 f5 v1\n1 0 2 - v0 v0 + v0 f0\n1 0 2 + v0 f0 + f1 v0\n";

fn problem_of(alloc: Global, clauses: &str) -> Result<FoProblem, Fail> {
    let text = format!(in alloc; "{HEAD}{clauses}end\n")?;
    let problem = read_problem(alloc, text.as_bytes()).ok().ok_or("refused")?;
    Ok(problem)
}

/// The text of a problem with this one clause.
fn text_of(alloc: Global, mut problem: FoProblem, clause: FoClause) -> Result<Vec<u8>, Fail> {
    let mut clauses = Items::new(alloc);
    clauses.push(clause)?;
    problem.clauses = clauses;
    let mut text = Vec::new(alloc);
    write_problem(&problem, &mut text)?;
    Ok(text)
}

/// The conclusion of the step of an answer's line.
fn conclusion(alloc: Global, problem: &FoProblem, line: &str) -> Result<Option<FoClause>, Fail> {
    let text = format!(in alloc; "refuted\n{line}\n% end\n")?;
    let answer = read_answer(alloc, text.as_bytes()).ok().ok_or("refused")?;
    match answer.end {
        FoEnd::GaveUp => Ok(None),
        FoEnd::Refuted(steps) => first_replayed(alloc, problem, steps.as_slice()),
    }
}

fn first_replayed(
    alloc: Global,
    problem: &FoProblem,
    steps: &[FoStep],
) -> Result<Option<FoClause>, Fail> {
    let step = steps.first().ok_or("no step")?;
    let found = replay(alloc, problem, problem.clauses.as_slice(), step)?;
    Ok(found)
}

/// Whether the step of a line gives the clause of a line.
fn gives(alloc: Global, line: &str, expected: &str) -> Result<bool, Fail> {
    let problem = problem_of(alloc, CLAUSES)?;
    let found = conclusion(alloc, &problem, line)?.ok_or("does not replay")?;
    let text = text_of(alloc, problem, found)?;
    let wanted = format!(in alloc; "{HEAD}1\n{expected}\nend\n")?;
    Ok(text.as_slice() == wanted.as_bytes())
}

fn replays(alloc: Global, line: &str) -> Result<bool, Fail> {
    let problem = problem_of(alloc, CLAUSES)?;
    let found = conclusion(alloc, &problem, line)?;
    Ok(found.is_some())
}

#[test]
fn each_step_gives_its_clause(rt: HostRuntime) -> Result<(), Fail> {
    let steps = [
        ("i 0 1 0 f4 v0 v0", "1 0 1 + f4 f4 v0 v0 f2 f4 v0 v0"),
        ("i 1 0 f2 f3", "0 2 + f4 f0 f2 f1 - f4 f2 f2 f5 f3"),
        (
            "p 0 0 l 1 0 l 0",
            "3 0 0 1 3 + f4 v0 v1 f1 - f4 v1 f2 f5 v2 - f4 v0 f2 f0",
        ),
        (
            "p 0 0 r 1 1 r e",
            "3 0 0 1 3 + f4 f0 v1 f1 - f4 v1 f2 f4 v0 f2 - v0 f5 v2",
        ),
        ("f 3 0 1 l", "1 0 3 + v0 f0 - v0 f1 - f0 v0"),
        ("f 3 0 1 r", "1 0 3 + v0 f0 - v0 v0 - f0 f1"),
        ("d 2 0", "1 0 1 + v0 f0"),
    ];
    for (line, expected) in steps {
        assert!(rt; gives(rt.alloc(), line, expected)?, "{line}");
    }
    Ok(())
}

#[test]
fn steps_that_do_not_replay(rt: HostRuntime) -> Result<(), Fail> {
    let steps = [
        // no such clause, literal, argument, variable or symbol
        "d 4 0",
        "d 2 2",
        "p 0 0 l 1 0 l 2",
        "p 0 0 l 1 0 l 1.0",
        "i 0 0 v0",
        "i 0 0 f6",
        // words of another shape
        "i 0",
        "i 0 v0",
        "i 0 1 f0",
        "i 0 0 f4 f0",
        "i 0 0 f0 f0",
        "i 1 0 f0",
        // sorts
        "i 0 0 f3",
        "i 0 1 2 v0",
        "i 0 1 1 v0",
        "p 0 0 l 1 1 r 0",
        // polarity, sides, one literal twice
        "p 1 1 l 0 0 l e",
        "d 2 1",
        "d 1 1",
        "f 1 0 1 l",
        "f 3 0 0 l",
    ];
    for line in steps {
        assert!(rt; !replays(rt.alloc(), line)?, "{line}");
    }
    Ok(())
}
