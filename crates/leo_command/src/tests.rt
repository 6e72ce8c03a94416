//! Words of commands, and what they ask for.

use crate::{Asked, CommandRefusal, Search, check_asked, leo3_asked};
use leo_edge::Words;
use std::alloc::{AllocError, Global};
use std::test::Fail;

/// The words of a line, between which there are single spaces.
fn words_of(alloc: Global, line: &str) -> Result<Words, AllocError> {
    let mut words = Words::new(alloc);
    for word in line.split(' ') {
        words.push(word)?;
    }
    Ok(words)
}

fn refused(alloc: Global, refusal: CommandRefusal) -> Result<String, AllocError> {
    match refusal {
        CommandRefusal::Usage => String::from_str(alloc, "usage"),
        CommandRefusal::Memory => String::from_str(alloc, "memory"),
    }
}

fn first_line(alloc: Global, text: &str) -> Result<String, AllocError> {
    match text.lines().next() {
        Some(line) => String::from_str(alloc, line),
        None => Ok(String::new(alloc)),
    }
}

fn searched(alloc: Global, search: &Search) -> Result<String, AllocError> {
    let s = search.settings;
    let root = match &search.root {
        Some(root) => root.as_str(),
        None => "-",
    };
    let file = search.file.as_str();
    let child = search.child.as_str();
    let limits = format!(in alloc;
        "{} {} {} {} {} {}",
        s.turns, s.every, s.children, s.depth, s.weight, s.patience
    )?;
    format!(in alloc; "{file} {root} {child} {limits}")
}

/// What the words of `leo3` come to.
fn leo3_answer(alloc: Global, line: &str) -> Result<String, AllocError> {
    match leo3_asked(alloc, &words_of(alloc, line)?) {
        Ok(Asked::Work(search)) => searched(alloc, &search),
        Ok(Asked::Print(text)) => first_line(alloc, &text),
        Err(refusal) => refused(alloc, refusal),
    }
}

/// What the words of `leo3_check` come to.
fn check_answer(alloc: Global, line: &str) -> Result<String, AllocError> {
    match check_asked(alloc, &words_of(alloc, line)?) {
        Ok(Asked::Work(check)) => {
            let root = match &check.root {
                Some(root) => root.as_str(),
                None => "-",
            };
            format!(in alloc; "{} {} {root}", check.file.as_str(), check.proof.as_str())
        }
        Ok(Asked::Print(text)) => first_line(alloc, &text),
        Err(refusal) => refused(alloc, refusal),
    }
}

const LEO3: [(&str, &str); 19] = [
    ("leo3 p.p", "p.p - leo3_fo 20000 200 0 4 256 10000"),
    (
        "leo3 --turns 1 --every 10 --children 8 --child c --depth 6 --weight 512 --patience 100000 --root r p.p",
        "p.p r c 1 10 8 6 512 100000",
    ),
    (
        "leo3 --turns=1000000 p.p",
        "p.p - leo3_fo 1000000 200 0 4 256 10000",
    ),
    (
        "leo3 p.p --depth 0",
        "p.p - leo3_fo 20000 200 0 0 256 10000",
    ),
    ("leo3", "usage"),
    ("leo3 p.p q.p", "usage"),
    ("leo3 --turns 0 p.p", "usage"),
    ("leo3 --turns 1000001 p.p", "usage"),
    ("leo3 --turns 99999999999 p.p", "usage"),
    ("leo3 --turns 05 p.p", "usage"),
    ("leo3 --turns +5 p.p", "usage"),
    ("leo3 --turns five p.p", "usage"),
    ("leo3 --every 9 p.p", "usage"),
    ("leo3 --children 9 p.p", "usage"),
    ("leo3 --turns 5 --turns 5 p.p", "usage"),
    ("leo3 --unknown p.p", "usage"),
    ("leo3 --root", "usage"),
    ("leo3 --version", "leo3 0.1.0"),
    (
        "leo3 --help",
        "Looks for a refutation of a TPTP problem in higher-order logic (THF0)",
    ),
];

const CHECK: [(&str, &str); 6] = [
    ("leo3_check p.p d.s", "p.p d.s -"),
    ("leo3_check --root r p.p d.s", "p.p d.s r"),
    ("leo3_check p.p", "usage"),
    ("leo3_check p.p d.s e.s", "usage"),
    ("leo3_check --turns 5 p.p d.s", "usage"),
    ("leo3_check --version", "leo3_check 0.1.0"),
];

#[test]
fn words_of_leo3(rt: HostRuntime) -> Result<(), Fail> {
    for (line, answer) in LEO3.iter() {
        assert_eq!(rt; leo3_answer(rt.alloc(), line)?.as_str(), *answer);
    }
    Ok(())
}

#[test]
fn words_of_leo3_check(rt: HostRuntime) -> Result<(), Fail> {
    for (line, answer) in CHECK.iter() {
        assert_eq!(rt; check_answer(rt.alloc(), line)?.as_str(), *answer);
    }
    Ok(())
}
