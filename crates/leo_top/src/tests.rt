use crate::{Status, leo3_alone};
use leo_edge::{MemFiles, MemSink, Words};
use std::alloc::{AllocError, Global};
use std::process::Abort;
use std::test::Fail;

/// Declares p, assumes p and conjectures p.
const THEOREM: &[u8] = b"thf(p_type,type,p: $o).\nthf(a,axiom,p).\nthf(c,conjecture,p).\n";

/// The answer to an empty file.
const NOTHING_LEFT: &[u8] = b"% SZS status GaveUp for p.p\n% leo3: no clause left after 0 turns\n";

fn command(alloc: Global, words: &[&str]) -> Result<Words, AllocError> {
    let mut command = Words::new(alloc);
    for word in words {
        command.push(word)?;
    }
    Ok(command)
}

/// A problem's text, and the answer's status, code and text. Its file is `p.p`.
#[derive(Drop)]
struct Row {
    problem: &'static [u8],
    status: Status,
    code: u8,
    answer: &'static [u8],
}

/// The answer to the problem is the one of the row.
fn is_answered(rt: &impl Abort, alloc: Global, problem: &[u8], row: &Row) -> Result<(), Fail> {
    let mut files = MemFiles::new(alloc);
    files.add("p.p", problem)?;
    let mut out = MemSink::new(alloc);
    let words = command(alloc, &["leo3", "p.p"])?;
    let alone = leo3_alone(alloc, &words, &mut files, &mut out);
    assert_eq!(rt; alone.status, row.status);
    assert_eq!(rt; alone.code, row.code);
    assert_eq!(rt; out.taken.as_slice(), row.answer);
    Ok(())
}

#[test]
fn an_empty_file(rt: HostRuntime) -> Result<(), Fail> {
    let row = Row {
        problem: b"",
        status: Status::GaveUp,
        code: 1,
        answer: NOTHING_LEFT,
    };
    is_answered(&rt, rt.alloc(), row.problem, &row)
}

/// The row of a file that is refused.
fn refusal(problem: &'static [u8], status: Status, answer: &'static [u8]) -> Row {
    Row {
        problem,
        status,
        code: 2,
        answer,
    }
}

#[test]
fn refused_files(rt: HostRuntime) -> Result<(), Fail> {
    let rows = [
        refusal(
            b"x",
            Status::SyntaxError,
            b"% SZS status SyntaxError for p.p\n% leo3: p.p: byte 0: syntax\n",
        ),
        refusal(
            b"thf(a,axiom,!",
            Status::SyntaxError,
            b"% SZS status SyntaxError for p.p\n% leo3: p.p: byte 13: syntax\n",
        ),
        refusal(
            b"/* x",
            Status::SyntaxError,
            b"% SZS status SyntaxError for p.p\n% leo3: p.p: byte 0: lexical\n",
        ),
        refusal(
            b"thf(a,axiom,1).",
            Status::InputError,
            b"% SZS status InputError for p.p\n% leo3: p.p: byte 12: unsupported number\n",
        ),
        refusal(
            b"thf(a,axiom,p).",
            Status::TypeError,
            b"% SZS status TypeError for p.p\n% leo3: p.p: byte 12: unknown name\n",
        ),
    ];
    for row in rows.iter() {
        is_answered(&rt, rt.alloc(), row.problem, row)?;
    }
    Ok(())
}

#[test]
fn deep_and_large_files(rt: HostRuntime) -> Result<(), Fail> {
    let mut text = Vec::from_slice(rt.alloc(), b"thf(a,axiom,")?;
    for _ in 0..501 {
        text.push(b'(')?;
    }
    text.extend_from_slice(b"$true")?;
    let deep = refusal(
        b"",
        Status::InputError,
        b"% SZS status InputError for p.p\n% leo3: p.p: byte 513: deep\n",
    );
    is_answered(&rt, rt.alloc(), &text, &deep)?;

    let mut spaces = Vec::new(rt.alloc());
    for _ in 0..16_777_217 {
        spaces.push(b' ')?;
    }
    let large = refusal(
        b"",
        Status::InputError,
        b"% SZS status InputError for p.p\n% leo3: p.p: byte 0: large\n",
    );
    is_answered(&rt, rt.alloc(), &spaces, &large)
}

/// Words with single spaces between, and the status and the first line of their answer.
const WORDS: [(&str, Status, &str); 9] = [
    (
        "leo3",
        Status::UsageError,
        "% SZS status UsageError for leo3",
    ),
    (
        "leo3 p.p q.p",
        Status::UsageError,
        "% SZS status UsageError for leo3",
    ),
    (
        "leo3 --turns 0 p.p",
        Status::UsageError,
        "% SZS status UsageError for leo3",
    ),
    (
        "leo3 --children 2 p.p",
        Status::UsageError,
        "% SZS status UsageError for leo3",
    ),
    (
        "leo3 --children 0 p.p",
        Status::Theorem,
        "% SZS status Theorem for p.p",
    ),
    (
        "leo3 --turns 5 --depth 2 p.p",
        Status::Theorem,
        "% SZS status Theorem for p.p",
    ),
    (
        "leo3 p.p --root r",
        Status::Theorem,
        "% SZS status Theorem for p.p",
    ),
    ("leo3 --version", Status::Shown, "leo3 0.1.0"),
    (
        "leo3 --help p.p",
        Status::Shown,
        "Looks for a refutation of a TPTP problem in higher-order logic (THF0)",
    ),
];

/// The words of a line, between which there are single spaces.
fn line_command(alloc: Global, line: &str) -> Result<Words, AllocError> {
    let mut command = Words::new(alloc);
    for word in line.split(' ') {
        command.push(word)?;
    }
    Ok(command)
}

#[test]
fn words_of_the_command(rt: HostRuntime) -> Result<(), Fail> {
    for (line, status, first) in WORDS.iter() {
        let mut files = MemFiles::new(rt.alloc());
        files.add("p.p", THEOREM)?;
        let mut out = MemSink::new(rt.alloc());
        let words = line_command(rt.alloc(), line)?;
        let alone = leo3_alone(rt.alloc(), &words, &mut files, &mut out);
        assert_eq!(rt; alone.status, *status);
        assert!(rt; out.taken.as_slice().starts_with(first.as_bytes()));
    }
    Ok(())
}

#[test]
fn files_and_sinks_that_fail(rt: HostRuntime) -> Result<(), Fail> {
    let words = command(rt.alloc(), &["leo3", "p.p"])?;
    let mut files = MemFiles::new(rt.alloc());
    files.add("p.p", b"")?;

    let mut out = MemSink::new(rt.alloc());
    out.failing.push(2)?;
    let alone = leo3_alone(rt.alloc(), &words, &mut files, &mut out);
    assert_eq!(rt; alone.status, Status::WriteFault);
    assert_eq!(rt; alone.code, 5);
    let one = b"% SZS status GaveUp for p.p\n";
    assert_eq!(rt; out.taken.as_slice(), one.as_slice());
    assert_eq!(rt; out.puts, 2);

    let mut parts = MemSink::new(rt.alloc());
    parts.at_most = 7;
    let alone = leo3_alone(rt.alloc(), &words, &mut files, &mut parts);
    assert_eq!(rt; alone.status, Status::GaveUp);
    assert_eq!(rt; parts.taken.as_slice(), NOTHING_LEFT);

    files.failing.push(3)?;
    let mut third = MemSink::new(rt.alloc());
    let alone = leo3_alone(rt.alloc(), &words, &mut files, &mut third);
    assert_eq!(rt; alone.status, Status::OSError);
    assert_eq!(rt; alone.code, 4);
    let fault = b"% SZS status OSError for p.p\n% leo3: p.p: read fault\n";
    assert_eq!(rt; third.taken.as_slice(), fault.as_slice());
    Ok(())
}

#[test]
fn problems_that_are_refused(rt: HostRuntime) -> Result<(), Fail> {
    let rows = [
        refusal(
            b"thf(a,conjecture,$true).thf(b,conjecture,$true).",
            Status::InputError,
            b"% SZS status InputError for p.p\n% leo3: p.p: byte 24: second conjecture\n",
        ),
        refusal(
            b"thf(a,axiom,X).",
            Status::TypeError,
            b"% SZS status TypeError for p.p\n% leo3: p.p: byte 12: free variable\n",
        ),
        refusal(
            b"thf(a,axiom,p).thf(b,plain,$true).",
            Status::InputError,
            b"% SZS status InputError for p.p\n% leo3: p.p: byte 21: role\n",
        ),
        refusal(
            b"thf(a,type,p:$o).thf(b,type,p:$i).",
            Status::TypeError,
            b"% SZS status TypeError for p.p\n% leo3: p.p: byte 28: declared twice\n",
        ),
        refusal(
            b"thf(a,type,k:$i).thf(b,axiom,k).",
            Status::TypeError,
            b"% SZS status TypeError for p.p\n% leo3: p.p: byte 29: wrong type\n",
        ),
    ];
    for row in rows.iter() {
        is_answered(&rt, rt.alloc(), row.problem, row)?;
    }
    Ok(())
}

/// Includes the axioms of another file.
const INCLUDING: &[u8] = b"include('p.ax').thf(c,conjecture,~ q).";

#[test]
fn includes(rt: HostRuntime) -> Result<(), Fail> {
    let words = command(rt.alloc(), &["leo3", "w/p.p"])?;
    let mut files = MemFiles::new(rt.alloc());
    files.add("w/p.p", INCLUDING)?;

    // The file of the include is missing.
    let mut out = MemSink::new(rt.alloc());
    let alone = leo3_alone(rt.alloc(), &words, &mut files, &mut out);
    assert_eq!(rt; alone.status, Status::OSError);
    let missing = b"% SZS status OSError for w/p.p\n% leo3: w/p.ax: read fault\n";
    assert_eq!(rt; out.taken.as_slice(), missing.as_slice());

    // In a root the include is another file.
    let mut out = MemSink::new(rt.alloc());
    let rooted = command(rt.alloc(), &["leo3", "--root", "r", "w/p.p"])?;
    let alone = leo3_alone(rt.alloc(), &rooted, &mut files, &mut out);
    assert_eq!(rt; alone.status, Status::OSError);
    let missing = b"% SZS status OSError for w/p.p\n% leo3: r/p.ax: read fault\n";
    assert_eq!(rt; out.taken.as_slice(), missing.as_slice());
    Ok(())
}
