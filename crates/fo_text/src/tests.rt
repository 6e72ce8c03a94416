//! Tests.

use crate::read::read_problem;
use crate::read_answer::read_answer;
use crate::refusal::FoRefusal;
use crate::write::write_problem;
use crate::write_answer::write_answer;
use std::alloc::Global;
use std::test::Fail;

const TEXT: &str =
    "leo3fo 1\nturns 10000\nweight 256\nsorts 1\nsyms 3\n0\n0\n0\nclauses 3\n0 1 - f0 f1\n0 1 + f2 f0\n0 1 + f2 f1\nend\n";

fn refusal(alloc: Global, text: &[u8]) -> Option<FoRefusal> {
    read_problem(alloc, text).err()
}

#[test]
fn a_problem_is_written_as_it_was_read(rt: HostRuntime) -> Result<(), Fail> {
    let problem = read_problem(rt.alloc(), TEXT.as_bytes())
        .ok()
        .ok_or("refused")?;
    let mut text = Vec::new(rt.alloc());
    write_problem(&problem, &mut text)?;
    assert_eq!(rt; text.as_slice(), TEXT.as_bytes());
    assert_eq!(rt; problem.turns, 10000);
    assert_eq!(rt; problem.clauses.len(), 3);
    Ok(())
}

#[test]
fn a_front_of_a_text_ends_early(rt: HostRuntime) -> Result<(), Fail> {
    let bytes = TEXT.as_bytes();
    for byte in 0..bytes.len() {
        let (front, _) = bytes.split_at(byte);
        assert_eq!(rt; refusal(rt.alloc(), front), Some(FoRefusal::Bad { byte }));
    }
    Ok(())
}

#[test]
fn the_first_bad_byte(rt: HostRuntime) -> Result<(), Fail> {
    let alloc = rt.alloc();
    assert_eq!(rt; refusal(alloc, b"x"), Some(FoRefusal::Bad { byte: 0 }));
    assert_eq!(rt;
        refusal(alloc, b"leo3fo 1\nturns 0"),
        Some(FoRefusal::Bad { byte: 15 })
    );
    assert_eq!(rt;
        refusal(alloc, b"leo3fo 1\nturns 1\nweight 1\nsorts 0\nsyms 1"),
        Some(FoRefusal::Bad { byte: 39 })
    );
    assert_eq!(rt;
        refusal(alloc, b"leo3fo 1\nturns 1\nweight 1\nsorts 2\nsyms 01"),
        Some(FoRefusal::Bad { byte: 40 })
    );
    Ok(())
}

#[test]
fn sorts_without_terms(rt: HostRuntime) -> Result<(), Fail> {
    let alloc = rt.alloc();
    assert_eq!(rt;
        refusal(
            alloc,
            b"leo3fo 1\nturns 1\nweight 1\nsorts 2\nsyms 2\n0\n0 1\nclauses 1\n0 1 + f1 f0"
        ),
        Some(FoRefusal::Bad { byte: 64 })
    );
    assert_eq!(rt;
        refusal(
            alloc,
            b"leo3fo 1\nturns 1\nweight 1\nsorts 1\nsyms 1\n0 0\nclauses 1\n0 1"
        ),
        Some(FoRefusal::Bad { byte: 57 })
    );
    Ok(())
}

/// Answers: with each step, with beats, and the shortest ones.
const ANSWERS: [&str; 6] = [
    "gaveup\n",
    ".\n.\ngaveup\n",
    "refuted\n% end\n",
    "refuted\nd 0 0\n% end\n",
    ".\nrefuted\np 2 0 l 1 0 l e\nd 3 1\n% end\n",
    "refuted\ni 0\ni 1 2 0 0 v0 f3 v1\np 12 0 r 4 1 l 0.10.2\nf 5 0 1 r\nd 6 999999999\n% end\n",
];

/// Whether a text is read, and written as it was.
fn is_kept(alloc: Global, text: &str) -> Result<bool, Fail> {
    let answer = read_answer(alloc, text.as_bytes()).ok().ok_or("refused")?;
    let mut written = Vec::new(alloc);
    write_answer(&answer, &mut written)?;
    Ok(written.as_slice() == text.as_bytes())
}

fn answer_refusal(alloc: Global, text: &[u8]) -> Option<FoRefusal> {
    read_answer(alloc, text).err()
}

#[test]
fn answers_are_written_as_they_were_read(rt: HostRuntime) -> Result<(), Fail> {
    for text in ANSWERS {
        assert!(rt; is_kept(rt.alloc(), text)?, "{text}");
    }
    Ok(())
}

#[test]
fn a_front_of_an_answer_ends_early(rt: HostRuntime) -> Result<(), Fail> {
    for text in ANSWERS {
        let bytes = text.as_bytes();
        for byte in 0..bytes.len() {
            let (front, _) = bytes.split_at(byte);
            assert_eq!(rt;
                answer_refusal(rt.alloc(), front),
                Some(FoRefusal::Bad { byte })
            );
        }
    }
    Ok(())
}

/// Texts that are no answers, with the first byte that is bad.
const BAD_ANSWERS: [(&str, usize); 10] = [
    ("x", 0),
    (".gaveup\n", 1),
    ("gaveup\n.", 7),
    ("refuted\nx", 8),
    ("refuted\nd 00", 11),
    ("refuted\nd 1234567890", 19),
    ("refuted\ni 1  ", 12),
    ("refuted\ni 1 vf", 13),
    ("refuted\np 0 0 L", 14),
    ("refuted\np 0 0 l 0 0 r 1.e", 24),
];

#[test]
fn the_first_bad_byte_of_an_answer(rt: HostRuntime) -> Result<(), Fail> {
    for (text, byte) in BAD_ANSWERS {
        assert_eq!(rt;
            answer_refusal(rt.alloc(), text.as_bytes()),
            Some(FoRefusal::Bad { byte }),
            "{text}"
        );
    }
    Ok(())
}
