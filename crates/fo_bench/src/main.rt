//! Unifies and compares terms, and reads texts, of families on which these calls could take too long.
//! The first word names the family, and the second says how large a member is; without words each
//! family has a small member.
#![tactic(auto)]

ghost use Rattle.std.specs.Prelude.{◌≡◌, ◌+◌, ◌<◌, ◌≤◌, ◌^◌};

use fo_kbo::order::{FoOrder, compare};
use fo_terms::term::{FoNode, FoTerm};
use fo_terms::unify::unify;
use fo_text::read::read_problem;
use fo_text::refusal::FoRefusal;
use std::alloc::{AllocError, Global};
use std::env;
use std::process::ExitCode;
use std::rt::Env;

/// How large a member is without a word. Terms that grow twofold this often have no room.
const FEW: u32 = 60;

/// How large one may be.
const MANY: u32 = 100_000_000;

const PAIR: FoNode = FoNode::Sym(0, 2);

const NEXT: FoNode = FoNode::Sym(1, 1);

const ONE: FoNode = FoNode::Sym(2, 0);

const OTHER: FoNode = FoNode::Sym(3, 0);

// A pair of each variable in turn with what is pushed next.
fn push_chain(nodes: &mut Vec<FoNode>, first: u32, count: u32) -> Result<(), AllocError>
    requires { first + count < 2 ^ 32 }
{
    for number in 0..count {
        nodes.push(PAIR)?;
        nodes.push(FoNode::Var(first + number))?;
    }
    Ok(())
}

// A pair of the pair of each variable with itself and what is pushed next.
fn push_doubled(nodes: &mut Vec<FoNode>, first: u32, count: u32) -> Result<(), AllocError>
    requires { first + count < 2 ^ 32 }
{
    for number in 0..count {
        nodes.push(PAIR)?;
        nodes.push(PAIR)?;
        nodes.push(FoNode::Var(first + number))?;
        nodes.push(FoNode::Var(first + number))?;
    }
    Ok(())
}

// How many variables a most general unifier of the terms replaces, if there is one.
fn replaced(
    alloc: Global,
    left: Vec<FoNode>,
    right: Vec<FoNode>,
) -> Result<Option<usize>, AllocError> {
    let Some(first) = FoTerm::new(left) else {
        return Ok(None);
    };
    let Some(second) = FoTerm::new(right) else {
        return Ok(None);
    };
    let found = unify(alloc, &first, &second)?;
    Ok(found.map(|subst| subst.pairs.as_slice().len()))
}

// Two chains of variables, each bound to the pair of the one before with itself. Their ends are to be
// equal, and then two constants that are not.
fn clash(alloc: Global, count: u32) -> Result<Option<usize>, AllocError>
    requires { count ≤ 100000000 }
{
    let mut left = Vec::new(alloc);
    push_chain(&mut left, 1, count)?;
    push_chain(&mut left, count + 2, count)?;
    left.push(PAIR)?;
    left.push(FoNode::Var(count))?;
    left.push(ONE)?;
    let mut right = Vec::new(alloc);
    push_doubled(&mut right, 0, count)?;
    push_doubled(&mut right, count + 1, count)?;
    right.push(PAIR)?;
    right.push(FoNode::Var(count + count + 1))?;
    right.push(OTHER)?;
    replaced(alloc, left, right)
}

// The same the other way round.
fn turned_clash(alloc: Global, count: u32) -> Result<Option<usize>, AllocError>
    requires { count ≤ 100000000 }
{
    let mut left = Vec::new(alloc);
    push_doubled(&mut left, 0, count)?;
    push_doubled(&mut left, count + 1, count)?;
    left.push(PAIR)?;
    left.push(FoNode::Var(count + count + 1))?;
    left.push(OTHER)?;
    let mut right = Vec::new(alloc);
    push_chain(&mut right, 1, count)?;
    push_chain(&mut right, count + 2, count)?;
    right.push(PAIR)?;
    right.push(FoNode::Var(count))?;
    right.push(ONE)?;
    replaced(alloc, left, right)
}

// Such a chain, whose first variable is to be its last.
fn cycle(alloc: Global, count: u32) -> Result<Option<usize>, AllocError>
    requires { count ≤ 100000000 }
{
    let mut left = Vec::new(alloc);
    push_chain(&mut left, 1, count)?;
    left.push(FoNode::Var(0))?;
    let mut right = Vec::new(alloc);
    push_doubled(&mut right, 0, count)?;
    right.push(FoNode::Var(count))?;
    replaced(alloc, left, right)
}

// Each variable is to be the next, and the last a constant.
fn row(alloc: Global, count: u32) -> Result<Option<usize>, AllocError>
    requires { count ≤ 100000000 }
{
    let mut left = Vec::new(alloc);
    push_chain(&mut left, 0, count)?;
    left.push(FoNode::Var(count))?;
    let mut right = Vec::new(alloc);
    push_chain(&mut right, 1, count)?;
    right.push(ONE)?;
    replaced(alloc, left, right)
}

// A function applied so often to a leaf.
fn tower(alloc: Global, count: u32, leaf: FoNode) -> Result<Option<FoTerm>, AllocError> {
    let mut nodes = Vec::new(alloc);
    for _ in 0..count {
        nodes.push(NEXT)?;
    }
    nodes.push(leaf)?;
    Ok(FoTerm::new(nodes))
}

fn order_of_towers(
    alloc: Global,
    count: u32,
    left: FoNode,
    right: FoNode,
) -> Result<FoOrder, AllocError> {
    let Some(first) = tower(alloc, count, left)? else {
        return Ok(FoOrder::Unordered);
    };
    let Some(second) = tower(alloc, count, right)? else {
        return Ok(FoOrder::Unordered);
    };
    Ok(compare(&first, &second))
}

fn push_number(text: &mut Vec<u8>, alloc: Global, number: u32) -> Result<(), AllocError> {
    let digits = format!(in alloc; "{number}")?;
    text.extend_from_slice(digits.as_str().as_bytes())
}

// A text of one symbol line and so many clauses.
fn clauses_text(alloc: Global, count: u32) -> Result<Vec<u8>, AllocError> {
    let mut text = Vec::new(alloc);
    text.extend_from_slice(b"leo3fo 1\nturns 1\nweight 1\nsorts 1\nsyms 3\n0\n0\n0 0 0\nclauses ")?;
    push_number(&mut text, alloc, count)?;
    text.push(b'\n')?;
    for _ in 0..count {
        text.extend_from_slice(b"2 0 0 2 + f2 f0 v1 f2 f1 v0 - v0 f2 f2 f0 f1 v1\n")?;
    }
    text.extend_from_slice(b"end\n")?;
    Ok(text)
}

// A text of so many symbols, each of which gives its sort of the next one's, and of a bad clause.
fn symbols_text(alloc: Global, count: u32) -> Result<Vec<u8>, AllocError>
    requires { count ≤ 100000000 }
{
    let mut text = Vec::new(alloc);
    text.extend_from_slice(b"leo3fo 1\nturns 1\nweight 1\nsorts ")?;
    push_number(&mut text, alloc, count + 1)?;
    text.extend_from_slice(b"\nsyms ")?;
    push_number(&mut text, alloc, count + 1)?;
    text.push(b'\n')?;
    for number in 0..count {
        push_number(&mut text, alloc, number)?;
        text.push(b' ')?;
        push_number(&mut text, alloc, number + 1)?;
        text.push(b'\n')?;
    }
    push_number(&mut text, alloc, count)?;
    text.extend_from_slice(b"\nclauses 1\n0 1 + f0 x")?;
    Ok(text)
}

// How a text is read: the count of its clauses, or the byte at which it is refused.
fn tell_text(rt: &impl Print, alloc: Global, name: &str, made: Result<Vec<u8>, AllocError>) {
    let Ok(text) = made else {
        let _ = println!(rt; "{name}: no memory for the text");
        return;
    };
    match read_problem(alloc, &text) {
        Ok(problem) => {
            let clauses = problem.clauses.len();
            let _ = println!(rt; "{name}: {clauses} clauses are read");
        }
        Err(FoRefusal::Bad { byte }) => {
            let _ = println!(rt; "{name}: refused at byte {byte}");
        }
        Err(FoRefusal::Memory) => {
            let _ = println!(rt; "{name}: no memory");
        }
    }
}

fn tell_unifier(rt: &impl Print, name: &str, answer: Result<Option<usize>, AllocError>) {
    match answer {
        Ok(Some(variables)) => {
            let _ = println!(rt; "{name}: a unifier replaces {variables} variables");
        }
        Ok(None) => {
            let _ = println!(rt; "{name}: no unifier");
        }
        Err(_) => {
            let _ = println!(rt; "{name}: no memory");
        }
    }
}

fn tell_order(rt: &impl Print, name: &str, answer: Result<FoOrder, AllocError>) {
    let order = match answer {
        Ok(FoOrder::Less) => "less",
        Ok(FoOrder::Equal) => "equal",
        Ok(FoOrder::Greater) => "greater",
        Ok(FoOrder::Unordered) => "unordered",
        Err(_) => "no memory",
    };
    let _ = println!(rt; "{name}: {order}");
}

// The families, or the one that is named.
fn tell<R: Print>(rt: &R, alloc: Global, family: &str, count: u32)
    requires { count ≤ 100000000 }
{
    let all = family == "all";
    if all || family == "clash" {
        tell_unifier(rt, "clash", clash(alloc, count));
    }
    if all || family == "turned_clash" {
        tell_unifier(rt, "turned clash", turned_clash(alloc, count));
    }
    if all || family == "cycle" {
        tell_unifier(rt, "cycle", cycle(alloc, count));
    }
    if all || family == "row" {
        tell_unifier(rt, "row", row(alloc, count));
    }
    if all || family == "constants" {
        tell_order(rt, "constants", order_of_towers(alloc, count, ONE, OTHER));
    }
    if all || family == "variables" {
        let leaves = (FoNode::Var(0), FoNode::Var(1));
        tell_order(
            rt,
            "variables",
            order_of_towers(alloc, count, leaves.0, leaves.1),
        );
    }
    if all || family == "clauses" {
        tell_text(rt, alloc, "clauses", clauses_text(alloc, count));
    }
    if all || family == "symbols" {
        tell_text(rt, alloc, "symbols", symbols_text(alloc, count));
    }
}

fn count_of(word: &str) -> u32
    ensures { result ≤ 100000000 }
{
    word.parse::<u32>().unwrap_or(FEW).min(MANY)
}

fn main(rt: HostRuntime) -> ExitCode {
    let alloc = rt.alloc();
    let Ok(mut args) = env::args(&rt) else {
        return ExitCode::FAILURE;
    };
    let _program = args.next();
    match args.next() {
        None => tell(&rt, alloc, "all", FEW),
        Some(family) => match args.next() {
            None => tell(&rt, alloc, family.as_str(), FEW),
            Some(word) => tell(&rt, alloc, family.as_str(), count_of(word.as_str())),
        },
    }
    ExitCode::SUCCESS
}
