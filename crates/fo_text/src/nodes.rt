//! The nodes of terms.

ghost use Rattle.std.specs.Prelude.{◌≡◌, ◌≤◌, ◌<◌, ◌+◌, ◌^◌, ◌++◌, ◌∷◌, length, IfOk, IfErr, IfSome, MatchOption, IsTrue, ◌↔◌, Some, true, slice_get, ℕ, decimal, max};
ghost use Rattle.fo_text.specs.Spellings.{node_word};
ghost use Rattle.std.specs.List.{AllByRecursion};
ghost use Rattle.fo_terms.specs.declared.term.FoNode.{FoNode};
ghost use Rattle.fo_text.specs.Words.{most_number};
ghost use Rattle.fo_text.specs.Reads.{IsStop};
ghost use Rattle.fo_text.specs.Pieces.{StandsFirst, HasFewArgs};
ghost use Rattle.fo_text.specs.Nodes.{Suits, IsCandidate, StandsAt, node_end, spaced_node};
ghost use Rattle.fo_text.specs.Searches.{IsAhead, IsBest, IsFound};

use crate::field::common;
use crate::number::plain_number;
use crate::problem::FoSym;
use crate::refusal::Stop;
use crate::symbols::behind_space;
use crate::write::write_node;
use fo_terms::term::FoNode;
use std::alloc::{AllocError, Global};

/// What the terms of a clause are made of: the sorts of its variables, and the symbols, each with a
/// mark where a term can begin with it.
#[derive(Clone, Copy)]
pub(crate) struct Names<'a> {
    pub(crate) vars: &'a [u32],
    pub(crate) syms: &'a [FoSym],
    pub(crate) usable: &'a [bool],
}

/// How a candidate compares with the input: it stands there whole, with so many bytes, or so many of
/// its bytes do.
pub(crate) enum Found {
    Whole(FoNode, usize),
    Part(usize),
}

fn suits(want: Option<u32>, sort: u32) -> bool
    ensures { IsTrue result ↔ Suits want sort }
{
    match want {
        None => true,
        Some(wanted) => wanted == sort,
    }
}

fn is_marked(usable: &[bool], at: usize) -> bool
    ensures { IsTrue result ↔ (slice_get usable.now at ≡ Some true) }
{
    match usable.get(at) {
        None => false,
        Some(mark) => *mark,
    }
}

/// The variable with a number, where it is a candidate.
fn var_at(names: Names<'_>, want: Option<u32>, number: u32) -> Option<FoNode>
    ensures { MatchOption result ((n : FoNode) → n ≡ FoNode.Var number → IsCandidate names.entry.vars.now names.entry.syms.now names.entry.usable.now want n → ⊥) (λ n. (n ≡ FoNode.Var number) × IsCandidate names.entry.vars.now names.entry.syms.now names.entry.usable.now want n) }
{
    match names.vars.get(number as usize) {
        None => None,
        Some(sort) => {
            if suits(want, *sort) {
                Some(FoNode::Var(number))
            } else {
                None
            }
        }
    }
}

/// The symbol with a number, where it is a candidate.
fn sym_at(names: Names<'_>, want: Option<u32>, number: u32) -> Option<FoNode>
    requires few { AllByRecursion HasFewArgs names.syms.now }
    ensures { MatchOption result ((n : FoNode) (k : ℕ) → n ≡ FoNode.Sym number k → IsCandidate names.entry.vars.now names.entry.syms.now names.entry.usable.now want n → ⊥) (λ n. ((k : ℕ) × (n ≡ FoNode.Sym number k)) × IsCandidate names.entry.vars.now names.entry.syms.now names.entry.usable.now want n) }
{
    match names.syms.get(number as usize) {
        None => None,
        Some(sym) => {
            if is_marked(names.usable, number as usize) && suits(want, sym.result) {
                Some(FoNode::Sym(number, sym.args.len() as u32))
            } else {
                None
            }
        }
    }
}

/// The byte behind a node, where the one behind its term is given.
fn end_of(node: FoNode, after: u8) -> u8
    ensures { result ≡ node_end after node }
{
    match node {
        FoNode::Var(_) => after,
        FoNode::Sym(_, arguments) => { if arguments == 0 { after } else { b' ' } }
    }
}

fn stands_first(byte: u8, rest: &[u8]) -> bool
    ensures { IsTrue result ↔ StandsFirst byte rest.now }
{
    match rest.first() {
        None => false,
        Some(first) => *first == byte,
    }
}

/// The candidate with a letter and a number.
fn lettered(names: Names<'_>, want: Option<u32>, letter: u8, number: u32) -> Option<FoNode>
    requires few { AllByRecursion HasFewArgs names.syms.now }
    ensures { IfSome result (λ n. IsCandidate names.entry.vars.now names.entry.syms.now names.entry.usable.now want n × (node_word n ≡ letter ∷ decimal number)) }
{
    match letter {
        b'v' => var_at(names, want, number),
        b'f' => sym_at(names, want, number),
        _ => None,
    }
}

/// The node at the front, read at once.
fn quick_node<'a>(
    input: &'a [u8],
    names: Names<'_>,
    want: Option<u32>,
    after: u8,
) -> Option<(FoNode, &'a [u8])>
    requires few { AllByRecursion HasFewArgs names.syms.now }
    ensures candidate { IfSome result (λ x. IsCandidate names.entry.vars.now names.entry.syms.now names.entry.usable.now want x.0) }
    ensures ahead { IfSome result (λ x. IsAhead after input.now x.0 x.1.now) }
{
    let tail = behind_space(input)?;
    let (letter, digits) = tail.split_first()?;
    let (number, rest) = plain_number(digits)?;
    let node = lettered(names, want, *letter, number)?;
    if stands_first(end_of(node, after), rest) {
        Some((node, rest))
    } else {
        None
    }
}

/// The candidate at a number, the variables before the symbols.
fn candidate_at(names: Names<'_>, want: Option<u32>, at: usize) -> Option<FoNode>
    requires few { AllByRecursion HasFewArgs names.syms.now }
    requires within { at < length names.vars.now + length names.syms.now }
    requires numbered { (length names.vars.now < 2 ^ 32) × (length names.syms.now < 2 ^ 32) }
    ensures { MatchOption result ((n : FoNode) → StandsAt names.entry.vars.now at n → IsCandidate names.entry.vars.now names.entry.syms.now names.entry.usable.now want n → ⊥) (λ n. StandsAt names.entry.vars.now at n × IsCandidate names.entry.vars.now names.entry.syms.now names.entry.usable.now want n) }
{
    let vars = names.vars.len();
    if at < vars {
        var_at(names, want, at as u32)
    } else {
        sym_at(names, want, (at - vars) as u32)
    }
}

/// The bytes of a node with a space before it and the byte behind it.
fn spaced(alloc: Global, node: FoNode, after: u8) -> Result<Vec<u8>, AllocError>
    ensures { IfOk result (λ word. word.items ≡ spaced_node after node) }
{
    let mut word = Vec::new(alloc);
    word.push(b' ')?;
    write_node(node, &mut word)?;
    word.push(end_of(node, after))?;
    Ok(word)
}

/// How the candidate at a number compares with the input.
fn compared(
    alloc: Global,
    input: &[u8],
    names: Names<'_>,
    want: Option<u32>,
    after: u8,
    at: usize,
) -> Result<Found, AllocError>
    requires few { AllByRecursion HasFewArgs names.syms.now }
    requires within { at < length names.vars.now + length names.syms.now }
    requires numbered { (length names.vars.now < 2 ^ 32) × (length names.syms.now < 2 ^ 32) }
    ensures { IfOk result (IsFound names.entry.vars.now names.entry.syms.now names.entry.usable.now want after input.now at) }
{
    match candidate_at(names, want, at) {
        None => Ok(Found::Part(0)),
        Some(node) => {
            let word = spaced(alloc, node, after)?;
            let count = common(input, &word);
            if count == word.len() {
                Ok(Found::Whole(node, count))
            } else {
                Ok(Found::Part(count))
            }
        }
    }
}

pub(crate) fn larger(one: usize, other: usize) -> usize
    ensures { result ≡ max one other }
{
    if one < other { other } else { one }
}

/// The node at the front, sought among all candidates. The time is linear in their count.
fn sought_node<'a>(
    alloc: Global,
    input: &'a [u8],
    names: Names<'_>,
    want: Option<u32>,
    after: u8,
) -> Result<(FoNode, &'a [u8]), Stop>
    requires few { AllByRecursion HasFewArgs names.syms.now }
    requires numbered { (length names.vars.now < 2 ^ 32) × (length names.syms.now < 2 ^ 32) }
    ensures candidate { IfOk result (λ x. IsCandidate names.entry.vars.now names.entry.syms.now names.entry.usable.now want x.0) }
    ensures ahead { IfOk result (λ x. IsAhead after input.now x.0 x.1.now) }
    ensures refused { IfErr result (λ e. (n : FoNode) → IsCandidate names.entry.vars.now names.entry.syms.now names.entry.usable.now want n → IsStop (IsCandidate names.entry.vars.now names.entry.syms.now names.entry.usable.now want) (spaced_node after) input.now e) }
{
    let mut best = 0;
    for at in 0..names.vars.len() + names.syms.len() {
        match compared(alloc, input, names, want, after, at)? {
            Found::Whole(node, len) => {
                let (_, rest) = input.split_at(len - 1);
                return Ok((node, rest));
            }
            Found::Part(count) => best = larger(best, count),
        }
    }
    Err(Stop::At {
        left: input.len() - best,
    })
}

/// The node at the front.
pub(crate) fn node<'a>(
    alloc: Global,
    input: &'a [u8],
    names: Names<'_>,
    want: Option<u32>,
    after: u8,
) -> Result<(FoNode, &'a [u8]), Stop>
    requires few { AllByRecursion HasFewArgs names.syms.now }
    requires numbered { (length names.vars.now < 2 ^ 32) × (length names.syms.now < 2 ^ 32) }
    ensures candidate { IfOk result (λ x. IsCandidate names.entry.vars.now names.entry.syms.now names.entry.usable.now want x.0) }
    ensures ahead { IfOk result (λ x. IsAhead after input.now x.0 x.1.now) }
    ensures refused { IfErr result (λ e. (n : FoNode) → IsCandidate names.entry.vars.now names.entry.syms.now names.entry.usable.now want n → IsStop (IsCandidate names.entry.vars.now names.entry.syms.now names.entry.usable.now want) (spaced_node after) input.now e) }
{
    match quick_node(input, names, want, after) {
        Some(found) => Ok(found),
        None => sought_node(alloc, input, names, want, after),
    }
}
