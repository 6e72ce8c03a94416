//! The step lines of clauses.

ghost use Rattle.std.specs.Prelude.{◌≡◌, ◌<◌, ◌+◌, ◌-◌, ◌++◌, ◌∷◌, [], ℕ, length, map, slice_index, IfOk, OnOk};
ghost use Rattle.fo_terms.specs.Prefix.{prefix, prefix_of_all};
ghost use Rattle.fo_text.specs.declared.answer.FoWord.TheVariants as word;
ghost use Rattle.fo_replay.specs.Instances.{as_terms};
ghost use Rattle.fo_replay.specs.Replays.{instance_words, node_as_word};
ghost use Rattle.fo_super.specs.Conclusions.{constraint_place, line_count, lines, turn as turn_of};
ghost use Rattle.fo_super.specs.Turns.{concluded};
ghost use Rattle.fo_super.specs.Viewing.{member_of};
ghost use Rattle.fo_prove.specs.Refutations.{literals_of, IsParent};

use fo_super::member::FoMember;
use fo_terms::term::{FoNode, FoTerm};
use fo_text::answer::{FoSide, FoStep, FoWord};
use fo_text::problem::FoClause;
use sqlite_items::Items;
use std::alloc::{AllocError, Global};

/// The word of a node.
fn word_of(node: FoNode) -> FoWord
    ensures { result ≡ node_as_word node }
{
    match node {
        FoNode::Var(variable) => FoWord::Var(variable),
        FoNode::Sym(symbol, _) => FoWord::Sym(symbol),
    }
}

/// Puts the words of a term at the end.
fn push_term(term: &FoTerm, words: &mut Items<FoWord>) -> Result<(), AllocError>
    ensures { OnOk result (words.new ≡ words.old ++ map node_as_word (prefix term.now)) }
{
    for node in term.nodes() {
        words.push(word_of(*node))?;
    }
    Ok(())
}

/// Puts the words of terms at the end.
fn push_terms(terms: &[FoTerm], words: &mut Items<FoWord>) -> Result<(), AllocError>
    ensures { OnOk result (words.new ≡ words.old ++ map node_as_word (prefix_of_all (as_terms terms.now))) }
{
    for term in terms {
        push_term(term, words)?;
    }
    Ok(())
}

/// Puts numbers at the end.
pub(crate) fn push_numbers(numbers: &[u32], words: &mut Items<FoWord>) -> Result<(), AllocError>
    ensures { OnOk result (words.new ≡ words.old ++ map word.Number numbers.now) }
{
    for number in numbers {
        words.push(FoWord::Number(*number))?;
    }
    Ok(())
}

/// How many there are, as a number of 32 bits.
pub(crate) fn count_of(numbers: &[u32]) -> Result<u32, AllocError>
    ensures { IfOk result (λ n. n ≡ length numbers.now) }
{
    let count = numbers.len();
    if count > 0xffff_ffff {
        Err(AllocError)
    } else {
        Ok(count as u32)
    }
}

/// The words of an instance.
fn words_of(alloc: Global, vars: &[u32], terms: &[FoTerm]) -> Result<Items<FoWord>, AllocError>
    ensures { IfOk result (λ ws. ws ≡ instance_words vars.now (as_terms terms.now)) }
{
    let mut words = Items::new(alloc);
    words.push(FoWord::Number(count_of(vars)?))?;
    push_numbers(vars, &mut words)?;
    push_terms(terms, &mut words)?;
    Ok(words)
}

/// The side to which the second literal of a factoring is turned.
fn turn(side: FoSide, other: FoSide) -> FoSide
    ensures { result ≡ turn_of side other }
{
    match (side, other) {
        (FoSide::Left, FoSide::Left) => FoSide::Left,
        (FoSide::Left, FoSide::Right) => FoSide::Right,
        (FoSide::Right, FoSide::Left) => FoSide::Right,
        (FoSide::Right, FoSide::Right) => FoSide::Left,
    }
}

/// The place of the constraint of a factoring in a clause of so many literals.
fn place_of(side: FoSide, literals: u32) -> u32
    ensures { result ≡ constraint_place side literals }
{
    match side {
        FoSide::Left => literals.saturating_sub(1),
        FoSide::Right => literals,
    }
}

/// A sum, if it has 32 bits.
pub(crate) fn sum_of(one: u32, other: u32) -> Result<u32, AllocError>
    ensures { IfOk result (λ n. n ≡ one + other) }
{
    match one.checked_add(other) {
        Some(sum) => Ok(sum),
        None => Err(AllocError),
    }
}

/// How many literals a clause has.
fn literal_count(clauses: &[FoClause], number: u32) -> Result<u32, AllocError>
    requires { number < length clauses.now }
    ensures { IfOk result (λ n. n ≡ literals_of clauses.now number) }
{
    let clause = &clauses[number as usize];
    let count = clause.lits.len();
    if count > 0xffff_ffff {
        Err(AllocError)
    } else {
        Ok(count as u32)
    }
}

/// The number of the last line of a clause.
fn line_of(last: &[u32], number: u32) -> u32
    requires { number < length last.now }
    ensures { result ≡ slice_index last.now number }
{
    last[number as usize]
}

/// The line of an instance, and the line that drops a literal.
fn two_lines(
    alloc: Global,
    parent: u32,
    next: u32,
    place: u32,
    vars: &[u32],
    terms: &[FoTerm],
) -> Result<Items<FoStep>, AllocError>
    ensures { IfOk result (λ steps. steps ≡ FoStep.Inst parent (instance_words vars.now (as_terms terms.now)) ∷ FoStep.Drop next place ∷ []) }
{
    let words = words_of(alloc, vars, terms)?;
    let mut steps = Items::new(alloc);
    steps.push(FoStep::Inst { parent, words })?;
    steps.push(FoStep::Drop {
        parent: next,
        lit: place,
    })?;
    Ok(steps)
}

/// A first line, the line of an instance of its clause, and the line that drops a literal.
fn three_lines(
    alloc: Global,
    first: FoStep,
    next: u32,
    place: u32,
    vars: &[u32],
    terms: &[FoTerm],
) -> Result<Items<FoStep>, AllocError>
    ensures { IfOk result (λ steps. steps ≡ first ∷ FoStep.Inst next (instance_words vars.now (as_terms terms.now)) ∷ FoStep.Drop (next + 1) place ∷ []) }
{
    let more = two_lines(alloc, next, sum_of(next, 1)?, place, vars, terms)?;
    let mut steps = Items::new(alloc);
    steps.push(first)?;
    steps.append(more)?;
    Ok(steps)
}

/// The place of the constraint of a superposition.
fn superposed_place(clauses: &[FoClause], from: u32, into: u32) -> Result<u32, AllocError>
    requires from { from < length clauses.now }
    requires into { into < length clauses.now }
    ensures { IfOk result (λ n. n ≡ literals_of clauses.now from - 1 + literals_of clauses.now into) }
{
    let before = literal_count(clauses, from)?;
    let behind = literal_count(clauses, into)?;
    sum_of(before.saturating_sub(1), behind)
}

/// The place of the constraint of a factoring.
fn factored_place(clauses: &[FoClause], clause: u32, side: FoSide) -> Result<u32, AllocError>
    requires { clause < length clauses.now }
    ensures { IfOk result (λ n. n ≡ constraint_place side (literals_of clauses.now clause)) }
{
    let count = literal_count(clauses, clause)?;
    Ok(place_of(side, count))
}

/// The lines of a member, from the number of the first on, with the number of the last line of each clause before.
pub(crate) fn lines_of(
    alloc: Global,
    clauses: &[FoClause],
    last: &[u32],
    next: u32,
    member: &FoMember,
    vars: &[u32],
    terms: &[FoTerm],
) -> Result<Items<FoStep>, AllocError>
    requires lines { (m : ℕ) → IsParent (concluded (member_of member.now) vars.now (as_terms terms.now)) m → m < length last.now }
    requires clauses { (m : ℕ) → IsParent (concluded (member_of member.now) vars.now (as_terms terms.now)) m → m < length clauses.now }
    ensures { IfOk result (λ steps. steps ≡ lines (slice_index last.now) (literals_of clauses.now) next (member_of member.now) vars.now (as_terms terms.now)) }
{
    match member {
        FoMember::Resolve { clause, literal } => {
            let line = line_of(last, *clause);
            let r = two_lines(alloc, line, next, *literal, vars, terms)?;
            Ok(r)
        }
        FoMember::Factor {
            clause,
            first,
            first_side,
            second,
            second_side,
        } => {
            let place = factored_place(clauses, *clause, *first_side)?;
            let step = FoStep::Factor {
                parent: line_of(last, *clause),
                first: *first,
                second: *second,
                side: turn(*first_side, *second_side),
            };
            let r = three_lines(alloc, step, next, place, vars, terms)?;
            Ok(r)
        }
        FoMember::Superpose {
            from,
            literal,
            side,
            into,
            place,
            place_side,
            path,
        } => {
            let dropped = superposed_place(clauses, *from, *into)?;
            let path = Items::from_slice(alloc, path.as_slice())?;
            let step = FoStep::Para {
                from: line_of(last, *from),
                lit: *literal,
                side: *side,
                target: line_of(last, *into),
                place: *place,
                place_side: *place_side,
                path,
            };
            let r = three_lines(alloc, step, next, dropped, vars, terms)?;
            Ok(r)
        }
    }
}

/// How many lines a member has.
pub(crate) fn count_lines(member: &FoMember) -> u32
    ensures count { result ≡ line_count (member_of member.now) }
    ensures some { 0 < result }
{
    match member {
        FoMember::Resolve { .. } => 2,
        FoMember::Factor { .. } => 3,
        FoMember::Superpose { .. } => 3,
    }
}
