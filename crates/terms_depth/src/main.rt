//! Makes terms that are too deep, or whose normal forms are too large, and says how the bank answers.
#![tactic(auto)]

ghost use Rattle.std.specs.Prelude.{◌≡◌, ◌<◌, length, IfOk};
ghost use Rattle.leo_terms.specs.Contents.{IsArrow, Extends, AreTerms, IsTerm, type_at, tree_at, type_number};
ghost use Rattle.leo_terms.specs.Tree.{app, bound};

use leo_terms::{Bank, TermId, TyId};
use std::alloc::{AllocError, Global};
use std::process::ExitCode;

/// How many functions stand over one another in the deep term.
const MILLION: u32 = 1_000_000;

/// How often the numeral 2 is squared: the normal form of 2 to the power 32 has that depth.
const SQUARES: u32 = 5;

/// How a call that takes memory ended.
#[derive(Clone, Copy)]
enum Outcome {
    Made,
    WantsMemory,
}

// A function applied to a loose index, to what that gives, and so on.
fn chain(bank: &mut Bank, count: u32) -> Result<TermId, AllocError>
    ensures { IfOk result (λ t. t < length bank.new.terms) }
{
    bank.is_sound();
    let thing = TyId::thing();
    let ty = bank.arrow(thing, thing)?;
    let f = bank.make_var(0, ty)?;
    let mut t = bank.make_bound(0, thing)?;
    for _ in 0..count {
        t = next(bank, f, t)?;
    }
    Ok(t)
}

fn next(bank: &mut Bank, f: TermId, t: TermId) -> Result<TermId, AllocError>
    requires function { f < length bank.old.terms }
    requires argument { t < length bank.old.terms }
    requires from_things { IsArrow bank.old (type_number bank.old f) 1 1 }
    requires thing { type_number bank.old t ≡ 1 }
    ensures function { f < length bank.new.terms }
    ensures argument { IfOk result (λ r. r < length bank.new.terms) }
    ensures from_things { IsArrow bank.new (type_number bank.new f) 1 1 }
    ensures thing { IfOk result (λ r. type_number bank.new r ≡ 1) }
{
    bank.make_app(f, t)
}

// A function from a type to itself, applied to a thing of that type.
fn apply(bank: &mut Bank, ty: TyId, f: TermId, t: TermId) -> Result<TermId, AllocError>
    requires function { f < length bank.old.terms }
    requires argument { t < length bank.old.terms }
    requires from_itself { IsArrow bank.old (type_number bank.old f) ty ty }
    requires thing { type_number bank.old t ≡ ty }
    ensures made { IfOk result (λ r. IsTerm bank.new r ty (app (tree_at bank.old f) (tree_at bank.old t))) }
    ensures grows { Extends bank.old bank.new }
{
    let _ = ty;
    bank.make_app(f, t)
}

// The index 1 applied to what it gives for the index 0, which is of this type.
fn applied_twice(bank: &mut Bank, ty: TyId, from: TyId) -> Result<TermId, AllocError>
    requires within { ty < length bank.old.types }
    requires arrow { IsArrow bank.old from ty ty }
    requires from_within { from < length bank.old.types }
    ensures made { IfOk result (λ r. IsTerm bank.new r ty (app (bound 1 (type_at bank.old from)) (app (bound 1 (type_at bank.old from)) (bound 0 (type_at bank.old ty))))) }
    ensures grows { IfOk result (λ r. Extends bank.old bank.new) }
{
    let f = bank.make_bound(1, from)?;
    let x = bank.make_bound(0, ty)?;
    let once = apply(bank, ty, f, x)?;
    let twice = apply(bank, ty, f, once)?;
    Ok(twice)
}

// The Church numeral 2 over a type.
fn two(bank: &mut Bank, ty: TyId) -> Result<TermId, AllocError>
    requires { ty < length bank.old.types }
    ensures within { IfOk result (λ r. r < length bank.new.terms) }
    ensures grows { IfOk result (λ r. Extends bank.old bank.new) }
{
    let from = bank.arrow(ty, ty)?;
    let body = applied_twice(bank, ty, from)?;
    let function = bank.make_lam(ty, body)?;
    let numeral = bank.make_lam(from, function)?;
    Ok(numeral)
}

// A numeral applied to another, to what that gives, and so on, as far as it may be applied.
fn numerals(
    bank: &mut Bank,
    square: TermId,
    number: TermId,
    count: u32,
) -> Result<TermId, AllocError>
    requires square { square < length bank.old.terms }
    requires number { number < length bank.old.terms }
    ensures within { IfOk result (λ r. r < length bank.new.terms) }
{
    let mut t = number;
    for _ in 0..count {
        t = applied_if_it_may(bank, square, t)?;
    }
    Ok(t)
}

fn applied_if_it_may(bank: &mut Bank, f: TermId, t: TermId) -> Result<TermId, AllocError>
    requires function { f < length bank.old.terms }
    requires argument { t < length bank.old.terms }
    ensures function { f < length bank.new.terms }
    ensures within { IfOk result (λ r. r < length bank.new.terms) }
{
    if bank.is_applicable(f, t) {
        return bank.make_app(f, t);
    }
    Ok(t)
}

// The numeral 2 squared as often as it says, not reduced: each 2 in it weighs 5.
fn squared(bank: &mut Bank, count: u32) -> Result<TermId, AllocError>
    ensures within { IfOk result (λ r. r < length bank.new.terms) }
{
    bank.is_sound();
    let thing = TyId::thing();
    let number = two(bank, thing)?;
    let function = bank.arrow(thing, thing)?;
    let square = two(bank, function)?;
    numerals(bank, square, number, count)
}

fn weight_of_squared(bank: &mut Bank) -> Result<u64, AllocError> {
    let t = squared(bank, SQUARES)?;
    Ok(bank.weight(t))
}

fn normal_of_squared(bank: &mut Bank, count: u32) -> Result<Outcome, AllocError> {
    let t = squared(bank, count)?;
    Ok(outcome_of(bank.normal(t)))
}

// The weight of a small term in the part of the bank that has it alone.
fn weight_in_part(alloc: Global, bank: &mut Bank) -> Result<u64, AllocError> {
    let t = chain(bank, 2)?;
    let (part, numbers) = bank.part(alloc, &[t])?;
    Ok(weight_of_first(&part, &numbers))
}

fn weight_of_first(bank: &Bank, terms: &[TermId]) -> u64
    requires { AreTerms bank.now terms.now }
{
    match terms.first() {
        Some(t) => bank.weight(*t),
        None => 0,
    }
}

fn may_function_be_applied(bank: &mut Bank) -> Result<bool, AllocError> {
    bank.is_sound();
    let thing = TyId::thing();
    let ty = bank.arrow(thing, thing)?;
    let f = bank.make_var(0, ty)?;
    let x = bank.make_var(1, thing)?;
    Ok(bank.is_applicable(f, x))
}

fn may_thing_be_applied(bank: &mut Bank) -> Result<bool, AllocError> {
    bank.is_sound();
    let x = bank.make_var(1, TyId::thing())?;
    Ok(bank.is_applicable(x, x))
}

fn outcome_of(made: Result<TermId, AllocError>) -> Outcome {
    match made {
        Ok(_) => Outcome::Made,
        Err(_) => Outcome::WantsMemory,
    }
}

// The weight of the deep term, which is one more than the number of its functions.
fn weight_of_deep(bank: &mut Bank) -> Result<u64, AllocError> {
    let t = chain(bank, MILLION)?;
    Ok(bank.weight(t))
}

fn normal_of_deep(bank: &mut Bank) -> Result<Outcome, AllocError> {
    let t = chain(bank, MILLION)?;
    Ok(outcome_of(bank.normal(t)))
}

fn lift_of_deep(bank: &mut Bank) -> Result<Outcome, AllocError> {
    let t = chain(bank, MILLION)?;
    Ok(outcome_of(bank.lift(t, 1)))
}

// One line for one answer.
fn tell(rt: &impl Print, call: &str, answer: Result<Outcome, AllocError>) {
    match answer {
        Ok(Outcome::Made) => {
            let _ = println!(rt; "{call} is made");
        }
        Ok(Outcome::WantsMemory) => {
            let _ = println!(rt; "{call} wants memory");
        }
        Err(_) => {
            let _ = println!(rt; "{call}: no memory for the term");
        }
    }
}

fn tell_weight(rt: &impl Print, term: &str, answer: Result<u64, AllocError>) {
    match answer {
        Ok(weight) => {
            let _ = println!(rt; "{term}: made, of weight {weight}");
        }
        Err(_) => {
            let _ = println!(rt; "{term}: no memory for the term");
        }
    }
}

fn tell_whether(rt: &impl Print, what: &str, answer: Result<bool, AllocError>) {
    match answer {
        Ok(true) => {
            let _ = println!(rt; "{what} may be applied to a thing");
        }
        Ok(false) => {
            let _ = println!(rt; "{what} may not be applied to a thing");
        }
        Err(_) => {
            let _ = println!(rt; "{what}: no memory for the term");
        }
    }
}

fn main(rt: HostRuntime) -> ExitCode {
    let Ok(mut bank) = Bank::new(rt.alloc()) else {
        return ExitCode::FAILURE;
    };
    tell_weight(&rt, "a million deep", weight_of_deep(&mut bank));
    tell(&rt, "a million deep: normal", normal_of_deep(&mut bank));
    tell(&rt, "a million deep: lift", lift_of_deep(&mut bank));
    tell_weight(&rt, "2 squared five times", weight_of_squared(&mut bank));
    tell(
        &rt,
        "2 squared twice: normal",
        normal_of_squared(&mut bank, 2),
    );
    tell(
        &rt,
        "2 squared five times: normal",
        normal_of_squared(&mut bank, SQUARES),
    );
    tell_weight(
        &rt,
        "a term in its part",
        weight_in_part(rt.alloc(), &mut bank),
    );
    tell_whether(
        &rt,
        "a function of things",
        may_function_be_applied(&mut bank),
    );
    tell_whether(&rt, "a thing", may_thing_be_applied(&mut bank));
    ExitCode::SUCCESS
}
