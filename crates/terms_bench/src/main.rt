//! Makes terms, as many as its word says, so that a script can time them.
#![tactic(auto)]

ghost use Rattle.std.specs.Prelude.{◌≡◌, ◌<◌, length, IfOk};
ghost use Rattle.leo_terms.specs.Contents.{IsArrow, Extends, type_number};

use leo_terms::{Bank, TermId, TyId};
use std::alloc::AllocError;
use std::env;
use std::process::ExitCode;
use std::rt::Env;

/// How many applications there are without a word.
const FEW: u32 = 1000;

// A function applied to a thing, to what that gives, and so on.
fn chain(bank: &mut Bank, count: u32) -> Result<TermId, AllocError>
    ensures { IfOk result (λ t. t < length bank.new.terms) }
{
    bank.is_sound();
    let thing = TyId::thing();
    let ty = bank.arrow(thing, thing)?;
    let f = bank.make_var(0, ty)?;
    let mut t = bank.make_var(1, thing)?;
    for _ in 0..count {
        t = next(bank, f, t)?;
    }
    Ok(t)
}

fn next(bank: &mut Bank, f: TermId, t: TermId) -> Result<TermId, AllocError>
    requires function { f < length bank.old.terms }
    requires argument { t < length bank.old.terms }
    requires from_things { IsArrow bank.old (type_number bank.old f) 1 1 }
    requires thing { type_number bank.old t ≡ 1 }
    ensures function { f < length bank.new.terms }
    ensures argument { IfOk result (λ r. r < length bank.new.terms) }
    ensures from_things { IsArrow bank.new (type_number bank.new f) 1 1 }
    ensures thing { IfOk result (λ r. type_number bank.new r ≡ 1) }
{
    bank.make_app(f, t)
}

// The weight of a chain, which is one more than the number of its functions.
fn weight_of_chain(bank: &mut Bank, count: u32) -> Result<u64, AllocError> {
    let t = chain(bank, count)?;
    Ok(bank.weight(t))
}

// The number in the first word.
fn count_of_words(rt: &(impl Env + AllocGlobal)) -> u32 {
    match env::args(rt) {
        Ok(mut args) => {
            let _program = args.next();
            match args.next() {
                Some(word) => word.as_str().parse::<u32>().unwrap_or(FEW),
                None => FEW,
            }
        }
        Err(_) => FEW,
    }
}

fn main(rt: HostRuntime) -> ExitCode {
    let count = count_of_words(&rt);
    let Ok(mut bank) = Bank::new(rt.alloc()) else {
        return ExitCode::FAILURE;
    };
    match weight_of_chain(&mut bank, count) {
        Ok(weight) => {
            let _ = println!(&rt; "a term of weight {weight}");
            ExitCode::SUCCESS
        }
        Err(_) => ExitCode::FAILURE,
    }
}
