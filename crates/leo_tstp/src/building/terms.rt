//! From the terms of a text to terms of a bank.
//!
//! What was read fits its place. Where a term did not, the answer would be a refusal.

ghost use Rattle.std.specs.Prelude.{◌≡◌, ◌<◌, ◌+◌, ◌++◌, ◌∷◌, [], ℕ, List, length, OnOk, IfOk, IfSome};
ghost use Rattle.leo_terms.specs.Contents.{Extends, HasTypeBelow};
ghost use Rattle.leo_clause.specs.Typed.{AreTypesOf};
ghost use Rattle.leo_tstp.specs.Built.{AreBothBuilt, IsBuilt, IsNumbering, IsSite};

use crate::building::making::{alone, applied, lambda, with_one, with_two};
use crate::building::numbers::{Numbers, symbol_numbered, type_numbered};
use crate::reading::trees::{Joint, Parsed, Quantifier, ROOM};
use crate::refusal::Stop;
use leo_terms::{Bank, Op, TermId, TyId, TyView};

/// A variable of the clause.
fn variable(bank: &mut Bank, variables: &[TyId], number: u32) -> Result<TermId, Stop>
    requires { AreTypesOf bank.old variables.now }
    ensures built { IfOk result (λ t. (s : List ℕ) → AreTypesOf bank.old s → IsBuilt bank.new variables.now s t) }
    ensures grows { Extends bank.old bank.new }
{
    bank.is_sound();
    let place = number as usize;
    if place >= variables.len() {
        return Err(Stop::Refused);
    }
    let t = bank.make_var(number, variables[place])?;
    Ok(t)
}

/// How many lambdas stand between a place and the lambda of that level.
fn index_of(scope: &[TyId], level: usize) -> Option<u32>
    requires { level < length scope.now }
    ensures { IfSome result (λ i. i + (level + 1) ≡ length scope.now) }
{
    u32::try_from(scope.len() - 1 - level).ok()
}

/// The variable of a lambda of that level.
fn level(bank: &mut Bank, scope: &[TyId], level: usize) -> Result<TermId, Stop>
    requires { AreTypesOf bank.old scope.now }
    ensures built { IfOk result (λ t. (vs : List ℕ) → AreTypesOf bank.old vs → IsBuilt bank.new vs scope.now t) }
    ensures grows { Extends bank.old bank.new }
{
    bank.is_sound();
    if level >= scope.len() {
        return Err(Stop::Refused);
    }
    let Some(index) = index_of(scope, level) else {
        return Err(Stop::Memory);
    };
    let t = bank.make_bound(index, scope[level])?;
    Ok(t)
}

/// The symbol of a place.
fn symbol(bank: &mut Bank, numbers: &Numbers, place: usize) -> Result<TermId, Stop>
    requires { IsNumbering bank.old numbers.now }
    ensures built { IfOk result (λ t. (vs s : List ℕ) → AreTypesOf bank.old vs → AreTypesOf bank.old s → IsBuilt bank.new vs s t) }
    ensures grows { Extends bank.old bank.new }
{
    bank.is_sound();
    let symbol = symbol_numbered(numbers, place)?;
    let t = bank.make_sym(symbol)?;
    Ok(t)
}

fn constant(bank: &mut Bank, value: bool) -> Result<TermId, Stop>
    ensures built { IfOk result (λ t. (vs s : List ℕ) → AreTypesOf bank.old vs → AreTypesOf bank.old s → IsBuilt bank.new vs s t) }
    ensures grows { Extends bank.old bank.new }
{
    if value {
        alone(bank, &Op::True)
    } else {
        alone(bank, &Op::False)
    }
}

/// Two terms with a connective between.
fn joined(bank: &mut Bank, joint: Joint, x: TermId, y: TermId) -> Result<TermId, Stop>
    requires first { x < length bank.old.terms }
    requires second { y < length bank.old.terms }
    ensures built { IfOk result (λ t. (vs s : List ℕ) → IsBuilt bank.old vs s x → IsBuilt bank.old vs s y → IsBuilt bank.new vs s t) }
    ensures grows { Extends bank.old bank.new }
{
    match joint {
        Joint::Or => with_two(bank, &Op::Or, x, y),
        Joint::And => with_two(bank, &Op::And, x, y),
        Joint::Implies => with_two(bank, &Op::Imp, x, y),
    }
}

/// An equation of two terms.
fn equated(bank: &mut Bank, x: TermId, y: TermId) -> Result<TermId, Stop>
    requires first { x < length bank.old.terms }
    requires second { y < length bank.old.terms }
    ensures built { IfOk result (λ t. (vs s : List ℕ) → IsBuilt bank.old vs s x → IsBuilt bank.old vs s y → IsBuilt bank.new vs s t) }
    ensures grows { Extends bank.old bank.new }
{
    let ty = bank.type_of(x);
    with_two(bank, &Op::Eq(ty), x, y)
}

fn quantifier_over(quantifier: Quantifier, ty: TyId) -> Op
    ensures { (n : ℕ) → ty < n → HasTypeBelow n result }
{
    match quantifier {
        Quantifier::All => Op::All(ty),
        Quantifier::Some => Op::Some(ty),
        Quantifier::Choice => Op::Eps(ty),
    }
}

/// A quantifier or choice over a set.
fn quantified(bank: &mut Bank, quantifier: Quantifier, set: TermId) -> Result<TermId, Stop>
    requires { set < length bank.old.terms }
    ensures built { IfOk result (λ t. (vs s : List ℕ) → IsBuilt bank.old vs s set → IsBuilt bank.new vs s t) }
    ensures grows { Extends bank.old bank.new }
{
    bank.is_sound();
    let ty = bank.type_of(set);
    match bank.view_ty(ty) {
        TyView::Arrow(of, _) => with_one(bank, &quantifier_over(quantifier, of), set),
        TyView::Base(_) => Err(Stop::Refused),
    }
}

/// How many levels a term has that was read: twice as many as its brackets, which a quantifier and its lambda share, and
/// one more for an equation.
pub(crate) const LEVELS: u32 = 2 * ROOM + 2;

/// A term, under the variables of the lambdas around. Goes at most `room` levels down.
#[cycle(building)]
pub(crate) fn build(
    bank: &mut Bank,
    numbers: &Numbers,
    variables: &[TyId],
    scope: &mut Vec<TyId>,
    term: &Parsed,
    room: u32,
) -> Result<TermId, Stop>
    requires { IsSite bank.old numbers.now variables.now scope.old.items }
    ensures built { IfOk result (IsBuilt bank.new variables.now scope.old.items) }
    ensures scope { OnOk result (scope.new.items ≡ scope.old.items) }
    ensures grows { Extends bank.old bank.new }
{
    bank.is_sound();
    let Some(room) = room.checked_sub(1) else {
        return Err(Stop::Memory);
    };
    match term {
        Parsed::Variable(number) => {
            let t = variable(bank, variables, *number)?;
            Ok(t)
        }
        Parsed::Level(place) => {
            let t = level(bank, scope.as_slice(), *place)?;
            Ok(t)
        }
        Parsed::Symbol(place) => {
            let t = symbol(bank, numbers, *place)?;
            Ok(t)
        }
        Parsed::Truth(value) => {
            let t = constant(bank, *value)?;
            Ok(t)
        }
        Parsed::Apply(f, x) => {
            let (f, x) = both(bank, numbers, variables, scope, f.get(), x.get(), room)?;
            let t = applied(bank, f, x)?;
            Ok(t)
        }
        Parsed::Join(joint, x, y) => {
            let (x, y) = both(bank, numbers, variables, scope, x.get(), y.get(), room)?;
            let t = joined(bank, *joint, x, y)?;
            Ok(t)
        }
        Parsed::Equal(x, y) => {
            let (x, y) = both(bank, numbers, variables, scope, x.get(), y.get(), room)?;
            let t = equated(bank, x, y)?;
            Ok(t)
        }
        Parsed::Not(x) => {
            let x = build(bank, numbers, variables, scope, x.get(), room)?;
            let t = with_one(bank, &Op::Not, x)?;
            Ok(t)
        }
        Parsed::Quantify(quantifier, set) => {
            let set = build(bank, numbers, variables, scope, set.get(), room)?;
            let t = quantified(bank, *quantifier, set)?;
            Ok(t)
        }
        Parsed::Lambda(place, body) => {
            let ty = type_numbered(numbers, *place)?;
            let body = under(bank, numbers, variables, scope, ty, body.get(), room)?;
            let t = lambda(bank, ty, body)?;
            Ok(t)
        }
    }
}

/// Two terms.
#[cycle(building)]
pub(crate) fn both(
    bank: &mut Bank,
    numbers: &Numbers,
    variables: &[TyId],
    scope: &mut Vec<TyId>,
    first: &Parsed,
    second: &Parsed,
    room: u32,
) -> Result<(TermId, TermId), Stop>
    requires { IsSite bank.old numbers.now variables.now scope.old.items }
    ensures built { IfOk result (λ p. AreBothBuilt bank.new variables.now scope.old.items p.0 p.1) }
    ensures scope { OnOk result (scope.new.items ≡ scope.old.items) }
    ensures grows { Extends bank.old bank.new }
{
    let x = build(bank, numbers, variables, scope, first, room)?;
    let y = build(bank, numbers, variables, scope, second, room)?;
    Ok((x, y))
}

/// A body under the variable of one more lambda.
#[cycle(building)]
fn under(
    bank: &mut Bank,
    numbers: &Numbers,
    variables: &[TyId],
    scope: &mut Vec<TyId>,
    ty: TyId,
    body: &Parsed,
    room: u32,
) -> Result<TermId, Stop>
    requires site { IsSite bank.old numbers.now variables.now scope.old.items }
    requires ty { ty < length bank.old.types }
    ensures built { IfOk result (IsBuilt bank.new variables.now (scope.old.items ++ ty ∷ [])) }
    ensures scope { OnOk result (scope.new.items ≡ scope.old.items) }
    ensures grows { Extends bank.old bank.new }
{
    bank.is_sound();
    scope.push(ty)?;
    let t = build(bank, numbers, variables, scope, body, room)?;
    let _ = scope.pop();
    Ok(t)
}
