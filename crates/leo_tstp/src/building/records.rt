//! From the lines of a text to records.

ghost use Rattle.std.specs.Prelude.{◌≡◌, ◌<◌, [], length, option_to_list, None, Some, OnOk, IfOk, IfSome};
ghost use Rattle.leo_terms.specs.Contents.{Contents, Extends, AreTerms};
ghost use Rattle.leo_clause.specs.Typed.{AreTypesOf, IsTypedIn};
ghost use Rattle.leo_tstp.specs.Read.{IsLineRead, IsRuleRead};
ghost use Rattle.leo_tstp.specs.Built.{IsLiteralBuilt, IsNumbering, IsRuleBuilt, IsSite, IsStepBuilt};
ghost use Rattle.leo_tstp.specs.NewSymbols.{introduced_by};

use crate::building::numbers::{Numbers, type_numbered};
use crate::building::terms::{LEVELS, both, build};
use crate::reading::trees::{Parsed, ParsedLine, ParsedLiteral, ParsedRule};
use crate::refusal::Stop;
use leo_clause::{Clause, Lit, Rule, StepRecord};
use leo_items::Items;
use leo_terms::{Bank, SymId, TermId, TyId};
use std::alloc::Global;

/// The types of places.
fn types_of(alloc: Global, numbers: &Numbers, places: &[usize]) -> Result<Vec<TyId>, Stop>
    ensures { IfOk result (λ v. (c : Contents) → IsNumbering c numbers.now → AreTypesOf c v.items) }
{
    let mut found = Vec::new(alloc);
    for place in places {
        let ty = type_numbered(numbers, *place)?;
        found.push(ty)?;
    }
    Ok(found)
}

fn literal(
    alloc: Global,
    bank: &mut Bank,
    numbers: &Numbers,
    variables: &[TyId],
    parsed: &ParsedLiteral,
) -> Result<Lit, Stop>
    requires { IsSite bank.old numbers.now variables.now [] }
    ensures built { IfOk result (IsLiteralBuilt bank.new variables.now) }
    ensures grows { Extends bank.old bank.new }
{
    let mut scope = Vec::new(alloc);
    let (left, right) = both(
        bank,
        numbers,
        variables,
        &mut scope,
        &parsed.left,
        &parsed.right,
        LEVELS,
    )?;
    if bank.type_of(left) == bank.type_of(right) {
        Ok(Lit {
            pos: parsed.positive,
            left,
            right,
        })
    } else {
        Err(Stop::Refused)
    }
}

fn clause(
    alloc: Global,
    bank: &mut Bank,
    numbers: &Numbers,
    variables: &[TyId],
    literals: &[ParsedLiteral],
) -> Result<Clause, Stop>
    requires { IsSite bank.old numbers.now variables.now [] }
    ensures typed { IfOk result (IsTypedIn bank.new) }
    ensures grows { Extends bank.old bank.new }
{
    bank.is_sound();
    let vars = Items::from_slice(alloc, variables)?;
    let mut lits = Items::new(alloc);
    for parsed in literals {
        let lit = literal(alloc, bank, numbers, variables, parsed)?;
        lits.push(lit)?;
    }
    Ok(Clause { vars, lits })
}

/// A term that stands in no lambda.
fn outer(
    alloc: Global,
    bank: &mut Bank,
    numbers: &Numbers,
    variables: &[TyId],
    parsed: &Parsed,
) -> Result<TermId, Stop>
    requires { IsSite bank.old numbers.now variables.now [] }
    ensures within { IfOk result (λ t. t < length bank.new.terms) }
    ensures grows { Extends bank.old bank.new }
{
    let mut scope = Vec::new(alloc);
    let t = build(bank, numbers, variables, &mut scope, parsed, LEVELS)?;
    Ok(t)
}

fn terms(
    alloc: Global,
    bank: &mut Bank,
    numbers: &Numbers,
    variables: &[TyId],
    sigma: &[Parsed],
) -> Result<Items<TermId>, Stop>
    requires { IsSite bank.old numbers.now variables.now [] }
    ensures terms { IfOk result (AreTerms bank.new) }
    ensures grows { Extends bank.old bank.new }
{
    bank.is_sound();
    let mut found = Items::new(alloc);
    for parsed in sigma {
        let t = outer(alloc, bank, numbers, variables, parsed)?;
        found.push(t)?;
    }
    Ok(found)
}

fn want_none(symbol: Option<SymId>) -> Result<(), Stop>
    ensures { OnOk result (symbol ≡ None) }
{
    match symbol {
        None => Ok(()),
        Some(_) => Err(Stop::Refused),
    }
}

fn want_some(symbol: Option<SymId>) -> Result<SymId, Stop>
    ensures { IfOk result (λ s. symbol ≡ Some s) }
{
    match symbol {
        None => Err(Stop::Refused),
        Some(symbol) => Ok(symbol),
    }
}

/// A rule, where the symbol is that whose type stands before the line.
fn rule_of(
    alloc: Global,
    bank: &mut Bank,
    numbers: &Numbers,
    variables: &[TyId],
    parsed: ParsedRule,
    symbol: Option<SymId>,
) -> Result<Rule, Stop>
    requires site { IsSite bank.old numbers.now variables.now [] }
    requires read { IsRuleRead parsed }
    requires symbol { IfSome symbol (λ s. s < length bank.old.symbols) }
    ensures built { IfOk result (IsRuleBuilt bank.new) }
    ensures introduced { IfOk result (λ r. introduced_by r ≡ option_to_list symbol) }
    ensures grows { Extends bank.old bank.new }
{
    bank.is_sound();
    match parsed {
        ParsedRule::Plain(rule) => {
            want_none(symbol)?;
            Ok(rule)
        }
        ParsedRule::Inst { parent, sigma } => {
            want_none(symbol)?;
            let sigma = terms(alloc, bank, numbers, variables, &sigma)?;
            Ok(Rule::Inst { parent, sigma })
        }
        ParsedRule::Abbreviate => {
            let symbol = want_some(symbol)?;
            Ok(Rule::Abbreviate { symbol })
        }
    }
}

/// A line over variables of these types, where the symbol is that whose type stands before it.
pub(crate) fn record_of(
    alloc: Global,
    bank: &mut Bank,
    numbers: &Numbers,
    places: &[usize],
    line: ParsedLine,
    symbol: Option<SymId>,
) -> Result<StepRecord, Stop>
    requires numbering { IsNumbering bank.old numbers.now }
    requires read { IsLineRead line }
    requires symbol { IfSome symbol (λ s. s < length bank.old.symbols) }
    ensures built { IfOk result (IsStepBuilt bank.new) }
    ensures introduced { IfOk result (λ r. introduced_by r.rule ≡ option_to_list symbol) }
    ensures grows { Extends bank.old bank.new }
{
    bank.is_sound();
    let variables = types_of(alloc, numbers, places)?;
    let clause = clause(alloc, bank, numbers, &variables, &line.literals)?;
    let rule = rule_of(alloc, bank, numbers, &variables, line.rule, symbol)?;
    Ok(StepRecord { clause, rule })
}
