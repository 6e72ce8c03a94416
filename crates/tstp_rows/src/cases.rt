//! The derivations that are printed.

ghost use Rattle.std.specs.Prelude.{◌<◌, length, IfOk, OnOk};
ghost use Rattle.leo_clause.specs.Typed.{AreLiteralsOf};
ghost use Rattle.leo_kernel.specs.Records.{AreStepsOf, AreTermsOfRule};
ghost use Rattle.leo_problem.specs.Loading.{AreClosedFormulas};
ghost use Rattle.leo_tstp.specs.Records.{AreSymbolsOf, IsSymbolOfRule};
ghost use Rattle.tstp_rows.specs.Given.{AreTermsIn};

use crate::given::Terms;
use crate::lines::{equal, put, put_over, unequal};
use leo_clause::{Half, Lit, LogicKind, Rule, Side, StepRecord};
use leo_items::Items;
use leo_problem::Hyp;
use leo_terms::{Bank, TermId, TyId};
use std::alloc::{AllocError, Global};

/// A derivation.
#[derive(Clone, Copy)]
pub(crate) enum Case {
    /// Six lines from the first two hypotheses.
    Refutation,
    /// The last hypothesis.
    Last,
    /// Each hypothesis.
    Assumed,
    /// A line by each rule.
    Rules,
    /// Two abbreviations.
    Abbreviations,
    /// No line.
    Nothing,
}

fn put_assumption(
    alloc: Global,
    bank: &Bank,
    lines: &mut Vec<StepRecord>,
    term: TermId,
    truth: TermId,
    hyp: u64,
) -> Result<(), AllocError>
    requires lines { AreStepsOf bank.now lines.old.items }
    requires symbols { AreSymbolsOf bank.now lines.old.items }
    requires term { term < length bank.now.terms }
    requires truth { truth < length bank.now.terms }
    ensures lines { OnOk result (AreStepsOf bank.now lines.new.items) }
    ensures symbols { OnOk result (AreSymbolsOf bank.now lines.new.items) }
{
    put(
        alloc,
        bank,
        lines,
        &[equal(term, truth)],
        Rule::Axiom { hyp },
    )
}

fn put_assumed(
    alloc: Global,
    bank: &Bank,
    lines: &mut Vec<StepRecord>,
    hyps: &[Hyp],
    truth: TermId,
) -> Result<(), AllocError>
    requires lines { AreStepsOf bank.now lines.old.items }
    requires symbols { AreSymbolsOf bank.now lines.old.items }
    requires hyps { AreClosedFormulas bank.now hyps.now }
    requires truth { truth < length bank.now.terms }
    ensures lines { OnOk result (AreStepsOf bank.now lines.new.items) }
    ensures symbols { OnOk result (AreSymbolsOf bank.now lines.new.items) }
{
    for number in 0..hyps.len() {
        let hyp = &hyps[number];
        put_assumption(alloc, bank, lines, hyp.term, truth, number as u64)?;
    }
    Ok(())
}

/// The opposite of the first hypothesis, the two clauses together, and the empty clause.
fn put_rest(
    alloc: Global,
    bank: &Bank,
    lines: &mut Vec<StepRecord>,
    terms: &Terms,
    term: TermId,
) -> Result<(), AllocError>
    requires lines { AreStepsOf bank.now lines.old.items }
    requires symbols { AreSymbolsOf bank.now lines.old.items }
    requires terms { AreTermsIn bank.now terms.now }
    requires term { term < length bank.now.terms }
    ensures lines { OnOk result (AreStepsOf bank.now lines.new.items) }
    ensures symbols { OnOk result (AreSymbolsOf bank.now lines.new.items) }
{
    let opposite = Rule::Logic {
        parent: 1,
        lit: 0,
        kind: LogicKind::Not,
        abbr: None,
    };
    put(alloc, bank, lines, &[equal(term, terms.falsity)], opposite)?;
    let conflict = Rule::Para {
        from: 0,
        lit: 0,
        side: Side::Left,
        target: 2,
        place: 0,
        place_side: Side::Left,
        path: Items::new(alloc),
    };
    let both = [equal(terms.truth, terms.falsity), unequal(term, term)];
    put(alloc, bank, lines, &both, conflict)?;
    put_drop(alloc, bank, lines, &[unequal(term, term)], 3)?;
    put_drop(alloc, bank, lines, &[], 4)
}

fn put_drop(
    alloc: Global,
    bank: &Bank,
    lines: &mut Vec<StepRecord>,
    lits: &[Lit],
    parent: u64,
) -> Result<(), AllocError>
    requires lines { AreStepsOf bank.now lines.old.items }
    requires symbols { AreSymbolsOf bank.now lines.old.items }
    requires lits { AreLiteralsOf bank.now lits.now }
    ensures lines { OnOk result (AreStepsOf bank.now lines.new.items) }
    ensures symbols { OnOk result (AreSymbolsOf bank.now lines.new.items) }
{
    put(alloc, bank, lines, lits, Rule::Drop { parent, lit: 0 })
}

fn put_refutation(
    alloc: Global,
    bank: &Bank,
    lines: &mut Vec<StepRecord>,
    terms: &Terms,
    hyps: &[Hyp],
) -> Result<(), AllocError>
    requires lines { AreStepsOf bank.now lines.old.items }
    requires symbols { AreSymbolsOf bank.now lines.old.items }
    requires terms { AreTermsIn bank.now terms.now }
    requires hyps { AreClosedFormulas bank.now hyps.now }
    ensures lines { OnOk result (AreStepsOf bank.now lines.new.items) }
    ensures symbols { OnOk result (AreSymbolsOf bank.now lines.new.items) }
{
    put_assumed(alloc, bank, lines, hyps, terms.truth)?;
    match hyps.first() {
        Some(hyp) => put_rest(alloc, bank, lines, terms, hyp.term),
        None => Ok(()),
    }
}

fn put_last(
    alloc: Global,
    bank: &Bank,
    lines: &mut Vec<StepRecord>,
    hyps: &[Hyp],
    truth: TermId,
) -> Result<(), AllocError>
    requires lines { AreStepsOf bank.now lines.old.items }
    requires symbols { AreSymbolsOf bank.now lines.old.items }
    requires hyps { AreClosedFormulas bank.now hyps.now }
    requires truth { truth < length bank.now.terms }
    ensures lines { OnOk result (AreStepsOf bank.now lines.new.items) }
    ensures symbols { OnOk result (AreSymbolsOf bank.now lines.new.items) }
{
    let Some(number) = hyps.len().checked_sub(1) else {
        return Ok(());
    };
    let hyp = &hyps[number];
    put_assumption(alloc, bank, lines, hyp.term, truth, number as u64)
}

/// A line by a rule, over a thing and a truth value.
fn put_by(
    alloc: Global,
    bank: &Bank,
    lines: &mut Vec<StepRecord>,
    terms: &Terms,
    rule: Rule,
) -> Result<(), AllocError>
    requires lines { AreStepsOf bank.now lines.old.items }
    requires symbols { AreSymbolsOf bank.now lines.old.items }
    requires terms { AreTermsIn bank.now terms.now }
    requires rule { AreTermsOfRule bank.now rule }
    requires symbol { IsSymbolOfRule bank.now rule }
    ensures lines { OnOk result (AreStepsOf bank.now lines.new.items) }
    ensures symbols { OnOk result (AreSymbolsOf bank.now lines.new.items) }
{
    bank.is_sound();
    let lits = [
        equal(terms.thing, terms.thing),
        unequal(terms.value, terms.truth),
    ];
    put_over(
        alloc,
        bank,
        lines,
        &[TyId::thing(), TyId::truth()],
        &lits,
        rule,
    )
}

fn put_logic(
    alloc: Global,
    bank: &Bank,
    lines: &mut Vec<StepRecord>,
    terms: &Terms,
    kind: LogicKind,
    abbr: Option<u64>,
) -> Result<(), AllocError>
    requires lines { AreStepsOf bank.now lines.old.items }
    requires symbols { AreSymbolsOf bank.now lines.old.items }
    requires terms { AreTermsIn bank.now terms.now }
    ensures lines { OnOk result (AreStepsOf bank.now lines.new.items) }
    ensures symbols { OnOk result (AreSymbolsOf bank.now lines.new.items) }
{
    let rule = Rule::Logic {
        parent: 7,
        lit: 8,
        kind,
        abbr,
    };
    put_by(alloc, bank, lines, terms, rule)
}

const KINDS: [LogicKind; 17] = [
    LogicKind::Not,
    LogicKind::OrT,
    LogicKind::OrF1,
    LogicKind::OrF2,
    LogicKind::AndT1,
    LogicKind::AndT2,
    LogicKind::AndF,
    LogicKind::ImpT,
    LogicKind::ImpF1,
    LogicKind::ImpF2,
    LogicKind::EqT,
    LogicKind::EqF,
    LogicKind::Flip,
    LogicKind::AllT,
    LogicKind::SomeF,
    LogicKind::AllF,
    LogicKind::SomeT,
];

fn put_kinds(
    alloc: Global,
    bank: &Bank,
    lines: &mut Vec<StepRecord>,
    terms: &Terms,
) -> Result<(), AllocError>
    requires lines { AreStepsOf bank.now lines.old.items }
    requires symbols { AreSymbolsOf bank.now lines.old.items }
    requires terms { AreTermsIn bank.now terms.now }
    ensures lines { OnOk result (AreStepsOf bank.now lines.new.items) }
    ensures symbols { OnOk result (AreSymbolsOf bank.now lines.new.items) }
{
    for kind in KINDS {
        put_logic(alloc, bank, lines, terms, kind, None)?;
    }
    put_logic(alloc, bank, lines, terms, LogicKind::AllF, Some(1))
}

/// A line by each rule with parts of its own.
fn put_places(
    alloc: Global,
    bank: &Bank,
    lines: &mut Vec<StepRecord>,
    terms: &Terms,
) -> Result<(), AllocError>
    requires lines { AreStepsOf bank.now lines.old.items }
    requires symbols { AreSymbolsOf bank.now lines.old.items }
    requires terms { AreTermsIn bank.now terms.now }
    ensures lines { OnOk result (AreStepsOf bank.now lines.new.items) }
    ensures symbols { OnOk result (AreSymbolsOf bank.now lines.new.items) }
{
    let sigma = Items::from_slice(alloc, &[terms.thing, terms.falsity])?;
    put_by(alloc, bank, lines, terms, Rule::Inst { parent: 1, sigma })?;
    let path = Items::from_slice(alloc, &[0, 1, 255])?;
    let rule = Rule::Para {
        from: 2,
        lit: 3,
        side: Side::Right,
        target: 18_446_744_073_709_551_615,
        place: 4_294_967_295,
        place_side: Side::Left,
        path,
    };
    put_by(alloc, bank, lines, terms, rule)
}

/// A line by each of the other rules.
fn put_plain(
    alloc: Global,
    bank: &Bank,
    lines: &mut Vec<StepRecord>,
    terms: &Terms,
    number: usize,
) -> Result<(), AllocError>
    requires lines { AreStepsOf bank.now lines.old.items }
    requires symbols { AreSymbolsOf bank.now lines.old.items }
    requires terms { AreTermsIn bank.now terms.now }
    ensures lines { OnOk result (AreStepsOf bank.now lines.new.items) }
    ensures symbols { OnOk result (AreSymbolsOf bank.now lines.new.items) }
{
    let (parent, lit) = (10, 11);
    let rule = match number {
        0 => Rule::Convert { parent },
        1 => Rule::Arrange { parent },
        2 => Rule::Drop { parent, lit },
        3 => Rule::BoolExt {
            parent,
            lit,
            half: Half::One,
        },
        4 => Rule::BoolExt {
            parent,
            lit,
            half: Half::Two,
        },
        5 => Rule::FuncExt {
            parent,
            lit,
            abbr: None,
        },
        6 => Rule::FuncExt {
            parent,
            lit,
            abbr: Some(3),
        },
        7 => Rule::Decompose { parent, lit },
        8 => Rule::Refl,
        9 => Rule::Choice,
        _ => Rule::Factor {
            parent,
            first: 12,
            second: 13,
        },
    };
    put_by(alloc, bank, lines, terms, rule)
}

fn put_rules(
    alloc: Global,
    bank: &Bank,
    lines: &mut Vec<StepRecord>,
    terms: &Terms,
) -> Result<(), AllocError>
    requires lines { AreStepsOf bank.now lines.old.items }
    requires symbols { AreSymbolsOf bank.now lines.old.items }
    requires terms { AreTermsIn bank.now terms.now }
    ensures lines { OnOk result (AreStepsOf bank.now lines.new.items) }
    ensures symbols { OnOk result (AreSymbolsOf bank.now lines.new.items) }
{
    put_places(alloc, bank, lines, terms)?;
    for number in 0..11 {
        put_plain(alloc, bank, lines, terms, number)?;
    }
    put_kinds(alloc, bank, lines, terms)
}

/// A line that abbreviates with a clause that begins with its symbol, one with another clause, and one with both symbols.
fn put_abbreviations(
    alloc: Global,
    bank: &Bank,
    lines: &mut Vec<StepRecord>,
    terms: &Terms,
) -> Result<(), AllocError>
    requires lines { AreStepsOf bank.now lines.old.items }
    requires symbols { AreSymbolsOf bank.now lines.old.items }
    requires terms { AreTermsIn bank.now terms.now }
    ensures lines { OnOk result (AreStepsOf bank.now lines.new.items) }
    ensures symbols { OnOk result (AreSymbolsOf bank.now lines.new.items) }
{
    let first = [equal(terms.first.term, terms.truth)];
    let symbol = terms.first.symbol;
    put(alloc, bank, lines, &first, Rule::Abbreviate { symbol })?;
    let symbol = terms.second.symbol;
    put(alloc, bank, lines, &first, Rule::Abbreviate { symbol })?;
    let both = [
        equal(terms.first.term, terms.first.term),
        unequal(terms.second.term, terms.second.term),
        equal(terms.truth, terms.falsity),
    ];
    put(alloc, bank, lines, &both, Rule::Refl)
}

fn put_case(
    alloc: Global,
    bank: &Bank,
    lines: &mut Vec<StepRecord>,
    terms: &Terms,
    hyps: &[Hyp],
    case: Case,
) -> Result<(), AllocError>
    requires lines { AreStepsOf bank.now lines.old.items }
    requires symbols { AreSymbolsOf bank.now lines.old.items }
    requires terms { AreTermsIn bank.now terms.now }
    requires hyps { AreClosedFormulas bank.now hyps.now }
    ensures lines { OnOk result (AreStepsOf bank.now lines.new.items) }
    ensures symbols { OnOk result (AreSymbolsOf bank.now lines.new.items) }
{
    match case {
        Case::Refutation => put_refutation(alloc, bank, lines, terms, hyps),
        Case::Last => put_last(alloc, bank, lines, hyps, terms.truth),
        Case::Assumed => put_assumed(alloc, bank, lines, hyps, terms.truth),
        Case::Rules => put_rules(alloc, bank, lines, terms),
        Case::Abbreviations => put_abbreviations(alloc, bank, lines, terms),
        Case::Nothing => Ok(()),
    }
}

/// The lines of a derivation.
pub(crate) fn lines_of(
    alloc: Global,
    bank: &Bank,
    terms: &Terms,
    hyps: &[Hyp],
    case: Case,
) -> Result<Vec<StepRecord>, AllocError>
    requires terms { AreTermsIn bank.now terms.now }
    requires hyps { AreClosedFormulas bank.now hyps.now }
    ensures lines { IfOk result (λ lines. AreStepsOf bank.now lines.items) }
    ensures symbols { IfOk result (λ lines. AreSymbolsOf bank.now lines.items) }
{
    let mut lines = Vec::new(alloc);
    put_case(alloc, bank, &mut lines, terms, hyps, case)?;
    Ok(lines)
}
