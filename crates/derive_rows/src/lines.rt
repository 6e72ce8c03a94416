//! Lines of derivations, appended one after the other.

ghost use Rattle.std.specs.Prelude.{◌≡◌, ◌<◌, length, true, false, OnOk};
ghost use Rattle.leo_clause.specs.Typed.{AreLiteralsOf};
ghost use Rattle.leo_kernel.specs.Records.{AreStepsOf, AreTermsOfRule};
ghost use Rattle.derive_rows.specs.Given.{AreTermsIn};

use crate::given::{Name, Terms};
use leo_clause::{Clause, Lit, LogicKind, Rule, Side, StepRecord};
use leo_items::Items;
use leo_terms::{Bank, TermId};
use std::alloc::{AllocError, Global};

fn equal(left: TermId, right: TermId) -> Lit
    ensures { result ≡ record { pos = true; left = left; right = right } }
{
    Lit {
        pos: true,
        left,
        right,
    }
}

fn unequal(left: TermId, right: TermId) -> Lit
    ensures { result ≡ record { pos = false; left = left; right = right } }
{
    Lit {
        pos: false,
        left,
        right,
    }
}

/// The number of the last line.
fn last(lines: &[StepRecord]) -> u64 {
    lines.len().saturating_sub(1) as u64
}

/// A line.
fn put(
    alloc: Global,
    bank: &Bank,
    lines: &mut Vec<StepRecord>,
    lits: &[Lit],
    rule: Rule,
) -> Result<(), AllocError>
    requires lines { AreStepsOf bank.now lines.old.items }
    requires lits { AreLiteralsOf bank.now lits.now }
    requires rule { AreTermsOfRule bank.now rule }
    ensures { OnOk result (AreStepsOf bank.now lines.new.items) }
{
    let _ = bank;
    let lits = Items::from_slice(alloc, lits)?;
    let vars = Items::new(alloc);
    let clause = Clause { vars, lits };
    lines.push(StepRecord { clause, rule })?;
    Ok(())
}

/// p = T, as the hypothesis of that number.
pub(crate) fn put_assumption(
    alloc: Global,
    bank: &Bank,
    terms: &Terms,
    lines: &mut Vec<StepRecord>,
    hyp: u64,
) -> Result<(), AllocError>
    requires terms { AreTermsIn bank.now terms.now }
    requires lines { AreStepsOf bank.now lines.old.items }
    ensures { OnOk result (AreStepsOf bank.now lines.new.items) }
{
    let lits = [equal(terms.proposition, terms.truth)];
    put(alloc, bank, lines, &lits, Rule::Axiom { hyp })
}

/// p = T, and ~ p = T.
pub(crate) fn put_hypotheses(
    alloc: Global,
    bank: &Bank,
    terms: &Terms,
    lines: &mut Vec<StepRecord>,
) -> Result<(), AllocError>
    requires terms { AreTermsIn bank.now terms.now }
    requires lines { AreStepsOf bank.now lines.old.items }
    ensures { OnOk result (AreStepsOf bank.now lines.new.items) }
{
    put_assumption(alloc, bank, terms, lines, 0)?;
    let lits = [equal(terms.negation, terms.truth)];
    put(alloc, bank, lines, &lits, Rule::Axiom { hyp: 1 })
}

/// p = F, from line 1.
pub(crate) fn put_opposite(
    alloc: Global,
    bank: &Bank,
    terms: &Terms,
    lines: &mut Vec<StepRecord>,
) -> Result<(), AllocError>
    requires terms { AreTermsIn bank.now terms.now }
    requires lines { AreStepsOf bank.now lines.old.items }
    ensures { OnOk result (AreStepsOf bank.now lines.new.items) }
{
    let lits = [equal(terms.proposition, terms.falsity)];
    let rule = Rule::Logic {
        parent: 1,
        lit: 0,
        kind: LogicKind::Not,
        abbr: None,
    };
    put(alloc, bank, lines, &lits, rule)
}

/// T = F or p != p, from line 0 and that line.
pub(crate) fn put_conflict(
    alloc: Global,
    bank: &Bank,
    terms: &Terms,
    lines: &mut Vec<StepRecord>,
    target: u64,
) -> Result<(), AllocError>
    requires terms { AreTermsIn bank.now terms.now }
    requires lines { AreStepsOf bank.now lines.old.items }
    ensures { OnOk result (AreStepsOf bank.now lines.new.items) }
{
    let lits = [
        equal(terms.truth, terms.falsity),
        unequal(terms.proposition, terms.proposition),
    ];
    let rule = Rule::Para {
        from: 0,
        lit: 0,
        side: Side::Left,
        target,
        place: 0,
        place_side: Side::Left,
        path: Items::new(alloc),
    };
    put(alloc, bank, lines, &lits, rule)
}

/// p != p, from the last line without that literal.
pub(crate) fn put_unequal(
    alloc: Global,
    bank: &Bank,
    terms: &Terms,
    lines: &mut Vec<StepRecord>,
    lit: u32,
) -> Result<(), AllocError>
    requires terms { AreTermsIn bank.now terms.now }
    requires lines { AreStepsOf bank.now lines.old.items }
    ensures { OnOk result (AreStepsOf bank.now lines.new.items) }
{
    let lits = [unequal(terms.proposition, terms.proposition)];
    let parent = last(lines);
    put(alloc, bank, lines, &lits, Rule::Drop { parent, lit })
}

/// The empty clause, from the last line.
pub(crate) fn put_empty(
    alloc: Global,
    bank: &Bank,
    lines: &mut Vec<StepRecord>,
) -> Result<(), AllocError>
    requires lines { AreStepsOf bank.now lines.old.items }
    ensures { OnOk result (AreStepsOf bank.now lines.new.items) }
{
    let parent = last(lines);
    put(alloc, bank, lines, &[], Rule::Drop { parent, lit: 0 })
}

/// s = p, for a symbol s.
pub(crate) fn put_definition(
    alloc: Global,
    bank: &Bank,
    terms: &Terms,
    lines: &mut Vec<StepRecord>,
    name: &Name,
) -> Result<(), AllocError>
    requires terms { AreTermsIn bank.now terms.now }
    requires name { name.now.term < length bank.now.terms }
    requires lines { AreStepsOf bank.now lines.old.items }
    ensures { OnOk result (AreStepsOf bank.now lines.new.items) }
{
    let lits = [equal(name.term, terms.proposition)];
    let symbol = name.symbol;
    put(alloc, bank, lines, &lits, Rule::Abbreviate { symbol })
}

/// p != p or s != s, from the last line, for the first symbol s.
pub(crate) fn put_more(
    alloc: Global,
    bank: &Bank,
    terms: &Terms,
    lines: &mut Vec<StepRecord>,
) -> Result<(), AllocError>
    requires terms { AreTermsIn bank.now terms.now }
    requires lines { AreStepsOf bank.now lines.old.items }
    ensures { OnOk result (AreStepsOf bank.now lines.new.items) }
{
    let lits = [
        unequal(terms.proposition, terms.proposition),
        unequal(terms.first.term, terms.first.term),
    ];
    let parent = last(lines);
    put(alloc, bank, lines, &lits, Rule::Arrange { parent })
}
