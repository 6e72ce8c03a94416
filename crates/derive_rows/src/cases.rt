//! The derivations that are shown.

ghost use Rattle.std.specs.Prelude.{IfOk, IfSome, OnOk};
ghost use Rattle.leo_kernel.specs.Records.{AreStepsOf};
ghost use Rattle.leo_problem.specs.Loading.{IsProblem};
ghost use Rattle.derive_rows.specs.Given.{AreTermsIn};

use crate::given::{Terms, make_terms};
use crate::lines::{
    put_assumption, put_conflict, put_definition, put_empty, put_hypotheses, put_more,
    put_opposite, put_unequal,
};
use leo_clause::StepRecord;
use leo_problem::Problem;
use leo_terms::Bank;
use std::alloc::{AllocError, Global};

/// A derivation.
#[derive(Clone, Copy)]
pub(crate) enum Case {
    /// A refutation of six lines.
    Whole,
    /// Its first four lines.
    NoEnd,
    /// It drops the other literal.
    WrongDrop,
    /// It has its first hypothesis twice.
    Twice,
    /// No line.
    Nothing,
    /// It has a third hypothesis, where there are two.
    NoHypothesis,
    /// It abbreviates by two symbols, and has one of them in another line.
    Abbreviated,
    /// It takes the same step ten thousand times.
    Many,
}

/// How many more lines there are of that step.
const MANY: u32 = 10_000;

fn put_start(
    alloc: Global,
    bank: &Bank,
    terms: &Terms,
    lines: &mut Vec<StepRecord>,
) -> Result<(), AllocError>
    requires terms { AreTermsIn bank.now terms.now }
    requires lines { AreStepsOf bank.now lines.old.items }
    ensures { OnOk result (AreStepsOf bank.now lines.new.items) }
{
    put_hypotheses(alloc, bank, terms, lines)?;
    put_opposite(alloc, bank, terms, lines)?;
    put_conflict(alloc, bank, terms, lines, 2)
}

fn put_whole(
    alloc: Global,
    bank: &Bank,
    terms: &Terms,
    lines: &mut Vec<StepRecord>,
    dropped: u32,
) -> Result<(), AllocError>
    requires terms { AreTermsIn bank.now terms.now }
    requires lines { AreStepsOf bank.now lines.old.items }
    ensures { OnOk result (AreStepsOf bank.now lines.new.items) }
{
    put_start(alloc, bank, terms, lines)?;
    put_unequal(alloc, bank, terms, lines, dropped)?;
    put_empty(alloc, bank, lines)
}

/// The refutation with a further line p = T, as the hypothesis of that number.
fn put_further(
    alloc: Global,
    bank: &Bank,
    terms: &Terms,
    lines: &mut Vec<StepRecord>,
    hyp: u64,
) -> Result<(), AllocError>
    requires terms { AreTermsIn bank.now terms.now }
    requires lines { AreStepsOf bank.now lines.old.items }
    ensures { OnOk result (AreStepsOf bank.now lines.new.items) }
{
    put_hypotheses(alloc, bank, terms, lines)?;
    put_assumption(alloc, bank, terms, lines, hyp)?;
    put_opposite(alloc, bank, terms, lines)?;
    put_conflict(alloc, bank, terms, lines, 3)?;
    put_unequal(alloc, bank, terms, lines, 0)?;
    put_empty(alloc, bank, lines)
}

/// p != p, then that or s != s, then the empty clause.
fn put_end(
    alloc: Global,
    bank: &Bank,
    terms: &Terms,
    lines: &mut Vec<StepRecord>,
) -> Result<(), AllocError>
    requires terms { AreTermsIn bank.now terms.now }
    requires lines { AreStepsOf bank.now lines.old.items }
    ensures { OnOk result (AreStepsOf bank.now lines.new.items) }
{
    put_unequal(alloc, bank, terms, lines, 0)?;
    put_more(alloc, bank, terms, lines)?;
    put_unequal(alloc, bank, terms, lines, 1)?;
    put_empty(alloc, bank, lines)
}

fn put_abbreviated(
    alloc: Global,
    bank: &Bank,
    terms: &Terms,
    lines: &mut Vec<StepRecord>,
) -> Result<(), AllocError>
    requires terms { AreTermsIn bank.now terms.now }
    requires lines { AreStepsOf bank.now lines.old.items }
    ensures { OnOk result (AreStepsOf bank.now lines.new.items) }
{
    put_hypotheses(alloc, bank, terms, lines)?;
    put_opposite(alloc, bank, terms, lines)?;
    put_definition(alloc, bank, terms, lines, &terms.second)?;
    put_definition(alloc, bank, terms, lines, &terms.first)?;
    put_conflict(alloc, bank, terms, lines, 2)?;
    put_end(alloc, bank, terms, lines)
}

fn put_many(
    alloc: Global,
    bank: &Bank,
    terms: &Terms,
    lines: &mut Vec<StepRecord>,
) -> Result<(), AllocError>
    requires terms { AreTermsIn bank.now terms.now }
    requires lines { AreStepsOf bank.now lines.old.items }
    ensures { OnOk result (AreStepsOf bank.now lines.new.items) }
{
    put_start(alloc, bank, terms, lines)?;
    for _ in 0..MANY {
        put_conflict(alloc, bank, terms, lines, 2)?;
    }
    put_unequal(alloc, bank, terms, lines, 0)?;
    put_empty(alloc, bank, lines)
}

fn put_case(
    alloc: Global,
    bank: &Bank,
    terms: &Terms,
    lines: &mut Vec<StepRecord>,
    case: Case,
) -> Result<(), AllocError>
    requires terms { AreTermsIn bank.now terms.now }
    requires lines { AreStepsOf bank.now lines.old.items }
    ensures { OnOk result (AreStepsOf bank.now lines.new.items) }
{
    match case {
        Case::Whole => put_whole(alloc, bank, terms, lines, 0),
        Case::NoEnd => put_start(alloc, bank, terms, lines),
        Case::WrongDrop => put_whole(alloc, bank, terms, lines, 1),
        Case::Twice => put_further(alloc, bank, terms, lines, 0),
        Case::Nothing => Ok(()),
        Case::NoHypothesis => put_further(alloc, bank, terms, lines, 2),
        Case::Abbreviated => put_abbreviated(alloc, bank, terms, lines),
        Case::Many => put_many(alloc, bank, terms, lines),
    }
}

/// The lines of a case, over terms of the bank.
fn lines_over(
    alloc: Global,
    bank: &Bank,
    terms: &Terms,
    case: Case,
) -> Result<Vec<StepRecord>, AllocError>
    requires { AreTermsIn bank.now terms.now }
    ensures { IfOk result (λ lines. AreStepsOf bank.now lines.items) }
{
    let mut lines = Vec::new(alloc);
    put_case(alloc, bank, terms, &mut lines, case)?;
    Ok(lines)
}

/// The lines of a case, if the problem has two hypotheses.
pub(crate) fn lines_of(
    alloc: Global,
    problem: &mut Problem,
    case: Case,
) -> Result<Option<Vec<StepRecord>>, AllocError>
    requires problem { IsProblem problem.old }
    ensures problem { IfOk result (λ _. IsProblem problem.new) }
    ensures lines { IfOk result (λ r. IfSome r (λ lines. AreStepsOf problem.new.bank lines.items)) }
{
    let made = make_terms(&mut problem.bank, problem.hyps.as_slice())?;
    let Some(terms) = made else {
        return Ok(None);
    };
    let lines = lines_over(alloc, &problem.bank, &terms, case)?;
    Ok(Some(lines))
}
