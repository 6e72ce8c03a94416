//! Rules with other numbers for the lines that they name.

ghost use Rattle.std.specs.Prelude.{ℕ, ◌≡◌, ◌<◌, length, slice_get, Some, IfOk, get_or};
ghost use Rattle.leo_kernel.specs.Records.{AreTermsOfRule, IsStepOf};
ghost use Rattle.leo_kernel.specs.Steps.{line_at, rule_at};
ghost use Rattle.leo_derive.specs.Marking.{AreNumbersBelow};
ghost use Rattle.leo_derive.specs.Pruning.{numbered_if, numbered_line, numbered_rule};
ghost use Rattle.leo_derive.specs.Resting.{if_named, named};

use leo_clause::{Rule, StepRecord};
use leo_items::Items;
use leo_terms::Bank;
use std::alloc::{AllocError, Global};

fn number(numbers: &[u64], line: u64) -> u64
    requires { line < length numbers.now }
    ensures { result ≡ get_or numbers.now line 0 }
{
    numbers[line as usize]
}

fn number_if(numbers: &[u64], line: Option<u64>) -> Option<u64>
    requires { AreNumbersBelow (length numbers.now) (if_named line) }
    ensures { result ≡ numbered_if (λ n. get_or numbers.now n 0) line }
{
    match line {
        Some(line) => Some(number(numbers, line)),
        None => None,
    }
}

/// The same rule, with new numbers for the lines that it names.
fn numbered(alloc: Global, bank: &Bank, numbers: &[u64], rule: &Rule) -> Result<Rule, AllocError>
    requires terms { AreTermsOfRule bank.now rule.now }
    requires named { AreNumbersBelow (length numbers.now) (named (rule_at bank.now rule.now)) }
    ensures terms { IfOk result (AreTermsOfRule bank.now) }
    ensures rule { IfOk result (λ r. rule_at bank.now r ≡ numbered_rule (λ n. get_or numbers.now n 0) (rule_at bank.now rule.now)) }
{
    let _ = bank;
    let renumbered = match rule {
        Rule::Axiom { hyp } => Rule::Axiom { hyp: *hyp },
        Rule::Convert { parent } => Rule::Convert {
            parent: number(numbers, *parent),
        },
        Rule::Inst { parent, sigma } => Rule::Inst {
            parent: number(numbers, *parent),
            sigma: Items::from_slice(alloc, sigma.as_slice())?,
        },
        Rule::Para {
            from,
            lit,
            side,
            target,
            place,
            place_side,
            path,
        } => Rule::Para {
            from: number(numbers, *from),
            lit: *lit,
            side: *side,
            target: number(numbers, *target),
            place: *place,
            place_side: *place_side,
            path: Items::from_slice(alloc, path.as_slice())?,
        },
        Rule::Arrange { parent } => Rule::Arrange {
            parent: number(numbers, *parent),
        },
        Rule::Drop { parent, lit } => Rule::Drop {
            parent: number(numbers, *parent),
            lit: *lit,
        },
        Rule::Logic {
            parent,
            lit,
            kind,
            abbr,
        } => Rule::Logic {
            parent: number(numbers, *parent),
            lit: *lit,
            kind: *kind,
            abbr: number_if(numbers, *abbr),
        },
        Rule::BoolExt { parent, lit, half } => Rule::BoolExt {
            parent: number(numbers, *parent),
            lit: *lit,
            half: *half,
        },
        Rule::FuncExt { parent, lit, abbr } => Rule::FuncExt {
            parent: number(numbers, *parent),
            lit: *lit,
            abbr: number_if(numbers, *abbr),
        },
        Rule::Decompose { parent, lit } => Rule::Decompose {
            parent: number(numbers, *parent),
            lit: *lit,
        },
        Rule::Refl => Rule::Refl,
        Rule::Choice => Rule::Choice,
        Rule::Factor {
            parent,
            first,
            second,
        } => Rule::Factor {
            parent: number(numbers, *parent),
            first: *first,
            second: *second,
        },
        Rule::Abbreviate { symbol } => Rule::Abbreviate { symbol: *symbol },
    };
    Ok(renumbered)
}

/// The same line, with new numbers for the lines that its rule names: line n gets the number at place n of the list, so
/// that a line can stand in another journal.
pub fn numbered_record(
    alloc: Global,
    bank: &Bank,
    numbers: &[u64],
    line: &StepRecord,
) -> Result<StepRecord, AllocError>
    requires step { IsStepOf bank.now line.now }
    requires named { AreNumbersBelow (length numbers.now) (named (rule_at bank.now line.now.rule)) }
    ensures step { IfOk result (IsStepOf bank.now) }
    ensures line { IfOk result (λ r. line_at bank.now r ≡ numbered_line (λ n. get_or numbers.now n 0) (line_at bank.now line.now)) }
{
    let clause = line.clause.copy(alloc)?;
    let rule = numbered(alloc, bank, numbers, &line.rule)?;
    Ok(StepRecord { clause, rule })
}
