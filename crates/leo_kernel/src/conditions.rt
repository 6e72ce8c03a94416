//! Whether the lines and the literals that a rule names are there.

ghost use Rattle.std.specs.Prelude.{IsSomeAnd, ◌≡◌, ◌<◌, length, map, slice_get, Some};
ghost use Rattle.std.specs.Bool.{Decides};
ghost use Rattle.leo_terms.specs.Contents.{tree_at};
ghost use Rattle.leo_kernel.specs.Conditions.{HasLiterals, HasParents, HasPlace, IsLineIfNamed, IsLiteralOf, LeadsTo};
ghost use Rattle.leo_kernel.specs.ByNumber.{side_number};
ghost use Rattle.leo_kernel.specs.Records.{AreStepsOf};
ghost use Rattle.leo_kernel.specs.Shapes.{side_of as side_of_tree};
ghost use Rattle.leo_kernel.specs.Steps.{clause_of, line_at, literal_of, rule_at};

use crate::places::subterm;
use leo_clause::{Lit, Rule, Side, StepRecord};
use leo_terms::{Bank, TermId};

/// Whether a line has this number.
fn is_line(bank: &Bank, lines: &[StepRecord], number: u64) -> bool
    ensures { Decides result (number < length (map (line_at bank.now) lines.now)) }
{
    let _ = bank;
    (number as usize) < lines.len()
}

/// The same where a line is named.
fn is_line_if_named(bank: &Bank, lines: &[StepRecord], number: Option<u64>) -> bool
    ensures { Decides result (IsLineIfNamed (map (line_at bank.now) lines.now) number) }
{
    match number {
        Some(number) => is_line(bank, lines, number),
        None => true,
    }
}

/// Whether a hypothesis has this number.
fn is_hypothesis(bank: &Bank, hyps: &[TermId], number: u64) -> bool
    ensures { Decides result (number < length (map (tree_at bank.now) hyps.now)) }
{
    let _ = bank;
    (number as usize) < hyps.len()
}

/// Whether each line and each hypothesis that a rule names is there.
pub(crate) fn has_parents(bank: &Bank, hyps: &[TermId], lines: &[StepRecord], rule: &Rule) -> bool
    ensures { Decides result (HasParents (map (tree_at bank.now) hyps.now) (map (line_at bank.now) lines.now) (rule_at bank.now rule.now)) }
{
    match rule {
        Rule::Axiom { hyp } => is_hypothesis(bank, hyps, *hyp),
        Rule::Convert { parent } => is_line(bank, lines, *parent),
        Rule::Inst { parent, .. } => is_line(bank, lines, *parent),
        Rule::Para { from, target, .. } => {
            if !is_line(bank, lines, *from) {
                return false;
            }
            is_line(bank, lines, *target)
        }
        Rule::Arrange { parent } => is_line(bank, lines, *parent),
        Rule::Drop { parent, .. } => is_line(bank, lines, *parent),
        Rule::Logic { parent, abbr, .. } => {
            if !is_line(bank, lines, *parent) {
                return false;
            }
            is_line_if_named(bank, lines, *abbr)
        }
        Rule::BoolExt { parent, .. } => is_line(bank, lines, *parent),
        Rule::FuncExt { parent, abbr, .. } => {
            if !is_line(bank, lines, *parent) {
                return false;
            }
            is_line_if_named(bank, lines, *abbr)
        }
        Rule::Decompose { parent, .. } => is_line(bank, lines, *parent),
        Rule::Refl => true,
        Rule::Choice => true,
        Rule::Factor { parent, .. } => is_line(bank, lines, *parent),
        Rule::Abbreviate { .. } => true,
    }
}

/// Whether a line that is there has a literal with this number.
fn is_literal(bank: &Bank, lines: &[StepRecord], line: u64, number: u32) -> bool
    requires { line < length (map (line_at bank.now) lines.now) }
    ensures { Decides result (IsLiteralOf (map (line_at bank.now) lines.now) line number) }
{
    let _ = bank;
    let record = &lines[line as usize];
    (number as usize) < record.clause.lits.len()
}

/// Whether each literal that a rule names is there, and those of a factor are two.
pub(crate) fn has_literals(bank: &Bank, hyps: &[TermId], lines: &[StepRecord], rule: &Rule) -> bool
    requires { HasParents (map (tree_at bank.now) hyps.now) (map (line_at bank.now) lines.now) (rule_at bank.now rule.now) }
    ensures { Decides result (HasLiterals (map (line_at bank.now) lines.now) (rule_at bank.now rule.now)) }
{
    let _ = hyps;
    match rule {
        Rule::Axiom { .. } => true,
        Rule::Convert { .. } => true,
        Rule::Inst { .. } => true,
        Rule::Para {
            from,
            lit,
            target,
            place,
            ..
        } => {
            if !is_literal(bank, lines, *from, *lit) {
                return false;
            }
            is_literal(bank, lines, *target, *place)
        }
        Rule::Arrange { .. } => true,
        Rule::Drop { parent, lit } => is_literal(bank, lines, *parent, *lit),
        Rule::Logic { parent, lit, .. } => is_literal(bank, lines, *parent, *lit),
        Rule::BoolExt { parent, lit, .. } => is_literal(bank, lines, *parent, *lit),
        Rule::FuncExt { parent, lit, .. } => is_literal(bank, lines, *parent, *lit),
        Rule::Decompose { parent, lit } => is_literal(bank, lines, *parent, *lit),
        Rule::Refl => true,
        Rule::Choice => true,
        Rule::Factor {
            parent,
            first,
            second,
        } => {
            if !is_literal(bank, lines, *parent, *first) {
                return false;
            }
            if !is_literal(bank, lines, *parent, *second) {
                return false;
            }
            first != second
        }
        Rule::Abbreviate { .. } => true,
    }
}

/// The side of a literal.
pub(crate) fn side_of(lit: Lit, side: Side) -> TermId
    ensures { result ≡ side_number side lit }
{
    match side {
        Side::Left => lit.left,
        Side::Right => lit.right,
    }
}

/// Whether something stands at a path in a literal that is there.
fn leads_to(
    bank: &Bank,
    lines: &[StepRecord],
    line: u64,
    number: u32,
    side: Side,
    path: &[u8],
) -> bool
    requires lines { AreStepsOf bank.now lines.now }
    requires line { line < length (map (line_at bank.now) lines.now) }
    requires literal { IsLiteralOf (map (line_at bank.now) lines.now) line number }
    ensures { Decides result (IsSomeAnd (literal_of (map (line_at bank.now) lines.now) line number) (λ k. LeadsTo path.now (side_of_tree side k))) }
{
    let record = &lines[line as usize];
    let lits = record.clause.lits.as_slice();
    let lit = lits[number as usize];
    let whole = side_of(lit, side);
    subterm(bank, whole, path).is_some()
}

/// Whether something stands at the path that a rule names.
pub(crate) fn has_place(bank: &Bank, hyps: &[TermId], lines: &[StepRecord], rule: &Rule) -> bool
    requires lines { AreStepsOf bank.now lines.now }
    requires parents { HasParents (map (tree_at bank.now) hyps.now) (map (line_at bank.now) lines.now) (rule_at bank.now rule.now) }
    requires literals { HasLiterals (map (line_at bank.now) lines.now) (rule_at bank.now rule.now) }
    ensures { Decides result (HasPlace (map (line_at bank.now) lines.now) (rule_at bank.now rule.now)) }
{
    let _ = hyps;
    match rule {
        Rule::Para {
            target,
            place,
            place_side,
            path,
            ..
        } => leads_to(bank, lines, *target, *place, *place_side, path.as_slice()),
        _ => true,
    }
}
