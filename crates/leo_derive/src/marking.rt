//! Marks on the lines on which the first empty line rests.

ghost use Rattle.std.specs.Prelude.{ℕ, List, ◌≡◌, ◌<◌, ◌+◌, false, length, map, set, true, slice_get, Some, IfOk, OnOk, IfSome, IfNone};
ghost use Rattle.std.specs.Bool.{Decides};
ghost use Rattle.leo_kernel.specs.Records.{AreStepsOf, IsStepOf};
ghost use Rattle.leo_kernel.specs.Steps.{Line, line_at, rule_at, abbreviate};
ghost use Rattle.leo_derive.specs.Marking as spec;
ghost use Rattle.leo_derive.specs.Marking.{AreInOrder, AreMarks, AreNumbersBelow, IsMarkedFrom, IsReached, with_marks};
ghost use Rattle.leo_derive.specs.Resting.{if_named, named};
ghost use Rattle.leo_derive.specs.Symbols.{AreCollected, IsOneOf};

use crate::symbols::meet_line;
use indexmap::IndexSet;
use leo_clause::{Rule, StepRecord};
use leo_terms::{Bank, SymId, TermId};
use std::alloc::{AllocError, Global};

fn mark(marks: &mut Vec<bool>, number: u64)
    requires { number < length marks.old.items }
    ensures { marks.new.items ≡ set marks.old.items number true }
{
    marks[number as usize] = true;
}

fn is_marked(marks: &Vec<bool>, number: usize) -> bool
    requires { number < length marks.now.items }
    ensures { result ≡ spec.is_marked marks.now.items number }
{
    marks[number]
}

fn mark_if_named(marks: &mut Vec<bool>, number: Option<u64>)
    requires { AreNumbersBelow (length marks.old.items) (if_named number) }
    ensures { marks.new.items ≡ with_marks marks.old.items (if_named number) }
{
    if let Some(number) = number {
        mark(marks, number);
    }
}

/// Marks the lines that a rule names.
fn mark_named(bank: &Bank, marks: &mut Vec<bool>, rule: &Rule)
    requires { AreNumbersBelow (length marks.old.items) (named (rule_at bank.now rule.now)) }
    ensures { marks.new.items ≡ with_marks marks.old.items (named (rule_at bank.now rule.now)) }
{
    let _ = bank;
    match rule {
        Rule::Axiom { .. } => {}
        Rule::Convert { parent } => mark(marks, *parent),
        Rule::Inst { parent, .. } => mark(marks, *parent),
        Rule::Para { from, target, .. } => {
            mark(marks, *from);
            mark(marks, *target);
        }
        Rule::Arrange { parent } => mark(marks, *parent),
        Rule::Drop { parent, .. } => mark(marks, *parent),
        Rule::Logic { parent, abbr, .. } => {
            mark(marks, *parent);
            mark_if_named(marks, *abbr);
        }
        Rule::BoolExt { parent, .. } => mark(marks, *parent),
        Rule::FuncExt { parent, abbr, .. } => {
            mark(marks, *parent);
            mark_if_named(marks, *abbr);
        }
        Rule::Decompose { parent, .. } => mark(marks, *parent),
        Rule::Refl => {}
        Rule::Choice => {}
        Rule::Factor { parent, .. } => mark(marks, *parent),
        Rule::Abbreviate { .. } => {}
    }
}

/// Whether a rule abbreviates by one of these symbols.
fn abbreviates_one(bank: &Bank, rule: &Rule, symbols: &IndexSet<SymId>) -> bool
    ensures yes { result ≡ true → (s : ℕ) × (rule_at bank.now rule.now ≡ abbreviate s) × IsOneOf s symbols.now.keys }
    ensures no { result ≡ false → (s : ℕ) → rule_at bank.now rule.now ≡ abbreviate s → IsOneOf s symbols.now.keys → ⊥ }
{
    let _ = bank;
    match rule {
        Rule::Abbreviate { symbol } => symbols.contains(symbol),
        _ => false,
    }
}

/// Marks a line if it abbreviates by one of the symbols that were met.
fn reach(
    bank: &Bank,
    line: &StepRecord,
    number: usize,
    marks: &mut Vec<bool>,
    symbols: &IndexSet<SymId>,
)
    requires { number < length marks.old.items }
    ensures { (lines : List Line) (goal : ℕ) → AreInOrder lines → slice_get lines number ≡ Some (line_at bank.now line.now) → IsMarkedFrom lines goal (number + 1) marks.old.items symbols.now.keys
        → IsReached lines goal number (line_at bank.now line.now) marks.new.items symbols.now.keys }
{
    if abbreviates_one(bank, &line.rule, symbols) {
        mark(marks, number as u64);
    }
}

/// Looks at a line: if it is marked, marks the lines that it names and meets its symbols.
fn look(
    bank: &Bank,
    line: &StepRecord,
    number: usize,
    marks: &mut Vec<bool>,
    symbols: &mut IndexSet<SymId>,
    visited: &mut IndexSet<TermId>,
) -> Result<(), AllocError>
    requires line { IsStepOf bank.now line.now }
    requires number { number < length marks.old.items }
    requires named { AreNumbersBelow (length marks.old.items) (named (rule_at bank.now line.now.rule)) }
    requires met { AreCollected bank.now visited.old.keys symbols.old.keys }
    ensures met { OnOk result (AreCollected bank.now visited.new.keys symbols.new.keys) }
    ensures marked { OnOk result ((lines : List Line) (goal : ℕ) → AreInOrder lines → slice_get lines number ≡ Some (line_at bank.now line.now) → IsReached lines goal number (line_at bank.now line.now) marks.old.items symbols.old.keys
        → IsMarkedFrom lines goal number marks.new.items symbols.new.keys) }
{
    let needed = is_marked(marks, number);
    if !needed {
        return Ok(());
    }
    mark_named(bank, marks, &line.rule);
    meet_line(bank, line, symbols, visited)?;
    Ok(())
}

/// Reaches a line and looks at it.
fn step(
    bank: &Bank,
    lines: &[StepRecord],
    goal: usize,
    number: usize,
    marks: &mut Vec<bool>,
    symbols: &mut IndexSet<SymId>,
    visited: &mut IndexSet<TermId>,
) -> Result<(), AllocError>
    requires lines { AreStepsOf bank.now lines.now }
    requires order { AreInOrder (map (line_at bank.now) lines.now) }
    requires number { number < length lines.now }
    requires met { AreCollected bank.now visited.old.keys symbols.old.keys }
    requires marked { IsMarkedFrom (map (line_at bank.now) lines.now) goal (number + 1) marks.old.items symbols.old.keys }
    ensures met { OnOk result (AreCollected bank.now visited.new.keys symbols.new.keys) }
    ensures marked { OnOk result (IsMarkedFrom (map (line_at bank.now) lines.now) goal number marks.new.items symbols.new.keys) }
{
    let _ = goal;
    let line = &lines[number];
    reach(bank, line, number, marks, symbols);
    look(bank, line, number, marks, symbols, visited)?;
    Ok(())
}

/// Marks the lines on which line `goal` rests.
pub(crate) fn marks(
    alloc: Global,
    bank: &Bank,
    lines: &[StepRecord],
    goal: usize,
) -> Result<Vec<bool>, AllocError>
    requires lines { AreStepsOf bank.now lines.now }
    requires order { AreInOrder (map (line_at bank.now) lines.now) }
    requires goal { goal < length lines.now }
    ensures { IfOk result (λ marks. AreMarks (map (line_at bank.now) lines.now) goal marks.items) }
{
    let mut marks = vec![in alloc; false; lines.len()]?;
    let mut symbols = IndexSet::new(alloc);
    let mut visited = IndexSet::new(alloc);
    marks[goal] = true;
    for passed in 0..goal + 1 {
        step(
            bank,
            lines,
            goal,
            goal - passed,
            &mut marks,
            &mut symbols,
            &mut visited,
        )?;
    }
    Ok(marks)
}
