//! Whether what a rule names has the types that the rule asks for.

ghost use Rattle.std.specs.Prelude.{IsSomeAnd, IfOk, ◌≡◌, ◌<◌, length, map, slice_get, Some};
ghost use Rattle.std.specs.Bool.{Decides};
ghost use Rattle.leo_terms.specs.Contents.{AreTerms, tree_at, type_at};
ghost use Rattle.leo_terms.specs.Tree.{type_of};
ghost use Rattle.leo_clause.specs.Renaming.{AreGiven};
ghost use Rattle.leo_clause.specs.Trees.{literal_at};
ghost use Rattle.leo_clause.specs.Typed.{AreTypesOf};
ghost use Rattle.leo_kernel.specs.Conditions.{AreTermsFor, HasLiterals, HasParents, HasTypes, IsLiteralOf, RuleHasTypes};
ghost use Rattle.leo_kernel.specs.Places.{subterm as subterm_of};
ghost use Rattle.leo_kernel.specs.Records.{AreStepsOf, AreTermsOfRule, IsStepOf};
ghost use Rattle.leo_kernel.specs.Shapes.{side_of as side_of_tree};
ghost use Rattle.leo_kernel.specs.Steps.{clause_of, line_at, literal_of, rule_at};

use crate::conditions::side_of;
use crate::decompose::have_one_head_type;
use crate::given::may_be_given;
use crate::places::subterm;
use crate::typed::is_typed;
use crate::types::{are_choice_variables, are_functions, is_truth_value, same_type};
use leo_clause::{Lit, Rule, Side, StepRecord};
use leo_terms::{Bank, TermId, TyId};
use std::alloc::{AllocError, Global};

/// The literal of a line, by number.
pub(crate) fn literal(bank: &Bank, lines: &[StepRecord], line: u64, number: u32) -> Lit
    requires lines { AreStepsOf bank.now lines.now }
    requires line { line < length (map (line_at bank.now) lines.now) }
    requires literal { IsLiteralOf (map (line_at bank.now) lines.now) line number }
    ensures reads { literal_of (map (line_at bank.now) lines.now) line number ≡ Some (literal_at bank.now result) }
    ensures left { result.left < length bank.now.terms }
    ensures right { result.right < length bank.now.terms }
{
    let _ = bank;
    let record = &lines[line as usize];
    let lits = record.clause.lits.as_slice();
    lits[number as usize]
}

/// Whether what stands at a path has the type of a side of another literal.
fn fits_at(bank: &Bank, source: Lit, side: Side, target: Lit, place_side: Side, path: &[u8]) -> bool
    requires source_left { source.left < length bank.now.terms }
    requires source_right { source.right < length bank.now.terms }
    requires target_left { target.left < length bank.now.terms }
    requires target_right { target.right < length bank.now.terms }
    ensures { Decides result (IsSomeAnd (subterm_of path.now (side_of_tree place_side (literal_at bank.now target))) (λ t. type_of (side_of_tree side (literal_at bank.now source)) ≡ type_of t)) }
{
    let term = side_of(source, side);
    let whole = side_of(target, place_side);
    match subterm(bank, whole, path) {
        Some(found) => same_type(bank, term, found),
        None => false,
    }
}

/// Whether terms may be put in for the variables of a line.
fn may_be_given_line(
    alloc: Global,
    bank: &Bank,
    lines: &[StepRecord],
    line: u64,
    sigma: &[TermId],
    vars: &[TyId],
) -> Result<bool, AllocError>
    requires lines { AreStepsOf bank.now lines.now }
    requires line { line < length (map (line_at bank.now) lines.now) }
    requires sigma { AreTerms bank.now sigma.now }
    requires vars { AreTypesOf bank.now vars.now }
    ensures { IfOk result (λ b. Decides b (AreTermsFor (map (type_at bank.now) vars.now) (clause_of (map (line_at bank.now) lines.now) line).variables (map (tree_at bank.now) sigma.now) × AreGiven (map (tree_at bank.now) sigma.now) (clause_of (map (line_at bank.now) lines.now) line).literals)) }
{
    let record = &lines[line as usize];
    let old = record.clause.vars.as_slice();
    let lits = record.clause.lits.as_slice();
    let given = may_be_given(alloc, bank, vars, old, sigma, lits)?;
    Ok(given)
}

/// Whether what a rule names has the types that the rule asks for, in a step with these variables.
pub(crate) fn rule_has_types(
    alloc: Global,
    bank: &Bank,
    hyps: &[TermId],
    lines: &[StepRecord],
    vars: &[TyId],
    rule: &Rule,
) -> Result<bool, AllocError>
    requires lines { AreStepsOf bank.now lines.now }
    requires vars { AreTypesOf bank.now vars.now }
    requires rule { AreTermsOfRule bank.now rule.now }
    requires parents { HasParents (map (tree_at bank.now) hyps.now) (map (line_at bank.now) lines.now) (rule_at bank.now rule.now) }
    requires literals { HasLiterals (map (line_at bank.now) lines.now) (rule_at bank.now rule.now) }
    ensures { IfOk result (λ b. Decides b (RuleHasTypes (map (line_at bank.now) lines.now) (map (type_at bank.now) vars.now) (rule_at bank.now rule.now))) }
{
    let _ = hyps;
    match rule {
        Rule::Inst { parent, sigma } => {
            let given = may_be_given_line(alloc, bank, lines, *parent, sigma.as_slice(), vars)?;
            Ok(given)
        }
        Rule::Para {
            from,
            lit,
            side,
            target,
            place,
            place_side,
            path,
        } => {
            let source = literal(bank, lines, *from, *lit);
            let other = literal(bank, lines, *target, *place);
            Ok(fits_at(bank, source, *side, other, *place_side, path.as_slice()))
        }
        Rule::BoolExt { parent, lit, .. } => {
            let equation = literal(bank, lines, *parent, *lit);
            Ok(is_truth_value(bank, equation.left))
        }
        Rule::FuncExt { parent, lit, .. } => {
            let equation = literal(bank, lines, *parent, *lit);
            Ok(are_functions(bank, equation))
        }
        Rule::Decompose { parent, lit } => {
            let inequation = literal(bank, lines, *parent, *lit);
            Ok(have_one_head_type(bank, inequation.left, inequation.right))
        }
        Rule::Choice => Ok(are_choice_variables(bank, vars)),
        Rule::Factor {
            parent,
            first,
            second,
        } => {
            let one = literal(bank, lines, *parent, *first);
            let other = literal(bank, lines, *parent, *second);
            Ok(same_type(bank, one.left, other.left))
        }
        _ => Ok(true),
    }
}

/// Whether a step's clause is typed, and what its rule names has the types that the rule asks for.
pub(crate) fn has_types(
    alloc: Global,
    bank: &Bank,
    hyps: &[TermId],
    lines: &[StepRecord],
    step: &StepRecord,
) -> Result<bool, AllocError>
    requires lines { AreStepsOf bank.now lines.now }
    requires step { IsStepOf bank.now step.now }
    requires parents { HasParents (map (tree_at bank.now) hyps.now) (map (line_at bank.now) lines.now) (rule_at bank.now step.now.rule) }
    requires literals { HasLiterals (map (line_at bank.now) lines.now) (rule_at bank.now step.now.rule) }
    ensures { IfOk result (λ b. Decides b (HasTypes (map (line_at bank.now) lines.now) (line_at bank.now step.now))) }
{
    let typed = is_typed(alloc, bank, &step.clause)?;
    if !typed {
        return Ok(false);
    }
    let vars = step.clause.vars.as_slice();
    let fits = rule_has_types(alloc, bank, hyps, lines, vars, &step.rule)?;
    Ok(fits)
}
