//! When a step is accepted.

ghost use Rattle.std.specs.Prelude.{IfOk, length, map};
ghost use Rattle.std.specs.Bool.{Decides};
ghost use Rattle.leo_terms.specs.Contents.{AreTerms, Extends, tree_at};
ghost use Rattle.leo_clause.specs.Trees.{clause_at};
ghost use Rattle.leo_kernel.specs.Conditions.{HasLiterals, HasParents, HasTypes};
ghost use Rattle.leo_kernel.specs.Records.{AreStepsOf, IsStepOf};
ghost use Rattle.leo_kernel.specs.Steps.{line_at, rule_at};
ghost use Rattle.leo_kernel.specs.Symbols.{HasSymbol};
ghost use Rattle.leo_kernel.specs.Verdicts.{IsVerdict};

use crate::asked::{has_types, literal};
use crate::chosen::{func_ext_has_symbol, logic_has_symbol};
use crate::conditions::{has_literals, has_parents, has_place};
use crate::reason::{Reason, StepRefusal};
use crate::shape::has_shape;
use crate::symbols::is_new_symbol;
use leo_clause::{Rule, StepRecord};
use leo_terms::{Bank, TermId};
use std::alloc::{AllocError, Global};

/// Whether the symbol that a step abbreviates is new, and the ones that it names stand for the chosen terms.
fn has_symbol(
    alloc: Global,
    bank: &mut Bank,
    hyps: &[TermId],
    lines: &[StepRecord],
    step: &StepRecord,
) -> Result<bool, AllocError>
    requires hypotheses { AreTerms bank.old hyps.now }
    requires lines { AreStepsOf bank.old lines.now }
    requires step { IsStepOf bank.old step.now }
    requires parents { HasParents (map (tree_at bank.old) hyps.now) (map (line_at bank.old) lines.now) (rule_at bank.old step.now.rule) }
    requires literals { HasLiterals (map (line_at bank.old) lines.now) (rule_at bank.old step.now.rule) }
    requires types { HasTypes (map (line_at bank.old) lines.now) (line_at bank.old step.now) }
    ensures value { IfOk result (λ b. Decides b (HasSymbol (map (tree_at bank.old) hyps.now) (map (line_at bank.old) lines.now) (clause_at bank.old step.now.clause) (rule_at bank.old step.now.rule))) }
    ensures grows { Extends bank.old bank.new }
{
    bank.is_sound();
    let clause = &step.clause;
    match &step.rule {
        Rule::Logic {
            parent,
            lit,
            kind,
            abbr,
        } => {
            let about = literal(bank, lines, *parent, *lit);
            let holds = logic_has_symbol(alloc, bank, lines, clause, *lit, *abbr, about, *kind)?;
            Ok(holds)
        }
        Rule::FuncExt { parent, lit, abbr } => {
            let about = literal(bank, lines, *parent, *lit);
            let holds = func_ext_has_symbol(alloc, bank, lines, clause, *lit, *abbr, about)?;
            Ok(holds)
        }
        Rule::Abbreviate { symbol } => {
            let holds = is_new_symbol(alloc, bank, *symbol, hyps, lines, clause.lits.as_slice())?;
            Ok(holds)
        }
        _ => Ok(true),
    }
}

/// Whether a step follows by its rule from earlier lines and hypotheses. It is refused for the first condition of its
/// rule that does not hold, in the order of `Reason`, and with `Memory` where memory ran out or a term goes deeper than a
/// bank's terms may. The bank gains terms at most.
pub fn check_step(
    alloc: Global,
    bank: &mut Bank,
    hyps: &[TermId],
    lines: &[StepRecord],
    step: &StepRecord,
) -> Result<(), StepRefusal>
    requires hypotheses { AreTerms bank.old hyps.now }
    requires lines { AreStepsOf bank.old lines.now }
    requires step { IsStepOf bank.old step.now }
    ensures verdict { IsVerdict (map (tree_at bank.old) hyps.now) (map (line_at bank.old) lines.now) (line_at bank.old step.now) result }
    ensures grows { Extends bank.old bank.new }
{
    bank.is_sound();
    if !has_parents(bank, hyps, lines, &step.rule) {
        return Err(StepRefusal::Refused {
            reason: Reason::Parent,
        });
    }
    if !has_literals(bank, hyps, lines, &step.rule) {
        return Err(StepRefusal::Refused {
            reason: Reason::Literal,
        });
    }
    if !has_place(bank, hyps, lines, &step.rule) {
        return Err(StepRefusal::Refused {
            reason: Reason::Place,
        });
    }
    let typed = has_types(alloc, bank, hyps, lines, step)?;
    if !typed {
        return Err(StepRefusal::Refused {
            reason: Reason::Types,
        });
    }
    let named = has_symbol(alloc, bank, hyps, lines, step)?;
    if !named {
        return Err(StepRefusal::Refused {
            reason: Reason::Symbol,
        });
    }
    let shaped = has_shape(alloc, bank, hyps, lines, step)?;
    if !shaped {
        return Err(StepRefusal::Refused {
            reason: Reason::Shape,
        });
    }
    Ok(())
}
