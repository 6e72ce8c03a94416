//! The axiom of choice.

ghost use Rattle.std.specs.Prelude.{◌≡◌, IfOk, map};
ghost use Rattle.std.specs.Bool.{Decides};
ghost use Rattle.leo_q0.specs.Terms.{SimpleType};
ghost use Rattle.leo_terms.specs.Contents.{Extends, type_at};
ghost use Rattle.leo_clause.specs.Trees.{clause_at};
ghost use Rattle.leo_clause.specs.Typed.{IsClauseOf};
ghost use Rattle.leo_kernel.specs.Conclusions.{choice_clause};
ghost use Rattle.leo_kernel.specs.Conditions.{AreChoiceVariables};
ghost use Rattle.leo_kernel.specs.Truths.{AreTruths};

use crate::compare::same_lits;
use crate::truths::{Truths, valued};
use leo_clause::Clause;
use leo_terms::{Bank, Op};
use std::alloc::AllocError;

/// `⊢ P x = F, P (ε P) = T` for variables P and x.
pub(crate) fn chooses(bank: &mut Bank, truths: &Truths, step: &Clause) -> Result<bool, AllocError>
    requires truths { AreTruths bank.old truths.now }
    requires step { IsClauseOf bank.old step.now }
    requires variables { AreChoiceVariables (map (type_at bank.old) step.now.vars) }
    ensures value { IfOk result (λ b. Decides b ((a : SimpleType) × (clause_at bank.old step.now ≡ choice_clause a))) }
    ensures grows { Extends bank.old bank.new }
{
    bank.is_sound();
    let vars = step.vars.as_slice();
    let (property, thing) = (vars[0], vars[1]);
    let of_property = bank.make_var(0, property)?;
    let of_thing = bank.make_var(1, thing)?;
    let holds_of_it = bank.make_app(of_property, of_thing)?;
    let chosen = bank.make_logic(Op::Eps(thing), &[of_property])?;
    let holds_of_chosen = bank.make_app(of_property, chosen)?;
    let first = valued(bank, truths, holds_of_it, false);
    let second = valued(bank, truths, holds_of_chosen, true);
    Ok(same_lits(step.lits.as_slice(), &[first, second]))
}
