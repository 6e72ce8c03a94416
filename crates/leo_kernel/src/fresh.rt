//! Rules whose conclusion may have a fresh variable.

ghost use Rattle.std.specs.Prelude.{◌≡◌, ◌<◌, length, IfOk, Some};
ghost use Rattle.std.specs.Bool.{Decides};
ghost use Rattle.leo_terms.specs.Contents.{Extends, IsApplicable, IsTerm, tree_at, type_at, codomain_number, type_number};
ghost use Rattle.leo_terms.specs.Tree.{app, variable};
ghost use Rattle.leo_clause.specs.Trees.{literal_at, clause_at};
ghost use Rattle.leo_clause.specs.Typed.{IsClauseOf};
ghost use Rattle.leo_kernel.specs.Conclusions.{IsTakenApart};
ghost use Rattle.leo_kernel.specs.Parts.{with_fresh_value};
ghost use Rattle.leo_kernel.specs.Shapes.{valued as valued_tree};
ghost use Rattle.leo_kernel.specs.Tops.{IsPropertyOf};
ghost use Rattle.leo_kernel.specs.Truths.{AreTruths};

use crate::compare::concludes;
use crate::rows::{Taken, take_apart};
use crate::truths::{Truths, valued};
use leo_clause::{Clause, Lit, LogicKind};
use leo_terms::{Bank, TermId, TyId};
use std::alloc::AllocError;

/// The number of a variable that is not one of these. More than 2^32 variables find no memory.
pub(crate) fn next_variable(vars: &[TyId]) -> Result<u32, AllocError>
    ensures { IfOk result (λ n. n ≡ length vars.now) }
{
    match u32::try_from(vars.len()) {
        Ok(number) => Ok(number),
        Err(_) => Err(AllocError),
    }
}

/// `P X = v`.
fn fresh_value(
    bank: &mut Bank,
    truths: &Truths,
    number: u32,
    ty: TyId,
    property: TermId,
    value: bool,
) -> Result<Lit, AllocError>
    requires truths { AreTruths bank.old truths.now }
    requires property { IsPropertyOf bank.old ty property }
    ensures reads { IfOk result (λ l. literal_at bank.new l ≡ valued_tree (app (tree_at bank.old property) (variable number (type_at bank.old ty))) value) }
    ensures left { IfOk result (λ l. l.left < length bank.new.terms) }
    ensures right { IfOk result (λ l. l.right < length bank.new.terms) }
    ensures grows { Extends bank.old bank.new }
{
    bank.is_sound();
    let argument = bank.make_var(number, ty)?;
    let whole = bank.make_app(property, argument)?;
    Ok(valued(bank, truths, whole, value))
}

/// `C, ! P = T ⊢ C, P X = T`, `C, ? P = F ⊢ C, P X = F`.
fn concludes_fresh(
    bank: &mut Bank,
    truths: &Truths,
    parent: &Clause,
    place: usize,
    ty: TyId,
    property: TermId,
    value: bool,
    step: &Clause,
) -> Result<bool, AllocError>
    requires truths { AreTruths bank.old truths.now }
    requires property { IsPropertyOf bank.old ty property }
    requires parent { IsClauseOf bank.old parent.now }
    requires place { place < length parent.now.lits }
    requires step { IsClauseOf bank.old step.now }
    ensures value { IfOk result (λ b. Decides b (clause_at bank.old step.now ≡ with_fresh_value (clause_at bank.old parent.now) place (type_at bank.old ty) (tree_at bank.old property) value)) }
    ensures grows { Extends bank.old bank.new }
{
    bank.is_sound();
    let number = next_variable(parent.vars.as_slice())?;
    let lit = fresh_value(bank, truths, number, ty, property, value)?;
    Ok(concludes(parent, place, &[ty], &[lit], step))
}

/// `C, L ⊢ C` with what the literal L becomes in its place.
pub(crate) fn is_taken_apart(
    bank: &mut Bank,
    truths: &Truths,
    parent: &Clause,
    place: usize,
    lit: Lit,
    kind: LogicKind,
    step: &Clause,
) -> Result<bool, AllocError>
    requires truths { AreTruths bank.old truths.now }
    requires left { lit.left < length bank.old.terms }
    requires right { lit.right < length bank.old.terms }
    requires parent { IsClauseOf bank.old parent.now }
    requires place { place < length parent.now.lits }
    requires step { IsClauseOf bank.old step.now }
    ensures value { IfOk result (λ b. Decides b (IsTakenApart (clause_at bank.old parent.now) place kind (literal_at bank.old lit) (clause_at bank.old step.now))) }
    ensures grows { Extends bank.old bank.new }
{
    bank.is_sound();
    match take_apart(bank, truths, kind, lit) {
        Taken::One(l) => Ok(concludes(parent, place, &[], &[l], step)),
        Taken::Two(l, k) => Ok(concludes(parent, place, &[], &[l, k], step)),
        Taken::Fresh(ty, p, v) => {
            let holds = concludes_fresh(bank, truths, parent, place, ty, p, v, step)?;
            Ok(holds)
        }
        Taken::Nothing => Ok(false),
    }
}
