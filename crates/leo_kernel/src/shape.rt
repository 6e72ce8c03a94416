//! Whether a step's clause is what its rule concludes from the lines that it names.

ghost use Rattle.std.specs.Prelude.{[], ◌∷◌, ◌≡◌, ◌<◌, IfOk, IsSomeAnd, List, length, map, slice_get, true};
ghost use Rattle.std.specs.Bool.{Decides};
ghost use Rattle.leo_terms.specs.Contents.{AreTerms, Extends, tree_at};
ghost use Rattle.leo_clause.specs.Renaming.{AreGiven, substituted_literal};
ghost use Rattle.leo_clause.specs.Trees.{Literal, clause_at, literal_at};
ghost use Rattle.leo_clause.specs.Typed.{IsClauseOf, IsTyped};
ghost use Rattle.leo_kernel.specs.Conclusions.{AreAmong, AreConverted, Decomposes, FuncExtConcludes, HasShape, LogicConcludes, NeverHolds, assumed, bool_case, factored, func_ext_positive, paramodulant, with_new};
ghost use Rattle.leo_kernel.specs.Conditions.{HasLiterals, HasParents, HasPlace, HasTypes, IsLineIfNamed, IsLiteralOf, LeadsTo};
ghost use Rattle.leo_kernel.specs.Places.{subterm as subterm_of};
ghost use Rattle.leo_kernel.specs.Records.{AreStepsOf, IsStepOf};
ghost use Rattle.leo_kernel.specs.Shapes.{IsArrowType, literal_type, side_of as side_of_tree};
ghost use Rattle.leo_kernel.specs.Steps.{clause_of, line_at, literal_of, rule_at};
ghost use Rattle.leo_kernel.specs.Truths.{AreTruths};
ghost use Rattle.leo_terms.specs.Tree.{type_of};

use crate::asked::literal;
use crate::choice::chooses;
use crate::chosen::{func_ext_claims, logic_claims};
use crate::decompose::decomposes;
use crate::equations::{abbreviates, applies_fresh};
use crate::forms::{are_instances, converts};
use crate::fresh::is_taken_apart;
use crate::paramodulation::paramodulates;
use crate::parts::arranges;
use crate::plain::{drops, factors, is_assumed, is_bool_case, is_reflexive};
use crate::truths::{Truths, make_truths};
use leo_clause::{Clause, Half, Lit, LogicKind, Rule, Side, StepRecord};
use leo_terms::{Bank, TermId, TyView};
use std::alloc::{AllocError, Global};

fn assumes(bank: &Bank, truths: &Truths, hyps: &[TermId], hyp: u64, step: &Clause) -> bool
    requires truths { AreTruths bank.now truths.now }
    requires hypotheses { AreTerms bank.now hyps.now }
    requires hypothesis { hyp < length (map (tree_at bank.now) hyps.now) }
    requires step { IsClauseOf bank.now step.now }
    ensures { Decides result (IsSomeAnd (slice_get (map (tree_at bank.now) hyps.now) hyp) (λ t. clause_at bank.now step.now ≡ assumed t)) }
{
    is_assumed(bank, truths, hyps[hyp as usize], step)
}

fn converts_line(
    bank: &mut Bank,
    lines: &[StepRecord],
    parent: u64,
    step: &Clause,
) -> Result<bool, AllocError>
    requires lines { AreStepsOf bank.old lines.now }
    requires line { parent < length (map (line_at bank.old) lines.now) }
    requires step { IsClauseOf bank.old step.now }
    ensures value { IfOk result (λ b. Decides b (((clause_at bank.old step.now).variables ≡ (clause_of (map (line_at bank.old) lines.now) parent).variables) × AreConverted (clause_of (map (line_at bank.old) lines.now) parent).literals (clause_at bank.old step.now).literals)) }
    ensures grows { Extends bank.old bank.new }
{
    let record = &lines[parent as usize];
    let holds = converts(bank, &record.clause, step)?;
    Ok(holds)
}

fn instantiates_line(
    bank: &mut Bank,
    lines: &[StepRecord],
    parent: u64,
    sigma: &[TermId],
    step: &Clause,
) -> Result<bool, AllocError>
    requires lines { AreStepsOf bank.old lines.now }
    requires line { parent < length (map (line_at bank.old) lines.now) }
    requires sigma { AreTerms bank.old sigma.now }
    requires given { AreGiven (map (tree_at bank.old) sigma.now) (clause_of (map (line_at bank.old) lines.now) parent).literals }
    requires step { IsClauseOf bank.old step.now }
    ensures value { IfOk result (λ b. Decides b ((clause_at bank.old step.now).literals ≡ map (substituted_literal (map (tree_at bank.old) sigma.now)) (clause_of (map (line_at bank.old) lines.now) parent).literals)) }
    ensures grows { Extends bank.old bank.new }
{
    let record = &lines[parent as usize];
    let lits = record.clause.lits.as_slice();
    let holds = are_instances(bank, sigma, lits, step.lits.as_slice())?;
    Ok(holds)
}

fn paramodulates_line(
    alloc: Global,
    bank: &mut Bank,
    lines: &[StepRecord],
    source: u64,
    place: u32,
    side: Side,
    target: u64,
    target_place: u32,
    target_side: Side,
    path: &[u8],
    step: &Clause,
) -> Result<bool, AllocError>
    requires lines { AreStepsOf bank.old lines.now }
    requires line { source < length (map (line_at bank.old) lines.now) }
    requires literal { IsLiteralOf (map (line_at bank.old) lines.now) source place }
    requires target { target < length (map (line_at bank.old) lines.now) }
    requires target_literal { IsLiteralOf (map (line_at bank.old) lines.now) target target_place }
    requires leads { IsSomeAnd (literal_of (map (line_at bank.old) lines.now) target target_place) (λ k. LeadsTo path.now (side_of_tree target_side k)) }
    requires step { IsClauseOf bank.old step.now }
    requires typed { IsTyped (clause_at bank.old step.now) }
    ensures value { IfOk result (λ b. Decides b (IsSomeAnd (literal_of (map (line_at bank.old) lines.now) source place) (λ l. IsSomeAnd (literal_of (map (line_at bank.old) lines.now) target target_place) (λ k. IsSomeAnd (subterm_of path.now (side_of_tree target_side k)) (λ t. (l.positive ≡ true) × (clause_at bank.old step.now ≡ paramodulant (clause_of (map (line_at bank.old) lines.now) source) place l side (clause_of (map (line_at bank.old) lines.now) target) target_place k target_side path.now t)))))) }
    ensures grows { Extends bank.old bank.new }
{
    let lit = literal(bank, lines, source, place);
    let target_lit = literal(bank, lines, target, target_place);
    let from = &lines[source as usize];
    let into = &lines[target as usize];
    let holds = paramodulates(
        alloc,
        bank,
        &from.clause,
        place as usize,
        lit,
        side,
        &into.clause,
        target_place as usize,
        target_lit,
        target_side,
        path,
        step,
    )?;
    Ok(holds)
}

fn arranges_line(bank: &Bank, lines: &[StepRecord], parent: u64, step: &Clause) -> bool
    requires lines { AreStepsOf bank.now lines.now }
    requires line { parent < length (map (line_at bank.now) lines.now) }
    requires step { IsClauseOf bank.now step.now }
    ensures { Decides result (((clause_at bank.now step.now).variables ≡ (clause_of (map (line_at bank.now) lines.now) parent).variables) × AreAmong (clause_of (map (line_at bank.now) lines.now) parent).literals (clause_at bank.now step.now).literals) }
{
    let record = &lines[parent as usize];
    arranges(bank, &record.clause, step)
}

fn drops_from_line(
    bank: &Bank,
    truths: &Truths,
    lines: &[StepRecord],
    parent: u64,
    place: u32,
    step: &Clause,
) -> bool
    requires truths { AreTruths bank.now truths.now }
    requires lines { AreStepsOf bank.now lines.now }
    requires line { parent < length (map (line_at bank.now) lines.now) }
    requires literal { IsLiteralOf (map (line_at bank.now) lines.now) parent place }
    requires step { IsClauseOf bank.now step.now }
    ensures { Decides result (IsSomeAnd (literal_of (map (line_at bank.now) lines.now) parent place) (λ l. NeverHolds l × (clause_at bank.now step.now ≡ with_new (clause_of (map (line_at bank.now) lines.now) parent) place [] []))) }
{
    let lit = literal(bank, lines, parent, place);
    let record = &lines[parent as usize];
    drops(bank, truths, &record.clause, place as usize, lit, step)
}

/// A literal about a truth value taken apart, by its kind.
fn takes_apart(
    alloc: Global,
    bank: &mut Bank,
    truths: &Truths,
    lines: &[StepRecord],
    parent: &Clause,
    place: u32,
    kind: LogicKind,
    abbr: Option<u64>,
    lit: Lit,
    step: &Clause,
) -> Result<bool, AllocError>
    requires truths { AreTruths bank.old truths.now }
    requires lines { AreStepsOf bank.old lines.now }
    requires parent { IsClauseOf bank.old parent.now }
    requires named { IsLineIfNamed (map (line_at bank.old) lines.now) abbr }
    requires place { place < length parent.now.lits }
    requires left { lit.left < length bank.old.terms }
    requires right { lit.right < length bank.old.terms }
    requires step { IsClauseOf bank.old step.now }
    requires typed { IsTyped (clause_at bank.old step.now) }
    ensures value { IfOk result (λ b. Decides b (LogicConcludes (map (line_at bank.old) lines.now) (clause_at bank.old parent.now) place abbr (literal_at bank.old lit) kind (clause_at bank.old step.now))) }
    ensures grows { Extends bank.old bank.new }
{
    match kind {
        LogicKind::AllF => {
            let holds = logic_claims(alloc, bank, lines, parent, place, abbr, lit, kind, step)?;
            Ok(holds)
        }
        LogicKind::SomeT => {
            let holds = logic_claims(alloc, bank, lines, parent, place, abbr, lit, kind, step)?;
            Ok(holds)
        }
        _ => {
            let holds = is_taken_apart(bank, truths, parent, place as usize, lit, kind, step)?;
            Ok(holds)
        }
    }
}

fn takes_line_apart(
    alloc: Global,
    bank: &mut Bank,
    truths: &Truths,
    lines: &[StepRecord],
    parent: u64,
    place: u32,
    kind: LogicKind,
    abbr: Option<u64>,
    step: &Clause,
) -> Result<bool, AllocError>
    requires truths { AreTruths bank.old truths.now }
    requires lines { AreStepsOf bank.old lines.now }
    requires line { parent < length (map (line_at bank.old) lines.now) }
    requires named { IsLineIfNamed (map (line_at bank.old) lines.now) abbr }
    requires literal { IsLiteralOf (map (line_at bank.old) lines.now) parent place }
    requires step { IsClauseOf bank.old step.now }
    requires typed { IsTyped (clause_at bank.old step.now) }
    ensures value { IfOk result (λ b. Decides b (IsSomeAnd (literal_of (map (line_at bank.old) lines.now) parent place) (λ l. LogicConcludes (map (line_at bank.old) lines.now) (clause_of (map (line_at bank.old) lines.now) parent) place abbr l kind (clause_at bank.old step.now)))) }
    ensures grows { Extends bank.old bank.new }
{
    let lit = literal(bank, lines, parent, place);
    let record = &lines[parent as usize];
    let holds = takes_apart(
        alloc,
        bank,
        truths,
        lines,
        &record.clause,
        place,
        kind,
        abbr,
        lit,
        step,
    )?;
    Ok(holds)
}

fn splits_line(
    bank: &Bank,
    truths: &Truths,
    lines: &[StepRecord],
    parent: u64,
    place: u32,
    half: Half,
    step: &Clause,
) -> bool
    requires truths { AreTruths bank.now truths.now }
    requires lines { AreStepsOf bank.now lines.now }
    requires line { parent < length (map (line_at bank.now) lines.now) }
    requires literal { IsLiteralOf (map (line_at bank.now) lines.now) parent place }
    requires step { IsClauseOf bank.now step.now }
    ensures { Decides result (IsSomeAnd (literal_of (map (line_at bank.now) lines.now) parent place) (λ l. clause_at bank.now step.now ≡ with_new (clause_of (map (line_at bank.now) lines.now) parent) place [] (bool_case half l.positive l.left l.right))) }
{
    let lit = literal(bank, lines, parent, place);
    let record = &lines[parent as usize];
    is_bool_case(
        bank,
        truths,
        &record.clause,
        place as usize,
        lit,
        half,
        step,
    )
}

/// `C, f = g ⊢ C, f X = g X` for a fresh variable X, where the types are not known yet.
fn applies_functions(
    bank: &mut Bank,
    parent: &Clause,
    place: usize,
    lit: Lit,
    step: &Clause,
) -> Result<bool, AllocError>
    requires left { lit.left < length bank.old.terms }
    requires right { lit.right < length bank.old.terms }
    requires functions { IsArrowType (literal_type (literal_at bank.old lit)) }
    requires same_type { type_of (tree_at bank.old lit.left) ≡ type_of (tree_at bank.old lit.right) }
    requires parent { IsClauseOf bank.old parent.now }
    requires place { place < length parent.now.lits }
    requires step { IsClauseOf bank.old step.now }
    ensures value { IfOk result (λ b. Decides b (clause_at bank.old step.now ≡ func_ext_positive (clause_at bank.old parent.now) place (literal_at bank.old lit))) }
    ensures grows { Extends bank.old bank.new }
{
    let function = bank.type_of(lit.left);
    match bank.view_ty(function) {
        TyView::Arrow(ty, value) => {
            let holds = applies_fresh(bank, parent, place, lit, ty, value, step)?;
            Ok(holds)
        }
        TyView::Base(_) => Ok(false),
    }
}

/// An equation of functions, or an inequation, as one of their values.
fn extends_functions(
    alloc: Global,
    bank: &mut Bank,
    lines: &[StepRecord],
    parent: &Clause,
    place: u32,
    abbr: Option<u64>,
    lit: Lit,
    step: &Clause,
) -> Result<bool, AllocError>
    requires lines { AreStepsOf bank.old lines.now }
    requires parent { IsClauseOf bank.old parent.now }
    requires named { IsLineIfNamed (map (line_at bank.old) lines.now) abbr }
    requires place { place < length parent.now.lits }
    requires left { lit.left < length bank.old.terms }
    requires right { lit.right < length bank.old.terms }
    requires functions { IsArrowType (literal_type (literal_at bank.old lit)) }
    requires same_type { type_of (tree_at bank.old lit.left) ≡ type_of (tree_at bank.old lit.right) }
    requires step { IsClauseOf bank.old step.now }
    requires typed { IsTyped (clause_at bank.old step.now) }
    ensures value { IfOk result (λ b. Decides b (FuncExtConcludes (map (line_at bank.old) lines.now) (clause_at bank.old parent.now) place abbr (literal_at bank.old lit) lit.pos (clause_at bank.old step.now))) }
    ensures grows { Extends bank.old bank.new }
{
    if lit.pos {
        let holds = applies_functions(bank, parent, place as usize, lit, step)?;
        return Ok(holds);
    }
    let holds = func_ext_claims(alloc, bank, lines, parent, place, abbr, lit, step)?;
    Ok(holds)
}

fn extends_line(
    alloc: Global,
    bank: &mut Bank,
    lines: &[StepRecord],
    parent: u64,
    place: u32,
    abbr: Option<u64>,
    step: &Clause,
) -> Result<bool, AllocError>
    requires lines { AreStepsOf bank.old lines.now }
    requires line { parent < length (map (line_at bank.old) lines.now) }
    requires named { IsLineIfNamed (map (line_at bank.old) lines.now) abbr }
    requires literal { IsLiteralOf (map (line_at bank.old) lines.now) parent place }
    requires functions { IsSomeAnd (literal_of (map (line_at bank.old) lines.now) parent place) (λ l. IsArrowType (literal_type l) × (type_of l.left ≡ type_of l.right)) }
    requires step { IsClauseOf bank.old step.now }
    requires typed { IsTyped (clause_at bank.old step.now) }
    ensures value { IfOk result (λ b. Decides b (IsSomeAnd (literal_of (map (line_at bank.old) lines.now) parent place) (λ l. FuncExtConcludes (map (line_at bank.old) lines.now) (clause_of (map (line_at bank.old) lines.now) parent) place abbr l l.positive (clause_at bank.old step.now)))) }
    ensures grows { Extends bank.old bank.new }
{
    let lit = literal(bank, lines, parent, place);
    let record = &lines[parent as usize];
    let holds = extends_functions(alloc, bank, lines, &record.clause, place, abbr, lit, step)?;
    Ok(holds)
}

fn decomposes_line(
    bank: &Bank,
    lines: &[StepRecord],
    parent: u64,
    place: u32,
    step: &Clause,
) -> bool
    requires lines { AreStepsOf bank.now lines.now }
    requires line { parent < length (map (line_at bank.now) lines.now) }
    requires literal { IsLiteralOf (map (line_at bank.now) lines.now) parent place }
    requires step { IsClauseOf bank.now step.now }
    ensures { Decides result (IsSomeAnd (literal_of (map (line_at bank.now) lines.now) parent place) (λ l. (new : List Literal) × (Decomposes l new × (clause_at bank.now step.now ≡ with_new (clause_of (map (line_at bank.now) lines.now) parent) place [] new)))) }
{
    let lit = literal(bank, lines, parent, place);
    let record = &lines[parent as usize];
    decomposes(bank, &record.clause, place as usize, lit, step)
}

fn factors_line(
    bank: &Bank,
    lines: &[StepRecord],
    parent: u64,
    first: u32,
    second: u32,
    step: &Clause,
) -> bool
    requires lines { AreStepsOf bank.now lines.now }
    requires line { parent < length (map (line_at bank.now) lines.now) }
    requires first { IsLiteralOf (map (line_at bank.now) lines.now) parent first }
    requires second { IsLiteralOf (map (line_at bank.now) lines.now) parent second }
    requires step { IsClauseOf bank.now step.now }
    ensures { Decides result (IsSomeAnd (literal_of (map (line_at bank.now) lines.now) parent first) (λ l. IsSomeAnd (literal_of (map (line_at bank.now) lines.now) parent second) (λ k. (l.positive ≡ k.positive) × (clause_at bank.now step.now ≡ factored (clause_of (map (line_at bank.now) lines.now) parent) second l k)))) }
{
    let one = literal(bank, lines, parent, first);
    let other = literal(bank, lines, parent, second);
    let record = &lines[parent as usize];
    factors(bank, &record.clause, second as usize, one, other, step)
}

/// Whether a step's clause is what its rule concludes, where T and F are made.
fn concludes(
    alloc: Global,
    bank: &mut Bank,
    truths: &Truths,
    hyps: &[TermId],
    lines: &[StepRecord],
    step: &StepRecord,
) -> Result<bool, AllocError>
    requires truths { AreTruths bank.old truths.now }
    requires hypotheses { AreTerms bank.old hyps.now }
    requires lines { AreStepsOf bank.old lines.now }
    requires step { IsStepOf bank.old step.now }
    requires parents { HasParents (map (tree_at bank.old) hyps.now) (map (line_at bank.old) lines.now) (rule_at bank.old step.now.rule) }
    requires literals { HasLiterals (map (line_at bank.old) lines.now) (rule_at bank.old step.now.rule) }
    requires place { HasPlace (map (line_at bank.old) lines.now) (rule_at bank.old step.now.rule) }
    requires types { HasTypes (map (line_at bank.old) lines.now) (line_at bank.old step.now) }
    ensures value { IfOk result (λ b. Decides b (HasShape (map (tree_at bank.old) hyps.now) (map (line_at bank.old) lines.now) (clause_at bank.old step.now.clause) (rule_at bank.old step.now.rule))) }
    ensures grows { Extends bank.old bank.new }
{
    bank.is_sound();
    let clause = &step.clause;
    match &step.rule {
        Rule::Axiom { hyp } => Ok(assumes(bank, truths, hyps, *hyp, clause)),
        Rule::Convert { parent } => {
            let holds = converts_line(bank, lines, *parent, clause)?;
            Ok(holds)
        }
        Rule::Inst { parent, sigma } => {
            let holds = instantiates_line(bank, lines, *parent, sigma.as_slice(), clause)?;
            Ok(holds)
        }
        Rule::Para {
            from,
            lit,
            side,
            target,
            place,
            place_side,
            path,
        } => {
            let holds = paramodulates_line(
                alloc,
                bank,
                lines,
                *from,
                *lit,
                *side,
                *target,
                *place,
                *place_side,
                path.as_slice(),
                clause,
            )?;
            Ok(holds)
        }
        Rule::Arrange { parent } => Ok(arranges_line(bank, lines, *parent, clause)),
        Rule::Drop { parent, lit } => {
            Ok(drops_from_line(bank, truths, lines, *parent, *lit, clause))
        }
        Rule::Logic {
            parent,
            lit,
            kind,
            abbr,
        } => {
            let holds = takes_line_apart(
                alloc, bank, truths, lines, *parent, *lit, *kind, *abbr, clause,
            )?;
            Ok(holds)
        }
        Rule::BoolExt { parent, lit, half } => {
            Ok(splits_line(bank, truths, lines, *parent, *lit, *half, clause))
        }
        Rule::FuncExt { parent, lit, abbr } => {
            let holds = extends_line(alloc, bank, lines, *parent, *lit, *abbr, clause)?;
            Ok(holds)
        }
        Rule::Decompose { parent, lit } => {
            Ok(decomposes_line(bank, lines, *parent, *lit, clause))
        }
        Rule::Refl => Ok(is_reflexive(bank, clause)),
        Rule::Choice => {
            let holds = chooses(bank, truths, clause)?;
            Ok(holds)
        }
        Rule::Factor {
            parent,
            first,
            second,
        } => Ok(factors_line(bank, lines, *parent, *first, *second, clause)),
        Rule::Abbreviate { symbol } => Ok(abbreviates(bank, *symbol, clause)),
    }
}

/// Whether a step's clause is what its rule concludes from the lines and the hypotheses.
pub(crate) fn has_shape(
    alloc: Global,
    bank: &mut Bank,
    hyps: &[TermId],
    lines: &[StepRecord],
    step: &StepRecord,
) -> Result<bool, AllocError>
    requires hypotheses { AreTerms bank.old hyps.now }
    requires lines { AreStepsOf bank.old lines.now }
    requires step { IsStepOf bank.old step.now }
    requires parents { HasParents (map (tree_at bank.old) hyps.now) (map (line_at bank.old) lines.now) (rule_at bank.old step.now.rule) }
    requires literals { HasLiterals (map (line_at bank.old) lines.now) (rule_at bank.old step.now.rule) }
    requires place { HasPlace (map (line_at bank.old) lines.now) (rule_at bank.old step.now.rule) }
    requires types { HasTypes (map (line_at bank.old) lines.now) (line_at bank.old step.now) }
    ensures value { IfOk result (λ b. Decides b (HasShape (map (tree_at bank.old) hyps.now) (map (line_at bank.old) lines.now) (clause_at bank.old step.now.clause) (rule_at bank.old step.now.rule))) }
    ensures grows { Extends bank.old bank.new }
{
    let truths = make_truths(bank)?;
    let holds = concludes(alloc, bank, &truths, hyps, lines, step)?;
    Ok(holds)
}
