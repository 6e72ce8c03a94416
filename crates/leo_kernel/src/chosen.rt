//! Rules whose conclusion speaks of a chosen thing.

ghost use Rattle.std.specs.Prelude.{◌≡◌, ◌<◌, false, length, map, IfOk, IfSome};
ghost use Rattle.std.specs.Bool.{Decides};
ghost use Rattle.std.specs.Option.{option_map};
ghost use Rattle.leo_terms.specs.Contents.{Extends, tree_at, type_at};
ghost use Rattle.leo_terms.specs.NormalForm.{normal_form};
ghost use Rattle.leo_terms.specs.Tree.{type_of};
ghost use Rattle.leo_clause.specs.Trees.{clause_at, literal_at};
ghost use Rattle.leo_clause.specs.Typed.{AreTypesOf, IsClauseOf};
ghost use Rattle.leo_kernel.specs.Choosing.{chosen, chosen_type};
ghost use Rattle.leo_kernel.specs.ChosenClaims.{IsClaimOf, claim_at};
ghost use Rattle.leo_kernel.specs.ChosenClauses.{BecomesIn, Chooses, is_said as is_said_of};
ghost use Rattle.leo_kernel.specs.ChosenTerms.{MayHaveForm};
ghost use Rattle.leo_kernel.specs.Conclusions.{ClaimsNamed, FuncExtConcludes, IsClaimed, LogicConcludes};
ghost use Rattle.leo_kernel.specs.Conditions.{IsLineIfNamed};
ghost use Rattle.leo_kernel.specs.Records.{AreStepsOf};
ghost use Rattle.leo_kernel.specs.Shapes.{IsArrowType, literal_type};
ghost use Rattle.leo_kernel.specs.Steps.{line_at};
ghost use Rattle.leo_kernel.specs.Symbols.{FuncExtHasSymbol, LogicHasSymbol, NamesSymbolFor, StandsFor, abbreviation_of};

use crate::chosen_claims::{Claim, claim_in, difference, make_wanted};
use crate::chosen_matching::may_fit;
use crate::chosen_shown::{Shown, fits, shown_in};
use crate::compare::concludes;
use crate::plain::only_lit;
use crate::rows::value;
use leo_clause::{Clause, Lit, LogicKind, Rule, StepRecord};
use leo_terms::{Bank, TermId, TyId};
use std::alloc::{AllocError, Global};

/// `s = t` of a line that abbreviates t by the symbol s.
fn abbreviation(bank: &Bank, lines: &[StepRecord], number: u64) -> Option<Lit>
    requires lines { AreStepsOf bank.now lines.now }
    requires line { number < length (map (line_at bank.now) lines.now) }
    ensures value { option_map (literal_at bank.now) result ≡ abbreviation_of (map (line_at bank.now) lines.now) number }
    ensures within { IfSome result (λ l. (l.left < length bank.now.terms) × (l.right < length bank.now.terms)) }
{
    let _ = bank;
    let record = &lines[number as usize];
    match &record.rule {
        Rule::Abbreviate { .. } => only_lit(record.clause.lits.as_slice()),
        _ => None,
    }
}

/// Whether a term has the type and the normal form of the term that a claim chooses.
fn fits_claim(bank: &mut Bank, claim: &Claim, t: TermId) -> Result<bool, AllocError>
    requires claim { IsClaimOf bank.old claim.now }
    requires within { t < length bank.old.terms }
    ensures value { IfOk result (λ b. Decides b ((type_of (tree_at bank.old t) ≡ chosen_type (claim_at bank.old claim.now)) × (normal_form (tree_at bank.old t) ≡ normal_form (chosen (claim_at bank.old claim.now))))) }
    ensures grows { Extends bank.old bank.new }
{
    let wanted = make_wanted(bank, claim)?;
    let fit = fits(bank, &wanted, t)?;
    Ok(fit)
}

/// The same for some of the variables as its arguments.
fn may_fit_claim(
    bank: &mut Bank,
    vars: &[TyId],
    claim: &Claim,
    t: TermId,
) -> Result<bool, AllocError>
    requires vars { AreTypesOf bank.old vars.now }
    requires claim { IsClaimOf bank.old claim.now }
    requires within { t < length bank.old.terms }
    ensures value { IfOk result (λ b. Decides b (MayHaveForm (map (type_at bank.old) vars.now) (chosen_type (claim_at bank.old claim.now)) (normal_form (chosen (claim_at bank.old claim.now))) (tree_at bank.old t))) }
    ensures grows { Extends bank.old bank.new }
{
    let wanted = make_wanted(bank, claim)?;
    let fit = may_fit(bank, vars, t, &wanted)?;
    Ok(fit)
}

/// Whether an abbreviation stands for the term that a claim chooses, for some variables of the clause, and for those with
/// which the clause shows it.
fn stands_for(
    bank: &mut Bank,
    clause: &Clause,
    place: usize,
    claim: &Claim,
    abbreviation: Lit,
) -> Result<bool, AllocError>
    requires clause { IsClauseOf bank.old clause.now }
    requires claim { IsClaimOf bank.old claim.now }
    requires symbol { abbreviation.left < length bank.old.terms }
    requires term { abbreviation.right < length bank.old.terms }
    ensures value { IfOk result (λ b. Decides b (StandsFor (clause_at bank.old clause.now) place (claim_at bank.old claim.now) (literal_at bank.old abbreviation))) }
    ensures grows { Extends bank.old bank.new }
{
    let term = abbreviation.right;
    let found = shown_in(bank, clause, place, claim, abbreviation)?;
    match found {
        Shown::Term(t) => {
            let fit = fits_claim(bank, claim, t)?;
            Ok(fit)
        }
        Shown::Untyped => Ok(false),
        Shown::Nothing => {
            let vars = clause.vars.as_slice();
            let fit = may_fit_claim(bank, vars, claim, term)?;
            Ok(fit)
        }
    }
}

/// Whether a literal has the polarity and the value that a claim says.
fn is_said(bank: &Bank, claim: &Claim, positive: bool, right: TermId) -> bool
    requires { right < length bank.now.terms }
    ensures { result ≡ is_said_of claim.now positive (tree_at bank.now right) }
{
    match claim {
        Claim::Value(_, _, v) => match value(bank, right) {
            Some(w) => positive && w == *v,
            None => false,
        },
        Claim::Difference(_, _, _, _) => !positive,
    }
}

/// `C, L ⊢ C` with the claim in the place of L, about the symbol of an abbreviation with variables that fit.
fn is_claimed(
    bank: &mut Bank,
    parent: &Clause,
    place: usize,
    claim: &Claim,
    abbreviation: Lit,
    clause: &Clause,
) -> Result<bool, AllocError>
    requires parent { IsClauseOf bank.old parent.now }
    requires place { place < length parent.now.lits }
    requires clause { IsClauseOf bank.old clause.now }
    requires claim { IsClaimOf bank.old claim.now }
    requires symbol { abbreviation.left < length bank.old.terms }
    requires term { abbreviation.right < length bank.old.terms }
    ensures value { IfOk result (λ b. Decides b (IsClaimed (clause_at bank.old parent.now) place (λ x. x ≡ claim_at bank.old claim.now) (literal_at bank.old abbreviation) (clause_at bank.old clause.now))) }
    ensures grows { Extends bank.old bank.new }
{
    bank.is_sound();
    let lits = clause.lits.as_slice();
    if place >= lits.len() {
        return Ok(false);
    }
    let lit = lits[place];
    if !is_said(bank, claim, lit.pos, lit.right) {
        return Ok(false);
    }
    if !concludes(parent, place, &[], &[lit], clause) {
        return Ok(false);
    }
    let found = shown_in(bank, clause, place, claim, abbreviation)?;
    match found {
        Shown::Term(t) => {
            let fit = fits_claim(bank, claim, t)?;
            Ok(fit)
        }
        Shown::Untyped => Ok(false),
        Shown::Nothing => Ok(false),
    }
}

/// Whether an abbreviation is named that stands for the term that the claim chooses, if there is a claim.
fn names_symbol(
    bank: &mut Bank,
    lines: &[StepRecord],
    clause: &Clause,
    place: usize,
    abbr: Option<u64>,
    claim: Option<Claim>,
) -> Result<bool, AllocError>
    requires lines { AreStepsOf bank.old lines.now }
    requires line { IsLineIfNamed (map (line_at bank.old) lines.now) abbr }
    requires clause { IsClauseOf bank.old clause.now }
    requires claim { IfSome claim (IsClaimOf bank.old) }
    ensures value { IfOk result (λ b. Decides b (NamesSymbolFor (map (line_at bank.old) lines.now) (clause_at bank.old clause.now) place abbr (BecomesIn bank.old claim))) }
    ensures grows { Extends bank.old bank.new }
{
    bank.is_sound();
    let Some(number) = abbr else {
        return Ok(false);
    };
    let Some(found) = abbreviation(bank, lines, number) else {
        return Ok(false);
    };
    match claim {
        Some(claim) => {
            let stands = stands_for(bank, clause, place, &claim, found)?;
            Ok(stands)
        }
        None => Ok(true),
    }
}

/// Whether the claim, if there is one, is concluded of the symbol of an abbreviation that is named.
fn claims_named(
    bank: &mut Bank,
    lines: &[StepRecord],
    parent: &Clause,
    place: usize,
    abbr: Option<u64>,
    claim: Option<Claim>,
    clause: &Clause,
) -> Result<bool, AllocError>
    requires lines { AreStepsOf bank.old lines.now }
    requires line { IsLineIfNamed (map (line_at bank.old) lines.now) abbr }
    requires parent { IsClauseOf bank.old parent.now }
    requires place { place < length parent.now.lits }
    requires clause { IsClauseOf bank.old clause.now }
    requires claim { IfSome claim (IsClaimOf bank.old) }
    ensures value { IfOk result (λ b. Decides b (ClaimsNamed (map (line_at bank.old) lines.now) (clause_at bank.old parent.now) place abbr (BecomesIn bank.old claim) (clause_at bank.old clause.now))) }
    ensures grows { Extends bank.old bank.new }
{
    bank.is_sound();
    let Some(number) = abbr else {
        return Ok(false);
    };
    let Some(found) = abbreviation(bank, lines, number) else {
        return Ok(false);
    };
    match claim {
        Some(claim) => {
            let claimed = is_claimed(bank, parent, place, &claim, found, clause)?;
            Ok(claimed)
        }
        None => Ok(false),
    }
}

/// Whether an abbreviation is named as the kind of a rule asks: one that stands for the chosen term where one is chosen, and
/// none else.
pub(crate) fn logic_has_symbol(
    alloc: Global,
    bank: &mut Bank,
    lines: &[StepRecord],
    clause: &Clause,
    place: u32,
    abbr: Option<u64>,
    lit: Lit,
    kind: LogicKind,
) -> Result<bool, AllocError>
    requires lines { AreStepsOf bank.old lines.now }
    requires line { IsLineIfNamed (map (line_at bank.old) lines.now) abbr }
    requires clause { IsClauseOf bank.old clause.now }
    requires left { lit.left < length bank.old.terms }
    requires right { lit.right < length bank.old.terms }
    ensures value { IfOk result (λ b. Decides b (LogicHasSymbol (map (line_at bank.new) lines.now) (clause_at bank.new clause.now) place abbr (literal_at bank.new lit) kind)) }
    ensures grows { Extends bank.old bank.new }
{
    let _ = alloc;
    bank.is_sound();
    match kind {
        LogicKind::AllF | LogicKind::SomeT => {
            let claim = claim_in(bank, kind, lit);
            let named = names_symbol(bank, lines, clause, place as usize, abbr, claim)?;
            Ok(named)
        }
        _ => Ok(abbr.is_none()),
    }
}

/// The same for a rule on functions: an abbreviation for the argument at which they differ is named where they do, and none
/// else.
pub(crate) fn func_ext_has_symbol(
    alloc: Global,
    bank: &mut Bank,
    lines: &[StepRecord],
    clause: &Clause,
    place: u32,
    abbr: Option<u64>,
    lit: Lit,
) -> Result<bool, AllocError>
    requires lines { AreStepsOf bank.old lines.now }
    requires line { IsLineIfNamed (map (line_at bank.old) lines.now) abbr }
    requires clause { IsClauseOf bank.old clause.now }
    requires left { lit.left < length bank.old.terms }
    requires right { lit.right < length bank.old.terms }
    requires functions { IsArrowType (literal_type (literal_at bank.old lit)) }
    requires same_type { type_of (tree_at bank.old lit.left) ≡ type_of (tree_at bank.old lit.right) }
    ensures value { IfOk result (λ b. Decides b (FuncExtHasSymbol (map (line_at bank.new) lines.now) (clause_at bank.new clause.now) place abbr (literal_at bank.new lit) lit.pos)) }
    ensures grows { Extends bank.old bank.new }
{
    let _ = alloc;
    bank.is_sound();
    if lit.pos {
        return Ok(abbr.is_none());
    }
    let claim = Some(difference(bank, lit));
    let named = names_symbol(bank, lines, clause, place as usize, abbr, claim)?;
    Ok(named)
}

/// `C, ! P = F ⊢ C, P w = F` and `C, ? P = T ⊢ C, P w = T`, for a chosen w.
pub(crate) fn logic_claims(
    alloc: Global,
    bank: &mut Bank,
    lines: &[StepRecord],
    parent: &Clause,
    place: u32,
    abbr: Option<u64>,
    lit: Lit,
    kind: LogicKind,
    clause: &Clause,
) -> Result<bool, AllocError>
    requires lines { AreStepsOf bank.old lines.now }
    requires line { IsLineIfNamed (map (line_at bank.old) lines.now) abbr }
    requires parent { IsClauseOf bank.old parent.now }
    requires place { place < length parent.now.lits }
    requires clause { IsClauseOf bank.old clause.now }
    requires left { lit.left < length bank.old.terms }
    requires right { lit.right < length bank.old.terms }
    requires kind { Chooses kind }
    ensures value { IfOk result (λ b. Decides b (LogicConcludes (map (line_at bank.new) lines.now) (clause_at bank.new parent.now) place abbr (literal_at bank.new lit) kind (clause_at bank.new clause.now))) }
    ensures grows { Extends bank.old bank.new }
{
    let _ = alloc;
    bank.is_sound();
    let claim = claim_in(bank, kind, lit);
    let claimed = claims_named(bank, lines, parent, place as usize, abbr, claim, clause)?;
    Ok(claimed)
}

/// `C, f ≠ g ⊢ C, f w ≠ g w` for a chosen w.
pub(crate) fn func_ext_claims(
    alloc: Global,
    bank: &mut Bank,
    lines: &[StepRecord],
    parent: &Clause,
    place: u32,
    abbr: Option<u64>,
    lit: Lit,
    clause: &Clause,
) -> Result<bool, AllocError>
    requires lines { AreStepsOf bank.old lines.now }
    requires line { IsLineIfNamed (map (line_at bank.old) lines.now) abbr }
    requires parent { IsClauseOf bank.old parent.now }
    requires place { place < length parent.now.lits }
    requires clause { IsClauseOf bank.old clause.now }
    requires left { lit.left < length bank.old.terms }
    requires right { lit.right < length bank.old.terms }
    requires functions { IsArrowType (literal_type (literal_at bank.old lit)) }
    requires same_type { type_of (tree_at bank.old lit.left) ≡ type_of (tree_at bank.old lit.right) }
    ensures value { IfOk result (λ b. Decides b (FuncExtConcludes (map (line_at bank.new) lines.now) (clause_at bank.new parent.now) place abbr (literal_at bank.new lit) false (clause_at bank.new clause.now))) }
    ensures grows { Extends bank.old bank.new }
{
    let _ = alloc;
    bank.is_sound();
    let claim = Some(difference(bank, lit));
    let claimed = claims_named(bank, lines, parent, place as usize, abbr, claim, clause)?;
    Ok(claimed)
}
