//! The symbol that stands for a chosen term, as a clause shows it.

ghost use Rattle.std.specs.Prelude.{◌≡◌, ◌<◌, length, map, IfOk};
ghost use Rattle.std.specs.Bool.{Decides};
ghost use Rattle.std.specs.Option.{MatchOption};
ghost use Rattle.leo_terms.specs.Contents.{Extends, tree_at, type_at};
ghost use Rattle.leo_terms.specs.NormalForm.{normal_form};
ghost use Rattle.leo_terms.specs.Tree.{Tree, app, type_of};
ghost use Rattle.leo_clause.specs.Trees.{clause_at, literal_at};
ghost use Rattle.leo_clause.specs.Typed.{AreTypesOf, IsClauseOf};
ghost use Rattle.leo_kernel.specs.Choosing.{IsVariableOf, SpeaksOf};
ghost use Rattle.leo_kernel.specs.ChosenClaims.{IsClaimOf, claim_at};
ghost use Rattle.leo_kernel.specs.ChosenShown.{IsExtended, IsShown, ShowsClaim, ShowsSymbol};

use crate::chosen_claims::{Claim, Wanted};
use leo_clause::{Clause, Lit};
use leo_terms::{Bank, DEPTH, TermId, TyId, View};
use std::alloc::AllocError;

/// What is shown of a symbol, and of the term that it stands for.
#[derive(Clone, Copy)]
pub(crate) enum Shown {
    /// The symbol is not shown with variables for arguments.
    Nothing,
    /// It is, but its term does not take these arguments.
    Untyped,
    /// It is; this is its term with these arguments.
    Term(TermId),
}

/// Whether a term is one of the variables.
fn is_variable(bank: &Bank, vars: &[TyId], t: TermId) -> bool
    requires within { t < length bank.now.terms }
    requires vars { AreTypesOf bank.now vars.now }
    ensures { Decides result (IsVariableOf (map (type_at bank.now) vars.now) (tree_at bank.now t)) }
{
    match bank.view(t) {
        View::Var(number) => {
            if number as usize >= vars.len() {
                return false;
            }
            let ty = bank.type_of(t);
            vars[number as usize] == ty
        }
        View::Bound(_) => false,
        View::Sym(_) => false,
        View::App(_, _) => false,
        View::Lam(_, _) => false,
        View::Logic(_, _, _) => false,
    }
}

/// A term with one argument more, if it takes it.
fn with_argument(bank: &mut Bank, f: TermId, x: TermId) -> Result<Shown, AllocError>
    requires function { f < length bank.old.terms }
    requires argument { x < length bank.old.terms }
    ensures value { IfOk result (IsExtended bank.new (tree_at bank.old f) (tree_at bank.old x)) }
    ensures grows { Extends bank.old bank.new }
{
    if !bank.is_applicable(f, x) {
        return Ok(Shown::Untyped);
    }
    let whole = bank.make_app(f, x)?;
    Ok(Shown::Term(whole))
}

/// Whether `w` is the symbol `s` with variables for arguments, and the term `t` with these arguments. Goes at most `room`
/// levels down.
fn instance(
    bank: &mut Bank,
    vars: &[TyId],
    s: TermId,
    t: TermId,
    w: TermId,
    room: u32,
) -> Result<Shown, AllocError>
    requires vars { AreTypesOf bank.old vars.now }
    requires symbol { s < length bank.old.terms }
    requires term { t < length bank.old.terms }
    requires within { w < length bank.old.terms }
    ensures value { IfOk result (IsShown bank.new (map (type_at bank.old) vars.now) (tree_at bank.old t) (ShowsSymbol (tree_at bank.old s) (tree_at bank.old w))) }
    ensures grows { Extends bank.old bank.new }
{
    bank.is_sound();
    let Some(room) = room.checked_sub(1) else {
        return Err(AllocError);
    };
    if w == s {
        return Ok(Shown::Term(t));
    }
    match bank.view(w) {
        View::App(f, x) => {
            if !is_variable(bank, vars, x) {
                return Ok(Shown::Nothing);
            }
            let before = instance(bank, vars, s, t, f, room)?;
            match before {
                Shown::Term(u) => {
                    let extended = with_argument(bank, u, x)?;
                    Ok(extended)
                }
                Shown::Untyped => Ok(Shown::Untyped),
                Shown::Nothing => Ok(Shown::Nothing),
            }
        }
        View::Var(_) => Ok(Shown::Nothing),
        View::Bound(_) => Ok(Shown::Nothing),
        View::Sym(_) => Ok(Shown::Nothing),
        View::Lam(_, _) => Ok(Shown::Nothing),
        View::Logic(_, _, _) => Ok(Shown::Nothing),
    }
}

/// The argument to which a term applies this function.
fn argument_of(bank: &Bank, f: TermId, t: TermId) -> Option<TermId>
    requires function { f < length bank.now.terms }
    requires within { t < length bank.now.terms }
    ensures { MatchOption result ((w : Tree) → tree_at bank.now t ≡ app (tree_at bank.now f) w → ⊥) (λ w. (w < length bank.now.terms) × (tree_at bank.now t ≡ app (tree_at bank.now f) (tree_at bank.now w))) }
{
    match bank.view(t) {
        View::App(g, w) => { if g == f { Some(w) } else { None } }
        View::Var(_) => None,
        View::Bound(_) => None,
        View::Sym(_) => None,
        View::Lam(_, _) => None,
        View::Logic(_, _, _) => None,
    }
}

/// The one term to which two terms apply these functions.
fn common_argument(bank: &Bank, f: TermId, s: TermId, g: TermId, t: TermId) -> Option<TermId>
    requires first { f < length bank.now.terms }
    requires first_whole { s < length bank.now.terms }
    requires second { g < length bank.now.terms }
    requires second_whole { t < length bank.now.terms }
    ensures { MatchOption result ((w : Tree) → (tree_at bank.now s ≡ app (tree_at bank.now f) w) × (tree_at bank.now t ≡ app (tree_at bank.now g) w) → ⊥) (λ w. (w < length bank.now.terms) × ((tree_at bank.now s ≡ app (tree_at bank.now f) (tree_at bank.now w)) × (tree_at bank.now t ≡ app (tree_at bank.now g) (tree_at bank.now w)))) }
{
    bank.is_sound();
    match argument_of(bank, f, s) {
        Some(w) => match argument_of(bank, g, t) {
            Some(v) => { if v == w { Some(w) } else { None } }
            None => None,
        },
        None => None,
    }
}

/// What stands in a literal where the claim has w.
fn spoken_of(bank: &Bank, claim: &Claim, lit: Lit) -> Option<TermId>
    requires claim { IsClaimOf bank.now claim.now }
    requires left { lit.left < length bank.now.terms }
    requires right { lit.right < length bank.now.terms }
    ensures { MatchOption result ((w : Tree) → SpeaksOf (claim_at bank.now claim.now) w (literal_at bank.now lit) → ⊥) (λ w. (w < length bank.now.terms) × SpeaksOf (claim_at bank.now claim.now) (tree_at bank.now w) (literal_at bank.now lit)) }
{
    match claim {
        Claim::Value(_, p, _) => argument_of(bank, *p, lit.left),
        Claim::Difference(_, _, f, g) => common_argument(bank, *f, lit.left, *g, lit.right),
    }
}

/// What a clause shows of an abbreviation, where the claim has w in the literal with this number.
pub(crate) fn shown_in(
    bank: &mut Bank,
    clause: &Clause,
    place: usize,
    claim: &Claim,
    abbreviation: Lit,
) -> Result<Shown, AllocError>
    requires clause { IsClauseOf bank.old clause.now }
    requires claim { IsClaimOf bank.old claim.now }
    requires symbol { abbreviation.left < length bank.old.terms }
    requires term { abbreviation.right < length bank.old.terms }
    ensures value { IfOk result (IsShown bank.new (map (type_at bank.old) clause.now.vars) (tree_at bank.old abbreviation.right) (ShowsClaim (clause_at bank.old clause.now) place (claim_at bank.old claim.now) (tree_at bank.old abbreviation.left))) }
    ensures grows { Extends bank.old bank.new }
{
    bank.is_sound();
    let lits = clause.lits.as_slice();
    if place >= lits.len() {
        return Ok(Shown::Nothing);
    }
    let lit = lits[place];
    let vars = clause.vars.as_slice();
    match spoken_of(bank, claim, lit) {
        Some(w) => {
            let found = instance(bank, vars, abbreviation.left, abbreviation.right, w, DEPTH)?;
            Ok(found)
        }
        None => Ok(Shown::Nothing),
    }
}

/// Whether a term has the type and the normal form of the chosen one.
pub(crate) fn fits(bank: &mut Bank, wanted: &Wanted, t: TermId) -> Result<bool, AllocError>
    requires within { t < length bank.old.terms }
    requires form { wanted.now.form < length bank.old.terms }
    requires ty { wanted.now.ty < length bank.old.types }
    ensures value { IfOk result (λ b. Decides b ((type_of (tree_at bank.old t) ≡ type_at bank.old wanted.now.ty) × (normal_form (tree_at bank.old t) ≡ tree_at bank.old wanted.now.form))) }
    ensures grows { Extends bank.old bank.new }
{
    bank.is_sound();
    let ty = bank.type_of(t);
    if ty != wanted.ty {
        return Ok(false);
    }
    let form = bank.normal(t)?;
    Ok(form == wanted.form)
}
