//! All that is inferred from a given clause.

ghost use Rattle.std.specs.Prelude.{ℕ, ◌≤◌, ◌<◌, length, IfOk};
ghost use Rattle.leo_terms.specs.Contents.{Extends};
ghost use Rattle.leo_turn.specs.Growth.{Grows};
ghost use Rattle.leo_turn.specs.Searches.{AreAllBelow, IsSearch};
ghost use Rattle.leo_turn.specs.Turns.{Infers, setting_of, stock_of};
ghost use Rattle.leo_turn.specs.Working.{MakesAlone, MakesBetween, MakesWith, MakesWithEach};

use crate::choices::introduce_all;
use crate::journal::with_number;
use crate::search::Search;
use crate::working::work_all;
use leo_ext::laws::{unary_laws, unary_members_are_from_clause};
use leo_ext::unary;
use leo_para::laws::due_laws;
use leo_para::para;
use leo_terms::Bank;
use std::alloc::{AllocError, Global};

/// Works all that is inferred from a kept clause alone. The choice symbols for it are introduced first.
fn infer_alone(
    alloc: Global,
    bank: &mut Bank,
    search: &mut Search,
    given: u32,
) -> Result<(), AllocError>
    requires search { IsSearch bank.old search.old }
    requires given { given < length search.old.kept }
    ensures search { IfOk result (λ _. IsSearch bank.new search.new) }
    ensures inferred { IfOk result (λ _. MakesAlone bank.old bank.new search.old search.new given) }
    ensures longer { Grows search.old search.new }
    ensures grows { Extends bank.old bank.new }
{
    bank.is_sound();
    unary_laws();
    unary_members_are_from_clause();
    let mut abbr = search.abbr.copy(alloc)?;
    let clause = &search.kept.clauses()[given as usize];
    let dues = unary(alloc, bank, &mut abbr, clause)?;
    introduce_all(alloc, bank, search, abbr.items.as_slice())?;
    let line = search.at.as_slice()[given as usize];
    let first = with_number(alloc, search.abbr_at.as_slice(), line)?;
    work_all(alloc, bank, search, first.as_slice(), dues.as_slice())?;
    Ok(())
}

/// Works all paramodulations from a kept clause into another.
fn infer_between(
    alloc: Global,
    bank: &mut Bank,
    search: &mut Search,
    source: u32,
    target: u32,
) -> Result<(), AllocError>
    requires search { IsSearch bank.old search.old }
    requires source { source < length search.old.kept }
    requires target { target < length search.old.kept }
    ensures search { IfOk result (λ _. IsSearch bank.new search.new) }
    ensures inferred { IfOk result (λ _. MakesBetween bank.old bank.new search.old search.new source target) }
    ensures longer { Grows search.old search.new }
    ensures grows { Extends bank.old bank.new }
{
    bank.is_sound();
    due_laws();
    let clauses = search.kept.clauses();
    let from = &clauses[source as usize];
    let into = &clauses[target as usize];
    let dues = para(alloc, bank, from, into)?;
    let at = search.at.as_slice();
    let first = [at[source as usize], at[target as usize]];
    work_all(alloc, bank, search, &first, dues.as_slice())?;
    Ok(())
}

/// Works all that is inferred between the given clause and a partner: from it into the partner, and then the other way,
/// if the partner is another clause.
fn infer_with(
    alloc: Global,
    bank: &mut Bank,
    search: &mut Search,
    given: u32,
    partner: u32,
) -> Result<(), AllocError>
    requires search { IsSearch bank.old search.old }
    requires given { given < length search.old.kept }
    requires partner { partner < length search.old.kept }
    ensures search { IfOk result (λ _. IsSearch bank.new search.new) }
    ensures inferred { IfOk result (λ _. MakesWith bank.old bank.new search.old search.new given partner) }
    ensures longer { Grows search.old search.new }
    ensures grows { Extends bank.old bank.new }
{
    if partner == given {
        infer_between(alloc, bank, search, given, given)?;
        return Ok(());
    }
    infer_between(alloc, bank, search, given, partner)?;
    infer_between(alloc, bank, search, partner, given)?;
    Ok(())
}

/// Works all that is inferred between the given clause and each partner in order.
fn infer_with_all(
    alloc: Global,
    bank: &mut Bank,
    search: &mut Search,
    given: u32,
    partners: &[u32],
) -> Result<(), AllocError>
    requires search { IsSearch bank.old search.old }
    requires given { given < length search.old.kept }
    requires partners { AreAllBelow (length search.old.kept) partners.now }
    ensures search { IfOk result (λ _. IsSearch bank.new search.new) }
    ensures inferred { IfOk result (λ _. MakesWithEach bank.old bank.new search.old search.new given partners.now) }
    ensures longer { Grows search.old search.new }
    ensures grows { Extends bank.old bank.new }
{
    bank.is_sound();
    for partner in partners {
        infer_with(alloc, bank, search, given, *partner)?;
    }
    Ok(())
}

/// Works all that is inferred from the given clause, alone and with each partner in order. Where it answers an error,
/// what was added stays.
pub(crate) fn infer(
    alloc: Global,
    bank: &mut Bank,
    search: &mut Search,
    given: u32,
    partners: &[u32],
) -> Result<(), AllocError>
    requires search { IsSearch bank.old search.old }
    requires given { given < length search.old.kept }
    requires partners { AreAllBelow (length search.old.kept) partners.now }
    ensures search { IfOk result (λ _. IsSearch bank.new search.new) }
    ensures inferred { IfOk result (λ _. (symbols : ℕ) → symbols ≤ length bank.old.symbols → Infers (setting_of symbols search.old) given partners.now (stock_of bank.old search.old) (stock_of bank.new search.new)) }
    ensures longer { Grows search.old search.new }
    ensures grows { Extends bank.old bank.new }
{
    infer_alone(alloc, bank, search, given)?;
    infer_with_all(alloc, bank, search, given, partners)?;
    Ok(())
}
