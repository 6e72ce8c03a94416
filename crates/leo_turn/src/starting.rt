//! How a search starts.

ghost use Rattle.std.specs.Prelude.{ℕ, ◌≡◌, ◌<◌, ◌≤◌, length, map, IfOk, Some, None, slice_get};
ghost use Rattle.leo_terms.specs.Contents.{Extends, tree_at};
ghost use Rattle.leo_kernel.specs.Conclusions.{assumed};
ghost use Rattle.leo_turn.specs.Growth.{Grows};
ghost use Rattle.leo_turn.specs.Searches.{IsSearch};
ghost use Rattle.leo_turn.specs.Starting.{IsAssumed, empty_search};
ghost use Rattle.leo_turn.specs.Turns.{AreFormulas, IsFixed, IsFormula, IsStart, Setting, TakesIn, stock_of, state_of};

use crate::search::Search;
use crate::taking::intake;
use leo_clause::{Abbr, Clause, Lit, Rule, StepRecord};
use leo_items::Items;
use leo_keep::{Fronts, Kept};
use leo_passive::Passive;
use leo_terms::{Bank, Op, TermId};
use std::alloc::{AllocError, Global};

/// The search without a line and without a clause.
fn empty(alloc: Global, hyps: &[TermId], depth: u8, weight: u16) -> Result<Search, AllocError>
    ensures { IfOk result (λ s. s ≡ empty_search hyps.now depth weight) }
{
    let hyps = Items::from_slice(alloc, hyps)?;
    let kept = Kept::new(alloc)?;
    let passive = Passive::new(alloc)?;
    Ok(Search {
        hyps,
        abbr: Abbr {
            items: Items::new(alloc),
        },
        abbr_at: Items::new(alloc),
        kept,
        fronts: Fronts::new(alloc),
        active: Items::new(alloc),
        passive,
        lines: Items::new(alloc),
        at: Items::new(alloc),
        turns: 0,
        depth,
        weight,
    })
}

/// Appends the line that assumes a hypothesis.
fn assume(
    alloc: Global,
    bank: &mut Bank,
    search: &mut Search,
    number: usize,
    formula: TermId,
) -> Result<(), AllocError>
    requires search { IsSearch bank.old search.old }
    requires stands { slice_get search.old.hyps number ≡ Some formula }
    requires formula { IsFormula bank.old formula }
    ensures assumed { IfOk result (λ _. IsAssumed bank.old bank.new search.old search.new formula) }
    ensures longer { Grows search.old search.new }
    ensures grows { Extends bank.old bank.new }
{
    bank.is_sound();
    let right = bank.make_logic(Op::True, &[])?;
    let mut lits = Items::new(alloc);
    lits.push(Lit {
        pos: true,
        left: formula,
        right,
    })?;
    let clause = Clause {
        vars: Items::new(alloc),
        lits,
    };
    search.lines.push(StepRecord {
        clause,
        rule: Rule::Axiom { hyp: number as u64 },
    })?;
    Ok(())
}

/// Assumes a hypothesis, and takes it in, whatever its leaves weigh.
fn take_hypothesis(
    alloc: Global,
    bank: &mut Bank,
    search: &mut Search,
    number: usize,
    formula: TermId,
) -> Result<(), AllocError>
    requires search { IsSearch bank.old search.old }
    requires stands { slice_get search.old.hyps number ≡ Some formula }
    requires formula { IsFormula bank.old formula }
    ensures search { IfOk result (λ _. IsSearch bank.new search.new) }
    ensures taken { IfOk result (λ _. (s : Setting) → s.symbols ≤ length bank.old.symbols → TakesIn s None (assumed (tree_at bank.old formula)) (stock_of bank.old search.old) (stock_of bank.new search.new)) }
    ensures longer { Grows search.old search.new }
    ensures grows { Extends bank.old bank.new }
{
    let line = search.lines.len() as u64;
    assume(alloc, bank, search, number, formula)?;
    intake(alloc, bank, search, line, false)?;
    Ok(())
}

/// Starts a search for a refutation of hypotheses: each is assumed in a line of the journal and taken in, in order, and
/// what is kept is passive, whatever it weighs. `depth` is how many branches a unification takes at most, and `weight` the
/// greatest weight of a clause that a turn keeps.
///
/// # Errors
///
/// Want of memory, also where a term is deeper than [`leo_terms::DEPTH`] levels.
pub fn start(
    alloc: Global,
    bank: &mut Bank,
    hyps: &[TermId],
    depth: u8,
    weight: u16,
) -> Result<Search, AllocError>
    requires hypotheses { AreFormulas bank.old hyps.now }
    ensures search { IfOk result (λ s. IsSearch bank.new s) }
    ensures start { IfOk result (λ s. (symbols : ℕ) → symbols ≤ length bank.old.symbols → IsStart (record { symbols = symbols; depth = depth; weight = weight }) (map (tree_at bank.old) hyps.now) (state_of bank.new s)) }
    ensures fixed { IfOk result (IsFixed hyps.now depth weight) }
    ensures grows { Extends bank.old bank.new }
{
    bank.is_sound();
    let mut search = empty(alloc, hyps, depth, weight)?;
    for number in 0..hyps.len() {
        take_hypothesis(alloc, bank, &mut search, number, hyps[number])?;
    }
    Ok(search)
}
