//! Choice symbols and the lines that introduce them.

ghost use Rattle.std.specs.Prelude.{◌≡◌, ◌∷◌, ◌++◌, [], IfOk};
ghost use Rattle.leo_terms.specs.Contents.{Extends, tree_at};
ghost use Rattle.leo_clause.specs.Choices.{IsChoiceOf, choice_at};
ghost use Rattle.leo_kernel.specs.Records.{IsStepOf};
ghost use Rattle.leo_kernel.specs.Steps.{line_at};
ghost use Rattle.leo_kernel.specs.Symbols.{LackSymbol, LinesLackSymbol};
ghost use Rattle.leo_clausify.specs.Choosing.{AreInOrder};
ghost use Rattle.leo_clausify.specs.Leaves.{choice_line};
ghost use Rattle.leo_turn.specs.Changing.{AreAnnounced, AreNew, IsAllFrom, IsAnnounced};
ghost use Rattle.leo_turn.specs.Growth.{Grows, IsLonger};
ghost use Rattle.leo_turn.specs.Searches.{IsSearch, hypotheses_of, lines_of};

use crate::search::Search;
use leo_clause::{Clause, Lit, Rule, StepRecord};
use leo_items::Items;
use leo_terms::{Bank, SymId, TermId};
use std::alloc::{AllocError, Global};

/// The line that introduces a symbol.
fn abbreviation(
    alloc: Global,
    bank: &mut Bank,
    symbol: SymId,
    term: TermId,
) -> Result<StepRecord, AllocError>
    requires { IsChoiceOf bank.old (symbol, term) }
    ensures line { IfOk result (λ r. line_at bank.new r ≡ choice_line (choice_at bank.old (symbol, term))) }
    ensures step { IfOk result (IsStepOf bank.new) }
    ensures grows { Extends bank.old bank.new }
{
    let left = bank.make_sym(symbol)?;
    let mut lits = Items::new(alloc);
    lits.push(Lit {
        pos: true,
        left,
        right: term,
    })?;
    let clause = Clause {
        vars: Items::new(alloc),
        lits,
    };
    Ok(StepRecord {
        clause,
        rule: Rule::Abbreviate { symbol },
    })
}

/// Puts a new choice symbol at the end of the list, and its line at the end of the journal.
fn introduce(
    alloc: Global,
    bank: &mut Bank,
    search: &mut Search,
    symbol: SymId,
    term: TermId,
) -> Result<(), AllocError>
    requires search { IsSearch bank.old search.old }
    requires order { AreInOrder bank.old (search.old.abbr.items ++ (symbol, term) ∷ []) }
    requires hypotheses_lack { LackSymbol symbol (hypotheses_of bank.old search.old) }
    requires lines_lack { LinesLackSymbol symbol (lines_of bank.old search.old) }
    requires origin { IsAllFrom (hypotheses_of bank.old search.old) (lines_of bank.old search.old) (tree_at bank.old term) }
    ensures introduced { IfOk result (λ _. IsAnnounced bank.new search.old search.new (symbol, term)) }
    ensures longer { Grows search.old search.new }
    ensures grows { Extends bank.old bank.new }
{
    bank.is_sound();
    let line = abbreviation(alloc, bank, symbol, term)?;
    let number = search.lines.len() as u64;
    search.lines.push(line)?;
    search.abbr_at.push(number)?;
    search.abbr.items.push((symbol, term))?;
    Ok(())
}

/// Introduces those of the choice symbols that the search does not have yet.
pub(crate) fn introduce_all(
    alloc: Global,
    bank: &mut Bank,
    search: &mut Search,
    items: &[(SymId, TermId)],
) -> Result<(), AllocError>
    requires search { IsSearch bank.old search.old }
    requires order { AreInOrder bank.old items.now }
    requires longer { IsLonger search.old.abbr.items items.now }
    requires new { AreNew bank.old search.old items.now }
    ensures introduced { IfOk result (λ _. AreAnnounced bank.new search.old search.new items.now) }
    ensures longer { Grows search.old search.new }
    ensures grows { Extends bank.old bank.new }
{
    bank.is_sound();
    for place in search.abbr.items.len()..items.len() {
        let item = items[place];
        introduce(alloc, bank, search, item.0, item.1)?;
    }
    Ok(())
}
