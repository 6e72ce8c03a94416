//! The step of an empty clause of the text.

ghost use Rattle.std.specs.Prelude.{◌≡◌, ◌++◌, ◌∷◌, [], map, length, IfOk, OnOk};
ghost use Rattle.fo_terms.specs.Prefix.{prefix_of_all};
ghost use Rattle.fo_replay.specs.Replays.{instance_words, node_as_word};
ghost use Rattle.fo_prove.specs.Refutations.{own_variables};

use crate::steps::{count_of, push_numbers};
use fo_text::answer::{FoStep, FoWord};
use fo_text::problem::FoClause;
use sqlite_items::Items;
use std::alloc::{AllocError, Global};

/// Puts the words of the first variables at the end.
fn push_variables(count: u32, words: &mut Items<FoWord>) -> Result<(), AllocError>
    ensures { OnOk result (words.new ≡ words.old ++ map node_as_word (prefix_of_all (own_variables count))) }
{
    let mut variable = 0;
    while variable < count {
        words.push(FoWord::Var(variable))?;
        variable += 1;
    }
    Ok(())
}

/// The words of an instance by a clause's own variables.
fn own_words(alloc: Global, vars: &[u32]) -> Result<Items<FoWord>, AllocError>
    ensures { IfOk result (λ ws. ws ≡ instance_words vars.now (own_variables (length vars.now))) }
{
    let count = count_of(vars)?;
    let mut words = Items::new(alloc);
    words.push(FoWord::Number(count))?;
    push_numbers(vars, &mut words)?;
    push_variables(count, &mut words)?;
    Ok(words)
}

/// The instance of a clause by its own variables.
pub(crate) fn own_step(
    alloc: Global,
    clause: &FoClause,
    number: usize,
) -> Result<Items<FoStep>, AllocError>
    ensures { IfOk result (λ steps. steps ≡ FoStep.Inst number (instance_words clause.now.vars (own_variables (length clause.now.vars))) ∷ []) }
{
    if number > 0xffff_ffff {
        return Err(AllocError);
    }
    let words = own_words(alloc, clause.vars.as_slice())?;
    let mut steps = Items::new(alloc);
    steps.push(FoStep::Inst {
        parent: number as u32,
        words,
    })?;
    Ok(steps)
}
