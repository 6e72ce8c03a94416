//! All that is inferred from one clause alone.

ghost use Rattle.std.specs.Prelude.{[], ◌≡◌, length, map, IfOk, OnErr, OnOk};
ghost use Rattle.leo_terms.specs.Contents.{Extends};
ghost use Rattle.leo_clause.specs.Trees.{clause_at};
ghost use Rattle.leo_clause.specs.Typed.{IsTypedIn};
ghost use Rattle.leo_clausify.specs.Choosing.{AreInOrder};
ghost use Rattle.leo_ext.specs.Functions.{AreExtendedOf, extended_member};
ghost use Rattle.leo_ext.specs.Joining.{AreUnaryIn, StandFirst, joined};
ghost use Rattle.leo_ext.specs.Listing.{Adds};

use crate::bool_ext::put_bool_ext;
use crate::choice::put_choice;
use crate::factor::put_factor;
use crate::func_ext::{Extended, all_extended, put_func_ext};
use crate::primitive::put_primitive;
use crate::resolve::put_resolve;
use crate::truths::make_truths;
use leo_clause::{Abbr, Clause};
use leo_para::Due;
use leo_terms::Bank;
use std::alloc::{AllocError, Global};

/// How many choice symbols there are, which is the number of the clause's line.
fn count_of(choices: &Abbr) -> u64
    ensures { result ≡ length choices.now.items }
{
    choices.items.len() as u64
}

/// Appends the members by each rule in turn. The clause stands in the line with the number `before`.
fn put_all(
    alloc: Global,
    bank: &mut Bank,
    clause: &Clause,
    before: u64,
    extended: &[Extended],
    dues: &mut Vec<Due>,
) -> Result<(), AllocError>
    requires clause { IsTypedIn bank.old clause.now }
    requires extended { AreExtendedOf bank.old extended.now }
    ensures adds { OnOk result (Adds bank.old bank.new dues.old.items dues.new.items (joined before (clause_at bank.old clause.now) (map (extended_member bank.old before) extended.now))) }
    ensures grows { Extends bank.old bank.new }
{
    let truths = make_truths(bank)?;
    put_resolve(alloc, bank, clause, before, dues)?;
    put_factor(alloc, bank, &truths, clause, before, dues)?;
    put_bool_ext(alloc, bank, &truths, clause, before, dues)?;
    put_func_ext(alloc, bank, before, extended, dues)?;
    put_primitive(alloc, bank, &truths, clause, before, dues)?;
    put_choice(alloc, bank, &truths, clause, before, dues)?;
    Ok(())
}

/// All that is inferred from a clause alone, in order: by resolving a negative literal, by factoring, by the two cases of
/// an equation of truth values, by the values of functions, by binding a variable at the head of a formula, and by the
/// axiom of choice.
///
/// The records of each member are numbered on from the lines of the choice symbols, as the call leaves them, and one line
/// with the clause. New choice symbols are put at the end of the list. The bank gains types, symbols and terms at most.
///
/// # Errors
///
/// Want of memory, also where a term is deeper than [`leo_terms::DEPTH`] levels. The choice symbols are as before then.
pub fn unary(
    alloc: Global,
    bank: &mut Bank,
    abbr: &mut Abbr,
    clause: &Clause,
) -> Result<Vec<Due>, AllocError>
    requires clause { IsTypedIn bank.old clause.now }
    requires in_order { AreInOrder bank.old abbr.old.items }
    ensures members { IfOk result (λ dues. AreUnaryIn bank.old bank.new abbr.old.items abbr.new.items clause.now dues.items) }
    ensures in_order { AreInOrder bank.new abbr.new.items }
    ensures longer { StandFirst abbr.old.items abbr.new.items }
    ensures err { OnErr result (abbr.new ≡ abbr.old) }
    ensures grows { Extends bank.old bank.new }
{
    bank.is_sound();
    let mut choices = abbr.copy(alloc)?;
    let extended = all_extended(alloc, bank, &mut choices, clause)?;
    let before = count_of(&choices);
    let mut dues = Vec::new(alloc);
    put_all(alloc, bank, clause, before, &extended, &mut dues)?;
    *abbr = choices;
    Ok(dues)
}
