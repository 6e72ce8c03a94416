//! Lines of derivations, appended one after the other.

ghost use Rattle.std.specs.Prelude.{◌≡◌, ◌<◌, [], true, false, OnOk};
ghost use Rattle.leo_clause.specs.Typed.{AreLiteralsOf, AreTypesOf};
ghost use Rattle.leo_kernel.specs.Records.{AreStepsOf, AreTermsOfRule};
ghost use Rattle.leo_tstp.specs.Records.{AreSymbolsOf, IsSymbolOfRule};

use leo_clause::{Clause, Lit, Rule, StepRecord};
use leo_items::Items;
use leo_terms::{Bank, TermId, TyId};
use std::alloc::{AllocError, Global};

pub(crate) fn equal(left: TermId, right: TermId) -> Lit
    ensures { result ≡ record { pos = true; left = left; right = right } }
{
    Lit {
        pos: true,
        left,
        right,
    }
}

pub(crate) fn unequal(left: TermId, right: TermId) -> Lit
    ensures { result ≡ record { pos = false; left = left; right = right } }
{
    Lit {
        pos: false,
        left,
        right,
    }
}

/// Appends a line whose clause has variables of these types.
pub(crate) fn put_over(
    alloc: Global,
    bank: &Bank,
    lines: &mut Vec<StepRecord>,
    vars: &[TyId],
    lits: &[Lit],
    rule: Rule,
) -> Result<(), AllocError>
    requires lines { AreStepsOf bank.now lines.old.items }
    requires symbols { AreSymbolsOf bank.now lines.old.items }
    requires vars { AreTypesOf bank.now vars.now }
    requires lits { AreLiteralsOf bank.now lits.now }
    requires rule { AreTermsOfRule bank.now rule }
    requires symbol { IsSymbolOfRule bank.now rule }
    ensures lines { OnOk result (AreStepsOf bank.now lines.new.items) }
    ensures symbols { OnOk result (AreSymbolsOf bank.now lines.new.items) }
{
    let _ = bank;
    let lits = Items::from_slice(alloc, lits)?;
    let vars = Items::from_slice(alloc, vars)?;
    let clause = Clause { vars, lits };
    lines.push(StepRecord { clause, rule })?;
    Ok(())
}

/// Appends a line without variables.
pub(crate) fn put(
    alloc: Global,
    bank: &Bank,
    lines: &mut Vec<StepRecord>,
    lits: &[Lit],
    rule: Rule,
) -> Result<(), AllocError>
    requires lines { AreStepsOf bank.now lines.old.items }
    requires symbols { AreSymbolsOf bank.now lines.old.items }
    requires lits { AreLiteralsOf bank.now lits.now }
    requires rule { AreTermsOfRule bank.now rule }
    requires symbol { IsSymbolOfRule bank.now rule }
    ensures lines { OnOk result (AreStepsOf bank.now lines.new.items) }
    ensures symbols { OnOk result (AreSymbolsOf bank.now lines.new.items) }
{
    put_over(alloc, bank, lines, &[], lits, rule)
}
