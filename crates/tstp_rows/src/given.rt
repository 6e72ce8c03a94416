//! The terms of the derivations.

ghost use Rattle.std.specs.Prelude.{◌<◌, length, IfOk};
ghost use Rattle.leo_terms.specs.Contents.{Extends};
ghost use Rattle.tstp_rows.specs.Given.{AreTermsIn, IsNameIn};

use leo_terms::{Bank, Op, SymId, TermId, TyId};
use std::alloc::AllocError;

/// A symbol, with the term of it.
#[derive(Clone, Copy)]
pub(crate) struct Name {
    pub(crate) symbol: SymId,
    pub(crate) term: TermId,
}

/// The two truth values, a variable for things and one for truth values, and a symbol for each.
#[derive(Clone, Copy)]
pub(crate) struct Terms {
    pub(crate) truth: TermId,
    pub(crate) falsity: TermId,
    pub(crate) thing: TermId,
    pub(crate) value: TermId,
    pub(crate) first: Name,
    pub(crate) second: Name,
}

fn make_name(bank: &mut Bank, ty: TyId) -> Result<Name, AllocError>
    requires { ty < length bank.old.types }
    ensures name { IfOk result (IsNameIn bank.new) }
    ensures grows { Extends bank.old bank.new }
{
    bank.is_sound();
    let symbol = bank.fresh(ty)?;
    let term = bank.make_sym(symbol)?;
    Ok(Name { symbol, term })
}

/// Makes the terms.
pub(crate) fn make_terms(bank: &mut Bank) -> Result<Terms, AllocError>
    ensures terms { IfOk result (AreTermsIn bank.new) }
    ensures grows { Extends bank.old bank.new }
{
    bank.is_sound();
    let truth = bank.make_logic(Op::True, &[])?;
    let falsity = bank.make_logic(Op::False, &[])?;
    let thing = bank.make_var(0, TyId::thing())?;
    let value = bank.make_var(1, TyId::truth())?;
    let first = make_name(bank, TyId::truth())?;
    let second = make_name(bank, TyId::thing())?;
    Ok(Terms {
        truth,
        falsity,
        thing,
        value,
        first,
        second,
    })
}
