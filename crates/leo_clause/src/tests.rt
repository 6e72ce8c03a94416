ghost use Rattle.std.specs.Prelude.{[], ◌∷◌, ◌≡◌, true, IfOk};

use crate::{Clause, Lit, arranged};
use leo_items::Items;
use leo_terms::{Bank, TermId, TyId};
use std::alloc::{AllocError, Global};
use std::test::Fail;

// The clause `y = x | x = y` over two variables.
fn turned(alloc: Global, x: TermId, y: TermId) -> Result<Clause, AllocError>
    ensures vars { IfOk result (λ c. c.vars ≡ 1 ∷ 1 ∷ []) }
    ensures lits { IfOk result (λ c. c.lits ≡ record { pos = true; left = y; right = x } ∷ record { pos = true; left = x; right = y } ∷ []) }
{
    let mut vars = Items::new(alloc);
    vars.push(TyId::thing())?;
    vars.push(TyId::thing())?;
    let mut lits = Items::new(alloc);
    lits.push(Lit {
        pos: true,
        left: y,
        right: x,
    })?;
    lits.push(Lit {
        pos: true,
        left: x,
        right: y,
    })?;
    Ok(Clause { vars, lits })
}

/// Whether of the clause `y = x | x = y` the first literal is left, and its variables are numbered as they come.
fn is_arranged(alloc: Global, bank: &mut Bank) -> Result<bool, AllocError> {
    bank.is_sound();
    let x = bank.make_var(0, TyId::thing())?;
    let y = bank.make_var(1, TyId::thing())?;
    let clause = turned(alloc, x, y)?;
    let result = arranged(alloc, bank, &clause)?;
    let copy = result.copy(alloc)?;
    let wanted = Lit {
        pos: true,
        left: x,
        right: y,
    };
    Ok(!copy.is_empty() && copy.vars.len() == 2 && copy.lits.as_slice() == [wanted].as_slice())
}

#[test]
fn a_turned_literal_goes_and_variables_are_numbered_as_they_come(
    rt: HostRuntime,
) -> Result<(), Fail> {
    let alloc = rt.alloc();
    let mut bank = Bank::new(alloc)?;
    let holds = is_arranged(alloc, &mut bank)?;
    assert!(rt; holds);
    Ok(())
}
