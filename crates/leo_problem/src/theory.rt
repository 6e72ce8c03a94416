//! From kept statements to a problem.

ghost use Rattle.std.specs.Prelude.{◌≡◌, ◌≢◌, OnOk, IfOk, IfErr};
ghost use Rattle.leo_problem.specs.declared.refusal.LoadRefusal.TheVariants.{Memory};
ghost use Rattle.leo_problem.specs.Loading.{IsProblem, theory_of};
ghost use Rattle.leo_problem.specs.Theories.{Says, says, refused, HaveRoles, has_conjecture};

use crate::assuming::hypotheses;
use crate::gathered::Kept;
use crate::loaded::Problem;
use crate::refusal::LoadRefusal;
use crate::ruling::{check_conjectures, check_listed};
use crate::typed::declare;
use leo_terms::Bank;
use std::alloc::Global;

/// Whether there is a conjecture. Looks for what is wrong in the roles.
fn check_roles(alloc: Global, kept: &[Kept]) -> Result<bool, LoadRefusal>
    ensures roles { OnOk result (HaveRoles kept.now) }
    ensures found { IfOk result (λ b. b ≡ has_conjecture kept.now) }
    ensures refusal { IfErr result (λ r. r ≢ Memory → Says kept.now (refused r)) }
{
    check_listed(alloc, kept)?;
    let conjecture = check_conjectures(alloc, kept)?;
    Ok(conjecture)
}

/// The problem that statements say.
pub fn problem(alloc: Global, kept: &[Kept]) -> Result<Problem, LoadRefusal>
    ensures problem { IfOk result IsProblem }
    ensures says { IfOk result (λ p. Says kept.now (says (theory_of p))) }
    ensures refusal { IfErr result (λ r. r ≢ Memory → Says kept.now (refused r)) }
{
    let conjecture = check_roles(alloc, kept)?;
    let Ok(statements) = u32::try_from(kept.len()) else {
        return Err(LoadRefusal::Memory);
    };
    let mut bank = Bank::new(alloc)?;
    let names = declare(alloc, &mut bank, kept)?;
    let hyps = hypotheses(alloc, &mut bank, &names, kept)?;
    Ok(Problem {
        bank,
        names,
        hyps,
        conjecture,
        statements,
    })
}
