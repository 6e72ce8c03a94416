//! What the roles of statements must be.

ghost use Rattle.std.specs.Prelude.{◌≡◌, ◌≢◌, ◌≤◌, length, filter, slice_get, Some, None, OnOk, IfOk, IfErr};
ghost use Rattle.std.specs.List.{list_any};
ghost use Rattle.leo_problem.specs.declared.gathered.Kept.{Kept};
ghost use Rattle.leo_problem.specs.declared.refusal.LoadRefusal.TheVariants.{Memory};
ghost use Rattle.leo_problem.specs.Steps.{RefusesSecond};
ghost use Rattle.leo_problem.specs.Theories as theories;

use crate::gathered::Kept;
use crate::refusal::{LoadRefusal, What, refused};
use crate::roles::Role;
use leo_syntax::Statement;
use std::alloc::Global;

/// Where the role of a statement stands, if it is not listed.
fn unlisted(statement: &Statement) -> Option<u32>
    ensures { result ≡ theories.unlisted statement.now }
{
    match statement {
        Statement::Formula {
            role,
            role_byte,
            ..
        } => match Role::of_word(role.as_slice()) {
            Some(_) => None,
            None => Some(*role_byte),
        },
        _ => None,
    }
}

/// Looks for the first role that is not listed.
pub fn check_listed(alloc: Global, kept: &[Kept]) -> Result<(), LoadRefusal>
    ensures listed { OnOk result (theories.unlisted_role kept.now ≡ None) }
    ensures refusal { IfErr result (λ r. r ≢ Memory → theories.unlisted_role kept.now ≡ Some r) }
{
    for one in kept {
        if let Some(byte) = unlisted(&one.statement) {
            return Err(refused(alloc, one.file.as_slice(), byte, What::Role));
        }
    }
    Ok(())
}

/// The first byte of a statement, if it is a conjecture.
fn conjectured(statement: &Statement) -> Option<u32>
    ensures { result ≡ theories.conjectured statement.now }
{
    match statement {
        Statement::Formula { byte, role, .. } => {
            if role.as_slice() == b"conjecture".as_slice() {
                Some(*byte)
            } else {
                None
            }
        }
        _ => None,
    }
}

/// Whether there is a conjecture. Looks for a second one.
pub fn check_conjectures(alloc: Global, kept: &[Kept]) -> Result<bool, LoadRefusal>
    ensures one { OnOk result (length (theories.conjectures kept.now) ≤ 1) }
    ensures found { IfOk result (λ b. b ≡ theories.has_conjecture kept.now) }
    ensures refusal { IfErr result (λ r. r ≢ Memory → RefusesSecond kept.now r) }
{
    let mut found = false;
    for one in kept {
        if let Some(byte) = conjectured(&one.statement) {
            if found {
                return Err(refused(alloc, one.file.as_slice(), byte, What::Conjectures));
            }
            found = true;
        }
    }
    Ok(found)
}
