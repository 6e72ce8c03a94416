//! The variables of the binders around a place.

ghost use Rattle.std.specs.Prelude.{◌≡◌, ◌<◌, ◌+◌, ◌++◌, ◌∷◌, [], length, OnOk, IfSome};
ghost use Rattle.std.specs.Option.{option_map};
ghost use Rattle.leo_terms.specs.Contents.{Contents, type_at};
ghost use Rattle.leo_elab.specs.Problem.{bound_to};
ghost use Rattle.leo_elab.specs.Places.{scope_in, AreBoundIn};

use leo_items::Items;
use leo_terms::TyId;
use std::alloc::{AllocError, Global};

/// A variable that a binder binds.
#[derive(Drop)]
pub struct Bound {
    pub name: Items<u8>,
    pub ty: TyId,
}

/// Where a variable stands among those around a place, and its type.
#[derive(Clone, Copy)]
pub struct Found {
    /// How many variables stand outside it.
    pub number: usize,
    /// How many variables stand inside it.
    pub inside: usize,
    pub ty: TyId,
}

/// The innermost variable of a name, where the innermost comes last.
pub fn find(scope: &[Bound], name: &[u8]) -> Option<Found>
    ensures found { (c : Contents) → bound_to name.now (scope_in c scope.now) ≡ option_map (λ f. record { number = f.number; type = type_at c f.ty }) result }
    ensures inside { IfSome result (λ f. f.inside + (f.number + 1) ≡ length scope.now) }
    ensures within { (c : Contents) → AreBoundIn c scope.now → IfSome result (λ f. f.ty < length c.types) }
{
    match scope {
        [] => None,
        [outer @ .., last] => {
            if name == last.name.as_slice() {
                Some(Found {
                    number: outer.len(),
                    inside: 0,
                    ty: last.ty,
                })
            } else {
                match find(outer, name) {
                    Some(found) => Some(Found {
                        number: found.number,
                        inside: found.inside + 1,
                        ty: found.ty,
                    }),
                    None => None,
                }
            }
        }
    }
}

/// Puts a variable inside all others.
pub fn enter(alloc: Global, scope: &mut Vec<Bound>, name: &[u8], ty: TyId) -> Result<(), AllocError>
    ensures { OnOk result (scope.new.items ≡ scope.old.items ++ record { name = name.now; ty = ty } ∷ []) }
{
    let name = Items::from_slice(alloc, name)?;
    scope.push(Bound { name, ty })?;
    Ok(())
}
