//! The first typing of each atom, which says what the atom is.

ghost use Rattle.std.specs.Prelude.{◌≡◌, ◌<◌, ◌++◌, ◌∷◌, [], List, ℕ, length, slice_get, option_copied, Some, None, OnOk, IfOk};
ghost use Rattle.leo_syntax.specs.declared.tree.TypeTree.{TypeTree};
ghost use Rattle.leo_elab.specs.Problem.{named};
ghost use Rattle.leo_elab.specs.Pairs.{without, beyond};
ghost use Rattle.leo_elab.specs.Typings as typings_of;

use indexmap::IndexMap;
use leo_syntax::TypeTree;
use std::alloc::{AllocError, Global};
use std::marker::Model;

/// A typing: an atom, the byte where it stands, and its type.
#[derive(Drop)]
pub struct Typing<'a> {
    pub atom: &'a [u8],
    pub atom_byte: u32,
    pub ty: &'a TypeTree,
}

impl<'a> Model for Typing<'a> {
    ghost use Rattle.std.specs.Coded.{codes};
    ghost use Rattle.leo_syntax.specs.contracts.tree.TypeTree as type_tree;
    ghost use Rattle.leo_elab.specs.Typings.{Typing as TypingValue};

    ghost Value = { TypingValue };

    ghost coded = { Prim.hlevel (codes, type_tree.the_row.coded) };

    ghost view = { λ t. record { atom = t.atom.now; byte = t.atom_byte; ty = t.ty.now } };
}

/// Atoms, each with the type of its first typing, in the order of these.
#[derive(Drop)]
pub struct Firsts<'a> {
    types: IndexMap<Vec<u8>, &'a TypeTree>,
}

impl<'a> Model for Firsts<'a> {
    ghost use Rattle.std.specs.Prelude.{List, ℕ, map};
    ghost use Rattle.std.specs.Coded.{codes};
    ghost use Rattle.leo_syntax.specs.contracts.tree.TypeTree as type_tree;
    ghost use Rattle.leo_syntax.specs.declared.tree.TypeTree.{TypeTree};

    ghost Value = { List (List ℕ × TypeTree) };

    ghost coded = { Prim.hlevel (codes, type_tree.the_row.coded) };

    ghost view = { λ f. map (λ p. (p.0.items, p.1.now)) f.types.entries };
}

impl<'a> Firsts<'a> {
    fn new(alloc: Global) -> Firsts<'a>
        ensures { result ≡ [] }
    {
        Firsts {
            types: IndexMap::new(alloc),
        }
    }

    /// How many atoms there are.
    pub fn len(&self) -> usize
        ensures { result ≡ length self.now }
    {
        self.types.len()
    }

    /// The type of an atom.
    pub fn type_of(&self, atom: &[u8]) -> Option<&'a TypeTree>
        ensures { option_copied result ≡ named atom.now self.now }
    {
        self.types.get(atom).copied()
    }

    /// The atom at a place and its type.
    pub fn at(&self, place: usize) -> (&[u8], &'a TypeTree)
        requires { place < length self.now }
        ensures { slice_get self.now place ≡ Some (result.0.now, result.1.now) }
    {
        match self.types.get_index(place) {
            Some((atom, ty)) => (atom.as_slice(), *ty),
            None => unreachable!(),
        }
    }

    fn add(&mut self, alloc: Global, atom: &[u8], ty: &'a TypeTree) -> Result<(), AllocError>
        requires { named atom.now self.old ≡ None }
        ensures { OnOk result (self.new ≡ self.old ++ (atom.now, ty.now) ∷ []) }
    {
        let key = Vec::from_slice(alloc, atom)?;
        self.types.insert(key, ty)?;
        Ok(())
    }

    /// Adds the atom of a typing, unless it is there.
    fn note(&mut self, alloc: Global, typing: &Typing<'a>) -> Result<(), AllocError>
        ensures { OnOk result ((later : List (List ℕ × TypeTree)) → self.new ++ beyond self.new later ≡ self.old ++ beyond self.old ((typing.now.atom, typing.now.ty) ∷ without typing.now.atom later)) }
    {
        if self.type_of(typing.atom).is_none() {
            self.add(alloc, typing.atom, typing.ty)?;
        }
        Ok(())
    }
}

/// The first typings of the atoms of a list.
pub fn first_typings<'a>(alloc: Global, typings: &[Typing<'a>]) -> Result<Firsts<'a>, AllocError>
    ensures { IfOk result (λ found. found ≡ typings_of.first_typings typings.now) }
{
    let mut found = Firsts::new(alloc);
    for typing in typings {
        found.note(alloc, typing)?;
    }
    Ok(found)
}
