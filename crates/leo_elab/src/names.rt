//! What the atoms of a problem are.

ghost use Rattle.std.specs.Prelude.{◌≡◌, ◌++◌, ◌∷◌, [], map, OnOk, None};
ghost use Rattle.std.specs.Option.{option_map};
ghost use Rattle.leo_elab.specs.Problem.{named};
ghost use Rattle.leo_elab.specs.Table.{atom_of};

use indexmap::IndexMap;
use leo_terms::{SymId, TyId};
use std::alloc::{AllocError, Global};
use std::marker::Model;

/// The declared atoms: those that are types and those that are constants, each in the order in which
/// they were declared.
#[derive(Drop)]
pub struct Names {
    types: IndexMap<Vec<u8>, TyId>,
    constants: IndexMap<Vec<u8>, SymId>,
}

impl Model for Names {
    ghost use Rattle.leo_elab.specs.Table.{Table};

    ghost Value = { Table };

    ghost use Rattle.leo_elab.specs.NamesView.{table_of};

    ghost view = { table_of };
}

impl Names {
    /// No atoms.
    pub fn new(alloc: Global) -> Names
        ensures types { result.types ≡ [] }
        ensures constants { result.constants ≡ [] }
    {
        Names {
            types: IndexMap::new(alloc),
            constants: IndexMap::new(alloc),
        }
    }

    /// The atoms that are types, in the order in which they were declared.
    pub fn types(&self) -> &IndexMap<Vec<u8>, TyId>
        ensures { map (λ p. (p.0.items, p.1)) result.now.entries ≡ self.now.types }
    {
        &self.types
    }

    /// The atoms that are constants, in the order in which they were declared.
    pub fn constants(&self) -> &IndexMap<Vec<u8>, SymId>
        ensures { map (λ p. (p.0.items, p.1)) result.now.entries ≡ self.now.constants }
    {
        &self.constants
    }

    /// The type that an atom is, if it is one.
    pub fn type_named(&self, atom: &[u8]) -> Option<TyId>
        ensures { result ≡ named atom.now self.now.types }
    {
        self.types.get(atom).copied()
    }

    /// The constant that an atom is, if it is one.
    pub fn constant_named(&self, atom: &[u8]) -> Option<SymId>
        ensures { result ≡ named atom.now self.now.constants }
    {
        self.constants.get(atom).copied()
    }

    /// The first atom that is the constant, if there is one.
    pub fn atom_of(&self, constant: SymId) -> Option<&[u8]>
        ensures { option_map (λ a. a.now) result ≡ atom_of constant self.now.constants }
    {
        for place in 0..self.constants.len() {
            if let Some((atom, symbol)) = self.constants.get_index(place) {
                if *symbol == constant {
                    return Some(atom.as_slice());
                }
            }
        }
        None
    }

    /// Adds an atom as a type.
    pub(crate) fn add_type(
        &mut self,
        alloc: Global,
        atom: &[u8],
        ty: TyId,
    ) -> Result<(), AllocError>
        requires { named atom.now self.old.types ≡ None }
        ensures { OnOk result (self.new ≡ record self.old { types = self.old.types ++ (atom.now, ty) ∷ [] }) }
    {
        let key = Vec::from_slice(alloc, atom)?;
        self.types.insert(key, ty)?;
        Ok(())
    }

    /// Adds an atom as a constant.
    pub(crate) fn add_constant(
        &mut self,
        alloc: Global,
        atom: &[u8],
        symbol: SymId,
    ) -> Result<(), AllocError>
        requires { named atom.now self.old.constants ≡ None }
        ensures { OnOk result (self.new ≡ record self.old { constants = self.old.constants ++ (atom.now, symbol) ∷ [] }) }
    {
        let key = Vec::from_slice(alloc, atom)?;
        self.constants.insert(key, symbol)?;
        Ok(())
    }
}
