//! Copies of banks.

ghost use Rattle.std.specs.Prelude.{◌≡◌, ◌<◌, ℕ, true, IfOk, Some, length, map, slice_get};
ghost use Rattle.leo_terms.specs.Contents.{IsBank, IsSound};
ghost use Rattle.leo_terms.specs.SymbolView.{symbol_of};

use crate::bank::{Bank, Symbol};
use indexmap::{IndexMap, IndexSet};
use std::alloc::{AllocError, Global};
use std::hash::Hash;

/// The node with a number.
fn node_at<T: Eq + Hash + Copy>(nodes: &IndexSet<T>, place: usize) -> T
    requires { place < length nodes.now.keys }
    ensures { slice_get nodes.now.keys place ≡ Some result }
{
    match nodes.get_index(place) {
        Some(node) => *node,
        None => unreachable!(),
    }
}

/// A set with the same nodes under the same numbers.
pub(crate) fn copied<T: Eq + Hash + Copy + Drop>(
    alloc: Global,
    nodes: &IndexSet<T>,
) -> Result<IndexSet<T>, AllocError>
    ensures { ((x y : T) → T.eq x y ≡ true → x ≡ y) → IfOk result (λ s. s.keys ≡ nodes.now.keys) }
{
    let mut copy = IndexSet::new(alloc);
    for place in 0..nodes.len() {
        let node = node_at(nodes, place);
        copy.insert_full(node)?;
    }
    Ok(copy)
}

fn copied_symbol(alloc: Global, symbol: &Symbol) -> Result<Symbol, AllocError>
    ensures { IfOk result (λ s. symbol_of s ≡ symbol_of symbol.now) }
{
    let name = match &symbol.name {
        Some(name) => Some(name.to_vec(alloc)?),
        None => None,
    };
    Ok(Symbol {
        name,
        ty: symbol.ty,
    })
}

pub(crate) fn copied_symbols(alloc: Global, symbols: &[Symbol]) -> Result<Vec<Symbol>, AllocError>
    ensures { IfOk result (λ s. map symbol_of s.items ≡ map symbol_of symbols.now) }
{
    let mut copy = Vec::new(alloc);
    for symbol in symbols {
        let symbol = copied_symbol(alloc, symbol)?;
        copy.push(symbol)?;
    }
    Ok(copy)
}

impl Bank {
    /// A bank with the same types, symbols and terms under the same numbers.
    pub fn copy(&self, alloc: Global) -> Result<Bank, AllocError>
        ensures equal { IfOk result (λ b. b ≡ self.now) }
        ensures sound { IsBank self.now }
    {
        self.copied_bank(alloc)
    }

    fn copied_bank(&self, alloc: Global) -> Result<Bank, AllocError>
        ensures equal { IfOk result (λ b. b ≡ self.now) }
        ensures sound { IsSound self.now }
    {
        Ok(Bank {
            bases: self.bases,
            types: copied(alloc, &self.types)?,
            symbols: copied_symbols(alloc, &self.symbols)?,
            terms: copied(alloc, &self.terms)?,
            facts: self.facts.to_vec(alloc)?,
            lifts: IndexMap::new(alloc),
            puts: IndexMap::new(alloc),
            expansions: IndexMap::new(alloc),
            normals: IndexMap::new(alloc),
        })
    }
}
