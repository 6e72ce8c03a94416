//! The types and symbols of a bank that the trees of a text name by their places.

ghost use Rattle.std.specs.Prelude.{◌≡◌, ◌<◌, length, OnOk, IfOk};
ghost use Rattle.leo_terms.specs.Contents.{Contents, Extends};
ghost use Rattle.leo_tstp.specs.Built.{IsNumbering};

use crate::reading::trees::{TypeNode, Types};
use crate::refusal::Stop;
use leo_terms::{Bank, SymId, TyId};

/// The base types, the types and the symbols, each at its place.
#[derive(Drop)]
pub(crate) struct Numbers {
    pub(crate) bases: Vec<TyId>,
    pub(crate) types: Vec<TyId>,
    pub(crate) symbols: Vec<SymId>,
}

fn base_numbered(numbers: &Numbers, place: usize) -> Result<TyId, Stop>
    ensures { IfOk result (λ t. (c : Contents) → IsNumbering c numbers.now → t < length c.types) }
{
    let bases = numbers.bases.as_slice();
    if place >= bases.len() {
        return Err(Stop::Refused);
    }
    Ok(bases[place])
}

/// The type of a place.
pub(crate) fn type_numbered(numbers: &Numbers, place: usize) -> Result<TyId, Stop>
    ensures { IfOk result (λ t. (c : Contents) → IsNumbering c numbers.now → t < length c.types) }
{
    let types = numbers.types.as_slice();
    if place >= types.len() {
        return Err(Stop::Refused);
    }
    Ok(types[place])
}

/// The symbol of a place.
pub(crate) fn symbol_numbered(numbers: &Numbers, place: usize) -> Result<SymId, Stop>
    ensures { IfOk result (λ s. (c : Contents) → IsNumbering c numbers.now → s < length c.symbols) }
{
    let symbols = numbers.symbols.as_slice();
    if place >= symbols.len() {
        return Err(Stop::Refused);
    }
    Ok(symbols[place])
}

/// A type whose parts have their numbers.
fn type_of_node(bank: &mut Bank, numbers: &Numbers, node: TypeNode) -> Result<TyId, Stop>
    requires { IsNumbering bank.old numbers.now }
    ensures within { IfOk result (λ i. i < length bank.new.types) }
    ensures grows { Extends bank.old bank.new }
{
    bank.is_sound();
    match node {
        TypeNode::Base(place) => {
            let ty = base_numbered(numbers, place)?;
            Ok(ty)
        }
        TypeNode::Arrow(from, to) => {
            let a = type_numbered(numbers, from)?;
            let b = type_numbered(numbers, to)?;
            let ty = bank.arrow(a, b)?;
            Ok(ty)
        }
    }
}

/// Gives the types that have none yet their numbers.
pub(crate) fn number_types(
    bank: &mut Bank,
    types: &Types,
    numbers: &mut Numbers,
) -> Result<(), Stop>
    requires { IsNumbering bank.old numbers.old }
    ensures numbering { OnOk result (IsNumbering bank.new numbers.new) }
    ensures symbols { OnOk result (numbers.new.symbols ≡ numbers.old.symbols) }
    ensures grows { Extends bank.old bank.new }
{
    bank.is_sound();
    for place in numbers.types.len()..types.nodes.len() {
        let Some(node) = types.node(place) else {
            return Err(Stop::Refused);
        };
        let ty = type_of_node(bank, numbers, node)?;
        numbers.types.push(ty)?;
    }
    Ok(())
}
