//! The types and symbols of the rows, and clauses of texts.

ghost use Rattle.std.specs.Prelude.{IfOk, IfSome};
ghost use Rattle.leo_terms.specs.Contents.{Extends};
ghost use Rattle.leo_clause.specs.Typed.{AreTypesOf, IsClauseOf};
ghost use Rattle.conclude_rows.specs.Boards.{IsBoard};
ghost use Rattle.conclude_rows.specs.Stacks.{AreSymbols};

use crate::reading::literals;
use leo_clause::Clause;
use leo_items::Items;
use leo_terms::{Bank, SymId, TyId};
use std::alloc::{AllocError, Global};

/// The types that variables may have, and the symbols.
#[derive(Drop)]
pub(crate) struct Board {
    pub types: Items<TyId>,
    pub symbols: Items<SymId>,
}

/// The types behind those of truth values and of things: each is that of the functions from one type before it to another,
/// by their places.
const FUNCTIONS: [(usize, usize); 5] = [(1, 1), (1, 0), (1, 3), (0, 0), (0, 5)];

/// The type of functions between the types at two places.
fn put_function(
    bank: &mut Bank,
    parts: (usize, usize),
    types: &mut Items<TyId>,
) -> Result<(), AllocError>
    requires { AreTypesOf bank.old types.old }
    ensures types { AreTypesOf bank.new types.new }
    ensures grows { Extends bank.old bank.new }
{
    bank.is_sound();
    let (from, to) = parts;
    let known = types.as_slice();
    if from >= known.len() {
        return Ok(());
    }
    if to >= known.len() {
        return Ok(());
    }
    let function = bank.arrow(known[from], known[to])?;
    types.push(function)?;
    Ok(())
}

fn make_types(alloc: Global, bank: &mut Bank) -> Result<Items<TyId>, AllocError>
    ensures types { IfOk result (AreTypesOf bank.new) }
    ensures grows { Extends bank.old bank.new }
{
    bank.is_sound();
    let mut types = Items::from_slice(alloc, &[TyId::truth(), TyId::thing()])?;
    for parts in FUNCTIONS {
        put_function(bank, parts, &mut types)?;
    }
    Ok(types)
}

/// The place of each symbol's type among the types.
const SYMBOL_TYPES: [usize; 10] = [1, 1, 2, 2, 0, 0, 3, 4, 5, 6];

/// A symbol of the type at a place.
fn put_symbol(
    bank: &mut Bank,
    types: &[TyId],
    place: usize,
    symbols: &mut Items<SymId>,
) -> Result<(), AllocError>
    requires types { AreTypesOf bank.old types.now }
    requires symbols { AreSymbols bank.old symbols.old }
    ensures symbols { AreSymbols bank.new symbols.new }
    ensures grows { Extends bank.old bank.new }
{
    bank.is_sound();
    if place >= types.len() {
        return Ok(());
    }
    let symbol = bank.fresh(types[place])?;
    symbols.push(symbol)?;
    Ok(())
}

fn make_symbols(alloc: Global, bank: &mut Bank, types: &[TyId]) -> Result<Items<SymId>, AllocError>
    requires { AreTypesOf bank.old types.now }
    ensures symbols { IfOk result (AreSymbols bank.new) }
    ensures grows { Extends bank.old bank.new }
{
    bank.is_sound();
    let mut symbols = Items::new(alloc);
    for place in SYMBOL_TYPES {
        put_symbol(bank, types, place, &mut symbols)?;
    }
    Ok(symbols)
}

/// The types and the symbols, made in the bank.
pub(crate) fn make_board(alloc: Global, bank: &mut Bank) -> Result<Board, AllocError>
    ensures board { IfOk result (IsBoard bank.new) }
    ensures grows { Extends bank.old bank.new }
{
    bank.is_sound();
    let types = make_types(alloc, bank)?;
    let symbols = make_symbols(alloc, bank, types.as_slice())?;
    Ok(Board { types, symbols })
}

/// The type at a place, if there is one.
fn put_type(
    bank: &Bank,
    types: &[TyId],
    place: usize,
    vars: &mut Items<TyId>,
) -> Result<(), AllocError>
    requires types { AreTypesOf bank.now types.now }
    requires vars { AreTypesOf bank.now vars.old }
    ensures vars { AreTypesOf bank.now vars.new }
{
    let _ = bank;
    if place >= types.len() {
        return Ok(());
    }
    vars.push(types[place])?;
    Ok(())
}

/// The types of variables, by the digits of their places among the types; other bytes are passed over.
fn variable_types(
    alloc: Global,
    bank: &Bank,
    types: &[TyId],
    text: &[u8],
) -> Result<Items<TyId>, AllocError>
    requires { AreTypesOf bank.now types.now }
    ensures { IfOk result (AreTypesOf bank.now) }
{
    let _ = bank;
    let mut vars = Items::new(alloc);
    for digit in text {
        put_type(bank, types, digit.wrapping_sub(b'0') as usize, &mut vars)?;
    }
    Ok(vars)
}

/// A clause of texts.
pub(crate) fn read_clause(
    alloc: Global,
    bank: &mut Bank,
    board: &Board,
    vars: &str,
    texts: &[&str],
) -> Result<Option<Clause>, AllocError>
    requires { IsBoard bank.old board.now }
    ensures clause { IfOk result (λ c. IfSome c (IsClauseOf bank.new)) }
    ensures grows { Extends bank.old bank.new }
{
    bank.is_sound();
    let vars = variable_types(alloc, bank, board.types.as_slice(), vars.as_bytes())?;
    let read = literals(
        alloc,
        bank,
        board.symbols.as_slice(),
        vars.as_slice(),
        texts,
    )?;
    match read {
        Some(lits) => Ok(Some(Clause { vars, lits })),
        None => Ok(None),
    }
}
