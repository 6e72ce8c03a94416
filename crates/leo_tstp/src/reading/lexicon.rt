//! The words of a problem's base types and symbols, with what they stand for.

ghost use Rattle.std.specs.Prelude.{◌≡◌, ◌<◌, length, OnOk, IfOk};
ghost use Rattle.leo_terms.specs.Contents.{Contents, Extends};
ghost use Rattle.leo_elab.specs.Table.{AreNamesOf};
ghost use Rattle.leo_clause.specs.Typed.{AreTypesOf};
ghost use Rattle.leo_tstp.specs.Built.{AreSymbolNumbers, IsNumbering};
ghost use Rattle.leo_tstp.specs.Known.{IsKnown};
ghost use Rattle.leo_tstp.specs.Places.{word_place};
ghost use Rattle.leo_tstp.specs.TermPlaces.{symbol_place};

use crate::building::numbers::Numbers;
use crate::reading::trees::{ROOM, TypeNode, Types};
use crate::refusal::Stop;
use crate::words::write_atom;
use indexmap::{IndexMap, IndexSet};
use leo_elab::Names;
use leo_terms::{Bank, SymId, TyId, TyView};
use std::alloc::{AllocError, Global};

/// The words of base types and of symbols, with their places, and the types of symbols.
#[derive(Drop)]
pub(crate) struct Lexicon {
    pub(crate) types: IndexMap<Vec<u8>, usize>,
    pub(crate) symbols: IndexMap<Vec<u8>, usize>,
    pub(crate) symbol_types: Vec<usize>,
}

impl Lexicon {
    /// The place of the base type that a word stands for.
    pub(crate) fn type_named(&self, word: &[u8]) -> Option<usize>
        ensures { result ≡ word_place self.now word.now }
    {
        self.types.get(word).copied()
    }

    /// The place of the symbol that a word stands for.
    pub(crate) fn symbol_named(&self, word: &[u8]) -> Option<usize>
        ensures { result ≡ symbol_place self.now word.now }
    {
        self.symbols.get(word).copied()
    }
}

/// The types and the symbols that were met in a bank, and the places of its base types.
#[derive(Drop)]
pub(crate) struct Known {
    pub(crate) types: Types,
    pub(crate) places: IndexMap<u32, usize>,
    pub(crate) bases: Vec<TyId>,
    pub(crate) symbols: Vec<SymId>,
    pub(crate) seen: IndexSet<SymId>,
}

/// The place of a base type.
fn base_place(known: &mut Known, base: u32, ty: TyId) -> Result<usize, Stop>
    ensures { OnOk result ((c : Contents) → ty < length c.types → IsKnown c known.old → IsKnown c known.new) }
{
    if let Some(place) = known.places.get(&base) {
        return Ok(*place);
    }
    let place = known.bases.len();
    known.places.insert(base, place)?;
    known.bases.push(ty)?;
    Ok(place)
}

/// The place of a type of a bank.
#[cycle(placing)]
fn type_place(bank: &Bank, known: &mut Known, ty: TyId, room: u32) -> Result<usize, Stop>
    requires type_of { ty < length bank.now.types }
    requires known { IsKnown bank.now known.old }
    ensures { OnOk result (IsKnown bank.now known.new) }
{
    let Some(room) = room.checked_sub(1) else {
        return Err(Stop::Memory);
    };
    match bank.view_ty(ty) {
        TyView::Base(base) => {
            let place = base_place(known, base, ty)?;
            let ty = known.types.place(TypeNode::Base(place))?;
            Ok(ty)
        }
        TyView::Arrow(from, to) => arrow_place(bank, known, from, to, room),
    }
}

#[cycle(placing)]
fn arrow_place(
    bank: &Bank,
    known: &mut Known,
    from: TyId,
    to: TyId,
    room: u32,
) -> Result<usize, Stop>
    requires from { from < length bank.now.types }
    requires to { to < length bank.now.types }
    requires known { IsKnown bank.now known.old }
    ensures { OnOk result (IsKnown bank.now known.new) }
{
    let from = type_place(bank, known, from, room)?;
    let to = type_place(bank, known, to, room)?;
    let ty = known.types.place(TypeNode::Arrow(from, to))?;
    Ok(ty)
}

/// An atom as it is written.
fn atom_word(alloc: Global, atom: &[u8]) -> Result<Vec<u8>, AllocError> {
    let mut word = Vec::new(alloc);
    write_atom(atom, &mut word)?;
    Ok(word)
}

/// Keeps the word of a type, if it is the first of a base type.
fn learn_type(
    alloc: Global,
    bank: &Bank,
    known: &mut Known,
    lexicon: &mut Lexicon,
    atom: &[u8],
    ty: TyId,
) -> Result<(), Stop>
    requires type_of { ty < length bank.now.types }
    requires known { IsKnown bank.now known.old }
    ensures { OnOk result (IsKnown bank.now known.new) }
{
    if let TyView::Base(base) = bank.view_ty(ty) {
        if known.places.contains_key(&base) {
            return Ok(());
        }
        let word = atom_word(alloc, atom)?;
        let place = base_place(known, base, ty)?;
        let ty = known.types.place(TypeNode::Base(place))?;
        lexicon.types.insert(word, ty)?;
    }
    Ok(())
}

/// Keeps the words of the base types that are declared.
fn learn_types(
    alloc: Global,
    bank: &Bank,
    names: &Names,
    known: &mut Known,
    lexicon: &mut Lexicon,
) -> Result<(), Stop>
    requires names { AreNamesOf bank.now names.now }
    requires known { IsKnown bank.now known.old }
    ensures { OnOk result (IsKnown bank.now known.new) }
{
    let types = names.types();
    for place in 0..types.len() {
        if let Some((atom, ty)) = types.get_index(place) {
            learn_type(alloc, bank, known, lexicon, atom.as_slice(), *ty)?;
        }
    }
    Ok(())
}

/// Keeps a symbol, if it is met for the first time, with its word and its type. A bank tells the types of terms alone,
/// so that a term is made of it.
fn learn_symbol(
    alloc: Global,
    bank: &mut Bank,
    known: &mut Known,
    lexicon: &mut Lexicon,
    atom: &[u8],
    symbol: SymId,
) -> Result<(), Stop>
    requires symbol { symbol < length bank.old.symbols }
    requires known { IsKnown bank.old known.old }
    ensures known { OnOk result (IsKnown bank.new known.new) }
    ensures grows { Extends bank.old bank.new }
{
    bank.is_sound();
    if known.seen.contains(&symbol) {
        return Ok(());
    }
    let term = bank.make_sym(symbol)?;
    let ty = bank.type_of(term);
    let ty = type_place(bank, known, ty, ROOM)?;
    keep_symbol(alloc, known, lexicon, atom, symbol, ty)
}

fn keep_symbol(
    alloc: Global,
    known: &mut Known,
    lexicon: &mut Lexicon,
    atom: &[u8],
    symbol: SymId,
    ty: usize,
) -> Result<(), Stop>
    ensures { OnOk result ((c : Contents) → symbol < length c.symbols → IsKnown c known.old → IsKnown c known.new) }
{
    let word = atom_word(alloc, atom)?;
    lexicon.symbols.insert(word, known.symbols.len())?;
    lexicon.symbol_types.push(ty)?;
    known.seen.insert(symbol)?;
    known.symbols.push(symbol)?;
    Ok(())
}

/// Keeps the symbols that are declared.
fn learn_symbols(
    alloc: Global,
    bank: &mut Bank,
    names: &Names,
    known: &mut Known,
    lexicon: &mut Lexicon,
) -> Result<(), Stop>
    requires names { AreNamesOf bank.old names.now }
    requires known { IsKnown bank.old known.old }
    ensures known { OnOk result (IsKnown bank.new known.new) }
    ensures grows { Extends bank.old bank.new }
{
    bank.is_sound();
    let constants = names.constants();
    for place in 0..constants.len() {
        if let Some((atom, symbol)) = constants.get_index(place) {
            learn_symbol(alloc, bank, known, lexicon, atom.as_slice(), *symbol)?;
        }
    }
    Ok(())
}

/// `$o` and `$i`.
fn first_words(alloc: Global) -> Result<Lexicon, Stop> {
    let mut types = IndexMap::new(alloc);
    let truth = Vec::from_slice(alloc, b"$o")?;
    types.insert(truth, 0)?;
    let thing = Vec::from_slice(alloc, b"$i")?;
    types.insert(thing, 1)?;
    Ok(Lexicon {
        types,
        symbols: IndexMap::new(alloc),
        symbol_types: Vec::new(alloc),
    })
}

fn first_known(alloc: Global, bank: &Bank) -> Result<Known, Stop>
    ensures { IfOk result (IsKnown bank.now) }
{
    bank.is_sound();
    let mut places = IndexMap::new(alloc);
    places.insert(0, 0)?;
    places.insert(1, 1)?;
    let mut bases = Vec::new(alloc);
    bases.push(TyId::truth())?;
    bases.push(TyId::thing())?;
    let types = Types::new(alloc)?;
    Ok(Known {
        types,
        places,
        bases,
        symbols: Vec::new(alloc),
        seen: IndexSet::new(alloc),
    })
}

/// The words of a problem's base types and symbols, with the types and symbols that they stand for.
#[derive(Drop)]
pub(crate) struct Start {
    pub(crate) lexicon: Lexicon,
    pub(crate) types: Types,
    pub(crate) numbers: Numbers,
}

/// What is known of a problem before its text.
pub(crate) fn start_of(alloc: Global, bank: &mut Bank, names: &Names) -> Result<Start, Stop>
    requires { AreNamesOf bank.old names.now }
    ensures numbering { IfOk result (λ s. IsNumbering bank.new s.numbers) }
    ensures grows { Extends bank.old bank.new }
{
    bank.is_sound();
    let mut lexicon = first_words(alloc)?;
    let mut known = first_known(alloc, bank)?;
    learn_types(alloc, bank, names, &mut known, &mut lexicon)?;
    learn_symbols(alloc, bank, names, &mut known, &mut lexicon)?;
    Ok(Start {
        lexicon,
        types: known.types,
        numbers: numbers_of(alloc, known.bases, known.symbols),
    })
}

/// Base types and symbols, before any type has a number.
fn numbers_of(alloc: Global, bases: Vec<TyId>, symbols: Vec<SymId>) -> Numbers
    ensures { (c : Contents) → AreTypesOf c bases.items → AreSymbolNumbers c symbols.items → IsNumbering c result }
{
    Numbers {
        bases,
        types: Vec::new(alloc),
        symbols,
    }
}
