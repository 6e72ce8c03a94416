//! The words of base types and of symbols.

ghost use Rattle.std.specs.Prelude.{[], ◌≡◌, ◌++◌, ◌+◌, ◌<◌, ℕ, length, map, max, nat_eq, replicate, codes, OnOk, IfOk, if◌then◌else◌};
ghost use Rattle.std.specs.Option.{option_map_or};
ghost use Rattle.indexmap.specs.IndexMap.{get};
ghost use Rattle.leo_terms.specs.Contents.{type_at};
ghost use Rattle.leo_elab.specs.Table.{AreNamesOf, declared_in};
ghost use Rattle.leo_kernel.specs.Steps.{rule_at};
ghost use Rattle.leo_tstp.specs.Words.{atom_text};
ghost use Rattle.leo_tstp.specs.Namings.{base_in, symbol_in, words_in};
ghost use Rattle.leo_tstp.specs.Vocabulary.{base_atom, base_word_by, is_base, new_name, new_prefix, symbol_atom, with_rule, with_word, word_of};
ghost use Rattle.leo_tstp.specs.Vocabulary as spec;
ghost use Rattle.leo_tstp.specs.Derivations.{words_of};

use crate::words::{write_atom, write_number};
use indexmap::IndexMap;
use leo_clause::Rule;
use leo_elab::Names;
use leo_problem::Problem;
use leo_terms::{Bank, SymId, TyId, TyView};
use std::alloc::{AllocError, Global};

/// The words of base types and of symbols, and how the names of abbreviations begin, of which so many are in use.
#[derive(Drop)]
pub(crate) struct Namer {
    pub(crate) bases: IndexMap<u32, Vec<u8>>,
    pub(crate) symbols: IndexMap<SymId, Vec<u8>>,
    pub(crate) prefix: Vec<u8>,
    pub(crate) introduced: u64,
}

/// Keeps the word of a base type, in the place of another.
fn put_base(
    alloc: Global,
    bases: &mut IndexMap<u32, Vec<u8>>,
    base: u32,
    atom: &[u8],
) -> Result<(), AllocError>
    ensures { OnOk result ((k : ℕ) → option_map_or (λ w. w.items) (get nat_eq bases.new k) [] ≡ with_word (λ j. option_map_or (λ w. w.items) (get nat_eq bases.old j) []) base (atom_text atom.now) k) }
{
    let mut word = Vec::new(alloc);
    write_atom(atom, &mut word)?;
    bases.insert(base, word)?;
    Ok(())
}

/// Keeps the word of a type, if it is a base type.
fn put_type(
    alloc: Global,
    bank: &Bank,
    bases: &mut IndexMap<u32, Vec<u8>>,
    ty: TyId,
    atom: &[u8],
) -> Result<(), AllocError>
    requires { ty < length bank.now.types }
    ensures { OnOk result ((k : ℕ) → option_map_or (λ w. w.items) (get nat_eq bases.new k) [] ≡ (if is_base k (type_at bank.now ty) then atom_text atom.now else option_map_or (λ w. w.items) (get nat_eq bases.old k) [])) }
{
    match bank.view_ty(ty) {
        TyView::Base(base) => put_base(alloc, bases, base, atom),
        TyView::Arrow(..) => Ok(()),
    }
}

/// The words of the base types that are declared.
fn base_words(
    alloc: Global,
    bank: &Bank,
    names: &Names,
) -> Result<IndexMap<u32, Vec<u8>>, AllocError>
    requires { AreNamesOf bank.now names.now }
    ensures { IfOk result (λ bases. (k : ℕ) → option_map_or (λ w. w.items) (get nat_eq bases k) [] ≡ word_of (base_atom k (declared_in bank.now names.now).types)) }
{
    let types = names.types();
    let mut bases = IndexMap::new(alloc);
    let mut place = types.len();
    while place > 0 {
        place -= 1;
        if let Some((atom, ty)) = types.get_index(place) {
            put_type(alloc, bank, &mut bases, *ty, atom.as_slice())?;
        }
    }
    Ok(bases)
}

/// Keeps the word of a symbol, in the place of another.
fn put_symbol(
    alloc: Global,
    symbols: &mut IndexMap<SymId, Vec<u8>>,
    symbol: SymId,
    atom: &[u8],
) -> Result<(), AllocError>
    ensures { OnOk result ((k : ℕ) → option_map_or (λ w. w.items) (get nat_eq symbols.new k) [] ≡ with_word (λ j. option_map_or (λ w. w.items) (get nat_eq symbols.old j) []) symbol (atom_text atom.now) k) }
{
    let mut word = Vec::new(alloc);
    write_atom(atom, &mut word)?;
    symbols.insert(symbol, word)?;
    Ok(())
}

/// The words of the symbols that are declared.
fn symbol_words(
    alloc: Global,
    bank: &Bank,
    names: &Names,
) -> Result<IndexMap<SymId, Vec<u8>>, AllocError>
    ensures { IfOk result (λ symbols. (k : ℕ) → option_map_or (λ w. w.items) (get nat_eq symbols k) [] ≡ word_of (symbol_atom k (declared_in bank.now names.now).constants)) }
{
    let _ = bank;
    let constants = names.constants();
    let mut symbols = IndexMap::new(alloc);
    let mut place = constants.len();
    while place > 0 {
        place -= 1;
        if let Some((atom, symbol)) = constants.get_index(place) {
            put_symbol(alloc, &mut symbols, *symbol, atom.as_slice())?;
        }
    }
    Ok(symbols)
}

/// How many `_` stand at the beginning.
#[tactic(auto, unfolding(crate::specs::Vocabulary::marks))]
fn marks(text: &[u8]) -> usize
    ensures { result ≡ spec.marks text.now }
{
    text.iter().take_while(|b| **b == b'_').count()
}

/// How many `_` stand behind `leo` at the beginning of an atom.
#[tactic(auto, unfolding(crate::specs::Vocabulary::marks_in))]
fn marks_in(atom: &[u8]) -> usize
    ensures { result ≡ spec.marks_in atom.now }
{
    if atom.starts_with(b"leo") {
        marks(&atom[3..])
    } else {
        0
    }
}

fn larger(one: usize, other: usize) -> usize
    ensures { result ≡ max one other }
{
    one.max(other)
}

/// The most of them, of the atoms of a map.
fn most_marks<A>(atoms: &IndexMap<Vec<u8>, A>) -> usize
    ensures { result ≡ spec.most_marks (map (λ p. (p.0.items, p.1)) atoms.now.entries) }
{
    let mut most = 0;
    for place in 0..atoms.len() {
        if let Some((atom, _)) = atoms.get_index(place) {
            most = larger(most, marks_in(atom.as_slice()));
        }
    }
    most
}

/// How many `_` stand in how the names of abbreviations begin, but for one.
fn most_declared(names: &Names) -> usize
    ensures { result ≡ max (spec.most_marks names.now.types) (spec.most_marks names.now.constants) }
{
    larger(most_marks(names.types()), most_marks(names.constants()))
}

/// `leo_`, and so many `_`.
fn marked(alloc: Global, most: usize) -> Result<Vec<u8>, AllocError>
    ensures { IfOk result (λ v. v.items ≡ codes "leo_" ++ replicate most 95) }
{
    let marks = vec![in alloc; b'_'; most]?;
    let mut prefix = Vec::from_slice(alloc, b"leo_")?;
    prefix.extend_from_slice(&marks)?;
    Ok(prefix)
}

/// How the names of abbreviations begin.
fn prefix(alloc: Global, bank: &Bank, names: &Names) -> Result<Vec<u8>, AllocError>
    ensures { IfOk result (λ v. v.items ≡ new_prefix (declared_in bank.now names.now)) }
{
    let _ = bank;
    marked(alloc, most_declared(names))
}

impl Namer {
    /// The words of a problem.
    pub(crate) fn new(alloc: Global, problem: &Problem) -> Result<Namer, AllocError>
        requires { AreNamesOf problem.now.bank problem.now.names }
        ensures { IfOk result (λ n. words_in problem.now.bank n ≡ words_of problem.now) }
    {
        let bases = base_words(alloc, &problem.bank, &problem.names)?;
        let symbols = symbol_words(alloc, &problem.bank, &problem.names)?;
        let prefix = prefix(alloc, &problem.bank, &problem.names)?;
        Ok(Namer {
            bases,
            symbols,
            prefix,
            introduced: 0,
        })
    }

    fn write_named_base(&self, base: u32, out: &mut Vec<u8>) -> Result<(), AllocError>
        ensures { OnOk result (out.new.items ≡ out.old.items ++ base_in self.now base) }
    {
        match self.bases.get(&base) {
            Some(word) => out.extend_from_slice(word.as_slice()),
            None => Ok(()),
        }
    }

    /// Appends the word of a base type.
    pub(crate) fn write_base(&self, base: u32, out: &mut Vec<u8>) -> Result<(), AllocError>
        ensures { OnOk result (out.new.items ≡ out.old.items ++ base_word_by (base_in self.now) base) }
    {
        if base == 0 {
            out.extend_from_slice(b"$o")
        } else if base == 1 {
            out.extend_from_slice(b"$i")
        } else {
            self.write_named_base(base, out)
        }
    }

    /// Appends the word of a symbol.
    pub(crate) fn write_symbol(&self, symbol: SymId, out: &mut Vec<u8>) -> Result<(), AllocError>
        ensures { OnOk result (out.new.items ≡ out.old.items ++ symbol_in self.now symbol) }
    {
        match self.symbols.get(&symbol) {
            Some(word) => out.extend_from_slice(word.as_slice()),
            None => Ok(()),
        }
    }

    /// The name of the next abbreviation.
    fn next_name(&self, alloc: Global) -> Result<Vec<u8>, AllocError>
        ensures { IfOk result (λ v. v.items ≡ new_name self.now.prefix.items self.now.introduced) }
    {
        let mut name = Vec::from_slice(alloc, &self.prefix)?;
        write_number(self.introduced, &mut name)?;
        Ok(name)
    }

    /// Names a symbol anew.
    fn introduce(&mut self, alloc: Global, symbol: SymId) -> Result<(), AllocError>
        ensures bases { OnOk result (self.new.bases ≡ self.old.bases) }
        ensures symbols { OnOk result ((k : ℕ) → symbol_in self.new k ≡ with_word (symbol_in self.old) symbol (new_name self.old.prefix.items self.old.introduced) k) }
        ensures prefix { OnOk result (self.new.prefix.items ≡ self.old.prefix.items) }
        ensures introduced { OnOk result (self.new.introduced ≡ self.old.introduced + 1) }
    {
        let Some(introduced) = self.introduced.checked_add(1) else {
            return Err(AllocError);
        };
        let name = self.next_name(alloc)?;
        self.symbols.insert(symbol, name)?;
        self.introduced = introduced;
        Ok(())
    }

    /// Names the symbol that a line introduces.
    pub(crate) fn follow(
        &mut self,
        alloc: Global,
        bank: &Bank,
        rule: &Rule,
    ) -> Result<(), AllocError>
        ensures { OnOk result (words_in bank.now self.new ≡ with_rule (words_in bank.now self.old) (rule_at bank.now rule.now)) }
    {
        let _ = bank;
        match rule {
            Rule::Abbreviate { symbol } => self.introduce(alloc, *symbol),
            _ => Ok(()),
        }
    }
}
