//! Variables numbered by first occurrence.

ghost use Rattle.std.specs.Prelude.{◌≡◌, ◌<◌, ◌+◌, ◌++◌, ◌∷◌, [], length, slice_get, fold, Some, IfOk, OnOk, MatchOption};
ghost use Rattle.std.specs.List.{flat_map};
ghost use Rattle.fo_terms.specs.Terms.{Term};
ghost use Rattle.fo_terms.specs.Prefix.{prefix};
ghost use Rattle.fo_terms.specs.Substitutions.{apply, apply_to_all};
ghost use Rattle.fo_replay.specs.Parts.{image_nodes};
ghost use Rattle.fo_replay.specs.Instances.{as_terms};
ghost use Rattle.fo_super.specs.Numbering.{clause_variables, node_variables, variables_of_all, with_name, renumbered, renaming};
ghost use Rattle.fo_super.specs.Matching.{IsFirstPlace, HasNoPlace};

use fo_terms::term::{FoNode, FoTerm};
use fo_text::problem::FoLit;
use sqlite_items::Items;
use std::alloc::{AllocError, Global};

/// Where a name stands first.
fn place_of(names: &[u32], name: u32) -> Option<usize>
    ensures { MatchOption result (HasNoPlace names.now name) (IsFirstPlace names.now name) }
{
    for place in 0..names.len() {
        if number_at(names, place) == name {
            return Some(place);
        }
    }
    None
}

fn number_at(numbers: &[u32], place: usize) -> u32
    requires { place < length numbers.now }
    ensures { slice_get numbers.now place ≡ Some result }
{
    numbers[place]
}

/// Puts a name at the end, unless it is there.
fn add_name(names: &mut Vec<u32>, name: u32) -> Result<(), AllocError>
    ensures { OnOk result (names.new.items ≡ with_name names.old.items name) }
{
    match place_of(names, name) {
        Some(_place) => Ok(()),
        None => {
            names.push(name)?;
            Ok(())
        }
    }
}

/// Puts the variable of a node at the end, unless it has none or that is there.
fn add_node_name(names: &mut Vec<u32>, node: FoNode) -> Result<(), AllocError>
    ensures { OnOk result (names.new.items ≡ fold with_name names.old.items (node_variables node)) }
{
    match node {
        FoNode::Var(variable) => {
            add_name(names, variable)?;
            Ok(())
        }
        FoNode::Sym(_, _) => Ok(()),
    }
}

/// Puts the variables of nodes at the end, in order, each that is not there. The only error is want of
/// memory.
pub fn add_names(names: &mut Vec<u32>, nodes: &[FoNode]) -> Result<(), AllocError>
    ensures { OnOk result (names.new.items ≡ fold with_name names.old.items (flat_map node_variables nodes.now)) }
{
    for node in nodes {
        add_node_name(names, *node)?;
    }
    Ok(())
}

/// Puts the variables of literals at the end, in order, each that is not there.
fn add_literal_names(names: &mut Vec<u32>, literals: &[FoLit]) -> Result<(), AllocError>
    ensures { OnOk result (names.new.items ≡ fold with_name names.old.items (clause_variables literals.now)) }
{
    for literal in literals {
        add_names(names, literal.left.nodes())?;
        add_names(names, literal.right.nodes())?;
    }
    Ok(())
}

/// Puts the variables of terms at the end, in order, each that is not there.
fn add_term_names(names: &mut Vec<u32>, terms: &[FoTerm]) -> Result<(), AllocError>
    ensures { OnOk result (names.new.items ≡ fold with_name names.old.items (variables_of_all (as_terms terms.now))) }
{
    for term in terms {
        add_names(names, term.nodes())?;
    }
    Ok(())
}

/// The variables of literals and then of terms, each once, by first occurrence. The only error is want
/// of memory.
pub fn names_of(alloc: Global, literals: &[FoLit], terms: &[FoTerm]) -> Result<Vec<u32>, AllocError>
    ensures { IfOk result (λ names. names.items ≡ fold with_name [] (clause_variables literals.now ++ variables_of_all (as_terms terms.now))) }
{
    let mut names = Vec::new(alloc);
    add_literal_names(&mut names, literals)?;
    add_term_names(&mut names, terms)?;
    Ok(names)
}

/// A place as the number of a variable.
fn number_of(place: usize) -> Result<u32, AllocError>
    ensures { IfOk result (λ n. n ≡ place) }
{
    if place > 0xffff_ffff {
        Err(AllocError)
    } else {
        Ok(place as u32)
    }
}

/// A number behind all places.
fn number_behind(places: usize, variable: u32) -> Result<u32, AllocError>
    ensures { IfOk result (λ n. n ≡ places + variable) }
{
    let Some(number) = number_of(places)?.checked_add(variable) else {
        return Err(AllocError);
    };
    Ok(number)
}

/// The place of a variable's name, and a number behind all places where it has none.
fn renumber(names: &[u32], variable: u32) -> Result<u32, AllocError>
    ensures { IfOk result (λ n. n ≡ renumbered names.now variable) }
{
    match place_of(names, variable) {
        Some(place) => {
            let number = number_of(place)?;
            Ok(number)
        }
        None => {
            let number = number_behind(names.len(), variable)?;
            Ok(number)
        }
    }
}

fn renamed_node(names: &[u32], node: FoNode) -> Result<FoNode, AllocError>
    ensures { IfOk result (λ n. n ∷ [] ≡ image_nodes (renaming names.now) node) }
{
    match node {
        FoNode::Var(variable) => {
            let number = renumber(names, variable)?;
            Ok(FoNode::Var(number))
        }
        FoNode::Sym(symbol, arguments) => Ok(FoNode::Sym(symbol, arguments)),
    }
}

fn renamed_nodes(alloc: Global, names: &[u32], nodes: &[FoNode]) -> Result<Vec<FoNode>, AllocError>
    ensures { IfOk result (λ ns. ns.items ≡ flat_map (image_nodes (renaming names.now)) nodes.now) }
{
    let mut list = Vec::new(alloc);
    for node in nodes {
        list.push(renamed_node(names, *node)?)?;
    }
    Ok(list)
}

/// The term with these nodes.
pub(crate) fn built(nodes: Vec<FoNode>) -> FoTerm
    requires { (t : Term) × (prefix t ≡ nodes.items) }
    ensures { prefix result ≡ nodes.items }
{
    match FoTerm::new(nodes) {
        Some(term) => term,
        None => unreachable!(),
    }
}

/// A term whose variables are numbered by the places of their names. The only error is want of memory,
/// also where a number would be no `u32`.
pub fn renamed(alloc: Global, names: &[u32], term: &FoTerm) -> Result<FoTerm, AllocError>
    ensures { IfOk result (λ t. t ≡ apply (renaming names.now) term.now) }
{
    let nodes = renamed_nodes(alloc, names, term.nodes())?;
    Ok(built(nodes))
}

/// The same of terms.
pub fn renamed_terms(
    alloc: Global,
    names: &[u32],
    terms: &[FoTerm],
) -> Result<Items<FoTerm>, AllocError>
    ensures { IfOk result (λ ts. as_terms ts ≡ apply_to_all (renaming names.now) (as_terms terms.now)) }
{
    let mut list = Items::new(alloc);
    for term in terms {
        list.push(renamed(alloc, names, term)?)?;
    }
    Ok(list)
}
