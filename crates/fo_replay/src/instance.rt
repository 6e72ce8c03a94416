//! The conclusion of an instance.

ghost use Rattle.std.specs.Prelude.{◌≡◌, ◌++◌, ◌∷◌, [], ◌<◌, ◌≤◌, ◌↔◌, ℕ, List, IfOk, OnOk, IsTrue, MatchOption, Some, length, map, slice_get, reverse};
ghost use Rattle.std.specs.List.{flat_map};
ghost use Rattle.fo_terms.specs.declared.term.FoNode.{FoNode};
ghost use Rattle.fo_terms.specs.Terms.{Term, Terms};
ghost use Rattle.fo_terms.specs.Prefix.{prefix, prefix_of_all};
ghost use Rattle.fo_terms.specs.Substitutions.{apply};
ghost use Rattle.fo_text.specs.declared.problem.FoClause.{FoClause};
ghost use Rattle.fo_text.specs.declared.problem.FoLit.{FoLit};
ghost use Rattle.fo_text.specs.declared.answer.FoWord.{FoWord};
ghost use Rattle.fo_text.specs.Problems.{AreSorts, HaveSorts};
ghost use Rattle.fo_replay.specs.Replays.{applied_literal, images, node_as_word, IsInstance};
ghost use Rattle.fo_replay.specs.Parts.{image_nodes};
ghost use Rattle.fo_replay.specs.Instances.{numbers_as_words, IsNodeOf, AreNodesOf, AreSplit, IsTyped, as_terms};

use crate::copies::clause_at;
use crate::para::built;
use crate::places::behind;
use crate::sorts::{fill, push_sorts};
use fo_terms::term::{FoNode, FoTerm};
use fo_text::answer::FoWord;
use fo_text::problem::{FoClause, FoLit, FoSym};
use sqlite_items::Items;
use std::alloc::{AllocError, Global};

/// The sorts that words write, if they are such.
fn sorts_of(alloc: Global, words: &[FoWord], sorts: u32) -> Result<Option<Items<u32>>, AllocError>
    ensures { IfOk result (λ o. MatchOption o ((ns : List ℕ) → words.now ≡ numbers_as_words ns → AreSorts sorts ns → ⊥) (λ ns. (words.now ≡ numbers_as_words ns) × AreSorts sorts ns)) }
{
    let mut list = Items::new(alloc);
    let mut rest = words;
    while let Some((word, tail)) = rest.split_first() {
        let Some(sort) = sort_in(*word, sorts) else {
            return Ok(None);
        };
        list.push(sort)?;
        rest = tail;
    }
    Ok(Some(list))
}

fn sort_in(word: FoWord, sorts: u32) -> Option<u32>
    ensures { MatchOption result ((n : ℕ) → word ≡ FoWord.Number n → n < sorts → ⊥) (λ n. (word ≡ FoWord.Number n) × (n < sorts)) }
{
    match word {
        FoWord::Number(number) => { if number < sorts { Some(number) } else { None } }
        FoWord::Var(_) => None,
        FoWord::Sym(_) => None,
    }
}

/// The node that a word writes.
fn node_of(syms: &[FoSym], word: FoWord) -> Result<Option<FoNode>, AllocError>
    ensures { IfOk result (λ o. MatchOption o ((n : FoNode) → IsNodeOf syms.now word n → ⊥) (IsNodeOf syms.now word)) }
{
    match word {
        FoWord::Number(_) => Ok(None),
        FoWord::Var(variable) => Ok(Some(FoNode::Var(variable))),
        FoWord::Sym(symbol) => match syms.get(symbol as usize) {
            None => Ok(None),
            Some(found) => {
                let count = found.args.len();
                if count > 0xffff_ffff {
                    Err(AllocError)
                } else {
                    Ok(Some(FoNode::Sym(symbol, count as u32)))
                }
            }
        },
    }
}

/// The nodes that words write.
fn nodes_of(
    alloc: Global,
    syms: &[FoSym],
    words: &[FoWord],
) -> Result<Option<Vec<FoNode>>, AllocError>
    ensures { IfOk result (λ o. MatchOption o ((ns : List FoNode) → AreNodesOf syms.now words.now ns → ⊥) (λ ns. AreNodesOf syms.now words.now ns.items)) }
{
    let mut list = Vec::new(alloc);
    let mut rest = words;
    while let Some((word, tail)) = rest.split_first() {
        let Some(node) = node_of(syms, *word)? else {
            return Ok(None);
        };
        list.push(node)?;
        rest = tail;
    }
    Ok(Some(list))
}

/// The words of the sorts, and those of the terms.
fn split(words: &[FoWord]) -> Option<(&[FoWord], &[FoWord])>
    ensures { MatchOption result ((x y : List FoWord) → AreSplit words.now x y → ⊥) (λ x. AreSplit words.now x.0.now x.1.now) }
{
    let (word, rest) = words.split_first()?;
    match *word {
        FoWord::Number(count) => {
            if count as usize <= rest.len() {
                Some(rest.split_at(count as usize))
            } else {
                None
            }
        }
        FoWord::Var(_) => None,
        FoWord::Sym(_) => None,
    }
}

/// The terms with these nodes, one after the other.
fn terms_of(alloc: Global, nodes: &[FoNode]) -> Result<Items<FoTerm>, AllocError>
    requires { (ts : Terms) × (nodes.now ≡ prefix_of_all ts) }
    ensures { IfOk result (λ list. prefix_of_all (as_terms list) ≡ nodes.now) }
{
    let mut list = Items::new(alloc);
    let mut rest = nodes;
    while let Some((_head, _tail)) = rest.split_first() {
        let end = behind(rest, 1);
        let (first, _others) = rest.split_at(rest.len() - end.len());
        list.push(built(Vec::from_slice(alloc, first)?))?;
        rest = end;
    }
    Ok(list)
}

fn term_at(terms: &[FoTerm], number: u32) -> Option<&FoTerm>
    ensures { MatchOption result (length terms.now ≤ number) (λ t. slice_get terms.now number ≡ Some t.now) }
{
    terms.get(number as usize)
}

/// Puts the nodes of what the terms make of a node at the end.
fn push_image(terms: &[FoTerm], node: FoNode, out: &mut Vec<FoNode>) -> Result<(), AllocError>
    ensures { OnOk result (out.new.items ≡ out.old.items ++ image_nodes (images (as_terms terms.now)) node) }
{
    match node {
        FoNode::Sym(symbol, arguments) => {
            out.push(FoNode::Sym(symbol, arguments))?;
            Ok(())
        }
        FoNode::Var(variable) => match term_at(terms, variable) {
            None => {
                out.push(FoNode::Var(variable))?;
                Ok(())
            }
            Some(term) => {
                out.extend_from_slice(term.nodes())?;
                Ok(())
            }
        },
    }
}

fn image_of(alloc: Global, terms: &[FoTerm], nodes: &[FoNode]) -> Result<Vec<FoNode>, AllocError>
    ensures { IfOk result (λ ns. ns.items ≡ flat_map (image_nodes (images (as_terms terms.now))) nodes.now) }
{
    let mut out = Vec::new(alloc);
    for node in nodes {
        push_image(terms, *node, &mut out)?;
    }
    Ok(out)
}

/// What the terms make of a term.
fn instance_of(alloc: Global, terms: &[FoTerm], term: &FoTerm) -> Result<FoTerm, AllocError>
    ensures { IfOk result (λ t. t ≡ apply (images (as_terms terms.now)) term.now) }
{
    let nodes = image_of(alloc, terms, term.nodes())?;
    Ok(built(nodes))
}

fn literal_of(alloc: Global, terms: &[FoTerm], literal: &FoLit) -> Result<FoLit, AllocError>
    ensures { IfOk result (λ l. l ≡ applied_literal (images (as_terms terms.now)) literal.now) }
{
    let left = instance_of(alloc, terms, &literal.left)?;
    let right = instance_of(alloc, terms, &literal.right)?;
    Ok(FoLit {
        pos: literal.pos,
        left,
        right,
    })
}

/// What the terms make of the literals of a clause.
fn literals_of(
    alloc: Global,
    terms: &[FoTerm],
    clause: &FoClause,
) -> Result<Items<FoLit>, AllocError>
    ensures { IfOk result (λ ls. ls ≡ map (applied_literal (images (as_terms terms.now))) clause.now.lits) }
{
    let mut list = Items::new(alloc);
    for literal in clause.lits.as_slice() {
        list.push(literal_of(alloc, terms, literal)?)?;
    }
    Ok(list)
}

/// The terms of these sorts that words write.
fn typed_terms(
    alloc: Global,
    vars: &[u32],
    syms: &[FoSym],
    wanted: &[u32],
    words: &[FoWord],
) -> Result<Option<Items<FoTerm>>, AllocError>
    ensures { IfOk result (λ o. MatchOption o ((ts : Terms) → words.now ≡ map node_as_word (prefix_of_all ts) → HaveSorts vars.now syms.now ts wanted.now → ⊥) (λ list. (words.now ≡ map node_as_word (prefix_of_all (as_terms list))) × HaveSorts vars.now syms.now (as_terms list) wanted.now)) }
{
    let Some(nodes) = nodes_of(alloc, syms, words)? else {
        return Ok(None);
    };
    let mut wants = Vec::new(alloc);
    push_sorts(wanted, &mut wants)?;
    if !fill(vars, syms, &nodes, wants)? {
        return Ok(None);
    }
    let list = terms_of(alloc, &nodes)?;
    Ok(Some(list))
}

/// The conclusion of an instance, of words in their two parts.
fn instance_by(
    alloc: Global,
    sorts: u32,
    syms: &[FoSym],
    clause: &FoClause,
    front: &[FoWord],
    back: &[FoWord],
) -> Result<Option<FoClause>, AllocError>
    ensures { IfOk result (λ o. MatchOption o ((vars : List ℕ) (ts : Terms) → IsTyped sorts syms.now clause.now front.now back.now vars ts → ⊥) (λ c. (ts : Terms) × IsTyped sorts syms.now clause.now front.now back.now c.vars ts × (c.lits ≡ map (applied_literal (images ts)) clause.now.lits))) }
{
    let Some(vars) = sorts_of(alloc, front, sorts)? else {
        return Ok(None);
    };
    let found = typed_terms(alloc, vars.as_slice(), syms, clause.vars.as_slice(), back)?;
    match found {
        None => Ok(None),
        Some(terms) => {
            let lits = literals_of(alloc, terms.as_slice(), clause)?;
            Ok(Some(FoClause { vars, lits }))
        }
    }
}

/// The conclusion of an instance.
pub(crate) fn instantiated(
    alloc: Global,
    sorts: u32,
    syms: &[FoSym],
    clauses: &[FoClause],
    parent: u32,
    words: &[FoWord],
) -> Result<Option<FoClause>, AllocError>
    ensures { IfOk result (λ o. MatchOption o ((c : FoClause) → IsInstance sorts syms.now clauses.now parent words.now c → ⊥) (IsInstance sorts syms.now clauses.now parent words.now)) }
{
    let Some(clause) = clause_at(clauses, parent) else {
        return Ok(None);
    };
    let Some((front, back)) = split(words) else {
        return Ok(None);
    };
    instance_by(alloc, sorts, syms, clause, front, back)
}
