//! The conclusion of paramodulation.

ghost use Rattle.std.specs.Prelude.{◌≡◌, ◌++◌, ◌∷◌, [], ◌<◌, ◌≤◌, ◌+◌, ◌↔◌, IfOk, OnOk, IsTrue, MatchOption, Some, length, remove, slice_get, slice_set, true};
ghost use Rattle.std.specs.List.{flat_map};
ghost use Rattle.fo_terms.specs.Terms.{Term};
ghost use Rattle.fo_terms.specs.Prefix.{prefix};
ghost use Rattle.fo_terms.specs.Substitutions.{apply};
ghost use Rattle.fo_text.specs.declared.problem.FoClause.{FoClause};
ghost use Rattle.fo_text.specs.declared.problem.FoLit.{FoLit};
ghost use Rattle.fo_replay.specs.Replays.{near as near_side, far as far_side, with_near as with_side, differ, applied_literal, moved, at_path, replaced as replaced_term, HaveOneSort, IsPara, IsLiteralAt};
ghost use Rattle.fo_replay.specs.Parts.{shift, image_nodes, StandsAt, IsRewritten, IsFromInto};

use crate::copies::{clause_at, copies_of, denial, far, literal_at, near};
use crate::places::find;
use crate::sorts::have_one_sort;
use fo_terms::term::{FoNode, FoTerm};
use fo_text::answer::FoSide;
use fo_text::problem::{FoClause, FoLit, FoSym};
use sqlite_items::Items;
use std::alloc::{AllocError, Global};

/// The term with these nodes.
pub(crate) fn built(nodes: Vec<FoNode>) -> FoTerm
    requires { (t : Term) × (prefix t ≡ nodes.items) }
    ensures { prefix result ≡ nodes.items }
{
    match FoTerm::new(nodes) {
        Some(term) => term,
        None => unreachable!(),
    }
}

/// A node whose variable is numbered after so many others.
fn moved_node(node: FoNode, by: u32) -> Result<FoNode, AllocError>
    ensures { IfOk result (λ n. n ∷ [] ≡ image_nodes (shift by) node) }
{
    match node {
        FoNode::Var(variable) => {
            let Some(number) = by.checked_add(variable) else {
                return Err(AllocError);
            };
            Ok(FoNode::Var(number))
        }
        FoNode::Sym(symbol, arguments) => Ok(FoNode::Sym(symbol, arguments)),
    }
}

fn moved_nodes(alloc: Global, nodes: &[FoNode], by: u32) -> Result<Vec<FoNode>, AllocError>
    ensures { IfOk result (λ ns. ns.items ≡ flat_map (image_nodes (shift by)) nodes.now) }
{
    let mut list = Vec::new(alloc);
    for node in nodes {
        list.push(moved_node(*node, by)?)?;
    }
    Ok(list)
}

/// A term whose variables are numbered after so many others.
fn moved_term(alloc: Global, term: &FoTerm, by: u32) -> Result<FoTerm, AllocError>
    ensures { IfOk result (λ t. t ≡ apply (shift by) term.now) }
{
    let nodes = moved_nodes(alloc, term.nodes(), by)?;
    Ok(built(nodes))
}

fn moved_literal(alloc: Global, literal: &FoLit, by: u32) -> Result<FoLit, AllocError>
    ensures { IfOk result (λ l. l ≡ applied_literal (shift by) literal.now) }
{
    let left = moved_term(alloc, &literal.left, by)?;
    let right = moved_term(alloc, &literal.right, by)?;
    Ok(FoLit {
        pos: literal.pos,
        left,
        right,
    })
}

/// The literals of a clause with their variables numbered after so many others.
///
/// # Errors
///
/// Want of memory, also where a number would be no `u32`.
pub fn moved_literals(alloc: Global, clause: &FoClause, by: u32) -> Result<Items<FoLit>, AllocError>
    ensures { IfOk result (λ ls. ls ≡ moved by clause.now) }
{
    let mut list = Items::new(alloc);
    for literal in clause.lits.as_slice() {
        list.push(moved_literal(alloc, literal, by)?)?;
    }
    Ok(list)
}

/// The term at a path, whose nodes stand there.
fn part_of(
    alloc: Global,
    whole: &FoTerm,
    path: &[u32],
    start: usize,
    stop: usize,
) -> Result<FoTerm, AllocError>
    requires { StandsAt whole.now path.now start stop }
    ensures { IfOk result (λ t. at_path whole.now path.now ≡ Some t) }
{
    let nodes = Vec::from_slice(alloc, &whole.nodes()[start..stop])?;
    Ok(built(nodes))
}

/// The term with another in place of the one at a path, whose nodes stand there.
fn put(
    alloc: Global,
    whole: &FoTerm,
    path: &[u32],
    start: usize,
    stop: usize,
    by: &FoTerm,
) -> Result<FoTerm, AllocError>
    requires { StandsAt whole.now path.now start stop }
    ensures { IfOk result (λ t. t ≡ replaced_term whole.now path.now by.now) }
{
    let mut nodes = Vec::new(alloc);
    nodes.extend_from_slice(&whole.nodes()[..start])?;
    nodes.extend_from_slice(by.nodes())?;
    nodes.extend_from_slice(&whole.nodes()[stop..])?;
    Ok(built(nodes))
}

/// The literal with another term at the path, whose nodes stand there.
fn changed(
    alloc: Global,
    literal: &FoLit,
    side: FoSide,
    path: &[u32],
    start: usize,
    stop: usize,
    by: &FoTerm,
) -> Result<FoLit, AllocError>
    requires { StandsAt (near_side side literal.now) path.now start stop }
    ensures { IfOk result (λ l. l ≡ with_side side (replaced_term (near_side side literal.now) path.now by.now) literal.now) }
{
    let whole = put(alloc, near(side, literal), path, start, stop, by)?;
    let other = far(side, literal).try_clone(alloc)?;
    match side {
        FoSide::Left => Ok(FoLit {
            pos: literal.pos,
            left: whole,
            right: other,
        }),
        FoSide::Right => Ok(FoLit {
            pos: literal.pos,
            left: other,
            right: whole,
        }),
    }
}

/// An equation's sides, applied at a path in a literal: that literal, and the denial that the term
/// there is the first side.
fn rewritten(
    alloc: Global,
    syms: &[FoSym],
    vars: &[u32],
    literal: &FoLit,
    side: FoSide,
    path: &[u32],
    equation: &FoLit,
    equation_side: FoSide,
) -> Result<Option<(FoLit, FoLit)>, AllocError>
    ensures { IfOk result (λ o. MatchOption o ((x y : FoLit) → IsRewritten syms.now vars.now literal.now side path.now equation.now equation_side x y → ⊥) (λ x. IsRewritten syms.now vars.now literal.now side path.now equation.now equation_side x.0 x.1)) }
{
    let Some((start, stop)) = find(near(side, literal), path) else {
        return Ok(None);
    };
    let part = part_of(alloc, near(side, literal), path, start, stop)?;
    let left = near(equation_side, equation);
    if !have_one_sort(alloc, vars, syms, left, &part)? {
        return Ok(None);
    }
    let right = far(equation_side, equation);
    let new = changed(alloc, literal, side, path, start, stop, right)?;
    let last = denial(alloc, left, &part)?;
    Ok(Some((new, last)))
}

/// How many variables a clause has.
fn variables_of(clause: &FoClause) -> Result<u32, AllocError>
    ensures { IfOk result (λ n. n ≡ length clause.now.vars) }
{
    let count = clause.vars.len();
    if count > 0xffff_ffff {
        Err(AllocError)
    } else {
        Ok(count as u32)
    }
}

/// The variables of one clause and then those of the other.
fn joined_variables(
    alloc: Global,
    one: &FoClause,
    other: &FoClause,
) -> Result<Items<u32>, AllocError>
    ensures { IfOk result (λ vs. vs ≡ one.now.vars ++ other.now.vars) }
{
    let mut vars = Items::from_slice(alloc, one.vars.as_slice())?;
    vars.append(Items::from_slice(alloc, other.vars.as_slice())?)?;
    Ok(vars)
}

/// The literals of the conclusion.
fn conclusion_literals(
    alloc: Global,
    giver: &FoClause,
    place: u32,
    mut others: Items<FoLit>,
    number: u32,
    new: FoLit,
    last: FoLit,
) -> Result<Items<FoLit>, AllocError>
    requires place { place < length giver.now.lits }
    requires number { number < length others }
    ensures { IfOk result (λ ls. ls ≡ remove giver.now.lits place ++ (slice_set others number new ++ last ∷ [])) }
{
    let mut lits = copies_of(alloc, giver.lits.as_slice())?;
    let _used = lits.remove(place as usize);
    others.set(number as usize, new);
    others.push(last)?;
    lits.append(others)?;
    Ok(lits)
}

/// The conclusion of paramodulation from one clause into another.
fn from_into(
    alloc: Global,
    syms: &[FoSym],
    giver: &FoClause,
    equation: &FoLit,
    lit: u32,
    side: FoSide,
    receiver: &FoClause,
    place: u32,
    place_side: FoSide,
    path: &[u32],
) -> Result<Option<FoClause>, AllocError>
    requires { slice_get giver.now.lits lit ≡ Some equation.now }
    ensures { IfOk result (λ o. MatchOption o ((c : FoClause) → IsFromInto syms.now giver.now equation.now lit side receiver.now place place_side path.now c → ⊥) (IsFromInto syms.now giver.now equation.now lit side receiver.now place place_side path.now)) }
{
    let vars = joined_variables(alloc, giver, receiver)?;
    let others = moved_literals(alloc, receiver, variables_of(giver)?)?;
    let Some(literal) = others.get(place as usize) else {
        return Ok(None);
    };
    let found = rewritten(
        alloc,
        syms,
        vars.as_slice(),
        literal,
        place_side,
        path,
        equation,
        side,
    )?;
    match found {
        None => Ok(None),
        Some((new, last)) => {
            let lits = conclusion_literals(alloc, giver, lit, others, place, new, last)?;
            Ok(Some(FoClause { vars, lits }))
        }
    }
}

/// The conclusion of paramodulation, however heavy it is: None where there is none.
///
/// # Errors
///
/// Want of memory, also where the conclusion would have more variables than a `u32` counts.
pub fn paramodulated(
    alloc: Global,
    syms: &[FoSym],
    clauses: &[FoClause],
    from: u32,
    lit: u32,
    side: FoSide,
    target: u32,
    place: u32,
    place_side: FoSide,
    path: &[u32],
) -> Result<Option<FoClause>, AllocError>
    ensures { IfOk result (λ o. MatchOption o ((c : FoClause) → IsPara syms.now clauses.now from lit side target place place_side path.now c → ⊥) (IsPara syms.now clauses.now from lit side target place place_side path.now)) }
{
    let Some((giver, equation)) = literal_at(clauses, from, lit) else {
        return Ok(None);
    };
    let Some(receiver) = clause_at(clauses, target) else {
        return Ok(None);
    };
    if !equation.pos {
        return Ok(None);
    }
    from_into(
        alloc, syms, giver, equation, lit, side, receiver, place, place_side, path,
    )
}
