//! Tests.

ghost use Rattle.std.specs.Prelude.{◌∷◌, [], IfOk};
ghost use Rattle.fo_super.specs.Notes.{AreNotes};

use crate::deciding::outcome;
use crate::literals::is_greater;
use crate::notes::FoNotes;
use crate::outcomes::FoOutcome;
use fo_terms::term::{FoNode, FoTerm};
use fo_text::problem::{FoClause, FoLit, FoSym};
use sqlite_items::Items;
use std::alloc::Global;
use std::slice;
use std::test::Fail;

const V0: FoNode = FoNode::Var(0);

const V1: FoNode = FoNode::Var(1);

const A: FoNode = FoNode::Sym(2, 0);

const B: FoNode = FoNode::Sym(3, 0);

const F: FoNode = FoNode::Sym(4, 1);

fn literal(alloc: Global, pos: bool, left: &[FoNode], right: &[FoNode]) -> Result<FoLit, Fail> {
    let left = FoTerm::new(left.to_vec(alloc)?).ok_or("no term")?;
    let right = FoTerm::new(right.to_vec(alloc)?).ok_or("no term")?;
    Ok(FoLit { pos, left, right })
}

/// A clause of one literal.
fn unit(alloc: Global, vars: &[u32], literal: FoLit) -> Result<FoClause, Fail> {
    let mut lits = Items::new(alloc);
    lits.push(literal)?;
    let vars = Items::from_slice(alloc, vars)?;
    Ok(FoClause { vars, lits })
}

/// Notes on one clause.
fn noted(alloc: Global, kept: &FoClause) -> Result<FoNotes, Fail>
    ensures { IfOk result (λ n. AreNotes n (kept.now ∷ [])) }
{
    if kept.lits.len() > 3 {
        return Err("too many literals".into());
    }
    let mut notes = FoNotes::new(alloc);
    notes.push(alloc, kept)?;
    Ok(notes)
}

/// What becomes of a clause beside one that is kept.
fn found(alloc: Global, kept: &FoClause, clause: &FoClause) -> Result<FoOutcome, Fail> {
    let mut syms = Vec::new(alloc);
    for _ in 0..4 {
        syms.push(FoSym {
            result: 0,
            args: Items::new(alloc),
        })?;
    }
    let notes = noted(alloc, kept)?;
    let clauses = slice::from_ref(kept);
    let answer = outcome(alloc, &syms, clauses, &notes, clause, 256, clause)?;
    Ok(answer)
}

#[test]
fn a_negative_literal_is_greater(rt: HostRuntime) -> Result<(), Fail> {
    let positive = literal(rt.alloc(), true, &[F, A], &[A])?;
    let negative = literal(rt.alloc(), false, &[F, A], &[A])?;
    assert!(rt; is_greater(&negative, &positive));
    assert!(rt; !is_greater(&positive, &negative));
    Ok(())
}

#[test]
fn variables_go_to_terms_of_their_sorts(rt: HostRuntime) -> Result<(), Fail> {
    let clause = unit(rt.alloc(), &[], literal(rt.alloc(), true, &[A], &[B])?)?;
    let general = unit(
        rt.alloc(),
        &[0, 0],
        literal(rt.alloc(), true, &[V0], &[V1])?,
    )?;
    let other = unit(
        rt.alloc(),
        &[1, 1],
        literal(rt.alloc(), true, &[V0], &[V1])?,
    )?;
    assert_eq!(rt;
        found(rt.alloc(), &general, &clause)?,
        FoOutcome::Subsumed(0)
    );
    assert_eq!(rt; found(rt.alloc(), &other, &clause)?, FoOutcome::Kept);
    Ok(())
}
