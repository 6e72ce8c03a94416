//! A quick test whether anything meets between two clauses, which takes no memory: most pairs of clauses give nothing.

ghost use Rattle.std.specs.Prelude.{◌≡◌, ◌<◌, [], true, length, map};
ghost use Rattle.std.specs.Bool.{OnFalse, OnTrue};
ghost use Rattle.leo_terms.specs.Contents.{IsArgumentBelow, argument, tree_at};
ghost use Rattle.leo_clause.specs.Trees.{clause_at, literal_at};
ghost use Rattle.leo_clause.specs.Typed.{AreLiteralsOf, IsClauseOf};
ghost use Rattle.leo_kernel.specs.ByNumber.{side_number};
ghost use Rattle.leo_para.specs.Places.{argument_places, places};
ghost use Rattle.leo_para.specs.Members.{due_members, is_formula};
ghost use Rattle.leo_para.specs.Reading.{IsHeadOf, top_at};
ghost use Rattle.leo_para.specs.Found.{IsLitOf};
ghost use Rattle.leo_para.specs.Meeting.{ArePassedOver, GiveNothing, GivesNothing, IsPassedOver, MeetsNone, MeetsNoneInside};

use crate::heads::{Head, head_of, meet};
use leo_clause::{Clause, Lit};
use leo_terms::{Bank, DEPTH, Op, TermId, View};

/// Whether a head may meet that of a place in the arguments of a term. Below `room` levels nothing is looked at.
#[cycle(look)]
fn meets_below(bank: &Bank, head: &Head, t: TermId, room: u32) -> bool
    requires within { t < length bank.now.terms }
    requires head { IsHeadOf bank.now head.now }
    ensures { OnFalse result (MeetsNoneInside (top_at bank.now head.now) (argument_places (tree_at bank.now t))) }
{
    let Some(room) = room.checked_sub(1) else {
        return true;
    };
    match bank.view(t) {
        View::App(f, a) => {
            if meets_below(bank, head, f, room) {
                return true;
            }
            meets_inside(bank, head, a, room)
        }
        View::Logic(_, x, y) => {
            if meets_argument(bank, head, x, room) {
                return true;
            }
            meets_argument(bank, head, y, room)
        }
        View::Var(_) => false,
        View::Bound(_) => false,
        View::Sym(_) => false,
        View::Lam(_, _) => false,
    }
}

/// The same of a term that is an argument, and its arguments.
#[cycle(look)]
fn meets_inside(bank: &Bank, head: &Head, t: TermId, room: u32) -> bool
    requires within { t < length bank.now.terms }
    requires head { IsHeadOf bank.now head.now }
    ensures { OnFalse result (MeetsNoneInside (top_at bank.now head.now) (places (tree_at bank.now t))) }
{
    bank.is_sound();
    if meet(bank, false, head, &head_of(bank, t)) {
        return true;
    }
    meets_below(bank, head, t, room)
}

/// The same of an argument that may be missing.
#[cycle(look)]
fn meets_argument(bank: &Bank, head: &Head, x: Option<TermId>, room: u32) -> bool
    requires within { IsArgumentBelow (length bank.now.terms) x }
    requires head { IsHeadOf bank.now head.now }
    ensures { OnFalse result (MeetsNoneInside (top_at bank.now head.now) (places (argument (tree_at bank.now) x))) }
{
    match x {
        Some(t) => meets_inside(bank, head, t, room),
        None => false,
    }
}

/// Whether a head may meet that of a place in a side of a literal.
fn meets_side(bank: &Bank, head: &Head, t: TermId) -> bool
    requires within { t < length bank.now.terms }
    requires head { IsHeadOf bank.now head.now }
    ensures { OnFalse result (MeetsNone (top_at bank.now head.now) (places (tree_at bank.now t))) }
{
    bank.is_sound();
    if meet(bank, true, head, &head_of(bank, t)) {
        return true;
    }
    meets_below(bank, head, t, DEPTH)
}

/// Whether the right side of a literal is T or F.
fn has_truth(bank: &Bank, lit: &Lit) -> bool
    requires { lit.now.right < length bank.now.terms }
    ensures { OnTrue result (is_formula (literal_at bank.now lit.now) ≡ true) }
{
    match bank.view(lit.right) {
        View::Logic(Op::True, None, None) => true,
        View::Logic(Op::False, None, None) => true,
        _ => false,
    }
}

/// Whether a head may meet that of a place in a literal.
fn meets_literal(bank: &Bank, head: &Head, lit: &Lit) -> bool
    requires literal { IsLitOf bank.now lit.now }
    requires head { IsHeadOf bank.now head.now }
    ensures { OnFalse result (IsPassedOver (top_at bank.now head.now) (literal_at bank.now lit.now)) }
{
    if meets_side(bank, head, lit.left) {
        return true;
    }
    if has_truth(bank, lit) {
        return false;
    }
    meets_side(bank, head, lit.right)
}

/// Whether a head may meet that of a place in some literals.
fn meets_any(bank: &Bank, head: &Head, lits: &[Lit]) -> bool
    requires literals { AreLiteralsOf bank.now lits.now }
    requires head { IsHeadOf bank.now head.now }
    ensures { OnFalse result (ArePassedOver (top_at bank.now head.now) (map (literal_at bank.now) lits.now)) }
{
    match lits.split_first() {
        Some((first, rest)) => {
            if meets_literal(bank, head, first) {
                return true;
            }
            meets_any(bank, head, rest)
        }
        None => false,
    }
}

/// Whether anything may be due from a literal into some.
fn gives(bank: &Bank, lit: &Lit, targets: &[Lit]) -> bool
    requires literal { IsLitOf bank.now lit.now }
    requires targets { AreLiteralsOf bank.now targets.now }
    ensures { OnFalse result (GivesNothing (literal_at bank.now lit.now) (map (literal_at bank.now) targets.now)) }
{
    if !lit.pos {
        return false;
    }
    if meets_any(bank, &head_of(bank, lit.left), targets) {
        return true;
    }
    if has_truth(bank, lit) {
        return false;
    }
    meets_any(bank, &head_of(bank, lit.right), targets)
}

/// Whether anything may be due from some literals into others.
fn give(bank: &Bank, equations: &[Lit], targets: &[Lit]) -> bool
    requires equations { AreLiteralsOf bank.now equations.now }
    requires targets { AreLiteralsOf bank.now targets.now }
    ensures { OnFalse result (GiveNothing (map (literal_at bank.now) equations.now) (map (literal_at bank.now) targets.now)) }
{
    match equations.split_first() {
        Some((first, rest)) => {
            if gives(bank, first, targets) {
                return true;
            }
            give(bank, rest, targets)
        }
        None => false,
    }
}

/// Whether anything may be due from one clause into another: where it answers `false`, nothing is.
pub(crate) fn may_meet(bank: &Bank, from: &Clause, into: &Clause) -> bool
    requires from { IsClauseOf bank.now from.now }
    requires into { IsClauseOf bank.now into.now }
    ensures { OnFalse result (due_members (clause_at bank.now from.now) (clause_at bank.now into.now) ≡ []) }
{
    give(bank, from.lits.as_slice(), into.lits.as_slice())
}
