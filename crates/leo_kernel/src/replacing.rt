//! Whether a term is another one with something else at a path.

ghost use Rattle.std.specs.Prelude.{◌≡◌, ◌<◌, length};
ghost use Rattle.std.specs.Bool.{Decides};
ghost use Rattle.leo_terms.specs.Contents.{HasTypeBelow, IsArgumentBelow, argument, connective, tree_at};
ghost use Rattle.leo_terms.specs.Tree.{app, logic};
ghost use Rattle.leo_clause.specs.Trees.{literal_at};
ghost use Rattle.leo_kernel.specs.Conditions.{LeadsTo};
ghost use Rattle.leo_kernel.specs.Moved.{put_child};
ghost use Rattle.leo_kernel.specs.Places.{replaced_at, replaced_in};
ghost use Rattle.leo_kernel.specs.Shapes.{side_of as side_of_tree};

use crate::decompose::is_one_constant;
use crate::places::child;
use leo_clause::{Lit, Side};
use leo_terms::{Bank, Op, TermId, View};

/// Whether a term is this application.
fn is_app(bank: &Bank, t: TermId, f: TermId, x: TermId) -> bool
    requires within { t < length bank.now.terms }
    requires function { f < length bank.now.terms }
    requires argument { x < length bank.now.terms }
    ensures { Decides result (tree_at bank.now t ≡ app (tree_at bank.now f) (tree_at bank.now x)) }
{
    match bank.view(t) {
        View::Var(_) => false,
        View::Bound(_) => false,
        View::Sym(_) => false,
        View::App(g, y) => g == f && y == x,
        View::Lam(_, _) => false,
        View::Logic(_, _, _) => false,
    }
}

/// Whether two arguments are one, or both are missing.
fn is_same_argument(bank: &Bank, x: Option<TermId>, y: Option<TermId>) -> bool
    requires first { IsArgumentBelow (length bank.now.terms) x }
    requires second { IsArgumentBelow (length bank.now.terms) y }
    ensures { Decides result (argument (tree_at bank.now) x ≡ argument (tree_at bank.now) y) }
{
    bank.is_sound();
    match x {
        Some(s) => match y {
            Some(t) => s == t,
            None => false,
        },
        None => y.is_none(),
    }
}

/// Whether a term is this logical constant with these arguments.
fn is_logic(bank: &Bank, t: TermId, op: Op, x: Option<TermId>, y: Option<TermId>) -> bool
    requires within { t < length bank.now.terms }
    requires type_within { HasTypeBelow (length bank.now.types) op }
    requires first { IsArgumentBelow (length bank.now.terms) x }
    requires second { IsArgumentBelow (length bank.now.terms) y }
    ensures { Decides result (tree_at bank.now t ≡ logic (connective bank.now op) (argument (tree_at bank.now) x) (argument (tree_at bank.now) y)) }
{
    match bank.view(t) {
        View::Var(_) => false,
        View::Bound(_) => false,
        View::Sym(_) => false,
        View::App(_, _) => false,
        View::Lam(_, _) => false,
        View::Logic(other, z, w) => {
            if !is_one_constant(bank, other, op) {
                return false;
            }
            if !is_same_argument(bank, z, x) {
                return false;
            }
            is_same_argument(bank, w, y)
        }
    }
}

/// Whether a term is an application with another child of this number.
fn app_has_child(bank: &Bank, f: TermId, x: TermId, number: u8, part: TermId, new: TermId) -> bool
    requires function { f < length bank.now.terms }
    requires argument { x < length bank.now.terms }
    requires part { part < length bank.now.terms }
    requires new { new < length bank.now.terms }
    ensures { Decides result (tree_at bank.now new ≡ put_child number (tree_at bank.now part) (app (tree_at bank.now f) (tree_at bank.now x))) }
{
    match number {
        0 => is_app(bank, new, part, x),
        1 => is_app(bank, new, f, part),
        _ => is_app(bank, new, f, x),
    }
}

/// Whether a term is a logical constant with another argument of this number.
fn logic_has_child(
    bank: &Bank,
    op: Op,
    x: Option<TermId>,
    y: Option<TermId>,
    number: u8,
    part: TermId,
    new: TermId,
) -> bool
    requires type_within { HasTypeBelow (length bank.now.types) op }
    requires first { IsArgumentBelow (length bank.now.terms) x }
    requires second { IsArgumentBelow (length bank.now.terms) y }
    requires part { part < length bank.now.terms }
    requires new { new < length bank.now.terms }
    ensures { Decides result (tree_at bank.now new ≡ put_child number (tree_at bank.now part) (logic (connective bank.now op) (argument (tree_at bank.now) x) (argument (tree_at bank.now) y))) }
{
    match number {
        0 => is_logic(bank, new, op, Some(part), y),
        1 => is_logic(bank, new, op, x, Some(part)),
        _ => is_logic(bank, new, op, x, y),
    }
}

/// Whether a term is another one with `part` as its child of this number.
fn has_child(bank: &Bank, t: TermId, number: u8, part: TermId, new: TermId) -> bool
    requires within { t < length bank.now.terms }
    requires part { part < length bank.now.terms }
    requires new { new < length bank.now.terms }
    ensures { Decides result (tree_at bank.now new ≡ put_child number (tree_at bank.now part) (tree_at bank.now t)) }
{
    match bank.view(t) {
        View::Var(_) => new == t,
        View::Bound(_) => new == t,
        View::Sym(_) => new == t,
        View::App(f, x) => app_has_child(bank, f, x, number, part, new),
        View::Lam(_, _) => new == t,
        View::Logic(op, x, y) => logic_has_child(bank, op, x, y, number, part, new),
    }
}

/// Whether a term is another one with `r` in the place of what stands at a path.
fn is_replaced_at(bank: &Bank, t: TermId, path: &[u8], r: TermId, new: TermId) -> bool
    requires within { t < length bank.now.terms }
    requires by { r < length bank.now.terms }
    requires new { new < length bank.now.terms }
    requires leads { LeadsTo path.now (tree_at bank.now t) }
    ensures { Decides result (tree_at bank.now new ≡ replaced_at path.now (tree_at bank.now r) (tree_at bank.now t)) }
{
    bank.is_sound();
    let mut old_at = t;
    let mut new_at = new;
    for number in path {
        let Some(old) = child(bank, old_at, *number) else {
            return false;
        };
        let Some(part) = child(bank, new_at, *number) else {
            return false;
        };
        if !has_child(bank, old_at, *number, part, new_at) {
            return false;
        }
        old_at = old;
        new_at = part;
    }
    new_at == r
}

/// Whether a literal is another one with `r` in the place of what stands at a path in its side.
pub(crate) fn is_replaced_in(
    bank: &Bank,
    lit: &Lit,
    side: Side,
    path: &[u8],
    r: TermId,
    new: &Lit,
) -> bool
    requires left { lit.now.left < length bank.now.terms }
    requires right { lit.now.right < length bank.now.terms }
    requires by { r < length bank.now.terms }
    requires new_left { new.now.left < length bank.now.terms }
    requires new_right { new.now.right < length bank.now.terms }
    requires leads { LeadsTo path.now (side_of_tree side (literal_at bank.now lit.now)) }
    ensures { Decides result (literal_at bank.now new.now ≡ replaced_in side path.now (tree_at bank.now r) (literal_at bank.now lit.now)) }
{
    bank.is_sound();
    if new.pos != lit.pos {
        return false;
    }
    match side {
        Side::Left => {
            if new.right != lit.right {
                return false;
            }
            is_replaced_at(bank, lit.left, path, r, new.left)
        }
        Side::Right => {
            if new.left != lit.left {
                return false;
            }
            is_replaced_at(bank, lit.right, path, r, new.right)
        }
    }
}
