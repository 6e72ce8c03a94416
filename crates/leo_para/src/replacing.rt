//! Terms with something else at a path.

ghost use Rattle.std.specs.Prelude.{◌≡◌, ◌<◌, IfOk, IsSomeAnd, Some, length};
ghost use Rattle.std.specs.Option.{option_map};
ghost use Rattle.leo_terms.specs.Contents.{Extends, HasTypeBelow, IsApplicable, IsArgumentBelow, IsTerm, Takes, argument, argument_type, codomain_number, connective, operator_type, tree_at, type_number};
ghost use Rattle.leo_terms.specs.Tree.{app, logic, type_of};
ghost use Rattle.leo_clause.specs.Trees.{literal_at};
ghost use Rattle.leo_kernel.specs.ByNumber.{app_child_of, logic_child_of};
ghost use Rattle.leo_kernel.specs.Moved.{put_child};
ghost use Rattle.leo_kernel.specs.Places.{child as child_of, replaced_at as replaced_tree, replaced_in as replaced_literal, subterm as subterm_of};
ghost use Rattle.leo_kernel.specs.Shapes.{side_of as side_of_tree};
ghost use Rattle.leo_para.specs.Concluding.{IsLiteral};
ghost use Rattle.leo_para.specs.Found.{IsLitOf};

use leo_clause::{Lit, Side};
use leo_terms::{Bank, DEPTH, Op, TermId, View};
use std::alloc::AllocError;

/// The child of an application with this number.
fn app_child(f: TermId, a: TermId, number: u8) -> Option<TermId>
    ensures { result ≡ app_child_of f a number }
{
    match number {
        0 => Some(f),
        1 => Some(a),
        _ => None,
    }
}

/// The argument of a logical constant with this number.
fn logic_child(x: Option<TermId>, y: Option<TermId>, number: u8) -> Option<TermId>
    ensures { result ≡ logic_child_of x y number }
{
    match number {
        0 => x,
        1 => y,
        _ => None,
    }
}

/// The child with this number, if it is there. A lambda has none.
fn child(bank: &Bank, t: TermId, number: u8) -> Option<TermId>
    requires { t < length bank.now.terms }
    ensures value { option_map (tree_at bank.now) result ≡ child_of number (tree_at bank.now t) }
    ensures within { IsArgumentBelow (length bank.now.terms) result }
{
    match bank.view(t) {
        View::Var(_) => None,
        View::Bound(_) => None,
        View::Sym(_) => None,
        View::App(f, a) => app_child(f, a, number),
        View::Lam(_, _) => None,
        View::Logic(_, x, y) => logic_child(x, y, number),
    }
}

/// What stands at a path, if something does.
pub(crate) fn subterm(bank: &Bank, t: TermId, path: &[u8]) -> Option<TermId>
    requires { t < length bank.now.terms }
    ensures value { option_map (tree_at bank.now) result ≡ subterm_of path.now (tree_at bank.now t) }
    ensures within { IsArgumentBelow (length bank.now.terms) result }
{
    let mut at = t;
    for number in path {
        match child(bank, at, *number) {
            Some(next) => at = next,
            None => return None,
        }
    }
    Some(at)
}

/// A logical constant with its arguments.
fn with_arguments(
    bank: &mut Bank,
    op: Op,
    x: Option<TermId>,
    y: Option<TermId>,
) -> Result<TermId, AllocError>
    requires first { IsArgumentBelow (length bank.old.terms) x }
    requires second { IsArgumentBelow (length bank.old.terms) y }
    requires type_within { HasTypeBelow (length bank.old.types) op }
    requires typed { Takes bank.old op (argument_type bank.old x) (argument_type bank.old y) (operator_type op) }
    ensures made { IfOk result (λ t. IsTerm bank.new t (operator_type op) (logic (connective bank.old op) (argument (tree_at bank.old) x) (argument (tree_at bank.old) y))) }
    ensures grows { Extends bank.old bank.new }
{
    match x {
        Some(first) => match y {
            Some(second) => bank.make_logic(op, &[first, second]),
            None => bank.make_logic(op, &[first]),
        },
        None => bank.make_logic(op, &[]),
    }
}

/// An application with another child of this number, of the same type.
fn app_with(
    bank: &mut Bank,
    f: TermId,
    x: TermId,
    number: u8,
    part: TermId,
) -> Result<TermId, AllocError>
    requires function { f < length bank.old.terms }
    requires argument { x < length bank.old.terms }
    requires applicable { IsApplicable bank.old f x }
    requires part { part < length bank.old.terms }
    requires typed { IsSomeAnd (child_of number (app (tree_at bank.old f) (tree_at bank.old x))) (λ s. type_of s ≡ type_of (tree_at bank.old part)) }
    ensures made { IfOk result (λ t. IsTerm bank.new t (codomain_number bank.old (type_number bank.old f)) (put_child number (tree_at bank.old part) (app (tree_at bank.old f) (tree_at bank.old x)))) }
    ensures grows { Extends bank.old bank.new }
{
    bank.is_sound();
    match number {
        0 => bank.make_app(part, x),
        1 => bank.make_app(f, part),
        _ => unreachable!(),
    }
}

/// A logical constant with another argument of this number, of the same type.
fn logic_with(
    bank: &mut Bank,
    op: Op,
    x: Option<TermId>,
    y: Option<TermId>,
    number: u8,
    part: TermId,
) -> Result<TermId, AllocError>
    requires first { IsArgumentBelow (length bank.old.terms) x }
    requires second { IsArgumentBelow (length bank.old.terms) y }
    requires type_within { HasTypeBelow (length bank.old.types) op }
    requires takes { Takes bank.old op (argument_type bank.old x) (argument_type bank.old y) (operator_type op) }
    requires part { part < length bank.old.terms }
    requires typed { IsSomeAnd (child_of number (logic (connective bank.old op) (argument (tree_at bank.old) x) (argument (tree_at bank.old) y))) (λ s. type_of s ≡ type_of (tree_at bank.old part)) }
    ensures made { IfOk result (λ t. IsTerm bank.new t (operator_type op) (put_child number (tree_at bank.old part) (logic (connective bank.old op) (argument (tree_at bank.old) x) (argument (tree_at bank.old) y)))) }
    ensures grows { Extends bank.old bank.new }
{
    bank.is_sound();
    match number {
        0 => with_arguments(bank, op, Some(part), y),
        1 => with_arguments(bank, op, x, Some(part)),
        _ => unreachable!(),
    }
}

/// A term with another child of this number, of the same type.
fn with_child(bank: &mut Bank, t: TermId, number: u8, part: TermId) -> Result<TermId, AllocError>
    requires within { t < length bank.old.terms }
    requires part { part < length bank.old.terms }
    requires typed { IsSomeAnd (child_of number (tree_at bank.old t)) (λ s. type_of s ≡ type_of (tree_at bank.old part)) }
    ensures made { IfOk result (λ u. IsTerm bank.new u (type_number bank.old t) (put_child number (tree_at bank.old part) (tree_at bank.old t))) }
    ensures grows { Extends bank.old bank.new }
{
    match bank.view(t) {
        View::App(f, x) => app_with(bank, f, x, number, part),
        View::Logic(op, x, y) => logic_with(bank, op, x, y, number, part),
        View::Var(_) => unreachable!(),
        View::Bound(_) => unreachable!(),
        View::Sym(_) => unreachable!(),
        View::Lam(_, _) => unreachable!(),
    }
}

/// A term with another one of the same type at a path. Goes at most `room` levels down.
fn replaced_at(
    bank: &mut Bank,
    t: TermId,
    path: &[u8],
    by: TermId,
    room: u32,
) -> Result<TermId, AllocError>
    requires within { t < length bank.old.terms }
    requires by { by < length bank.old.terms }
    requires typed { IsSomeAnd (subterm_of path.now (tree_at bank.old t)) (λ s. type_of s ≡ type_of (tree_at bank.old by)) }
    ensures made { IfOk result (λ u. IsTerm bank.new u (type_number bank.old t) (replaced_tree path.now (tree_at bank.old by) (tree_at bank.old t))) }
    ensures grows { Extends bank.old bank.new }
{
    bank.is_sound();
    let Some(room) = room.checked_sub(1) else {
        return Err(AllocError);
    };
    let Some((number, rest)) = path.split_first() else {
        return Ok(by);
    };
    let Some(below) = child(bank, t, *number) else {
        unreachable!()
    };
    let part = replaced_at(bank, below, rest, by, room)?;
    let whole = with_child(bank, t, *number, part)?;
    Ok(whole)
}

/// A literal with another term of the same type at a path in a side.
pub(crate) fn replaced_in(
    bank: &mut Bank,
    lit: &Lit,
    side: Side,
    path: &[u8],
    by: TermId,
) -> Result<Lit, AllocError>
    requires lit { IsLitOf bank.old lit.now }
    requires by { by < length bank.old.terms }
    requires typed { IsSomeAnd (subterm_of path.now (side_of_tree side (literal_at bank.old lit.now))) (λ s. type_of s ≡ type_of (tree_at bank.old by)) }
    ensures made { IfOk result (λ l. IsLiteral bank.new l (replaced_literal side path.now (tree_at bank.old by) (literal_at bank.old lit.now))) }
    ensures grows { Extends bank.old bank.new }
{
    bank.is_sound();
    match side {
        Side::Left => {
            let left = replaced_at(bank, lit.left, path, by, DEPTH)?;
            Ok(Lit {
                pos: lit.pos,
                left,
                right: lit.right,
            })
        }
        Side::Right => {
            let right = replaced_at(bank, lit.right, path, by, DEPTH)?;
            Ok(Lit {
                pos: lit.pos,
                left: lit.left,
                right,
            })
        }
    }
}
