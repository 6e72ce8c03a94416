//! Whether clauses are typed, and numbers those of negative literals.

ghost use Rattle.std.specs.Prelude.{◌≡◌, ◌<◌, length, map};
ghost use Rattle.std.specs.Bool.{OnTrue};
ghost use Rattle.leo_terms.specs.Contents.{IsArgumentBelow, argument, tree_at, type_at};
ghost use Rattle.leo_terms.specs.Tree.{variable};
ghost use Rattle.leo_clause.specs.Trees.{literal_at};
ghost use Rattle.conclude_rows.specs.Boards.{AreNegative, IsNegative};
ghost use Rattle.leo_clause.specs.Typed.{AreTypesOf, IsClauseOf, IsOver, IsTypedIn, IsTypedLiteral};

use leo_clause::{Clause, Lit};
use leo_terms::{Bank, DEPTH, TermId, TyId, View};

/// Whether a variable is one of these.
fn is_declared(bank: &Bank, vars: &[TyId], number: u32, ty: TyId) -> bool
    ensures { OnTrue result (IsOver (map (type_at bank.now) vars.now) 0 (variable number (type_at bank.now ty))) }
{
    let _ = bank;
    let place = number as usize;
    if place < vars.len() {
        vars[place] == ty
    } else {
        false
    }
}

/// Whether each variable of a term under `depth` lambdas is one of these, and no index is loose. Goes at most `room`
/// levels down, and says no below them.
#[cycle(over)]
fn is_over(bank: &Bank, vars: &[TyId], t: TermId, depth: u32, room: u32) -> bool
    requires { t < length bank.now.terms }
    ensures { OnTrue result (IsOver (map (type_at bank.now) vars.now) depth (tree_at bank.now t)) }
{
    let Some(room) = room.checked_sub(1) else {
        return false;
    };
    match bank.view(t) {
        View::Var(number) => is_declared(bank, vars, number, bank.type_of(t)),
        View::Bound(index) => index < depth,
        View::Sym(_) => true,
        View::App(f, a) => {
            let first = is_over(bank, vars, f, depth, room);
            if !first {
                return false;
            }
            let second = is_over(bank, vars, a, depth, room);
            second
        }
        View::Lam(_, body) => {
            let Some(under) = depth.checked_add(1) else {
                return false;
            };
            let inner = is_over(bank, vars, body, under, room);
            inner
        }
        View::Logic(_, x, y) => {
            let first = is_argument_over(bank, vars, x, depth, room);
            if !first {
                return false;
            }
            let second = is_argument_over(bank, vars, y, depth, room);
            second
        }
    }
}

/// The same of an argument that may be missing.
#[cycle(over)]
fn is_argument_over(bank: &Bank, vars: &[TyId], x: Option<TermId>, depth: u32, room: u32) -> bool
    requires { IsArgumentBelow (length bank.now.terms) x }
    ensures { OnTrue result (IsOver (map (type_at bank.now) vars.now) depth (argument (tree_at bank.now) x)) }
{
    match x {
        Some(t) => is_over(bank, vars, t, depth, room),
        None => true,
    }
}

/// Whether both sides of a literal are terms over these variables, of one type.
fn is_typed_literal(bank: &Bank, vars: &[TyId], lit: &Lit) -> bool
    requires left { lit.now.left < length bank.now.terms }
    requires right { lit.now.right < length bank.now.terms }
    ensures { OnTrue result (IsTypedLiteral (map (type_at bank.now) vars.now) (literal_at bank.now lit.now)) }
{
    bank.is_sound();
    if bank.type_of(lit.left) != bank.type_of(lit.right) {
        return false;
    }
    if !is_over(bank, vars, lit.left, 0, DEPTH) {
        return false;
    }
    is_over(bank, vars, lit.right, 0, DEPTH)
}

/// Whether a clause is typed.
pub(crate) fn is_typed(bank: &Bank, clause: &Clause) -> bool
    requires { IsClauseOf bank.now clause.now }
    ensures { OnTrue result (IsTypedIn bank.now clause.now) }
{
    for lit in clause.lits.as_slice() {
        if !is_typed_literal(bank, clause.vars.as_slice(), lit) {
            return false;
        }
    }
    true
}

/// Whether the literal with this number is there, and is negative.
fn is_negative(lits: &[Lit], number: u32) -> bool
    ensures { OnTrue result (IsNegative lits.now number) }
{
    let place = number as usize;
    if place < lits.len() {
        !lits[place].pos
    } else {
        false
    }
}

/// Whether these are numbers of negative literals.
pub(crate) fn are_constraints(clause: &Clause, numbers: &[u32]) -> bool
    ensures { OnTrue result (AreNegative clause.now.lits numbers.now) }
{
    for number in numbers {
        if !is_negative(clause.lits.as_slice(), *number) {
            return false;
        }
    }
    true
}
