//! Types and terms as they are written.

ghost use Rattle.std.specs.Prelude.{◌≡◌, ◌++◌, ◌+◌, ◌-◌, ◌<◌, length, codes, OnOk};
ghost use Rattle.leo_terms.specs.Contents.{IsArgumentBelow, argument, connective, tree_at, type_at};
ghost use Rattle.leo_tstp.specs.Namings.{words_in};
ghost use Rattle.leo_tstp.specs.TermTexts as spec;
ghost use Rattle.leo_tstp.specs.TermTexts.{lambda_sign, type_text, signed_text, term_text};
ghost use Rattle.leo_terms.specs.Tree.{logic};
ghost use Rattle.leo_tstp.specs.Words.{in_brackets, behind_sign};

use crate::namer::Namer;
use crate::words::write_number;
use leo_terms::{Bank, DEPTH, Op, TermId, TyId, TyView, View};
use std::alloc::AllocError;

/// The sign of a lambda.
const LAMBDA: &[u8] = b"^";

/// Appends a type. Goes at most `room` levels down.
#[cycle(typing)]
fn write_type_within(
    bank: &Bank,
    namer: &Namer,
    ty: TyId,
    room: u32,
    out: &mut Vec<u8>,
) -> Result<(), AllocError>
    requires { ty < length bank.now.types }
    ensures { OnOk result (out.new.items ≡ out.old.items ++ type_text (words_in bank.now namer.now) (type_at bank.now ty)) }
{
    let Some(room) = room.checked_sub(1) else {
        return Err(AllocError);
    };
    match bank.view_ty(ty) {
        TyView::Base(base) => namer.write_base(base, out),
        TyView::Arrow(from, to) => write_arrow(bank, namer, from, to, room, out),
    }
}

/// Appends the type of functions from one type to another.
#[cycle(typing)]
#[tactic(auto, unfolding(crate::specs::Words::in_brackets))]
fn write_arrow(
    bank: &Bank,
    namer: &Namer,
    from: TyId,
    to: TyId,
    room: u32,
    out: &mut Vec<u8>,
) -> Result<(), AllocError>
    requires from { from < length bank.now.types }
    requires to { to < length bank.now.types }
    ensures { OnOk result (out.new.items ≡ out.old.items ++ in_brackets (type_text (words_in bank.now namer.now) (type_at bank.now from)) (codes " > ") (type_text (words_in bank.now namer.now) (type_at bank.now to))) }
{
    out.extend_from_slice(b"( ")?;
    write_type_within(bank, namer, from, room, out)?;
    out.extend_from_slice(b" > ")?;
    write_type_within(bank, namer, to, room, out)?;
    out.extend_from_slice(b" )")?;
    Ok(())
}

/// Appends a type.
pub(crate) fn write_type(
    bank: &Bank,
    namer: &Namer,
    ty: TyId,
    out: &mut Vec<u8>,
) -> Result<(), AllocError>
    requires { ty < length bank.now.types }
    ensures { OnOk result (out.new.items ≡ out.old.items ++ type_text (words_in bank.now namer.now) (type_at bank.now ty)) }
{
    write_type_within(bank, namer, ty, DEPTH, out)
}

/// Appends a variable of a clause.
#[tactic(auto, unfolding(crate::specs::TermTexts::variable_name))]
pub(crate) fn write_variable(number: u64, out: &mut Vec<u8>) -> Result<(), AllocError>
    ensures { OnOk result (out.new.items ≡ out.old.items ++ spec.variable_name number) }
{
    out.push(b'X')?;
    write_number(number, out)
}

/// Appends the variable of a lambda that stands under so many.
#[tactic(auto, unfolding(crate::specs::TermTexts::bound_name))]
fn write_bound(number: u32, out: &mut Vec<u8>) -> Result<(), AllocError>
    ensures { OnOk result (out.new.items ≡ out.old.items ++ spec.bound_name number) }
{
    out.push(b'Y')?;
    write_number(u64::from(number), out)
}

/// How many lambdas stand around the one that an index under so many leads to.
fn lambdas_around(depth: u32, index: u32) -> u32
    ensures { result ≡ (depth - index) - 1 }
{
    depth.saturating_sub(index).saturating_sub(1)
}

/// Whether a term is a lambda.
fn is_lambda_term(bank: &Bank, t: TermId) -> bool
    requires { t < length bank.now.terms }
    ensures { result ≡ spec.is_lambda (tree_at bank.now t) }
{
    match bank.view(t) {
        View::Var(_) => false,
        View::Bound(_) => false,
        View::Sym(_) => false,
        View::App(..) => false,
        View::Lam(..) => true,
        View::Logic(..) => false,
    }
}

/// Whether an argument is a lambda.
fn is_lambda(bank: &Bank, x: &Option<TermId>) -> bool
    requires { IsArgumentBelow (length bank.now.terms) x.now }
    ensures { result ≡ spec.is_lambda (argument (tree_at bank.now) x.now) }
{
    match x {
        Some(t) => is_lambda_term(bank, *t),
        None => false,
    }
}

/// Appends the text of a term under so many lambdas, with that sign if it is a lambda itself. Goes at most `room`
/// levels down.
#[cycle(writing)]
fn write_signed(
    bank: &Bank,
    namer: &Namer,
    t: TermId,
    depth: u32,
    sign: &[u8],
    room: u32,
    out: &mut Vec<u8>,
) -> Result<(), AllocError>
    requires { t < length bank.now.terms }
    ensures { OnOk result (out.new.items ≡ out.old.items ++ signed_text (words_in bank.now namer.now) depth sign.now (tree_at bank.now t)) }
{
    let Some(room) = room.checked_sub(1) else {
        return Err(AllocError);
    };
    match bank.view(t) {
        View::Var(number) => write_variable(u64::from(number), out),
        View::Bound(index) => write_bound(lambdas_around(depth, index), out),
        View::Sym(symbol) => namer.write_symbol(symbol, out),
        View::App(f, a) => write_infix(bank, namer, Some(f), b" @ ", Some(a), depth, room, out),
        View::Lam(ty, body) => write_binder(bank, namer, ty, body, depth, sign, room, out),
        View::Logic(op, x, y) => write_logic(bank, namer, op, x, y, depth, room, out),
    }
}

/// Appends an argument, if it stands there.
#[cycle(writing)]
fn write_argument(
    bank: &Bank,
    namer: &Namer,
    x: Option<TermId>,
    depth: u32,
    sign: &[u8],
    room: u32,
    out: &mut Vec<u8>,
) -> Result<(), AllocError>
    requires { IsArgumentBelow (length bank.now.terms) x }
    ensures { OnOk result (out.new.items ≡ out.old.items ++ signed_text (words_in bank.now namer.now) depth sign.now (argument (tree_at bank.now) x)) }
{
    match x {
        Some(t) => write_signed(bank, namer, t, depth, sign, room, out),
        None => Ok(()),
    }
}

/// Appends two terms in brackets with a sign between.
#[cycle(writing)]
#[tactic(auto, unfolding(crate::specs::Words::in_brackets))]
fn write_infix(
    bank: &Bank,
    namer: &Namer,
    x: Option<TermId>,
    sign: &[u8],
    y: Option<TermId>,
    depth: u32,
    room: u32,
    out: &mut Vec<u8>,
) -> Result<(), AllocError>
    requires first { IsArgumentBelow (length bank.now.terms) x }
    requires second { IsArgumentBelow (length bank.now.terms) y }
    ensures { OnOk result (out.new.items ≡ out.old.items ++ in_brackets (signed_text (words_in bank.now namer.now) depth lambda_sign (argument (tree_at bank.now) x)) sign.now (signed_text (words_in bank.now namer.now) depth lambda_sign (argument (tree_at bank.now) y))) }
{
    out.extend_from_slice(b"( ")?;
    write_argument(bank, namer, x, depth, LAMBDA, room, out)?;
    out.extend_from_slice(sign)?;
    write_argument(bank, namer, y, depth, LAMBDA, room, out)?;
    out.extend_from_slice(b" )")?;
    Ok(())
}

/// Appends a term in brackets behind a sign.
#[cycle(writing)]
#[tactic(auto, unfolding(crate::specs::Words::behind_sign))]
fn write_behind(
    bank: &Bank,
    namer: &Namer,
    sign: &[u8],
    x: Option<TermId>,
    depth: u32,
    room: u32,
    out: &mut Vec<u8>,
) -> Result<(), AllocError>
    requires { IsArgumentBelow (length bank.now.terms) x }
    ensures { OnOk result (out.new.items ≡ out.old.items ++ behind_sign sign.now (signed_text (words_in bank.now namer.now) depth lambda_sign (argument (tree_at bank.now) x))) }
{
    out.extend_from_slice(b"( ")?;
    out.extend_from_slice(sign)?;
    write_argument(bank, namer, x, depth, LAMBDA, room, out)?;
    out.extend_from_slice(b" )")?;
    Ok(())
}

/// Appends a binder's sign and its variable with a type, and what stands between these and the body.
#[tactic(auto, unfolding(crate::specs::TermTexts::binder_head))]
fn write_binder_head(
    bank: &Bank,
    namer: &Namer,
    ty: TyId,
    depth: u32,
    sign: &[u8],
    out: &mut Vec<u8>,
) -> Result<(), AllocError>
    requires { ty < length bank.now.types }
    ensures { OnOk result (out.new.items ≡ out.old.items ++ spec.binder_head sign.now depth (type_text (words_in bank.now namer.now) (type_at bank.now ty))) }
{
    out.extend_from_slice(sign)?;
    out.extend_from_slice(b" [")?;
    write_bound(depth, out)?;
    out.extend_from_slice(b": ")?;
    write_type(bank, namer, ty, out)?;
    out.extend_from_slice(b"] : ")
}

/// Appends a binder with its body.
#[cycle(writing)]
#[tactic(auto, unfolding(crate::specs::TermTexts::binder_text))]
fn write_binder(
    bank: &Bank,
    namer: &Namer,
    ty: TyId,
    body: TermId,
    depth: u32,
    sign: &[u8],
    room: u32,
    out: &mut Vec<u8>,
) -> Result<(), AllocError>
    requires ty { ty < length bank.now.types }
    requires body { body < length bank.now.terms }
    ensures { OnOk result (out.new.items ≡ out.old.items ++ spec.binder_text sign.now depth (type_text (words_in bank.now namer.now) (type_at bank.now ty)) (signed_text (words_in bank.now namer.now) (depth + 1) lambda_sign (tree_at bank.now body))) }
{
    let Some(under) = depth.checked_add(1) else {
        return Err(AllocError);
    };
    out.extend_from_slice(b"( ")?;
    write_binder_head(bank, namer, ty, depth, sign, out)?;
    write_signed(bank, namer, body, under, LAMBDA, room, out)?;
    out.extend_from_slice(b" )")
}

/// Appends a quantifier or choice: the sign of a binder where its argument is a lambda, and else a constant that is
/// applied to it.
#[cycle(writing)]
fn write_quantified(
    bank: &Bank,
    namer: &Namer,
    x: Option<TermId>,
    sign: &[u8],
    constant: &[u8],
    depth: u32,
    room: u32,
    out: &mut Vec<u8>,
) -> Result<(), AllocError>
    requires { IsArgumentBelow (length bank.now.terms) x }
    ensures { OnOk result (out.new.items ≡ out.old.items ++ spec.quantified sign.now constant.now (spec.is_lambda (argument (tree_at bank.now) x)) (λ s. signed_text (words_in bank.now namer.now) depth s (argument (tree_at bank.now) x))) }
{
    if is_lambda(bank, &x) {
        write_argument(bank, namer, x, depth, sign, room, out)
    } else {
        write_behind(bank, namer, constant, x, depth, room, out)
    }
}

/// Appends a logical constant with its arguments.
#[cycle(writing)]
fn write_logic(
    bank: &Bank,
    namer: &Namer,
    op: Op,
    x: Option<TermId>,
    y: Option<TermId>,
    depth: u32,
    room: u32,
    out: &mut Vec<u8>,
) -> Result<(), AllocError>
    requires first { IsArgumentBelow (length bank.now.terms) x }
    requires second { IsArgumentBelow (length bank.now.terms) y }
    ensures { OnOk result (out.new.items ≡ out.old.items ++ signed_text (words_in bank.now namer.now) depth lambda_sign (logic (connective bank.now op) (argument (tree_at bank.now) x) (argument (tree_at bank.now) y))) }
{
    match op {
        Op::True => out.extend_from_slice(b"$true"),
        Op::False => out.extend_from_slice(b"$false"),
        Op::Not => write_behind(bank, namer, b"~ ", x, depth, room, out),
        Op::Or => write_infix(bank, namer, x, b" | ", y, depth, room, out),
        Op::And => write_infix(bank, namer, x, b" & ", y, depth, room, out),
        Op::Imp => write_infix(bank, namer, x, b" => ", y, depth, room, out),
        Op::Eq(_) => write_infix(bank, namer, x, b" = ", y, depth, room, out),
        Op::All(_) => write_quantified(bank, namer, x, b"!", b"!! @ ", depth, room, out),
        Op::Some(_) => write_quantified(bank, namer, x, b"?", b"?? @ ", depth, room, out),
        Op::Eps(_) => write_quantified(bank, namer, x, b"@+", b"@@+ @ ", depth, room, out),
    }
}

/// Appends a term.
pub(crate) fn write_term(
    bank: &Bank,
    namer: &Namer,
    t: TermId,
    out: &mut Vec<u8>,
) -> Result<(), AllocError>
    requires { t < length bank.now.terms }
    ensures { OnOk result (out.new.items ≡ out.old.items ++ term_text (words_in bank.now namer.now) (tree_at bank.now t)) }
{
    write_signed(bank, namer, t, 0, LAMBDA, DEPTH, out)
}
