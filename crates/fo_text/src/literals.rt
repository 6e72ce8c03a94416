//! Literals.

ghost use Rattle.std.specs.Prelude.{◌≡◌, ◌≤◌, ◌<◌, ◌^◌, ◌++◌, ◌∷◌, length, IfOk, IfErr, Bool, ℕ, None, Some, slice_get};
ghost use Rattle.fo_text.specs.declared.problem.FoSym.{FoSym};
ghost use Rattle.std.specs.List.{AllByRecursion};
ghost use Rattle.fo_text.specs.Reads.{IsStop};
ghost use Rattle.fo_text.specs.Pieces.{StandsFirst, HasFewArgs};
ghost use Rattle.fo_text.specs.Problems.{HasSort, IsLiteral};
ghost use Rattle.fo_text.specs.Spellings.{sign_word, literal_text};
ghost use Rattle.fo_text.specs.Nodes.{CanBegin, AreMarks};
ghost use Rattle.fo_text.specs.Literals.{IsSign, spaced_sign, ended_literal};

use crate::field::common;
use crate::nodes::{Names, larger};
use crate::problem::{FoLit, FoSym};
use crate::refusal::Stop;
use crate::terms::term;
use fo_terms::term::{FoNode, FoTerm};
use std::alloc::Global;

/// A sign between two spaces, of which the second is left.
fn sign(input: &[u8]) -> Result<(bool, &[u8]), Stop>
    ensures read { IfOk result (λ x. input.now ≡ 32 ∷ (sign_word x.0 ++ x.1.now)) }
    ensures ended { IfOk result (λ x. StandsFirst 32 x.1.now) }
    ensures refused { IfErr result (IsStop IsSign spaced_sign input.now) }
{
    let plus = common(input, b" + ");
    let minus = common(input, b" - ");
    if plus == 3 {
        let (_, rest) = input.split_at(2);
        return Ok((true, rest));
    }
    if minus == 3 {
        let (_, rest) = input.split_at(2);
        return Ok((false, rest));
    }
    Err(Stop::At {
        left: input.len() - larger(plus, minus),
    })
}

fn first_node(nodes: &[FoNode]) -> FoNode
    requires { 0 < length nodes.now }
    ensures { slice_get nodes.now 0 ≡ Some result }
{
    nodes[0]
}

fn result_of(syms: &[FoSym], symbol: u32) -> u32
    requires { symbol < length syms.now }
    ensures { (y : FoSym) → slice_get syms.now symbol ≡ Some y → result ≡ y.result }
{
    syms[symbol as usize].result
}

fn sort_at(vars: &[u32], variable: u32) -> u32
    requires { variable < length vars.now }
    ensures { slice_get vars.now variable ≡ Some result }
{
    vars[variable as usize]
}

/// The sort of a term that has one.
fn sort_of(names: Names<'_>, term: &FoTerm) -> u32
    requires { (s : ℕ) × HasSort names.vars.now names.syms.now term.now s }
    ensures { HasSort names.entry.vars.now names.entry.syms.now term.now result }
{
    match first_node(term.nodes()) {
        FoNode::Var(variable) => sort_at(names.vars, variable),
        FoNode::Sym(symbol, _) => result_of(names.syms, symbol),
    }
}

/// A literal, with that byte behind it.
pub(crate) fn literal<'a>(
    alloc: Global,
    input: &'a [u8],
    names: Names<'_>,
    end: u8,
) -> Result<(FoLit, &'a [u8]), Stop>
    requires few { AllByRecursion HasFewArgs names.syms.now }
    requires numbered { (length names.vars.now < 2 ^ 32) × (length names.syms.now < 2 ^ 32) }
    requires end { end < 48 }
    ensures literal { IfOk result (λ x. IsLiteral names.entry.vars.now names.entry.syms.now x.0) }
    ensures read { IfOk result (λ x. input.now ≡ literal_text x.0 ++ x.1.now) }
    ensures ended { IfOk result (λ x. StandsFirst end x.1.now) }
    ensures refused { IfErr result (λ e. AreMarks names.entry.vars.now names.entry.syms.now names.entry.usable.now → CanBegin names.entry.vars.now names.entry.syms.now None → IsStop (IsLiteral names.entry.vars.now names.entry.syms.now) (ended_literal end) input.now e) }
{
    let (pos, behind_sign) = sign(input)?;
    let (left, behind_left) = term(alloc, behind_sign, names, None, b' ')?;
    let sort = sort_of(names, &left);
    let (right, rest) = term(alloc, behind_left, names, Some(sort), end)?;
    Ok((FoLit { pos, left, right }, rest))
}
