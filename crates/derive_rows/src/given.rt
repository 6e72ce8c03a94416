//! A problem and the terms of its derivations.

ghost use Rattle.std.specs.Prelude.{◌<◌, length, IfOk, IfSome};
ghost use Rattle.leo_terms.specs.Contents.{Extends};
ghost use Rattle.leo_problem.specs.Loading.{AreClosedFormulas, IsProblem};
ghost use Rattle.derive_rows.specs.Given.{AreTermsIn};

use leo_edge::MemFiles;
use leo_problem::{Hyp, LoadRefusal, Problem, load};
use leo_terms::{Bank, Op, SymId, TermId, TyId};
use std::alloc::{AllocError, Global};

/// The hypotheses are p and ~ p.
const TEXT: &[u8] = b"thf(p_type,type,p: $o).thf(a,axiom,p).thf(c,conjecture,p).";

/// A symbol for a truth value, as a term.
#[derive(Clone, Copy)]
pub(crate) struct Name {
    pub(crate) symbol: SymId,
    pub(crate) term: TermId,
}

/// The hypotheses of the problem, the two truth values, and two symbols.
#[derive(Clone, Copy)]
pub(crate) struct Terms {
    pub(crate) proposition: TermId,
    pub(crate) negation: TermId,
    pub(crate) truth: TermId,
    pub(crate) falsity: TermId,
    pub(crate) first: Name,
    pub(crate) second: Name,
}

/// The problem.
pub(crate) fn loaded(alloc: Global) -> Result<Problem, LoadRefusal>
    ensures { IfOk result IsProblem }
{
    let mut files = MemFiles::new(alloc);
    files.add("x.p", TEXT)?;
    load(alloc, &mut files, "x.p", None)
}

fn make_name(bank: &mut Bank) -> Result<Name, AllocError>
    ensures within { IfOk result (λ n. n.term < length bank.new.terms) }
    ensures grows { Extends bank.old bank.new }
{
    bank.is_sound();
    let symbol = bank.fresh(TyId::truth())?;
    let term = bank.make_sym(symbol)?;
    Ok(Name { symbol, term })
}

/// The terms of a problem with two hypotheses.
pub(crate) fn make_terms(bank: &mut Bank, hyps: &[Hyp]) -> Result<Option<Terms>, AllocError>
    requires { AreClosedFormulas bank.old hyps.now }
    ensures terms { IfOk result (λ t. IfSome t (AreTermsIn bank.new)) }
    ensures grows { Extends bank.old bank.new }
{
    bank.is_sound();
    if hyps.len() < 2 {
        return Ok(None);
    }
    let (proposition, negation) = (hyps[0].term, hyps[1].term);
    let truth = bank.make_logic(Op::True, &[])?;
    let falsity = bank.make_logic(Op::False, &[])?;
    let first = make_name(bank)?;
    let second = make_name(bank)?;
    Ok(Some(Terms {
        proposition,
        negation,
        truth,
        falsity,
        first,
        second,
    }))
}
