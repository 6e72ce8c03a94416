//! A quick test whether literals may be sent among others, by the heads of their sides: most clauses subsume nothing.

ghost use Rattle.std.specs.Prelude.{◌≡◌, ◌<◌, ◌⊎◌, length, map, IfOk};
ghost use Rattle.std.specs.Bool.{OnFalse, OnTrue};
ghost use Rattle.leo_terms.specs.Contents.{tree_at};
ghost use Rattle.leo_clause.specs.Trees.{literal_at};
ghost use Rattle.leo_clause.specs.Typed.{AreLiteralsOf};
ghost use Rattle.leo_keep.specs.Heads.{HasHeads, HaveHeads, IsRigid, NeverAmong, NeverBecomes, NeverSame, NeverSend, applied_head};

use leo_clause::Lit;
use leo_terms::{Bank, TermId, View};
use std::alloc::{AllocError, Global};

/// What is applied to arguments in a term, one after the other.
fn head_of(bank: &Bank, t: TermId) -> TermId
    requires { t < length bank.now.terms }
    ensures reads { tree_at bank.now result ≡ applied_head (tree_at bank.now t) }
    ensures within { result < length bank.now.terms }
{
    let mut head = t;
    while let View::App(f, _) = bank.view(head) {
        head = f;
    }
    head
}

/// A literal that has the heads of the sides of another as its own.
pub(crate) fn heads_of_literal(bank: &Bank, lit: &Lit) -> Lit
    requires left { lit.now.left < length bank.now.terms }
    requires right { lit.now.right < length bank.now.terms }
    ensures { HasHeads bank.now (literal_at bank.now lit.now) result }
{
    Lit {
        pos: lit.pos,
        left: head_of(bank, lit.left),
        right: head_of(bank, lit.right),
    }
}

/// The same of each of some literals.
pub(crate) fn heads_of(alloc: Global, bank: &Bank, lits: &[Lit]) -> Result<Vec<Lit>, AllocError>
    requires { AreLiteralsOf bank.now lits.now }
    ensures heads { IfOk result (λ hs. HaveHeads bank.now (map (literal_at bank.now) lits.now) hs.items) }
    ensures literals { IfOk result (λ hs. AreLiteralsOf bank.now hs.items) }
{
    let mut heads = Vec::new(alloc);
    for lit in lits {
        heads.push(heads_of_literal(bank, lit))?;
    }
    Ok(heads)
}

/// Whether a term stays as it is, whatever is put in for variables.
fn is_rigid(bank: &Bank, t: TermId) -> bool
    requires { t < length bank.now.terms }
    ensures { OnTrue result (IsRigid (tree_at bank.now t)) }
{
    match bank.view(t) {
        View::Sym(_) => true,
        View::Logic(_, None, None) => true,
        View::Logic(_, _, _) => false,
        View::Var(_) => false,
        View::Bound(_) => false,
        View::App(_, _) => false,
        View::Lam(_, _) => false,
    }
}

/// Whether a term with one head may become one with another.
fn may_become(bank: &Bank, head: TermId, other: TermId) -> bool
    requires head { head < length bank.now.terms }
    requires other { other < length bank.now.terms }
    ensures { OnFalse result (NeverBecomes (tree_at bank.now head) (tree_at bank.now other)) }
{
    bank.is_sound();
    if head == other {
        return true;
    }
    !is_rigid(bank, head)
}

/// Whether terms with these heads may become terms with those.
fn may_both_become(bank: &Bank, heads: &Lit, left: TermId, right: TermId) -> bool
    requires left { heads.now.left < length bank.now.terms }
    requires right { heads.now.right < length bank.now.terms }
    requires to_left { left < length bank.now.terms }
    requires to_right { right < length bank.now.terms }
    ensures { OnFalse result (NeverBecomes (tree_at bank.now heads.now.left) (tree_at bank.now left) ⊎ NeverBecomes (tree_at bank.now heads.now.right) (tree_at bank.now right)) }
{
    if !may_become(bank, heads.left, left) {
        return false;
    }
    may_become(bank, heads.right, right)
}

/// Whether a literal with these heads may become one with those, as it is or turned.
fn may_be_same(bank: &Bank, heads: &Lit, others: &Lit) -> bool
    requires left { heads.now.left < length bank.now.terms }
    requires right { heads.now.right < length bank.now.terms }
    requires to_left { others.now.left < length bank.now.terms }
    requires to_right { others.now.right < length bank.now.terms }
    ensures { OnFalse result (NeverSame bank.now heads.now others.now) }
{
    if heads.pos != others.pos {
        return false;
    }
    if may_both_become(bank, heads, others.left, others.right) {
        return true;
    }
    may_both_become(bank, heads, others.right, others.left)
}

/// Whether a literal with these heads may become one of some.
pub(crate) fn may_be_among(bank: &Bank, heads: &Lit, others: &[Lit]) -> bool
    requires left { heads.now.left < length bank.now.terms }
    requires right { heads.now.right < length bank.now.terms }
    requires others { AreLiteralsOf bank.now others.now }
    ensures { OnFalse result (NeverAmong bank.now heads.now others.now) }
{
    match others.split_first() {
        Some((first, rest)) => {
            if may_be_same(bank, heads, first) {
                return true;
            }
            may_be_among(bank, heads, rest)
        }
        None => false,
    }
}

/// Whether each of some literals may become one of those that have these heads.
pub(crate) fn may_send(bank: &Bank, lits: &[Lit], others: &[Lit]) -> bool
    requires literals { AreLiteralsOf bank.now lits.now }
    requires others { AreLiteralsOf bank.now others.now }
    ensures { OnFalse result (NeverSend bank.now (map (literal_at bank.now) lits.now) others.now) }
{
    match lits.split_first() {
        Some((first, rest)) => {
            if !may_be_among(bank, &heads_of_literal(bank, first), others) {
                return false;
            }
            may_send(bank, rest, others)
        }
        None => true,
    }
}
