//! T and F as terms of a bank.

ghost use Rattle.std.specs.Prelude.{◌≡◌, ◌<◌, length, IfOk};
ghost use Rattle.leo_terms.specs.Contents.{Extends, tree_at};
ghost use Rattle.leo_clause.specs.Trees.{literal_at};
ghost use Rattle.leo_kernel.specs.Shapes.{truth_tree, valued as valued_tree};

use leo_clause::Lit;
use leo_terms::{Bank, Op, TermId};
use std::alloc::AllocError;

/// The terms T and F.
#[derive(Clone, Copy)]
pub(crate) struct Truths {
    pub yes: TermId,
    pub no: TermId,
}

ghost use Rattle.leo_kernel.specs.Truths.{AreTruths};

/// T and F, made in the bank.
pub(crate) fn make_truths(bank: &mut Bank) -> Result<Truths, AllocError>
    ensures truths { IfOk result (AreTruths bank.new) }
    ensures grows { Extends bank.old bank.new }
{
    bank.is_sound();
    let yes = bank.make_logic(Op::True, &[])?;
    let no = bank.make_logic(Op::False, &[])?;
    Ok(Truths { yes, no })
}

/// T or F.
pub(crate) fn truth_of(bank: &Bank, truths: &Truths, value: bool) -> TermId
    requires { AreTruths bank.now truths.now }
    ensures within { result < length bank.now.terms }
    ensures reads { tree_at bank.now result ≡ truth_tree value }
{
    let _ = bank;
    if value { truths.yes } else { truths.no }
}

/// `A = T` or `A = F`.
pub(crate) fn valued(bank: &Bank, truths: &Truths, a: TermId, value: bool) -> Lit
    requires truths { AreTruths bank.now truths.now }
    requires within { a < length bank.now.terms }
    ensures reads { literal_at bank.now result ≡ valued_tree (tree_at bank.now a) value }
    ensures left { result.left < length bank.now.terms }
    ensures right { result.right < length bank.now.terms }
{
    Lit {
        pos: true,
        left: a,
        right: truth_of(bank, truths, value),
    }
}
