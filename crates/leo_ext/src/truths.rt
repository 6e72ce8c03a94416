//! T and F as terms of a bank.

ghost use Rattle.std.specs.Prelude.{◌≡◌, ◌<◌, length, IfOk};
ghost use Rattle.leo_terms.specs.Contents.{Extends};
ghost use Rattle.leo_clause.specs.Trees.{literal_at};
ghost use Rattle.leo_para.specs.Members.{is_formula as is_formula_tree};
ghost use Rattle.leo_ext.specs.Truths.{AreTruths, valued_lit};

use leo_clause::Lit;
use leo_terms::{Bank, Op, TermId};
use std::alloc::AllocError;

/// The terms T and F.
#[derive(Clone, Copy)]
pub struct Truths {
    pub yes: TermId,
    pub no: TermId,
}

/// T and F, made in the bank.
pub fn make_truths(bank: &mut Bank) -> Result<Truths, AllocError>
    ensures truths { IfOk result (AreTruths bank.new) }
    ensures grows { Extends bank.old bank.new }
{
    bank.is_sound();
    let yes = bank.make_logic(Op::True, &[])?;
    let no = bank.make_logic(Op::False, &[])?;
    Ok(Truths { yes, no })
}

impl Truths {
    /// `A = v`.
    pub(crate) fn valued(&self, a: TermId, v: bool) -> Lit
        ensures { result ≡ valued_lit self.now a v }
    {
        let right = if v { self.yes } else { self.no };
        Lit {
            pos: true,
            left: a,
            right,
        }
    }
}

/// Whether a literal says that a formula is true, or false.
pub(crate) fn is_formula(bank: &Bank, truths: &Truths, lit: &Lit) -> bool
    requires truths { AreTruths bank.now truths.now }
    requires right { lit.now.right < length bank.now.terms }
    ensures { result ≡ is_formula_tree (literal_at bank.now lit.now) }
{
    bank.is_sound();
    if lit.right == truths.yes {
        return true;
    }
    lit.right == truths.no
}
