//! Literals whose variables are moved behind those of another clause.

ghost use Rattle.std.specs.Prelude.{◌≡◌, ◌<◌, length, map, IfOk};
ghost use Rattle.leo_terms.specs.Contents.{AreTerms, Extends, tree_at, type_at};
ghost use Rattle.leo_terms.specs.Tree.{IsGiven};
ghost use Rattle.leo_clause.specs.Trees.{literal_at};
ghost use Rattle.leo_clause.specs.Typed.{AreLiteralsOf, AreTypesOf};
ghost use Rattle.leo_clause.specs.Renaming.{AreGiven, AreRenamed, substituted_literal};
ghost use Rattle.leo_kernel.specs.Leaves.{AreDeclared};
ghost use Rattle.leo_kernel.specs.Moved.{variables_from};
ghost use Rattle.leo_kernel.specs.Places.{shifted_literal};

use leo_clause::Lit;
use leo_items::Items;
use leo_terms::{Bank, TermId, TyId};
use std::alloc::{AllocError, Global};

/// A variable of each of these types, numbered from `first` on. Where the numbers do not fit there is no memory for them.
fn moved_variables(
    alloc: Global,
    bank: &mut Bank,
    first: u32,
    types: &[TyId],
) -> Result<Vec<TermId>, AllocError>
    requires { AreTypesOf bank.old types.now }
    ensures variables { IfOk result (λ ts. map (tree_at bank.new) ts.items ≡ variables_from first (map (type_at bank.old) types.now)) }
    ensures terms { IfOk result (λ ts. AreTerms bank.new ts.items) }
    ensures grows { Extends bank.old bank.new }
{
    bank.is_sound();
    let mut variables = Vec::new(alloc);
    let mut number = u64::from(first);
    for ty in types {
        let Ok(fitting) = u32::try_from(number) else {
            return Err(AllocError);
        };
        let variable = bank.make_var(fitting, *ty)?;
        variables.push(variable)?;
        number += 1;
    }
    Ok(variables)
}

/// A literal with terms put in for its variables.
fn moved_lit(bank: &mut Bank, lit: Lit, sigma: &[TermId]) -> Result<Lit, AllocError>
    requires left { lit.left < length bank.old.terms }
    requires right { lit.right < length bank.old.terms }
    requires terms { AreTerms bank.old sigma.now }
    requires left_given { IsGiven (map (tree_at bank.old) sigma.now) (tree_at bank.old lit.left) }
    requires right_given { IsGiven (map (tree_at bank.old) sigma.now) (tree_at bank.old lit.right) }
    ensures value { IfOk result (λ l. literal_at bank.new l ≡ substituted_literal (map (tree_at bank.old) sigma.now) (literal_at bank.old lit)) }
    ensures left_within { IfOk result (λ l. l.left < length bank.new.terms) }
    ensures right_within { IfOk result (λ l. l.right < length bank.new.terms) }
    ensures grows { Extends bank.old bank.new }
{
    let left = bank.subst(lit.left, sigma)?;
    let right = bank.subst(lit.right, sigma)?;
    Ok(Lit {
        pos: lit.pos,
        left,
        right,
    })
}

/// Literals with terms put in for their variables.
fn with_terms(
    alloc: Global,
    bank: &mut Bank,
    lits: &[Lit],
    sigma: &[TermId],
) -> Result<Items<Lit>, AllocError>
    requires literals { AreLiteralsOf bank.old lits.now }
    requires terms { AreTerms bank.old sigma.now }
    requires given { AreGiven (map (tree_at bank.old) sigma.now) (map (literal_at bank.old) lits.now) }
    ensures renamed { IfOk result (λ ls. AreRenamed bank.old bank.new sigma.now lits.now ls (length lits.now)) }
    ensures grows { Extends bank.old bank.new }
{
    bank.is_sound();
    let mut renamed = Items::new(alloc);
    for lit in lits {
        let lit = moved_lit(bank, *lit, sigma)?;
        renamed.push(lit)?;
    }
    Ok(renamed)
}

/// The literals of a clause with `first` added to the numbers of its variables.
pub(crate) fn moved_lits(
    alloc: Global,
    bank: &mut Bank,
    first: u32,
    types: &[TyId],
    lits: &[Lit],
) -> Result<Items<Lit>, AllocError>
    requires types { AreTypesOf bank.old types.now }
    requires literals { AreLiteralsOf bank.old lits.now }
    requires declared { AreDeclared (map (type_at bank.old) types.now) (map (literal_at bank.old) lits.now) }
    ensures value { IfOk result (λ ls. map (literal_at bank.new) ls ≡ map (shifted_literal first) (map (literal_at bank.old) lits.now)) }
    ensures literals_of { IfOk result (AreLiteralsOf bank.new) }
    ensures grows { Extends bank.old bank.new }
{
    let sigma = moved_variables(alloc, bank, first, types)?;
    let moved = with_terms(alloc, bank, lits, &sigma)?;
    Ok(moved)
}
