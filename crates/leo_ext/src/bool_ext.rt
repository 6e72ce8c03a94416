//! Equations of truth values, and their negations, as their two cases.

ghost use Rattle.std.specs.Prelude.{[], ◌∷◌, ◌≡◌, ◌<◌, ◌&&◌, not, length, slice_get, Some, IfOk, OnOk};
ghost use Rattle.leo_q0.specs.Terms.{same_type};
ghost use Rattle.leo_terms.specs.Contents.{tree_at};
ghost use Rattle.leo_terms.specs.Tree.{truth_type};
ghost use Rattle.leo_clause.specs.Trees.{clause_at, literal_at};
ghost use Rattle.leo_clause.specs.Typed.{IsTypedIn};
ghost use Rattle.leo_kernel.specs.Conclusions.{bool_case};
ghost use Rattle.leo_kernel.specs.Shapes.{literal_type};
ghost use Rattle.leo_clausify.specs.Literals.{AreLiterals};
ghost use Rattle.leo_para.specs.Members.{is_formula as is_formula_tree};
ghost use Rattle.leo_ext.specs.Cases.{first_value as first_value_of, second_value as second_value_of};
ghost use Rattle.leo_ext.specs.Listing.{Adds};
ghost use Rattle.leo_ext.specs.Members.{alone, bool_ext_at, bool_ext_line, bool_ext_members};
ghost use Rattle.leo_ext.specs.Truths.{AreTruths};

use crate::literals::placed;
use crate::members::{number_of, one_record, put_member};
use crate::truths::{Truths, is_formula};
use leo_clause::{Clause, Half, Lit, Rule};
use leo_items::Items;
use leo_para::Due;
use leo_terms::{Bank, TyId};
use std::alloc::{AllocError, Global};

/// The value of the left side in one of the two cases of a literal.
fn first_value(half: Half, positive: bool) -> bool
    ensures { result ≡ first_value_of half positive }
{
    match half {
        Half::One => !positive,
        Half::Two => positive,
    }
}

/// The value of the right side.
fn second_value(half: Half) -> bool
    ensures { result ≡ second_value_of half }
{
    match half {
        Half::One => true,
        Half::Two => false,
    }
}

/// One of the two cases of a literal.
fn case(
    alloc: Global,
    bank: &Bank,
    truths: &Truths,
    lit: &Lit,
    half: Half,
) -> Result<Items<Lit>, AllocError>
    requires truths { AreTruths bank.now truths.now }
    requires left { lit.now.left < length bank.now.terms }
    requires right { lit.now.right < length bank.now.terms }
    ensures made { IfOk result (λ ls. AreLiterals bank.now ls (bool_case half lit.now.pos (tree_at bank.now lit.now.left) (tree_at bank.now lit.now.right))) }
{
    bank.is_sound();
    let value = first_value(half, lit.pos);
    let other = second_value(half);
    let first = truths.valued(lit.left, value);
    let second = truths.valued(lit.right, other);
    let lits = Items::from_slice(alloc, &[first, second])?;
    Ok(lits)
}

/// Appends the member by one of the two cases of a literal.
fn put_case(
    alloc: Global,
    bank: &Bank,
    truths: &Truths,
    clause: &Clause,
    before: u64,
    at: usize,
    lit: &Lit,
    half: Half,
    dues: &mut Vec<Due>,
) -> Result<(), AllocError>
    requires truths { AreTruths bank.now truths.now }
    requires clause { IsTypedIn bank.now clause.now }
    requires lit { slice_get clause.now.lits at ≡ Some lit.now }
    ensures adds { OnOk result (Adds bank.now bank.now dues.old.items dues.new.items (alone (bool_ext_line before (clause_at bank.now clause.now) at (literal_at bank.now lit.now) half) ∷ [])) }
{
    bank.is_sound();
    let number = number_of(at)?;
    let new = case(alloc, bank, truths, lit, half)?;
    let conclusion = placed(alloc, clause, at, &[], new.as_slice())?;
    let rule = Rule::BoolExt {
        parent: before,
        lit: number,
        half,
    };
    let records = one_record(alloc, conclusion, rule)?;
    put_member(alloc, records, &[], dues)?;
    Ok(())
}

/// Whether the first holds, and the second does not.
fn without(first: bool, second: bool) -> bool
    ensures { result ≡ (first && not second) }
{
    first && !second
}

/// Whether the sides of a literal are truth values, and it is no formula literal.
fn is_equation_of_truths(bank: &Bank, truths: &Truths, lit: &Lit) -> bool
    requires truths { AreTruths bank.now truths.now }
    requires left { lit.now.left < length bank.now.terms }
    requires right { lit.now.right < length bank.now.terms }
    ensures { result ≡ (same_type (literal_type (literal_at bank.now lit.now)) truth_type && not (is_formula_tree (literal_at bank.now lit.now))) }
{
    bank.is_sound();
    let ty = bank.type_of(lit.left);
    let truth = TyId::truth();
    let of_truths = ty == truth;
    let formula = is_formula(bank, truths, lit);
    without(of_truths, formula)
}

/// Appends the two members of a literal, if its sides are truth values and it is no formula literal.
fn put_bool_ext_at(
    alloc: Global,
    bank: &Bank,
    truths: &Truths,
    clause: &Clause,
    before: u64,
    at: usize,
    lit: Lit,
    dues: &mut Vec<Due>,
) -> Result<(), AllocError>
    requires truths { AreTruths bank.now truths.now }
    requires clause { IsTypedIn bank.now clause.now }
    requires lit { slice_get clause.now.lits at ≡ Some lit }
    ensures adds { OnOk result (Adds bank.now bank.now dues.old.items dues.new.items (bool_ext_at before (clause_at bank.now clause.now) at (literal_at bank.now lit))) }
{
    bank.is_sound();
    if !is_equation_of_truths(bank, truths, &lit) {
        return Ok(());
    }
    put_case(
        alloc,
        bank,
        truths,
        clause,
        before,
        at,
        &lit,
        Half::One,
        dues,
    )?;
    put_case(
        alloc,
        bank,
        truths,
        clause,
        before,
        at,
        &lit,
        Half::Two,
        dues,
    )?;
    Ok(())
}

/// Appends two members for each literal of a clause whose sides are truth values and that is no formula literal. The
/// clause stands in the line with the number `before`.
pub fn put_bool_ext(
    alloc: Global,
    bank: &Bank,
    truths: &Truths,
    clause: &Clause,
    before: u64,
    dues: &mut Vec<Due>,
) -> Result<(), AllocError>
    requires truths { AreTruths bank.now truths.now }
    requires clause { IsTypedIn bank.now clause.now }
    ensures adds { OnOk result (Adds bank.now bank.now dues.old.items dues.new.items (bool_ext_members before (clause_at bank.now clause.now))) }
{
    bank.is_sound();
    let lits = clause.lits.as_slice();
    for at in 0..lits.len() {
        put_bool_ext_at(alloc, bank, truths, clause, before, at, lits[at], dues)?;
    }
    Ok(())
}
