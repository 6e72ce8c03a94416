//! Two positive literals that become one.

ghost use Rattle.std.specs.Prelude.{[], ◌∷◌, ◌++◌, ◌≡◌, ◌-◌, ◌<◌, length, slice_get, Some, IfOk, OnOk};
ghost use Rattle.leo_terms.specs.Contents.{tree_at};
ghost use Rattle.leo_clause.specs.Trees.{clause_at, literal_at};
ghost use Rattle.leo_clause.specs.Typed.{IsTypedIn};
ghost use Rattle.leo_para.specs.Spines.{heads_meet};
ghost use Rattle.leo_ext.specs.Listing.{Adds};
ghost use Rattle.leo_ext.specs.Members.{are_alike as are_alike_trees, factor_as_it_is, factor_at, factor_members, factor_turned, factor_with, may_be_one as may_be_one_trees};
ghost use Rattle.leo_ext.specs.Pairs.{AreTurned, IsLitOf, IsPairOf, are_alike_by, factored_lits};
ghost use Rattle.leo_ext.specs.Truths.{AreTruths};

use crate::heads::{head_of, meet};
use crate::literals::{placed, replaced};
use crate::members::{number_of, one_record, put_member, two_records};
use crate::truths::{Truths, is_formula};
use leo_clause::{Clause, Lit, Rule, StepRecord};
use leo_items::Items;
use leo_para::Due;
use leo_terms::{Bank, TermId};
use std::alloc::{AllocError, Global};

/// Two literals of a clause, of which the first comes first.
#[derive(Clone, Copy)]
pub(crate) struct Pair {
    pub first: usize,
    pub one: Lit,
    pub second: usize,
    pub other: Lit,
}

/// Whether the heads of two whole sides meet.
fn heads_do_meet(bank: &Bank, s: TermId, t: TermId) -> bool
    requires first { s < length bank.now.terms }
    requires second { t < length bank.now.terms }
    ensures { result ≡ heads_meet [] (tree_at bank.now s) (tree_at bank.now t) }
{
    let first = head_of(bank, s);
    let second = head_of(bank, t);
    meet(bank, true, &first, &second)
}

/// Whether two literals are alike, from what is known of each and of both.
fn alike(first: bool, second: bool, one_value: bool, one_type: bool) -> bool
    ensures { result ≡ are_alike_by first second one_value one_type }
{
    if first {
        second && one_value
    } else {
        !second && one_type
    }
}

/// Whether two literals are formula literals with one value, or equations of one type that are none.
fn are_alike(bank: &Bank, truths: &Truths, one: &Lit, other: &Lit) -> bool
    requires truths { AreTruths bank.now truths.now }
    requires one { IsLitOf bank.now one.now }
    requires other { IsLitOf bank.now other.now }
    ensures { result ≡ are_alike_trees (literal_at bank.now one.now) (literal_at bank.now other.now) }
{
    bank.is_sound();
    let first = is_formula(bank, truths, one);
    let second = is_formula(bank, truths, other);
    let one_value = one.right == other.right;
    let first_type = bank.type_of(one.left);
    let second_type = bank.type_of(other.left);
    let one_type = first_type == second_type;
    alike(first, second, one_value, one_type)
}

/// The clause without the second of two literals of one polarity, if it is the first.
fn factored(
    alloc: Global,
    clause: &Clause,
    at: usize,
    one: &Lit,
    other: &Lit,
) -> Result<Clause, AllocError>
    requires { at < length clause.now.lits }
    ensures vars { IfOk result (λ c. c.vars ≡ clause.now.vars) }
    ensures lits { IfOk result (λ c. c.lits ≡ factored_lits clause.now.lits at one.now other.now) }
{
    let vars = Items::from_slice(alloc, clause.vars.as_slice())?;
    let mut lits = replaced(alloc, clause.lits.as_slice(), at, &[])?;
    let first = Lit {
        pos: false,
        left: one.left,
        right: other.left,
    };
    let second = Lit {
        pos: false,
        left: one.right,
        right: other.right,
    };
    lits.append(Items::from_slice(alloc, &[first, second])?)?;
    Ok(Clause { vars, lits })
}

/// Whether two literals may become one.
fn may_be_one(bank: &Bank, truths: &Truths, pair: &Pair) -> bool
    requires truths { AreTruths bank.now truths.now }
    requires one { IsLitOf bank.now pair.now.one }
    requires other { IsLitOf bank.now pair.now.other }
    ensures { result ≡ may_be_one_trees pair.now.first (literal_at bank.now pair.now.one) pair.now.second (literal_at bank.now pair.now.other) }
{
    let in_order = pair.first < pair.second;
    let positive = pair.one.pos && pair.other.pos;
    let alike = are_alike(bank, truths, &pair.one, &pair.other);
    (in_order && positive) && alike
}

/// The numbers of the two literals that stand last.
fn put_factored(
    alloc: Global,
    records: Items<StepRecord>,
    count: usize,
    dues: &mut Vec<Due>,
) -> Result<(), AllocError>
    requires { 0 < count }
    ensures { OnOk result (dues.new.items ≡ dues.old.items ++ record { records = records; pairs = (count - 1) ∷ count ∷ [] } ∷ []) }
{
    let last = number_of(count)?;
    put_member(alloc, records, &[last - 1, last], dues)?;
    Ok(())
}

/// Appends the member of two literals as they are, if their heads meet.
fn put_as_it_is(
    alloc: Global,
    bank: &Bank,
    clause: &Clause,
    before: u64,
    pair: &Pair,
    dues: &mut Vec<Due>,
) -> Result<(), AllocError>
    requires clause { IsTypedIn bank.now clause.now }
    requires pair { IsPairOf clause.now pair.now }
    ensures adds { OnOk result (Adds bank.now bank.now dues.old.items dues.new.items (factor_as_it_is before (clause_at bank.now clause.now) pair.now.first (literal_at bank.now pair.now.one) pair.now.second (literal_at bank.now pair.now.other))) }
{
    bank.is_sound();
    if !heads_do_meet(bank, pair.one.left, pair.other.left) {
        return Ok(());
    }
    let first = number_of(pair.first)?;
    let second = number_of(pair.second)?;
    let conclusion = factored(alloc, clause, pair.second, &pair.one, &pair.other)?;
    let rule = Rule::Factor {
        parent: before,
        first,
        second,
    };
    let records = one_record(alloc, conclusion, rule)?;
    put_factored(alloc, records, clause.lits.len(), dues)?;
    Ok(())
}

/// The records that turn the second literal, and that make the two one then.
fn turned_records(
    alloc: Global,
    clause: &Clause,
    before: u64,
    pair: &Pair,
) -> Result<Items<StepRecord>, AllocError>
    requires { pair.now.second < length clause.now.lits }
    ensures { IfOk result (AreTurned clause.now before pair.now) }
{
    let other = Lit {
        pos: pair.other.pos,
        left: pair.other.right,
        right: pair.other.left,
    };
    let first = number_of(pair.first)?;
    let second = number_of(pair.second)?;
    let Some(parent) = before.checked_add(1) else {
        return Err(AllocError);
    };
    let middle = placed(alloc, clause, pair.second, &[], &[other])?;
    let conclusion = factored(alloc, &middle, pair.second, &pair.one, &other)?;
    let records = two_records(
        alloc,
        StepRecord {
            clause: middle,
            rule: Rule::Arrange { parent: before },
        },
        StepRecord {
            clause: conclusion,
            rule: Rule::Factor {
                parent,
                first,
                second,
            },
        },
    )?;
    Ok(records)
}

/// Appends the member of two literals, the second of which is turned, if it is no formula literal and their heads meet.
fn put_turned(
    alloc: Global,
    bank: &Bank,
    truths: &Truths,
    clause: &Clause,
    before: u64,
    pair: &Pair,
    dues: &mut Vec<Due>,
) -> Result<(), AllocError>
    requires truths { AreTruths bank.now truths.now }
    requires clause { IsTypedIn bank.now clause.now }
    requires pair { IsPairOf clause.now pair.now }
    ensures adds { OnOk result (Adds bank.now bank.now dues.old.items dues.new.items (factor_turned before (clause_at bank.now clause.now) pair.now.first (literal_at bank.now pair.now.one) pair.now.second (literal_at bank.now pair.now.other))) }
{
    bank.is_sound();
    if is_formula(bank, truths, &pair.other) {
        return Ok(());
    }
    if !heads_do_meet(bank, pair.one.left, pair.other.right) {
        return Ok(());
    }
    let records = turned_records(alloc, clause, before, pair)?;
    put_factored(alloc, records, clause.lits.len(), dues)?;
    Ok(())
}

/// Appends the members of two literals, if they may become one.
fn put_factor_with(
    alloc: Global,
    bank: &Bank,
    truths: &Truths,
    clause: &Clause,
    before: u64,
    pair: Pair,
    dues: &mut Vec<Due>,
) -> Result<(), AllocError>
    requires truths { AreTruths bank.now truths.now }
    requires clause { IsTypedIn bank.now clause.now }
    requires pair { IsPairOf clause.now pair }
    ensures adds { OnOk result (Adds bank.now bank.now dues.old.items dues.new.items (factor_with before (clause_at bank.now clause.now) pair.first (literal_at bank.now pair.one) pair.second (literal_at bank.now pair.other))) }
{
    bank.is_sound();
    if !may_be_one(bank, truths, &pair) {
        return Ok(());
    }
    put_as_it_is(alloc, bank, clause, before, &pair, dues)?;
    put_turned(alloc, bank, truths, clause, before, &pair, dues)?;
    Ok(())
}

/// Appends the members of a literal with those behind it.
fn put_factor_at(
    alloc: Global,
    bank: &Bank,
    truths: &Truths,
    clause: &Clause,
    before: u64,
    at: usize,
    lit: &Lit,
    dues: &mut Vec<Due>,
) -> Result<(), AllocError>
    requires truths { AreTruths bank.now truths.now }
    requires clause { IsTypedIn bank.now clause.now }
    requires lit { slice_get clause.now.lits at ≡ Some lit.now }
    ensures adds { OnOk result (Adds bank.now bank.now dues.old.items dues.new.items (factor_at before (clause_at bank.now clause.now) at (literal_at bank.now lit.now))) }
{
    bank.is_sound();
    let lits = clause.lits.as_slice();
    for second in 0..lits.len() {
        let pair = Pair {
            first: at,
            one: *lit,
            second,
            other: lits[second],
        };
        put_factor_with(alloc, bank, truths, clause, before, pair, dues)?;
    }
    Ok(())
}

/// Appends the members for each two literals of a clause that may become one. The clause stands in the line with the number
/// `before`.
pub fn put_factor(
    alloc: Global,
    bank: &Bank,
    truths: &Truths,
    clause: &Clause,
    before: u64,
    dues: &mut Vec<Due>,
) -> Result<(), AllocError>
    requires truths { AreTruths bank.now truths.now }
    requires clause { IsTypedIn bank.now clause.now }
    ensures adds { OnOk result (Adds bank.now bank.now dues.old.items dues.new.items (factor_members before (clause_at bank.now clause.now))) }
{
    bank.is_sound();
    let lits = clause.lits.as_slice();
    for at in 0..lits.len() {
        put_factor_at(alloc, bank, truths, clause, before, at, &lits[at], dues)?;
    }
    Ok(())
}
