//! Members by one or two steps.

ghost use Rattle.std.specs.Prelude.{◌≡◌, ◌∷◌, ◌++◌, [], length, IfOk, OnOk};

use leo_clause::{Clause, Rule, StepRecord};
use leo_items::Items;
use leo_para::Due;
use leo_terms::TyId;
use std::alloc::{AllocError, Global};

/// A number that fits into a record. Where it does not fit there is no memory for one more.
pub(crate) fn number_of(place: usize) -> Result<u32, AllocError>
    ensures { IfOk result (λ n. n ≡ place) }
{
    let Ok(number) = u32::try_from(place) else {
        return Err(AllocError);
    };
    Ok(number)
}

/// How many variables there are, which is the number of the next one.
pub(crate) fn next_variable(vars: &[TyId]) -> Result<u32, AllocError>
    ensures { IfOk result (λ n. n ≡ length vars.now) }
{
    let count = number_of(vars.len())?;
    Ok(count)
}

/// One record.
pub(crate) fn one_record(
    alloc: Global,
    clause: Clause,
    rule: Rule,
) -> Result<Items<StepRecord>, AllocError>
    ensures { IfOk result (λ rs. rs ≡ record { clause = clause; rule = rule } ∷ []) }
{
    let mut records = Items::new(alloc);
    records.push(StepRecord { clause, rule })?;
    Ok(records)
}

/// Two records.
pub(crate) fn two_records(
    alloc: Global,
    first: StepRecord,
    second: StepRecord,
) -> Result<Items<StepRecord>, AllocError>
    ensures { IfOk result (λ rs. rs ≡ first ∷ second ∷ []) }
{
    let mut records = Items::new(alloc);
    records.push(first)?;
    records.push(second)?;
    Ok(records)
}

/// Appends a member.
pub(crate) fn put_member(
    alloc: Global,
    records: Items<StepRecord>,
    pairs: &[u32],
    dues: &mut Vec<Due>,
) -> Result<(), AllocError>
    ensures { OnOk result (dues.new.items ≡ dues.old.items ++ record { records = records; pairs = pairs.now } ∷ []) }
{
    let pairs = Items::from_slice(alloc, pairs)?;
    dues.push(Due { records, pairs })?;
    Ok(())
}
