//! Hypotheses as they are written, of which only those stand in a text that its lines take.

ghost use Rattle.std.specs.Prelude.{ℕ, ◌≡◌, ◌++◌, ◌<◌, ◌||◌, length, map, nat_eq, OnOk, IfOk, if◌then◌else◌, []};
ghost use Rattle.indexmap.specs.IndexSet.{contains};
ghost use Rattle.leo_kernel.specs.Steps.{line_at, rule_at};
ghost use Rattle.leo_problem.specs.Loading.{AreClosedFormulas};
ghost use Rattle.leo_tstp.specs.Namings.{words_in};
ghost use Rattle.leo_tstp.specs.Derivations as spec;
ghost use Rattle.leo_tstp.specs.Derivations.{given_at, is_used, takes};

use crate::namer::Namer;
use crate::terms::write_term;
use crate::words::{write_file, write_name, write_number};
use indexmap::IndexSet;
use leo_clause::{Rule, StepRecord};
use leo_problem::{Hyp, Role};
use leo_terms::Bank;
use std::alloc::{AllocError, Global};

/// Appends where a hypothesis comes from: the file, and the name of its statement there.
#[tactic(auto, unfolding(crate::specs::Derivations::source_text))]
fn write_source(
    alloc: Global,
    file: &[u8],
    name: &[u8],
    out: &mut Vec<u8>,
) -> Result<(), AllocError>
    ensures { OnOk result (out.new.items ≡ out.old.items ++ spec.source_text file.now name.now) }
{
    out.extend_from_slice(b"file(")?;
    write_file(alloc, file, out)?;
    out.push(b',')?;
    write_name(name, out)?;
    out.push(b')')?;
    Ok(())
}

/// Appends a hypothesis's number and role.
#[tactic(auto, unfolding(crate::specs::Derivations::given_head))]
fn write_head(number: usize, role: &[u8], out: &mut Vec<u8>) -> Result<(), AllocError>
    ensures { OnOk result (out.new.items ≡ out.old.items ++ spec.given_head number role.now) }
{
    out.extend_from_slice(b"thf(h")?;
    write_number(number as u64, out)?;
    out.push(b',')?;
    out.extend_from_slice(role)?;
    out.push(b',')?;
    Ok(())
}

/// Appends the hypothesis of that number, which stands in its file.
#[tactic(auto, unfolding(crate::specs::Derivations::assumption_text))]
fn write_assumption(
    alloc: Global,
    bank: &Bank,
    namer: &Namer,
    number: usize,
    hyp: &Hyp,
    out: &mut Vec<u8>,
) -> Result<(), AllocError>
    requires { hyp.now.term < length bank.now.terms }
    ensures { OnOk result (out.new.items ≡ out.old.items ++ spec.assumption_text (words_in bank.now namer.now) number (given_at bank.now hyp.now)) }
{
    write_head(number, hyp.role.word(), out)?;
    write_term(bank, namer, hyp.term, out)?;
    out.push(b',')?;
    write_source(alloc, hyp.file.as_slice(), hyp.name.as_slice(), out)?;
    out.extend_from_slice(b").\n")
}

/// Appends where the negated conjecture comes from.
#[tactic(auto, unfolding(crate::specs::Derivations::negated_source))]
fn write_negated_source(
    alloc: Global,
    file: &[u8],
    name: &[u8],
    out: &mut Vec<u8>,
) -> Result<(), AllocError>
    ensures { OnOk result (out.new.items ≡ out.old.items ++ spec.negated_source file.now name.now) }
{
    out.extend_from_slice(b",inference(negate,[status(cth)],[")?;
    write_source(alloc, file, name, out)?;
    out.extend_from_slice(b"])).\n")?;
    Ok(())
}

/// Appends the hypothesis of that number, the negated conjecture.
#[tactic(auto, unfolding(crate::specs::Derivations::negation_text))]
fn write_negation(
    alloc: Global,
    bank: &Bank,
    namer: &Namer,
    number: usize,
    hyp: &Hyp,
    out: &mut Vec<u8>,
) -> Result<(), AllocError>
    requires { hyp.now.term < length bank.now.terms }
    ensures { OnOk result (out.new.items ≡ out.old.items ++ spec.negation_text (words_in bank.now namer.now) number (given_at bank.now hyp.now)) }
{
    write_head(number, b"negated_conjecture", out)?;
    write_term(bank, namer, hyp.term, out)?;
    write_negated_source(alloc, hyp.file.as_slice(), hyp.name.as_slice(), out)
}

/// Appends the hypothesis of that number.
pub(crate) fn write_hypothesis(
    alloc: Global,
    bank: &Bank,
    namer: &Namer,
    number: usize,
    hyp: &Hyp,
    out: &mut Vec<u8>,
) -> Result<(), AllocError>
    requires { hyp.now.term < length bank.now.terms }
    ensures { OnOk result (out.new.items ≡ out.old.items ++ spec.hypothesis_text (words_in bank.now namer.now) number (given_at bank.now hyp.now)) }
{
    match hyp.role {
        Role::Conjecture => write_negation(alloc, bank, namer, number, hyp, out),
        _ => write_assumption(alloc, bank, namer, number, hyp, out),
    }
}

/// Notes the hypothesis that a rule takes.
fn note(bank: &Bank, rule: &Rule, used: &mut IndexSet<u64>) -> Result<(), AllocError>
    ensures { OnOk result ((n : ℕ) → contains nat_eq used.new n ≡ takes n (rule_at bank.now rule.now) || contains nat_eq used.old n) }
{
    let _ = bank;
    if let Rule::Axiom { hyp } = rule {
        used.insert(*hyp)?;
    }
    Ok(())
}

/// The hypotheses that lines take.
fn used_in(alloc: Global, bank: &Bank, lines: &[StepRecord]) -> Result<IndexSet<u64>, AllocError>
    ensures { IfOk result (λ used. (n : ℕ) → contains nat_eq used n ≡ is_used (map (line_at bank.now) lines.now) n) }
{
    let mut used = IndexSet::new(alloc);
    for line in lines {
        note(bank, &line.rule, &mut used)?;
    }
    Ok(used)
}

/// Appends a hypothesis if it is used.
fn write_if_used(
    alloc: Global,
    bank: &Bank,
    namer: &Namer,
    used: &IndexSet<u64>,
    number: usize,
    hyp: &Hyp,
    out: &mut Vec<u8>,
) -> Result<(), AllocError>
    requires { hyp.now.term < length bank.now.terms }
    ensures { OnOk result (out.new.items ≡ out.old.items ++ (if contains nat_eq used.now number then spec.hypothesis_text (words_in bank.now namer.now) number (given_at bank.now hyp.now) else [])) }
{
    if used.contains(&(number as u64)) {
        write_hypothesis(alloc, bank, namer, number, hyp, out)
    } else {
        Ok(())
    }
}

/// Appends the hypotheses that lines take.
pub(crate) fn write_hypotheses(
    alloc: Global,
    bank: &Bank,
    namer: &Namer,
    hyps: &[Hyp],
    lines: &[StepRecord],
    out: &mut Vec<u8>,
) -> Result<(), AllocError>
    requires { AreClosedFormulas bank.now hyps.now }
    ensures { OnOk result (out.new.items ≡ out.old.items ++ spec.hypotheses_text (words_in bank.now namer.now) (map (line_at bank.now) lines.now) 0 (map (given_at bank.now) hyps.now)) }
{
    let used = used_in(alloc, bank, lines)?;
    for number in 0..hyps.len() {
        write_if_used(alloc, bank, namer, &used, number, &hyps[number], out)?;
    }
    Ok(())
}
