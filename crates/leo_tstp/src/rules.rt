//! Rules as they are written: their words, what they were applied to, and the parents of their lines.

ghost use Rattle.std.specs.Prelude.{◌≡◌, ◌++◌, ◌<◌, length, map, codes, decimal, OnOk};
ghost use Rattle.std.specs.List.{flat_map};
ghost use Rattle.leo_terms.specs.Contents.{AreTerms, tree_at};
ghost use Rattle.leo_kernel.specs.Records.{AreTermsOfRule};
ghost use Rattle.leo_kernel.specs.Steps.{rule_at};
ghost use Rattle.leo_tstp.specs.Namings.{words_in};
ghost use Rattle.leo_tstp.specs.Words.{joined};
ghost use Rattle.leo_tstp.specs.StepTexts as spec;

use crate::namer::Namer;
use crate::terms::write_term;
use crate::words::write_number;
use itoa::Buffer;
use leo_clause::{Half, LogicKind, Rule, Side};
use leo_terms::{Bank, TermId};
use std::alloc::AllocError;

fn rule_word(bank: &Bank, rule: &Rule) -> &'static [u8]
    ensures { result.now ≡ spec.rule_word (rule_at bank.now rule.now) }
{
    let _ = bank;
    match rule {
        Rule::Axiom { .. } => b"axiom",
        Rule::Convert { .. } => b"convert",
        Rule::Inst { .. } => b"inst",
        Rule::Para { .. } => b"para",
        Rule::Arrange { .. } => b"arrange",
        Rule::Drop { .. } => b"drop",
        Rule::Logic { .. } => b"logic",
        Rule::BoolExt { .. } => b"bool_ext",
        Rule::FuncExt { .. } => b"func_ext",
        Rule::Decompose { .. } => b"decompose",
        Rule::Refl => b"refl",
        Rule::Choice => b"choice",
        Rule::Factor { .. } => b"factor",
        Rule::Abbreviate { .. } => b"abbreviate",
    }
}

fn status_word(bank: &Bank, rule: &Rule) -> &'static [u8]
    ensures { result.now ≡ spec.status_word (rule_at bank.now rule.now) }
{
    let _ = bank;
    match rule {
        Rule::Abbreviate { .. } => b"esa",
        _ => b"thm",
    }
}

pub(crate) fn side_word(side: Side) -> &'static [u8]
    ensures { result.now ≡ spec.side_word side }
{
    match side {
        Side::Left => b"left",
        Side::Right => b"right",
    }
}

pub(crate) fn half_word(half: Half) -> &'static [u8]
    ensures { result.now ≡ spec.half_word half }
{
    match half {
        Half::One => b"1",
        Half::Two => b"2",
    }
}

pub(crate) fn kind_word(kind: LogicKind) -> &'static [u8]
    ensures { result.now ≡ spec.kind_word kind }
{
    match kind {
        LogicKind::Not => b"not",
        LogicKind::OrT => b"or_t",
        LogicKind::OrF1 => b"or_f1",
        LogicKind::OrF2 => b"or_f2",
        LogicKind::AndT1 => b"and_t1",
        LogicKind::AndT2 => b"and_t2",
        LogicKind::AndF => b"and_f",
        LogicKind::ImpT => b"imp_t",
        LogicKind::ImpF1 => b"imp_f1",
        LogicKind::ImpF2 => b"imp_f2",
        LogicKind::EqT => b"eq_t",
        LogicKind::EqF => b"eq_f",
        LogicKind::Flip => b"flip",
        LogicKind::AllT => b"all_t",
        LogicKind::SomeF => b"some_f",
        LogicKind::AllF => b"all_f",
        LogicKind::SomeT => b"some_t",
    }
}

#[tactic(auto, unfolding(crate::specs::StepTexts::one_number))]
fn write_one(number: u64, out: &mut Vec<u8>) -> Result<(), AllocError>
    ensures { OnOk result (out.new.items ≡ out.old.items ++ spec.one_number number) }
{
    out.push(b'(')?;
    write_number(number, out)?;
    out.push(b')')?;
    Ok(())
}

/// Appends a number, and something behind it.
#[tactic(auto, unfolding(crate::specs::StepTexts::number_and))]
fn write_and(number: u32, text: &[u8], out: &mut Vec<u8>) -> Result<(), AllocError>
    ensures { OnOk result (out.new.items ≡ out.old.items ++ spec.number_and number text.now) }
{
    out.push(b'(')?;
    write_number(number as u64, out)?;
    out.push(b',')?;
    out.extend_from_slice(text)?;
    out.push(b')')?;
    Ok(())
}

fn write_two(first: u32, second: u32, out: &mut Vec<u8>) -> Result<(), AllocError>
    ensures { OnOk result (out.new.items ≡ out.old.items ++ spec.number_and first (decimal second)) }
{
    let mut buffer = Buffer::new();
    write_and(first, buffer.format(second).as_bytes(), out)
}

/// Appends a literal's number and a side of it.
#[tactic(auto, unfolding(crate::specs::StepTexts::place_text))]
fn write_place(number: u32, side: Side, out: &mut Vec<u8>) -> Result<(), AllocError>
    ensures { OnOk result (out.new.items ≡ out.old.items ++ spec.place_text number side) }
{
    write_number(number as u64, out)?;
    out.push(b',')?;
    out.extend_from_slice(side_word(side))
}

fn write_further_number(number: u8, out: &mut Vec<u8>) -> Result<(), AllocError>
    ensures { OnOk result (out.new.items ≡ out.old.items ++ (codes "," ++ decimal number)) }
{
    out.push(b',')?;
    write_number(number as u64, out)
}

/// Appends numbers, each behind a comma.
fn write_further_numbers(numbers: &[u8], out: &mut Vec<u8>) -> Result<(), AllocError>
    ensures { OnOk result (out.new.items ≡ out.old.items ++ flat_map (λ n. codes "," ++ decimal n) numbers.now) }
{
    for number in numbers {
        write_further_number(*number, out)?;
    }
    Ok(())
}

/// Appends the numbers of a path.
fn write_path(path: &[u8], out: &mut Vec<u8>) -> Result<(), AllocError>
    ensures { OnOk result (out.new.items ≡ out.old.items ++ joined (codes ",") decimal path.now) }
{
    match path.split_first() {
        None => Ok(()),
        Some((first, others)) => {
            write_number(*first as u64, out)?;
            write_further_numbers(others, out)
        }
    }
}

/// Appends the side that is looked for, and the place where it is replaced.
#[tactic(auto, unfolding(crate::specs::StepTexts::places_text))]
fn write_places(
    lit: u32,
    side: Side,
    place: u32,
    place_side: Side,
    path: &[u8],
    out: &mut Vec<u8>,
) -> Result<(), AllocError>
    ensures { OnOk result (out.new.items ≡ out.old.items ++ spec.places_text lit side place place_side path.now) }
{
    out.push(b'(')?;
    write_place(lit, side, out)?;
    out.push(b',')?;
    write_place(place, place_side, out)?;
    out.extend_from_slice(b",[")?;
    write_path(path, out)?;
    out.extend_from_slice(b"])")
}

/// Appends a term that is put in.
#[tactic(auto, unfolding(crate::specs::StepTexts::put_text))]
fn write_put(bank: &Bank, namer: &Namer, term: TermId, out: &mut Vec<u8>) -> Result<(), AllocError>
    requires { term < length bank.now.terms }
    ensures { OnOk result (out.new.items ≡ out.old.items ++ spec.put_text (words_in bank.now namer.now) (tree_at bank.now term)) }
{
    out.extend_from_slice(b"$thf(")?;
    write_term(bank, namer, term, out)?;
    out.push(b')')?;
    Ok(())
}

fn write_further_put(
    bank: &Bank,
    namer: &Namer,
    term: TermId,
    out: &mut Vec<u8>,
) -> Result<(), AllocError>
    requires { term < length bank.now.terms }
    ensures { OnOk result (out.new.items ≡ out.old.items ++ (codes "," ++ spec.put_text (words_in bank.now namer.now) (tree_at bank.now term))) }
{
    out.push(b',')?;
    write_put(bank, namer, term, out)
}

/// Appends terms that are put in, each behind a comma.
fn write_further_puts(
    bank: &Bank,
    namer: &Namer,
    terms: &[TermId],
    out: &mut Vec<u8>,
) -> Result<(), AllocError>
    requires { AreTerms bank.now terms.now }
    ensures { OnOk result (out.new.items ≡ out.old.items ++ flat_map (λ t. codes "," ++ spec.put_text (words_in bank.now namer.now) t) (map (tree_at bank.now) terms.now)) }
{
    for term in terms {
        write_further_put(bank, namer, *term, out)?;
    }
    Ok(())
}

fn write_listed_puts(
    bank: &Bank,
    namer: &Namer,
    terms: &[TermId],
    out: &mut Vec<u8>,
) -> Result<(), AllocError>
    requires { AreTerms bank.now terms.now }
    ensures { OnOk result (out.new.items ≡ out.old.items ++ joined (codes ",") (spec.put_text (words_in bank.now namer.now)) (map (tree_at bank.now) terms.now)) }
{
    match terms.split_first() {
        None => Ok(()),
        Some((first, others)) => {
            write_put(bank, namer, *first, out)?;
            write_further_puts(bank, namer, others, out)
        }
    }
}

/// Appends the terms that are put in for variables.
#[tactic(auto, unfolding(crate::specs::StepTexts::puts_text))]
fn write_puts(
    bank: &Bank,
    namer: &Namer,
    terms: &[TermId],
    out: &mut Vec<u8>,
) -> Result<(), AllocError>
    requires { AreTerms bank.now terms.now }
    ensures { OnOk result (out.new.items ≡ out.old.items ++ spec.puts_text (words_in bank.now namer.now) (map (tree_at bank.now) terms.now)) }
{
    out.extend_from_slice(b"([")?;
    write_listed_puts(bank, namer, terms, out)?;
    out.extend_from_slice(b"])")
}

/// Appends what a rule was applied to.
fn write_evidence(
    bank: &Bank,
    namer: &Namer,
    rule: &Rule,
    out: &mut Vec<u8>,
) -> Result<(), AllocError>
    requires { AreTermsOfRule bank.now rule.now }
    ensures { OnOk result (out.new.items ≡ out.old.items ++ spec.evidence_text (words_in bank.now namer.now) (rule_at bank.now rule.now)) }
{
    match rule {
        Rule::Axiom { hyp } => write_one(*hyp, out),
        Rule::Inst { sigma, .. } => write_puts(bank, namer, sigma.as_slice(), out),
        Rule::Para {
            lit,
            side,
            place,
            place_side,
            path,
            ..
        } => write_places(*lit, *side, *place, *place_side, path.as_slice(), out),
        Rule::Drop { lit, .. } => write_one(*lit as u64, out),
        Rule::Logic { lit, kind, .. } => write_and(*lit, kind_word(*kind), out),
        Rule::BoolExt { lit, half, .. } => write_and(*lit, half_word(*half), out),
        Rule::FuncExt { lit, .. } => write_one(*lit as u64, out),
        Rule::Decompose { lit, .. } => write_one(*lit as u64, out),
        Rule::Factor { first, second, .. } => write_two(*first, *second, out),
        Rule::Convert { .. } => Ok(()),
        Rule::Arrange { .. } => Ok(()),
        Rule::Refl => Ok(()),
        Rule::Choice => Ok(()),
        Rule::Abbreviate { .. } => Ok(()),
    }
}

#[tactic(auto, unfolding(crate::specs::StepTexts::hypothesis_name))]
fn write_hypothesis_name(number: u64, out: &mut Vec<u8>) -> Result<(), AllocError>
    ensures { OnOk result (out.new.items ≡ out.old.items ++ spec.hypothesis_name number) }
{
    out.push(b'h')?;
    write_number(number, out)
}

#[tactic(auto, unfolding(crate::specs::StepTexts::line_name))]
fn write_line_name(number: u64, out: &mut Vec<u8>) -> Result<(), AllocError>
    ensures { OnOk result (out.new.items ≡ out.old.items ++ spec.line_name number) }
{
    out.push(b'l')?;
    write_number(number, out)
}

#[tactic(auto, unfolding(crate::specs::StepTexts::two_lines))]
fn write_line_names(first: u64, second: u64, out: &mut Vec<u8>) -> Result<(), AllocError>
    ensures { OnOk result (out.new.items ≡ out.old.items ++ spec.two_lines first second) }
{
    write_line_name(first, out)?;
    out.push(b',')?;
    write_line_name(second, out)
}

/// Appends the name of a line, and that of the line of an abbreviation where one is used.
fn write_line_and(number: u64, abbr: Option<u64>, out: &mut Vec<u8>) -> Result<(), AllocError>
    ensures { OnOk result (out.new.items ≡ out.old.items ++ spec.line_and number abbr) }
{
    match abbr {
        None => write_line_name(number, out),
        Some(line) => write_line_names(number, line, out),
    }
}

/// Appends the names of what a line was made from.
fn write_parents(bank: &Bank, rule: &Rule, out: &mut Vec<u8>) -> Result<(), AllocError>
    ensures { OnOk result (out.new.items ≡ out.old.items ++ spec.parents_text (rule_at bank.now rule.now)) }
{
    let _ = bank;
    match rule {
        Rule::Axiom { hyp } => write_hypothesis_name(*hyp, out),
        Rule::Convert { parent } => write_line_name(*parent, out),
        Rule::Inst { parent, .. } => write_line_name(*parent, out),
        Rule::Para { from, target, .. } => write_line_names(*from, *target, out),
        Rule::Arrange { parent } => write_line_name(*parent, out),
        Rule::Drop { parent, .. } => write_line_name(*parent, out),
        Rule::Logic { parent, abbr, .. } => write_line_and(*parent, *abbr, out),
        Rule::BoolExt { parent, .. } => write_line_name(*parent, out),
        Rule::FuncExt { parent, abbr, .. } => write_line_and(*parent, *abbr, out),
        Rule::Decompose { parent, .. } => write_line_name(*parent, out),
        Rule::Factor { parent, .. } => write_line_name(*parent, out),
        Rule::Refl => Ok(()),
        Rule::Choice => Ok(()),
        Rule::Abbreviate { .. } => Ok(()),
    }
}

/// Appends the rule of a line with its status and what it was applied to.
#[tactic(auto, unfolding(crate::specs::StepTexts::applied_rule))]
fn write_applied(
    bank: &Bank,
    namer: &Namer,
    rule: &Rule,
    out: &mut Vec<u8>,
) -> Result<(), AllocError>
    requires { AreTermsOfRule bank.now rule.now }
    ensures { OnOk result (out.new.items ≡ out.old.items ++ spec.applied_rule (words_in bank.now namer.now) (rule_at bank.now rule.now)) }
{
    out.extend_from_slice(rule_word(bank, rule))?;
    out.extend_from_slice(b",[status(")?;
    out.extend_from_slice(status_word(bank, rule))?;
    out.extend_from_slice(b"),ev")?;
    write_evidence(bank, namer, rule, out)
}

/// Appends where a line comes from, to its end.
#[tactic(auto, unfolding(crate::specs::StepTexts::inference_text))]
pub(crate) fn write_inference(
    bank: &Bank,
    namer: &Namer,
    rule: &Rule,
    out: &mut Vec<u8>,
) -> Result<(), AllocError>
    requires { AreTermsOfRule bank.now rule.now }
    ensures { OnOk result (out.new.items ≡ out.old.items ++ spec.inference_text (words_in bank.now namer.now) (rule_at bank.now rule.now)) }
{
    out.extend_from_slice(b",inference(")?;
    write_applied(bank, namer, rule, out)?;
    out.extend_from_slice(b"],[")?;
    write_parents(bank, rule, out)?;
    out.extend_from_slice(b"])).\n")
}
