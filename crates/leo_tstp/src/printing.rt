//! Derivations as they are written.

ghost use Rattle.std.specs.Prelude.{◌≡◌, ◌++◌, ◌<◌, length, map, OnErr, OnOk, IfOk, IfSome};
ghost use Rattle.leo_terms.specs.Contents.{symbol_type, type_at};
ghost use Rattle.leo_clause.specs.Typed.{IsClauseOf};
ghost use Rattle.leo_kernel.specs.Records.{AreStepsOf, IsStepOf};
ghost use Rattle.leo_kernel.specs.Steps.{line_at, rule_at};
ghost use Rattle.leo_problem.specs.Loading.{IsProblem};
ghost use Rattle.leo_tstp.specs.Derivations.{lines_text, printed};
ghost use Rattle.leo_tstp.specs.Namings.{symbol_in, words_in};
ghost use Rattle.leo_tstp.specs.Records.{AreSymbolsOf, IsSymbolOfRule};
ghost use Rattle.leo_tstp.specs.StepTexts as spec;

use crate::clauses::write_clause;
use crate::hypotheses::write_hypotheses;
use crate::namer::Namer;
use crate::rules::write_inference;
use crate::terms::write_type;
use crate::words::write_number;
use leo_clause::{Clause, Rule, StepRecord};
use leo_problem::Problem;
use leo_terms::{Bank, SymId, TyId, View};
use std::alloc::{AllocError, Global};

/// The type of a symbol, if the clause begins with it.
fn type_in_clause(bank: &Bank, clause: &Clause, symbol: SymId) -> Option<TyId>
    requires { IsClauseOf bank.now clause.now }
    ensures type_is { IfSome result (λ ty. ty ≡ symbol_type bank.now symbol) }
    ensures within { IfSome result (λ ty. ty < length bank.now.types) }
{
    let first = clause.lits.as_slice().first()?;
    match bank.view(first.left) {
        View::Sym(s) => {
            if s == symbol {
                Some(bank.type_of(first.left))
            } else {
                None
            }
        }
        _ => None,
    }
}

/// The type of a symbol. A bank tells the types of terms: where the clause does not begin with the symbol, a term is
/// made of it in a copy of the bank.
fn type_of_symbol(
    alloc: Global,
    bank: &Bank,
    clause: &Clause,
    symbol: SymId,
) -> Result<TyId, AllocError>
    requires clause { IsClauseOf bank.now clause.now }
    requires symbol { symbol < length bank.now.symbols }
    ensures type_is { IfOk result (λ ty. ty ≡ symbol_type bank.now symbol) }
    ensures within { IfOk result (λ ty. ty < length bank.now.types) }
{
    if let Some(ty) = type_in_clause(bank, clause, symbol) {
        return Ok(ty);
    }
    let mut copy = bank.copy(alloc)?;
    let term = copy.make_sym(symbol)?;
    Ok(copy.type_of(term))
}

/// Appends the type statement of a symbol, to its type.
#[tactic(auto, unfolding(crate::specs::StepTexts::typing_head))]
fn write_typing_head(namer: &Namer, symbol: SymId, out: &mut Vec<u8>) -> Result<(), AllocError>
    ensures { OnOk result (out.new.items ≡ out.old.items ++ spec.typing_head (symbol_in namer.now symbol)) }
{
    out.extend_from_slice(b"thf(")?;
    namer.write_symbol(symbol, out)?;
    out.extend_from_slice(b"_type,type,")?;
    namer.write_symbol(symbol, out)?;
    out.extend_from_slice(b": ")
}

/// Appends the type statement of a symbol of that type.
#[tactic(auto, unfolding(crate::specs::StepTexts::typing_as))]
fn write_typing(
    bank: &Bank,
    namer: &Namer,
    symbol: SymId,
    ty: TyId,
    out: &mut Vec<u8>,
) -> Result<(), AllocError>
    requires { ty < length bank.now.types }
    ensures { OnOk result (out.new.items ≡ out.old.items ++ spec.typing_as (words_in bank.now namer.now) symbol (type_at bank.now ty)) }
{
    write_typing_head(namer, symbol, out)?;
    write_type(bank, namer, ty, out)?;
    out.extend_from_slice(b").\n")
}

/// Appends what stands before a line: the type statement of the symbol that it introduces.
fn write_before(
    alloc: Global,
    bank: &Bank,
    namer: &Namer,
    line: &StepRecord,
    out: &mut Vec<u8>,
) -> Result<(), AllocError>
    requires line { IsStepOf bank.now line.now }
    requires symbol { IsSymbolOfRule bank.now line.now.rule }
    ensures { OnOk result (out.new.items ≡ out.old.items ++ spec.before_line (words_in bank.now namer.now) (rule_at bank.now line.now.rule)) }
{
    match &line.rule {
        Rule::Abbreviate { symbol } => {
            let ty = type_of_symbol(alloc, bank, &line.clause, *symbol)?;
            write_typing(bank, namer, *symbol, ty, out)
        }
        _ => Ok(()),
    }
}

/// Appends a line.
#[tactic(auto, unfolding(crate::specs::StepTexts::step_text))]
fn write_step(
    bank: &Bank,
    namer: &Namer,
    number: usize,
    line: &StepRecord,
    out: &mut Vec<u8>,
) -> Result<(), AllocError>
    requires { IsStepOf bank.now line.now }
    ensures { OnOk result (out.new.items ≡ out.old.items ++ spec.step_text (words_in bank.now namer.now) number (line_at bank.now line.now)) }
{
    out.extend_from_slice(b"thf(l")?;
    write_number(number as u64, out)?;
    out.extend_from_slice(b",plain,")?;
    write_clause(bank, namer, &line.clause, out)?;
    write_inference(bank, namer, &line.rule, out)
}

/// Appends a line, with the type statement of its symbol before it.
fn write_line(
    alloc: Global,
    bank: &Bank,
    namer: &Namer,
    number: usize,
    line: &StepRecord,
    out: &mut Vec<u8>,
) -> Result<(), AllocError>
    requires line { IsStepOf bank.now line.now }
    requires symbol { IsSymbolOfRule bank.now line.now.rule }
    ensures { OnOk result (out.new.items ≡ out.old.items ++ spec.line_text (words_in bank.now namer.now) number (line_at bank.now line.now)) }
{
    write_before(alloc, bank, namer, line, out)?;
    write_step(bank, namer, number, line, out)
}

/// Appends lines.
fn write_lines(
    alloc: Global,
    bank: &Bank,
    namer: &mut Namer,
    lines: &[StepRecord],
    out: &mut Vec<u8>,
) -> Result<(), AllocError>
    requires lines { AreStepsOf bank.now lines.now }
    requires symbols { AreSymbolsOf bank.now lines.now }
    ensures { OnOk result (out.new.items ≡ out.old.items ++ lines_text (words_in bank.now namer.old) 0 (map (line_at bank.now) lines.now)) }
{
    for number in 0..lines.len() {
        let line = &lines[number];
        namer.follow(alloc, bank, &line.rule)?;
        write_line(alloc, bank, namer, number, line, out)?;
    }
    Ok(())
}

/// The text of a derivation.
#[tactic(auto, unfolding(crate::specs::Derivations::printed))]
pub(crate) fn text_of(
    alloc: Global,
    problem: &Problem,
    lines: &[StepRecord],
) -> Result<Vec<u8>, AllocError>
    requires problem { IsProblem problem.now }
    requires lines { AreStepsOf problem.now.bank lines.now }
    requires symbols { AreSymbolsOf problem.now.bank lines.now }
    ensures { IfOk result (λ text. text.items ≡ printed problem.now lines.now) }
{
    let mut text = Vec::new(alloc);
    let mut namer = Namer::new(alloc, problem)?;
    let bank = &problem.bank;
    write_hypotheses(
        alloc,
        bank,
        &namer,
        problem.hyps.as_slice(),
        lines,
        &mut text,
    )?;
    write_lines(alloc, bank, &mut namer, lines, &mut text)?;
    Ok(text)
}

/// Appends the text of a derivation from the hypotheses of a problem: the hypotheses that its lines take, and the
/// lines, each abbreviation behind the type statement of its symbol. A base type and a symbol have the word of the
/// first atom that the problem declares as it, a symbol that was abbreviated has its new name from there on, and what
/// has no name is left out. Where it answers that there is no memory, nothing is appended.
pub fn print(
    alloc: Global,
    problem: &Problem,
    lines: &[StepRecord],
    out: &mut Vec<u8>,
) -> Result<(), AllocError>
    requires problem { IsProblem problem.now }
    requires lines { AreStepsOf problem.now.bank lines.now }
    requires symbols { AreSymbolsOf problem.now.bank lines.now }
    ensures ok { OnOk result (out.new.items ≡ out.old.items ++ printed problem.now lines.now) }
    ensures err { OnErr result (out.new.items ≡ out.old.items) }
{
    let text = text_of(alloc, problem, lines)?;
    out.extend_from_slice(&text)
}
