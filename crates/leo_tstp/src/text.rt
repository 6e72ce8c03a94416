//! Derivation texts as they are read. What was read is printed again, and the two texts must have the same tokens.

ghost use Rattle.std.specs.Prelude.{◌≡◌, ◌≤◌, ◌*◌, ◌^◌, ◌<◌, length, option_to_list, OnOk, IfOk, IfSome};
ghost use Rattle.leo_lex.specs.Cut.{AreTokens};
ghost use Rattle.leo_terms.specs.Contents.{Extends};
ghost use Rattle.leo_kernel.specs.Records.{AreStepsOf};
ghost use Rattle.leo_problem.specs.Loading.{AreClosedFormulas, IsProblem};
ghost use Rattle.leo_tstp.specs.Built.{AreStepsRead, IsNumbering, IsStepBuilt};
ghost use Rattle.leo_tstp.specs.NewSymbols.{IsRising, introduced, introduced_by};
ghost use Rattle.leo_tstp.specs.Records.{AreSymbolsOf};
ghost use Rattle.leo_tstp.specs.TextWords.{AreTypedSteps, IsDerivationText};

use crate::building::numbers::{Numbers, number_types, type_numbered};
use crate::building::records::record_of;
use crate::comparing::first_difference;
use crate::hypotheses::write_hypothesis;
use crate::namer::Namer;
use crate::printing::text_of;
use crate::reading::lexicon::start_of;
use crate::reading::lines::{NewName, new_name};
use crate::reading::source::Reader;
use crate::refusal::{Stop, TstpRefusal};
use indexmap::IndexSet;
use leo_clause::StepRecord;
use leo_items::Items;
use leo_lex::{LexRefusal, Token, tokens};
use leo_problem::{Hyp, Problem};
use leo_terms::{Bank, SymId};
use std::alloc::Global;

/// The greatest length of a text that is cut into tokens: 64 MiB.
const LIMIT: usize = 67_108_864;

/// Where a token begins, or the length of the text behind the last.
fn byte_at(bytes: &[u8], tokens: &[Token], place: usize) -> u32
    requires { length bytes.now ≤ 64 * 2 ^ 20 }
{
    match tokens.get(place) {
        Some(token) => token.start,
        None => bytes.len() as u32,
    }
}

/// Passes the tokens of a text.
fn take_text(alloc: Global, reader: &mut Reader<'_>, text: &[u8]) -> Result<(), Stop> {
    if text.len() > LIMIT {
        return Err(Stop::Memory);
    }
    match tokens(alloc, text) {
        Ok(found) => reader.take_tokens(text, &found),
        Err(_) => Err(Stop::Memory),
    }
}

/// A hypothesis, which is one of the problem as it is printed.
fn hypothesis(
    alloc: Global,
    bank: &Bank,
    namer: &Namer,
    number: usize,
    hyp: &Hyp,
    reader: &mut Reader<'_>,
) -> Result<(), Stop>
    requires { hyp.now.term < length bank.now.terms }
{
    let mut text = Vec::new(alloc);
    write_hypothesis(alloc, bank, namer, number, hyp, &mut text)?;
    take_text(alloc, reader, &text)?;
    reader.listed.insert(number as u64)?;
    Ok(())
}

/// The hypotheses that stand in a text, in rising order.
fn hypotheses(
    alloc: Global,
    bank: &Bank,
    namer: &Namer,
    hyps: &[Hyp],
    reader: &mut Reader<'_>,
) -> Result<(), Stop>
    requires { AreClosedFormulas bank.now hyps.now }
{
    for number in 0..hyps.len() {
        if reader.comes_hypothesis(number) {
            hypothesis(alloc, bank, namer, number, &hyps[number], reader)?;
        }
    }
    Ok(())
}

/// The type statement of a new symbol.
fn define(
    bank: &mut Bank,
    reader: &mut Reader<'_>,
    numbers: &mut Numbers,
    new: NewName,
) -> Result<SymId, Stop>
    requires { IsNumbering bank.old numbers.old }
    ensures numbering { OnOk result (IsNumbering bank.new numbers.new) }
    ensures new { IfOk result (λ s. length bank.old.symbols ≤ s) }
    ensures within { IfOk result (λ s. s < length bank.new.symbols) }
    ensures grows { Extends bank.old bank.new }
{
    bank.is_sound();
    let place = reader.typing(&new)?;
    number_types(bank, &reader.types, numbers)?;
    let ty = type_numbered(numbers, place)?;
    let symbol = bank.fresh(ty)?;
    numbers.symbols.push(symbol)?;
    reader.learn(new, place)?;
    Ok(symbol)
}

/// A line, where the symbol is that whose type stands before it.
fn line(
    alloc: Global,
    bank: &mut Bank,
    reader: &mut Reader<'_>,
    numbers: &mut Numbers,
    number: usize,
    symbol: Option<SymId>,
) -> Result<StepRecord, Stop>
    requires numbering { IsNumbering bank.old numbers.old }
    requires symbol { IfSome symbol (λ s. s < length bank.old.symbols) }
    ensures numbering { OnOk result (IsNumbering bank.new numbers.new) }
    ensures built { IfOk result (IsStepBuilt bank.new) }
    ensures introduced { IfOk result (λ r. introduced_by r.rule ≡ option_to_list symbol) }
    ensures grows { Extends bank.old bank.new }
{
    bank.is_sound();
    let line = reader.line(number, symbol.is_some())?;
    number_types(bank, &reader.types, numbers)?;
    let record = record_of(alloc, bank, numbers, &reader.variables, line, symbol)?;
    Ok(record)
}

/// The next line, with the type statement of its symbol before it.
fn next_line(
    alloc: Global,
    bank: &mut Bank,
    reader: &mut Reader<'_>,
    numbers: &mut Numbers,
    prefix: &[u8],
    number: usize,
) -> Result<StepRecord, Stop>
    requires { IsNumbering bank.old numbers.old }
    ensures numbering { OnOk result (IsNumbering bank.new numbers.new) }
    ensures built { IfOk result (IsStepBuilt bank.new) }
    ensures new { IfOk result (λ r. IsRising (length bank.old.symbols) (introduced_by r.rule) (length bank.new.symbols)) }
    ensures grows { Extends bank.old bank.new }
{
    bank.is_sound();
    let new = new_name(alloc, prefix, reader.introduced)?;
    if reader.comes(&new.statement) {
        let symbol = define(bank, reader, numbers, new)?;
        let record = line(alloc, bank, reader, numbers, number, Some(symbol))?;
        Ok(record)
    } else {
        let record = line(alloc, bank, reader, numbers, number, None)?;
        Ok(record)
    }
}

/// The lines of a text.
fn lines(
    alloc: Global,
    bank: &mut Bank,
    reader: &mut Reader<'_>,
    numbers: &mut Numbers,
    prefix: &[u8],
) -> Result<Vec<StepRecord>, Stop>
    requires { IsNumbering bank.old numbers.old }
    ensures read { IfOk result (λ steps. AreStepsRead bank.new steps.items) }
    ensures new { IfOk result (λ steps. IsRising (length bank.old.symbols) (introduced steps.items) (length bank.new.symbols)) }
    ensures grows { Extends bank.old bank.new }
{
    bank.is_sound();
    let mut steps = Vec::new(alloc);
    for number in 0..reader.tokens.len() {
        if reader.is_done() {
            return Ok(steps);
        }
        let step = next_line(alloc, bank, reader, numbers, prefix, number)?;
        steps.push(step)?;
    }
    Ok(steps)
}

/// The hypotheses and the lines of a text.
fn steps_of(
    alloc: Global,
    problem: &mut Problem,
    reader: &mut Reader<'_>,
    numbers: &mut Numbers,
) -> Result<Vec<StepRecord>, Stop>
    requires problem { IsProblem problem.old }
    requires numbering { IsNumbering problem.old.bank numbers.old }
    ensures read { IfOk result (λ steps. AreStepsRead problem.new.bank steps.items) }
    ensures new { IfOk result (λ steps. IsRising (length problem.old.bank.symbols) (introduced steps.items) (length problem.new.bank.symbols)) }
    ensures grows { Extends problem.old.bank problem.new.bank }
    ensures stays { problem.new ≡ record { bank = problem.new.bank; names = problem.old.names; hyps = problem.old.hyps; conjecture = problem.old.conjecture; statements = problem.old.statements } }
{
    problem.bank.is_sound();
    let namer = Namer::new(alloc, problem)?;
    hypotheses(
        alloc,
        &problem.bank,
        &namer,
        problem.hyps.as_slice(),
        reader,
    )?;
    let steps = lines(alloc, &mut problem.bank, reader, numbers, &namer.prefix)?;
    reader.want_all_used()?;
    Ok(steps)
}

/// What the tokens of a text say.
fn parsed(
    alloc: Global,
    problem: &mut Problem,
    bytes: &[u8],
    tokens: &[Token],
) -> Result<Vec<StepRecord>, TstpRefusal>
    requires problem { IsProblem problem.old }
    requires length { length bytes.now ≤ 64 * 2 ^ 20 }
    ensures read { IfOk result (λ steps. AreStepsRead problem.new.bank steps.items) }
    ensures new { IfOk result (λ steps. IsRising (length problem.old.bank.symbols) (introduced steps.items) (length problem.new.bank.symbols)) }
    ensures grows { Extends problem.old.bank problem.new.bank }
    ensures stays { problem.new ≡ record { bank = problem.new.bank; names = problem.old.names; hyps = problem.old.hyps; conjecture = problem.old.conjecture; statements = problem.old.statements } }
{
    problem.bank.is_sound();
    let Ok(start) = start_of(alloc, &mut problem.bank, &problem.names) else {
        return Err(TstpRefusal::Memory);
    };
    let mut numbers = start.numbers;
    let mut reader = Reader {
        alloc,
        bytes,
        tokens,
        at: 0,
        types: start.types,
        lexicon: start.lexicon,
        introduced: 0,
        variables: Vec::new(alloc),
        scope: Vec::new(alloc),
        listed: IndexSet::new(alloc),
        used: IndexSet::new(alloc),
    };
    match steps_of(alloc, problem, &mut reader, &mut numbers) {
        Ok(steps) => Ok(steps),
        Err(Stop::Refused) => Err(TstpRefusal::Bad {
            byte: byte_at(bytes, tokens, reader.at),
        }),
        Err(Stop::Memory) => Err(TstpRefusal::Memory),
    }
}

/// Whether a text has the tokens of what is printed of these lines.
fn compared(
    alloc: Global,
    problem: &Problem,
    bytes: &[u8],
    found: &[Token],
    steps: &[StepRecord],
) -> Result<(), TstpRefusal>
    requires problem { IsProblem problem.now }
    requires steps { AreStepsRead problem.now.bank steps.now }
    requires tokens { AreTokens bytes.now found.now }
    requires length { length bytes.now ≤ 64 * 2 ^ 20 }
    ensures { OnOk result (IsDerivationText problem.now bytes.now steps.now) }
{
    let text = text_of(alloc, problem, steps)?;
    if text.len() > LIMIT {
        return Err(TstpRefusal::Memory);
    }
    match tokens(alloc, &text) {
        Ok(others) => match first_difference(bytes, found, &text, &others) {
            None => Ok(()),
            Some(place) => Err(TstpRefusal::Bad {
                byte: byte_at(bytes, found, place),
            }),
        },
        Err(_) => Err(TstpRefusal::Memory),
    }
}

/// The derivation that the tokens of a text say.
fn read_tokens(
    alloc: Global,
    problem: &mut Problem,
    bytes: &[u8],
    tokens: &[Token],
) -> Result<Items<StepRecord>, TstpRefusal>
    requires problem { IsProblem problem.old }
    requires length { length bytes.now ≤ 64 * 2 ^ 20 }
    requires tokens { AreTokens bytes.now tokens.now }
    ensures text { IfOk result (IsDerivationText problem.new bytes.now) }
    ensures read { IfOk result (AreStepsRead problem.new.bank) }
    ensures new { IfOk result (λ steps. IsRising (length problem.old.bank.symbols) (introduced steps) (length problem.new.bank.symbols)) }
    ensures grows { Extends problem.old.bank problem.new.bank }
    ensures stays { problem.new ≡ record { bank = problem.new.bank; names = problem.old.names; hyps = problem.old.hyps; conjecture = problem.old.conjecture; statements = problem.old.statements } }
{
    let steps = parsed(alloc, problem, bytes, tokens)?;
    compared(alloc, problem, bytes, tokens, &steps)?;
    Ok(Items::from_vec(steps))
}

/// Why a text is refused of which the tokens before a byte are tokens, and none begins there.
fn refused_before(alloc: Global, problem: &mut Problem, bytes: &[u8], byte: u32) -> TstpRefusal
    requires problem { IsProblem problem.old }
    requires length { length bytes.now ≤ 64 * 2 ^ 20 }
    requires within { byte < length bytes.now }
    ensures grows { Extends problem.old.bank problem.new.bank }
    ensures stays { problem.new ≡ record { bank = problem.new.bank; names = problem.old.names; hyps = problem.old.hyps; conjecture = problem.old.conjecture; statements = problem.old.statements } }
{
    problem.bank.is_sound();
    let before = &bytes[..byte as usize];
    match tokens(alloc, before) {
        Ok(found) => match parsed(alloc, problem, before, &found) {
            Ok(_) => TstpRefusal::Bad { byte },
            Err(refusal) => refusal,
        },
        Err(LexRefusal::Lexical { byte }) => TstpRefusal::Bad { byte },
        Err(LexRefusal::Memory) => TstpRefusal::Memory,
    }
}

/// The derivation that a text of at most 64 MiB says of a problem. On Ok the text is a text of these lines: it has the
/// tokens of what is printed of them. Comments and white space between tokens are free. Each clause is typed, and the
/// symbols that the lines abbreviate are new in the bank, which only grew.
///
/// # Errors
///
/// - [`TstpRefusal::Bad`] for a text that is no derivation text of the problem.
/// - [`TstpRefusal::Memory`], also where terms nest more than 1,100 levels deep and where more than 64 MiB are printed
///   of the lines.
pub fn read(
    alloc: Global,
    problem: &mut Problem,
    bytes: &[u8],
) -> Result<Items<StepRecord>, TstpRefusal>
    requires problem { IsProblem problem.old }
    requires length { length bytes.now ≤ 64 * 2 ^ 20 }
    ensures text { IfOk result (IsDerivationText problem.new bytes.now) }
    ensures steps { IfOk result (AreStepsOf problem.new.bank) }
    ensures typed { IfOk result (AreTypedSteps problem.new.bank) }
    ensures symbols { IfOk result (AreSymbolsOf problem.new.bank) }
    ensures new { IfOk result (λ steps. IsRising (length problem.old.bank.symbols) (introduced steps) (length problem.new.bank.symbols)) }
    ensures problem { IsProblem problem.new }
    ensures grows { Extends problem.old.bank problem.new.bank }
    ensures stays { problem.new ≡ record { bank = problem.new.bank; names = problem.old.names; hyps = problem.old.hyps; conjecture = problem.old.conjecture; statements = problem.old.statements } }
{
    match tokens(alloc, bytes) {
        Ok(found) => {
            let steps = read_tokens(alloc, problem, bytes, &found)?;
            Ok(steps)
        }
        Err(LexRefusal::Lexical { byte }) => Err(refused_before(alloc, problem, bytes, byte)),
        Err(LexRefusal::Memory) => {
            problem.bank.is_sound();
            Err(TstpRefusal::Memory)
        }
    }
}
