//! Rules as words: a name, and the numbers of lines, literals and places behind it.

ghost use Rattle.std.specs.Prelude.{IfOk, IfSome};
ghost use Rattle.leo_terms.specs.Contents.{AreTerms, Contents, Extends};
ghost use Rattle.leo_kernel.specs.Records.{AreTermsOfRule};
ghost use Rattle.kernel_rows.specs.Boards.{IsBoard};
ghost use Rattle.kernel_rows.specs.Stacks.{AreSymbols};

use crate::board::Board;
use crate::reading::{symbol_of, term};
use leo_clause::{Half, LogicKind, Rule, Side};
use leo_items::Items;
use leo_terms::{Bank, SymId, TermId};
use std::alloc::{AllocError, Global};

fn line_number(word: &str) -> Option<u64> {
    word.parse().ok()
}

fn place_number(word: &str) -> Option<u32> {
    word.parse().ok()
}

/// A rule that names no literal.
fn rule_of_line(words: &[&str]) -> Option<Rule>
    ensures { (c : Contents) → IfSome result (AreTermsOfRule c) }
{
    match *words {
        ["refl"] => Some(Rule::Refl),
        ["choice"] => Some(Rule::Choice),
        ["axiom", hyp] => Some(Rule::Axiom {
            hyp: line_number(hyp)?,
        }),
        ["convert", parent] => Some(Rule::Convert {
            parent: line_number(parent)?,
        }),
        ["arrange", parent] => Some(Rule::Arrange {
            parent: line_number(parent)?,
        }),
        _ => None,
    }
}

/// A rule of literals of one line.
fn rule_of_literal(words: &[&str]) -> Option<Rule>
    ensures { (c : Contents) → IfSome result (AreTermsOfRule c) }
{
    match *words {
        ["drop", parent, lit] => Some(Rule::Drop {
            parent: line_number(parent)?,
            lit: place_number(lit)?,
        }),
        ["decompose", parent, lit] => Some(Rule::Decompose {
            parent: line_number(parent)?,
            lit: place_number(lit)?,
        }),
        ["factor", parent, first, second] => Some(Rule::Factor {
            parent: line_number(parent)?,
            first: place_number(first)?,
            second: place_number(second)?,
        }),
        _ => None,
    }
}

fn half_of(word: &str) -> Option<Half> {
    match word {
        "one" => Some(Half::One),
        "two" => Some(Half::Two),
        _ => None,
    }
}

/// A rule about an equation of truth values or of functions.
fn rule_of_equation(words: &[&str]) -> Option<Rule>
    ensures { (c : Contents) → IfSome result (AreTermsOfRule c) }
{
    match *words {
        ["bool_ext", parent, lit, half] => Some(Rule::BoolExt {
            parent: line_number(parent)?,
            lit: place_number(lit)?,
            half: half_of(half)?,
        }),
        ["func_ext", parent, lit] => Some(Rule::FuncExt {
            parent: line_number(parent)?,
            lit: place_number(lit)?,
            abbr: None,
        }),
        ["func_ext", parent, lit, abbr] => Some(Rule::FuncExt {
            parent: line_number(parent)?,
            lit: place_number(lit)?,
            abbr: Some(line_number(abbr)?),
        }),
        _ => None,
    }
}

fn kind_of(word: &str) -> Option<LogicKind> {
    match word {
        "not" => Some(LogicKind::Not),
        "or_t" => Some(LogicKind::OrT),
        "or_f1" => Some(LogicKind::OrF1),
        "or_f2" => Some(LogicKind::OrF2),
        "and_t1" => Some(LogicKind::AndT1),
        "all_t" => Some(LogicKind::AllT),
        "all_f" => Some(LogicKind::AllF),
        "some_t" => Some(LogicKind::SomeT),
        _ => None,
    }
}

/// A rule that takes a truth value apart. The last word is the line that abbreviates the chosen term, if one is chosen.
fn rule_of_truth_value(words: &[&str]) -> Option<Rule>
    ensures { (c : Contents) → IfSome result (AreTermsOfRule c) }
{
    match *words {
        ["logic", parent, lit, kind] => Some(Rule::Logic {
            parent: line_number(parent)?,
            lit: place_number(lit)?,
            kind: kind_of(kind)?,
            abbr: None,
        }),
        ["logic", parent, lit, kind, abbr] => Some(Rule::Logic {
            parent: line_number(parent)?,
            lit: place_number(lit)?,
            kind: kind_of(kind)?,
            abbr: Some(line_number(abbr)?),
        }),
        _ => None,
    }
}

/// A rule of numbers alone.
fn rule_of_numbers(words: &[&str]) -> Option<Rule>
    ensures { (c : Contents) → IfSome result (AreTermsOfRule c) }
{
    match *words {
        ["refl" | "choice" | "axiom" | "convert" | "arrange", ..] => rule_of_line(words),
        ["drop" | "decompose" | "factor", ..] => rule_of_literal(words),
        ["bool_ext" | "func_ext", ..] => rule_of_equation(words),
        ["logic", ..] => rule_of_truth_value(words),
        _ => None,
    }
}

/// The places of a path.
fn path_of(alloc: Global, words: &[&str]) -> Result<Option<Items<u8>>, AllocError> {
    let mut path = Items::new(alloc);
    for word in words {
        match word.parse() {
            Ok(place) => path.push(place)?,
            Err(_) => return Ok(None),
        }
    }
    Ok(Some(path))
}

/// The rule that replaces by the left side of a literal, in the left side of another: the line and literal of the equation,
/// those of the target, and the path.
fn paramodulation(alloc: Global, words: &[&str]) -> Result<Option<Rule>, AllocError>
    ensures { (c : Contents) → IfOk result (λ r. IfSome r (AreTermsOfRule c)) }
{
    let [from, lit, target, place, path @ ..] = words else {
        return Ok(None);
    };
    let Some(path) = path_of(alloc, path)? else {
        return Ok(None);
    };
    let numbers = (
        line_number(from),
        place_number(lit),
        line_number(target),
        place_number(place),
    );
    let (Some(from), Some(lit), Some(target), Some(place)) = numbers else {
        return Ok(None);
    };
    Ok(Some(Rule::Para {
        from,
        lit,
        side: Side::Left,
        target,
        place,
        place_side: Side::Left,
        path,
    }))
}

/// The rule that abbreviates a term by the symbol of a letter.
fn abbreviation(board: &Board, word: &str) -> Option<Rule>
    ensures { (c : Contents) → IfSome result (AreTermsOfRule c) }
{
    let (letter, _) = word.as_bytes().split_first()?;
    let symbol = symbol_of(board.symbols.as_slice(), *letter)?;
    Some(Rule::Abbreviate { symbol })
}

/// A term of a text. False where the text is none.
fn put_term(
    alloc: Global,
    bank: &mut Bank,
    symbols: &[SymId],
    text: &str,
    terms: &mut Items<TermId>,
) -> Result<bool, AllocError>
    requires symbols { AreSymbols bank.old symbols.now }
    requires terms { AreTerms bank.old terms.old }
    ensures terms { AreTerms bank.new terms.new }
    ensures grows { Extends bank.old bank.new }
{
    let read = term(alloc, bank, symbols, text.as_bytes())?;
    let Some(t) = read else {
        return Ok(false);
    };
    terms.push(t)?;
    Ok(true)
}

/// The terms of texts.
fn given_terms(
    alloc: Global,
    bank: &mut Bank,
    board: &Board,
    texts: &[&str],
) -> Result<Option<Items<TermId>>, AllocError>
    requires { IsBoard bank.old board.now }
    ensures terms { IfOk result (λ ts. IfSome ts (AreTerms bank.new)) }
    ensures grows { Extends bank.old bank.new }
{
    bank.is_sound();
    let mut given = Items::new(alloc);
    for text in texts {
        let read = put_term(alloc, bank, board.symbols.as_slice(), text, &mut given)?;
        if !read {
            return Ok(None);
        }
    }
    Ok(Some(given))
}

/// The rule that puts terms in for the variables of a line.
fn instance(
    alloc: Global,
    bank: &mut Bank,
    board: &Board,
    parent: &str,
    texts: &[&str],
) -> Result<Option<Rule>, AllocError>
    requires { IsBoard bank.old board.now }
    ensures rule { IfOk result (λ r. IfSome r (AreTermsOfRule bank.new)) }
    ensures grows { Extends bank.old bank.new }
{
    let read = given_terms(alloc, bank, board, texts)?;
    match (line_number(parent), read) {
        (Some(parent), Some(sigma)) => Ok(Some(Rule::Inst { parent, sigma })),
        _ => Ok(None),
    }
}

/// The rule of words.
fn rule_of_words(
    alloc: Global,
    bank: &mut Bank,
    board: &Board,
    words: &[&str],
) -> Result<Option<Rule>, AllocError>
    requires { IsBoard bank.old board.now }
    ensures rule { IfOk result (λ r. IfSome r (AreTermsOfRule bank.new)) }
    ensures grows { Extends bank.old bank.new }
{
    bank.is_sound();
    match words {
        ["inst", parent, texts @ ..] => instance(alloc, bank, board, parent, texts),
        ["para", numbers @ ..] => paramodulation(alloc, numbers),
        ["abbreviate", letter] => Ok(abbreviation(board, letter)),
        _ => Ok(rule_of_numbers(words)),
    }
}

/// The rule of a text.
pub(crate) fn rule_of(
    alloc: Global,
    bank: &mut Bank,
    board: &Board,
    text: &str,
) -> Result<Option<Rule>, AllocError>
    requires { IsBoard bank.old board.now }
    ensures rule { IfOk result (λ r. IfSome r (AreTermsOfRule bank.new)) }
    ensures grows { Extends bank.old bank.new }
{
    bank.is_sound();
    let words: Vec<&str> = text.split_whitespace().collect(alloc)?;
    rule_of_words(alloc, bank, board, &words)
}
