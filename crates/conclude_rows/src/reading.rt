//! Terms and clauses as short texts. A term is written behind its parts, a byte a node: `T`, `F`, `~`, `|`, `&`, `>`, `=`,
//! `!`, `?`, `e` for a chosen thing, `@` for a function behind which its argument stands, `\` for a function of things,
//! `x` and `y` for the indices 0 and 1, a digit for a variable of the clause, and other letters for symbols.

ghost use Rattle.std.specs.Prelude.{◌≡◌, ◌<◌, ℕ, IfOk, IfSome, OnOk, Some, length, slice_get};
ghost use Rattle.leo_terms.specs.Contents.{Extends, HasTypeBelow, IsBank};
ghost use Rattle.leo_clause.specs.Typed.{AreLiteralsOf, AreTypesOf};
ghost use Rattle.conclude_rows.specs.Stacks.{AreReady, AreSymbols, IsReady};

use leo_clause::Lit;
use leo_items::Items;
use leo_terms::{Bank, Op, SymId, TermId, TyId, TyView};
use std::alloc::{AllocError, Global};
use std::collections::LinkedList;

/// The letters of the symbols.
pub(crate) const LETTERS: &[u8] = b"abfgpqrmuv";

/// What a property is made into.
#[derive(Clone, Copy)]
enum Quantifier {
    All,
    Some,
    Chosen,
}

fn popped(bank: &Bank, stack: &mut LinkedList<TermId>) -> Option<TermId>
    requires { AreReady bank.now stack.old }
    ensures term { IfSome result (IsReady bank.now) }
    ensures rest { AreReady bank.now stack.new }
{
    let _ = bank;
    stack.pop_front()
}

fn logic_term(bank: &mut Bank, op: &Op, args: &[TermId]) -> Result<Option<TermId>, AllocError>
    requires type_within { HasTypeBelow (length bank.old.types) op.now }
    requires args { (k x : ℕ) → slice_get args.now k ≡ Some x → IsReady bank.old x }
    ensures term { IfOk result (λ t. IfSome t (IsReady bank.new)) }
    ensures grows { Extends bank.old bank.new }
{
    bank.is_sound();
    if !bank.accepts(*op, args) {
        return Ok(None);
    }
    let t = bank.make_logic(*op, args)?;
    Ok(Some(t))
}

fn negation(bank: &mut Bank, stack: &mut LinkedList<TermId>) -> Result<Option<TermId>, AllocError>
    requires { AreReady bank.old stack.old }
    ensures term { IfOk result (λ t. IfSome t (IsReady bank.new)) }
    ensures rest { AreReady bank.new stack.new }
    ensures grows { Extends bank.old bank.new }
{
    bank.is_sound();
    let Some(t) = popped(bank, stack) else {
        return Ok(None);
    };
    let made = logic_term(bank, &Op::Not, &[t])?;
    Ok(made)
}

fn binary(
    bank: &mut Bank,
    op: Op,
    stack: &mut LinkedList<TermId>,
) -> Result<Option<TermId>, AllocError>
    requires type_within { HasTypeBelow (length bank.old.types) op }
    requires stack { AreReady bank.old stack.old }
    ensures term { IfOk result (λ t. IfSome t (IsReady bank.new)) }
    ensures rest { AreReady bank.new stack.new }
    ensures grows { Extends bank.old bank.new }
{
    bank.is_sound();
    let Some(right) = popped(bank, stack) else {
        return Ok(None);
    };
    let Some(left) = popped(bank, stack) else {
        return Ok(None);
    };
    let made = logic_term(bank, &op, &[left, right])?;
    Ok(made)
}

fn equation(bank: &mut Bank, stack: &mut LinkedList<TermId>) -> Result<Option<TermId>, AllocError>
    requires { AreReady bank.old stack.old }
    ensures term { IfOk result (λ t. IfSome t (IsReady bank.new)) }
    ensures rest { AreReady bank.new stack.new }
    ensures grows { Extends bank.old bank.new }
{
    bank.is_sound();
    let Some(right) = popped(bank, stack) else {
        return Ok(None);
    };
    let Some(left) = popped(bank, stack) else {
        return Ok(None);
    };
    let ty = bank.type_of(left);
    let made = logic_term(bank, &Op::Eq(ty), &[left, right])?;
    Ok(made)
}

fn with_type(quantifier: Quantifier, ty: TyId) -> Op
    ensures { (n : ℕ) → ty < n → HasTypeBelow n result }
{
    match quantifier {
        Quantifier::All => Op::All(ty),
        Quantifier::Some => Op::Some(ty),
        Quantifier::Chosen => Op::Eps(ty),
    }
}

fn quantified(
    bank: &mut Bank,
    quantifier: Quantifier,
    stack: &mut LinkedList<TermId>,
) -> Result<Option<TermId>, AllocError>
    requires { AreReady bank.old stack.old }
    ensures term { IfOk result (λ t. IfSome t (IsReady bank.new)) }
    ensures rest { AreReady bank.new stack.new }
    ensures grows { Extends bank.old bank.new }
{
    bank.is_sound();
    let Some(property) = popped(bank, stack) else {
        return Ok(None);
    };
    let function = bank.type_of(property);
    match bank.view_ty(function) {
        TyView::Arrow(from, _) => {
            let op = with_type(quantifier, from);
            let made = logic_term(bank, &op, &[property])?;
            Ok(made)
        }
        TyView::Base(_) => Ok(None),
    }
}

fn application(
    bank: &mut Bank,
    stack: &mut LinkedList<TermId>,
) -> Result<Option<TermId>, AllocError>
    requires { AreReady bank.old stack.old }
    ensures term { IfOk result (λ t. IfSome t (IsReady bank.new)) }
    ensures rest { AreReady bank.new stack.new }
    ensures grows { Extends bank.old bank.new }
{
    bank.is_sound();
    let Some(argument) = popped(bank, stack) else {
        return Ok(None);
    };
    let Some(function) = popped(bank, stack) else {
        return Ok(None);
    };
    if !bank.is_applicable(function, argument) {
        return Ok(None);
    }
    let made = bank.make_app(function, argument)?;
    Ok(Some(made))
}

fn lambda(bank: &mut Bank, stack: &mut LinkedList<TermId>) -> Result<Option<TermId>, AllocError>
    requires { AreReady bank.old stack.old }
    ensures term { IfOk result (λ t. IfSome t (IsReady bank.new)) }
    ensures rest { AreReady bank.new stack.new }
    ensures grows { Extends bank.old bank.new }
{
    bank.is_sound();
    let Some(body) = popped(bank, stack) else {
        return Ok(None);
    };
    let made = bank.make_lam(TyId::thing(), body)?;
    Ok(Some(made))
}

fn index(bank: &mut Bank, number: u32) -> Result<Option<TermId>, AllocError>
    ensures term { IfOk result (λ t. IfSome t (IsReady bank.new)) }
    ensures grows { Extends bank.old bank.new }
{
    bank.is_sound();
    let made = bank.make_bound(number, TyId::thing())?;
    Ok(Some(made))
}

/// The type of a variable of the clause; one that it does not have is a thing.
fn variable_type(bank: &Bank, vars: &[TyId], number: u8) -> TyId
    requires { AreTypesOf bank.now vars.now }
    ensures { result < length bank.now.types }
{
    bank.is_sound();
    let place = number as usize;
    if place < vars.len() {
        return vars[place];
    }
    TyId::thing()
}

fn variable(bank: &mut Bank, vars: &[TyId], number: u8) -> Result<Option<TermId>, AllocError>
    requires { AreTypesOf bank.old vars.now }
    ensures term { IfOk result (λ t. IfSome t (IsReady bank.new)) }
    ensures grows { Extends bank.old bank.new }
{
    let ty = variable_type(bank, vars, number);
    let made = bank.make_var(number as u32, ty)?;
    Ok(Some(made))
}

/// The symbol of a letter.
fn symbol_of(symbols: &[SymId], letter: u8) -> Option<SymId>
    ensures { (n : ℕ) → ((k s : ℕ) → slice_get symbols.now k ≡ Some s → s < n) → IfSome result (λ s. s < n) }
{
    let place = LETTERS.iter().position(|l| *l == letter)?;
    if place < symbols.len() {
        Some(symbols[place])
    } else {
        None
    }
}

fn symbol(bank: &mut Bank, symbols: &[SymId], letter: u8) -> Result<Option<TermId>, AllocError>
    requires { AreSymbols bank.old symbols.now }
    ensures term { IfOk result (λ t. IfSome t (IsReady bank.new)) }
    ensures grows { Extends bank.old bank.new }
{
    bank.is_sound();
    let Some(symbol) = symbol_of(symbols, letter) else {
        return Ok(None);
    };
    let made = bank.make_sym(symbol)?;
    Ok(Some(made))
}

/// The term of a byte, with parts from the stack.
fn term_of(
    bank: &mut Bank,
    symbols: &[SymId],
    vars: &[TyId],
    byte: u8,
    stack: &mut LinkedList<TermId>,
) -> Result<Option<TermId>, AllocError>
    requires symbols { AreSymbols bank.old symbols.now }
    requires vars { AreTypesOf bank.old vars.now }
    requires stack { AreReady bank.old stack.old }
    ensures term { IfOk result (λ t. IfSome t (IsReady bank.new)) }
    ensures rest { AreReady bank.new stack.new }
    ensures grows { Extends bank.old bank.new }
{
    match byte {
        b'T' => logic_term(bank, &Op::True, &[]),
        b'F' => logic_term(bank, &Op::False, &[]),
        b'~' => negation(bank, stack),
        b'|' => binary(bank, Op::Or, stack),
        b'&' => binary(bank, Op::And, stack),
        b'>' => binary(bank, Op::Imp, stack),
        b'=' => equation(bank, stack),
        b'!' => quantified(bank, Quantifier::All, stack),
        b'?' => quantified(bank, Quantifier::Some, stack),
        b'e' => quantified(bank, Quantifier::Chosen, stack),
        b'@' => application(bank, stack),
        b'\\' => lambda(bank, stack),
        b'x' => index(bank, 0),
        b'y' => index(bank, 1),
        b'0'..=b'9' => variable(bank, vars, byte - b'0'),
        _ => symbol(bank, symbols, byte),
    }
}

/// The next term on the stack. False where the text is no term.
fn put(
    bank: &mut Bank,
    symbols: &[SymId],
    vars: &[TyId],
    byte: u8,
    stack: &mut LinkedList<TermId>,
) -> Result<bool, AllocError>
    requires symbols { AreSymbols bank.old symbols.now }
    requires vars { AreTypesOf bank.old vars.now }
    requires stack { AreReady bank.old stack.old }
    ensures stack { AreReady bank.new stack.new }
    ensures grows { Extends bank.old bank.new }
{
    let made = term_of(bank, symbols, vars, byte, stack)?;
    match made {
        Some(t) => {
            stack.push_front(t)?;
            Ok(true)
        }
        None => Ok(false),
    }
}

/// The terms of a text, the last first.
fn terms(
    alloc: Global,
    bank: &mut Bank,
    symbols: &[SymId],
    vars: &[TyId],
    text: &[u8],
) -> Result<Option<LinkedList<TermId>>, AllocError>
    requires symbols { AreSymbols bank.old symbols.now }
    requires vars { AreTypesOf bank.old vars.now }
    ensures terms { IfOk result (λ ts. IfSome ts (AreReady bank.new)) }
    ensures grows { Extends bank.old bank.new }
{
    bank.is_sound();
    let mut stack = LinkedList::new(alloc);
    for byte in text {
        let read = put(bank, symbols, vars, *byte, &mut stack)?;
        if !read {
            return Ok(None);
        }
    }
    Ok(Some(stack))
}

/// A literal of a text: a sign and its two sides.
fn literal(
    alloc: Global,
    bank: &mut Bank,
    symbols: &[SymId],
    vars: &[TyId],
    text: &[u8],
) -> Result<Option<Lit>, AllocError>
    requires symbols { AreSymbols bank.old symbols.now }
    requires vars { AreTypesOf bank.old vars.now }
    ensures left { IfOk result (λ l. IfSome l (λ k. k.left < length bank.new.terms)) }
    ensures right { IfOk result (λ l. IfSome l (λ k. k.right < length bank.new.terms)) }
    ensures grows { Extends bank.old bank.new }
{
    bank.is_sound();
    let Some((sign, sides)) = text.split_first() else {
        return Ok(None);
    };
    let Some(mut stack) = terms(alloc, bank, symbols, vars, sides)? else {
        return Ok(None);
    };
    let Some(right) = popped(bank, &mut stack) else {
        return Ok(None);
    };
    let Some(left) = popped(bank, &mut stack) else {
        return Ok(None);
    };
    Ok(Some(Lit {
        pos: *sign == b'+',
        left,
        right,
    }))
}

/// The literals of texts.
pub(crate) fn literals(
    alloc: Global,
    bank: &mut Bank,
    symbols: &[SymId],
    vars: &[TyId],
    texts: &[&str],
) -> Result<Option<Items<Lit>>, AllocError>
    requires symbols { AreSymbols bank.old symbols.now }
    requires vars { AreTypesOf bank.old vars.now }
    ensures literals { IfOk result (λ ls. IfSome ls (AreLiteralsOf bank.new)) }
    ensures grows { Extends bank.old bank.new }
{
    bank.is_sound();
    let mut lits = Items::new(alloc);
    for text in texts {
        match literal(alloc, bank, symbols, vars, text.as_bytes())? {
            Some(lit) => lits.push(lit)?,
            None => return Ok(None),
        }
    }
    Ok(Some(lits))
}
