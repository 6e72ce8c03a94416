//! The names of types, symbols, constants and rules.

use crate::board::Board;
use crate::reading::LETTERS;
use leo_clause::LogicKind;
use leo_items::Items;
use leo_terms::{Op, SymId, TermId, TyId};
use std::alloc::{AllocError, Global};

/// The digits.
const DIGITS: &[u8] = b"0123456789";

/// The letters of the indices.
const INDICES: &[u8] = b"xyzuvw";

/// The letters of the choice symbols.
const CHOICES: &[u8] = b"ABCDE";

/// The byte at a place, or a mark where there is none.
fn byte_at(bytes: &[u8], place: usize) -> char {
    if place < bytes.len() {
        bytes[place] as char
    } else {
        '#'
    }
}

/// The letter of a symbol; those behind the symbols of the rows are choice symbols.
pub(crate) fn symbol_letter(symbols: &[SymId], symbol: SymId) -> char {
    match symbols.iter().position(|s| *s == symbol) {
        Some(place) => match place.checked_sub(LETTERS.len()) {
            Some(behind) => byte_at(CHOICES, behind),
            None => byte_at(LETTERS, place),
        },
        None => '#',
    }
}

pub(crate) fn type_digit(types: &[TyId], ty: TyId) -> char {
    match types.iter().position(|t| *t == ty) {
        Some(place) => byte_at(DIGITS, place),
        None => '#',
    }
}

pub(crate) fn index_letter(index: u32) -> char {
    byte_at(INDICES, index as usize)
}

pub(crate) fn operator_letter(op: Op) -> char {
    match op {
        Op::True => 'T',
        Op::False => 'F',
        Op::Not => '~',
        Op::Or => '|',
        Op::And => '&',
        Op::Imp => '>',
        Op::Eq(_) => '=',
        Op::All(_) => '!',
        Op::Some(_) => '?',
        Op::Eps(_) => 'e',
    }
}

pub(crate) fn kind_name(kind: LogicKind) -> &'static str {
    match kind {
        LogicKind::Not => "not",
        LogicKind::OrT => "or_t",
        LogicKind::OrF1 => "or_f1",
        LogicKind::OrF2 => "or_f2",
        LogicKind::AndT1 => "and_t1",
        LogicKind::AndT2 => "and_t2",
        LogicKind::AndF => "and_f",
        LogicKind::ImpT => "imp_t",
        LogicKind::ImpF1 => "imp_f1",
        LogicKind::ImpF2 => "imp_f2",
        LogicKind::EqT => "eq_t",
        LogicKind::EqF => "eq_f",
        LogicKind::Flip => "flip",
        LogicKind::AllT => "all_t",
        LogicKind::SomeF => "some_f",
        LogicKind::AllF => "all_f",
        LogicKind::SomeT => "some_t",
    }
}

/// The types and symbols of the rows, with choice symbols behind them.
pub(crate) fn with_choices(
    alloc: Global,
    board: &Board,
    choices: &[(SymId, TermId)],
) -> Result<Board, AllocError> {
    let types = Items::from_slice(alloc, board.types.as_slice())?;
    let mut symbols = Items::from_slice(alloc, board.symbols.as_slice())?;
    for (symbol, _) in choices {
        symbols.push(*symbol)?;
    }
    Ok(Board { types, symbols })
}
