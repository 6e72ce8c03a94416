//! Lines and the type statements of symbols as they are read.

ghost use Rattle.std.specs.Prelude.{◌≡◌, [], ◌↔◌, IfOk, IsTrue, OnOk};
ghost use Rattle.leo_tstp.specs.Ahead.{TakesWords, ahead_of};
ghost use Rattle.leo_tstp.specs.Places.{GoesOn, TakesTyping};
ghost use Rattle.leo_tstp.specs.Read.{IsLineRead};
ghost use Rattle.leo_tstp.specs.Spelled.{line_head};

use crate::reading::patterns::Pattern;
use crate::reading::source::{Reader, is, number_behind};
use crate::reading::trees::{ParsedLine, ROOM};
use crate::refusal::Stop;
use crate::words::write_number;
use std::alloc::{AllocError, Global};

/// The name of a new symbol, and that of its type statement.
#[derive(Drop)]
pub(crate) struct NewName {
    pub(crate) name: Vec<u8>,
    pub(crate) statement: Vec<u8>,
}

/// The name of the new symbol of that number.
pub(crate) fn new_name(alloc: Global, prefix: &[u8], number: usize) -> Result<NewName, AllocError> {
    let mut name = Vec::from_slice(alloc, prefix)?;
    write_number(number as u64, &mut name)?;
    let mut statement = Vec::from_slice(alloc, &name)?;
    statement.extend_from_slice(b"_type")?;
    Ok(NewName { name, statement })
}

impl Reader<'_> {
    /// Whether the text has no token more.
    pub(crate) fn is_done(&self) -> bool
        ensures { IsTrue result ↔ (ahead_of self.now ≡ []) }
    {
        self.at >= self.tokens.len()
    }

    /// Whether the statement of that name comes next.
    pub(crate) fn comes(&self, name: &[u8]) -> bool {
        let second = self.at.saturating_add(1);
        let third = self.at.saturating_add(2);
        self.sees(b"thf") && is(self.word_at(second), b"(") && is(self.word_at(third), name)
    }

    /// Whether the hypothesis of that number comes next.
    pub(crate) fn comes_hypothesis(&self, number: usize) -> bool {
        let second = self.at.saturating_add(1);
        let third = self.at.saturating_add(2);
        self.sees(b"thf")
            && is(self.word_at(second), b"(")
            && number_behind(self.word_at(third), b'h') == Some(number as u64)
    }

    /// Refuses the end of a text in which a hypothesis stands that no line takes.
    pub(crate) fn want_all_used(&self) -> Result<(), Stop> {
        if self.used.len() < self.listed.len() {
            return Err(Stop::Refused);
        }
        Ok(())
    }

    /// Keeps a new symbol with its type.
    pub(crate) fn learn(&mut self, new: NewName, ty: usize) -> Result<(), Stop> {
        let Some(introduced) = self.introduced.checked_add(1) else {
            return Err(Stop::Memory);
        };
        let place = self.lexicon.symbol_types.len();
        self.lexicon.symbols.insert(new.name, place)?;
        self.lexicon.symbol_types.push(ty)?;
        self.introduced = introduced;
        Ok(())
    }

    /// The type statement of a new symbol: its type.
    pub(crate) fn typing(&mut self, new: &NewName) -> Result<usize, Stop>
        ensures takes { TakesTyping self.old new.now.statement.items new.now.name.items result self.new }
        ensures goes { OnOk result (GoesOn self.old self.new) }
    {
        self.take_all(&[b"thf", b"("])?;
        self.take(&new.statement)?;
        self.take_all(&[b",", b"type", b","])?;
        self.take(&new.name)?;
        self.take(b":")?;
        let ty = self.read_type(Pattern::Any, ROOM)?;
        self.take_all(&[b")", b"."])?;
        Ok(ty)
    }

    /// The line of that number.
    pub(crate) fn line(&mut self, number: usize, defines: bool) -> Result<ParsedLine, Stop>
        ensures { IfOk result IsLineRead }
    {
        self.line_head(number)?;
        let literals = self.clause()?;
        self.take_all(&[b",", b"inference", b"("])?;
        let rule = self.rule(defines)?;
        Ok(ParsedLine { literals, rule })
    }

    fn line_head(&mut self, number: usize) -> Result<(), Stop>
        ensures takes { TakesWords self.old (line_head number) result self.new }
        ensures stays { self.new ≡ record self.old { at = self.new.at } }
    {
        self.take_all(&[b"thf", b"("])?;
        self.take_numbered(b'l', number as u64)?;
        self.take_all(&[b",", b"plain", b","])
    }
}
