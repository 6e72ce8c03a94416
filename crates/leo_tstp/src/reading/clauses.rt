//! Clauses as they are read.

use crate::reading::patterns::Pattern;
use crate::reading::source::Reader;
use crate::reading::terms::{Opening, opening_of};
use crate::reading::trees::{Parsed, ParsedLiteral, ROOM, TRUTH, Typed};
use crate::refusal::Stop;
use leo_items::Boxed;

/// What a bracket of a clause begins with: one side of a literal, or two, which are a literal or an equation that is
/// one side.
#[derive(Drop)]
enum Item {
    Side(Typed),
    Sides(ParsedLiteral),
}

impl Reader<'_> {
    /// A clause. Its variables stay as those around.
    pub(crate) fn clause(&mut self) -> Result<Vec<ParsedLiteral>, Stop> {
        self.clause_variables()?;
        let mut found = Vec::new(self.alloc);
        if self.sees(b"$false") {
            self.pass();
            return Ok(found);
        }
        self.take(b"(")?;
        self.literals(&mut found)?;
        self.take(b")")?;
        Ok(found)
    }

    fn clause_variables(&mut self) -> Result<(), Stop> {
        self.variables = Vec::new(self.alloc);
        if !self.sees(b"!") {
            return Ok(());
        }
        self.pass();
        self.take(b"[")?;
        self.clause_variable()?;
        self.further_variables()?;
        self.take_all(&[b"]", b":"])
    }

    fn clause_variable(&mut self) -> Result<(), Stop> {
        let number = self.variables.len();
        self.take_numbered(b'X', number as u64)?;
        self.take(b":")?;
        let ty = self.read_type(Pattern::Any, ROOM)?;
        self.variables.push(ty)?;
        Ok(())
    }

    fn further_variables(&mut self) -> Result<(), Stop> {
        for _ in self.at..self.tokens.len() {
            if !self.sees(b",") {
                return Ok(());
            }
            self.pass();
            self.clause_variable()?;
        }
        Ok(())
    }

    /// The literals between the brackets of a clause.
    fn literals(&mut self, found: &mut Vec<ParsedLiteral>) -> Result<(), Stop> {
        match self.item()? {
            Item::Side(left) => {
                let literal = self.literal_behind(left)?;
                found.push(literal)?;
                Ok(())
            }
            Item::Sides(literal) => self.behind_sides(literal, found),
        }
    }

    /// Whether a bracket opens and a term stands behind it.
    fn opens_term(&self) -> bool {
        self.sees(b"(") && matches!(opening_of(self.word_behind()), Opening::Other)
    }

    /// What a bracket of a clause begins with.
    fn item(&mut self) -> Result<Item, Stop> {
        if self.opens_term() {
            self.pass();
            let first = self.term(Pattern::Any, ROOM)?;
            let item = self.item_behind(first)?;
            self.take(b")")?;
            Ok(item)
        } else {
            let side = self.term(Pattern::Any, ROOM)?;
            Ok(Item::Side(side))
        }
    }

    fn item_behind(&mut self, first: Typed) -> Result<Item, Stop> {
        if self.sees(b"=") || self.sees(b"!=") {
            let literal = self.literal_behind(first)?;
            Ok(Item::Sides(literal))
        } else {
            let side = self.behind(first, Pattern::Any, ROOM)?;
            Ok(Item::Side(side))
        }
    }

    /// What stands behind the left side of a literal.
    fn literal_behind(&mut self, left: Typed) -> Result<ParsedLiteral, Stop> {
        let positive = self.sees(b"=");
        if !positive && !self.sees(b"!=") {
            return Err(Stop::Refused);
        }
        self.pass();
        let right = self.term(Pattern::Type(left.ty), ROOM)?;
        Ok(ParsedLiteral {
            positive,
            left: left.term,
            right: right.term,
        })
    }

    /// What stands behind two sides in brackets: further literals, or the right side of an equation.
    fn behind_sides(
        &mut self,
        literal: ParsedLiteral,
        found: &mut Vec<ParsedLiteral>,
    ) -> Result<(), Stop> {
        if self.sees(b"|") {
            found.push(literal)?;
            return self.further_literals(found);
        }
        if !literal.positive {
            return Err(Stop::Refused);
        }
        let whole = self.equation_of(literal)?;
        let literal = self.literal_behind(whole)?;
        found.push(literal)?;
        Ok(())
    }

    /// An equation as a term.
    fn equation_of(&self, literal: ParsedLiteral) -> Result<Typed, Stop> {
        let left = Boxed::new(self.alloc, literal.left)?;
        let right = Boxed::new(self.alloc, literal.right)?;
        Ok(Typed {
            term: Parsed::Equal(left, right),
            ty: TRUTH,
        })
    }

    fn further_literals(&mut self, found: &mut Vec<ParsedLiteral>) -> Result<(), Stop> {
        for _ in self.at..self.tokens.len() {
            if !self.sees(b"|") {
                return Ok(());
            }
            self.pass();
            let literal = self.literal()?;
            found.push(literal)?;
        }
        Ok(())
    }

    /// A literal in brackets.
    fn literal(&mut self) -> Result<ParsedLiteral, Stop> {
        self.take(b"(")?;
        let left = self.term(Pattern::Any, ROOM)?;
        let literal = self.literal_behind(left)?;
        self.take(b")")?;
        Ok(literal)
    }
}
