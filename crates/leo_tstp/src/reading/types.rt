//! Types as they are read.

ghost use Rattle.std.specs.Prelude.{OnOk};
ghost use Rattle.leo_tstp.specs.Places.{GoesOn, TakesArrow, TakesBase, TakesType};

use crate::reading::patterns::{Pattern, fits, parts};
use crate::reading::source::Reader;
use crate::reading::trees::TypeNode;
use crate::refusal::Stop;

impl Reader<'_> {
    /// A type that fits.
    #[cycle(typing)]
    pub(crate) fn read_type(&mut self, asked: Pattern<'_>, room: u32) -> Result<usize, Stop>
        ensures takes { TakesType self.old asked.entry result self.new }
        ensures goes { OnOk result (GoesOn self.old self.new) }
    {
        let Some(room) = room.checked_sub(1) else {
            return Err(Stop::Memory);
        };
        if self.sees(b"(") {
            self.arrow(asked, room)
        } else {
            self.base_type(asked)
        }
    }

    fn base_type(&mut self, asked: Pattern<'_>) -> Result<usize, Stop>
        ensures takes { TakesBase self.old asked.entry result self.new }
        ensures goes { OnOk result (GoesOn self.old self.new) }
    {
        let Some(ty) = self.lexicon.type_named(self.word()) else {
            return Err(Stop::Refused);
        };
        if !fits(&self.types, &asked, ty) {
            return Err(Stop::Refused);
        }
        self.pass();
        Ok(ty)
    }

    #[cycle(typing)]
    fn arrow(&mut self, asked: Pattern<'_>, room: u32) -> Result<usize, Stop>
        ensures takes { TakesArrow self.old asked.entry result self.new }
        ensures goes { OnOk result (GoesOn self.old self.new) }
    {
        let Some((from, to)) = parts(&self.types, asked) else {
            return Err(Stop::Refused);
        };
        self.pass();
        let a = self.read_type(from, room)?;
        self.take(b">")?;
        let b = self.read_type(to, room)?;
        self.take(b")")?;
        let ty = self.types.place(TypeNode::Arrow(a, b))?;
        Ok(ty)
    }
}
