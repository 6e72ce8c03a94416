//! Reading what an include names.

ghost use Rattle.std.specs.Prelude.{◌≡◌, ◌<◌, ◌≤◌, ◌^◌, length};
ghost use Rattle.leo_syntax.specs.Reading as spec;
ghost use Rattle.leo_syntax.specs.Reading.{Gives};
ghost use Rattle.leo_syntax.specs.Source.{ahead, end_of};

use crate::classes::Says;
use crate::refusal::ReadRefusal;
use crate::source::Source;
use leo_items::Items;
use leo_lex::Mark;
use std::alloc::Global;

/// Names, with commas between.
fn names(
    alloc: Global,
    source: &Source<'_>,
    at: &mut usize,
) -> Result<Items<Items<u8>>, ReadRefusal>
    requires { length source.now.bytes.now < 2 ^ 32 }
    ensures gives { Gives (spec.names (end_of source.now) (ahead source.now at.old)) result (ahead source.now at.new) }
    ensures forward { at.old ≤ at.new }
{
    let mut found = Items::new(alloc);
    'names: loop {
        let name = source.say(alloc, at, Says::Name)?;
        found.push(name)?;
        if !source.eat(at, Mark::Comma) {
            return Ok(found);
        }
    }
}

/// Names and the bracket behind them.
#[tactic(auto, unfolding(crate::specs::Reading::selected))]
fn selected(
    alloc: Global,
    source: &Source<'_>,
    at: &mut usize,
) -> Result<Items<Items<u8>>, ReadRefusal>
    requires { length source.now.bytes.now < 2 ^ 32 }
    ensures gives { Gives (spec.selected (end_of source.now) (ahead source.now at.old)) result (ahead source.now at.new) }
    ensures forward { at.old ≤ at.new }
{
    if source.eat(at, Mark::CloseSquare) {
        return Ok(Items::new(alloc));
    }
    let found = names(alloc, source, at)?;
    source.expect(at, Mark::CloseSquare)?;
    Ok(found)
}

/// The names of an include, where it is not for a whole file.
#[tactic(auto, unfolding(crate::specs::Reading::selection))]
pub fn selection(
    alloc: Global,
    source: &Source<'_>,
    at: &mut usize,
) -> Result<Option<Items<Items<u8>>>, ReadRefusal>
    requires { length source.now.bytes.now < 2 ^ 32 }
    ensures gives { Gives (spec.selection (end_of source.now) (ahead source.now at.old)) result (ahead source.now at.new) }
    ensures forward { at.old ≤ at.new }
{
    if source.eat(at, Mark::Comma) {
        source.expect(at, Mark::OpenSquare)?;
        let found = selected(alloc, source, at)?;
        Ok(Some(found))
    } else {
        Ok(None)
    }
}
