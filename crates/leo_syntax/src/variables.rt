//! Reading the variables of a binder. `left` says how many levels there are for their types.

ghost use Rattle.std.specs.Prelude.{◌≡◌, ◌<◌, ◌≤◌, ◌^◌, length, OnOk};
ghost use Rattle.leo_syntax.specs.Reading as spec;
ghost use Rattle.leo_syntax.specs.Reading.{Gives};
ghost use Rattle.leo_syntax.specs.Source.{ahead, end_of};

use crate::classes::Says;
use crate::refusal::ReadRefusal;
use crate::source::Source;
use crate::tree::Variable;
use crate::types::read_type;
use leo_items::Items;
use leo_lex::Mark;
use std::alloc::Global;

#[tactic(auto, unfolding(crate::specs::Reading::variable))]
fn read_variable(
    alloc: Global,
    source: &Source<'_>,
    at: &mut usize,
    left: usize,
) -> Result<Variable, ReadRefusal>
    requires { length source.now.bytes.now < 2 ^ 32 }
    ensures gives { Gives (spec.variable (end_of source.now) left (ahead source.now at.old)) result (ahead source.now at.new) }
    ensures forward { at.old ≤ at.new }
    ensures progress { OnOk result (at.old < at.new) }
    ensures within { OnOk result (at.old < length source.now.tokens.now) }
{
    let name = source.say(alloc, at, Says::Upper)?;
    source.expect(at, Mark::Colon)?;
    let ty = read_type(alloc, source, at, left)?;
    Ok(Variable { name, ty })
}

/// The variables of a binder, up to the bracket behind them.
pub fn variables(
    alloc: Global,
    source: &Source<'_>,
    at: &mut usize,
    left: usize,
) -> Result<Items<Variable>, ReadRefusal>
    requires { length source.now.bytes.now < 2 ^ 32 }
    ensures gives { Gives (spec.variables (length (ahead source.now at.old)) (end_of source.now) left (ahead source.now at.old)) result (ahead source.now at.new) }
    ensures forward { at.old ≤ at.new }
{
    let mut found = Items::new(alloc);
    'variables: loop {
        let variable = read_variable(alloc, source, at, left)?;
        found.push(variable)?;
        if !source.eat(at, Mark::Comma) {
            return Ok(found);
        }
    }
}
