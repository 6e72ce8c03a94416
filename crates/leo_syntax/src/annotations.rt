//! Reading annotations. They nest without bound, so the brackets that are open stand in a list.

ghost use Rattle.std.specs.Prelude.{◌≡◌, ◌<◌, ◌≤◌, ◌^◌, length, IfOk};
ghost use Rattle.std.specs.Bool.{OnTrue};
ghost use Rattle.leo_syntax.specs.Grammar as grammar;
ghost use Rattle.leo_syntax.specs.Reading as spec;
ghost use Rattle.leo_syntax.specs.Reading.{Gives, Steps};
ghost use Rattle.leo_syntax.specs.Source.{ahead, end_of};

use crate::classes::{Bracket, Shape, same_shape};
use crate::refusal::ReadRefusal;
use crate::source::Source;
use leo_lex::Mark;
use std::alloc::Global;
use std::collections::LinkedList;

fn is_closing(bracket: Bracket) -> bool
    ensures { result ≡ grammar.is_closing bracket }
{
    matches!(bracket, Bracket::Closes(_))
}

/// Passes a token of annotations, or answers false at the bracket that closes their statement.
/// `due` has the brackets that are open, the last first.
#[tactic(auto, using(crate::proofs::AnnotationSteps::annotated_next, crate::proofs::AnnotationSteps::annotated_none))]
fn step(
    source: &Source<'_>,
    at: &mut usize,
    due: &mut LinkedList<Shape>,
) -> Result<bool, ReadRefusal>
    requires { length source.now.bytes.now < 2 ^ 32 }
    ensures steps { Steps (end_of source.now) due.old (ahead source.now at.old) result due.new (ahead source.now at.new) }
    ensures forward { at.old ≤ at.new }
    ensures progress { IfOk result (λ more. OnTrue more ((at.old < at.new) × (at.old < length source.now.tokens.now))) }
{
    if *at >= source.tokens.len() {
        return Err(source.no_form(*at));
    }
    match source.bracket(*at) {
        Bracket::Opens(shape) => due.push_front(shape)?,
        Bracket::Closes(shape) => match due.pop_front() {
            Some(wanted) => {
                if !same_shape(shape, wanted) {
                    return Err(source.no_form(*at));
                }
            }
            None => match shape {
                Shape::Round => return Ok(false),
                Shape::Square | Shape::Curly => return Err(source.no_form(*at)),
            },
        },
        Bracket::Plain => {}
    }
    source.pass(at);
    Ok(true)
}

/// Annotations, up to the bracket that closes their statement.
#[tactic(auto, unfolding(crate::specs::Reading::annotation))]
fn annotation(alloc: Global, source: &Source<'_>, at: &mut usize) -> Result<(), ReadRefusal>
    requires { length source.now.bytes.now < 2 ^ 32 }
    ensures gives { Gives (spec.annotation (end_of source.now) (ahead source.now at.old)) result (ahead source.now at.new) }
    ensures forward { at.old ≤ at.new }
{
    if is_closing(source.bracket(*at)) {
        return Err(source.no_form(*at));
    }
    let mut due = LinkedList::new(alloc);
    'annotations: loop {
        let more = step(source, at, &mut due)?;
        if !more {
            return Ok(());
        }
    }
}

/// Annotations behind a body, where there are some.
#[tactic(auto, unfolding(crate::specs::Reading::annotations))]
pub fn annotations(alloc: Global, source: &Source<'_>, at: &mut usize) -> Result<(), ReadRefusal>
    requires { length source.now.bytes.now < 2 ^ 32 }
    ensures gives { Gives (spec.annotations (end_of source.now) (ahead source.now at.old)) result (ahead source.now at.new) }
    ensures forward { at.old ≤ at.new }
{
    if source.eat(at, Mark::Comma) {
        annotation(alloc, source, at)?;
    }
    Ok(())
}
