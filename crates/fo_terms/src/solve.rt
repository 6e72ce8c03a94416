//! Equations are taken apart until one asks for a binding, or for one class of two.

ghost use Rattle.std.specs.Prelude.{◌≡◌, ◌<◌, ◌≤◌, ◌^◌, length, slice_get, IfOk, Some, All};
ghost use Rattle.fo_terms.specs.declared.term.FoNode.{FoNode};
ghost use Rattle.fo_terms.specs.Places.{terms_at, ArePlaces};
ghost use Rattle.fo_terms.specs.Bindings.{IsIndexed, AreMade, IsResolved};
ghost use Rattle.fo_terms.specs.Classes.{IsForest};
ghost use Rattle.fo_terms.specs.Solving.{IsMove, IsStep, IsSettled, IsWithin};

use crate::bindings::{Binding, Bindings, Equation};
use crate::classes::Classes;
use crate::places::Places;
use crate::term::FoNode;
use std::alloc::AllocError;

/// Equal symbols stand at two places: once their classes, which have these roots, are one, their
/// arguments are to be equal.
#[derive(Clone, Copy, Debug)]
pub(crate) struct Opening {
    pub(crate) left_root: usize,
    pub(crate) right_root: usize,
    pub(crate) arguments: Equation,
}

/// What an equation comes to: it was taken apart, has no solution, asks for a binding, or for one
/// class of two.
#[derive(Clone, Copy, Debug)]
pub(crate) enum Step {
    Split,
    Clash,
    Bind(Binding),
    Open(Opening),
}

/// Equal symbols stand at two places.
fn open(
    places: &Places,
    bindings: &Bindings,
    classes: &Classes,
    left: usize,
    right: usize,
    symbol: u32,
    arguments: u32,
) -> Step
    requires forest { IsForest classes.now.parents.items }
    requires as_long { length classes.now.parents.items ≡ length places.now.nodes.items }
    requires left { left < length places.now.nodes.items }
    requires right { right < length places.now.nodes.items }
    requires left_is { slice_get places.now.nodes.items left ≡ Some (FoNode.Sym symbol arguments) }
    requires right_is { slice_get places.now.nodes.items right ≡ Some (FoNode.Sym symbol arguments) }
    ensures { IsMove places.now.nodes.items bindings.now.made.items classes.now.parents.items left right result }
{
    let _length = places.nodes.len();
    let left_root = classes.root(left);
    let right_root = classes.root(right);
    if left_root == right_root {
        return Step::Split;
    }
    Step::Open(Opening {
        left_root,
        right_root,
        arguments: Equation {
            left: left + 1,
            right: right + 1,
            count: arguments,
        },
    })
}

/// Free variables stand at two places. The one with the larger number is bound, so that a row of
/// variables leads to its least one at once.
fn join_variables(
    places: &Places,
    bindings: &Bindings,
    classes: &Classes,
    left: (usize, u32),
    right: (usize, u32),
) -> Step
    requires left { left.0 < length places.now.nodes.items }
    requires right { right.0 < length places.now.nodes.items }
    requires left_is { slice_get places.now.nodes.items left.0 ≡ Some (FoNode.Var left.1) }
    requires right_is { slice_get places.now.nodes.items right.0 ≡ Some (FoNode.Var right.1) }
    requires left_resolved { IsResolved places.now.nodes.items bindings.now.made.items left.0 }
    requires right_resolved { IsResolved places.now.nodes.items bindings.now.made.items right.0 }
    ensures { IsMove places.now.nodes.items bindings.now.made.items classes.now.parents.items left.0 right.0 result }
{
    if left.1 == right.1 {
        return Step::Split;
    }
    if left.1 < right.1 {
        return Step::Bind(Binding {
            variable: right.1,
            place: left.0,
        });
    }
    Step::Bind(Binding {
        variable: left.1,
        place: right.0,
    })
}

/// The terms at two resolved places are to be equal.
fn compare(
    places: &Places,
    bindings: &Bindings,
    classes: &Classes,
    left: usize,
    right: usize,
) -> Step
    requires places { ArePlaces places.now.nodes.items places.now.ends.items }
    requires forest { IsForest classes.now.parents.items }
    requires as_long { length classes.now.parents.items ≡ length places.now.nodes.items }
    requires left { left < length places.now.nodes.items }
    requires right { right < length places.now.nodes.items }
    requires left_resolved { IsResolved places.now.nodes.items bindings.now.made.items left }
    requires right_resolved { IsResolved places.now.nodes.items bindings.now.made.items right }
    ensures { IsMove places.now.nodes.items bindings.now.made.items classes.now.parents.items left right result }
{
    match places.node(left) {
        FoNode::Var(variable) => match places.node(right) {
            FoNode::Var(other) => join_variables(
                places,
                bindings,
                classes,
                (left, variable),
                (right, other),
            ),
            FoNode::Sym(_, _) => Step::Bind(Binding {
                variable,
                place: right,
            }),
        },
        FoNode::Sym(symbol, arguments) => match places.node(right) {
            FoNode::Var(variable) => Step::Bind(Binding {
                variable,
                place: left,
            }),
            FoNode::Sym(other, others) => {
                if symbol != other || arguments != others {
                    return Step::Clash;
                }
                open(places, bindings, classes, left, right, symbol, arguments)
            }
        },
    }
}

/// Takes an equation apart at its first terms.
fn take_step(
    places: &Places,
    bindings: &Bindings,
    classes: &Classes,
    equation: Equation,
    work: &mut Vec<Equation>,
) -> Result<Step, AllocError>
    requires indexed { IsIndexed bindings.now.made.items bindings.now.numbers }
    requires bindings { AreMade places.now.nodes.items bindings.now.made.items }
    requires places { ArePlaces places.now.nodes.items places.now.ends.items }
    requires forest { IsForest classes.now.parents.items }
    requires as_long { length classes.now.parents.items ≡ length places.now.nodes.items }
    requires within { IsWithin places.now.nodes.items equation }
    ensures { IfOk result (λ step. IsStep places.now.nodes.items bindings.now.made.items classes.now.parents.items equation work.old.items work.new.items step) }
{
    if equation.count == 0 {
        return Ok(Step::Split);
    }
    work.push(Equation {
        left: places.behind(equation.left),
        right: places.behind(equation.right),
        count: equation.count - 1,
    })?;
    let left = bindings.resolve(places, equation.left);
    let right = bindings.resolve(places, equation.right);
    let step = compare(places, bindings, classes, left, right);
    Ok(step)
}

/// Takes equations apart until one asks for a binding, or for one class of two.
pub(crate) fn settle(
    places: &Places,
    bindings: &Bindings,
    classes: &Classes,
    work: &mut Vec<Equation>,
) -> Result<Step, AllocError>
    requires indexed { IsIndexed bindings.now.made.items bindings.now.numbers }
    requires bindings { AreMade places.now.nodes.items bindings.now.made.items }
    requires places { ArePlaces places.now.nodes.items places.now.ends.items }
    requires forest { IsForest classes.now.parents.items }
    requires as_long { length classes.now.parents.items ≡ length places.now.nodes.items }
    requires within { All (IsWithin places.now.nodes.items) work.old.items }
    ensures { IfOk result (λ step. IsSettled places.now.nodes.items bindings.now.made.items classes.now.parents.items work.old.items work.new.items step) }
{
    while let Some(equation) = work.pop() {
        let step = take_step(places, bindings, classes, equation, work)?;
        let Step::Split = step else {
            return Ok(step);
        };
    }
    Ok(Step::Split)
}
