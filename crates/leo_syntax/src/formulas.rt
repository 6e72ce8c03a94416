//! Reading formulas. `left` says how many levels there are from the part on.

ghost use Rattle.std.specs.Prelude.{suc, ◌≡◌, ◌≢◌, ◌+◌, ◌-◌, ◌++◌, ◌∷◌, [], ◌<◌, ◌≤◌, ◌^◌, length, IfOk, MatchResult};
ghost use Rattle.leo_syntax.specs.Grammar as grammar;
ghost use Rattle.leo_syntax.specs.Reading as spec;
ghost use Rattle.leo_syntax.specs.Reading.{Gives};
ghost use Rattle.leo_syntax.specs.Source.{ahead, end_of};
ghost use Rattle.leo_syntax.specs.declared.tree.Node.TheVariants.{Not, Join, Equal};

use crate::classes::{Class, Guard, Says, Symbol, Wanted};
use crate::refusal::ReadRefusal;
use crate::source::Source;
use crate::tree::{Binder, Connective, Node, Sign, Tree};
use crate::variables::variables;
use leo_items::{Boxed, Items};
use leo_lex::Mark;
use std::alloc::{AllocError, Global};

fn node_of(symbol: Symbol) -> Node
    ensures { result ≡ grammar.symbol_node symbol }
{
    match symbol {
        Symbol::True => Node::True,
        Symbol::False => Node::False,
        Symbol::Pi => Node::Pi,
        Symbol::Sigma => Node::Sigma,
        Symbol::Choice => Node::Choice,
    }
}

fn applied(alloc: Global, byte: u32, head: Tree, arguments: Items<Tree>) -> Result<Tree, AllocError>
    ensures { IfOk result (λ tree. tree ≡ grammar.applied byte head arguments) }
{
    if arguments.is_empty() {
        return Ok(head);
    }
    let head = Boxed::new(alloc, head)?;
    Ok(Tree {
        byte,
        node: Node::Apply(head, arguments),
    })
}

fn negated(alloc: Global, byte: u32, operand: Tree) -> Result<Tree, AllocError>
    ensures { IfOk result (λ tree. tree ≡ grammar.at_byte byte (Not operand)) }
{
    let operand = Boxed::new(alloc, operand)?;
    Ok(Tree {
        byte,
        node: Node::Not(operand),
    })
}

fn joined(
    alloc: Global,
    byte: u32,
    connective: Connective,
    left: Tree,
    right: Tree,
) -> Result<Tree, AllocError>
    ensures { IfOk result (λ tree. tree ≡ grammar.at_byte byte (Join connective left right)) }
{
    Ok(Tree {
        byte,
        node: Node::Join(
            connective,
            Boxed::new(alloc, left)?,
            Boxed::new(alloc, right)?,
        ),
    })
}

fn equal(
    alloc: Global,
    byte: u32,
    sign: Sign,
    sign_byte: u32,
    left: Tree,
    right: Tree,
) -> Result<Tree, AllocError>
    ensures { IfOk result (λ tree. tree ≡ grammar.at_byte byte (Equal sign sign_byte left right)) }
{
    Ok(Tree {
        byte,
        node: Node::Equal(
            sign,
            sign_byte,
            Boxed::new(alloc, left)?,
            Boxed::new(alloc, right)?,
        ),
    })
}

fn is_chain(connective: Connective) -> bool
    ensures { result ≡ grammar.is_chain connective }
{
    match connective {
        Connective::Or | Connective::And => true,
        _ => false,
    }
}

/// Whether a chain of that connective goes on.
fn continues(connective: Connective, class: Class) -> bool
    ensures { result ≡ grammar.continues connective class }
{
    match (connective, class) {
        (Connective::Or, Class::Join(Connective::Or)) => true,
        (Connective::And, Class::Join(Connective::And)) => true,
        _ => false,
    }
}

/// The levels that are left so many levels further in.
#[tactic(auto, using(crate::proofs::Bodies::body_deep))]
fn further_in(
    source: &Source<'_>,
    at: usize,
    left: usize,
    levels: usize,
) -> Result<usize, ReadRefusal>
    requires { length source.now.bytes.now < 2 ^ 32 }
    ensures { MatchResult result (λ beyond. left ≡ levels + beyond) (λ e. (left < levels) × (e ≡ spec.deep_at (end_of source.now) (ahead source.now at))) }
{
    if left < levels {
        Err(source.too_deep(at))
    } else {
        Ok(left - levels)
    }
}

/// A binder that has `left` levels, of which `beyond` are left behind it.
#[cycle(formula)]
fn bound(
    alloc: Global,
    source: &Source<'_>,
    at: &mut usize,
    left: usize,
    beyond: usize,
    binder: Binder,
) -> Result<Tree, ReadRefusal>
    requires { length source.now.bytes.now < 2 ^ 32 }
    ensures gives { Gives (spec.binder_with (end_of source.now) left (spec.body (end_of source.now) beyond) binder (ahead source.now at.old)) result (ahead source.now at.new) }
    ensures forward { at.old ≤ at.new }
{
    let byte = source.byte_at(*at);
    source.pass(at);
    source.expect(at, Mark::OpenSquare)?;
    let list = variables(alloc, source, at, left)?;
    source.expect(at, Mark::CloseSquare)?;
    source.expect(at, Mark::Colon)?;
    let tree = body(alloc, source, at, beyond, list.len().saturating_sub(1))?;
    let tree = Boxed::new(alloc, tree)?;
    Ok(Tree {
        byte,
        node: Node::Bind(binder, list, tree),
    })
}

#[cycle(formula)]
#[tactic(auto, using(crate::proofs::Bodies::body_within, crate::proofs::Bodies::body_deep))]
fn body(
    alloc: Global,
    source: &Source<'_>,
    at: &mut usize,
    left: usize,
    levels: usize,
) -> Result<Tree, ReadRefusal>
    requires { length source.now.bytes.now < 2 ^ 32 }
    ensures gives { Gives (spec.body (end_of source.now) left levels (ahead source.now at.old)) result (ahead source.now at.new) }
    ensures forward { at.old ≤ at.new }
{
    let beyond = further_in(source, *at, left, levels)?;
    let tree = unary(alloc, source, at, beyond)?;
    Ok(tree)
}

/// A negation, where `left` levels are left behind it.
#[cycle(formula)]
fn negation(
    alloc: Global,
    source: &Source<'_>,
    at: &mut usize,
    left: usize,
) -> Result<Tree, ReadRefusal>
    requires { length source.now.bytes.now < 2 ^ 32 }
    ensures gives { Gives (spec.negation_with (end_of source.now) (spec.unary (end_of source.now) left) (ahead source.now at.old)) result (ahead source.now at.new) }
    ensures forward { at.old ≤ at.new }
{
    let byte = source.byte_at(*at);
    source.pass(at);
    let operand = unary(alloc, source, at, left)?;
    let tree = negated(alloc, byte, operand)?;
    Ok(tree)
}

/// An item, where `left` levels are left behind it.
#[cycle(formula)]
#[tactic(auto, unfolding(crate::specs::Reading::item_with))]
fn item(
    alloc: Global,
    source: &Source<'_>,
    at: &mut usize,
    left: usize,
) -> Result<Tree, ReadRefusal>
    requires { length source.now.bytes.now < 2 ^ 32 }
    ensures gives { Gives (spec.item_with (end_of source.now) (spec.inside (end_of source.now) left) (ahead source.now at.old)) result (ahead source.now at.new) }
    ensures forward { at.old ≤ at.new }
{
    let byte = source.byte_at(*at);
    match source.class(*at) {
        Class::Atom => {
            let name = source.say(alloc, at, Says::Atom)?;
            source.guard(*at, Guard::BehindAtom)?;
            Ok(Tree {
                byte,
                node: Node::Atom(name),
            })
        }
        Class::Variable => {
            let name = source.say(alloc, at, Says::Upper)?;
            Ok(Tree {
                byte,
                node: Node::Var(name),
            })
        }
        Class::Symbol(symbol) => {
            source.pass(at);
            Ok(Tree {
                byte,
                node: node_of(symbol),
            })
        }
        Class::Open => {
            source.pass(at);
            let tree = inside(alloc, source, at, left, byte)?;
            Ok(tree)
        }
        _ => Err(source.refusal(*at, Wanted::Item)),
    }
}

/// The arguments of an application behind those that were found, the first of which has `left`
/// levels.
#[cycle(formula)]
#[tactic(auto, unfolding(crate::specs::Reading::unary))]
fn arguments(
    alloc: Global,
    source: &Source<'_>,
    at: &mut usize,
    left: usize,
    found: Items<Tree>,
) -> Result<Items<Tree>, ReadRefusal>
    requires { length source.now.bytes.now < 2 ^ 32 }
    ensures gives { Gives (spec.arguments (end_of source.now) left found (ahead source.now at.old)) result (ahead source.now at.new) }
    ensures forward { at.old ≤ at.new }
{
    match source.class(*at) {
        Class::Apply => {
            source.pass(at);
            let beyond = source.enter(*at, left)?;
            let all = argument(alloc, source, at, left, beyond, found)?;
            Ok(all)
        }
        _ => Ok(found),
    }
}

fn pushed(found: Items<Tree>, argument: Tree) -> Result<Items<Tree>, AllocError>
    ensures { IfOk result (λ all. all ≡ found ++ argument ∷ []) }
{
    let mut found = found;
    found.push(argument)?;
    Ok(found)
}

/// An argument and those behind it. The first has `left` levels, of which `beyond` are left behind
/// it.
#[cycle(formula)]
#[tactic(auto, unfolding(crate::specs::Reading::argument_with))]
fn argument(
    alloc: Global,
    source: &Source<'_>,
    at: &mut usize,
    left: usize,
    beyond: usize,
    found: Items<Tree>,
) -> Result<Items<Tree>, ReadRefusal>
    requires { length source.now.bytes.now < 2 ^ 32 }
    ensures gives { Gives (spec.argument_with (end_of source.now) left (spec.body (end_of source.now) beyond) (spec.inside (end_of source.now) beyond) (spec.arguments (end_of source.now) beyond) found (ahead source.now at.old)) result (ahead source.now at.new) }
    ensures forward { at.old ≤ at.new }
{
    match source.class(*at) {
        Class::Bind(binder) => {
            let tree = bound(alloc, source, at, left, beyond, binder)?;
            let all = pushed(found, tree)?;
            Ok(all)
        }
        _ => {
            let tree = item(alloc, source, at, beyond)?;
            let found = pushed(found, tree)?;
            let all = arguments(alloc, source, at, beyond, found)?;
            Ok(all)
        }
    }
}

/// An item and its arguments, where `left` levels are left behind the item.
#[cycle(formula)]
#[tactic(auto, unfolding(crate::specs::Reading::application_with))]
fn application(
    alloc: Global,
    source: &Source<'_>,
    at: &mut usize,
    left: usize,
) -> Result<Tree, ReadRefusal>
    requires { length source.now.bytes.now < 2 ^ 32 }
    ensures gives { Gives (spec.application_with (end_of source.now) (spec.inside (end_of source.now) left) (spec.arguments (end_of source.now) left) (ahead source.now at.old)) result (ahead source.now at.new) }
    ensures forward { at.old ≤ at.new }
{
    let byte = source.byte_at(*at);
    let head = item(alloc, source, at, left)?;
    let all = arguments(alloc, source, at, left, Items::new(alloc))?;
    let tree = applied(alloc, byte, head, all)?;
    Ok(tree)
}

/// The right side of an equation that has `left` levels, of which `beyond` are left behind it.
#[cycle(formula)]
fn side(
    alloc: Global,
    source: &Source<'_>,
    at: &mut usize,
    left: usize,
    beyond: usize,
) -> Result<Tree, ReadRefusal>
    requires { length source.now.bytes.now < 2 ^ 32 }
    ensures gives { Gives (spec.side_above (end_of source.now) left beyond (ahead source.now at.old)) result (ahead source.now at.new) }
    ensures forward { at.old ≤ at.new }
{
    match source.class(*at) {
        Class::Not => {
            let tree = negation(alloc, source, at, beyond)?;
            Ok(tree)
        }
        Class::Bind(binder) => {
            let tree = bound(alloc, source, at, left, beyond, binder)?;
            Ok(tree)
        }
        _ => {
            let tree = application(alloc, source, at, beyond)?;
            Ok(tree)
        }
    }
}

/// The equation of a left side, which began at `byte`, or that side alone.
#[cycle(formula)]
#[tactic(auto, unfolding(crate::specs::Reading::equation_with))]
fn equation(
    alloc: Global,
    source: &Source<'_>,
    at: &mut usize,
    left: usize,
    beyond: usize,
    byte: u32,
    first: Tree,
) -> Result<Tree, ReadRefusal>
    requires { length source.now.bytes.now < 2 ^ 32 }
    ensures gives { Gives (spec.equation_with (end_of source.now) (spec.side_above (end_of source.now) left beyond) byte first (ahead source.now at.old)) result (ahead source.now at.new) }
    ensures forward { at.old ≤ at.new }
{
    match source.class(*at) {
        Class::Equal(sign) => {
            let sign_byte = source.byte_at(*at);
            source.pass(at);
            let other = side(alloc, source, at, left, beyond)?;
            let tree = equal(alloc, byte, sign, sign_byte, first, other)?;
            Ok(tree)
        }
        _ => Ok(first),
    }
}

/// An application with the equation that it begins, which has `left` levels, of which `beyond` are
/// left behind it.
#[cycle(formula)]
fn term(
    alloc: Global,
    source: &Source<'_>,
    at: &mut usize,
    left: usize,
    beyond: usize,
) -> Result<Tree, ReadRefusal>
    requires { length source.now.bytes.now < 2 ^ 32 }
    ensures gives { Gives (spec.term_above (end_of source.now) left beyond (ahead source.now at.old)) result (ahead source.now at.new) }
    ensures forward { at.old ≤ at.new }
{
    let byte = source.byte_at(*at);
    let first = application(alloc, source, at, beyond)?;
    let tree = equation(alloc, source, at, left, beyond, byte, first)?;
    Ok(tree)
}

/// A negation, a binder, or an application with the equation that it begins.
#[cycle(formula)]
#[tactic(auto, unfolding(crate::specs::Reading::unary, crate::specs::Reading::unary_with))]
fn unary(
    alloc: Global,
    source: &Source<'_>,
    at: &mut usize,
    left: usize,
) -> Result<Tree, ReadRefusal>
    requires { length source.now.bytes.now < 2 ^ 32 }
    ensures gives { Gives (spec.unary (end_of source.now) left (ahead source.now at.old)) result (ahead source.now at.new) }
    ensures forward { at.old ≤ at.new }
{
    let beyond = source.enter(*at, left)?;
    match source.class(*at) {
        Class::Not => {
            let tree = negation(alloc, source, at, beyond)?;
            Ok(tree)
        }
        Class::Bind(binder) => {
            let tree = bound(alloc, source, at, left, beyond, binder)?;
            Ok(tree)
        }
        _ => {
            let tree = term(alloc, source, at, left, beyond)?;
            Ok(tree)
        }
    }
}

/// The operands of a chain from one on, as a tree that nests to the right.
#[cycle(formula)]
#[tactic(auto, unfolding(crate::specs::Reading::unary))]
fn operands(
    alloc: Global,
    source: &Source<'_>,
    at: &mut usize,
    left: usize,
    connective: Connective,
) -> Result<Tree, ReadRefusal>
    requires { length source.now.bytes.now < 2 ^ 32 }
    ensures gives { Gives (spec.operands (end_of source.now) left connective (ahead source.now at.old)) result (ahead source.now at.new) }
    ensures forward { at.old ≤ at.new }
{
    let beyond = source.enter(*at, left)?;
    let byte = source.byte_at(*at);
    let first = unary(alloc, source, at, left)?;
    if !continues(connective, source.class(*at)) {
        return Ok(first);
    }
    source.pass(at);
    let others = operands(alloc, source, at, beyond, connective)?;
    let tree = joined(alloc, byte, connective, first, others)?;
    Ok(tree)
}

/// What follows the first operand of a formula, which began at `byte` and has `left` levels.
#[cycle(formula)]
fn operators(
    alloc: Global,
    source: &Source<'_>,
    at: &mut usize,
    left: usize,
    beyond: usize,
    byte: u32,
    first: Tree,
) -> Result<Tree, ReadRefusal>
    requires levels { left ≡ suc beyond }
    requires short { length source.now.bytes.now < 2 ^ 32 }
    ensures gives { Gives (spec.operators_by (grammar.class_at (ahead source.now at.old)) (spec.unary (end_of source.now) left) (spec.operands (end_of source.now) beyond) byte first (ahead source.now at.old)) result (ahead source.now at.new) }
    ensures forward { at.old ≤ at.new }
{
    match source.class(*at) {
        Class::Join(connective) => {
            source.pass(at);
            let other = if is_chain(connective) {
                operands(alloc, source, at, beyond, connective)?
            } else {
                unary(alloc, source, at, left)?
            };
            let tree = joined(alloc, byte, connective, first, other)?;
            Ok(tree)
        }
        _ => Ok(first),
    }
}

/// A formula, for which `left` levels are left.
#[cycle(formula)]
#[tactic(auto, unfolding(crate::specs::Reading::unary))]
pub fn formula(
    alloc: Global,
    source: &Source<'_>,
    at: &mut usize,
    left: usize,
) -> Result<Tree, ReadRefusal>
    requires { length source.now.bytes.now < 2 ^ 32 }
    ensures gives { Gives (spec.formula (end_of source.now) left (ahead source.now at.old)) result (ahead source.now at.new) }
    ensures forward { at.old ≤ at.new }
{
    let beyond = source.enter(*at, left)?;
    let byte = source.byte_at(*at);
    let first = unary(alloc, source, at, left)?;
    let tree = operators(alloc, source, at, left, beyond, byte, first)?;
    Ok(tree)
}

/// What stands in brackets that began at `byte`, up to and with the bracket that closes them.
#[cycle(formula)]
#[tactic(auto, unfolding(crate::specs::Reading::unary))]
fn inside(
    alloc: Global,
    source: &Source<'_>,
    at: &mut usize,
    left: usize,
    byte: u32,
) -> Result<Tree, ReadRefusal>
    requires { length source.now.bytes.now < 2 ^ 32 }
    ensures gives { Gives (spec.inside (end_of source.now) left byte (ahead source.now at.old)) result (ahead source.now at.new) }
    ensures forward { at.old ≤ at.new }
{
    let _beyond = source.enter(*at, left)?;
    match source.class(*at) {
        Class::Not => {
            if source.closes_next(*at) {
                source.pass(at);
                source.pass(at);
                Ok(Tree {
                    byte,
                    node: Node::Negation,
                })
            } else {
                let tree = closed(alloc, source, at, left)?;
                Ok(tree)
            }
        }
        Class::Join(connective) => {
            source.pass(at);
            source.expect(at, Mark::CloseRound)?;
            Ok(Tree {
                byte,
                node: Node::Connective(connective),
            })
        }
        Class::Equal(_) => Err(source.equality(*at)),
        _ => {
            let tree = closed(alloc, source, at, left)?;
            Ok(tree)
        }
    }
}

/// A formula and the bracket that closes it.
#[cycle(formula)]
fn closed(
    alloc: Global,
    source: &Source<'_>,
    at: &mut usize,
    left: usize,
) -> Result<Tree, ReadRefusal>
    requires { length source.now.bytes.now < 2 ^ 32 }
    ensures gives { Gives (spec.closed (end_of source.now) (spec.formula (end_of source.now) left (ahead source.now at.old))) result (ahead source.now at.new) }
    ensures forward { at.old ≤ at.new }
{
    let tree = formula(alloc, source, at, left)?;
    source.expect(at, Mark::CloseRound)?;
    Ok(tree)
}
