//! Declarations and formulas: what they make, and each refusal with its byte.

ghost use Rattle.std.specs.Prelude.{◌≡◌, ◌<◌, ◌≤◌, ◌+◌, ◌^◌, OnOk};
ghost use Rattle.leo_elab.specs.Table.{AreNamesOf};
ghost use Rattle.leo_elab.specs.Declaring.{AreConstantsNamed};
ghost use Rattle.leo_terms.specs.Contents.{start};

use super::{ElabRefusal, Names, declare, elaborate};
use leo_items::{Boxed, Items};
use leo_syntax::{Node, Tree, TypeNode, TypeTree, TypeWord};
use leo_terms::{Bank, Op, View};
use std::alloc::{AllocError, Global};
use std::test::Fail;

fn word(byte: u32, word: TypeWord) -> TypeTree {
    TypeTree {
        byte,
        node: TypeNode::Base(word),
    }
}

fn atom(alloc: Global, byte: u32, name: &[u8]) -> Result<Tree, AllocError> {
    let name = Items::from_slice(alloc, name)?;
    Ok(Tree {
        byte,
        node: Node::Atom(name),
    })
}

/// `~ NAME`, at bytes 0 and 2.
fn negation(alloc: Global, name: &[u8]) -> Result<Tree, AllocError> {
    let operand = atom(alloc, 2, name)?;
    Ok(Tree {
        byte: 0,
        node: Node::Not(Boxed::new(alloc, operand)?),
    })
}

/// A constant p of truth values and a constant k of things.
fn two_constants(alloc: Global, bank: &mut Bank, names: &mut Names) -> Result<(), ElabRefusal>
    requires names { AreNamesOf bank.old names.old }
    requires constants { AreConstantsNamed bank.old names.old }
    requires room { bank.old.bases < 2 ^ 31 }
    ensures names { OnOk result (AreNamesOf bank.new names.new) }
    ensures constants { OnOk result (AreConstantsNamed bank.new names.new) }
    ensures room { bank.new.bases ≤ bank.old.bases + 2 }
{
    declare(alloc, bank, names, b"p", 4, &word(7, TypeWord::Truth))?;
    declare(
        alloc,
        bank,
        names,
        b"k",
        12,
        &word(15, TypeWord::Individual),
    )?;
    Ok(())
}

/// Whether `~ p` becomes Not of the symbol of p.
fn a_negation_is_made(alloc: Global, bank: &mut Bank) -> Result<bool, ElabRefusal>
    requires { bank.old ≡ start }
{
    let mut names = Names::new(alloc);
    two_constants(alloc, bank, &mut names)?;
    let tree = negation(alloc, b"p")?;
    let t = elaborate(alloc, bank, &names, &tree)?;
    match bank.view(t) {
        View::Logic(Op::Not, Some(x), None) => Ok(matches!(bank.view(x), View::Sym(_))),
        _ => Ok(false),
    }
}

/// What the elaboration of `~ NAME` answers.
fn refusal_of(alloc: Global, bank: &mut Bank, name: &[u8]) -> Result<(), ElabRefusal>
    requires { bank.old ≡ start }
{
    let mut names = Names::new(alloc);
    two_constants(alloc, bank, &mut names)?;
    let tree = negation(alloc, name)?;
    elaborate(alloc, bank, &names, &tree)?;
    Ok(())
}

#[test]
fn negations_are_made(rt: HostRuntime) -> Result<(), Fail> {
    let mut bank = Bank::new(rt.alloc())?;
    let made = a_negation_is_made(rt.alloc(), &mut bank);
    assert_eq!(rt; made, Ok(true));
    Ok(())
}

#[test]
fn an_operand_must_be_a_formula(rt: HostRuntime) -> Result<(), Fail> {
    let mut bank = Bank::new(rt.alloc())?;
    let refused = refusal_of(rt.alloc(), &mut bank, b"k");
    assert_eq!(rt; refused, Err(ElabRefusal::WrongType { byte: 2 }));
    Ok(())
}

#[test]
fn an_atom_must_be_declared(rt: HostRuntime) -> Result<(), Fail> {
    let mut bank = Bank::new(rt.alloc())?;
    let refused = refusal_of(rt.alloc(), &mut bank, b"z");
    assert_eq!(rt; refused, Err(ElabRefusal::Unknown { byte: 2 }));
    Ok(())
}
