//! What statements assume.

ghost use Rattle.std.specs.Prelude.{◌≡◌, ◌≢◌, ◌++◌, ◌∷◌, [], map, None, OnOk, IfOk, IfErr};
ghost use Rattle.leo_elab.specs.Standing.{IsClosedFormula};
ghost use Rattle.leo_elab.specs.Table.{AreNamesOf, declared_in};
ghost use Rattle.leo_terms.specs.Contents.{Extends, tree_at};
ghost use Rattle.leo_terms.specs.Decode.{decoded};
ghost use Rattle.leo_problem.specs.declared.refusal.LoadRefusal.TheVariants.{Memory};
ghost use Rattle.leo_problem.specs.Loading.{AreClosedFormulas, hypothesis_in};
ghost use Rattle.leo_problem.specs.Roles.{role_of, assumed};
ghost use Rattle.leo_problem.specs.Steps.{AssumesTree, OffendsInTree, AssumesMore, OffendsThere};
ghost use Rattle.leo_problem.specs.Theories as theories;

use crate::gathered::Kept;
use crate::loaded::Hyp;
use crate::refusal::{LoadRefusal, refused_meaning};
use crate::roles::Role;
use leo_elab::{Names, elaborate};
use leo_items::Items;
use leo_syntax::{Statement, Tree};
use leo_terms::{Bank, Op, TermId};
use std::alloc::{AllocError, Global};

/// What a statement of that role assumes: its formula, or the negation of what is to be proved.
fn assume(bank: &mut Bank, role: Role, formula: TermId) -> Result<TermId, AllocError>
    requires { IsClosedFormula bank.old formula }
    ensures closed { IfOk result (IsClosedFormula bank.new) }
    ensures means { IfOk result (λ t. decoded 0 (tree_at bank.new t) ≡ assumed role (decoded 0 (tree_at bank.old formula))) }
    ensures grows { Extends bank.old bank.new }
{
    bank.is_sound();
    match role {
        Role::Conjecture => {
            let negation = bank.make_logic(Op::Not, &[formula])?;
            Ok(negation)
        }
        _ => Ok(formula),
    }
}

fn assume_tree(
    alloc: Global,
    bank: &mut Bank,
    names: &Names,
    file: &[u8],
    role: Role,
    tree: &Tree,
) -> Result<TermId, LoadRefusal>
    requires { AreNamesOf bank.old names.now }
    ensures closed { IfOk result (IsClosedFormula bank.new) }
    ensures means { IfOk result (λ t. AssumesTree (declared_in bank.old names.now) role tree.now (decoded 0 (tree_at bank.new t))) }
    ensures refusal { IfErr result (λ r. r ≢ Memory → OffendsInTree (declared_in bank.old names.now) file.now tree.now r) }
    ensures grows { Extends bank.old bank.new }
{
    match elaborate(alloc, bank, names, tree) {
        Ok(formula) => {
            let assumed = assume(bank, role, formula)?;
            Ok(assumed)
        }
        Err(refusal) => Err(refused_meaning(alloc, file, refusal)),
    }
}

fn hypothesis(
    alloc: Global,
    term: TermId,
    file: &[u8],
    name: &[u8],
    role: Role,
) -> Result<Hyp, AllocError>
    ensures { IfOk result (λ h. h ≡ record { term = term; file = file.now; name = name.now; role = role }) }
{
    let file = Items::from_slice(alloc, file)?;
    let name = Items::from_slice(alloc, name)?;
    Ok(Hyp {
        term,
        file,
        name,
        role,
    })
}

/// Appends what a statement assumes.
fn assume_statement(
    alloc: Global,
    bank: &mut Bank,
    names: &Names,
    one: &Kept,
    found: &mut Items<Hyp>,
) -> Result<(), LoadRefusal>
    requires names { AreNamesOf bank.old names.now }
    requires listed { theories.unlisted one.now.statement ≡ None }
    requires closed { AreClosedFormulas bank.old found.old }
    ensures closed { OnOk result (AreClosedFormulas bank.new found.new) }
    ensures assumes { OnOk result (AssumesMore (declared_in bank.old names.now) one.now (map (hypothesis_in bank.old) found.old) (map (hypothesis_in bank.new) found.new)) }
    ensures refusal { IfErr result (λ r. r ≢ Memory → OffendsThere (declared_in bank.old names.now) one.now r) }
    ensures grows { Extends bank.old bank.new }
{
    bank.is_sound();
    match &one.statement {
        Statement::Formula {
            name,
            role,
            tree,
            ..
        } => {
            let Some(role) = Role::of_word(role.as_slice()) else {
                unreachable!()
            };
            let term = assume_tree(alloc, bank, names, one.file.as_slice(), role, tree)?;
            let next = hypothesis(alloc, term, one.file.as_slice(), name.as_slice(), role)?;
            found.push(next)?;
            Ok(())
        }
        Statement::Typing { .. } => Ok(()),
        Statement::Include { .. } => Ok(()),
    }
}

/// What statements assume, in order.
pub fn hypotheses(
    alloc: Global,
    bank: &mut Bank,
    names: &Names,
    kept: &[Kept],
) -> Result<Items<Hyp>, LoadRefusal>
    requires names { AreNamesOf bank.old names.now }
    requires listed { theories.unlisted_role kept.now ≡ None }
    ensures closed { IfOk result (AreClosedFormulas bank.new) }
    ensures hypotheses { IfOk result (λ hs. theories.AreHypotheses (declared_in bank.old names.now) kept.now (map (hypothesis_in bank.new) hs)) }
    ensures refusal { IfErr result (λ r. r ≢ Memory → theories.OffendsInFormulas (declared_in bank.old names.now) kept.now r) }
    ensures grows { Extends bank.old bank.new }
{
    bank.is_sound();
    let mut found = Items::new(alloc);
    for one in kept {
        assume_statement(alloc, bank, names, one, &mut found)?;
    }
    Ok(found)
}
