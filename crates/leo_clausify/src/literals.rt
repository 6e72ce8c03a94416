//! New literals and clauses.

ghost use Rattle.std.specs.Prelude.{◌≡◌, ◌+◌, ◌<◌, ◌∷◌, ◌++◌, [], length, map, take, drop, IfOk};
ghost use Rattle.leo_terms.specs.Contents.{Extends, IsTerm, tree_at, type_at};
ghost use Rattle.leo_terms.specs.Tree.{app, variable};
ghost use Rattle.leo_clause.specs.Trees.{literal_at};
ghost use Rattle.leo_clause.specs.Typed.{AreLiteralsOf};
ghost use Rattle.leo_kernel.specs.Shapes.{truth_tree, valued as valued_tree};
ghost use Rattle.leo_kernel.specs.Tops.{IsPropertyOf};
ghost use Rattle.leo_clausify.specs.Literals.{AreLiterals, IsLiteral};
ghost use Rattle.leo_clausify.specs.Splitting.{normal_literal};

use leo_clause::{Clause, Lit};
use leo_items::Items;
use leo_terms::{Bank, Op, TermId, TyId};
use std::alloc::{AllocError, Global};

/// T or F.
pub(crate) fn truth(bank: &mut Bank, value: bool) -> Result<TermId, AllocError>
    ensures made { IfOk result (λ t. IsTerm bank.new t 0 (truth_tree value)) }
    ensures grows { Extends bank.old bank.new }
{
    if value {
        let t = bank.make_logic(Op::True, &[])?;
        Ok(t)
    } else {
        let t = bank.make_logic(Op::False, &[])?;
        Ok(t)
    }
}

/// `A = v`.
fn valued(bank: &mut Bank, a: TermId, value: bool) -> Result<Lit, AllocError>
    requires { a < length bank.old.terms }
    ensures made { IfOk result (λ l. IsLiteral bank.new l (valued_tree (tree_at bank.old a) value)) }
    ensures grows { Extends bank.old bank.new }
{
    let right = truth(bank, value)?;
    Ok(Lit {
        pos: true,
        left: a,
        right,
    })
}

/// `A = v` alone.
pub(crate) fn single(
    alloc: Global,
    bank: &mut Bank,
    a: TermId,
    value: bool,
) -> Result<Items<Lit>, AllocError>
    requires { a < length bank.old.terms }
    ensures made { IfOk result (λ ls. AreLiterals bank.new ls (valued_tree (tree_at bank.old a) value ∷ [])) }
    ensures grows { Extends bank.old bank.new }
{
    let lit = valued(bank, a, value)?;
    let mut new = Items::new(alloc);
    new.push(lit)?;
    Ok(new)
}

/// `A = v`, `B = w`.
pub(crate) fn double(
    alloc: Global,
    bank: &mut Bank,
    a: TermId,
    v: bool,
    b: TermId,
    w: bool,
) -> Result<Items<Lit>, AllocError>
    requires first { a < length bank.old.terms }
    requires second { b < length bank.old.terms }
    ensures made { IfOk result (λ ls. AreLiterals bank.new ls (valued_tree (tree_at bank.old a) v ∷ valued_tree (tree_at bank.old b) w ∷ [])) }
    ensures grows { Extends bank.old bank.new }
{
    let mut new = single(alloc, bank, a, v)?;
    let lit = valued(bank, b, w)?;
    new.push(lit)?;
    Ok(new)
}

/// `P X = v`, for the variable with this number.
pub(crate) fn applied(
    alloc: Global,
    bank: &mut Bank,
    number: u32,
    ty: TyId,
    property: TermId,
    value: bool,
) -> Result<Items<Lit>, AllocError>
    requires { IsPropertyOf bank.old ty property }
    ensures made { IfOk result (λ ls. AreLiterals bank.new ls (valued_tree (app (tree_at bank.old property) (variable number (type_at bank.old ty))) value ∷ [])) }
    ensures grows { Extends bank.old bank.new }
{
    let x = bank.make_var(number, ty)?;
    let whole = bank.make_app(property, x)?;
    let new = single(alloc, bank, whole, value)?;
    Ok(new)
}

/// A literal with both sides in normal form.
fn normal(bank: &mut Bank, lit: Lit) -> Result<Lit, AllocError>
    requires left { lit.left < length bank.old.terms }
    requires right { lit.right < length bank.old.terms }
    ensures made { IfOk result (λ l. IsLiteral bank.new l (normal_literal (literal_at bank.old lit))) }
    ensures grows { Extends bank.old bank.new }
{
    let left = bank.normal(lit.left)?;
    let right = bank.normal(lit.right)?;
    Ok(Lit {
        pos: lit.pos,
        left,
        right,
    })
}

/// Literals with all sides in normal form.
pub(crate) fn normalized(
    alloc: Global,
    bank: &mut Bank,
    lits: &[Lit],
) -> Result<Items<Lit>, AllocError>
    requires { AreLiteralsOf bank.old lits.now }
    ensures made { IfOk result (λ ls. AreLiterals bank.new ls (map normal_literal (map (literal_at bank.old) lits.now))) }
    ensures grows { Extends bank.old bank.new }
{
    bank.is_sound();
    let mut normals = Items::new(alloc);
    for lit in lits {
        let lit = normal(bank, *lit)?;
        normals.push(lit)?;
    }
    Ok(normals)
}

/// The clause with new literals in the place of one, and with variables more.
pub(crate) fn placed(
    alloc: Global,
    clause: &Clause,
    at: usize,
    fresh: &[TyId],
    new: &[Lit],
) -> Result<Clause, AllocError>
    requires { at < length clause.now.lits }
    ensures vars { IfOk result (λ c. c.vars ≡ clause.now.vars ++ fresh.now) }
    ensures lits { IfOk result (λ c. c.lits ≡ take at clause.now.lits ++ (new.now ++ drop (at + 1) clause.now.lits)) }
{
    let mut vars = Items::from_slice(alloc, clause.vars.as_slice())?;
    vars.append(Items::from_slice(alloc, fresh)?)?;
    let (front, _) = clause.lits.as_slice().split_at(at);
    let (_, rest) = clause.lits.as_slice().split_at(at + 1);
    let mut lits = Items::from_slice(alloc, front)?;
    lits.append(Items::from_slice(alloc, new)?)?;
    lits.append(Items::from_slice(alloc, rest)?)?;
    Ok(Clause { vars, lits })
}
