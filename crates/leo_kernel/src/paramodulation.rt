//! Replacing equals by equals in another clause.

ghost use Rattle.std.specs.Prelude.{[], ◌∷◌, ◌++◌, ◌≡◌, ◌<◌, IfOk, IsSomeAnd, Some, length, map, slice_get, true};
ghost use Rattle.std.specs.Bool.{Decides};
ghost use Rattle.leo_terms.specs.Contents.{Extends, tree_at};
ghost use Rattle.leo_clause.specs.Trees.{clause_at, literal_at};
ghost use Rattle.leo_clause.specs.Typed.{AreLiteralsOf, IsClauseOf, IsTyped};
ghost use Rattle.leo_kernel.specs.ByNumber.{other_side_number};
ghost use Rattle.leo_kernel.specs.Conclusions.{paramodulant, with_literals, without};
ghost use Rattle.leo_kernel.specs.Conditions.{LeadsTo};
ghost use Rattle.leo_kernel.specs.Moved.{joined};
ghost use Rattle.leo_kernel.specs.Places.{replaced_in, subterm as subterm_of};
ghost use Rattle.leo_kernel.specs.Shapes.{other_side_of as other_side_of_tree, side_of as side_of_tree, unequal};

use crate::compare::{is_appended, is_followed, is_replaced};
use crate::conditions::side_of;
use crate::fresh::next_variable;
use crate::given::are_declared;
use crate::moving::moved_lits;
use crate::places::subterm;
use crate::replacing::is_replaced_in;
use leo_clause::{Clause, Lit, Side};
use leo_terms::{Bank, TermId};
use std::alloc::{AllocError, Global};

/// The side of a literal that is not named.
fn other_side_of(lit: Lit, side: Side) -> TermId
    ensures { result ≡ other_side_number side lit }
{
    match side {
        Side::Left => lit.right,
        Side::Right => lit.left,
    }
}

/// Whether literals are those of a clause without one, behind them those of another with a new one in the place of one,
/// and a last one.
fn is_joined(
    source: &[Lit],
    place: usize,
    target: &[Lit],
    target_place: usize,
    new: Lit,
    last: Lit,
    lits: &[Lit],
) -> bool
    requires place { place < length source.now }
    requires target_place { target_place < length target.now }
    ensures { Decides result (lits.now ≡ joined source.now place target.now target_place new last) }
{
    let kept = source.len() - 1;
    if lits.len() < kept {
        return false;
    }
    let (front, back) = lits.split_at(kept);
    if !is_replaced(source, place, &[], front) {
        return false;
    }
    is_followed(target, target_place, &[new], &[last], back)
}

/// Whether literals are those of a paramodulant, where those of the target are moved already.
fn joins(
    bank: &Bank,
    source: &[Lit],
    place: usize,
    lit: &Lit,
    side: Side,
    target: &[Lit],
    target_place: usize,
    target_side: Side,
    path: &[u8],
    lits: &[Lit],
) -> bool
    requires source { AreLiteralsOf bank.now source.now }
    requires place { place < length source.now }
    requires left { lit.now.left < length bank.now.terms }
    requires right { lit.now.right < length bank.now.terms }
    requires target { AreLiteralsOf bank.now target.now }
    requires target_place { target_place < length target.now }
    requires lits { AreLiteralsOf bank.now lits.now }
    requires leads { IsSomeAnd (slice_get (map (literal_at bank.now) target.now) target_place) (λ k. LeadsTo path.now (side_of_tree target_side k)) }
    ensures { Decides result (IsSomeAnd (slice_get (map (literal_at bank.now) target.now) target_place) (λ k. IsSomeAnd (subterm_of path.now (side_of_tree target_side k)) (λ t. map (literal_at bank.now) lits.now ≡ without (map (literal_at bank.now) source.now) place ++ (with_literals (map (literal_at bank.now) target.now) target_place (replaced_in target_side path.now (other_side_of_tree side (literal_at bank.now lit.now)) k ∷ []) ++ unequal (side_of_tree side (literal_at bank.now lit.now)) t ∷ [])))) }
{
    bank.is_sound();
    let old = &target[target_place];
    let new_place = source.len() - 1 + target_place;
    if lits.len() <= new_place {
        return false;
    }
    let new = &lits[new_place];
    let by = other_side_of(*lit, side);
    if !is_replaced_in(bank, old, target_side, path, by, new) {
        return false;
    }
    let whole = side_of(*old, target_side);
    match subterm(bank, whole, path) {
        Some(right) => {
            let left = side_of(*lit, side);
            let last = Lit {
                pos: false,
                left,
                right,
            };
            is_joined(source, place, target, target_place, *new, last, lits)
        }
        None => false,
    }
}

/// `C, l = r` and `D` with `t` at a path in one of its literals `⊢ C, D` with `r` there, `l ≠ t`, where the variables of
/// D are moved behind those of C.
pub(crate) fn paramodulates(
    alloc: Global,
    bank: &mut Bank,
    source: &Clause,
    place: usize,
    lit: Lit,
    side: Side,
    target: &Clause,
    target_place: usize,
    target_lit: Lit,
    target_side: Side,
    path: &[u8],
    step: &Clause,
) -> Result<bool, AllocError>
    requires source { IsClauseOf bank.old source.now }
    requires place { place < length source.now.lits }
    requires left { lit.left < length bank.old.terms }
    requires right { lit.right < length bank.old.terms }
    requires target { IsClauseOf bank.old target.now }
    requires target_place { target_place < length target.now.lits }
    requires there { slice_get (map (literal_at bank.old) target.now.lits) target_place ≡ Some (literal_at bank.old target_lit) }
    requires leads { LeadsTo path.now (side_of_tree target_side (literal_at bank.old target_lit)) }
    requires step { IsClauseOf bank.old step.now }
    requires typed { IsTyped (clause_at bank.old step.now) }
    ensures value { IfOk result (λ b. Decides b (IsSomeAnd (subterm_of path.now (side_of_tree target_side (literal_at bank.old target_lit))) (λ t. (lit.pos ≡ true) × (clause_at bank.old step.now ≡ paramodulant (clause_at bank.old source.now) place (literal_at bank.old lit) side (clause_at bank.old target.now) target_place (literal_at bank.old target_lit) target_side path.now t)))) }
    ensures grows { Extends bank.old bank.new }
{
    bank.is_sound();
    if !lit.pos {
        return Ok(false);
    }
    let types = target.vars.as_slice();
    if !is_appended(source.vars.as_slice(), types, step.vars.as_slice()) {
        return Ok(false);
    }
    let declared = are_declared(alloc, bank, types, target.lits.as_slice())?;
    if !declared {
        return Ok(false);
    }
    let first = next_variable(source.vars.as_slice())?;
    let moved = moved_lits(alloc, bank, first, types, target.lits.as_slice())?;
    Ok(joins(
        bank,
        source.lits.as_slice(),
        place,
        &lit,
        side,
        moved.as_slice(),
        target_place,
        target_side,
        path,
        step.lits.as_slice(),
    ))
}
