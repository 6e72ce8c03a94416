//! What is done with one pair: the first case that applies.

ghost use Rattle.std.specs.Prelude.{◌≡◌, ◌<◌, ◌&&◌, ◌||◌, not, length, map, IfOk, Some, None, unwrap_or};
ghost use Rattle.std.specs.Option.{option_map};
ghost use Rattle.leo_q0.specs.Terms.{same_type};
ghost use Rattle.leo_terms.specs.Contents.{Extends, tree_at, type_at};
ghost use Rattle.leo_terms.specs.Tree.{truth_type, type_of, variable};
ghost use Rattle.leo_clause.specs.Typed.{AreTypesOf};
ghost use Rattle.leo_unify.specs.Acts.{Act, act as act_of, act_on_heads as act_of_heads, act_on_sides as act_of_sides, branching, solved as solved_act, stay, stripped as stripped_act, tried as tried_act};
ghost use Rattle.leo_unify.specs.Contexts.{IsPairIn};
ghost use Rattle.leo_unify.specs.Spines.{is_rigid, is_variable as is_variable_tree};
ghost use Rattle.leo_unify.specs.Views.{act_at, pair_at, IsActOf, IsOptionalActOf};

use crate::binding::Binding;
use crate::cover::{abstracted, is_covered, rebound};
use crate::guesses::{FEW, bindings};
use crate::heads::domains;
use crate::pairs::{Pair, one_pair, paired};
use crate::pattern::pattern_of;
use crate::spine::{body_of, head, is_flex, is_variable};
use leo_items::Items;
use leo_terms::{Bank, DEPTH, TermId, TyId, View};
use std::alloc::{AllocError, Global};

/// What is done with a pair.
#[derive(Drop)]
pub(crate) enum Act {
    /// No case applies.
    Stay,
    /// These pairs take its place.
    Replace(Items<Pair>),
    /// A variable is bound.
    Bind(Binding),
    /// There is no solution.
    Refuse,
    /// A variable is bound in one of these ways, which are tried in this order.
    Branch(Items<Binding>),
}

/// Two lambdas: the binder of both is stripped.
fn stripped(alloc: Global, bank: &Bank, pair: &Pair) -> Result<Option<Act>, AllocError>
    requires left { pair.now.left < length bank.now.terms }
    requires right { pair.now.right < length bank.now.terms }
    ensures value { IfOk result (λ a. option_map (act_at bank.now) a ≡ stripped_act (tree_at bank.now pair.now.left) (tree_at bank.now pair.now.right)) }
    ensures within { IfOk result (IsOptionalActOf bank.now) }
{
    match body_of(bank, pair.left) {
        Some(left) => match body_of(bank, pair.right) {
            Some(right) => {
                let pairs = one_pair(alloc, left, right)?;
                Ok(Some(Act::Replace(pairs)))
            }
            None => Ok(None),
        },
        None => Ok(None),
    }
}

/// A variable with different indices as arguments becomes the other side as a function of these, if it does not occur there
/// and no other index does.
fn solved(
    alloc: Global,
    bank: &mut Bank,
    vars: &[TyId],
    side: TermId,
    other: TermId,
) -> Result<Option<Act>, AllocError>
    requires side { side < length bank.old.terms }
    requires other { other < length bank.old.terms }
    requires typed { IsPairIn (map (type_at bank.old) vars.now) (record { left = tree_at bank.old side; right = tree_at bank.old other }) }
    ensures value { IfOk result (λ a. option_map (act_at bank.new) a ≡ solved_act (tree_at bank.old side) (tree_at bank.old other)) }
    ensures within { IfOk result (IsOptionalActOf bank.new) }
    ensures grows { Extends bank.old bank.new }
{
    bank.is_sound();
    let _ = vars;
    let found = pattern_of(alloc, bank, side)?;
    match found {
        Some(pattern) => {
            let covered = is_covered(
                bank,
                pattern.number,
                pattern.order.as_slice(),
                other,
                0,
                DEPTH,
            )?;
            if !covered {
                return Ok(None);
            }
            let body = rebound(bank, pattern.order.as_slice(), other, 0, DEPTH)?;
            let term = abstracted(bank, pattern.types.as_slice(), body)?;
            Ok(Some(Act::Bind(Binding {
                number: pattern.number,
                fresh: Items::new(alloc),
                term,
            })))
        }
        None => Ok(None),
    }
}

/// Whether both sides are rigid and of a type other than that of truth values.
fn clashes(bank: &Bank, l: TermId, r: TermId) -> bool
    requires left { l < length bank.now.terms }
    requires right { r < length bank.now.terms }
    ensures { result ≡ (is_rigid (tree_at bank.now l) && (is_rigid (tree_at bank.now r) && not (same_type (type_of (tree_at bank.now l)) truth_type))) }
{
    bank.is_sound();
    if is_flex(bank, l) {
        return false;
    }
    if is_flex(bank, r) {
        return false;
    }
    bank.type_of(l) != TyId::truth()
}

/// What is done with a variable at the head of a flex side, and the head of the other side, which is rigid.
fn guessed(
    alloc: Global,
    bank: &mut Bank,
    vars: &[TyId],
    depth: u8,
    number: u32,
    ty: TyId,
    rigid: TermId,
) -> Result<Act, AllocError>
    requires ty { ty < length bank.old.types }
    requires rigid { rigid < length bank.old.terms }
    ensures value { IfOk result (λ a. act_at bank.new a ≡ tried_act (length vars.now) depth (variable number (type_at bank.old ty)) (tree_at bank.old rigid)) }
    ensures within { IfOk result (IsActOf bank.new) }
    ensures grows { Extends bank.old bank.new }
{
    bank.is_sound();
    if depth == 0 {
        return Ok(Act::Refuse);
    }
    let outer = domains(alloc, bank, ty)?;
    if outer.len() > FEW {
        return Ok(Act::Refuse);
    }
    let Ok(next) = u32::try_from(vars.len()) else {
        return Err(AllocError);
    };
    let found = bindings(alloc, bank, number, ty, outer, next, rigid)?;
    Ok(Act::Branch(found))
}

/// What is done with a flex side's head, and the head of the other side, which is rigid.
fn tried(
    alloc: Global,
    bank: &mut Bank,
    vars: &[TyId],
    depth: u8,
    flex: TermId,
    rigid: TermId,
) -> Result<Act, AllocError>
    requires flex { flex < length bank.old.terms }
    requires rigid { rigid < length bank.old.terms }
    ensures value { IfOk result (λ a. act_at bank.new a ≡ tried_act (length vars.now) depth (tree_at bank.old flex) (tree_at bank.old rigid)) }
    ensures within { IfOk result (IsActOf bank.new) }
    ensures grows { Extends bank.old bank.new }
{
    bank.is_sound();
    let ty = bank.type_of(flex);
    match bank.view(flex) {
        View::Var(number) => guessed(alloc, bank, vars, depth, number, ty, rigid),
        View::Bound(_) => Ok(Act::Refuse),
        View::Sym(_) => Ok(Act::Refuse),
        View::App(_, _) => Ok(Act::Refuse),
        View::Lam(_, _) => Ok(Act::Refuse),
        View::Logic(_, _, _) => Ok(Act::Refuse),
    }
}

/// What is done with two sides whose heads are no reason for another case.
fn act_on_flex(
    alloc: Global,
    bank: &mut Bank,
    vars: &[TyId],
    depth: u8,
    pair: Pair,
) -> Result<Act, AllocError>
    requires left { pair.left < length bank.old.terms }
    requires right { pair.right < length bank.old.terms }
    ensures value { IfOk result (λ a. act_at bank.new a ≡ unwrap_or (branching (length vars.now) depth (tree_at bank.old pair.left) (tree_at bank.old pair.right)) stay) }
    ensures within { IfOk result (IsActOf bank.new) }
    ensures grows { Extends bank.old bank.new }
{
    bank.is_sound();
    let left = is_flex(bank, pair.left);
    let right = is_flex(bank, pair.right);
    if left == right {
        return Ok(Act::Stay);
    }
    let first = head(bank, pair.left);
    let second = head(bank, pair.right);
    if left {
        let act = tried(alloc, bank, vars, depth, first, second)?;
        Ok(act)
    } else {
        let act = tried(alloc, bank, vars, depth, second, first)?;
        Ok(act)
    }
}

/// What is done with two sides of which none is a variable that could be bound.
fn act_on_heads(
    alloc: Global,
    bank: &mut Bank,
    vars: &[TyId],
    depth: u8,
    pair: Pair,
) -> Result<Act, AllocError>
    requires left { pair.left < length bank.old.terms }
    requires right { pair.right < length bank.old.terms }
    ensures value { IfOk result (λ a. act_at bank.new a ≡ act_of_heads (length vars.now) depth (tree_at bank.old pair.left) (tree_at bank.old pair.right)) }
    ensures within { IfOk result (IsActOf bank.new) }
    ensures grows { Extends bank.old bank.new }
{
    bank.is_sound();
    let found = paired(alloc, bank, pair.left, pair.right, DEPTH)?;
    match found {
        Some(pairs) => Ok(Act::Replace(pairs)),
        None => {
            if clashes(bank, pair.left, pair.right) {
                return Ok(Act::Refuse);
            }
            let act = act_on_flex(alloc, bank, vars, depth, pair)?;
            Ok(act)
        }
    }
}

/// Whether one of the sides is a variable alone.
fn is_stuck(bank: &Bank, l: TermId, r: TermId) -> bool
    requires left { l < length bank.now.terms }
    requires right { r < length bank.now.terms }
    ensures { result ≡ (is_variable_tree (tree_at bank.now l) || is_variable_tree (tree_at bank.now r)) }
{
    let left = is_variable(bank, l);
    let right = is_variable(bank, r);
    left || right
}

/// What is done with two sides that are not equal and not both lambdas.
fn act_on_sides(
    alloc: Global,
    bank: &mut Bank,
    vars: &[TyId],
    depth: u8,
    pair: Pair,
) -> Result<Act, AllocError>
    requires left { pair.left < length bank.old.terms }
    requires right { pair.right < length bank.old.terms }
    requires vars { AreTypesOf bank.old vars.now }
    requires typed { IsPairIn (map (type_at bank.old) vars.now) (pair_at bank.old pair) }
    ensures value { IfOk result (λ a. act_at bank.new a ≡ act_of_sides (length vars.now) depth (tree_at bank.old pair.left) (tree_at bank.old pair.right)) }
    ensures within { IfOk result (IsActOf bank.new) }
    ensures grows { Extends bank.old bank.new }
{
    bank.is_sound();
    let first = solved(alloc, bank, vars, pair.left, pair.right)?;
    match first {
        Some(act) => Ok(act),
        None => {
            let second = solved(alloc, bank, vars, pair.right, pair.left)?;
            match second {
                Some(act) => Ok(act),
                None => {
                    if is_stuck(bank, pair.left, pair.right) {
                        return Ok(Act::Refuse);
                    }
                    let act = act_on_heads(alloc, bank, vars, depth, pair)?;
                    Ok(act)
                }
            }
        }
    }
}

/// What is done with a pair over variables of these types, where `depth` branches may still follow.
pub(crate) fn act_on(
    alloc: Global,
    bank: &mut Bank,
    vars: &[TyId],
    depth: u8,
    pair: Pair,
) -> Result<Act, AllocError>
    requires left { pair.left < length bank.old.terms }
    requires right { pair.right < length bank.old.terms }
    requires vars { AreTypesOf bank.old vars.now }
    requires typed { IsPairIn (map (type_at bank.old) vars.now) (pair_at bank.old pair) }
    ensures value { IfOk result (λ a. act_at bank.new a ≡ act_of (length vars.now) depth (tree_at bank.old pair.left) (tree_at bank.old pair.right)) }
    ensures within { IfOk result (IsActOf bank.new) }
    ensures grows { Extends bank.old bank.new }
{
    bank.is_sound();
    let found = stripped(alloc, bank, &pair)?;
    match found {
        Some(act) => Ok(act),
        None => {
            if pair.left == pair.right {
                return Ok(Act::Replace(Items::new(alloc)));
            }
            let act = act_on_sides(alloc, bank, vars, depth, pair)?;
            Ok(act)
        }
    }
}
