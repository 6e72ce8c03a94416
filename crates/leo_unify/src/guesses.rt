//! The ways in which a variable may be bound by a guess.

ghost use Rattle.std.specs.Prelude.{◌≡◌, ◌&&◌, ◌++◌, ◌∷◌, [], ◌<◌, if◌then◌else◌, length, map, IfOk, true};
ghost use Rattle.std.specs.Option.{option_map};
ghost use Rattle.leo_q0.specs.Terms.{same_type};
ghost use Rattle.leo_terms.specs.Contents.{Extends, tree_at, type_at};
ghost use Rattle.leo_terms.specs.Tree.{type_of};
ghost use Rattle.leo_clause.specs.Typed.{AreTypesOf};
ghost use Rattle.leo_unify.specs.Acts.{binders as binders_of, bindings as bindings_of, domains, imitations, projections as projections_of, result_type as result_of, taken_by as taken_of, takes_few, with_head as with_head_of};
ghost use Rattle.leo_unify.specs.Heads.{is_head, listed, listed_bindings, IsFrameOf, IsIndexedHead};
ghost use Rattle.leo_unify.specs.Views.{binding_at, AreBindingsOf, IsBindingOf};

use crate::binding::{Binding, Frame};
use crate::bodies::{binders, fresh, function_of, headed};
use crate::heads::{is_constant, result_type, taken_by};
use leo_items::Items;
use leo_terms::{Bank, TermId, TyId};
use std::alloc::{AllocError, Global};

/// How many arguments a head takes at most, and a variable that is bound by a guess.
pub(crate) const FEW: usize = 8;

/// The variable becomes a function whose body has this head, which takes arguments of these types.
fn with_head(
    alloc: Global,
    bank: &mut Bank,
    frame: &Frame,
    h: TermId,
    taken: &[TyId],
) -> Result<Binding, AllocError>
    requires frame { IsFrameOf bank.old frame.now }
    requires within { h < length bank.old.terms }
    requires head { is_head (tree_at bank.old h) ≡ true }
    requires types { AreTypesOf bank.old taken.now }
    requires taken { map (type_at bank.old) taken.now ≡ taken_of (tree_at bank.old h) }
    requires indexed { IsIndexedHead (map (type_at bank.old) frame.now.outer) (tree_at bank.old h) }
    ensures value { IfOk result (λ b. binding_at bank.new b ≡ with_head_of frame.now.number (map (type_at bank.old) frame.now.outer) frame.now.next (tree_at bank.old h)) }
    ensures within { IfOk result (IsBindingOf bank.new) }
    ensures grows { Extends bank.old bank.new }
{
    let fresh = fresh(alloc, bank, frame, taken)?;
    let body = headed(bank, h, fresh.values.as_slice())?;
    let term = function_of(bank, frame.outer.as_slice(), body)?;
    Ok(Binding {
        number: frame.number,
        fresh: fresh.types,
        term,
    })
}

/// The same, if the head takes at most eight arguments.
fn if_few(
    alloc: Global,
    bank: &mut Bank,
    frame: &Frame,
    h: TermId,
) -> Result<Option<Binding>, AllocError>
    requires frame { IsFrameOf bank.old frame.now }
    requires within { h < length bank.old.terms }
    requires head { is_head (tree_at bank.old h) ≡ true }
    requires indexed { IsIndexedHead (map (type_at bank.old) frame.now.outer) (tree_at bank.old h) }
    ensures value { IfOk result (λ b. listed (option_map (binding_at bank.new) b) ≡ (if takes_few (tree_at bank.old h) then with_head_of frame.now.number (map (type_at bank.old) frame.now.outer) frame.now.next (tree_at bank.old h) ∷ [] else [])) }
    ensures within { IfOk result (λ b. AreBindingsOf bank.new (listed_bindings b)) }
    ensures grows { Extends bank.old bank.new }
{
    bank.is_sound();
    let taken = taken_by(alloc, bank, h)?;
    if taken.len() > FEW {
        return Ok(None);
    }
    let binding = with_head(alloc, bank, frame, h, taken.as_slice())?;
    Ok(Some(binding))
}

/// The binding by the head of the other side.
fn imitation(
    alloc: Global,
    bank: &mut Bank,
    frame: &Frame,
    h: TermId,
) -> Result<Option<Binding>, AllocError>
    requires frame { IsFrameOf bank.old frame.now }
    requires within { h < length bank.old.terms }
    ensures value { IfOk result (λ b. listed (option_map (binding_at bank.new) b) ≡ imitations frame.now.number (map (type_at bank.old) frame.now.outer) frame.now.next (tree_at bank.old h)) }
    ensures within { IfOk result (λ b. AreBindingsOf bank.new (listed_bindings b)) }
    ensures grows { Extends bank.old bank.new }
{
    bank.is_sound();
    if !is_constant(bank, h) {
        return Ok(None);
    }
    let binding = if_few(alloc, bank, frame, h)?;
    Ok(binding)
}

/// The binding by one of the arguments, if it ends in this type.
fn projection(
    alloc: Global,
    bank: &mut Bank,
    frame: &Frame,
    result_ty: TyId,
    x: TermId,
) -> Result<Option<Binding>, AllocError>
    requires frame { IsFrameOf bank.old frame.now }
    requires ends { result_ty < length bank.old.types }
    requires within { x < length bank.old.terms }
    requires head { is_head (tree_at bank.old x) ≡ true }
    requires indexed { IsIndexedHead (map (type_at bank.old) frame.now.outer) (tree_at bank.old x) }
    ensures value { IfOk result (λ b. listed (option_map (binding_at bank.new) b) ≡
        (if same_type (result_of (type_of (tree_at bank.old x))) (type_at bank.old result_ty) && takes_few (tree_at bank.old x) then with_head_of frame.now.number (map (type_at bank.old) frame.now.outer) frame.now.next (tree_at bank.old x) ∷ [] else [])) }
    ensures within { IfOk result (λ b. AreBindingsOf bank.new (listed_bindings b)) }
    ensures grows { Extends bank.old bank.new }
{
    bank.is_sound();
    let ty = bank.type_of(x);
    if result_type(bank, ty) != result_ty {
        return Ok(None);
    }
    let binding = if_few(alloc, bank, frame, x)?;
    Ok(binding)
}

/// These bindings and one more, if there is one.
fn and_optional(
    bindings: Items<Binding>,
    one: Option<Binding>,
) -> Result<Items<Binding>, AllocError>
    ensures { IfOk result (λ bs. bs ≡ bindings ++ listed_bindings one) }
{
    let mut all = bindings;
    match one {
        Some(binding) => {
            all.push(binding)?;
            Ok(all)
        }
        None => Ok(all),
    }
}

/// The bindings so far, and those by the arguments, from the first to the last.
fn and_projections(
    alloc: Global,
    bank: &mut Bank,
    frame: &Frame,
    result_ty: TyId,
    bindings: Items<Binding>,
) -> Result<Items<Binding>, AllocError>
    requires frame { IsFrameOf bank.old frame.now }
    requires ends { result_ty < length bank.old.types }
    requires within { AreBindingsOf bank.old bindings }
    ensures value { IfOk result (λ bs. map (binding_at bank.new) bs ≡
        map (binding_at bank.old) bindings ++ projections_of frame.now.number (map (type_at bank.old) frame.now.outer) frame.now.next (type_at bank.old result_ty) (binders_of (map (type_at bank.old) frame.now.outer))) }
    ensures within { IfOk result (AreBindingsOf bank.new) }
    ensures grows { Extends bank.old bank.new }
{
    bank.is_sound();
    let mut all = bindings;
    let binders = frame.binders.as_slice();
    for place in 0..binders.len() {
        let one = projection(alloc, bank, frame, result_ty, binders[place])?;
        all = and_optional(all, one)?;
    }
    Ok(all)
}

/// The ways in which a variable of this type, which takes arguments of the types `outer`, is bound where `h` is the head of the
/// rigid side and `next` the number of the next fresh variable.
pub(crate) fn bindings(
    alloc: Global,
    bank: &mut Bank,
    number: u32,
    ty: TyId,
    outer: Items<TyId>,
    next: u32,
    h: TermId,
) -> Result<Items<Binding>, AllocError>
    requires ty { ty < length bank.old.types }
    requires types { AreTypesOf bank.old outer }
    requires outer { map (type_at bank.old) outer ≡ domains (type_at bank.old ty) }
    requires within { h < length bank.old.terms }
    ensures value { IfOk result (λ bs. map (binding_at bank.new) bs ≡ bindings_of number (type_at bank.old ty) next (tree_at bank.old h)) }
    ensures within { IfOk result (AreBindingsOf bank.new) }
    ensures grows { Extends bank.old bank.new }
{
    bank.is_sound();
    let result_ty = result_type(bank, ty);
    let binders = binders(alloc, bank, outer.as_slice())?;
    let frame = Frame {
        number,
        outer,
        binders,
        next,
    };
    let first = imitation(alloc, bank, &frame, h)?;
    let bindings = and_optional(Items::new(alloc), first)?;
    let all = and_projections(alloc, bank, &frame, result_ty, bindings)?;
    Ok(all)
}
