//! Terms of a bank, made of terms that may not fit.

ghost use Rattle.std.specs.Prelude.{◌≡◌, ◌<◌, ◌++◌, ◌∷◌, [], ℕ, List, length, IfOk};
ghost use Rattle.leo_terms.specs.Tree.{IsBoundAt};
ghost use Rattle.leo_terms.specs.Contents.{Extends, HasTypeBelow, tree_at, type_at};
ghost use Rattle.leo_clause.specs.Typed.{AreTypesOf};
ghost use Rattle.leo_tstp.specs.Built.{IsBuilt};

use crate::refusal::Stop;
use leo_terms::{Bank, Op, TermId, TyId};

/// A function applied to an argument.
pub(crate) fn applied(bank: &mut Bank, f: TermId, x: TermId) -> Result<TermId, Stop>
    requires function { f < length bank.old.terms }
    requires argument { x < length bank.old.terms }
    ensures built { IfOk result (λ t. (vs s : List ℕ) → IsBuilt bank.old vs s f → IsBuilt bank.old vs s x → IsBuilt bank.new vs s t) }
    ensures grows { Extends bank.old bank.new }
{
    bank.is_sound();
    if !bank.is_applicable(f, x) {
        return Err(Stop::Refused);
    }
    let t = bank.make_app(f, x)?;
    Ok(t)
}

/// A lambda over a body.
pub(crate) fn lambda(bank: &mut Bank, ty: TyId, body: TermId) -> Result<TermId, Stop>
    requires from { ty < length bank.old.types }
    requires body { body < length bank.old.terms }
    requires typed { IsBoundAt 0 (type_at bank.old ty) (tree_at bank.old body) }
    ensures built { IfOk result (λ t. (vs s : List ℕ) → AreTypesOf bank.old s → IsBuilt bank.old vs (s ++ ty ∷ []) body → IsBuilt bank.new vs s t) }
    ensures grows { Extends bank.old bank.new }
{
    let t = bank.make_lam(ty, body)?;
    Ok(t)
}

/// A logical constant without arguments.
pub(crate) fn alone(bank: &mut Bank, op: &Op) -> Result<TermId, Stop>
    requires { HasTypeBelow (length bank.old.types) op.now }
    ensures built { IfOk result (λ t. (vs s : List ℕ) → AreTypesOf bank.old vs → AreTypesOf bank.old s → IsBuilt bank.new vs s t) }
    ensures grows { Extends bank.old bank.new }
{
    bank.is_sound();
    if !bank.accepts(*op, &[]) {
        return Err(Stop::Refused);
    }
    let t = bank.make_logic(*op, &[])?;
    Ok(t)
}

/// A logical constant of one argument.
pub(crate) fn with_one(bank: &mut Bank, op: &Op, x: TermId) -> Result<TermId, Stop>
    requires op { HasTypeBelow (length bank.old.types) op.now }
    requires argument { x < length bank.old.terms }
    ensures built { IfOk result (λ t. (vs s : List ℕ) → IsBuilt bank.old vs s x → IsBuilt bank.new vs s t) }
    ensures grows { Extends bank.old bank.new }
{
    bank.is_sound();
    if !bank.accepts(*op, &[x]) {
        return Err(Stop::Refused);
    }
    let t = bank.make_logic(*op, &[x])?;
    Ok(t)
}

/// A logical constant of two arguments.
pub(crate) fn with_two(bank: &mut Bank, op: &Op, x: TermId, y: TermId) -> Result<TermId, Stop>
    requires op { HasTypeBelow (length bank.old.types) op.now }
    requires first { x < length bank.old.terms }
    requires second { y < length bank.old.terms }
    ensures built { IfOk result (λ t. (vs s : List ℕ) → IsBuilt bank.old vs s x → IsBuilt bank.old vs s y → IsBuilt bank.new vs s t) }
    ensures grows { Extends bank.old bank.new }
{
    bank.is_sound();
    if !bank.accepts(*op, &[x, y]) {
        return Err(Stop::Refused);
    }
    let t = bank.make_logic(*op, &[x, y])?;
    Ok(t)
}
