//! Whether terms may be put together.

ghost use Rattle.std.specs.Prelude.{◌≡◌, ◌↔◌, ◌<◌, ℕ, IsTrue, Some, length, slice_get};
ghost use Rattle.leo_terms.specs.Contents.{HasTypeBelow, IsApplicable, IsArgumentBelow, IsBank, IsMissing, IsOfType, IsProperty, Takes, argument_type, operator_type};
ghost use Rattle.leo_terms.specs.Accepting.{AreAccepted};

use crate::bank::{Bank, argument_at};
use crate::node::{Op, TermId, TyId, TyView};

impl Bank {
    /// Whether a function may be applied to an argument, so that `make_app` may be called.
    pub fn is_applicable(&self, f: TermId, a: TermId) -> bool
        requires function { f < length self.now.terms }
        requires argument { a < length self.now.terms }
        ensures typed { IsTrue result ↔ IsApplicable self.now f a }
        ensures sound { IsBank self.now }
    {
        self.is_sound();
        match self.ty_node(self.ty_of(f)) {
            TyView::Arrow(from, _) => from == self.ty_of(a),
            TyView::Base(_) => false,
        }
    }

    /// Whether a logical constant takes these arguments, so that `make_logic` may be called.
    pub fn accepts(&self, op: Op, args: &[TermId]) -> bool
        requires within { (k x : ℕ) → slice_get args.now k ≡ Some x → x < length self.now.terms }
        ensures typed { IsTrue result ↔ AreAccepted self.now op args.now }
        ensures sound { IsBank self.now }
    {
        self.is_sound();
        let first = argument_at(args, 0);
        let second = argument_at(args, 1);
        args.len() <= 2 && self.takes(op, first, second)
    }

    /// The same of at most two arguments.
    fn takes(&self, op: Op, first: Option<TermId>, second: Option<TermId>) -> bool
        requires first { IsArgumentBelow (length self.now.terms) first }
        requires second { IsArgumentBelow (length self.now.terms) second }
        ensures { IsTrue result ↔ Takes self.now op (argument_type self.now first) (argument_type self.now second) (operator_type op) }
    {
        let truth = TyId::truth();
        match op {
            Op::True => self.is_missing(first) && self.is_missing(second),
            Op::False => self.is_missing(first) && self.is_missing(second),
            Op::Not => self.has_type(first, truth) && self.is_missing(second),
            Op::Or => self.has_type(first, truth) && self.has_type(second, truth),
            Op::And => self.has_type(first, truth) && self.has_type(second, truth),
            Op::Imp => self.has_type(first, truth) && self.has_type(second, truth),
            Op::Eq(ty) => self.has_type(first, ty) && self.has_type(second, ty),
            Op::All(ty) => self.is_property(first, ty) && self.is_missing(second),
            Op::Some(ty) => self.is_property(first, ty) && self.is_missing(second),
            Op::Eps(ty) => self.is_property(first, ty) && self.is_missing(second),
        }
    }

    fn is_missing(&self, x: Option<TermId>) -> bool
        ensures { IsTrue result ↔ IsMissing (argument_type self.now x) }
    {
        x.is_none()
    }

    /// Whether an argument stands there and has this type.
    fn has_type(&self, x: Option<TermId>, ty: TyId) -> bool
        requires { IsArgumentBelow (length self.now.terms) x }
        ensures { IsTrue result ↔ IsOfType (argument_type self.now x) ty }
    {
        match x {
            Some(t) => self.ty_of(t) == ty,
            None => false,
        }
    }

    /// Whether an argument stands there and is a property of things of this type.
    fn is_property(&self, x: Option<TermId>, ty: TyId) -> bool
        requires { IsArgumentBelow (length self.now.terms) x }
        ensures { IsTrue result ↔ IsProperty self.now (argument_type self.now x) ty }
    {
        match x {
            Some(t) => self.ty_node(self.ty_of(t)) == TyView::Arrow(ty, TyId::truth()),
            None => false,
        }
    }
}
