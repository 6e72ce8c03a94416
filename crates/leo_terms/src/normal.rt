//! The beta-normal, eta-long form, by putting normal terms into normal terms and reducing at once.

ghost use Rattle.std.specs.Prelude.{[], ◌≡◌, ◌+◌, ◌^◌, ◌<◌, ◌≤◌, ◌⊎◌, ℕ, length, slice_get, IfOk, OnOk, OnErr, IfErr, Some, None, true};
ghost use Rattle.leo_terms.specs.Tree.{IsBoundAt};
ghost use Rattle.leo_terms.specs.Reduction.{IsNormal, IsNeutral};
ghost use Rattle.leo_terms.specs.Normal.{HasNormalForm, IsNormalFormOf, IsExpansionOf, IsNormalArgumentOf, IsPut, IsPutArgument};
ghost use Rattle.leo_terms.specs.Contents.{IsSound, Extends, Grows, IsArgumentBelow, argument, type_at, type_number, tree_at};

use crate::bank::Bank;
use crate::memo::{DEPTH, deeper};
use crate::node::{Op, TermId, TyView, View};
use std::alloc::AllocError;

impl Bank {
    /// The normal term `t` with the normal term `s` put in for the index `k`, in normal form. A head with
    /// normal arguments serves as `t` too.
    #[cycle(put)]
    fn put(&mut self, t: TermId, k: u64, s: TermId, room: u32) -> Result<TermId, AllocError>
        requires within { t < length self.old.terms }
        requires put_within { s < length self.old.terms }
        requires deep { k + t < 2 ^ 64 }
        requires typed { IsBoundAt k (type_at self.old (type_number self.old s)) (tree_at self.old t) }
        requires form { IsNeutral (tree_at self.old t) ⊎ IsNormal (tree_at self.old t) }
        requires normal { IsNormal (tree_at self.old s) }
        ensures made { IfOk result (IsPut self.old self.new t k s) }
        ensures grows { Grows self.old self.new }
    {
        let _ = &self.terms;
        let room = deeper(room)?;
        match self.known_put(t, k, s) {
            Some(r) => Ok(r),
            None => {
                let r = self.put_parts(t, k, s, room)?;
                self.keep_put(t, k, s, r)?;
                Ok(r)
            }
        }
    }

    /// The same, by the parts of `t`.
    #[cycle(put)]
    fn put_parts(&mut self, t: TermId, k: u64, s: TermId, room: u32) -> Result<TermId, AllocError>
        requires within { t < length self.old.terms }
        requires put_within { s < length self.old.terms }
        requires deep { k + t < 2 ^ 64 }
        requires typed { IsBoundAt k (type_at self.old (type_number self.old s)) (tree_at self.old t) }
        requires form { IsNeutral (tree_at self.old t) ⊎ IsNormal (tree_at self.old t) }
        requires normal { IsNormal (tree_at self.old s) }
        ensures made { IfOk result (IsPut self.old self.new t k s) }
        ensures grows { Grows self.old self.new }
    {
        let ty = self.ty_of(t);
        match self.top(t) {
            View::Var(_) => Ok(t),
            View::Sym(_) => Ok(t),
            View::Bound(index) => {
                let place = u64::from(index);
                if place < k {
                    return Ok(t);
                }
                if place == k {
                    let r = self.lift_from(s, 0, index, room)?;
                    return Ok(r);
                }
                let r = self.numbered(View::Bound(index - 1), ty)?;
                Ok(r)
            }
            View::App(f, a) => {
                let f = self.put(f, k, s, room)?;
                let a = self.put(a, k, s, room)?;
                match self.top(f) {
                    View::Lam(_, body) => {
                        let r = self.put(body, 0, a, room)?;
                        Ok(r)
                    }
                    _ => {
                        let r = self.numbered(View::App(f, a), ty)?;
                        Ok(r)
                    }
                }
            }
            View::Lam(a, body) => {
                let body = self.put(body, k + 1, s, room)?;
                let r = self.numbered(View::Lam(a, body), ty)?;
                Ok(r)
            }
            View::Logic(op, x, y) => {
                let x = self.put_argument(x, k, s, room)?;
                let y = self.put_argument(y, k, s, room)?;
                let r = self.numbered(View::Logic(op, x, y), ty)?;
                Ok(r)
            }
        }
    }

    #[cycle(put)]
    fn put_argument(
        &mut self,
        x: Option<TermId>,
        k: u64,
        s: TermId,
        room: u32,
    ) -> Result<Option<TermId>, AllocError>
        requires within { IsArgumentBelow (length self.old.terms) x }
        requires put_within { s < length self.old.terms }
        requires deep { (t : ℕ) → x ≡ Some t → k + t < 2 ^ 64 }
        requires typed { IsBoundAt k (type_at self.old (type_number self.old s)) (argument (tree_at self.old) x) }
        requires form { IsNormal (argument (tree_at self.old) x) }
        requires normal { IsNormal (tree_at self.old s) }
        ensures made { IfOk result (IsPutArgument self.old self.new x k s) }
        ensures grows { Grows self.old self.new }
    {
        let _ = &self.terms;
        match x {
            Some(t) => {
                let r = self.put(t, k, s, room)?;
                Ok(Some(r))
            }
            None => Ok(None),
        }
    }

    /// The eta-long form of a head with normal arguments.
    #[cycle(expand)]
    fn expand(&mut self, t: TermId, room: u32) -> Result<TermId, AllocError>
        requires within { t < length self.old.terms }
        requires form { IsNeutral (tree_at self.old t) }
        ensures made { IfOk result (IsExpansionOf self.old self.new t) }
        ensures grows { Grows self.old self.new }
    {
        let _ = &self.terms;
        let room = deeper(room)?;
        match self.known_expansion(t) {
            Some(r) => Ok(r),
            None => {
                let r = self.expand_parts(t, room)?;
                self.keep_expansion(t, r)?;
                Ok(r)
            }
        }
    }

    #[cycle(expand)]
    fn expand_parts(&mut self, t: TermId, room: u32) -> Result<TermId, AllocError>
        requires within { t < length self.old.terms }
        requires form { IsNeutral (tree_at self.old t) }
        ensures made { IfOk result (IsExpansionOf self.old self.new t) }
        ensures grows { Grows self.old self.new }
    {
        let ty = self.ty_of(t);
        match self.ty_node(ty) {
            TyView::Base(_) => Ok(t),
            TyView::Arrow(a, b) => {
                let raised = self.lift_from(t, 0, 1, room)?;
                let x = self.loose(0, a)?;
                let x = self.expand(x, room)?;
                let body = self.numbered(View::App(raised, x), b)?;
                let body = self.expand(body, room)?;
                let r = self.numbered(View::Lam(a, body), ty)?;
                Ok(r)
            }
        }
    }

    /// The beta-normal, eta-long form of a term. The law of normal forms says that it is equal to the term by a derivation in Q0.
    pub fn normal(&mut self, t: TermId) -> Result<TermId, AllocError>
        requires { t < length self.old.terms }
        ensures made { IfOk result (HasNormalForm self.old self.new t) }
        ensures grows { Extends self.old self.new }
    {
        self.forget();
        self.normalize(t, DEPTH)
    }

    /// The same, going at most `room` levels down.
    #[cycle(normalize)]
    fn normalize(&mut self, t: TermId, room: u32) -> Result<TermId, AllocError>
        requires { t < length self.old.terms }
        ensures made { IfOk result (IsNormalFormOf self.old self.new t) }
        ensures grows { Grows self.old self.new }
    {
        let _ = &self.terms;
        let room = deeper(room)?;
        match self.known_normal(t) {
            Some(r) => Ok(r),
            None => {
                let r = self.normalize_parts(t, room)?;
                self.keep_normal(t, r)?;
                Ok(r)
            }
        }
    }

    #[cycle(normalize)]
    fn normalize_parts(&mut self, t: TermId, room: u32) -> Result<TermId, AllocError>
        requires { t < length self.old.terms }
        ensures made { IfOk result (IsNormalFormOf self.old self.new t) }
        ensures grows { Grows self.old self.new }
    {
        let ty = self.ty_of(t);
        match self.top(t) {
            View::Var(_) => {
                let r = self.expand(t, room)?;
                Ok(r)
            }
            View::Sym(_) => {
                let r = self.expand(t, room)?;
                Ok(r)
            }
            View::Bound(_) => {
                let r = self.expand(t, room)?;
                Ok(r)
            }
            View::App(f, a) => {
                let f = self.normalize(f, room)?;
                let a = self.normalize(a, room)?;
                match self.top(f) {
                    View::Lam(_, body) => {
                        let r = self.put(body, 0, a, room)?;
                        Ok(r)
                    }
                    _ => unreachable!(),
                }
            }
            View::Lam(a, body) => {
                let body = self.normalize(body, room)?;
                let r = self.numbered(View::Lam(a, body), ty)?;
                Ok(r)
            }
            View::Logic(op, x, y) => {
                let x = self.normalize_argument(x, room)?;
                let y = self.normalize_argument(y, room)?;
                let r = self.numbered(View::Logic(op, x, y), ty)?;
                let r = self.expand(r, room)?;
                Ok(r)
            }
        }
    }

    #[cycle(normalize)]
    fn normalize_argument(
        &mut self,
        x: Option<TermId>,
        room: u32,
    ) -> Result<Option<TermId>, AllocError>
        requires { IsArgumentBelow (length self.old.terms) x }
        ensures made { IfOk result (IsNormalArgumentOf self.old self.new x) }
        ensures grows { Grows self.old self.new }
    {
        let _ = &self.terms;
        match x {
            Some(t) => {
                let r = self.normalize(t, room)?;
                Ok(Some(r))
            }
            None => Ok(None),
        }
    }
}
