//! Raising loose indices.

ghost use Rattle.std.specs.Prelude.{◌≡◌, ◌+◌, ◌^◌, ◌<◌, ◌≤◌, ℕ, length, slice_get, IfOk, OnOk, OnErr, IfErr, Some, None, true};
ghost use Rattle.leo_terms.specs.Tree.{lifted, raised};
ghost use Rattle.leo_terms.specs.Contents.{IsSound, Extends, Grows, IsTerm, IsArgumentBelow, IsArgumentTerm, argument, argument_type, type_number, tree_at};

use crate::bank::Bank;
use crate::memo::{DEPTH, deeper};
use crate::node::{TermId, View};
use std::alloc::AllocError;

impl Bank {
    /// The term with its loose indices raised by `by`. An index that does not fit is want of memory.
    pub fn lift(&mut self, t: TermId, by: u32) -> Result<TermId, AllocError>
        requires { t < length self.old.terms }
        ensures made { IfOk result (λ r. IsTerm self.new r (type_number self.old t) (raised by (tree_at self.old t))) }
        ensures grows { Extends self.old self.new }
    {
        self.forget();
        self.lift_from(t, 0, by, DEPTH)
    }

    /// The term with its indices from `from` on raised by `by`, going at most `room` levels down.
    #[cycle(lift)]
    pub(crate) fn lift_from(
        &mut self,
        t: TermId,
        from: u64,
        by: u32,
        room: u32,
    ) -> Result<TermId, AllocError>
        requires within { t < length self.old.terms }
        requires deep { from + t < 2 ^ 64 }
        ensures made { IfOk result (λ r. IsTerm self.new r (type_number self.old t) (lifted from by (tree_at self.old t))) }
        ensures grows { Grows self.old self.new }
    {
        let _ = &self.terms;
        if self.facts_at(t).loose <= from {
            return Ok(t);
        }
        let room = deeper(room)?;
        match self.known_lift(t, from, by) {
            Some(r) => Ok(r),
            None => {
                let r = self.lift_parts(t, from, by, room)?;
                self.keep_lift(t, from, by, r)?;
                Ok(r)
            }
        }
    }

    /// The same, by the parts of the term.
    #[cycle(lift)]
    fn lift_parts(&mut self, t: TermId, from: u64, by: u32, room: u32) -> Result<TermId, AllocError>
        requires within { t < length self.old.terms }
        requires deep { from + t < 2 ^ 64 }
        ensures made { IfOk result (λ r. IsTerm self.new r (type_number self.old t) (lifted from by (tree_at self.old t))) }
        ensures grows { Grows self.old self.new }
    {
        let ty = self.ty_of(t);
        match self.top(t) {
            View::Var(_) => Ok(t),
            View::Sym(_) => Ok(t),
            View::Bound(index) => {
                if u64::from(index) < from {
                    return Ok(t);
                }
                let Some(raised) = index.checked_add(by) else {
                    return Err(AllocError);
                };
                let r = self.numbered(View::Bound(raised), ty)?;
                Ok(r)
            }
            View::App(f, a) => {
                let f = self.lift_from(f, from, by, room)?;
                let a = self.lift_from(a, from, by, room)?;
                let r = self.numbered(View::App(f, a), ty)?;
                Ok(r)
            }
            View::Lam(a, body) => {
                let body = self.lift_from(body, from + 1, by, room)?;
                let r = self.numbered(View::Lam(a, body), ty)?;
                Ok(r)
            }
            View::Logic(op, x, y) => {
                let x = self.lift_argument(x, from, by, room)?;
                let y = self.lift_argument(y, from, by, room)?;
                let r = self.numbered(View::Logic(op, x, y), ty)?;
                Ok(r)
            }
        }
    }

    #[cycle(lift)]
    fn lift_argument(
        &mut self,
        x: Option<TermId>,
        from: u64,
        by: u32,
        room: u32,
    ) -> Result<Option<TermId>, AllocError>
        requires within { IsArgumentBelow (length self.old.terms) x }
        requires deep { (t : ℕ) → x ≡ Some t → from + t < 2 ^ 64 }
        ensures made { IfOk result (λ r. IsArgumentTerm self.new r (argument_type self.old x) (lifted from by (argument (tree_at self.old) x))) }
        ensures grows { Grows self.old self.new }
    {
        let _ = &self.terms;
        match x {
            Some(t) => {
                let r = self.lift_from(t, from, by, room)?;
                Ok(Some(r))
            }
            None => Ok(None),
        }
    }
}
