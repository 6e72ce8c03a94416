//! Putting terms in for variables.

ghost use Rattle.std.specs.Prelude.{◌≡◌, ◌+◌, ◌^◌, ◌<◌, ◌≤◌, ℕ, length, slice_get, map, IfOk, Some};
ghost use Rattle.leo_terms.specs.Tree.{substituted, put_in, IsGiven};
ghost use Rattle.leo_terms.specs.Contents.{Extends, Grows, IsTerm, IsArgumentBelow, IsArgumentTerm, AreTerms, argument, argument_type, type_number, tree_at};

use crate::bank::Bank;
use crate::memo::{DEPTH, deeper};
use crate::node::{TermId, View};
use std::alloc::AllocError;

impl Bank {
    /// The term with `sigma[n]` put in for each variable with number `n`.
    pub fn subst(&mut self, t: TermId, sigma: &[TermId]) -> Result<TermId, AllocError>
        requires within { t < length self.old.terms }
        requires terms { AreTerms self.old sigma.now }
        requires given { IsGiven (map (tree_at self.old) sigma.now) (tree_at self.old t) }
        ensures made { IfOk result (λ r. IsTerm self.new r (type_number self.old t) (put_in (map (tree_at self.old) sigma.now) (tree_at self.old t))) }
        ensures grows { Extends self.old self.new }
    {
        self.subst_under(t, 0, sigma, DEPTH)
    }

    /// The same for a term that stands under `k` lambdas.
    #[cycle(subst)]
    fn subst_under(
        &mut self,
        t: TermId,
        k: u64,
        sigma: &[TermId],
        room: u32,
    ) -> Result<TermId, AllocError>
        requires within { t < length self.old.terms }
        requires deep { k + t < 2 ^ 64 }
        requires terms { AreTerms self.old sigma.now }
        requires given { IsGiven (map (tree_at self.old) sigma.now) (tree_at self.old t) }
        ensures made { IfOk result (λ r. IsTerm self.new r (type_number self.old t) (substituted (map (tree_at self.old) sigma.now) k (tree_at self.old t))) }
        ensures grows { Grows self.old self.new }
    {
        let _ = &self.terms;
        if self.facts_at(t).variables == 0 {
            return Ok(t);
        }
        let room = deeper(room)?;
        let ty = self.ty_of(t);
        match self.top(t) {
            View::Var(number) => {
                let s = sigma[number as usize];
                let Ok(by) = u32::try_from(k) else {
                    return Err(AllocError);
                };
                let r = self.lift_from(s, 0, by, room)?;
                Ok(r)
            }
            View::Sym(_) => Ok(t),
            View::Bound(_) => Ok(t),
            View::App(f, a) => {
                let f = self.subst_under(f, k, sigma, room)?;
                let a = self.subst_under(a, k, sigma, room)?;
                let r = self.numbered(View::App(f, a), ty)?;
                Ok(r)
            }
            View::Lam(a, body) => {
                let body = self.subst_under(body, k + 1, sigma, room)?;
                let r = self.numbered(View::Lam(a, body), ty)?;
                Ok(r)
            }
            View::Logic(op, x, y) => {
                let x = self.subst_argument(x, k, sigma, room)?;
                let y = self.subst_argument(y, k, sigma, room)?;
                let r = self.numbered(View::Logic(op, x, y), ty)?;
                Ok(r)
            }
        }
    }

    #[cycle(subst)]
    fn subst_argument(
        &mut self,
        x: Option<TermId>,
        k: u64,
        sigma: &[TermId],
        room: u32,
    ) -> Result<Option<TermId>, AllocError>
        requires within { IsArgumentBelow (length self.old.terms) x }
        requires deep { (t : ℕ) → x ≡ Some t → k + t < 2 ^ 64 }
        requires terms { AreTerms self.old sigma.now }
        requires given { IsGiven (map (tree_at self.old) sigma.now) (argument (tree_at self.old) x) }
        ensures made { IfOk result (λ r. IsArgumentTerm self.new r (argument_type self.old x) (substituted (map (tree_at self.old) sigma.now) k (argument (tree_at self.old) x))) }
        ensures grows { Grows self.old self.new }
    {
        let _ = &self.terms;
        match x {
            Some(t) => {
                let r = self.subst_under(t, k, sigma, room)?;
                Ok(Some(r))
            }
            None => Ok(None),
        }
    }
}
