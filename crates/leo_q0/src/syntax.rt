//! Types and terms.

ghost use Rattle.std.specs.Prelude.{◌≡◌, IfOk};
ghost use Rattle.leo_q0.specs.Terms.{arrow, same_type, same_variable, same_term, apply, lambda};
ghost use Rattle.leo_q0.specs.Views.{type_in, variable_in, term_in};

use std::alloc::{AllocError, Global};

/// A simple type.
#[derive(Debug, Drop)]
pub enum Ty {
    /// A base type by its number: 0 is the type of truth values, 1 that of individuals.
    Base(u32),
    /// The functions from the first type to the second.
    Arrow(Box<Ty>, Box<Ty>),
}

/// A term.
///
/// Every call on a term, and its drop, recurses along the tree: whoever makes one bounds its depth.
#[derive(Debug, Drop)]
pub enum Tm {
    /// A variable: a number with a type.
    Var(u32, Ty),
    /// A constant.
    Cons(u32, Ty),
    /// The identity of a type.
    Q(Ty),
    /// The choice function of a type.
    Eps(Ty),
    /// A function applied to an argument.
    App(Box<Tm>, Box<Tm>),
    /// A lambda.
    Lam(u32, Ty, Box<Tm>),
}

/// Whether two types are the same.
pub fn is_same_type(a: &Ty, b: &Ty) -> bool
    ensures { result ≡ same_type (type_in a.now) (type_in b.now) }
{
    match (a, b) {
        (Ty::Base(m), Ty::Base(n)) => m == n,
        (Ty::Arrow(c, d), Ty::Arrow(e, f)) => is_same_type(c, e) && is_same_type(d, f),
        _ => false,
    }
}

/// Whether two variables are the same.
pub fn is_same_variable(x: u32, a: &Ty, y: u32, b: &Ty) -> bool
    ensures { result ≡ same_variable (variable_in x a.now) (variable_in y b.now) }
{
    x == y && is_same_type(a, b)
}

/// Whether two terms are the same, names of bound variables included.
pub fn is_same_term(s: &Tm, t: &Tm) -> bool
    ensures { result ≡ same_term (term_in s.now) (term_in t.now) }
{
    match (s, t) {
        (Tm::Var(x, a), Tm::Var(y, b)) => is_same_variable(*x, a, *y, b),
        (Tm::Cons(x, a), Tm::Cons(y, b)) => x == y && is_same_type(a, b),
        (Tm::Q(a), Tm::Q(b)) => is_same_type(a, b),
        (Tm::Eps(a), Tm::Eps(b)) => is_same_type(a, b),
        (Tm::App(f, u), Tm::App(g, v)) => is_same_term(f, g) && is_same_term(u, v),
        (Tm::Lam(x, a, u), Tm::Lam(y, b, v)) => {
            is_same_variable(*x, a, *y, b) && is_same_term(u, v)
        }
        _ => false,
    }
}

/// The functions from one type to another.
pub fn new_arrow(alloc: Global, a: Ty, b: Ty) -> Result<Ty, AllocError>
    ensures { IfOk result (λ c. type_in c ≡ arrow (type_in a) (type_in b)) }
{
    let a = Box::new(alloc, a)?;
    let b = Box::new(alloc, b)?;
    Ok(Ty::Arrow(a, b))
}

/// A function applied to an argument.
pub fn new_apply(alloc: Global, f: Tm, t: Tm) -> Result<Tm, AllocError>
    ensures { IfOk result (λ r. term_in r ≡ apply (term_in f) (term_in t)) }
{
    let f = Box::new(alloc, f)?;
    let t = Box::new(alloc, t)?;
    Ok(Tm::App(f, t))
}

/// A lambda.
pub fn new_lambda(alloc: Global, x: u32, a: Ty, t: Tm) -> Result<Tm, AllocError>
    ensures { IfOk result (λ r. term_in r ≡ lambda (variable_in x a) (term_in t)) }
{
    let t = Box::new(alloc, t)?;
    Ok(Tm::Lam(x, a, t))
}

/// A copy of a type.
pub fn copy_type(alloc: Global, a: &Ty) -> Result<Ty, AllocError>
    ensures { IfOk result (λ c. type_in c ≡ type_in a.now) }
{
    match a {
        Ty::Base(n) => Ok(Ty::Base(*n)),
        Ty::Arrow(b, c) => new_arrow(alloc, copy_type(alloc, b)?, copy_type(alloc, c)?),
    }
}

/// A copy of a term.
pub fn copy_term(alloc: Global, t: &Tm) -> Result<Tm, AllocError>
    ensures { IfOk result (λ r. term_in r ≡ term_in t.now) }
{
    match t {
        Tm::Var(x, a) => Ok(Tm::Var(*x, copy_type(alloc, a)?)),
        Tm::Cons(x, a) => Ok(Tm::Cons(*x, copy_type(alloc, a)?)),
        Tm::Q(a) => Ok(Tm::Q(copy_type(alloc, a)?)),
        Tm::Eps(a) => Ok(Tm::Eps(copy_type(alloc, a)?)),
        Tm::App(f, u) => new_apply(alloc, copy_term(alloc, f)?, copy_term(alloc, u)?),
        Tm::Lam(x, a, u) => new_lambda(alloc, *x, copy_type(alloc, a)?, copy_term(alloc, u)?),
    }
}
