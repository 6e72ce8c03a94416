//! Laws of Q0 on equality, lambda, beta and eta, each the contract of a function that does nothing.
//!
//! Each law holds for every list of closed formulas as hypotheses.

ghost use Rattle.leo_q0.specs.ShapeSteps.{BetaByShape};
ghost use Rattle.leo_q0.specs.Laws.{EqualityIsReflexive, EqualityIsSymmetric, EqualityIsTransitive, EqualsApply, EqualBodies, LambdaRenames, NamesDoNotMatter, BetaSteps, CopiesExist, EtaHolds, DerivableIsFormula};

/// Equality is an equivalence, and functions respect it.
///
/// `⊢ A = A`; `⊢ A = B  ⟹  ⊢ B = A`; `⊢ A = B, ⊢ B = C  ⟹  ⊢ A = C`;
/// `⊢ f = g, ⊢ A = B  ⟹  ⊢ f A = g B` (Andrews, An Introduction to Mathematical Logic and Type Theory, 5200 to 5204).
pub fn equality_laws()
    ensures reflexive { EqualityIsReflexive }
    ensures symmetric { EqualityIsSymmetric }
    ensures transitive { EqualityIsTransitive }
    ensures applies { EqualsApply }
{}

/// Equality goes below a lambda, and bound names do not matter.
///
/// `⊢ A = B  ⟹  ⊢ (λx A) = (λx B)`; `⊢ (λx A) = (λy A[y/x])` (Andrews 5206).
pub fn lambda_laws()
    ensures bodies { EqualBodies }
    ensures renames { LambdaRenames }
    ensures names { NamesDoNotMatter }
{}

/// Beta with renaming, and eta.
///
/// `⊢ (λx A) B = A[B/x]`, after bound variables were renamed where it needs that (Andrews 5207);
/// `⊢ (λx (A x)) = A`, where x is not free in A.
pub fn conversion_laws()
    ensures beta { BetaSteps }
    ensures copies { CopiesExist }
    ensures eta { EtaHolds }
    ensures shapes { BetaByShape }
{}

/// What is derivable is a formula.
pub fn derivation_laws()
    ensures formulas { DerivableIsFormula }
{}
