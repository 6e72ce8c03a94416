//! The laws, each the contract of a function that does nothing.

ghost use Rattle.leo_sound.specs.Laws.{TruthHolds, DerivableEqualsTrue, EqualsTrueIsDerivable, InstancesFollow, CasesSuffice, TautologiesHold, ModusPonens, WeakerLiteral, EqualArguments, EqualFunctions, DifferentFunctions, AllGives, NotSomeGives, SomeGives, NotAllGives};

/// Truth, and what equals it.
///
/// `⊢ T`; `⊢ A  ⟹  ⊢ A = T`; `⊢ A = T  ⟹  ⊢ A` (Andrews, An Introduction to Mathematical Logic and Type Theory, 5210 and 5219).
pub fn truth_laws()
    ensures holds { TruthHolds }
    ensures equals { DerivableEqualsTrue }
    ensures back { EqualsTrueIsDerivable }
{}

/// Instances and cases.
///
/// `⊢ A  ⟹  ⊢ A[B/x]`, where B is free for x in A (Andrews 5220, 5221);
/// `⊢ A[T/x], ⊢ A[F/x]  ⟹  ⊢ A` (Andrews 5222).
pub fn instance_laws()
    ensures instances { InstancesFollow }
    ensures cases { CasesSuffice }
{}

/// Propositional logic.
///
/// Each tautology over T, F, and, or, not, implies and equality of truth values (Andrews 5234);
/// `⊢ A, ⊢ A ⊃ B  ⟹  ⊢ B` (5224); a disjunction with a weaker formula in the place of a member.
pub fn propositional_laws()
    ensures tautologies { TautologiesHold }
    ensures ponens { ModusPonens }
    ensures literal { WeakerLiteral }
{}

/// Equal arguments and equal functions give equal values, and different functions differ somewhere.
///
/// `⊢ A = B ⊃ C A = C B`; `⊢ f = g ⊃ f A = g A`;
/// `⊢ f ≠ g ⊃ f w ≠ g w`, where w is `ε (λx. f x ≠ g x)`.
pub fn value_laws()
    ensures arguments { EqualArguments }
    ensures functions { EqualFunctions }
    ensures different { DifferentFunctions }
{}

/// The quantifiers, and choice.
///
/// `⊢ All P ⊃ P A`; `⊢ ~ Some P ⊃ ~ P A`; `⊢ Some P ⊃ P (ε P)`; `⊢ ~ All P ⊃ ~ P (ε (λx. ~ P x))`.
pub fn quantifier_laws()
    ensures all { AllGives }
    ensures not_some { NotSomeGives }
    ensures some { SomeGives }
    ensures not_all { NotAllGives }
{}
