//! Laws of banks, each the contract of a function that does nothing.

ghost use Rattle.leo_terms.specs.Laws.{TypesAreKept, TermsAreKept, TypesAreShared, TermsAreShared, TermsAreTyped, TypesAreThoseOfTrees, MadeTermsDecode, LiftingDecodes, SubstitutionDecodes, NormalFormsAreEqual, TermsReduceToNormalForms, NormalTermsStay};

/// A bank that only grew reads all earlier numbers alike.
pub fn growth_laws()
    ensures types { TypesAreKept }
    ensures terms { TermsAreKept }
{}

/// Types that read alike have one number, and so have terms.
pub fn sharing_laws()
    ensures types { TypesAreShared }
    ensures terms { TermsAreShared }
{}

/// Each term of a bank is well typed, and has the type that its node says.
pub fn typing_laws()
    ensures typed { TermsAreTyped }
    ensures types { TypesAreThoseOfTrees }
{}

/// A term that was made decodes as its tree, and lifting and substitution are those of Q0, up to the names of bound variables.
pub fn decoding_laws()
    ensures making { MadeTermsDecode }
    ensures lifting { LiftingDecodes }
    ensures substitution { SubstitutionDecodes }
{}

/// A term reduces to its normal form, which is normal and equal to it in Q0; a normal term is its own.
pub fn normal_form_laws()
    ensures equal { NormalFormsAreEqual }
    ensures reduces { TermsReduceToNormalForms }
    ensures stays { NormalTermsStay }
{}
