//! Laws of meanings and offences, each the contract of a function that does nothing.

ghost use Rattle.std.specs.Prelude.{◌≡◌};
ghost use Rattle.leo_q0.specs.Terms.{SimpleType};
ghost use Rattle.leo_syntax.specs.declared.tree.TypeTree.{TypeTree};
ghost use Rattle.leo_elab.specs.declared.refusal.ElabRefusal.{ElabRefusal};
ghost use Rattle.leo_elab.specs.Problem.{Declared};
ghost use Rattle.leo_elab.specs.Meaning.{MeansType};
ghost use Rattle.leo_elab.specs.Offences.{OffendsInType};
ghost use Rattle.leo_elab.specs.FormulaLaws.{OneMeaning, OneApplication, OneBinding};
ghost use Rattle.leo_elab.specs.FormulaLaws.{NotBoth, NotBothAsFormula, NotBothInArguments, NotBothInBinding};
ghost use Rattle.leo_elab.specs.FormulaLaws.{OneOffence, OneOffenceAsFormula, OneOffenceInArguments, OneOffenceInBinding};

/// A type means one simple type at most, offends at one place at most, and does not do both.
pub fn type_laws()
    ensures one_meaning { (d : Declared) (ty : TypeTree) (a b : SimpleType) → MeansType d ty a → MeansType d ty b → a ≡ b }
    ensures one_offence { (d : Declared) (ty : TypeTree) (e f : ElabRefusal) → OffendsInType d ty e → OffendsInType d ty f → e ≡ f }
    ensures not_both { (d : Declared) (ty : TypeTree) (a : SimpleType) (e : ElabRefusal) → MeansType d ty a → ¬ OffendsInType d ty e }
{}

/// Under any declarations and any binders around it, a tree has one meaning at most, offends at
/// one place at most, and does not do both; so do the arguments behind a head and the body under
/// a binder.
pub fn formula_laws()
    ensures one_meaning { OneMeaning }
    ensures one_application { OneApplication }
    ensures one_binding { OneBinding }
    ensures not_both { NotBoth }
    ensures not_both_as_formula { NotBothAsFormula }
    ensures not_both_in_arguments { NotBothInArguments }
    ensures not_both_in_binding { NotBothInBinding }
    ensures one_offence { OneOffence }
    ensures one_offence_as_formula { OneOffenceAsFormula }
    ensures one_offence_in_arguments { OneOffenceInArguments }
    ensures one_offence_in_binding { OneOffenceInBinding }
{}
