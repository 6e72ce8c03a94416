//! The laws of the order.

ghost use Rattle.fo_kbo.specs.Laws.{IsIrreflexive, IsTransitive, IsStable, IsTotalOnGround};

/// The order is a strict order, stable under substitution, and total on terms without variables.
pub fn order_laws()
    ensures irreflexive { IsIrreflexive }
    ensures transitive { IsTransitive }
    ensures stable { IsStable }
    ensures total { IsTotalOnGround }
{}
