//! Terms, compared.

ghost use Rattle.std.specs.Prelude.{◌≡◌};
ghost use Rattle.std.specs.Bool.{Decides};
ghost use Rattle.fo_kbo.specs.Order.{IsGreater};

use fo_kbo::laws::order_laws;
use fo_kbo::order::{FoOrder, compare};
use fo_terms::term::{FoNode, FoTerm};

/// Whether two lists of nodes are one.
pub(crate) fn same_nodes(one: &[FoNode], other: &[FoNode]) -> bool
    ensures { Decides result (one.now ≡ other.now) }
{
    one == other
}

/// Whether two terms are one.
pub(crate) fn is_same_term(one: &FoTerm, other: &FoTerm) -> bool
    ensures { Decides result (one.now ≡ other.now) }
{
    same_nodes(one.nodes(), other.nodes())
}

/// Whether a term is greater than another.
pub(crate) fn is_greater_term(one: &FoTerm, other: &FoTerm) -> bool
    ensures { Decides result (IsGreater one.now other.now) }
{
    order_laws();
    match compare(one, other) {
        FoOrder::Less => false,
        FoOrder::Equal => false,
        FoOrder::Greater => true,
        FoOrder::Unordered => false,
    }
}
