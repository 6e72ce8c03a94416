//! Whether the empty clause is kept.

ghost use Rattle.std.specs.Prelude.{map, drop};
ghost use Rattle.std.specs.Bool.{Decides};
ghost use Rattle.leo_terms.specs.Contents.{Contents};
ghost use Rattle.leo_clause.specs.Trees.{clause_at};
ghost use Rattle.leo_core.specs.Machine.{HasEmptyClause};

use leo_clause::Clause;

/// Whether one of the clauses from number `from` on has no literals.
pub(crate) fn has_empty(clauses: &[Clause], from: usize) -> bool
    ensures { (c : Contents) → Decides result (HasEmptyClause (map (clause_at c) (drop from clauses.now))) }
{
    for number in from..clauses.len() {
        if clauses[number].is_empty() {
            return true;
        }
    }
    false
}
