//! The roles of statements.

ghost use Rattle.std.specs.Prelude.{◌≡◌};
ghost use Rattle.leo_problem.specs.Roles as roles;

/// The role of a statement with a formula.
#[derive(Clone, Copy, Debug, PartialEq, Eq)]
pub enum Role {
    Axiom,
    Hypothesis,
    Definition,
    Assumption,
    Lemma,
    Theorem,
    Corollary,
    NegatedConjecture,
    /// The formula that is to be proved, so that its negation is the hypothesis.
    Conjecture,
}

impl Role {
    /// The role's word.
    pub fn word(self) -> &'static [u8]
        ensures { result.now ≡ roles.role_word self }
    {
        match self {
            Role::Axiom => b"axiom",
            Role::Hypothesis => b"hypothesis",
            Role::Definition => b"definition",
            Role::Assumption => b"assumption",
            Role::Lemma => b"lemma",
            Role::Theorem => b"theorem",
            Role::Corollary => b"corollary",
            Role::NegatedConjecture => b"negated_conjecture",
            Role::Conjecture => b"conjecture",
        }
    }

    /// The role of a word, where it is listed.
    pub fn of_word(word: &[u8]) -> Option<Role>
        ensures { result ≡ roles.role_of word.now }
    {
        if word == b"axiom".as_slice() {
            Some(Role::Axiom)
        } else if word == b"hypothesis".as_slice() {
            Some(Role::Hypothesis)
        } else if word == b"definition".as_slice() {
            Some(Role::Definition)
        } else if word == b"assumption".as_slice() {
            Some(Role::Assumption)
        } else if word == b"lemma".as_slice() {
            Some(Role::Lemma)
        } else if word == b"theorem".as_slice() {
            Some(Role::Theorem)
        } else if word == b"corollary".as_slice() {
            Some(Role::Corollary)
        } else if word == b"negated_conjecture".as_slice() {
            Some(Role::NegatedConjecture)
        } else if word == b"conjecture".as_slice() {
            Some(Role::Conjecture)
        } else {
            None
        }
    }
}
