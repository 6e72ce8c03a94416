//! The list of kept clauses.

ghost use Rattle.std.specs.Prelude.{[], ◌∷◌, ◌++◌, ◌≡◌, ◌<◌, ◌≤◌, ◌^◌, length, take, IfOk, OnOk, OnErr};

use leo_clause::Clause;
use std::alloc::{AllocError, Global};
use std::marker::Model;

/// The kept clauses, each with its place in the list as its number. A contract sees the list.
#[derive(Drop)]
pub struct Kept {
    clauses: Vec<Clause>,
}

impl Model for Kept {
    ghost use Rattle.std.specs.Prelude.{List};
    ghost use Rattle.leo_clause.specs.declared.clause.Clause.{Clause};

    ghost Value = { List Clause };

    ghost use Rattle.std.specs.Coded.{codes};
    ghost use Rattle.leo_clause.specs.contracts.clause.Clause as clause;

    ghost coded = { Prim.hlevel (codes, clause.the_row.coded) };

    ghost view = { λ k. k.clauses.items };
}

impl Kept {
    /// No clauses.
    pub fn new(alloc: Global) -> Result<Kept, AllocError>
        ensures { IfOk result (λ k. k ≡ []) }
    {
        Ok(Kept {
            clauses: Vec::new(alloc),
        })
    }

    /// Appends a clause, and answers its number. Where there is no memory, the list is as before.
    pub fn add(&mut self, c: Clause) -> Result<u32, AllocError>
        requires { length self.old < 2 ^ 30 }
        ensures number { IfOk result (λ n. n ≡ length self.old) }
        ensures added { OnOk result (self.new ≡ self.old ++ c ∷ []) }
        ensures err { OnErr result (self.new ≡ self.old) }
    {
        let number = self.clauses.len() as u32;
        self.clauses.push(c)?;
        Ok(number)
    }

    /// The clauses, in order.
    pub fn clauses(&self) -> &[Clause]
        ensures { result.now ≡ self.now }
    {
        self.clauses.as_slice()
    }

    /// Drops all clauses but the first `count`. Takes no memory.
    pub fn cut(&mut self, count: u32)
        requires { count ≤ length self.old }
        ensures { self.new ≡ take count self.old }
    {
        self.clauses.truncate(count as usize);
    }
}
