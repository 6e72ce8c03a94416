//! Clauses as they are written.

ghost use Rattle.std.specs.Prelude.{◌≡◌, ◌++◌, ◌<◌, length, map, OnOk};
ghost use Rattle.leo_terms.specs.Contents.{type_at};
ghost use Rattle.leo_clause.specs.Trees.{literal_at, clause_at};
ghost use Rattle.leo_clause.specs.Typed.{AreLiteralsOf, AreTypesOf, IsClauseOf};
ghost use Rattle.leo_tstp.specs.Namings.{words_in};
ghost use Rattle.leo_tstp.specs.ClauseTexts as spec;

use crate::namer::Namer;
use crate::terms::{write_term, write_type, write_variable};
use leo_clause::{Clause, Lit};
use leo_terms::{Bank, TyId};
use std::alloc::AllocError;

/// Appends a variable with its type.
#[tactic(auto, unfolding(crate::specs::ClauseTexts::declared_variable))]
fn write_declared(
    bank: &Bank,
    namer: &Namer,
    number: usize,
    ty: TyId,
    out: &mut Vec<u8>,
) -> Result<(), AllocError>
    requires { ty < length bank.now.types }
    ensures { OnOk result (out.new.items ≡ out.old.items ++ spec.declared_variable (words_in bank.now namer.now) number (type_at bank.now ty)) }
{
    write_variable(number as u64, out)?;
    out.extend_from_slice(b": ")?;
    write_type(bank, namer, ty, out)
}

/// Appends variables behind the first, each behind a comma.
fn write_further_variables(
    bank: &Bank,
    namer: &Namer,
    types: &[TyId],
    out: &mut Vec<u8>,
) -> Result<(), AllocError>
    requires { AreTypesOf bank.now types.now }
    ensures { OnOk result (out.new.items ≡ out.old.items ++ spec.further_variables (words_in bank.now namer.now) 1 (map (type_at bank.now) types.now)) }
{
    for place in 0..types.len() {
        out.push(b',')?;
        write_declared(bank, namer, place + 1, types[place], out)?;
    }
    Ok(())
}

/// Appends the variables of a clause, if it has some.
fn write_variables(
    bank: &Bank,
    namer: &Namer,
    types: &[TyId],
    out: &mut Vec<u8>,
) -> Result<(), AllocError>
    requires { AreTypesOf bank.now types.now }
    ensures { OnOk result (out.new.items ≡ out.old.items ++ spec.variables_text (words_in bank.now namer.now) (map (type_at bank.now) types.now)) }
{
    match types.split_first() {
        None => Ok(()),
        Some((first, others)) => {
            out.extend_from_slice(b"! [")?;
            write_declared(bank, namer, 0, *first, out)?;
            write_further_variables(bank, namer, others, out)?;
            out.extend_from_slice(b"] : ")
        }
    }
}

fn equation_sign(positive: bool) -> &'static [u8]
    ensures { result.now ≡ spec.equation_sign positive }
{
    if positive { b" = " } else { b" != " }
}

/// Appends a literal.
#[tactic(auto, unfolding(crate::specs::Words::in_brackets))]
fn write_literal(bank: &Bank, namer: &Namer, lit: &Lit, out: &mut Vec<u8>) -> Result<(), AllocError>
    requires left { lit.now.left < length bank.now.terms }
    requires right { lit.now.right < length bank.now.terms }
    ensures { OnOk result (out.new.items ≡ out.old.items ++ spec.literal_text (words_in bank.now namer.now) (literal_at bank.now lit.now)) }
{
    out.extend_from_slice(b"( ")?;
    write_term(bank, namer, lit.left, out)?;
    out.extend_from_slice(equation_sign(lit.pos))?;
    write_term(bank, namer, lit.right, out)?;
    out.extend_from_slice(b" )")
}

/// Appends a literal behind a sign.
fn write_further_literal(
    bank: &Bank,
    namer: &Namer,
    lit: &Lit,
    out: &mut Vec<u8>,
) -> Result<(), AllocError>
    requires left { lit.now.left < length bank.now.terms }
    requires right { lit.now.right < length bank.now.terms }
    ensures { OnOk result (out.new.items ≡ out.old.items ++ spec.further_literal (words_in bank.now namer.now) (literal_at bank.now lit.now)) }
{
    out.extend_from_slice(b" | ")?;
    write_literal(bank, namer, lit, out)
}

/// Appends literals, each behind a sign.
fn write_further_literals(
    bank: &Bank,
    namer: &Namer,
    lits: &[Lit],
    out: &mut Vec<u8>,
) -> Result<(), AllocError>
    requires { AreLiteralsOf bank.now lits.now }
    ensures { OnOk result (out.new.items ≡ out.old.items ++ spec.further_literals (words_in bank.now namer.now) (map (literal_at bank.now) lits.now)) }
{
    for lit in lits {
        write_further_literal(bank, namer, lit, out)?;
    }
    Ok(())
}

/// Appends the literals of a clause, of which this is the first.
fn write_disjunction(
    bank: &Bank,
    namer: &Namer,
    first: &Lit,
    others: &[Lit],
    out: &mut Vec<u8>,
) -> Result<(), AllocError>
    requires left { first.now.left < length bank.now.terms }
    requires right { first.now.right < length bank.now.terms }
    requires others { AreLiteralsOf bank.now others.now }
    ensures { OnOk result (out.new.items ≡ out.old.items ++ spec.disjunction_text (words_in bank.now namer.now) (literal_at bank.now first.now) (map (literal_at bank.now) others.now)) }
{
    if others.is_empty() {
        return write_literal(bank, namer, first, out);
    }
    out.extend_from_slice(b"( ")?;
    write_literal(bank, namer, first, out)?;
    write_further_literals(bank, namer, others, out)?;
    out.extend_from_slice(b" )")
}

/// Appends the literals of a clause.
fn write_literals(
    bank: &Bank,
    namer: &Namer,
    lits: &[Lit],
    out: &mut Vec<u8>,
) -> Result<(), AllocError>
    requires { AreLiteralsOf bank.now lits.now }
    ensures { OnOk result (out.new.items ≡ out.old.items ++ spec.literals_text (words_in bank.now namer.now) (map (literal_at bank.now) lits.now)) }
{
    match lits.split_first() {
        None => out.extend_from_slice(b"$false"),
        Some((first, others)) => write_disjunction(bank, namer, first, others, out),
    }
}

/// Appends a clause.
pub(crate) fn write_clause(
    bank: &Bank,
    namer: &Namer,
    clause: &Clause,
    out: &mut Vec<u8>,
) -> Result<(), AllocError>
    requires { IsClauseOf bank.now clause.now }
    ensures { OnOk result (out.new.items ≡ out.old.items ++ spec.clause_text (words_in bank.now namer.now) (clause_at bank.now clause.now)) }
{
    write_variables(bank, namer, clause.vars.as_slice(), out)?;
    write_literals(bank, namer, clause.lits.as_slice(), out)
}
