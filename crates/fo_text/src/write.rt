//! Writing problems.

ghost use Rattle.std.specs.Prelude.{◌≡◌, ◌++◌, ◌∷◌, [], OnOk, decimal};
ghost use Rattle.std.specs.List.{flat_map};
ghost use Rattle.fo_terms.specs.Prefix.{prefix};
ghost use Rattle.fo_text.specs.Words.{numbers_text};
ghost use Rattle.fo_text.specs.Spellings.{node_word, nodes_text, term_text, literal_text, symbol_text, clause_text, field_text, problem_text, turns_word, weight_word, sorts_word, syms_text, clauses_text};

use crate::problem::{FoClause, FoLit, FoProblem, FoSym};
use fo_terms::term::{FoNode, FoTerm};
use itoa::Buffer;
use std::alloc::AllocError;

/// Writes a number at the end.
pub(crate) fn write_number(number: u32, out: &mut Vec<u8>) -> Result<(), AllocError>
    ensures { OnOk result (out.new.items ≡ out.old.items ++ decimal number) }
{
    let mut buffer = Buffer::new();
    out.extend_from_slice(buffer.format(number).as_bytes())
}

/// Writes a number behind a space.
fn write_spaced(number: u32, out: &mut Vec<u8>) -> Result<(), AllocError>
    ensures { OnOk result (out.new.items ≡ out.old.items ++ 32 ∷ decimal number) }
{
    out.push(b' ')?;
    write_number(number, out)
}

fn write_numbers(numbers: &[u32], out: &mut Vec<u8>) -> Result<(), AllocError>
    ensures { OnOk result (out.new.items ≡ out.old.items ++ numbers_text numbers.now) }
{
    for number in numbers {
        write_spaced(*number, out)?;
    }
    Ok(())
}

/// Writes `vN` or `fN`.
pub(crate) fn write_node(node: FoNode, out: &mut Vec<u8>) -> Result<(), AllocError>
    ensures { OnOk result (out.new.items ≡ out.old.items ++ node_word node) }
{
    match node {
        FoNode::Var(variable) => {
            out.push(b'v')?;
            write_number(variable, out)
        }
        FoNode::Sym(symbol, _) => {
            out.push(b'f')?;
            write_number(symbol, out)
        }
    }
}

fn write_spaced_node(node: FoNode, out: &mut Vec<u8>) -> Result<(), AllocError>
    ensures { OnOk result (out.new.items ≡ out.old.items ++ 32 ∷ node_word node) }
{
    out.push(b' ')?;
    write_node(node, out)
}

fn write_term(term: &FoTerm, out: &mut Vec<u8>) -> Result<(), AllocError>
    ensures { OnOk result (out.new.items ≡ out.old.items ++ term_text term.now) }
{
    for node in term.nodes() {
        write_spaced_node(*node, out)?;
    }
    Ok(())
}

fn write_literal(literal: &FoLit, out: &mut Vec<u8>) -> Result<(), AllocError>
    ensures { OnOk result (out.new.items ≡ out.old.items ++ literal_text literal.now) }
{
    out.push(b' ')?;
    out.push(if literal.pos { b'+' } else { b'-' })?;
    write_term(&literal.left, out)?;
    write_term(&literal.right, out)
}

fn write_literals(literals: &[FoLit], out: &mut Vec<u8>) -> Result<(), AllocError>
    ensures { OnOk result (out.new.items ≡ out.old.items ++ flat_map literal_text literals.now) }
{
    for literal in literals {
        write_literal(literal, out)?;
    }
    Ok(())
}

fn write_count(count: usize, out: &mut Vec<u8>) -> Result<(), AllocError>
    ensures { OnOk result (out.new.items ≡ out.old.items ++ decimal count) }
{
    let mut buffer = Buffer::new();
    out.extend_from_slice(buffer.format(count).as_bytes())
}

fn write_symbol(symbol: &FoSym, out: &mut Vec<u8>) -> Result<(), AllocError>
    ensures { OnOk result (out.new.items ≡ out.old.items ++ symbol_text symbol.now) }
{
    write_number(symbol.result, out)?;
    write_numbers(symbol.args.as_slice(), out)?;
    out.push(b'\n')?;
    Ok(())
}

fn write_symbols(symbols: &[FoSym], out: &mut Vec<u8>) -> Result<(), AllocError>
    ensures { OnOk result (out.new.items ≡ out.old.items ++ flat_map symbol_text symbols.now) }
{
    for symbol in symbols {
        write_symbol(symbol, out)?;
    }
    Ok(())
}

fn write_clause(clause: &FoClause, out: &mut Vec<u8>) -> Result<(), AllocError>
    ensures { OnOk result (out.new.items ≡ out.old.items ++ clause_text clause.now) }
{
    write_count(clause.vars.len(), out)?;
    write_numbers(clause.vars.as_slice(), out)?;
    out.push(b' ')?;
    write_count(clause.lits.len(), out)?;
    write_literals(clause.lits.as_slice(), out)?;
    out.push(b'\n')?;
    Ok(())
}

fn write_clauses(clauses: &[FoClause], out: &mut Vec<u8>) -> Result<(), AllocError>
    ensures { OnOk result (out.new.items ≡ out.old.items ++ flat_map clause_text clauses.now) }
{
    for clause in clauses {
        write_clause(clause, out)?;
    }
    Ok(())
}

/// Writes a line of a word and a number.
fn write_field(word: &[u8], value: usize, out: &mut Vec<u8>) -> Result<(), AllocError>
    ensures { OnOk result (out.new.items ≡ out.old.items ++ field_text word.now value) }
{
    out.extend_from_slice(word)?;
    write_count(value, out)?;
    out.push(b'\n')?;
    Ok(())
}

/// Writes the limits and the count of the sorts.
fn write_head(problem: &FoProblem, out: &mut Vec<u8>) -> Result<(), AllocError>
    ensures { OnOk result (out.new.items ≡ out.old.items ++ (field_text turns_word problem.now.turns ++ (field_text weight_word problem.now.weight ++ field_text sorts_word problem.now.sorts))) }
{
    write_field(b"leo3fo 1\nturns ", problem.turns as usize, out)?;
    write_field(b"weight ", problem.weight as usize, out)?;
    write_field(b"sorts ", problem.sorts as usize, out)
}

/// Writes the symbols and the clauses.
fn write_body(problem: &FoProblem, out: &mut Vec<u8>) -> Result<(), AllocError>
    ensures { OnOk result (out.new.items ≡ out.old.items ++ (syms_text problem.now.syms ++ clauses_text problem.now.clauses)) }
{
    write_field(b"syms ", problem.syms.len(), out)?;
    write_symbols(problem.syms.as_slice(), out)?;
    write_field(b"clauses ", problem.clauses.len(), out)?;
    write_clauses(problem.clauses.as_slice(), out)
}

/// Writes the text of a problem at the end. The only error is want of memory; a part of the text may
/// be written then.
pub fn write_problem(problem: &FoProblem, out: &mut Vec<u8>) -> Result<(), AllocError>
    ensures { OnOk result (out.new.items ≡ out.old.items ++ problem_text problem.now) }
{
    write_head(problem, out)?;
    write_body(problem, out)?;
    out.extend_from_slice(b"end\n")
}
