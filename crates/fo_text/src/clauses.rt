//! The lines of the clauses.

ghost use Rattle.std.specs.Prelude.{◌≡◌, ◌≤◌, ◌<◌, ◌^◌, ◌++◌, ◌∷◌, ◌↔◌, length, IfOk, IfErr, IsTrue, None};
ghost use Rattle.std.specs.List.{AllByRecursion};
ghost use Rattle.fo_text.specs.Words.{most_number};
ghost use Rattle.fo_text.specs.Reads.{IsStop};
ghost use Rattle.fo_text.specs.Pieces.{HasFewArgs, AreMany};
ghost use Rattle.fo_text.specs.Nodes.{CanBegin, AreMarks};
ghost use Rattle.fo_text.specs.Clauses.{most_if as most_of, AreVars, vars_text, AreLits, lits_text, behind_lits, HasConstant};
ghost use Rattle.std.specs.List.{flat_map};
ghost use Rattle.fo_text.specs.Problems.{IsClause};
ghost use Rattle.fo_text.specs.Spellings.{clause_text};

use crate::field::behind_first;
use crate::known::marks;
use crate::literals::literal;
use crate::nodes::Names;
use crate::number::{Ends, number};
use crate::problem::{FoClause, FoLit, FoSym};
use crate::refusal::Stop;
use sqlite_items::Items;
use std::alloc::Global;

/// How many there may be.
pub(crate) fn most_if(some: bool) -> u32
    ensures { result ≡ most_of some }
{
    if some { 999_999_999 } else { 0 }
}

/// The variables of a clause, and the space behind them.
fn variables(alloc: Global, input: &[u8], sorts: u32) -> Result<(Items<u32>, &[u8]), Stop>
    requires few { sorts ≤ most_number }
    ensures vars { IfOk result (λ x. AreVars sorts x.0) }
    ensures read { IfOk result (λ x. input.now ≡ vars_text x.0 ++ x.1.now) }
    ensures refused { IfErr result (IsStop (AreVars sorts) vars_text input.now) }
{
    let (count, behind) = number(input, 0, most_if(sorts > 0), Ends::Space)?;
    let mut vars = Items::new(alloc);
    let mut rest = behind_first(behind, b' ');
    for _ in 0..count {
        let (var, left) = number(rest, 0, sorts - 1, Ends::Space)?;
        vars.push(var)?;
        rest = behind_first(left, b' ');
    }
    Ok((vars, rest))
}

fn behind_literals(read: u32, count: u32) -> u8
    ensures { result ≡ behind_lits read count }
{
    if read == count { b'\n' } else { b' ' }
}

/// The literals of a clause, and the end of its line.
fn literals<'a>(
    alloc: Global,
    input: &'a [u8],
    names: Names<'_>,
    some: bool,
) -> Result<(Items<FoLit>, &'a [u8]), Stop>
    requires few { AllByRecursion HasFewArgs names.syms.now }
    requires numbered { (length names.vars.now < 2 ^ 32) × (length names.syms.now < 2 ^ 32) }
    requires some { IsTrue some ↔ CanBegin names.vars.now names.syms.now None }
    ensures lits { IfOk result (λ x. AreLits names.entry.vars.now names.entry.syms.now x.0) }
    ensures read { IfOk result (λ x. input.now ≡ lits_text x.0 ++ x.1.now) }
    ensures refused { IfErr result (λ e. AreMarks names.entry.vars.now names.entry.syms.now names.entry.usable.now → IsStop (AreLits names.entry.vars.now names.entry.syms.now) lits_text input.now e) }
{
    let (count, behind) = number(input, 0, most_if(some), Ends::LineAtZero)?;
    let mut lits = Items::new(alloc);
    let mut rest = behind;
    for read in 0..count {
        let (lit, left) = literal(alloc, rest, names, behind_literals(read + 1, count))?;
        lits.push(lit)?;
        rest = left;
    }
    Ok((lits, behind_first(rest, b'\n')))
}

fn has_constant(syms: &[FoSym]) -> bool
    ensures { IsTrue result ↔ HasConstant syms.now }
{
    for sym in syms {
        if sym.args.is_empty() {
            return true;
        }
    }
    false
}

/// Whether some term exists.
fn some_term(vars: &[u32], syms: &[FoSym], constant: bool) -> bool
    requires { IsTrue constant ↔ HasConstant syms.now }
    ensures { IsTrue result ↔ CanBegin vars.now syms.now None }
{
    if constant { true } else { !vars.is_empty() }
}

/// The literals of a clause: as if a term began with each symbol, and, where none are read so, with
/// the marks.
fn exact_literals<'a>(
    alloc: Global,
    input: &'a [u8],
    vars: &[u32],
    syms: &[FoSym],
    all: &[bool],
    constant: bool,
) -> Result<(Items<FoLit>, &'a [u8]), Stop>
    requires few { AllByRecursion HasFewArgs syms.now }
    requires numbered { (length vars.now < 2 ^ 32) × (length syms.now < 2 ^ 32) }
    requires constant { IsTrue constant ↔ HasConstant syms.now }
    ensures lits { IfOk result (λ x. AreLits vars.now syms.now x.0) }
    ensures read { IfOk result (λ x. input.now ≡ lits_text x.0 ++ x.1.now) }
    ensures refused { IfErr result (IsStop (AreLits vars.now syms.now) lits_text input.now) }
{
    let some = some_term(vars, syms, constant);
    let names = Names {
        vars,
        syms,
        usable: all,
    };
    match literals(alloc, input, names, some) {
        Ok(found) => Ok(found),
        Err(Stop::NoRoom) => Err(Stop::NoRoom),
        Err(Stop::At { left: _ }) => {
            let usable = marks(alloc, vars, syms)?;
            let exact = Names {
                vars,
                syms,
                usable: &usable,
            };
            literals(alloc, input, exact, some)
        }
    }
}

/// The line of a clause.
fn clause<'a>(
    alloc: Global,
    input: &'a [u8],
    sorts: u32,
    syms: &[FoSym],
    all: &[bool],
    constant: bool,
) -> Result<(FoClause, &'a [u8]), Stop>
    requires sorts { sorts ≤ most_number }
    requires few { AllByRecursion HasFewArgs syms.now }
    requires numbered { length syms.now < 2 ^ 32 }
    requires constant { IsTrue constant ↔ HasConstant syms.now }
    ensures clause { IfOk result (λ x. IsClause sorts syms.now x.0) }
    ensures read { IfOk result (λ x. input.now ≡ clause_text x.0 ++ x.1.now) }
    ensures refused { IfErr result (IsStop (IsClause sorts syms.now) clause_text input.now) }
{
    let (vars, behind) = variables(alloc, input, sorts)?;
    let (lits, rest) = exact_literals(alloc, behind, vars.as_slice(), syms, all, constant)?;
    Ok((FoClause { vars, lits }, rest))
}

/// The lines of so many clauses.
pub(crate) fn clauses<'a>(
    alloc: Global,
    input: &'a [u8],
    count: u32,
    sorts: u32,
    syms: &[FoSym],
) -> Result<(Items<FoClause>, &'a [u8]), Stop>
    requires sorts { sorts ≤ most_number }
    requires few { AllByRecursion HasFewArgs syms.now }
    requires numbered { length syms.now < 2 ^ 32 }
    ensures clauses { IfOk result (λ x. AreMany (IsClause sorts syms.now) count x.0) }
    ensures read { IfOk result (λ x. input.now ≡ flat_map clause_text x.0 ++ x.1.now) }
    ensures refused { IfErr result (IsStop (AreMany (IsClause sorts syms.now) count) (flat_map clause_text) input.now) }
{
    let all = vec![in alloc; true; syms.len()]?;
    let constant = has_constant(syms);
    let mut list = Items::new(alloc);
    let mut rest = input;
    for _ in 0..count {
        let (item, left) = clause(alloc, rest, sorts, syms, &all, constant)?;
        list.push(item)?;
        rest = left;
    }
    Ok((list, rest))
}
