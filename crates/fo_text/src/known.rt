//! Which sorts have a term over the variables of a clause.

ghost use Rattle.std.specs.Prelude.{◌≡◌, ◌≤◌, ◌<◌, ◌↔◌, ◌∷◌, length, IfOk, OnOk, IsTrue, Some, true, false, slice_get, ℕ};
ghost use Rattle.fo_text.specs.Nodes.{AreMarks};
ghost use Rattle.fo_text.specs.Known.{Knows, KnowsAll, IsAdded, IsTry, IsGrown, AreSound, HasVars, HasResults, unknown_results};

use crate::problem::FoSym;
use std::alloc::{AllocError, Global};
use std::collections::BTreeMap;

fn is_known(known: &BTreeMap<u32, bool>, sort: u32) -> bool
    ensures { IsTrue result ↔ Knows known.now sort }
{
    match known.get(&sort) {
        None => false,
        Some(_) => true,
    }
}

fn all_known(known: &BTreeMap<u32, bool>, sorts: &[u32]) -> bool
    ensures { IsTrue result ↔ KnowsAll known.now sorts.now }
{
    let mut rest = sorts;
    while let Some((sort, tail)) = rest.split_first() {
        if !is_known(known, *sort) {
            return false;
        }
        rest = tail;
    }
    true
}

fn add(known: &mut BTreeMap<u32, bool>, sort: u32) -> Result<(), AllocError>
    ensures { OnOk result (IsAdded known.old known.new sort) }
{
    known.insert(sort, true)?;
    Ok(())
}

/// The sorts of the variables.
fn of_variables(alloc: Global, vars: &[u32]) -> Result<BTreeMap<u32, bool>, AllocError>
    ensures vars { IfOk result (λ known. HasVars known vars.now (length vars.now)) }
    ensures only { IfOk result (λ known. (s : ℕ) → Knows known s → (v : ℕ) × (slice_get vars.now v ≡ Some s)) }
{
    let mut known = BTreeMap::new(alloc);
    for var in vars {
        add(&mut known, *var)?;
    }
    Ok(known)
}

/// Adds the sort of a symbol, if it is not known and those of the arguments are. Whether it did.
fn try_add(known: &mut BTreeMap<u32, bool>, sym: &FoSym) -> Result<bool, AllocError>
    ensures { IfOk result (IsTry known.old known.new sym.now) }
{
    if is_known(known, sym.result) {
        return Ok(false);
    }
    if all_known(known, sym.args.as_slice()) {
        add(known, sym.result)?;
        Ok(true)
    } else {
        Ok(false)
    }
}

/// Tries each symbol from the first on. Whether a sort was added.
fn sweep(known: &mut BTreeMap<u32, bool>, syms: &[FoSym]) -> Result<bool, AllocError>
    ensures grown { OnOk result (IsGrown syms.now known.old known.new) }
    ensures fewer { IfOk result (λ changed. changed ≡ true → unknown_results known.new syms.now < unknown_results known.old syms.now) }
    ensures all { IfOk result (λ changed. changed ≡ false → HasResults known.new syms.now (length syms.now)) }
{
    let mut changed = false;
    for sym in syms {
        if try_add(known, sym)? {
            changed = true;
        }
    }
    Ok(changed)
}

/// Tries each symbol from the last on.
fn sweep_back(known: &mut BTreeMap<u32, bool>, syms: &[FoSym]) -> Result<(), AllocError>
    ensures grown { OnOk result (IsGrown syms.now known.old known.new) }
{
    let mut at = syms.len();
    while at > 0 {
        at -= 1;
        let _ = try_add(known, &syms[at])?;
    }
    Ok(())
}

/// All sorts that have a term.
fn inhabited(alloc: Global, vars: &[u32], syms: &[FoSym]) -> Result<BTreeMap<u32, bool>, AllocError>
    ensures sound { IfOk result (AreSound vars.now syms.now) }
    ensures vars { IfOk result (λ known. HasVars known vars.now (length vars.now)) }
    ensures results { IfOk result (λ known. HasResults known syms.now (length syms.now)) }
{
    let mut known = of_variables(alloc, vars)?;
    while sweep(&mut known, syms)? {
        sweep_back(&mut known, syms)?;
    }
    Ok(known)
}

/// The marks of the symbols with which a term begins.
pub(crate) fn marks(alloc: Global, vars: &[u32], syms: &[FoSym]) -> Result<Vec<bool>, AllocError>
    ensures { IfOk result (λ usable. AreMarks vars.now syms.now usable.items) }
{
    let known = inhabited(alloc, vars, syms)?;
    let mut usable = Vec::new(alloc);
    for sym in syms {
        usable.push(all_known(&known, sym.args.as_slice()))?;
    }
    Ok(usable)
}
