//! Undoing what was added to a search.

ghost use Rattle.std.specs.Prelude.{◌≡◌, ◌-◌, ◌<◌, ◌≤◌, ◌^◌, length, take};
ghost use Rattle.leo_turn.specs.Changing.{AreThere, Reaches, cut_to, mark_of, without_range};

use crate::search::Search;
use leo_items::Items;
use leo_passive::Passive;

/// How much a search has.
#[derive(Clone, Copy)]
pub(crate) struct Mark {
    lines: usize,
    abbr: usize,
    abbr_at: usize,
    at: usize,
    fronts: usize,
    pub kept: u32,
}

/// How much the search has.
pub(crate) fn marked(search: &Search) -> Mark
    requires { length search.now.kept < 2 ^ 32 }
    ensures { result ≡ mark_of search.now }
{
    Mark {
        lines: search.lines.len(),
        abbr: search.abbr.items.len(),
        abbr_at: search.abbr_at.len(),
        at: search.at.len(),
        fronts: search.fronts.len(),
        kept: search.kept.clauses().len() as u32,
    }
}

fn shorten<T: Drop>(items: &mut Items<T>, count: usize)
    requires { count ≤ length items.old }
    ensures { items.new ≡ take count items.old }
{
    for _ in count..items.len() {
        let _ = items.pop();
    }
}

fn take_out(passive: &mut Passive, first: u32, end: u32)
    requires { AreThere first (end - first) passive.old }
    ensures { passive.new ≡ without_range first (end - first) passive.old }
{
    for number in first..end {
        passive.remove(number);
    }
}

/// Leaves as much as there was, and drops the rest. Takes no memory.
pub(crate) fn cut(search: &mut Search, mark: Mark)
    requires { Reaches search.old mark }
    ensures { search.new ≡ cut_to mark search.old }
{
    shorten(&mut search.lines, mark.lines);
    shorten(&mut search.abbr.items, mark.abbr);
    shorten(&mut search.abbr_at, mark.abbr_at);
    shorten(&mut search.at, mark.at);
    search.fronts.cut(mark.fronts);
    let count = search.kept.clauses().len() as u32;
    take_out(&mut search.passive, mark.kept, count);
    search.kept.cut(mark.kept);
}
