//! One line for a row, one for each member of its clauses, and one for each choice symbol that stands then.

ghost use Rattle.leo_kernel.specs.Records.{AreStepsOf};
ghost use Rattle.leo_clause.specs.Choices.{AreChoicesOf};
ghost use Rattle.leo_clausify.specs.Choosing.{AreInOrder};
ghost use Rattle.leo_ext.specs.Listing.{AreDuesOf};
ghost use Rattle.leo_terms.specs.Contents.{Extends};
ghost use Rattle.ext_rows.specs.Boards.{IsBoard};
ghost use Rattle.std.specs.Prelude.{◌<◌, length};

use crate::asking::{ask, clauses_of, title_of};
use crate::board::Board;
use crate::writing::{Names, written, written_choice};
use leo_clause::Abbr;
use leo_para::Due;
use leo_terms::{Bank, SymId, TermId};
use std::alloc::{AllocError, Global};

/// Tells a line below a row.
fn put_line(rt: &impl Print, line: Result<String, AllocError>) {
    let _ = match line {
        Ok(text) => println!(rt; "  {text}"),
        Err(_) => println!(rt; "  no memory"),
    };
}

/// Tells a member.
fn put(rt: &impl Print, alloc: Global, bank: &Bank, names: &Names<'_>, due: &Due)
    requires { AreStepsOf bank.now due.now.records }
{
    let line = written(
        alloc,
        bank,
        names,
        due.records.as_slice(),
        due.pairs.as_slice(),
    );
    put_line(rt, line);
}

fn put_all(rt: &impl Print, alloc: Global, bank: &Bank, names: &Names<'_>, dues: &[Due])
    requires { AreDuesOf bank.now dues.now }
{
    for due in dues {
        put(rt, alloc, bank, names, due);
    }
}

/// Tells a choice symbol, and the term that it stands for.
fn put_choice(
    rt: &impl Print,
    alloc: Global,
    bank: &Bank,
    names: &Names<'_>,
    symbol: SymId,
    term: TermId,
)
    requires { term < length bank.now.terms }
{
    let line = written_choice(alloc, bank, names, symbol, term);
    put_line(rt, line);
}

fn put_choices(rt: &impl Print, alloc: Global, bank: &Bank, board: &Board, abbr: &Abbr)
    requires { AreChoicesOf bank.now abbr.now.items }
{
    let choices = abbr.items.as_slice();
    let names = Names { board, choices };
    for choice in choices {
        put_choice(rt, alloc, bank, &names, choice.0, choice.1);
    }
}

/// Tells the members of a clause.
fn tell_clause(
    rt: &impl Print,
    alloc: Global,
    bank: &mut Bank,
    board: &Board,
    abbr: &mut Abbr,
    text: &str,
)
    requires board { IsBoard bank.old board.now }
    requires in_order { AreInOrder bank.old abbr.old.items }
    ensures in_order { AreInOrder bank.new abbr.new.items }
    ensures grows { Extends bank.old bank.new }
{
    match ask(alloc, bank, board, abbr, text) {
        Ok(Some(dues)) => {
            let choices = abbr.items.as_slice();
            put_all(rt, alloc, bank, &Names { board, choices }, &dues);
        }
        Ok(None) => {
            let _ = println!(rt; "  not a row");
        }
        Err(_) => {
            let _ = println!(rt; "  no memory");
        }
    }
}

/// Tells the members of clauses, one after the other.
fn tell_clauses(
    rt: &impl Print,
    alloc: Global,
    bank: &mut Bank,
    board: &Board,
    abbr: &mut Abbr,
    texts: &[&str],
)
    requires board { IsBoard bank.old board.now }
    requires in_order { AreInOrder bank.old abbr.old.items }
    ensures in_order { AreInOrder bank.new abbr.new.items }
    ensures grows { Extends bank.old bank.new }
{
    bank.is_sound();
    for text in texts {
        tell_clause(rt, alloc, bank, board, abbr, text);
    }
}

/// Tells a row.
fn tell_row(rt: &impl Print, alloc: Global, bank: &mut Bank, board: &Board, text: &str)
    requires { IsBoard bank.old board.now }
    ensures { Extends bank.old bank.new }
{
    bank.is_sound();
    let title = title_of(text);
    let _ = println!(rt; "{title}");
    let Ok(texts) = clauses_of(alloc, text) else {
        let _ = println!(rt; "  no memory");
        return;
    };
    let mut abbr = Abbr::new(alloc);
    tell_clauses(rt, alloc, bank, board, &mut abbr, &texts);
    put_choices(rt, alloc, bank, board, &abbr);
}

/// Tells rows.
pub(crate) fn tell(rt: &impl Print, alloc: Global, bank: &mut Bank, board: &Board, rows: &[&str])
    requires { IsBoard bank.old board.now }
    ensures { IsBoard bank.new board.now }
{
    for text in rows {
        tell_row(rt, alloc, bank, board, text);
    }
}
