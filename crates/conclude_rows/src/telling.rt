//! One line for a row, and one for the records of each conclusion.

ghost use Rattle.leo_kernel.specs.Records.{AreStepsOf};
ghost use Rattle.conclude_rows.specs.Boards.{AreRecorded, IsBoard};

use crate::asking::{ask, title_of};
use crate::board::Board;
use crate::writing::written;
use leo_conclude::Conclusion;
use leo_terms::Bank;
use std::alloc::Global;

/// Tells the records of a conclusion.
fn put(rt: &impl Print, alloc: Global, bank: &Bank, board: &Board, found: &Conclusion)
    requires { AreStepsOf bank.now found.now.records }
{
    let _ = match written(alloc, bank, board, found.records.as_slice()) {
        Ok(text) => println!(rt; "  {text}"),
        Err(_) => println!(rt; "  no memory"),
    };
}

fn put_all(rt: &impl Print, alloc: Global, bank: &Bank, board: &Board, conclusions: &[Conclusion])
    requires { AreRecorded bank.now conclusions.now }
{
    for found in conclusions {
        put(rt, alloc, bank, board, found);
    }
}

/// Tells the conclusions of each row.
pub(crate) fn tell(rt: &impl Print, alloc: Global, bank: &mut Bank, board: &Board, rows: &[&str])
    requires { IsBoard bank.old board.now }
    ensures { IsBoard bank.new board.now }
{
    for text in rows {
        let title = title_of(text);
        let _ = println!(rt; "{title}");
        match ask(alloc, bank, board, text) {
            Ok(Some(found)) => put_all(rt, alloc, bank, board, found.as_slice()),
            Ok(None) => {
                let _ = println!(rt; "  not a row");
            }
            Err(_) => {
                let _ = println!(rt; "  no memory");
            }
        }
    }
}
