//! One line for a row, and one for each inference that is due.

ghost use Rattle.para_rows.specs.Boards.{AreRecorded, IsBoard};

use crate::asking::{ask, title_of};
use crate::board::Board;
use crate::writing::written;
use leo_para::Due;
use leo_terms::Bank;
use std::alloc::Global;

/// Tells an inference.
fn put(rt: &impl Print, alloc: Global, bank: &Bank, board: &Board, due: &Due)
    requires { AreStepsOf bank.now due.now.records }
{
    let _ = match written(
        alloc,
        bank,
        board,
        due.records.as_slice(),
        due.pairs.as_slice(),
    ) {
        Ok(text) => println!(rt; "  {text}"),
        Err(_) => println!(rt; "  no memory"),
    };
}

ghost use Rattle.leo_kernel.specs.Records.{AreStepsOf};

fn put_all(rt: &impl Print, alloc: Global, bank: &Bank, board: &Board, dues: &[Due])
    requires { AreRecorded bank.now dues.now }
{
    for due in dues {
        put(rt, alloc, bank, board, due);
    }
}

/// Tells what is due of each row.
pub(crate) fn tell(rt: &impl Print, alloc: Global, bank: &mut Bank, board: &Board, rows: &[&str])
    requires { IsBoard bank.old board.now }
    ensures { IsBoard bank.new board.now }
{
    for text in rows {
        let title = title_of(text);
        let _ = println!(rt; "{title}");
        match ask(alloc, bank, board, text) {
            Ok(Some(dues)) => put_all(rt, alloc, bank, board, dues.as_slice()),
            Ok(None) => {
                let _ = println!(rt; "  not a row");
            }
            Err(_) => {
                let _ = println!(rt; "  no memory");
            }
        }
    }
}
