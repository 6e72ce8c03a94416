//! Turns of small problems.

use crate::state::FoState;
use crate::turning::fo_turn;
use fo_text::read::read_problem;
use std::test::Fail;

#[test]
fn a_denial_of_what_is_equal_gives_the_empty_clause(rt: HostRuntime) -> Result<(), Fail> {
    let text =
        b"leo3fo 1\nturns 9\nweight 99\nsorts 1\nsyms 3\n0\n0\n0\nclauses 1\n0 1 - f2 f2\nend\n";
    let Ok(problem) = read_problem(rt.alloc(), text) else {
        return Err("no problem".into());
    };
    let mut state = FoState::start(rt.alloc(), problem)?;
    if state.passive.is_empty() || state.turns > 9 {
        return Err("no start".into());
    }
    fo_turn(rt.alloc(), &mut state)?;
    assert!(rt; state.turns == 1);
    assert!(rt; state.clauses.len() == 2);
    assert!(rt; state.passive.len() == 1);
    let last = state.clauses.get(1).ok_or("nothing was kept")?;
    assert!(rt; last.lits.is_empty());
    Ok(())
}
