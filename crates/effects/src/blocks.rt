// A block: each of its actions, in order. Which rows are active is asked by ifs alone, and it costs more than a short block does: the actions ahead
// of the first if are performed without it, and a block that has none needs no more.
ghost use Rattle.std.specs.Prelude.{◌≡◌, drop};
ghost use Rattle.follower.specs.Blocks.{perform, perform_if, performed_from};
ghost use Rattle.tables.specs.Parts.{actions_of};
ghost use Rattle.rowset.specs.Member.{rows_of};
ghost use Rattle.effects.specs.Trace.{places, Wrote, Room};
ghost use Rattle.effects.specs.Kinds.{ActionFits};
ghost use Rattle.effects.specs.Branches.{plain_effects, plain_count};
ghost use Rattle.effects.specs.Blocks.{ActionsFit};

use crate::Tally;
use crate::branches::{is_branch, reach_after};
use crate::writing::{ACTED, RAISED, emit, emit_cancelled, emit_join, emit_sent};
use definition::{Action, Reach};
use rowset::RowSet;
use tables::{action_of, actions_in};

fn perform_action(trace: &mut [u32], joins: &mut [u32], tally: Tally, action: Action) -> Tally
    requires { ActionFits action × Room tally (perform action) }
    ensures { Wrote (places trace.old joins.old) (places trace.new joins.new) tally result (perform action) }
{
    match action {
        Action::Raise(n) => emit_join(trace, joins, tally, RAISED, n as u32),
        Action::Host(n) => emit(trace, tally, ACTED, n as u32),
        Action::If(_) => tally,
        Action::ElseIf(_) => tally,
        Action::Else => tally,
        Action::End => tally,
        Action::Send(n, delay, id) => emit_sent(
            trace,
            joins,
            tally,
            n as u32,
            delay as u32,
            id as u32,
        ),
        Action::Cancel(n) => emit_cancelled(trace, joins, tally, n as u32),
    }
}

// Performed, unless it is passed over.
fn perform_in(
    reach: Reach,
    trace: &mut [u32],
    joins: &mut [u32],
    tally: Tally,
    action: Action,
) -> Tally
    requires { ActionFits action × Room tally (perform_if reach action) }
    ensures { Wrote (places trace.old joins.old) (places trace.new joins.new) tally result (perform_if reach action) }
{
    match reach {
        Reach::Live => perform_action(trace, joins, tally, action),
        Reach::Waiting(_) => tally,
        Reach::Past(_) => tally,
    }
}

// How far a block was performed: so many of its actions.
#[derive(Clone, Copy)]
pub struct Plain {
    pub tally: Tally,
    pub actions: usize,
}

// The actions ahead of the first if.
pub fn perform_plain(block: &[u64], trace: &mut [u32], joins: &mut [u32], tally: Tally) -> Plain
    requires { ActionsFit block.now × Room tally (plain_effects (actions_of block.now)) }
    ensures { Wrote (places trace.old joins.old) (places trace.new joins.new) tally result.tally (plain_effects (actions_of block.now)) × (result.actions ≡ plain_count (actions_of block.now)) }
{
    let n = actions_in(block);
    let mut sum = tally;
    for k in 0..n {
        let action = action_of(block, k);
        if is_branch(action) {
            return Plain {
                tally: sum,
                actions: k,
            };
        }
        sum = perform_action(trace, joins, sum, action);
    }
    Plain {
        tally: sum,
        actions: n,
    }
}

// The actions from that one on, while these rows are active.
pub fn perform_rest(
    block: &[u64],
    start: usize,
    active: RowSet,
    trace: &mut [u32],
    joins: &mut [u32],
    tally: Tally,
) -> Tally
    requires { ActionsFit block.now × Room tally (performed_from (rows_of active) Reach.Live (drop start (actions_of block.now))) }
    ensures { Wrote (places trace.old joins.old) (places trace.new joins.new) tally result (performed_from (rows_of active) Reach.Live (drop start (actions_of block.now))) }
{
    let n = actions_in(block);
    let mut sum = tally;
    let mut reach = Reach::Live;
    for k in start..n {
        let action = action_of(block, k);
        sum = perform_in(reach, trace, joins, sum, action);
        reach = reach_after(active, action, reach);
    }
    sum
}
