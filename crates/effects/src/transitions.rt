// The transitions of a round, in selection order, each with the row that chose it.
ghost use Rattle.std.specs.Prelude.{◌≡◌, length};
ghost use Rattle.definition.specs.Rows.{flat};
ghost use Rattle.definition.specs.Tables.{transition_count, transition_block_at, chart_of};
ghost use Rattle.follower.specs.Blocks.{performed};
ghost use Rattle.follower.specs.Microstep.{transition_effects};
ghost use Rattle.tables.specs.Ranges.{InTables, TransitionIn};
ghost use Rattle.rowset.specs.Member.{rows_of};
ghost use Rattle.effects.specs.Trace.{places, Wrote, Room};
ghost use Rattle.effects.specs.Choosers.{chooser_in};
ghost use Rattle.chart.specs.Within.{Taken};

use crate::Tally;
use crate::blocks::{perform_plain, perform_rest};
use crate::writing::{CHOSEN, TAKEN, emit};
use numbers::Transition;
use rowset::RowSet;
use tables::{actions_in, transition_block_of};

// The block of transition t, read again where it has an if.
fn perform_taken(
    chart: &[u64],
    stay: RowSet,
    t: Transition,
    trace: &mut [u32],
    joins: &mut [u32],
    tally: Tally,
) -> Tally
    requires { TransitionIn chart.now t.0 × Room tally (performed (rows_of stay) (transition_block_at chart.now t.0)) }
    ensures { Wrote (places trace.old joins.old) (places trace.new joins.new) tally result (performed (rows_of stay) (transition_block_at chart.now t.0)) }
{
    let block = transition_block_of(chart, t);
    let plain = perform_plain(block, trace, joins, tally);
    let sum = plain.tally;
    let k = plain.actions;
    if k == actions_in(block) {
        return sum;
    }
    let again = transition_block_of(chart, t);
    perform_rest(again, k, stay, trace, joins, sum)
}

fn take_transition(
    chart: &[u64],
    stay: RowSet,
    by: &[u16],
    t: Transition,
    trace: &mut [u32],
    joins: &mut [u32],
    tally: Tally,
) -> Tally
    requires { TransitionIn chart.now t.0 × (length by.now ≡ 512) × Room tally (transition_effects (chart_of chart.now) (rows_of stay) (chooser_in by.now) t.0) }
    ensures { Wrote (places trace.old joins.old) (places trace.new joins.new) tally result (transition_effects (chart_of chart.now) (rows_of stay) (chooser_in by.now) t.0) }
{
    let first = emit(trace, tally, TAKEN, t.0 as u32);
    let at = t.0 as usize;
    let sum = emit(trace, first, CHOSEN, by[at] as u32);
    perform_taken(chart, stay, t, trace, joins, sum)
}

// In selection order, while the rows that stay are active; by has a place for each transition, with the row that chose it.
pub fn transition_effects(
    chart: &[u64],
    stay: RowSet,
    chosen: &[u16],
    by: &[u16],
    trace: &mut [u32],
    joins: &mut [u32],
    tally: Tally,
) -> Tally
    requires { InTables chart.now × Taken (transition_count chart.now) chosen.now × (length by.now ≡ 512) × Room tally (flat (transition_effects (chart_of chart.now) (rows_of stay) (chooser_in by.now)) chosen.now) }
    ensures { Wrote (places trace.old joins.old) (places trace.new joins.new) tally result (flat (transition_effects (chart_of chart.now) (rows_of stay) (chooser_in by.now)) chosen.now) }
{
    let mut sum = tally;
    for i in 0..chosen.len() {
        sum = take_transition(chart, stay, by, Transition(chosen[i]), trace, joins, sum);
    }
    sum
}
