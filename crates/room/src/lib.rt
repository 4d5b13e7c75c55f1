// How many entries of trace suffice for any one start or round of a chart. The laws of it, and of how many rounds a run does, stand in specs/.
#![tactic(auto)]

ghost use Rattle.std.specs.Prelude.{◌≡◌};
ghost use Rattle.definition.specs.Tables.{chart_of};
ghost use Rattle.tables.specs.Ranges.{InTables, RowIn, TransitionIn};
ghost use Rattle.room.specs.Room.{room_in_row, transition_room, rows_room, transitions_room, room_of, most_row_room, most_transition_room, most_rows_room, most_transitions_room};
ghost use Rattle.room.specs.Adding.{Few};

use numbers::{Row, Transition};

// Of a row beside its blocks: its exit, its entry, two done events.
const OF_ROW: usize = 4;

// Of a transition beside its block: itself, and the row that chose it.
const OF_TRANSITION: usize = 2;

fn row_room(chart: &[u64], r: Row) -> usize
    requires { RowIn chart.now r.0 }
    ensures { Few (room_in_row (chart_of chart.now) r.0) most_row_room result }
{
    let exit = tables::actions_in(tables::exit_block_of(chart, r));
    let entry = tables::actions_in(tables::entry_block_of(chart, r));
    let list = tables::actions_in(tables::list_block_of(chart, r));
    OF_ROW + exit + entry + list
}

fn transition_room(chart: &[u64], t: Transition) -> usize
    requires { TransitionIn chart.now t.0 }
    ensures { Few (transition_room (chart_of chart.now) t.0) most_transition_room result }
{
    OF_TRANSITION + tables::actions_in(tables::transition_block_of(chart, t))
}

fn rows_room(chart: &[u64]) -> usize
    requires { InTables chart.now }
    ensures { Few (rows_room (chart_of chart.now)) most_rows_room result }
{
    let rows = tables::row_count(chart) as u16;
    let mut sum: usize = 0;
    for i in 0..rows {
        sum += row_room(chart, Row(i as u8));
    }
    sum
}

fn transitions_room(chart: &[u64]) -> usize
    requires { InTables chart.now }
    ensures { Few (transitions_room (chart_of chart.now)) most_transitions_room result }
{
    let n = tables::transition_count(chart) as u16;
    let mut sum: usize = 0;
    for t in 0..n {
        sum += transition_room(chart, Transition(t));
    }
    sum
}

// The entries that suffice for any one start or round of the chart; 0 where it is no compiled chart.
// Kept: C is answered this number as it is, so 0 stands in place of an Option.
pub fn room(chart: &[u64], names: &[u8]) -> usize
    ensures { result ≡ room_of chart.now names.now }
{
    if !compiler::check(chart, names) {
        return 0;
    }
    rows_room(chart) + transitions_room(chart)
}
