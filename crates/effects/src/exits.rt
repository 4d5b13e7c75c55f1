// Exits: "descendants first, reverse document order".
ghost use Rattle.std.specs.Prelude.{◌≡◌};
ghost use Rattle.definition.specs.Tables.{row_count, exit_at, chart_of};
ghost use Rattle.follower.specs.Blocks.{performed};
ghost use Rattle.follower.specs.Microstep.{exit_effects, exiting, active_leaving};
ghost use Rattle.tables.specs.Ranges.{InTables, RowIn};
ghost use Rattle.rowset.specs.Member.{rows_of};
ghost use Rattle.effects.specs.Trace.{places, Wrote, Room};
ghost use Rattle.chart.specs.Within.{Within};

use crate::Tally;
use crate::blocks::{perform_plain, perform_rest};
use crate::writing::{EXITED, emit};
use numbers::{Row, row_after};
use rowset::{RowSet, RowsDown};
use tables::{actions_in, exit_block_of, row_count};

// The rows that are active when row r is exited: those of the configuration, but for the rows of out behind it.
fn active_out(conf: RowSet, out: RowSet, r: Row) -> RowSet
    ensures { rows_of result ≡ active_leaving (rows_of conf) (rows_of out) r.0 }
{
    let n = row_after(r);
    conf.minus(out.minus(RowSet::below(n)))
}

// The exit block of row r. Where it has an if it is read again, so that nothing is kept for that in a block that has none.
fn perform_exiting(
    chart: &[u64],
    conf: RowSet,
    out: RowSet,
    r: Row,
    trace: &mut [u32],
    joins: &mut [u32],
    tally: Tally,
) -> Tally
    requires { RowIn chart.now r.0 × Room tally (performed (active_leaving (rows_of conf) (rows_of out) r.0) (exit_at chart.now r.0)) }
    ensures { Wrote (places trace.old joins.old) (places trace.new joins.new) tally result (performed (active_leaving (rows_of conf) (rows_of out) r.0) (exit_at chart.now r.0)) }
{
    let block = exit_block_of(chart, r);
    let plain = perform_plain(block, trace, joins, tally);
    let sum = plain.tally;
    let k = plain.actions;
    if k == actions_in(block) {
        return sum;
    }
    let active = active_out(conf, out, r);
    let again = exit_block_of(chart, r);
    perform_rest(again, k, active, trace, joins, sum)
}

fn exit_row(
    chart: &[u64],
    conf: RowSet,
    out: RowSet,
    r: Row,
    trace: &mut [u32],
    joins: &mut [u32],
    tally: Tally,
) -> Tally
    requires { RowIn chart.now r.0 × Room tally (exit_effects (chart_of chart.now) (rows_of conf) (rows_of out) r.0) }
    ensures { Wrote (places trace.old joins.old) (places trace.new joins.new) tally result (exit_effects (chart_of chart.now) (rows_of conf) (rows_of out) r.0) }
{
    let sum = emit(trace, tally, EXITED, r.0 as u32);
    perform_exiting(chart, conf, out, r, trace, joins, sum)
}

// The rows out of a configuration, from the last of the chart's on: no word of a set is asked for that has none of them.
pub fn exit_effects(
    chart: &[u64],
    conf: RowSet,
    out: RowSet,
    trace: &mut [u32],
    joins: &mut [u32],
    tally: Tally,
) -> Tally
    requires { InTables chart.now × Within (row_count chart.now) (rows_of out) × Room tally (exiting (chart_of chart.now) (rows_of conf) (rows_of out)) }
    ensures { Wrote (places trace.old joins.old) (places trace.new joins.new) tally result (exiting (chart_of chart.now) (rows_of conf) (rows_of out)) }
{
    let mut sum = tally;
    let rows = RowsDown {
        set: out,
        below: row_count(chart) as u16,
    };
    for r in rows {
        sum = exit_row(chart, conf, out, r, trace, joins, sum);
    }
    sum
}
