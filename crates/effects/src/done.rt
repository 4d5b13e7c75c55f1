// Done events: which rows are in a final state, and what an entered final queues.
ghost use Rattle.std.specs.Prelude.{◌≡◌};
ghost use Rattle.definition.specs.Rows.{any};
ghost use Rattle.definition.specs.Tables.{row_count, chart_of};
ghost use Rattle.follower.specs.Microstep.{is_in_final, add_in_final, is_done_above, done_effects, active_at};
ghost use Rattle.tables.specs.Ranges.{InTables};
ghost use Rattle.rowset.specs.Member.{rows_of};
ghost use Rattle.chart.specs.Ready.{RowReady};
ghost use Rattle.effects.specs.Trace.{places, Wrote, Room};
ghost use Rattle.chart.specs.Within.{Within};
ghost use Rattle.effects.specs.Entering.{is_final_row, final_below};

use crate::Tally;
use crate::writing::{DONE, emit_join};
use chart::{children_of, descendants_of, is_compound, parent_row};
use kinds::{is_final, is_parallel, is_root};
use numbers::{Row, row_after};
use rowset::RowSet;
use tables::kind_of;

// Whether a row of the set is a final.
fn any_final(chart: &[u64], set: RowSet) -> bool
    requires { InTables chart.now × Within (row_count chart.now) (rows_of set) }
    ensures { result ≡ any (is_final_row (chart_of chart.now)) (rows_of set) }
{
    for r in set.iter() {
        if is_final(kind_of(chart, r)) {
            return true;
        }
    }
    false
}

// Whether row r is in a final state, by the rows below it that are.
fn is_in_final(chart: &[u64], active: RowSet, set: RowSet, r: Row) -> bool
    requires { RowReady chart.now r.0 }
    ensures { result ≡ is_in_final (chart_of chart.now) (rows_of active) (rows_of set) r.0 }
{
    if is_parallel(kind_of(chart, r)) {
        return children_of(chart, r).subset(set);
    }
    if is_compound(chart, r) {
        return any_final(chart, children_of(chart, r).intersection(active));
    }
    false
}

fn add_in_final(chart: &[u64], active: RowSet, set: RowSet, r: Row) -> RowSet
    requires { RowReady chart.now r.0 }
    ensures { rows_of result ≡ add_in_final (chart_of chart.now) (rows_of active) (rows_of set) r.0 }
{
    if is_in_final(chart, active, set, r) {
        return set.with(r);
    }
    set
}

// The rows below g in a final state. A row's state hangs on the rows below it alone, so no others are visited.
fn final_below(chart: &[u64], active: RowSet, g: Row) -> RowSet
    requires { RowReady chart.now g.0 }
    ensures { rows_of result ≡ final_below (chart_of chart.now) (rows_of active) g.0 }
{
    let below = descendants_of(chart, g);
    let mut set = RowSet::empty();
    for r in below.down() {
        set = add_in_final(chart, active, set, r);
    }
    set
}

// Whether g is parallel and all its children are in a final state.
fn is_done_above(chart: &[u64], active: RowSet, g: Row) -> bool
    requires { RowReady chart.now g.0 }
    ensures { result ≡ is_done_above (chart_of chart.now) (rows_of active) g.0 }
{
    if is_parallel(kind_of(chart, g)) {
        return children_of(chart, g).subset(final_below(chart, active, g));
    }
    false
}

// The rows that are active when row r is entered: those that stay, and those of the set up to it.
pub fn active_at(stay: RowSet, set: RowSet, r: Row) -> RowSet
    ensures { rows_of result ≡ active_at (rows_of stay) (rows_of set) r.0 }
{
    let n = row_after(r);
    stay.union(set.intersection(RowSet::below(n)))
}

// The done events of an entered row, if it is a final that is not under the root.
pub fn done_effects(
    chart: &[u64],
    stay: RowSet,
    set: RowSet,
    r: Row,
    trace: &mut [u32],
    joins: &mut [u32],
    tally: Tally,
) -> Tally
    requires { RowReady chart.now r.0 × Room tally (done_effects (chart_of chart.now) (active_at (rows_of stay) (rows_of set) r.0) r.0) }
    ensures { Wrote (places trace.old joins.old) (places trace.new joins.new) tally result (done_effects (chart_of chart.now) (active_at (rows_of stay) (rows_of set) r.0) r.0) }
{
    if !is_final(kind_of(chart, r)) {
        return tally;
    }
    let p = parent_row(chart, r);
    if is_root(kind_of(chart, p)) {
        return tally;
    }
    let g = parent_row(chart, p);
    let both = is_done_above(chart, active_at(stay, set, r), g);
    let sum = emit_join(trace, joins, tally, DONE, p.0 as u32);
    if both {
        return emit_join(trace, joins, sum, DONE, g.0 as u32);
    }
    sum
}
