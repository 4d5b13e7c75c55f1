// Entries: "entry block; initial block, if its child came by default; default block, if a history of this row fell to its
// default list", then the done events.
ghost use Rattle.std.specs.Prelude.{drop};
ghost use Rattle.definition.specs.declared.Reach.TheVariants.{Live};
ghost use Rattle.definition.specs.Rows.{flat};
ghost use Rattle.definition.specs.Tables.{row_count, entry_at, chart_of};
ghost use Rattle.follower.specs.Blocks.{performed_from, performed};
ghost use Rattle.follower.specs.Microstep.{initial_block, active_at, default_effects, entering};
ghost use Rattle.tables.specs.Ranges.{RowIn};
ghost use Rattle.tables.specs.Parts.{actions_of};
ghost use Rattle.rowset.specs.Member.{rows_of};
ghost use Rattle.chart.specs.Ready.{Ready, RowReady};
ghost use Rattle.effects.specs.Trace.{places, Wrote, Room};
ghost use Rattle.effects.specs.Blocks.{ActionsFit};
ghost use Rattle.chart.specs.Within.{Within};
ghost use Rattle.effects.specs.Entering.{row_entered, entry_is, HistoryRow, HistoryRows};

use crate::Tally;
use crate::blocks::{perform_plain, perform_rest};
use crate::done::{active_at, done_effects};
use crate::writing::{ENTERED, emit};
use chart::parent_row;
use numbers::Row;
use rowset::RowSet;
use tables::{actions_in, entry_block_of, list_block_of};

// The actions of a block from that one on, in the entry of row r. The rows that are active then are worked out for ifs and done events alone.
fn rest_entering(
    block: &[u64],
    start: usize,
    stay: RowSet,
    set: RowSet,
    r: Row,
    trace: &mut [u32],
    joins: &mut [u32],
    tally: Tally,
) -> Tally
    requires { ActionsFit block.now × Room tally (performed_from (active_at (rows_of stay) (rows_of set) r.0) Live (drop start (actions_of block.now))) }
    ensures { Wrote (places trace.old joins.old) (places trace.new joins.new) tally result (performed_from (active_at (rows_of stay) (rows_of set) r.0) Live (drop start (actions_of block.now))) }
{
    let active = active_at(stay, set, r);
    perform_rest(block, start, active, trace, joins, tally)
}

// The block of a list, in the entry of row r.
fn perform_entering(
    block: &[u64],
    stay: RowSet,
    set: RowSet,
    r: Row,
    trace: &mut [u32],
    joins: &mut [u32],
    tally: Tally,
) -> Tally
    requires { ActionsFit block.now × Room tally (performed (active_at (rows_of stay) (rows_of set) r.0) (actions_of block.now)) }
    ensures { Wrote (places trace.old joins.old) (places trace.new joins.new) tally result (performed (active_at (rows_of stay) (rows_of set) r.0) (actions_of block.now)) }
{
    let plain = perform_plain(block, trace, joins, tally);
    let sum = plain.tally;
    let k = plain.actions;
    if k == actions_in(block) {
        return sum;
    }
    rest_entering(block, k, stay, set, r, trace, joins, sum)
}

// The entry block of row r. It is performed for every row that is entered, so it has a function of its own, which a compiler can put in line; it is read again where it has an if.
fn perform_entry(
    chart: &[u64],
    stay: RowSet,
    set: RowSet,
    r: Row,
    trace: &mut [u32],
    joins: &mut [u32],
    tally: Tally,
) -> Tally
    requires { RowIn chart.now r.0 × Room tally (performed (active_at (rows_of stay) (rows_of set) r.0) (entry_at chart.now r.0)) }
    ensures { Wrote (places trace.old joins.old) (places trace.new joins.new) tally result (performed (active_at (rows_of stay) (rows_of set) r.0) (entry_at chart.now r.0)) }
{
    let block = entry_block_of(chart, r);
    let plain = perform_plain(block, trace, joins, tally);
    let sum = plain.tally;
    let k = plain.actions;
    if k == actions_in(block) {
        return sum;
    }
    let again = entry_block_of(chart, r);
    rest_entering(again, k, stay, set, r, trace, joins, sum)
}

fn initial_block(
    chart: &[u64],
    stay: RowSet,
    set: RowSet,
    defaults: RowSet,
    r: Row,
    trace: &mut [u32],
    joins: &mut [u32],
    tally: Tally,
) -> Tally
    requires { RowIn chart.now r.0 × Room tally (performed (active_at (rows_of stay) (rows_of set) r.0) (initial_block (chart_of chart.now) (rows_of defaults) r.0)) }
    ensures { Wrote (places trace.old joins.old) (places trace.new joins.new) tally result (performed (active_at (rows_of stay) (rows_of set) r.0) (initial_block (chart_of chart.now) (rows_of defaults) r.0)) }
{
    if !defaults.has(r) {
        return tally;
    }
    let block = list_block_of(chart, r);
    perform_entering(block, stay, set, r, trace, joins, tally)
}

fn default_block(
    chart: &[u64],
    stay: RowSet,
    set: RowSet,
    r: Row,
    h: Row,
    trace: &mut [u32],
    joins: &mut [u32],
    tally: Tally,
) -> Tally
    requires { HistoryRow chart.now h.0 × Room tally (default_effects (chart_of chart.now) (active_at (rows_of stay) (rows_of set) r.0) r.0 h.0) }
    ensures { Wrote (places trace.old joins.old) (places trace.new joins.new) tally result (default_effects (chart_of chart.now) (active_at (rows_of stay) (rows_of set) r.0) r.0 h.0) }
{
    if r != parent_row(chart, h) {
        return tally;
    }
    let block = list_block_of(chart, h);
    perform_entering(block, stay, set, r, trace, joins, tally)
}

// In most rounds no history fell: then nothing is worked out for a row.
fn default_blocks(
    chart: &[u64],
    stay: RowSet,
    set: RowSet,
    r: Row,
    fallen: RowSet,
    trace: &mut [u32],
    joins: &mut [u32],
    tally: Tally,
) -> Tally
    requires { HistoryRows chart.now (rows_of fallen) × Room tally (flat (default_effects (chart_of chart.now) (active_at (rows_of stay) (rows_of set) r.0) r.0) (rows_of fallen)) }
    ensures { Wrote (places trace.old joins.old) (places trace.new joins.new) tally result (flat (default_effects (chart_of chart.now) (active_at (rows_of stay) (rows_of set) r.0) r.0) (rows_of fallen)) }
{
    if fallen.is_empty() {
        return tally;
    }
    let mut sum = tally;
    for h in fallen.iter() {
        sum = default_block(chart, stay, set, r, h, trace, joins, sum);
    }
    sum
}

// Row r is entered, without its done events: active are the rows that stay and those of the set up to it, itself among them.
fn enter_row(
    chart: &[u64],
    stay: RowSet,
    set: RowSet,
    defaults: RowSet,
    fallen: RowSet,
    r: Row,
    trace: &mut [u32],
    joins: &mut [u32],
    tally: Tally,
) -> Tally
    requires { RowReady chart.now r.0 × HistoryRows chart.now (rows_of fallen) × Room tally (row_entered (chart_of chart.now) (active_at (rows_of stay) (rows_of set) r.0) (rows_of defaults) (rows_of fallen) r.0) }
    ensures { Wrote (places trace.old joins.old) (places trace.new joins.new) tally result (row_entered (chart_of chart.now) (active_at (rows_of stay) (rows_of set) r.0) (rows_of defaults) (rows_of fallen) r.0) }
{
    let s1 = emit(trace, tally, ENTERED, r.0 as u32);
    let s2 = perform_entry(chart, stay, set, r, trace, joins, s1);
    let s3 = initial_block(chart, stay, set, defaults, r, trace, joins, s2);
    default_blocks(chart, stay, set, r, fallen, trace, joins, s3)
}

// Entries in document order.
pub fn entry_effects(
    chart: &[u64],
    stay: RowSet,
    set: RowSet,
    defaults: RowSet,
    fallen: RowSet,
    trace: &mut [u32],
    joins: &mut [u32],
    tally: Tally,
) -> Tally
    requires { Ready chart.now × Within (row_count chart.now) (rows_of set) × HistoryRows chart.now (rows_of fallen) × Room tally (entering (chart_of chart.now) (rows_of stay) (entry_is set defaults) (rows_of fallen)) }
    ensures { Wrote (places trace.old joins.old) (places trace.new joins.new) tally result (entering (chart_of chart.now) (rows_of stay) (entry_is set defaults) (rows_of fallen)) }
{
    let mut sum = tally;
    for r in set.iter() {
        sum = enter_row(chart, stay, set, defaults, fallen, r, trace, joins, sum);
        sum = done_effects(chart, stay, set, r, trace, joins, sum);
    }
    sum
}
