// What histories store of the configuration before a round, and the words in which they store it.
ghost use Rattle.std.specs.Prelude.{◌≡◌, ◌<◌, length};
ghost use Rattle.definition.specs.Tables.{row_count, chart_of};
ghost use Rattle.follower.specs.Microstep.{would_store, stored};
ghost use Rattle.rowset.specs.Member.{rows_of};
ghost use Rattle.paths.specs.History.{stored_at};
ghost use Rattle.effects.specs.Entering.{HistoryRow};
ghost use Rattle.microstep.specs.Stored.{StoreReady, RoundReady, StoredIs};
ghost use Rattle.matching.specs.Histories.{history_rows};
ghost use Rattle.microstep.specs.Words.{RowStored, HistoryStored};

use crate::Round;
use chart::{children_of, descendants_of, parent_row};
use kinds::{is_history, is_shallow};
use numbers::{Row, row_index};
use rowset::RowSet;
use selection::{Stored, as_stored, stored_at};
use tables::{kind_of, put_set};

// What history h would store of the configuration: "shallow, its active children; deep, its active atomic descendants".
fn would_store(chart: &[u64], atoms: RowSet, conf: RowSet, h: Row) -> RowSet
    requires { StoreReady chart.now atoms conf × HistoryRow chart.now h.0 }
    ensures { rows_of result ≡ would_store (chart_of chart.now) (rows_of conf) h.0 }
{
    let p = parent_row(chart, h);
    if is_shallow(kind_of(chart, h)) {
        return conf.intersection(children_of(chart, p));
    }
    conf.intersection(atoms)
        .intersection(descendants_of(chart, p))
}

// What row h has stored once the rows out are left: it stores "before any is removed", from the configuration before the round.
pub fn stored_after(round: &Round, h: Row) -> Stored
    requires { RoundReady round.now.chart.now round.now.history.now round.now.atoms round.now.conf × (h.0 < row_count round.now.chart.now) }
    ensures { StoredIs (stored (chart_of round.now.chart.now) (rows_of round.now.conf) (stored_at round.now.history.now) (rows_of round.now.out) h.0) result }
{
    if !is_history(kind_of(round.chart, h)) {
        return stored_at(round.history, h);
    }
    if round.out.has(parent_row(round.chart, h)) {
        return as_stored(would_store(round.chart, round.atoms, round.conf, h));
    }
    stored_at(round.history, h)
}

// History h stores, if its parent is left.
fn store_row(chart: &[u64], atoms: RowSet, conf: RowSet, out: RowSet, history: &mut [u64], h: Row)
    requires { StoreReady chart.now atoms conf × HistoryRow chart.now h.0 × (length history.old ≡ 1024) }
    ensures { RowStored chart.now (rows_of conf) (rows_of out) history.old history.new h.0 }
{
    if !out.has(parent_row(chart, h)) {
        return;
    }
    let set = would_store(chart, atoms, conf, h);
    put_set(history, row_index(h) * 4, set);
}

// Every history whose parent is left stores, from the configuration before the round.
pub fn store(
    chart: &[u64],
    atoms: RowSet,
    histories: RowSet,
    conf: RowSet,
    out: RowSet,
    history: &mut [u64],
)
    requires { StoreReady chart.now atoms conf × (rows_of histories ≡ history_rows (chart_of chart.now)) × (length history.old ≡ 1024) }
    ensures { HistoryStored chart.now (rows_of conf) (rows_of out) history.old history.new }
{
    for h in histories.iter() {
        store_row(chart, atoms, conf, out, history, h);
    }
}
