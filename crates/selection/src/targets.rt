// What a history has stored, and the effective targets of a transition.
ghost use Rattle.std.specs.Prelude.{◌≡◌, length};
ghost use Rattle.definition.specs.Rows.{union};
ghost use Rattle.definition.specs.Tables.{transition_at, chart_of};
ghost use Rattle.follower.specs.Selection.{effective_targets};
ghost use Rattle.rowset.specs.Member.{rows_of};
ghost use Rattle.chart.specs.Ready.{RowReady};
ghost use Rattle.paths.specs.History.{stored_at};
ghost use Rattle.selection.specs.History.{as_stored, stored_of, stands_for};
ghost use Rattle.selection.specs.Ready.{MoveReady};

use crate::Stored;
use numbers::{Row, Transition, row_index};
use rowset::RowSet;

// A set that a history stores: the empty one says that nothing is stored.
pub fn as_stored(set: RowSet) -> Stored
    ensures { result ≡ as_stored set }
{
    if set.is_empty() {
        return Stored::Nothing;
    }
    Stored::Stored(set)
}

// Four words for each of 256 rows.
pub fn stored_at(history: &[u64], h: Row) -> Stored
    requires { length history.now ≡ 1024 }
    ensures { result ≡ stored_of history.now h.0 }
{
    as_stored(chart::set_at(history, row_index(h) * 4))
}

// The set with what stands in for target x, which has `kept` stored if it is a history.
pub fn add_stand_ins(chart: &[u64], set: RowSet, x: Row, kept: Stored) -> RowSet
    requires { RowReady chart.now x.0 }
    ensures { rows_of result ≡ union (rows_of set) (stands_for (chart_of chart.now) kept x.0) }
{
    if !kinds::is_history(tables::kind_of(chart, x)) {
        return set.with(x);
    }
    let Stored::Stored(stored) = kept else {
        return tables::with_rows(chart, set, tables::list_of(chart, x));
    };
    set.union(stored)
}

pub fn effective_targets(chart: &[u64], history: &[u64], t: Transition) -> RowSet
    requires { MoveReady chart.now history.now t.0 }
    ensures { rows_of result ≡ effective_targets (chart_of chart.now) (stored_at history.now) (transition_at chart.now t.0) }
{
    let targets = tables::targets_of(chart, t);
    let mut set = RowSet::empty();
    for i in 0..targets.len() {
        let x = tables::row_at(chart, targets, i);
        set = add_stand_ins(chart, set, x, stored_at(history, x));
    }
    set
}
