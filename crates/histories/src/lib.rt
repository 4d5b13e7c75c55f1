// Whether all that a session has stored may be stored. The sets of the deep histories are judged together: at each row stands the set of the histories
// that have it on their paths, and one pass over the rows, each after its children, judges them all.
#![tactic(auto)]

ghost use Rattle.std.specs.Prelude.{◌≡◌, length};
ghost use Rattle.definition.specs.Rows.{all, from};
ghost use Rattle.definition.specs.Tables.{row_count, chart_of};
ghost use Rattle.rowset.specs.Member.{rows_of};
ghost use Rattle.chart.specs.Ready.{Ready, RowReady};
ghost use Rattle.matching.specs.Chosen.{atomic_rows};
ghost use Rattle.histories.specs.Marks.{Marked};
ghost use Rattle.histories.specs.Shares.{Shared};
ghost use Rattle.histories.specs.Places.{holds_place, Blank, Marking, Put};
ghost use Rattle.histories.specs.Turns.{RowJudged};

use numbers::Row;
use rowset::RowSet;
use tables::columns::SET_WIDTH;

// History h is put into the set at each of the rows.
fn mark(marks: &mut [u64], h: Row, rows: RowSet)
    requires { length marks.old ≡ 1024 }
    ensures { Marked marks.old marks.new h.0 (rows_of rows) }
{
    for r in rows.iter() {
        let at = usize::from(r) * SET_WIDTH;
        tables::put_set(marks, at, tables::set_at(marks, at).with(h));
    }
}

// What can be told of a place by itself; a deep history is put into the sets at the rows that it stores and at its parent.
fn mark_place(chart: &[u64], history: &[u64], leaves: RowSet, marks: &mut [u64], h: Row) -> bool
    requires { RowReady chart.now h.0 × (length history.now ≡ 1024) × (rows_of leaves ≡ atomic_rows (chart_of chart.now)) × (length marks.old ≡ 1024) }
    ensures { Marking chart.now history.now marks.old marks.new h.0 result }
{
    let set = tables::set_at(history, h.0 as usize * SET_WIDTH);
    if set.is_empty() {
        return true;
    }
    let kind = tables::kind_of(chart, h);
    if !kinds::is_history(kind) {
        return false;
    }
    if kinds::is_shallow(kind) {
        return legality::is_storable(chart, h, set);
    }
    let p = chart::parent_row(chart, h);
    if !set.subset(leaves.intersection(chart::descendants_of(chart, p))) {
        return false;
    }
    mark(marks, h, set.with(p));
    true
}

fn mark_all(chart: &[u64], history: &[u64], marks: &mut [u64]) -> bool
    requires { Ready chart.now × (length history.now ≡ 1024) × Blank marks.old }
    ensures { Put chart.now history.now marks.new result }
{
    let leaves = matching::rows::atomic_rows(chart);
    let n = tables::row_count(chart);
    for i in 0..n {
        if !mark_place(chart, history, leaves, marks, Row(i as u8)) {
            return false;
        }
    }
    true
}

// What some of the sets at the rows have, what two of them have, and what all have.
#[derive(Clone, Copy)]
struct Common {
    some: RowSet,
    twice: RowSet,
    every: RowSet,
}

fn common_of(marks: &[u64], rows: RowSet) -> Common
    requires { length marks.now ≡ 1024 }
    ensures { Shared marks.now (rows_of rows) (rows_of result.some) (rows_of result.twice) (rows_of result.every) }
{
    let mut some = RowSet::empty();
    let mut twice = RowSet::empty();
    let mut every = RowSet::below(256);
    for r in rows.iter() {
        let here = tables::set_at(marks, usize::from(r) * SET_WIDTH);
        twice = twice.union(some.intersection(here));
        some = some.union(here);
        every = every.intersection(here);
    }
    Common {
        some: some,
        twice: twice,
        every: every,
    }
}

// The histories on whose paths a child stands have the row on theirs too, but for those whose parent it is. Of a parallel every child is on the paths
// that one is on, of another row no two are.
fn judge_row(chart: &[u64], marks: &mut [u64], r: Row) -> bool
    requires { RowReady chart.now r.0 × (length marks.old ≡ 1024) }
    ensures { RowJudged chart.now marks.old marks.new r.0 result }
{
    let kids = chart::children_of(chart, r);
    if kids.is_empty() {
        return true;
    }
    let shared = common_of(marks, kids);
    let some = shared.some;
    let twice = shared.twice;
    let every = shared.every;
    let at = r.0 as usize * SET_WIDTH;
    let own = tables::set_at(marks, at);
    tables::put_set(marks, at, some.minus(own));
    if kinds::is_parallel(tables::kind_of(chart, r)) {
        return some.subset(every);
    }
    twice.is_empty()
}

fn judge(chart: &[u64], history: &[u64], marks: &mut [u64]) -> bool
    requires { Ready chart.now × (length history.now ≡ 1024) × Blank marks.old }
    ensures { result ≡ all (holds_place (chart_of chart.now) history.now) (from (row_count chart.now) 0) }
{
    if !mark_all(chart, history, marks) {
        return false;
    }
    let n = tables::row_count(chart);
    for i in (0..n).rev() {
        if !judge_row(chart, marks, Row(i as u8)) {
            return false;
        }
    }
    true
}

// Whether each place of the rows holds.
pub fn places_hold(chart: &[u64], history: &[u64]) -> bool
    requires { Ready chart.now × (length history.now ≡ 1024) }
    ensures { result ≡ all (holds_place (chart_of chart.now) history.now) (from (row_count chart.now) 0) }
{
    let mut marks = [0u64; 1024];
    judge(chart, history, &mut marks)
}
