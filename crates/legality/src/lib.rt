// Whether a configuration is legal, and whether a history may have stored a set: the definition's tests (Legal), over sets of rows.
#![tactic(auto)]

ghost use Rattle.std.specs.Prelude.{◌≡◌, ◌<◌};
ghost use Rattle.definition.specs.Rows.{any, all, is_set};
ghost use Rattle.definition.specs.Tables.{row_count, chart_of};
ghost use Rattle.follower.specs.Follower.{is_final_under_root};
ghost use Rattle.follower.specs.Legal.{children_fit, fits_row, is_legal, shallow_fits, is_atomic_below, deep_fits, is_storable};
ghost use Rattle.rowset.specs.Member.{rows_of};
ghost use Rattle.chart.specs.Ready.{Ready, RowReady};
ghost use Rattle.legality.specs.Rows.{RowsReady, HistoryReady, is_held};

use numbers::Row;
use rowset::RowSet;

// Of a parallel every child is in the set, of a compound and the root one.
fn children_fit(chart: &[u64], set: RowSet, r: Row) -> bool
    requires { RowReady chart.now r.0 }
    ensures { result ≡ children_fit (chart_of chart.now) (rows_of set) r.0 }
{
    let children = chart::children_of(chart, r);
    if kinds::is_parallel(tables::kind_of(chart, r)) {
        return children.subset(set);
    }
    if !chart::is_domain_kind(chart, r) {
        return true;
    }
    children.intersection(set).is_single()
}

// Whether a row's parent is active; the root always is.
fn is_held(chart: &[u64], conf: RowSet, r: Row) -> bool
    requires { RowReady chart.now r.0 × (0 < r.0) }
    ensures { result ≡ is_held (chart_of chart.now) (rows_of conf) r.0 }
{
    let p = chart::parent_row(chart, r);
    if kinds::is_root(tables::kind_of(chart, p)) {
        return true;
    }
    conf.has(p)
}

// An active row is neither root nor history, its parent is active, and its children fit: no call is made for a row that has none.
fn row_fits(chart: &[u64], conf: RowSet, r: Row) -> bool
    requires { RowReady chart.now r.0 }
    ensures { result ≡ fits_row (chart_of chart.now) (rows_of conf) r.0 }
{
    let k = tables::kind_of(chart, r);
    if kinds::is_root(k) {
        return false;
    }
    if kinds::is_history(k) {
        return false;
    }
    if !is_held(chart, conf, r) {
        return false;
    }
    let children = chart::children_of(chart, r);
    if children.is_empty() {
        return true;
    }
    children_fit(chart, conf, r)
}

// Whether every row of the set is one of the chart.
pub fn is_inside(chart: &[u64], set: RowSet) -> bool
    requires { Ready chart.now }
    ensures { result ≡ is_set (row_count chart.now) (rows_of set) }
{
    set.subset(RowSet::below(tables::row_count(chart) as u16))
}

pub fn is_legal(chart: &[u64], conf: RowSet) -> bool
    requires { Ready chart.now }
    ensures { result ≡ is_legal (chart_of chart.now) (rows_of conf) }
{
    if !is_inside(chart, conf) {
        return false;
    }
    for r in conf.iter() {
        if !row_fits(chart, conf, r) {
            return false;
        }
    }
    children_fit(chart, conf, Row(0))
}

fn is_final_under_root(chart: &[u64], r: Row) -> bool
    requires { RowReady chart.now r.0 }
    ensures { result ≡ is_final_under_root (chart_of chart.now) r.0 }
{
    if !kinds::is_final(tables::kind_of(chart, r)) {
        return false;
    }
    kinds::is_root(tables::kind_of(chart, chart::parent_row(chart, r)))
}

// "A final under root sets closing."
pub fn has_final(chart: &[u64], conf: RowSet) -> bool
    requires { RowsReady chart.now (rows_of conf) }
    ensures { result ≡ any (is_final_under_root (chart_of chart.now)) (rows_of conf) }
{
    let top = conf.intersection(chart::children_of(chart, Row(0)));
    for r in top.iter() {
        if is_final_under_root(chart, r) {
            return true;
        }
    }
    false
}

// ---- what a history may have stored

// The children of p that a shallow history stores: every one of a parallel, one of a compound.
fn shallow_fits(chart: &[u64], p: Row, set: RowSet) -> bool
    requires { RowReady chart.now p.0 × RowsReady chart.now (rows_of set) }
    ensures { result ≡ shallow_fits (chart_of chart.now) p.0 (rows_of set) }
{
    let kids = chart::children_of(chart, p);
    if !set.subset(kids) {
        return false;
    }
    if kinds::is_parallel(tables::kind_of(chart, p)) {
        return kids.subset(set);
    }
    set.is_single()
}

fn is_atomic_below(chart: &[u64], p: Row, r: Row) -> bool
    requires { RowReady chart.now p.0 × RowReady chart.now r.0 }
    ensures { result ≡ is_atomic_below (chart_of chart.now) p.0 r.0 }
{
    if !chart::descendants_of(chart, p).has(r) {
        return false;
    }
    chart::is_atomic(chart, r)
}

fn are_atomic_below(chart: &[u64], p: Row, set: RowSet) -> bool
    requires { RowReady chart.now p.0 × RowsReady chart.now (rows_of set) }
    ensures { result ≡ all (is_atomic_below (chart_of chart.now) p.0) (rows_of set) }
{
    for r in set.iter() {
        if !is_atomic_below(chart, p, r) {
            return false;
        }
    }
    true
}

// The children of every row of the set fit.
fn all_children_fit(chart: &[u64], set: RowSet) -> bool
    requires { RowsReady chart.now (rows_of set) }
    ensures { result ≡ all (children_fit (chart_of chart.now) (rows_of set)) (rows_of set) }
{
    for r in set.iter() {
        if !children_fit(chart, set, r) {
            return false;
        }
    }
    true
}

// The atomic descendants of p that a deep history stores: with the rows on the way to them they fit below p.
fn deep_fits(chart: &[u64], p: Row, set: RowSet) -> bool
    requires { RowReady chart.now p.0 × RowsReady chart.now (rows_of set) }
    ensures { result ≡ deep_fits (chart_of chart.now) p.0 (rows_of set) }
{
    if !are_atomic_below(chart, p, set) {
        return false;
    }
    let paths = paths::paths_below(chart, p, set);
    if !children_fit(chart, paths, p) {
        return false;
    }
    all_children_fit(chart, paths)
}

// Whether the set is one that the parent of history h would store from some legal configuration.
pub fn is_storable(chart: &[u64], h: Row, set: RowSet) -> bool
    requires { HistoryReady chart.now h.0 }
    ensures { result ≡ is_storable (chart_of chart.now) h.0 (rows_of set) }
{
    if !is_inside(chart, set) {
        return false;
    }
    let p = chart::parent_row(chart, h);
    if kinds::is_shallow(tables::kind_of(chart, h)) {
        return shallow_fits(chart, p, set);
    }
    deep_fits(chart, p, set)
}
