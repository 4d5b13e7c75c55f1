// Readers of a compiled chart: the sets behind the numbers, and what they say of a row.
#![tactic(auto)]

ghost use Rattle.std.specs.Prelude.{◌≡◌, [], ◌+◌, ◌*◌};
ghost use Rattle.definition.specs.Rows.{union};
ghost use Rattle.definition.specs.Tables.{row_count, tables_size, chart_of};
ghost use Rattle.definition.specs.Tree.{ancestors, descendants, children, is_compound, is_atomic, is_domain_kind, default_targets, anchors};
ghost use Rattle.rowset.specs.Member.{rows_of};
ghost use Rattle.chart.specs.Ready.{row_set_at, RowReady, RowWith, BelowRoot, TransitionReady, ParentRow, SetInside};

pub use kinds::is_history;
use kinds::{is_final, is_root, is_state};
use numbers::{Row, Transition};
use rowset::RowSet;
use tables::columns;
pub use tables::set_at;

// ---- the sets

// The set of row or transition i in a column. The columns end where the chart does, so the size of the tables need not be summed up.
fn set_in(chart: &[u64], column: usize, i: usize) -> RowSet
    requires { SetInside chart.now column i }
    ensures { result ≡ row_set_at chart.now (tables_size chart.now + row_count chart.now * column + i * 4) }
{
    let rows = chart[columns::ROWS] as usize;
    let transitions = chart[columns::TRANSITIONS] as usize;
    let after = transitions * columns::TRANSITION_SET_WORDS
        + rows * (columns::ROW_SET_WORDS - column);
    set_at(chart, chart.len() - after + i * columns::SET_WIDTH)
}

// The proper ancestors of a row.
pub fn ancestors_of(chart: &[u64], r: Row) -> RowSet
    requires { RowReady chart.now r.0 }
    ensures { rows_of result ≡ union [] (ancestors (chart_of chart.now) r.0) }
{
    set_in(chart, columns::ANCESTORS, r.0 as usize)
}

// The proper descendants of a row.
pub fn descendants_of(chart: &[u64], r: Row) -> RowSet
    requires { RowReady chart.now r.0 }
    ensures { rows_of result ≡ descendants (chart_of chart.now) r.0 }
{
    set_in(chart, columns::DESCENDANTS, r.0 as usize)
}

pub fn children_of(chart: &[u64], r: Row) -> RowSet
    requires { RowReady chart.now r.0 }
    ensures { rows_of result ≡ children (chart_of chart.now) r.0 }
{
    set_in(chart, columns::CHILDREN, r.0 as usize)
}

// The default entry targets of a row: none but for the root and the compounds.
pub fn default_targets_of(chart: &[u64], r: Row) -> RowSet
    requires { RowReady chart.now r.0 }
    ensures { rows_of result ≡ union [] (default_targets (chart_of chart.now) r.0) }
{
    set_in(chart, columns::DEFAULT_TARGETS, r.0 as usize)
}

// The anchors of a transition's targets.
pub fn anchors_of(chart: &[u64], t: Transition) -> RowSet
    requires { TransitionReady chart.now t.0 }
    ensures { rows_of result ≡ anchors (chart_of chart.now) t.0 }
{
    set_in(chart, columns::ANCHORS, t.0 as usize)
}

// ---- rows

pub fn is_compound(chart: &[u64], r: Row) -> bool
    requires { RowReady chart.now r.0 }
    ensures { result ≡ is_compound (chart_of chart.now) r.0 }
{
    if is_state(tables::kind_of(chart, r)) {
        return !children_of(chart, r).is_empty();
    }
    false
}

pub fn is_atomic(chart: &[u64], r: Row) -> bool
    requires { RowReady chart.now r.0 }
    ensures { result ≡ is_atomic (chart_of chart.now) r.0 }
{
    let k = tables::kind_of(chart, r);
    if is_final(k) {
        return true;
    }
    if is_state(k) {
        return children_of(chart, r).is_empty();
    }
    false
}

// Whether a row with these children has an initial list and may be a domain: the root and the compounds. The sets of the chart need not be there yet.
pub fn has_initial(numbers: &[u64], r: Row, kids: RowSet) -> bool
    requires { RowWith numbers.now r.0 kids }
    ensures { result ≡ is_domain_kind (chart_of numbers.now) r.0 }
{
    let k = tables::kind_of(numbers, r);
    if is_root(k) {
        return true;
    }
    if is_state(k) {
        return !kids.is_empty();
    }
    false
}

pub fn is_domain_kind(chart: &[u64], r: Row) -> bool
    requires { RowReady chart.now r.0 }
    ensures { result ≡ is_domain_kind (chart_of chart.now) r.0 }
{
    has_initial(chart, r, children_of(chart, r))
}

// The parent of a row that is not the root.
pub fn parent_row(chart: &[u64], r: Row) -> Row
    requires { BelowRoot chart.now r.0 }
    ensures { ParentRow chart.now r.0 result.0 }
{
    tables::parent_row(chart, r)
}
