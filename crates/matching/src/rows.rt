// The rows that a round asks for by kind: the atomic rows, the histories, and those where an eventless transition can be chosen.
ghost use Rattle.std.specs.Prelude.{◌≡◌, ◌<◌, ◌≤◌, ℕ, Bool};
ghost use Rattle.definition.specs.Rows.{those};
ghost use Rattle.definition.specs.Tables.{chart_of};
ghost use Rattle.numbers.specs.declared.Row.{Row};
ghost use Rattle.rowset.specs.Member.{rows_of};
ghost use Rattle.tables.specs.Ranges.{RowIn};
ghost use Rattle.chart.specs.Ready.{Ready, TransitionReady};
ghost use Rattle.matching.specs.Chosen.{atomic_rows};
ghost use Rattle.matching.specs.Histories.{is_history_row, history_rows};
ghost use Rattle.matching.specs.Eventless.{add_eventless, eventless_rows};

use numbers::{Row, Transition};
use rowset::RowSet;

// The rows below n that pass a test.
fn rows_where<F: Fn(Row) -> bool>(n: u16, test: F) -> RowSet
    requires few { n ≤ 256 }
    requires callable { (r : Row) → r.0 < n → F.pre test r }
    ensures { (p : ℕ → Bool) → ((r : Row) (b : Bool) → r.0 < n → F.post test r b → b ≡ p r.0) → rows_of result ≡ those n p }
{
    let mut set = RowSet::empty();
    for i in 0..n {
        let r = Row(i as u8);
        if test(r) {
            set = set.with(r);
        }
    }
    set
}

// The atomic rows of the chart, active or not.
pub fn atomic_rows(chart: &[u64]) -> RowSet
    requires { Ready chart.now }
    ensures { rows_of result ≡ atomic_rows (chart_of chart.now) }
{
    rows_where(
        tables::row_count(chart) as u16,
        |r| chart::is_atomic(chart, r),
    )
}

fn is_history_row(chart: &[u64], r: Row) -> bool
    requires { RowIn chart.now r.0 }
    ensures { result ≡ is_history_row (chart_of chart.now) r.0 }
{
    tables::is_history(tables::kind_of(chart, r))
}

// The histories of the chart.
pub fn history_rows(chart: &[u64]) -> RowSet
    requires { Ready chart.now }
    ensures { rows_of result ≡ history_rows (chart_of chart.now) }
{
    rows_where(
        tables::row_count(chart) as u16,
        |r| is_history_row(chart, r),
    )
}

// The set with the rows at and below the source of transition t, if t is eventless.
fn add_eventless(chart: &[u64], set: RowSet, t: Transition) -> RowSet
    requires { TransitionReady chart.now t.0 }
    ensures { rows_of result ≡ add_eventless (chart_of chart.now) (rows_of set) t.0 }
{
    if 0 < tables::descriptors_of(chart, t).len() {
        return set;
    }
    let source = tables::source_of(chart, t);
    set.with(source).union(chart::descendants_of(chart, source))
}

// The rows at and below the sources of all eventless transitions. Where none of them is active, an eventless round selects nothing.
pub fn eventless_rows(chart: &[u64]) -> RowSet
    requires { Ready chart.now }
    ensures { rows_of result ≡ eventless_rows (chart_of chart.now) }
{
    let n = tables::transition_count(chart) as u16;
    let mut set = RowSet::empty();
    for t in 0..n {
        set = add_eventless(chart, set, Transition(t));
    }
    set
}
