// Paths of the tree below a row; in specs/ how stored history is spelled, and how many effects a block and a final have. What more than one of the crates that carry out a round needs, and the checks do not.
#![tactic(auto)]

ghost use Rattle.std.specs.Prelude.{◌≡◌};
ghost use Rattle.definition.specs.Tables.{row_count, chart_of};
ghost use Rattle.follower.specs.Microstep.{add_path, paths_below};
ghost use Rattle.rowset.specs.Member.{rows_of};
ghost use Rattle.chart.specs.Ready.{RowReady};
ghost use Rattle.chart.specs.Within.{Within};

use chart::{ancestors_of, descendants_of};
use numbers::Row;
use rowset::RowSet;

// The set with row x and its ancestors.
fn add_path(chart: &[u64], set: RowSet, x: Row) -> RowSet
    requires { RowReady chart.now x.0 }
    ensures { rows_of result ≡ add_path (chart_of chart.now) (rows_of set) x.0 }
{
    set.with(x).union(ancestors_of(chart, x))
}

// The rows of a set and their ancestors below d.
pub fn paths_below(chart: &[u64], d: Row, to: RowSet) -> RowSet
    requires { RowReady chart.now d.0 × Within (row_count chart.now) (rows_of to) }
    ensures { rows_of result ≡ paths_below (chart_of chart.now) d.0 (rows_of to) }
{
    let mut set = RowSet::empty();
    for x in to.iter() {
        set = add_path(chart, set, x);
    }
    set.intersection(descendants_of(chart, d))
}
