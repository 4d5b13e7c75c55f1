// Initial lists that name histories: "Its stored states stand in, else its default list." What is asked of a chart whose lists name none is
// one test of sets for each row whose child comes by default.
ghost use Rattle.std.specs.Prelude.{◌≡◌, ◌∷◌, [], ◌<◌};
ghost use Rattle.definition.specs.Rows.{nothing_at};
ghost use Rattle.definition.specs.Tables.{row_count, chart_of};
ghost use Rattle.follower.specs.Selection.{resolved, initial_targets};
ghost use Rattle.follower.specs.Microstep.{stored, add_fallen_initial, with_initial};
ghost use Rattle.rowset.specs.Member.{rows_of};
ghost use Rattle.chart.specs.Ready.{Ready, RowReady};
ghost use Rattle.chart.specs.Within.{Within};
ghost use Rattle.paths.specs.History.{stored_at};
ghost use Rattle.microstep.specs.Stored.{RoundReady};
ghost use Rattle.microstep.specs.Initial.{listed_histories};

use crate::Round;
use crate::storing::stored_after;
use crate::targets::add_fell;
use chart::{default_targets_of, descendants_of};
use numbers::Row;
use rowset::RowSet;
use selection::add_stand_ins;

// The histories among the default entry targets of r: all other targets are descendants, and no history is.
fn listed_histories(chart: &[u64], r: Row) -> RowSet
    requires { RowReady chart.now r.0 }
    ensures { rows_of result ≡ listed_histories (chart_of chart.now) r.0 }
{
    default_targets_of(chart, r).minus(descendants_of(chart, r))
}

// The rows of the set, with what stands in for its histories by the history as the exits left it.
pub fn resolve(round: &Round, targets: RowSet) -> RowSet
    requires { RoundReady round.now.chart.now round.now.history.now round.now.atoms round.now.conf × Within (row_count round.now.chart.now) (rows_of targets) }
    ensures { rows_of result ≡ resolved (chart_of round.now.chart.now) (stored (chart_of round.now.chart.now) (rows_of round.now.conf) (stored_at round.now.history.now) (rows_of round.now.out)) (rows_of targets) }
{
    let mut set = RowSet::empty();
    for x in targets.iter() {
        let kept = stored_after(round, x);
        set = add_stand_ins(round.chart, set, x, kept);
    }
    set
}

// The default entry targets of r, with what stands in for the histories among them.
pub fn initial_targets(round: &Round, r: Row) -> RowSet
    requires { RoundReady round.now.chart.now round.now.history.now round.now.atoms round.now.conf × (r.0 < row_count round.now.chart.now) }
    ensures { rows_of result ≡ initial_targets (chart_of round.now.chart.now) (stored (chart_of round.now.chart.now) (rows_of round.now.conf) (stored_at round.now.history.now) (rows_of round.now.out)) r.0 }
{
    let targets = default_targets_of(round.chart, r);
    if listed_histories(round.chart, r).is_empty() {
        return targets;
    }
    resolve(round, targets)
}

// The set with those histories in the initial list of r that fall to their default lists.
fn add_fallen_initial(round: &Round, before: RowSet, r: Row) -> RowSet
    requires { RoundReady round.now.chart.now round.now.history.now round.now.atoms round.now.conf × (r.0 < row_count round.now.chart.now) }
    ensures { rows_of result ≡ add_fallen_initial (chart_of round.now.chart.now) (stored (chart_of round.now.chart.now) (rows_of round.now.conf) (stored_at round.now.history.now) (rows_of round.now.out)) (rows_of before) r.0 }
{
    let listed = listed_histories(round.chart, r);
    let mut set = before;
    for x in listed.iter() {
        set = add_fell(round, set, x);
    }
    set
}

// The set with those histories that fall in the initial lists of the rows whose child came by default.
pub fn with_initial(round: &Round, before: RowSet, by_default: RowSet) -> RowSet
    requires { RoundReady round.now.chart.now round.now.history.now round.now.atoms round.now.conf × Within (row_count round.now.chart.now) (rows_of by_default) }
    ensures { rows_of result ≡ with_initial (chart_of round.now.chart.now) (stored (chart_of round.now.chart.now) (rows_of round.now.conf) (stored_at round.now.history.now) (rows_of round.now.out)) (rows_of before) (rows_of by_default) }
{
    let mut set = before;
    for r in by_default.iter() {
        set = add_fallen_initial(round, set, r);
    }
    set
}

// At a start nothing is stored: every history in the root's initial list falls, and in those of the rows whose child came by default.
pub fn first_fallen(chart: &[u64], by_default: RowSet) -> RowSet
    requires { Ready chart.now × Within (row_count chart.now) (rows_of by_default) }
    ensures { rows_of result ≡ with_initial (chart_of chart.now) nothing_at [] (0 ∷ rows_of by_default) }
{
    let mut set = listed_histories(chart, Row(0));
    for r in by_default.iter() {
        set = set.union(listed_histories(chart, r));
    }
    set
}
