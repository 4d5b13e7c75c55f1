// The entry set.
ghost use Rattle.std.specs.Prelude.{◌≡◌, true, ◌<◌, replicate};
ghost use Rattle.definition.specs.Rows.{mem};
ghost use Rattle.definition.specs.Tables.{row_count, chart_of};
ghost use Rattle.follower.specs.Selection.{initial_targets};
ghost use Rattle.follower.specs.Microstep.{stored, paths_below, complete, entry_set};
ghost use Rattle.follower.specs.Follower.{first_entry};
ghost use Rattle.rowset.specs.Member.{rows_of};
ghost use Rattle.chart.specs.Ready.{Ready};
ghost use Rattle.chart.specs.Within.{Within};
ghost use Rattle.paths.specs.History.{stored_at};
ghost use Rattle.microstep.specs.Stored.{RoundReady};
ghost use Rattle.microstep.specs.Entry.{entered_as};

use crate::initial::{initial_targets, resolve};
use crate::{Entered, Round};
use chart::{children_of, default_targets_of, is_compound};
use kinds::is_parallel;
use matching::atomic_rows;
use numbers::{Row, row_after};
use paths::paths_below;
use rowset::RowSet;
use tables::kind_of;

// The initial targets of r and their ancestors below it.
fn initial_paths(round: &Round, r: Row) -> RowSet
    requires { RoundReady round.now.chart.now round.now.history.now round.now.atoms round.now.conf × (r.0 < row_count round.now.chart.now) }
    ensures { rows_of result ≡ paths_below (chart_of round.now.chart.now) r.0 (initial_targets (chart_of round.now.chart.now) (stored (chart_of round.now.chart.now) (rows_of round.now.conf) (stored_at round.now.history.now) (rows_of round.now.out)) r.0) }
{
    paths_below(round.chart, r, initial_targets(round, r))
}

// What row r of the set asks for is added. Default entry targets that are all children of it are their own paths, with no history among them.
fn complete_row(round: &Round, e: Entered, r: Row) -> Entered
    requires { RoundReady round.now.chart.now round.now.history.now round.now.atoms round.now.conf × (r.0 < row_count round.now.chart.now) × (mem r.0 (rows_of e.set) ≡ true) }
    ensures { entered_as result ≡ complete (chart_of round.now.chart.now) (initial_targets (chart_of round.now.chart.now) (stored (chart_of round.now.chart.now) (rows_of round.now.conf) (stored_at round.now.history.now) (rows_of round.now.out))) (entered_as e) r.0 }
{
    if round.atoms.has(r) {
        return e;
    }
    let set = e.set;
    let by_default = e.by_default;
    let kids = children_of(round.chart, r);
    if is_parallel(kind_of(round.chart, r)) {
        return Entered {
            set: set.union(kids),
            by_default: by_default,
        };
    }
    if !is_compound(round.chart, r) {
        return e;
    }
    if kids.meets(set) {
        return e;
    }
    let targets = default_targets_of(round.chart, r);
    if targets.subset(kids) {
        return Entered {
            set: set.union(targets),
            by_default: by_default.with(r),
        };
    }
    Entered {
        set: set.union(initial_paths(round, r)),
        by_default: by_default.with(r),
    }
}

// The entry set for what is aimed at: from member to member in document order, since what a row adds stands after it. Atomic rows
// ask for nothing, and most rounds aim at such rows alone. Initial lists go by the history as the exits left it.
pub fn entry_set(round: &Round, aim: RowSet) -> Entered
    requires { RoundReady round.now.chart.now round.now.history.now round.now.atoms round.now.conf × Within (row_count round.now.chart.now) (rows_of aim) }
    ensures { entered_as result ≡ entry_set (chart_of round.now.chart.now) (initial_targets (chart_of round.now.chart.now) (stored (chart_of round.now.chart.now) (rows_of round.now.conf) (stored_at round.now.history.now) (rows_of round.now.out))) (rows_of aim) }
{
    let none = RowSet::empty();
    if aim.subset(round.atoms) {
        return Entered {
            set: aim,
            by_default: none,
        };
    }
    let mut e = Entered {
        set: aim,
        by_default: none,
    };
    let mut k: u16 = 0;
    // Kept: the set grows while it is gone through, so that an iterator over it as it was would miss what its rows add.
    while let Some(r) = e.set.next_from(k) {
        e = complete_row(round, e, r);
        k = row_after(r);
    }
    e
}

// "Start enters the root's initial targets"; nothing is stored yet: the history that is lent says so.
pub fn first_entry(chart: &[u64], nothing: &[u64]) -> Entered
    requires { Ready chart.now × (nothing.now ≡ replicate 1024 0) }
    ensures { (entered_as result ≡ first_entry (chart_of chart.now)) × Within (row_count chart.now) (rows_of result.set) }
{
    let atoms = atomic_rows(chart);
    let none = RowSet::empty();
    let targets = default_targets_of(chart, Row(0));
    let round = Round {
        chart: chart,
        atoms: atoms,
        conf: none,
        history: nothing,
        out: none,
    };
    let to = resolve(&round, targets);
    let aim = paths_below(chart, Row(0), to);
    entry_set(&round, aim)
}
