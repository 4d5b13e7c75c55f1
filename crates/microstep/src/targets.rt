// What the transitions of a round aim at, and the histories among their targets that fall to their default lists.
ghost use Rattle.std.specs.Prelude.{◌≡◌, true, ◌<◌};
ghost use Rattle.definition.specs.Tables.{row_count, transition_count, transition_at, chart_of};
ghost use Rattle.definition.specs.Tree.{anchors};
ghost use Rattle.follower.specs.Selection.{effective_targets};
ghost use Rattle.follower.specs.Microstep.{stored, paths_below, add_targets, targeted, add_fallen, fallen};
ghost use Rattle.rowset.specs.Member.{rows_of};
ghost use Rattle.chart.specs.Ready.{RowReady, TransitionReady};
ghost use Rattle.chart.specs.Within.{Taken};
ghost use Rattle.paths.specs.History.{stored_at};
ghost use Rattle.selection.specs.FixedDomains.{has_fixed_targets, DomainsFixed};
ghost use Rattle.microstep.specs.Stored.{RoundReady, TakenReady};
ghost use Rattle.microstep.specs.Targets.{add_fell};

use crate::Round;
use crate::storing::stored_after;
use chart::anchors_of;
use kinds::is_history;
use numbers::{Row, Transition};
use paths::paths_below;
use rowset::RowSet;
use selection::{NO_DOMAIN, Stored, add_stand_ins};
use tables::{kind_of, parent_of, row_at, targets_of};

// The effective targets of a transition, by the history as the exits left it.
fn effective_after(round: &Round, t: Transition) -> RowSet
    requires { TakenReady round.now.chart.now round.now.history.now round.now.atoms round.now.conf t.0 }
    ensures { rows_of result ≡ effective_targets (chart_of round.now.chart.now) (stored (chart_of round.now.chart.now) (rows_of round.now.conf) (stored_at round.now.history.now) (rows_of round.now.out)) (transition_at round.now.chart.now t.0) }
{
    let targets = targets_of(round.chart, t);
    let mut set = RowSet::empty();
    for i in 0..targets.len() {
        let x = row_at(round.chart, targets, i);
        let kept = stored_after(round, x);
        set = add_stand_ins(round.chart, set, x, kept);
    }
    set
}

// The set with target x, if x is a history that falls to its default list.
pub fn add_fell(round: &Round, set: RowSet, x: Row) -> RowSet
    requires { RoundReady round.now.chart.now round.now.history.now round.now.atoms round.now.conf × (x.0 < row_count round.now.chart.now) }
    ensures { rows_of result ≡ add_fell (chart_of round.now.chart.now) (stored (chart_of round.now.chart.now) (rows_of round.now.conf) (stored_at round.now.history.now) (rows_of round.now.out)) (rows_of set) x.0 }
{
    if !is_history(kind_of(round.chart, x)) {
        return set;
    }
    match stored_after(round, x) {
        Stored::Nothing => set.with(x),
        Stored::Stored(_) => set,
    }
}

fn add_fallen(round: &Round, before: RowSet, t: Transition) -> RowSet
    requires { TakenReady round.now.chart.now round.now.history.now round.now.atoms round.now.conf t.0 }
    ensures { rows_of result ≡ add_fallen (chart_of round.now.chart.now) (stored (chart_of round.now.chart.now) (rows_of round.now.conf) (stored_at round.now.history.now) (rows_of round.now.out)) (rows_of before) t.0 }
{
    let targets = targets_of(round.chart, t);
    let mut set = before;
    for i in 0..targets.len() {
        let x = row_at(round.chart, targets, i);
        set = add_fell(round, set, x);
    }
    set
}

// The same; a transition whose domain is fixed has no history among its targets.
fn add_fallen_by(round: &Round, domains: &[u16], set: RowSet, t: Transition) -> RowSet
    requires { DomainsFixed (chart_of round.now.chart.now) domains.now × TakenReady round.now.chart.now round.now.history.now round.now.atoms round.now.conf t.0 }
    ensures { rows_of result ≡ add_fallen (chart_of round.now.chart.now) (stored (chart_of round.now.chart.now) (rows_of round.now.conf) (stored_at round.now.history.now) (rows_of round.now.out)) (rows_of set) t.0 }
{
    let at = t.0 as usize;
    if domains[at] < NO_DOMAIN {
        return set;
    }
    add_fallen(round, set, t)
}

// The histories among the targets that fall to their default lists.
pub fn fallen_of(round: &Round, domains: &[u16], chosen: &[u16]) -> RowSet
    requires { DomainsFixed (chart_of round.now.chart.now) domains.now × RoundReady round.now.chart.now round.now.history.now round.now.atoms round.now.conf × Taken (transition_count round.now.chart.now) chosen.now }
    ensures { rows_of result ≡ fallen (chart_of round.now.chart.now) (stored (chart_of round.now.chart.now) (rows_of round.now.conf) (stored_at round.now.history.now) (rows_of round.now.out)) chosen.now }
{
    let mut set = RowSet::empty();
    for i in 0..chosen.len() {
        set = add_fallen_by(round, domains, set, Transition(chosen[i]));
    }
    set
}

// What transition t aims at, by the history before the round and the one after its exits.
fn add_targets(round: &Round, set: RowSet, t: Transition) -> RowSet
    requires { TakenReady round.now.chart.now round.now.history.now round.now.atoms round.now.conf t.0 }
    ensures { rows_of result ≡ add_targets (chart_of round.now.chart.now) (stored_at round.now.history.now) (stored (chart_of round.now.chart.now) (rows_of round.now.conf) (stored_at round.now.history.now) (rows_of round.now.out)) (rows_of set) t.0 }
{
    let d = selection::domain(round.chart, round.history, t);
    let to = effective_after(round, t);
    set.union(paths_below(round.chart, d, to))
}

// What a transition whose domain is fixed aims at: its anchors and their ancestors below the domain. Where its only target is a child of the domain, that is all.
fn fixed_aim(chart: &[u64], d: Row, t: Transition) -> RowSet
    requires { TransitionReady chart.now t.0 × RowReady chart.now d.0 × (has_fixed_targets (chart_of chart.now) t.0 ≡ true) }
    ensures { rows_of result ≡ paths_below (chart_of chart.now) d.0 (anchors (chart_of chart.now) t.0) }
{
    let targets = targets_of(chart, t);
    if targets.len() == 1 {
        let x = row_at(chart, targets, 0);
        if parent_of(chart, x) == d.0 as u64 {
            return RowSet::single(x);
        }
    }
    paths_below(chart, d, anchors_of(chart, t))
}

// The same; a transition whose domain is fixed aims at its anchors whatever is stored.
fn add_targets_by(round: &Round, domains: &[u16], set: RowSet, t: Transition) -> RowSet
    requires { DomainsFixed (chart_of round.now.chart.now) domains.now × TakenReady round.now.chart.now round.now.history.now round.now.atoms round.now.conf t.0 }
    ensures { rows_of result ≡ add_targets (chart_of round.now.chart.now) (stored_at round.now.history.now) (stored (chart_of round.now.chart.now) (rows_of round.now.conf) (stored_at round.now.history.now) (rows_of round.now.out)) (rows_of set) t.0 }
{
    let at = t.0 as usize;
    let fixed = domains[at];
    if fixed < NO_DOMAIN {
        return set.union(fixed_aim(round.chart, Row(fixed as u8), t));
    }
    add_targets(round, set, t)
}

// What the transitions aim at: the domain by the history before the round, the targets by the one after its exits.
pub fn targeted(round: &Round, domains: &[u16], chosen: &[u16]) -> RowSet
    requires { DomainsFixed (chart_of round.now.chart.now) domains.now × RoundReady round.now.chart.now round.now.history.now round.now.atoms round.now.conf × Taken (transition_count round.now.chart.now) chosen.now }
    ensures { rows_of result ≡ targeted (chart_of round.now.chart.now) (stored_at round.now.history.now) (stored (chart_of round.now.chart.now) (rows_of round.now.conf) (stored_at round.now.history.now) (rows_of round.now.out)) chosen.now }
{
    let mut set = RowSet::empty();
    for i in 0..chosen.len() {
        set = add_targets_by(round, domains, set, Transition(chosen[i]));
    }
    set
}
