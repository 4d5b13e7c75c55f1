// Conflicts: which of the candidates a round takes.
ghost use Rattle.std.specs.Prelude.{◌≡◌, [], ◌<◌, length};
ghost use Rattle.definition.specs.Rows.{fold, any};
ghost use Rattle.definition.specs.Tables.{transition_count, name_at, chart_of};
ghost use Rattle.follower.specs.Selection.{is_in_the_way, keep_beside, admit, without_conflicts};
ghost use Rattle.rowset.specs.Member.{rows_of};
ghost use Rattle.matching.specs.Events.{event_of};
ghost use Rattle.chart.specs.Within.{Within};
ghost use Rattle.matching.specs.Chosen.{ChosenIn, list_of};
ghost use Rattle.paths.specs.History.{stored_at};
ghost use Rattle.selection.specs.FixedDomains.{DomainsFixed};
ghost use Rattle.selection.specs.Ready.{HistoryReady, FixedReady, SelectReady, Candidate, Selects, Joined, Admits, Leaves};
ghost use Rattle.selection.specs.Choosers.{IsSelectedBy};

use crate::Selected;
use crate::domains::exit_set;
use numbers::Transition;
use rowset::RowSet;

// One transition more, with its exit set.
fn join(items: &mut [u16], kept: Selected, t: Transition, own: RowSet) -> Selected
    requires { kept.len < length items.old }
    ensures { Joined items.old kept t.0 own items.new result }
{
    let n = kept.len;
    let exits = kept.exits;
    items[n] = t.0;
    Selected {
        len: n + 1,
        exits: exits.union(own),
    }
}

// Whether the kept k conflicts with the candidate t and t's source is no descendant of k's.
fn is_in_the_way(
    chart: &[u64],
    domains: &[u16],
    conf: RowSet,
    history: &[u64],
    t: Transition,
    own: RowSet,
    k: Transition,
) -> bool
    requires { Candidate chart.now domains.now conf history.now t.0 own × (k.0 < transition_count chart.now) }
    ensures { result ≡ is_in_the_way (chart_of chart.now) (rows_of conf) (stored_at history.now) t.0 k.0 }
{
    if !own.meets(exit_set(chart, domains, conf, history, k)) {
        return false;
    }
    let below = chart::descendants_of(chart, tables::source_of(chart, k));
    !below.has(tables::source_of(chart, t))
}

fn is_blocked(
    chart: &[u64],
    domains: &[u16],
    conf: RowSet,
    history: &[u64],
    t: Transition,
    own: RowSet,
    kept: &[u16],
) -> bool
    requires { Candidate chart.now domains.now conf history.now t.0 own × Within (transition_count chart.now) kept.now }
    ensures { result ≡ any (is_in_the_way (chart_of chart.now) (rows_of conf) (stored_at history.now) t.0) kept.now }
{
    for i in 0..kept.len() {
        if is_in_the_way(chart, domains, conf, history, t, own, Transition(kept[i])) {
            return true;
        }
    }
    false
}

// The rest with the kept k, unless k conflicts with the candidate t.
fn keep_beside(
    chart: &[u64],
    domains: &[u16],
    conf: RowSet,
    history: &[u64],
    t: Transition,
    own: RowSet,
    items: &mut [u16],
    rest: Selected,
    k: Transition,
) -> Selected
    requires { Candidate chart.now domains.now conf history.now t.0 own × (k.0 < transition_count chart.now) × Selects (chart_of chart.now) (rows_of conf) (stored_at history.now) items.old rest × (rest.len < 256) }
    ensures { Admits (chart_of chart.now) (rows_of conf) (stored_at history.now) (keep_beside (chart_of chart.now) (rows_of conf) (stored_at history.now) t.0 (list_of items.old rest.len) k.0) items.old rest.len items.new result }
{
    let its = exit_set(chart, domains, conf, history, k);
    if own.meets(its) {
        return rest;
    }
    join(items, rest, k, its)
}

// The first n items without those that conflict with the candidate t.
fn beside(
    chart: &[u64],
    domains: &[u16],
    conf: RowSet,
    history: &[u64],
    t: Transition,
    own: RowSet,
    items: &mut [u16],
    n: usize,
) -> Selected
    requires { Candidate chart.now domains.now conf history.now t.0 own × ChosenIn (transition_count chart.now) items.old n }
    ensures { Leaves (chart_of chart.now) (rows_of conf) (stored_at history.now) (fold (keep_beside (chart_of chart.now) (rows_of conf) (stored_at history.now) t.0) [] (list_of items.old n)) items.old n items.new result }
{
    let mut rest = Selected {
        len: 0,
        exits: RowSet::empty(),
    };
    for i in 0..n {
        let k = Transition(items[i]);
        rest = keep_beside(chart, domains, conf, history, t, own, items, rest, k);
    }
    rest
}

// The kept transitions with the candidate t. One whose exit set meets none of the rows that they exit conflicts with none of them.
fn admit(
    chart: &[u64],
    domains: &[u16],
    conf: RowSet,
    history: &[u64],
    items: &mut [u16],
    kept: Selected,
    t: Transition,
) -> Selected
    requires { FixedReady chart.now domains.now history.now t.0 × Selects (chart_of chart.now) (rows_of conf) (stored_at history.now) items.old kept × (kept.len < 256) }
    ensures { Admits (chart_of chart.now) (rows_of conf) (stored_at history.now) (admit (chart_of chart.now) (rows_of conf) (stored_at history.now) (list_of items.old kept.len) t.0) items.old kept.len items.new result }
{
    let own = exit_set(chart, domains, conf, history, t);
    let exits = kept.exits;
    if !own.meets(exits) {
        return join(items, kept, t, own);
    }
    let n = kept.len;
    if is_blocked(chart, domains, conf, history, t, own, &items[..n]) {
        return kept;
    }
    let rest = beside(chart, domains, conf, history, t, own, items, n);
    join(items, rest, t, own)
}

// The first n items, one after the other, each admitted to those that were kept before it, which stand in front of it.
fn without_conflicts(
    chart: &[u64],
    domains: &[u16],
    conf: RowSet,
    history: &[u64],
    items: &mut [u16],
    n: usize,
) -> Selected
    requires { HistoryReady chart.now history.now × DomainsFixed (chart_of chart.now) domains.now × ChosenIn (transition_count chart.now) items.old n }
    ensures { Leaves (chart_of chart.now) (rows_of conf) (stored_at history.now) (without_conflicts (chart_of chart.now) (rows_of conf) (stored_at history.now) (list_of items.old n)) items.old n items.new result }
{
    let mut kept = Selected {
        len: 0,
        exits: RowSet::empty(),
    };
    for i in 0..n {
        let t = Transition(items[i]);
        kept = admit(chart, domains, conf, history, items, kept, t);
    }
    kept
}

// The transitions that a round of this event takes, in selection order, into the first of the lent items, and the rows that they exit. Removing
// conflicts leaves the places that say who chose each.
pub fn select(
    chart: &[u64],
    names: &[u8],
    starts: &[u16],
    domains: &[u16],
    atoms: RowSet,
    conf: RowSet,
    history: &[u64],
    event: &[u8],
    items: &mut [u16],
) -> Selected
    requires { SelectReady chart.now names.now starts.now domains.now atoms conf history.now items.old }
    ensures { IsSelectedBy (chart_of chart.now) (name_at names.now) (rows_of conf) (stored_at history.now) (event_of event.now) items.new result }
{
    let n = matching::candidates(chart, names, starts, atoms, conf, event, items);
    without_conflicts(chart, domains, conf, history, items, n)
}
