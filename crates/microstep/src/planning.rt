// The plan of a round and its effects; the effects of the first entry and of the last exit.
ghost use Rattle.std.specs.Prelude.{◌≡◌, length, replicate};
ghost use Rattle.definition.specs.Rows.{union};
ghost use Rattle.definition.specs.Tables.{row_count, transition_count, chart_of};
ghost use Rattle.follower.specs.Microstep.{stored, exits, exiting, fallen, with_initial};
ghost use Rattle.rowset.specs.Member.{rows_of};
ghost use Rattle.chart.specs.Ready.{Ready};
ghost use Rattle.chart.specs.Within.{Within, Taken};
ghost use Rattle.paths.specs.History.{stored_at};
ghost use Rattle.selection.specs.FixedDomains.{DomainsFixed};
ghost use Rattle.effects.specs.Trace.{places, Wrote};
ghost use Rattle.effects.specs.Choosers.{chooser_in};
ghost use Rattle.matching.specs.Histories.{history_rows};
ghost use Rattle.microstep.specs.Stored.{RoundReady};
ghost use Rattle.microstep.specs.Plan.{Planned, PlanReady, StartPlanned, Small, plan_effects, start_effects};

use crate::entry::{entry_set, first_entry};
use crate::initial::{first_fallen, with_initial};
use crate::targets::{fallen_of, targeted};
use crate::{Plan, Round};
use effects::{Tally, entry_effects, exit_effects, transition_effects};
use rowset::RowSet;

// The histories that fall to their default lists: among the targets, and in the initial lists of the rows whose child came by default. A chart
// without histories has none.
fn fallen_in(
    round: &Round,
    domains: &[u16],
    histories: RowSet,
    chosen: &[u16],
    by_default: RowSet,
) -> RowSet
    requires { DomainsFixed (chart_of round.now.chart.now) domains.now × RoundReady round.now.chart.now round.now.history.now round.now.atoms round.now.conf × (rows_of histories ≡ history_rows (chart_of round.now.chart.now)) × Taken (transition_count round.now.chart.now) chosen.now × Within (row_count round.now.chart.now) (rows_of by_default) }
    ensures { rows_of result ≡ with_initial (chart_of round.now.chart.now) (stored (chart_of round.now.chart.now) (rows_of round.now.conf) (stored_at round.now.history.now) (rows_of round.now.out)) (fallen (chart_of round.now.chart.now) (stored (chart_of round.now.chart.now) (rows_of round.now.conf) (stored_at round.now.history.now) (rows_of round.now.out)) chosen.now) (rows_of by_default) }
{
    if histories.is_empty() {
        return RowSet::empty();
    }
    let fallen = fallen_of(round, domains, chosen);
    with_initial(round, fallen, by_default)
}

// The chosen transitions, taken together from the configuration: out are the rows that they exit.
pub fn plan_round(
    chart: &[u64],
    domains: &[u16],
    atoms: RowSet,
    histories: RowSet,
    conf: RowSet,
    history: &[u64],
    chosen: &[u16],
    out: RowSet,
) -> Plan
    requires { DomainsFixed (chart_of chart.now) domains.now × RoundReady chart.now history.now atoms conf × (rows_of histories ≡ history_rows (chart_of chart.now)) × Taken (transition_count chart.now) chosen.now × (rows_of out ≡ exits (chart_of chart.now) (rows_of conf) (stored_at history.now) chosen.now) }
    ensures { Planned (chart_of chart.now) (rows_of conf) (stored_at history.now) chosen.now result × PlanReady chart.now result }
{
    let round = Round {
        chart: chart,
        atoms: atoms,
        conf: conf,
        history: history,
        out: out,
    };
    let stay = conf.minus(out);
    let aim = targeted(&round, domains, chosen);
    let e = entry_set(&round, aim);
    let set = e.set;
    let by_default = e.by_default;
    let fallen = fallen_in(&round, domains, histories, chosen, by_default);
    Plan {
        conf: conf,
        stay: stay,
        out: out,
        set: set,
        by_default: by_default,
        fallen: fallen,
    }
}

// The plan of a start: nothing is active or left, and as the history that is lent says, nothing is stored.
pub fn plan_start(chart: &[u64], nothing: &[u64]) -> Plan
    requires { Ready chart.now × (nothing.now ≡ replicate 1024 0) }
    ensures { StartPlanned (chart_of chart.now) result × PlanReady chart.now result }
{
    let none = RowSet::empty();
    let e = first_entry(chart, nothing);
    let set = e.set;
    let by_default = e.by_default;
    Plan {
        conf: none,
        stay: none,
        out: none,
        set: set,
        by_default: by_default,
        fallen: first_fallen(chart, by_default),
    }
}

// The configuration after the round.
pub fn next_configuration(plan: Plan) -> RowSet
    ensures { rows_of result ≡ union (rows_of plan.stay) (rows_of plan.set) }
{
    let stay = plan.stay;
    let set = plan.set;
    stay.union(set)
}

// The effects of the round: exits, then the transitions, each with the row that chose it in its place of by, then entries.
pub fn plan_effects(
    chart: &[u64],
    plan: Plan,
    chosen: &[u16],
    by: &[u16],
    trace: &mut [u32],
    joins: &mut [u32],
    tally: Tally,
) -> Tally
    requires { PlanReady chart.now plan × Taken (transition_count chart.now) chosen.now × (length by.now ≡ 512) × Small tally }
    ensures { Wrote (places trace.old joins.old) (places trace.new joins.new) tally result (plan_effects (chart_of chart.now) plan (chooser_in by.now) chosen.now) }
{
    let conf = plan.conf;
    let out = plan.out;
    let stay = plan.stay;
    let set = plan.set;
    let by_default = plan.by_default;
    let fallen = plan.fallen;
    let left = exit_effects(chart, conf, out, trace, joins, tally);
    let taken = transition_effects(chart, stay, chosen, by, trace, joins, left);
    entry_effects(chart, stay, set, by_default, fallen, trace, joins, taken)
}

// The effects of a start: entries alone.
pub fn first_effects(
    chart: &[u64],
    plan: Plan,
    trace: &mut [u32],
    joins: &mut [u32],
    tally: Tally,
) -> Tally
    requires { PlanReady chart.now plan × Small tally }
    ensures { Wrote (places trace.old joins.old) (places trace.new joins.new) tally result (start_effects (chart_of chart.now) plan) }
{
    let stay = plan.stay;
    let set = plan.set;
    let by_default = plan.by_default;
    let fallen = plan.fallen;
    entry_effects(chart, stay, set, by_default, fallen, trace, joins, tally)
}

// "A closing session's next round exits all that is active in exit order".
pub fn closing_effects(
    chart: &[u64],
    conf: RowSet,
    trace: &mut [u32],
    joins: &mut [u32],
    tally: Tally,
) -> Tally
    requires { Ready chart.now × Within (row_count chart.now) (rows_of conf) × Small tally }
    ensures { Wrote (places trace.old joins.old) (places trace.new joins.new) tally result (exiting (chart_of chart.now) (rows_of conf) (rows_of conf)) }
{
    exit_effects(chart, conf, conf, trace, joins, tally)
}
