// A round of a running session: its transitions are chosen and planned, their effects drafted and judged, and then it is written.
ghost use Rattle.std.specs.Prelude.{◌≡◌, ◌≤◌, length, take};
ghost use Rattle.definition.specs.declared.Mode.TheVariants.{Running};
ghost use Rattle.definition.specs.Tables.{transition_count, name_at, chart_of};
ghost use Rattle.follower.specs.Follower.{mode_of, round_in};
ghost use Rattle.rowset.specs.Member.{rows_of};
ghost use Rattle.matching.specs.Chosen.{list_of, ChosenIn};
ghost use Rattle.selection.specs.History.{stored_at};
ghost use Rattle.selection.specs.Ready.{Selects};
ghost use Rattle.effects.specs.Trace.{places, Wrote};
ghost use Rattle.microstep.specs.Stored.{RoundReady};
ghost use Rattle.microstep.specs.Plan.{Planned, PlanReady};
ghost use Rattle.legality.specs.Rows.{RowsReady};
ghost use Rattle.clock.specs.Records.{ClockHolds};
ghost use Rattle.state.specs.State.{configuration_in, history_in, mode_in, state_at, HoldsAt};
ghost use Rattle.lookup.specs.Lookup.{quiet_in, atomic_in, IndexOf, Lookup};
ghost use Rattle.events.specs.Left.{internal_left, external_left};
ghost use Rattle.events.specs.Timers.{TimersStand};
ghost use Rattle.rounds.specs.Calls.{timed_at, room_in};
ghost use Rattle.rounds.specs.Turns.{Turned, Hushed};
ghost use Rattle.rounds.specs.Judging.{LeavesInternal, LeavesExternal};
ghost use Rattle.rounds.specs.Timing.{step_effects, Shows};
ghost use Rattle.rounds.specs.Taking.{Decided, Commits};
ghost use Rattle.rounds.specs.Traces.{nothing, Unskipped};

use crate::judging::{is_quiet, judge, room_of, unchanged};
use crate::timing::judge_timed;
use crate::{NOTES, NOTHING, Outcome, QUIET_ROOM, Shown, Step, Turn};
use definition::Mode;
use effects::Tally;
use events::{Choice, Source};
use places::copy;
use rowset::RowSet;
use state::State;

// ---- the state after it

// How many names wait once the event has left.
fn internal_left(source: Source, waiting: u64) -> u64
    requires { LeavesInternal source waiting }
    ensures { result ≡ internal_left source waiting }
{
    match source {
        Source::Internal => waiting - 1,
        Source::Nothing | Source::Eventless | Source::External => waiting,
    }
}

fn external_left(source: Source, waiting: u64) -> u64
    requires { LeavesExternal source waiting }
    ensures { result ≡ external_left source waiting }
{
    match source {
        Source::External => waiting - 1,
        Source::Nothing | Source::Eventless | Source::Internal => waiting,
    }
}

// "A final under root sets closing."
pub fn mode_of(chart: &[u64], conf: RowSet) -> Mode
    requires { RowsReady chart.now (rows_of conf) }
    ensures { result ≡ mode_of (chart_of chart.now) (rows_of conf) }
{
    if legality::has_final(chart, conf) {
        return Mode::Closing;
    }
    Mode::Running
}

// ---- what is shown: the trace

// What the step does is written. Its transitions are the first of the items; the places behind those say which row chose each.
pub fn step_effects(
    chart: &[u64],
    step: Step,
    items: &[u16],
    trace: &mut [u32],
    notes: &mut [u32],
) -> Tally
    requires { PlanReady chart.now step.plan × ChosenIn (transition_count chart.now) items.now step.len }
    ensures { Wrote (places trace.old notes.old) (places trace.new notes.new) nothing result (step_effects chart.now items.now step) }
{
    let plan = step.plan;
    let n = step.len;
    let chosen = &items[..n];
    let by = &items[matching::CHOOSERS..matching::ITEMS];
    microstep::plan_effects(chart, plan, chosen, by, trace, notes, NOTHING)
}

// Nothing of it is written.
fn hidden(outcome: Outcome, tally: Tally) -> Shown
    ensures { result ≡ record { outcome = outcome; count = 0; tally = tally } }
{
    Shown {
        outcome: outcome,
        count: 0,
        tally: tally,
    }
}

// It is drafted first; the effects of one with more entries than this are worked out twice.
const DRAFT: usize = 168;

// The step is drafted, judged with so many names that wait and with the clock record where it sends or cancels, and written into the trace unless it is refused or quiet. A quiet one is lent no
// place to write into, so it comes to the places below alone where it has entries or sends (R-10): no other round asks whether it is quiet. Where the draft was too short all is worked out again.
// The step is handed on in these cases alone, so that no other round copies it.
fn show(
    chart: &[u64],
    names: &[u8],
    step: Step,
    items: &[u16],
    kept: u64,
    notes: &mut [u32],
    clock: &mut [u8],
    trace: &mut [u32],
    index: &[u16],
) -> Shown
    requires { PlanReady chart.now step.plan × ChosenIn (transition_count chart.now) items.now step.len × (kept ≤ 32) × Unskipped notes.old × TimersStand names.now (step_effects chart.now items.now step) × ClockHolds Running clock.old × (length index.now ≡ 818) × Hushed (quiet_in index.now) trace.old }
    ensures { Shows names.now (step_effects chart.now items.now step) kept (quiet_in index.now) clock.old clock.new trace.old trace.new notes.new result }
{
    let mut draft = [0u32; DRAFT];
    let tally = step_effects(chart, step, items, &mut draft, notes);
    let room = trace.len();
    let mut outcome = judge(kept, tally, room);
    if 0 < tally.timers {
        let quiet = is_quiet(index);
        let most = room_of(quiet, room);
        outcome = judge_timed(chart, names, step, items, kept, tally, notes, clock, most);
        if quiet {
            return hidden(outcome, tally);
        }
    }
    let Outcome::Did = outcome else {
        if is_quiet(index) {
            return hidden(judge(kept, tally, QUIET_ROOM), tally);
        }
        return hidden(outcome, tally);
    };
    let n = tally.entries;
    let end = n as usize;
    if (DRAFT as u64) < n {
        let mut none = [0u32; 0];
        step_effects(chart, step, items, trace, &mut none);
        return Shown {
            outcome: Outcome::Did,
            count: end,
            tally: tally,
        };
    }
    copy(&draft[..end], trace);
    Shown {
        outcome: Outcome::Did,
        count: end,
        tally: tally,
    }
}

// ---- what is kept: queues, stored history, and the next state

fn commit(
    chart: &[u64],
    names: &[u8],
    index: &[u16],
    numbers: &mut [u64],
    internal: &mut [u8],
    external: &mut [u8],
    step: Step,
    joins: &[u32],
)
    requires { Decided chart.now names.now index.now numbers.old internal.old external.old step joins.now }
    ensures { Commits chart.now names.now index.now numbers.old internal.old external.old step joins.now numbers.new internal.new external.new }
{
    let source = step.source;
    let plan = step.plan;
    let conf = plan.conf;
    let out = plan.out;
    let atomic = lookup::rows_at(index, lookup::ATOMIC);
    let histories = lookup::rows_at(index, lookup::HISTORIES);
    let inner = numbers[state::INTERNAL];
    let outer = numbers[state::EXTERNAL];
    let kept = internal_left(source, inner);
    events::take_event(source, internal, external, inner, outer);
    let waiting = events::queue_names(chart, names, joins, internal, kept);
    let stored = &mut numbers[state::HISTORY..state::INTERNAL];
    microstep::store(chart, atomic, histories, conf, out, stored);
    let next = microstep::next_configuration(plan);
    let after = State {
        configuration: next,
        internal: waiting,
        external: external_left(source, outer),
        mode: mode_of(chart, next),
    };
    state::put_state(numbers, after);
}

// ---- the round

// The chosen transitions, which are the first of the items, are planned.
fn plan_step(chart: &[u64], index: &[u16], numbers: &[u64], choice: Choice, items: &[u16]) -> Step
    requires { IndexOf (chart_of chart.now) index.now × (length numbers.now ≡ 1031) × RoundReady chart.now (history_in numbers.now) (atomic_in index.now) (configuration_in numbers.now) × Selects (chart_of chart.now) (rows_of (configuration_in numbers.now)) (stored_at (history_in numbers.now)) items.now choice.selected }
    ensures { (result.source ≡ choice.source) × (result.len ≡ choice.selected.len) × Planned (chart_of chart.now) (rows_of (configuration_in numbers.now)) (stored_at (history_in numbers.now)) (list_of items.now choice.selected.len) result.plan × PlanReady chart.now result.plan }
{
    let selected = choice.selected;
    let source = choice.source;
    let n = selected.len;
    let out = selected.exits;
    let atomic = lookup::rows_at(index, lookup::ATOMIC);
    let histories = lookup::rows_at(index, lookup::HISTORIES);
    let conf = chart::set_at(numbers, 0);
    let domains = &index[lookup::STARTS..lookup::ATOMIC];
    let stored = &numbers[state::HISTORY..state::INTERNAL];
    let chosen = &items[..n];
    Step {
        source: source,
        len: n,
        plan: microstep::plan_round(chart, domains, atomic, histories, conf, stored, chosen, out),
    }
}

// Chosen, planned, shown, and kept unless it is refused.
pub fn take(
    chart: &[u64],
    names: &[u8],
    index: &[u16],
    numbers: &mut [u64],
    internal: &mut [u8],
    external: &mut [u8],
    items: &mut [u16],
    trace: &mut [u32],
    clock: &mut [u8],
) -> Turn
    requires { Lookup chart.now names.now index.now × HoldsAt chart.now numbers.old internal.old external.old × (length items.old ≡ 768) × (mode_in numbers.old ≡ Running) × ClockHolds Running clock.old × Hushed (quiet_in index.now) trace.old }
    ensures { Turned (chart_of chart.now) (name_at names.now) (quiet_in index.now) (room_in (quiet_in index.now) (length trace.old)) (round_in Running (chart_of chart.now) (name_at names.now) (state_at chart.now numbers.old internal.old external.old)) (timed_at chart.now numbers.old internal.old external.old clock.old) result numbers.new internal.new external.new clock.new trace.old trace.new }
{
    let choice = events::choose(chart, names, index, numbers, internal, external, items);
    let source = choice.source;
    if let Source::Nothing = source {
        return unchanged(Outcome::Idle);
    }
    let step = plan_step(chart, index, numbers, choice, items);
    let from = step.source;
    let kept = internal_left(from, numbers[state::INTERNAL]);
    let mut notes = [0u32; NOTES];
    let shown = show(
        chart, names, step, items, kept, &mut notes, clock, trace, index,
    );
    let outcome = shown.outcome;
    let Outcome::Did = outcome else {
        return unchanged(outcome);
    };
    let tally = shown.tally;
    let n = tally.names as usize;
    commit(
        chart,
        names,
        index,
        numbers,
        internal,
        external,
        step,
        &notes[..n],
    );
    Turn {
        outcome: Outcome::Did,
        count: shown.count,
        entries: tally.entries as usize,
    }
}
