// A start.
ghost use Rattle.std.specs.Prelude.{◌≡◌, length, replicate};
ghost use Rattle.definition.specs.Tables.{name_at, chart_of};
ghost use Rattle.follower.specs.Follower.{start};
ghost use Rattle.chart.specs.Ready.{Ready, CompiledWith};
ghost use Rattle.microstep.specs.Plan.{PlanReady, StartPlanned, start_effects};
ghost use Rattle.rounds.specs.Calls.{room_in, StartDone};
ghost use Rattle.rounds.specs.Timing.{TimersReady, JudgesTimed};
ghost use Rattle.rounds.specs.Starting.{FirstStep};

use crate::judging::{count_first, judge, room_of, shown_of};
use crate::taking::mode_of;
use crate::timing::judge_timed;
use crate::{Begun, NOTES, NOTHING, Outcome, Step};
use definition::Answer;
use effects::Tally;
use events::Source;
use microstep::Plan;
use rowset::RowSet;
use state::State;

// Nothing is stored: the numbers are still those of an ended session.
fn plan_first(chart: &[u64], numbers: &[u64]) -> Plan
    requires { Ready chart.now × (numbers.now ≡ replicate 1031 0) }
    ensures { StartPlanned (chart_of chart.now) result × PlanReady chart.now result }
{
    let stored = &numbers[state::HISTORY..state::INTERNAL];
    microstep::plan_start(chart, stored)
}

// The start as a step that takes no transition and leaves no row.
fn first_step(plan: Plan) -> Step
    ensures { FirstStep plan result }
{
    let none = RowSet::empty();
    let stay = plan.stay;
    let set = plan.set;
    let by_default = plan.by_default;
    let fallen = plan.fallen;
    Step {
        source: Source::Eventless,
        len: 0,
        plan: Plan {
            conf: none,
            stay: stay,
            out: none,
            set: set,
            by_default: by_default,
            fallen: fallen,
        },
    }
}

// Where it sends or cancels, it is judged with the clock record.
fn judge_first(
    chart: &[u64],
    names: &[u8],
    plan: Plan,
    tally: Tally,
    notes: &[u32],
    clock: &mut [u8],
    room: usize,
) -> Outcome
    requires { PlanReady chart.now plan × TimersReady names.now (start_effects (chart_of chart.now) plan) tally notes.now clock.old }
    ensures { JudgesTimed names.now (start_effects (chart_of chart.now) plan) 0 tally clock.old clock.new room result }
{
    if tally.timers == 0 {
        return judge(0, tally, room);
    }
    let items = [0u16; matching::ITEMS];
    let step = first_step(plan);
    judge_timed(chart, names, step, &items, 0, tally, notes, clock, room)
}

// "Start enters the root's initial targets", from empty queues and no stored history; refused with 7 or 10 it changes nothing. A quiet one leaves the trace as it is, and is not refused with 10 (R-10).
pub fn start(
    chart: &[u64],
    names: &[u8],
    numbers: &mut [u64],
    internal: &mut [u8],
    clock: &mut [u8],
    trace: &mut [u32],
    quiet: bool,
) -> Begun
    requires { CompiledWith chart.now names.now × (numbers.old ≡ replicate 1031 0) × (internal.old ≡ replicate 2048 0) × (clock.old ≡ replicate 4368 0) }
    ensures { StartDone quiet (start (chart_of chart.now) (name_at names.now) (room_in quiet (length trace.old))) result numbers.new internal.new (replicate 2048 0) clock.new trace.old trace.new }
{
    let first = plan_first(chart, numbers);
    let conf = first.set;
    let mut notes = [0u32; NOTES];
    let tally = count_first(chart, first, &mut notes);
    let room = trace.len();
    let outcome = judge_first(
        chart,
        names,
        first,
        tally,
        &notes,
        clock,
        room_of(quiet, room),
    );
    if let Outcome::Refused(answer) = outcome {
        return Begun {
            answer: answer,
            count: 0,
        };
    }
    let mut none = [0u32; 0];
    let end = shown_of(quiet, room);
    microstep::first_effects(chart, first, &mut trace[..end], &mut none, NOTHING);
    let n = tally.names as usize;
    let waiting = events::queue_names(chart, names, &notes[..n], internal, 0);
    let after = State {
        configuration: conf,
        internal: waiting,
        external: 0,
        mode: mode_of(chart, conf),
    };
    state::put_state(numbers, after);
    Begun {
        answer: Answer::Done,
        count: tally.entries as usize,
    }
}
