// A round of any session, and a run: rounds one after the other.
ghost use Rattle.std.specs.Prelude.{◌≡◌, ltb, length};
ghost use Rattle.std.proofs.Math.Option.{none};
ghost use Rattle.definition.specs.Tables.{name_at, chart_of};
ghost use Rattle.follower.specs.Selection.{selected};
ghost use Rattle.follower.specs.Follower.{round, run};
ghost use Rattle.rowset.specs.Member.{rows_of};
ghost use Rattle.chart.specs.Ready.{CompiledWith};
ghost use Rattle.clock.specs.Records.{ClockHolds};
ghost use Rattle.selection.specs.History.{stored_at};
ghost use Rattle.state.specs.State.{configuration_in, history_in, internal_in, external_in, mode_in, state_at, HoldsAt};
ghost use Rattle.lookup.specs.Lookup.{quiet_in, Lookup};
ghost use Rattle.events.specs.Rounds.{EventReady};
ghost use Rattle.rounds.specs.Calls.{timed_at, room_in, RunDone};
ghost use Rattle.rounds.specs.Turns.{status_of, Turned, Hushed};
ghost use Rattle.rounds.specs.Resting.{rest_by};

use crate::closing::close;
use crate::judging::{is_quiet, place_of, unchanged};
use crate::taking::take;
use crate::{Outcome, Progress, Turn};
use definition::{Mode, Status};

fn round(
    chart: &[u64],
    names: &[u8],
    index: &[u16],
    numbers: &mut [u64],
    internal: &mut [u8],
    external: &mut [u8],
    items: &mut [u16],
    trace: &mut [u32],
    clock: &mut [u8],
) -> Turn
    requires { Lookup chart.now names.now index.now × HoldsAt chart.now numbers.old internal.old external.old × (length items.old ≡ 768) × ClockHolds (mode_in numbers.old) clock.old × Hushed (quiet_in index.now) trace.old }
    ensures { Turned (chart_of chart.now) (name_at names.now) (quiet_in index.now) (room_in (quiet_in index.now) (length trace.old)) (round (chart_of chart.now) (name_at names.now) (state_at chart.now numbers.old internal.old external.old)) (timed_at chart.now numbers.old internal.old external.old clock.old) result numbers.new internal.new external.new clock.new trace.old trace.new }
{
    let mode = Mode::from(numbers[state::MODE]);
    match mode {
        Mode::Running => take(
            chart, names, index, numbers, internal, external, items, trace, clock,
        ),
        Mode::Closing => {
            let quiet = is_quiet(index);
            close(chart, numbers, internal, external, clock, trace, quiet)
        }
        Mode::Ended => unchanged(Outcome::Over),
    }
}

// How a run stops where a round came to this.
fn status_of(outcome: Outcome) -> Status
    ensures { result ≡ status_of outcome }
{
    match outcome {
        Outcome::Idle => Status::Idle,
        Outcome::Over => Status::Ended,
        Outcome::Refused(answer) => Status::Refused(answer),
        Outcome::Did => Status::More,
    }
}

fn stopped(outcome: Outcome, rounds: u32, count: usize) -> Progress
    ensures { result ≡ record { status = status_of outcome; rounds = rounds; count = count } }
{
    Progress {
        status: status_of(outcome),
        rounds: rounds,
        count: count,
    }
}

// The status of a run whose rounds are all done: "ended; else idle if running with nothing left to choose; (..) else more". Where a name
// waits there is something to choose, whatever it selects.
fn rest_status(
    chart: &[u64],
    names: &[u8],
    index: &[u16],
    numbers: &[u64],
    items: &mut [u16],
) -> Status
    requires { EventReady chart.now names.now index.now numbers.now items.old }
    ensures { result ≡ rest_by (mode_in numbers.now) (internal_in numbers.now) (external_in numbers.now) (selected (chart_of chart.now) (name_at names.now) (rows_of (configuration_in numbers.now)) (stored_at (history_in numbers.now)) none) }
{
    let mode = Mode::from(numbers[state::MODE]);
    match mode {
        Mode::Ended => Status::Ended,
        Mode::Closing => Status::More,
        Mode::Running => {
            if (0 < numbers[state::INTERNAL]) | (0 < numbers[state::EXTERNAL]) {
                return Status::More;
            }
            let first = events::select_eventless(chart, names, index, numbers, items);
            if 0 < first.len {
                return Status::More;
            }
            Status::Idle
        }
    }
}

// The mark of a quiet run behind its index.
fn mark_of(quiet: bool) -> u16
    ensures { ltb 0 result ≡ quiet }
{
    if quiet {
        return 1;
    }
    0
}

// At most so many rounds from the state that the places spell. A quiet run leaves the trace as it is and counts its entries; none of its rounds is refused with 10 (R-10): each is lent the end of
// the trace, where nothing can be written.
pub fn run(
    chart: &[u64],
    names: &[u8],
    numbers: &mut [u64],
    internal: &mut [u8],
    external: &mut [u8],
    clock: &mut [u8],
    rounds: u32,
    trace: &mut [u32],
    quiet: bool,
) -> Progress
    requires { CompiledWith chart.now names.now × HoldsAt chart.now numbers.old internal.old external.old × ClockHolds (mode_in numbers.old) clock.old }
    ensures { RunDone quiet (run (chart_of chart.now) (name_at names.now) rounds (timed_at chart.now numbers.old internal.old external.old clock.old) (room_in quiet (length trace.old))) result numbers.new internal.new external.new clock.new trace.old trace.new }
{
    let mut index = [0u16; lookup::INDEX];
    index[lookup::QUIET] = mark_of(quiet);
    lookup::put_index(chart, &mut index);
    let mut items = [0u16; matching::ITEMS];
    let mut count: usize = 0;
    let mut at = place_of(quiet, trace.len());
    for done in 0..rounds {
        let rest = &mut trace[at..];
        let turn = round(
            chart, names, &index, numbers, internal, external, &mut items, rest, clock,
        );
        at += turn.count;
        count += turn.entries;
        let outcome = turn.outcome;
        let Outcome::Did = outcome else {
            return stopped(outcome, done, count);
        };
    }
    Progress {
        status: rest_status(chart, names, &index, numbers, &mut items),
        rounds: rounds,
        count: count,
    }
}
