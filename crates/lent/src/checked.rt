// The calls, chart, session and clock record once checked: every call keeps them well formed, so one check serves for a list of them.
ghost use Rattle.std.specs.Prelude.{◌≡◌, true, length};
ghost use Rattle.definition.specs.Compiled.{is_compiled};
ghost use Rattle.state.specs.State.{trace_with};
ghost use Rattle.session.specs.Sessions.{posted, post_of, start_of, start_effects, run_of, run_effects, clocked_as, clock_of};
ghost use Rattle.lent.specs.Places.{session_in, record_in, places_fit, started_in, ran_in, checks_of, Checked};
ghost use Rattle.lent.specs.Lent.{refused_in};

use crate::{Checks, RanIn, StartedIn};
use definition::{Answer, Mode, Status};
use session::MOST_TICKS;

pub fn start_checked(
    good: bool,
    numbers: &mut [u64],
    internal: &mut [u8],
    external: &mut [u8],
    clock: &mut [u8],
    chart: &[u64],
    names: &[u8],
    trace: &mut [u32],
) -> StartedIn
    requires { (good ≡ is_compiled chart.now names.now) × (places_fit (length numbers.old) (length internal.old) (length external.old) (length clock.old) ≡ true) }
    ensures { (started_in (session_in numbers.new internal.new external.new) (record_in clock.new) result ≡ start_of chart.now names.now (length trace.old)) × (trace.new ≡ trace_with trace.old (start_effects chart.now names.now (length trace.old))) }
{
    places::clear_u64(numbers);
    queue::clear(internal);
    queue::clear(external);
    queue::clear(clock);
    if !good {
        return StartedIn {
            answer: Answer::BadChart,
            count: 0,
        };
    }
    let begun = rounds::start(chart, names, numbers, internal, clock, trace, false);
    let answer = begun.answer;
    let count = begun.count;
    StartedIn {
        answer: answer,
        count: count,
    }
}

pub fn post_checked(
    checks: Checks,
    numbers: &mut [u64],
    internal: &[u8],
    external: &mut [u8],
    chart: &[u64],
    names: &[u8],
    name: &[u8],
) -> Answer
    requires { Checked chart.now names.now (session_in numbers.old internal.now external.old) checks }
    ensures { posted (session_in numbers.new internal.now external.new) result ≡ post_of (session_in numbers.old internal.now external.old) chart.now names.now name.now }
{
    if !checks.chart {
        return Answer::BadChart;
    }
    if !checks.session {
        return Answer::BadSession;
    }
    if !names::is_name(name) {
        return Answer::NotAName;
    }
    let mode = Mode::from(numbers[state::MODE]);
    if let Mode::Ended = mode {
        return Answer::SessionEnded;
    }
    let outer = numbers[state::EXTERNAL];
    if queue::MOST_QUEUED <= outer {
        return Answer::Full;
    }
    queue::put_last(external, outer, name);
    numbers[state::EXTERNAL] = outer + 1;
    Answer::Done
}

// A clock call (R-9).
pub fn clock_checked(
    checks: Checks,
    numbers: &mut [u64],
    internal: &[u8],
    external: &mut [u8],
    clock: &mut [u8],
    chart: &[u64],
    names: &[u8],
    ticks: u64,
) -> Answer
    requires { checks ≡ checks_of chart.now names.now (session_in numbers.old internal.now external.old) (record_in clock.old) }
    ensures { clocked_as (session_in numbers.new internal.now external.new) (record_in clock.new) result ≡ clock_of (session_in numbers.old internal.now external.old) (record_in clock.old) chart.now names.now ticks }
{
    if !checks.chart {
        return Answer::BadChart;
    }
    if !checks.clock {
        return Answer::BadSession;
    }
    let mode = Mode::from(numbers[state::MODE]);
    if let Mode::Ended = mode {
        return Answer::SessionEnded;
    }
    if (ticks < clock::ticks_of(clock)) | (MOST_TICKS < ticks) {
        return Answer::ClockBack;
    }
    let outer = numbers[state::EXTERNAL];
    let waiting = clock::join_due(clock, external, outer, ticks);
    numbers[state::EXTERNAL] = waiting;
    Answer::Done
}

fn refused(answer: Answer) -> RanIn
    ensures { result ≡ refused_in answer }
{
    RanIn {
        status: Status::Refused(answer),
        rounds: 0,
        count: 0,
    }
}

pub fn run_checked(
    checks: Checks,
    numbers: &mut [u64],
    internal: &mut [u8],
    external: &mut [u8],
    clock: &mut [u8],
    chart: &[u64],
    names: &[u8],
    rounds: u32,
    trace: &mut [u32],
) -> RanIn
    requires { checks ≡ checks_of chart.now names.now (session_in numbers.old internal.old external.old) (record_in clock.old) }
    ensures { (ran_in (session_in numbers.new internal.new external.new) (record_in clock.new) result ≡ run_of (session_in numbers.old internal.old external.old) (record_in clock.old) chart.now names.now rounds (length trace.old)) × (trace.new ≡ trace_with trace.old (run_effects (session_in numbers.old internal.old external.old) (record_in clock.old) chart.now names.now rounds (length trace.old))) }
{
    if !checks.chart {
        return refused(Answer::BadChart);
    }
    if !checks.clock {
        return refused(Answer::BadSession);
    }
    let done = rounds::run(
        chart, names, numbers, internal, external, clock, rounds, trace, false,
    );
    let status = done.status;
    let number = done.rounds;
    let count = done.count;
    RanIn {
        status: status,
        rounds: number,
        count: count,
    }
}
