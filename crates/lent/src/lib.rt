// The calls over a session that is lent in three places, which are changed where they lie: its numbers, its internal and its external queue. Its clock record lies in a fourth.
#![tactic(auto)]

ghost use Rattle.std.specs.Prelude.{◌≡◌, length};
ghost use Rattle.state.specs.State.{trace_with};
ghost use Rattle.session.specs.Sessions.{posted, post_of, run_of, run_effects, clocked_as, clock_of};
ghost use Rattle.lent.specs.Places.{session_in, record_in, places_fit, started_in, ran_in, stepped_in, start_in, start_in_effects, Steps};

pub use checked::{clock_checked, post_checked, run_checked, start_checked};
use checking::check_session;
pub use checking::{check, places_fit};
use definition::{Answer, Status};

mod checked;
mod checking;

// What a start hands back; count entries of the trace are its own.
#[derive(Clone, Copy)]
pub struct StartedIn {
    pub answer: Answer,
    pub count: usize,
}

// What a run hands back: how it stopped, the rounds done and the entries that they wrote.
#[derive(Clone, Copy)]
pub struct RanIn {
    pub status: Status,
    pub rounds: u32,
    pub count: usize,
}

// The answer of a post, and what the run behind it hands back.
#[derive(Clone, Copy)]
pub struct Stepped {
    pub answer: Answer,
    pub status: Status,
    pub rounds: u32,
    pub count: usize,
}

// What was found of a chart, of a session over it, and of that with its clock record.
#[derive(Clone, Copy)]
pub struct Checks {
    pub chart: bool,
    pub session: bool,
    pub clock: bool,
}

// Start afresh, whatever the places held. Refused with 8, 7 or 10 it leaves an ended session that stores nothing; every start begins a new clock record. Places of other lengths are left as
// they were, with 9.
pub fn start(
    numbers: &mut [u64],
    internal: &mut [u8],
    external: &mut [u8],
    clock: &mut [u8],
    chart: &[u64],
    names: &[u8],
    trace: &mut [u32],
) -> StartedIn
    ensures { (started_in (session_in numbers.new internal.new external.new) (record_in clock.new) result ≡ start_in (places_fit (length numbers.old) (length internal.old) (length external.old) (length clock.old)) (session_in numbers.old internal.old external.old) (record_in clock.old) chart.now names.now (length trace.old)) × (trace.new ≡ trace_with trace.old (start_in_effects (places_fit (length numbers.old) (length internal.old) (length external.old) (length clock.old)) chart.now names.now (length trace.old))) }
{
    if !places_fit(numbers.len(), internal.len(), external.len(), clock.len()) {
        return StartedIn {
            answer: Answer::BadSession,
            count: 0,
        };
    }
    let good = compiler::check(chart, names);
    start_checked(
        good, numbers, internal, external, clock, chart, names, trace,
    )
}

// A post: 8, 9, 6, 11, 7 in this order change nothing.
pub fn post(
    numbers: &mut [u64],
    internal: &[u8],
    external: &mut [u8],
    chart: &[u64],
    names: &[u8],
    name: &[u8],
) -> Answer
    ensures { posted (session_in numbers.new internal.now external.new) result ≡ post_of (session_in numbers.old internal.now external.old) chart.now names.now name.now }
{
    let checks = check_session(numbers, internal, external, chart, names);
    post_checked(checks, numbers, internal, external, chart, names, name)
}

// The clock moves on to ticks, and whatever is due joins the external queue (R-9): 8, 9, 11, 14 in this order change nothing.
pub fn clock(
    numbers: &mut [u64],
    internal: &[u8],
    external: &mut [u8],
    clock: &mut [u8],
    chart: &[u64],
    names: &[u8],
    ticks: u64,
) -> Answer
    ensures { clocked_as (session_in numbers.new internal.now external.new) (record_in clock.new) result ≡ clock_of (session_in numbers.old internal.now external.old) (record_in clock.old) chart.now names.now ticks }
{
    let checks = check(numbers, internal, external, clock, chart, names);
    clock_checked(
        checks, numbers, internal, external, clock, chart, names, ticks,
    )
}

// At most so many rounds: 8 or 9 changes nothing, and a round refused with 7 or 10 ends the run with the rounds before it.
pub fn run(
    numbers: &mut [u64],
    internal: &mut [u8],
    external: &mut [u8],
    clock: &mut [u8],
    chart: &[u64],
    names: &[u8],
    rounds: u32,
    trace: &mut [u32],
) -> RanIn
    ensures { (ran_in (session_in numbers.new internal.new external.new) (record_in clock.new) result ≡ run_of (session_in numbers.old internal.old external.old) (record_in clock.old) chart.now names.now rounds (length trace.old)) × (trace.new ≡ trace_with trace.old (run_effects (session_in numbers.old internal.old external.old) (record_in clock.old) chart.now names.now rounds (length trace.old))) }
{
    let checks = check(numbers, internal, external, clock, chart, names);
    run_checked(
        checks, numbers, internal, external, clock, chart, names, rounds, trace,
    )
}

// A post and then a run, with one check.
pub fn step(
    numbers: &mut [u64],
    internal: &mut [u8],
    external: &mut [u8],
    clock: &mut [u8],
    chart: &[u64],
    names: &[u8],
    name: &[u8],
    rounds: u32,
    trace: &mut [u32],
) -> Stepped
    ensures { Steps (session_in numbers.old internal.old external.old) (record_in clock.old) chart.now names.now name.now rounds trace.old result.answer (stepped_in (session_in numbers.new internal.new external.new) (record_in clock.new) result) trace.new }
{
    let checks = check(numbers, internal, external, clock, chart, names);
    let answer = post_checked(checks, numbers, internal, external, chart, names, name);
    let ran = run_checked(
        checks, numbers, internal, external, clock, chart, names, rounds, trace,
    );
    let status = ran.status;
    let number = ran.rounds;
    let count = ran.count;
    Stepped {
        answer: answer,
        status: status,
        rounds: number,
        count: count,
    }
}
