// "The clock record is lent and changed in place, once the same by value stands." (R-9): the calls of crate session that take a clock record, with the record lent.
#![tactic(auto)]

ghost use Rattle.std.specs.Prelude.{◌≡◌, length};
ghost use Rattle.session.specs.Sessions.{start_of, start_effects, run_of, run_effects, clock_of};
ghost use Rattle.state.specs.State.{trace_with};

use definition::{Answer, Status};
use session::{Clock, Session};

// What a start hands back beside the record.
#[derive(Drop)]
pub struct Begun {
    pub session: Session,
    pub answer: Answer,
    pub count: usize,
}

// What a run hands back beside the record.
#[derive(Drop)]
pub struct Went {
    pub session: Session,
    pub status: Status,
    pub rounds: u32,
    pub count: usize,
}

// What a clock call hands back beside the record.
#[derive(Drop)]
pub struct Ticked {
    pub session: Session,
    pub answer: Answer,
}

pub fn start(
    session: Session,
    clock: &mut Clock,
    chart: &[u64],
    names: &[u8],
    trace: &mut [u32],
) -> Begun
    ensures { (result.session ≡ (start_of chart.now names.now (length trace.old)).session) × (result.answer ≡ (start_of chart.now names.now (length trace.old)).answer) × (result.count ≡ (start_of chart.now names.now (length trace.old)).count) × (clock.new ≡ (start_of chart.now names.now (length trace.old)).clock) × (trace.new ≡ trace_with trace.old (start_effects chart.now names.now (length trace.old))) }
{
    let r = session.start(*clock, chart, names, trace);
    *clock = r.clock;
    Begun {
        session: r.session,
        answer: r.answer,
        count: r.count,
    }
}

pub fn run(
    session: Session,
    clock: &mut Clock,
    chart: &[u64],
    names: &[u8],
    rounds: u32,
    trace: &mut [u32],
) -> Went
    ensures { (result.session ≡ (run_of session clock.old chart.now names.now rounds (length trace.old)).session) × (result.status ≡ (run_of session clock.old chart.now names.now rounds (length trace.old)).status) × (result.rounds ≡ (run_of session clock.old chart.now names.now rounds (length trace.old)).rounds) × (result.count ≡ (run_of session clock.old chart.now names.now rounds (length trace.old)).count) × (clock.new ≡ (run_of session clock.old chart.now names.now rounds (length trace.old)).clock) × (trace.new ≡ trace_with trace.old (run_effects session clock.old chart.now names.now rounds (length trace.old))) }
{
    let r = session.run(*clock, chart, names, rounds, trace);
    *clock = r.clock;
    Went {
        session: r.session,
        status: r.status,
        rounds: r.rounds,
        count: r.count,
    }
}

pub fn clock(session: Session, clock: &mut Clock, chart: &[u64], names: &[u8], ticks: u64) -> Ticked
    ensures { (result.session ≡ (clock_of session clock.old chart.now names.now ticks).session) × (result.answer ≡ (clock_of session clock.old chart.now names.now ticks).answer) × (clock.new ≡ (clock_of session clock.old chart.now names.now ticks).clock) }
{
    let r = session.clock(*clock, chart, names, ticks);
    *clock = r.clock;
    Ticked {
        session: r.session,
        answer: r.answer,
    }
}
