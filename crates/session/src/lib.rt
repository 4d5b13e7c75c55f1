// The session and its clock record by value: what every call of this crate takes and hands back beside its answer. Plain numbers; C lends the same parts in place (crate lent).
#![tactic(auto)]

ghost use Rattle.std.specs.Prelude.{◌≡◌, ◌++◌, ◌+◌, ◌*◌, ◌<◌, length, take, drop};
ghost use Rattle.definition.specs.Tables.{chart_of, slot_of};
ghost use Rattle.chart.specs.Ready.{Ready};
ghost use Rattle.session.specs.Sessions.{session, session_at, ended_session, is_session, is_timed, post_checked, post_of, start_of, start_effects, refused_run, run_of, run_effects, clock_of};
ghost use Rattle.session.specs.Calling.{Taken};
ghost use Rattle.state.specs.State.{rows_at, mode_from, numbers_of, trace_with};
ghost use Rattle.definition.specs.Compiled.{words};
ghost use Rattle.definition.specs.Answers.{mode_no};

pub use clocking::MOST_TICKS;
use clocking::clock_checked;
use definition::{Answer, Mode, Status};
use judging::parts_hold;
pub use judging::{history_holds, mode_holds};
use places::copy;
use state::State;

mod clocking;
mod judging;

#[repr(C)]
#[derive(Clone, Copy)]
pub struct Session {
    pub configuration: [u64; 4],
    pub history: [u64; 1024],
    pub internal: [u8; 2048],
    pub external: [u8; 2048],
    pub internal_count: u64,
    pub external_count: u64,
    pub mode: u64,
}

// A clock record (R-9): the bytes of its place, of which crate clock tells the parts. Zeros are a new one.
#[repr(C)]
#[derive(Clone, Copy)]
pub struct Clock {
    pub bytes: [u8; 4368],
}

// What a post hands back.
#[derive(Drop)]
pub struct Posted {
    pub session: Session,
    pub answer: Answer,
}

// What a start hands back; count entries of the trace are its own.
#[derive(Drop)]
pub struct Started {
    pub session: Session,
    pub clock: Clock,
    pub answer: Answer,
    pub count: usize,
}

// What a run hands back: the rounds done, and how many entries of the trace they wrote.
#[derive(Drop)]
pub struct Ran {
    pub session: Session,
    pub clock: Clock,
    pub status: Status,
    pub rounds: u32,
    pub count: usize,
}

// What a clock call hands back.
#[derive(Drop)]
pub struct Clocked {
    pub session: Session,
    pub clock: Clock,
    pub answer: Answer,
}

// The name into the slot behind the count names of a session's queue.
fn put_name(queue: &mut [u8; 2048], count: u64, name: &[u8])
    requires { (length queue.old ≡ 2048) × (count < 32) }
    ensures { queue.new ≡ take (count * 64) queue.old ++ (slot_of name.now ++ drop (count * 64 + 64) queue.old) }
{
    queue::put_last(queue, count, name);
}

impl Session {
    // An ended session that stores nothing.
    pub fn ended() -> Session
        ensures { result ≡ ended_session }
    {
        Session {
            configuration: [0u64; 4],
            history: [0u64; 1024],
            internal: [0u8; 2048],
            external: [0u8; 2048],
            internal_count: 0,
            external_count: 0,
            mode: u64::from(Mode::Ended),
        }
    }

    // The session in these numbers and queues.
    fn of(numbers: [u64; 1031], internal: [u8; 2048], external: [u8; 2048]) -> Session
        ensures { result ≡ session_at numbers internal external }
    {
        let mut history = [0u64; 1024];
        copy(&numbers[state::HISTORY..state::INTERNAL], &mut history);
        Session {
            configuration: [numbers[0], numbers[1], numbers[2], numbers[3]],
            history: history,
            internal: internal,
            external: external,
            internal_count: numbers[state::INTERNAL],
            external_count: numbers[state::EXTERNAL],
            mode: numbers[state::MODE],
        }
    }

    // Its numbers, as a run takes them.
    fn numbers(self) -> [u64; 1031]
        ensures { result ≡ numbers_of (words (rows_at self.configuration 0)) self.history self.internal_count self.external_count (mode_no (mode_from self.mode)) }
    {
        let state = self.state();
        let mut numbers = [0u64; state::NUMBERS];
        copy(&self.history, &mut numbers[state::HISTORY..state::INTERNAL]);
        state::put_state(&mut numbers, state);
        numbers
    }

    // The parts that a run hands on by value.
    fn state(self) -> State
        ensures { Taken self result }
    {
        let configuration = chart::set_at(&self.configuration, 0);
        State {
            configuration: configuration,
            internal: self.internal_count,
            external: self.external_count,
            mode: Mode::from(self.mode),
        }
    }

    fn refused(self, clock: Clock, answer: Answer) -> Ran
        ensures { result ≡ refused_run self clock answer }
    {
        Ran {
            session: self,
            clock: clock,
            status: Status::Refused(answer),
            rounds: 0,
            count: 0,
        }
    }

    fn is_session(self, chart: &[u64]) -> bool
        requires { Ready chart.now }
        ensures { result ≡ is_session (chart_of chart.now) self }
    {
        let internal = self.internal_count;
        let external = self.external_count;
        let mode = self.mode;
        parts_hold(
            chart,
            &self.configuration,
            &self.history,
            &self.internal,
            &self.external,
            internal,
            external,
            mode,
        )
    }

    // Both are well formed, the record beside a session of that mode.
    fn is_timed(self, clock: Clock, chart: &[u64]) -> bool
        requires { Ready chart.now }
        ensures { result ≡ is_timed (chart_of chart.now) self clock }
    {
        let mode = self.mode;
        if !self.is_session(chart) {
            return false;
        }
        clock::is_clock(&clock.bytes, Mode::from(mode))
    }

    // A post, the chart once checked: answers 9, 6, 11, 7 in this order, or the name last in the external queue.
    fn post_checked(mut self, chart: &[u64], name: &[u8]) -> Posted
        requires { Ready chart.now }
        ensures { result ≡ post_checked (chart_of chart.now) self name.now }
    {
        let external = self.external_count;
        if !self.is_session(chart) {
            return Posted {
                session: self,
                answer: Answer::BadSession,
            };
        }
        if !names::is_name(name) {
            return Posted {
                session: self,
                answer: Answer::NotAName,
            };
        }
        let mode = Mode::from(self.mode);
        if let Mode::Ended = mode {
            return Posted {
                session: self,
                answer: Answer::SessionEnded,
            };
        }
        if queue::MOST_QUEUED <= external {
            return Posted {
                session: self,
                answer: Answer::Full,
            };
        }
        put_name(&mut self.external, external, name);
        self.external_count = external + 1;
        Posted {
            session: self,
            answer: Answer::Done,
        }
    }

    // A post: answers 8, 9, 6, 11, 7 in this order leave the session as it was.
    pub fn post(self, chart: &[u64], names: &[u8], name: &[u8]) -> Posted
        ensures { result ≡ post_of self chart.now names.now name.now }
    {
        if !compiler::check(chart, names) {
            return Posted {
                session: self,
                answer: Answer::BadChart,
            };
        }
        self.post_checked(chart, name)
    }

    // Start afresh, whatever session and clock record were. Refused with 8, 7 or 10 it hands back an ended session that stores nothing; every start begins a new record.
    pub fn start(self, clock: Clock, chart: &[u64], names: &[u8], trace: &mut [u32]) -> Started
        ensures { (result ≡ start_of chart.now names.now (length trace.old)) × (trace.new ≡ trace_with trace.old (start_effects chart.now names.now (length trace.old))) }
    {
        if !compiler::check(chart, names) {
            let zeros = [0u8; 4368];
            return Started {
                session: Session::ended(),
                clock: Clock { bytes: zeros },
                answer: Answer::BadChart,
                count: 0,
            };
        }
        let mut numbers = [0u64; state::NUMBERS];
        let mut internal = [0u8; 2048];
        let mut bytes = [0u8; 4368];
        let begun = rounds::start(
            chart,
            names,
            &mut numbers,
            &mut internal,
            &mut bytes,
            trace,
            false,
        );
        let answer = begun.answer;
        let count = begun.count;
        Started {
            session: Session::of(numbers, internal, [0u8; 2048]),
            clock: Clock { bytes: bytes },
            answer: answer,
            count: count,
        }
    }

    // At most so many rounds: 8 or 9 changes nothing, and a round refused with 7 or 10 ends the run with the rounds before it.
    pub fn run(
        self,
        clock: Clock,
        chart: &[u64],
        names: &[u8],
        rounds: u32,
        trace: &mut [u32],
    ) -> Ran
        ensures { (result ≡ run_of self clock chart.now names.now rounds (length trace.old)) × (trace.new ≡ trace_with trace.old (run_effects self clock chart.now names.now rounds (length trace.old))) }
    {
        if !compiler::check(chart, names) {
            return self.refused(clock, Answer::BadChart);
        }
        if !self.is_timed(clock, chart) {
            return self.refused(clock, Answer::BadSession);
        }
        let mut numbers = self.numbers();
        let mut internal = self.internal;
        let mut external = self.external;
        let mut bytes = clock.bytes;
        let done = rounds::run(
            chart,
            names,
            &mut numbers,
            &mut internal,
            &mut external,
            &mut bytes,
            rounds,
            trace,
            false,
        );
        let status = done.status;
        let number = done.rounds;
        let count = done.count;
        Ran {
            session: Session::of(numbers, internal, external),
            clock: Clock { bytes: bytes },
            status: status,
            rounds: number,
            count: count,
        }
    }

    // The clock moves on to ticks, and whatever is due joins the external queue (R-9): answers 8, 9, 11, 14 in this order leave session and record as they were.
    pub fn clock(self, clock: Clock, chart: &[u64], names: &[u8], ticks: u64) -> Clocked
        ensures { result ≡ clock_of self clock chart.now names.now ticks }
    {
        if !compiler::check(chart, names) {
            return Clocked {
                session: self,
                clock: clock,
                answer: Answer::BadChart,
            };
        }
        clock_checked(self, clock, chart, ticks)
    }
}
