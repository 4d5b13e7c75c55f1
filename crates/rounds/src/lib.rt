// Rounds over the lent places of a session and its clock record. A round is worked out whole, into a draft; 7 and 10 are judged; then the record, history, queues
// and trace are written. A refused round changes none of them, since none of them was written.
#![tactic(auto)]

use definition::{Answer, Status};
use effects::Tally;
use events::Source;
use microstep::Plan;
pub use running::run;
pub use starting::start;

mod closing;
mod judging;
mod running;
mod starting;
mod taking;
mod timing;

// What a start has done: count entries of the trace are its own.
#[derive(Drop)]
pub struct Begun {
    pub answer: Answer,
    pub count: usize,
}

// What a run has done.
#[derive(Clone, Copy)]
pub struct Progress {
    pub status: Status,
    pub rounds: u32,
    pub count: usize,
}

// What became of a round: nothing to choose, the session over, refused, or done.
#[derive(Clone, Copy)]
pub enum Outcome {
    Idle,
    Over,
    Refused(Answer),
    Did,
}

// How many entries it wrote, and how many it has: a quiet round writes none of them (R-10).
#[derive(Clone, Copy)]
pub struct Turn {
    pub outcome: Outcome,
    pub count: usize,
    pub entries: usize,
}

// What a round of a running session takes: where its event comes from, how many transitions, and what they do.
#[derive(Clone, Copy)]
pub struct Step {
    pub source: Source,
    pub len: usize,
    pub plan: Plan,
}

// What became of a step that was shown, how many entries it wrote, and what was counted of it.
#[derive(Clone, Copy)]
pub struct Shown {
    pub outcome: Outcome,
    pub count: usize,
    pub tally: Tally,
}

// What is noted beside the draft: 32 names that join the internal queue, of which more are refused; how many sends and cancels are passed over; and the first
// eight of these, two numbers each.
const NOTES: usize = 49;

// More room than all entries of a run take: it has at most 4,294,967,295 rounds, of at most 43,008 entries each.
const QUIET_ROOM: usize = 9223372036854775808;

// Nothing is counted yet: effects are written from the beginning of what is lent.
const NOTHING: Tally = Tally {
    entries: 0,
    names: 0,
    timers: 0,
};
