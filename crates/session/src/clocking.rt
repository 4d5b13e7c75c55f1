// The clock call (R-9): the host gives the clock, and sends that are due join the external queue.
ghost use Rattle.std.specs.Prelude.{◌≡◌, ◌≤◌};
ghost use Rattle.definition.specs.declared.Mode.TheVariants.{Running};
ghost use Rattle.definition.specs.Tables.{chart_of};
ghost use Rattle.follower.specs.Clock.{most_ticks};
ghost use Rattle.chart.specs.Ready.{Ready};
ghost use Rattle.queue.specs.Queues.{queue_bytes, queue_of};
ghost use Rattle.clock.specs.Records.{ClockHolds, JoinedDue};
ghost use Rattle.session.specs.Sessions.{clock_checked};

use crate::{Clock, Clocked, Session};
pub use clock::MOST_TICKS;
use definition::{Answer, Mode};

// What is due joins a queue in which so many names wait, and the record's clock moves to ticks.
fn join(clock: &mut [u8; 4368], external: &mut [u8; 2048], waiting: u64, ticks: u64) -> u64
    requires { ClockHolds Running clock.old × (external.old ≡ queue_bytes (queue_of external.old waiting)) × (waiting ≤ 32) × (ticks ≤ most_ticks) }
    ensures { JoinedDue clock.old clock.new external.old external.new waiting ticks result }
{
    clock::join_due(clock, external, waiting, ticks)
}

// The chart once checked: answers 9, 11, 14 in this order, or the clock moved.
pub fn clock_checked(mut session: Session, mut clock: Clock, chart: &[u64], ticks: u64) -> Clocked
    requires { Ready chart.now }
    ensures { result ≡ clock_checked (chart_of chart.now) session clock ticks }
{
    let waiting = session.external_count;
    if !session.is_timed(clock, chart) {
        return Clocked {
            session: session,
            clock: clock,
            answer: Answer::BadSession,
        };
    }
    let mode = Mode::from(session.mode);
    if let Mode::Ended = mode {
        return Clocked {
            session: session,
            clock: clock,
            answer: Answer::SessionEnded,
        };
    }
    if (ticks < clock::ticks_of(&clock.bytes)) | (MOST_TICKS < ticks) {
        return Clocked {
            session: session,
            clock: clock,
            answer: Answer::ClockBack,
        };
    }
    session.external_count = join(&mut clock.bytes, &mut session.external, waiting, ticks);
    Clocked {
        session: session,
        clock: clock,
        answer: Answer::Done,
    }
}
