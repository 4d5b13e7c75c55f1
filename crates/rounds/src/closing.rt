// The round of a closing session.
ghost use Rattle.std.specs.Prelude.{◌≡◌};
ghost use Rattle.definition.specs.declared.Mode.TheVariants.{Closing};
ghost use Rattle.chart.specs.Ready.{Ready};
ghost use Rattle.clock.specs.Records.{ClockHolds};
ghost use Rattle.state.specs.State.{mode_in, HoldsAt};
ghost use Rattle.rounds.specs.Closing.{IsEnded, Closed};

use crate::judging::{count_closing, judge, room_of, shown_of, unchanged};
use crate::{NOTHING, Outcome, Turn};
use definition::Mode;
use effects::Tally;
use rowset::RowSet;
use state::State;

pub fn ended() -> State
    ensures { IsEnded result }
{
    State {
        configuration: RowSet::empty(),
        internal: 0,
        external: 0,
        mode: Mode::Ended,
    }
}

// "exits all that is active in exit order and stores no history; queues are emptied, raises are shown but not queued, mode is ended"; "a closing round's sends are
// only shown", and the table is emptied (R-9). A quiet one writes no entry.
pub fn close(
    chart: &[u64],
    numbers: &mut [u64],
    internal: &mut [u8],
    external: &mut [u8],
    clock: &mut [u8],
    trace: &mut [u32],
    quiet: bool,
) -> Turn
    requires { Ready chart.now × HoldsAt chart.now numbers.old internal.old external.old × (mode_in numbers.old ≡ Closing) × ClockHolds Closing clock.old }
    ensures { Closed quiet chart.now numbers.old internal.old external.old clock.old result numbers.new internal.new external.new clock.new trace.old trace.new }
{
    let conf = chart::set_at(numbers, 0);
    let shown = Tally {
        entries: count_closing(chart, conf).entries,
        names: 0,
        timers: 0,
    };
    let room = trace.len();
    let outcome = judge(0, shown, room_of(quiet, room));
    let Outcome::Did = outcome else {
        return unchanged(outcome);
    };
    let mut none = [0u32; 0];
    let end = shown_of(quiet, room);
    let tally = microstep::closing_effects(chart, conf, &mut trace[..end], &mut none, NOTHING);
    queue::clear(internal);
    queue::clear(external);
    clock::drop_pending(clock);
    state::put_state(numbers, ended());
    let entries = tally.entries as usize;
    Turn {
        outcome: Outcome::Did,
        count: shown_of(quiet, entries),
        entries: entries,
    }
}
