// The lengths of the places, and 8 and 9.
ghost use Rattle.std.specs.Prelude.{◌≡◌};
ghost use Rattle.definition.specs.Tables.{chart_of};
ghost use Rattle.chart.specs.Ready.{Ready};
ghost use Rattle.session.specs.Sessions.{is_session};
ghost use Rattle.lent.specs.Places.{session_in, record_in, lengths_fit, places_fit, checks_of, Checked};

use crate::Checks;
use definition::Mode;

const QUEUE: usize = 2048;

const CLOCK: usize = 4368;

fn lengths_fit(numbers: usize, internal: usize, external: usize) -> bool
    ensures { result ≡ lengths_fit numbers internal external }
{
    (numbers == state::NUMBERS) & (internal == QUEUE) & (external == QUEUE)
}

// Those of a session and of its clock record.
pub fn places_fit(numbers: usize, internal: usize, external: usize, clock: usize) -> bool
    ensures { result ≡ places_fit numbers internal external clock }
{
    lengths_fit(numbers, internal, external) & (clock == CLOCK)
}

fn holds(chart: &[u64], numbers: &[u64], internal: &[u8], external: &[u8]) -> bool
    requires { Ready chart.now }
    ensures { result ≡ is_session (chart_of chart.now) (session_in numbers.now internal.now external.now) }
{
    if !lengths_fit(numbers.len(), internal.len(), external.len()) {
        return false;
    }
    let inner = numbers[state::INTERNAL];
    let outer = numbers[state::EXTERNAL];
    let mode = numbers[state::MODE];
    let queues = queue::queue_fits(internal, inner) & queue::queue_fits(external, outer);
    let conf = tables::set_at(numbers, 0);
    queues
        & session::mode_holds(chart, conf, inner, outer, mode)
        & session::history_holds(chart, &numbers[state::HISTORY..state::INTERNAL])
}

// What a post asks for.
pub fn check_session(
    numbers: &[u64],
    internal: &[u8],
    external: &[u8],
    chart: &[u64],
    names: &[u8],
) -> Checks
    ensures { Checked chart.now names.now (session_in numbers.now internal.now external.now) result }
{
    if !compiler::check(chart, names) {
        return Checks {
            chart: false,
            session: false,
            clock: false,
        };
    }
    Checks {
        chart: true,
        session: holds(chart, numbers, internal, external),
        clock: false,
    }
}

pub fn check(
    numbers: &[u64],
    internal: &[u8],
    external: &[u8],
    clock: &[u8],
    chart: &[u64],
    names: &[u8],
) -> Checks
    ensures { result ≡ checks_of chart.now names.now (session_in numbers.now internal.now external.now) (record_in clock.now) }
{
    if !compiler::check(chart, names) {
        return Checks {
            chart: false,
            session: false,
            clock: false,
        };
    }
    if !holds(chart, numbers, internal, external) {
        return Checks {
            chart: true,
            session: false,
            clock: false,
        };
    }
    let mode = Mode::from(numbers[state::MODE]);
    Checks {
        chart: true,
        session: true,
        clock: clock::is_clock(clock, mode),
    }
}
