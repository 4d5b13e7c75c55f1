// One call of a list.
ghost use Rattle.std.specs.Prelude.{◌≡◌, true, [], ◌∷◌, length};
ghost use Rattle.faithful.specs.Program.{call};
ghost use Rattle.lent.specs.Places.{session_in, record_in, places_fit, checks_of};
ghost use Rattle.calls.specs.Calls.{is_kind, call_of};
ghost use Rattle.calls.specs.Performing.{both_in, Did};
ghost use Rattle.calls.specs.Kept.{checks_after};

use crate::cells::{Called, Cells, POST, RUN, START, gives};
use answers::{answer_number, status_number};
use lent::Checks;

// What a call is, and what is known of chart, session and clock record.
#[derive(Clone, Copy)]
pub struct Asked {
    pub checks: Checks,
    pub cells: Cells,
}

// One call of a list, over its window of the trace.
pub fn perform_call(
    asked: Asked,
    numbers: &mut [u64],
    internal: &mut [u8],
    external: &mut [u8],
    clock: &mut [u8],
    chart: &[u64],
    names: &[u8],
    text: &[u8],
    trace: &mut [u32],
) -> Called
    requires { (asked.checks ≡ checks_of chart.now names.now (session_in numbers.old internal.old external.old) (record_in clock.old)) × (places_fit (length numbers.old) (length internal.old) (length external.old) (length clock.old) ≡ true) × (is_kind asked.cells.kind asked.cells.a asked.cells.b (length text.now) ≡ true) }
    ensures { Did (call chart.now names.now (both_in numbers.old internal.old external.old clock.old) (call_of asked.cells.kind (length trace.old) asked.cells.a asked.cells.b text.now)) trace.old (both_in numbers.new internal.new external.new clock.new) (result.number ∷ result.rounds ∷ result.count ∷ []) trace.new }
{
    let checks = asked.checks;
    let cells = asked.cells;
    let kind = cells.kind;
    let a = cells.a;
    let b = cells.b;
    if kind == START {
        let good = checks.chart;
        let started = lent::start_checked(
            good, numbers, internal, external, clock, chart, names, trace,
        );
        let answer = started.answer;
        return gives(answer_number(answer), 0, started.count);
    }
    if kind == POST {
        let from = a as usize;
        let to = b as usize;
        let name = &text[from..to];
        let answer = lent::post_checked(checks, numbers, internal, external, chart, names, name);
        return gives(answer_number(answer), 0, 0);
    }
    if kind == RUN {
        let ran = lent::run_checked(
            checks, numbers, internal, external, clock, chart, names, a as u32, trace,
        );
        let status = ran.status;
        return gives(status_number(status), ran.rounds, ran.count);
    }
    let answer = lent::clock_checked(checks, numbers, internal, external, clock, chart, names, a);
    gives(answer_number(answer), 0, 0)
}

// Behind a start session and clock record pass if the chart does; every other call keeps them as they were.
pub fn checks_after(checks: Checks, kind: u64) -> Checks
    ensures { result ≡ checks_after checks kind }
{
    if kind == START {
        return Checks {
            chart: checks.chart,
            session: checks.chart,
            clock: checks.chart,
        };
    }
    checks
}
