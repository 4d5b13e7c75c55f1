// A whole list of calls, performed one after the other over a session and a clock record lent in place.
#![tactic(auto)]

ghost use Rattle.std.specs.Prelude.{◌≡◌, true, length};
ghost use Rattle.lent.specs.Places.{places_fit};
ghost use Rattle.calls.specs.Calls.{calls_of};
ghost use Rattle.calls.specs.Performing.{both_in, Performs, calls_in};

use cells::{ARGUMENTS, CALL_WIDTH, RESULT_WIDTH, cells_at, is_call, put_result};
use performing::{Asked, checks_after, perform_call};

mod cells;
mod performing;

// The calls over places of the right lengths.
fn perform_calls(
    numbers: &mut [u64],
    internal: &mut [u8],
    external: &mut [u8],
    clock: &mut [u8],
    chart: &[u64],
    names: &[u8],
    calls: &mut [u64],
    text: &[u8],
    trace: &mut [u32],
) -> usize
    requires { places_fit (length numbers.old) (length internal.old) (length external.old) (length clock.old) ≡ true }
    ensures { Performs (calls_of calls.old text.now (length trace.old)) (both_in numbers.old internal.old external.old clock.old) chart.now names.now calls.old trace.old (both_in numbers.new internal.new external.new clock.new) result calls.new trace.new }
{
    let mut checks = lent::check(numbers, internal, external, clock, chart, names);
    let mut performed = 0;
    let mut used = 0;
    while performed < calls.len() / CALL_WIDTH {
        let cells = cells_at(calls, performed);
        if !is_call(cells, text.len(), trace.len() - used) {
            break;
        }
        let end = used + cells.room as usize;
        let asked = Asked {
            checks: checks,
            cells: cells,
        };
        let done = perform_call(
            asked,
            numbers,
            internal,
            external,
            clock,
            chart,
            names,
            text,
            &mut trace[used..end],
        );
        let put = performed * CALL_WIDTH + ARGUMENTS;
        let put_end = put + RESULT_WIDTH;
        put_result(&mut calls[put..put_end], done);
        checks = checks_after(checks, cells.kind);
        used = end;
        performed += 1;
    }
    performed
}

// The calls up to the first seven cells that are none, or that the trace has no room for; chart, session and clock record are checked once. The last three cells of a call take what it
// gives: the number of its answer or status, the rounds done, the count of its entries, which stand at the beginning of its window. What is handed back is how many were performed.
pub fn perform(
    numbers: &mut [u64],
    internal: &mut [u8],
    external: &mut [u8],
    clock: &mut [u8],
    chart: &[u64],
    names: &[u8],
    calls: &mut [u64],
    text: &[u8],
    trace: &mut [u32],
) -> usize
    ensures { Performs (calls_of (calls_in (places_fit (length numbers.old) (length internal.old) (length external.old) (length clock.old)) calls.old) text.now (length trace.old)) (both_in numbers.old internal.old external.old clock.old) chart.now names.now calls.old trace.old (both_in numbers.new internal.new external.new clock.new) result calls.new trace.new }
{
    if !lent::places_fit(numbers.len(), internal.len(), external.len(), clock.len()) {
        return 0;
    }
    perform_calls(
        numbers, internal, external, clock, chart, names, calls, text, trace,
    )
}
