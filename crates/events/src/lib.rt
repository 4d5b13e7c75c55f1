// The event of a round: where it comes from, what it selects, how it leaves its queue, and the names that a round queues.
#![tactic(auto)]

ghost use Rattle.std.specs.Prelude.{◌≡◌, true, ◌++◌, ◌+◌, ◌≤◌, length};
ghost use Rattle.definition.specs.Tables.{name_at, chart_of};
ghost use Rattle.follower.specs.Blocks.{queued};
ghost use Rattle.chart.specs.Ready.{CompiledWith};
ghost use Rattle.matching.specs.Events.{event_of};
ghost use Rattle.selection.specs.History.{stored_at};
ghost use Rattle.lookup.specs.Lookup.{Lookup};
ghost use Rattle.std.proofs.Math.Option.{none};
ghost use Rattle.queue.specs.Queues.{queue_bytes, queue_of};
ghost use Rattle.state.specs.State.{history_in, state_at, HoldsAt};
ghost use Rattle.events.specs.Rounds.{EventReady, Found, Chooses, internal_bytes, external_bytes, Waits, effect_at, queued_names, is_known, JoinsIn, Joins};

use effects::writing::{DONE, KIND, RAISED};
use numbers::{NameNumber, Row};
use rowset::RowSet;
use selection::Selected;

// Where the event of a round comes from: nothing if the session is idle.
#[derive(Clone, Copy)]
pub enum Source {
    Nothing,
    Eventless,
    Internal,
    External,
}

// What the next round of a running session takes.
#[derive(Clone, Copy)]
pub struct Choice {
    pub source: Source,
    pub selected: Selected,
}

// What a round of this event selects in the configuration that the numbers hold.
fn select_event(
    chart: &[u64],
    names: &[u8],
    index: &[u16],
    numbers: &[u64],
    event: &[u8],
    items: &mut [u16],
) -> Selected
    requires { EventReady chart.now names.now index.now numbers.now items.old }
    ensures { Found chart.now names.now numbers.now (event_of event.now) items.new result }
{
    let atomic = lookup::rows_at(index, lookup::ATOMIC);
    let conf = chart::set_at(numbers, 0);
    selection::select(
        chart,
        names,
        &index[..lookup::STARTS],
        &index[lookup::STARTS..lookup::ATOMIC],
        atomic,
        conf,
        &numbers[state::HISTORY..state::INTERNAL],
        event,
        items,
    )
}

// What an eventless round selects: nothing, where no active row is at or below the source of an eventless transition.
pub fn select_eventless(
    chart: &[u64],
    names: &[u8],
    index: &[u16],
    numbers: &[u64],
    items: &mut [u16],
) -> Selected
    requires { EventReady chart.now names.now index.now numbers.now items.old }
    ensures { Found chart.now names.now numbers.now none items.new result }
{
    let conf = chart::set_at(numbers, 0);
    let eventless = lookup::rows_at(index, lookup::EVENTLESS);
    if !conf.meets(eventless) {
        return Selected {
            len: 0,
            exits: RowSet::empty(),
        };
    }
    select_event(chart, names, index, numbers, b"", items)
}

// "eventless transitions first. If none is selected, the oldest internal event; if there is none, the oldest external event; if there
// is none, the session is idle."
pub fn choose(
    chart: &[u64],
    names: &[u8],
    index: &[u16],
    numbers: &[u64],
    internal: &[u8],
    external: &[u8],
    items: &mut [u16],
) -> Choice
    requires { Lookup chart.now names.now index.now × HoldsAt chart.now numbers.now internal.now external.now × (length items.old ≡ 768) }
    ensures { Chooses (chart_of chart.now) (name_at names.now) (state_at chart.now numbers.now internal.now external.now) (stored_at (history_in numbers.now)) items.new result }
{
    let first = select_eventless(chart, names, index, numbers, items);
    if 0 < first.len {
        return Choice {
            source: Source::Eventless,
            selected: first,
        };
    }
    if 0 < numbers[state::INTERNAL] {
        let event = queue::first_name(internal);
        return Choice {
            source: Source::Internal,
            selected: select_event(chart, names, index, numbers, event, items),
        };
    }
    if 0 < numbers[state::EXTERNAL] {
        let event = queue::first_name(external);
        return Choice {
            source: Source::External,
            selected: select_event(chart, names, index, numbers, event, items),
        };
    }
    Choice {
        source: Source::Nothing,
        selected: first,
    }
}

// "A taken event leaves the internal queue before new ones join." So many names wait in each.
pub fn take_event(
    source: Source,
    internal: &mut [u8],
    external: &mut [u8],
    internal_count: u64,
    external_count: u64,
)
    requires { Waits source internal.old external.old internal_count external_count }
    ensures { (internal.new ≡ internal_bytes source internal.old) × (external.new ≡ external_bytes source external.old) }
{
    match source {
        Source::Nothing => (),
        Source::Eventless => (),
        Source::Internal => queue::take_oldest(internal, internal_count),
        Source::External => queue::take_oldest(external, external_count),
    }
}

// One join of a round: a raised name, or the done name of a row, behind the count names of the internal queue.
fn queue_join(chart: &[u64], names: &[u8], join: u32, internal: &mut [u8], count: u64) -> u64
    requires { CompiledWith chart.now names.now × (is_known chart.now (effect_at join) ≡ true) × (length internal.old ≡ 2048) × (count + length (queued (chart_of chart.now) (name_at names.now) (effect_at join)) ≤ 32) }
    ensures { Joins (queued (chart_of chart.now) (name_at names.now) (effect_at join)) internal.old internal.new count result }
{
    let kind = join / KIND;
    let index = join % KIND;
    if kind == RAISED {
        let slot = tables::slot_of(names, NameNumber(index as u16));
        queue::put_last(internal, count, names::name_of(slot));
        return count + 1;
    }
    if kind == DONE {
        let id = tables::slot_of(names, tables::id_of(chart, Row(index as u8)));
        queue::put_done_last(internal, count, names::name_of(id));
        return count + 1;
    }
    count
}

// The names that a round's joins stand for join the count names of the internal queue; how many they are then.
pub fn queue_names(
    chart: &[u64],
    names: &[u8],
    joins: &[u32],
    internal: &mut [u8],
    count: u64,
) -> u64
    requires { CompiledWith chart.now names.now × JoinsIn chart.now joins.now × (internal.old ≡ queue_bytes (queue_of internal.old count)) × (count + length (queued_names (chart_of chart.now) (name_at names.now) joins.now) ≤ 32) }
    ensures { (internal.new ≡ queue_bytes (queue_of internal.old count ++ queued_names (chart_of chart.now) (name_at names.now) joins.now)) × (result ≡ count + length (queued_names (chart_of chart.now) (name_at names.now) joins.now)) }
{
    let mut n = count;
    for &join in joins {
        n = queue_join(chart, names, join, internal, n);
    }
    n
}
