// Which transitions match an event, and which of them the active atomic states choose.
#![tactic(auto)]

ghost use Rattle.std.specs.Prelude.{◌≡◌, length};
ghost use Rattle.definition.specs.Rows.{any};
ghost use Rattle.definition.specs.Tables.{row_count, events_at, name_at, chart_of};
ghost use Rattle.follower.specs.Selection.{matches_at, is_triggered, is_true, is_match};
ghost use Rattle.tables.specs.Ranges.{SlotIn, NameInList};
ghost use Rattle.tables.specs.Parts.{condition_of};
ghost use Rattle.rowset.specs.Member.{rows_of};
ghost use Rattle.chart.specs.Ready.{Ready};
ghost use Rattle.matching.specs.Events.{event_of};
ghost use Rattle.matching.specs.Descriptors.{PlaceOf, SomeDescriptors};
ghost use Rattle.matching.specs.Sources.{starts_before, Indexed};
ghost use Rattle.matching.specs.Climb.{choice_of};
ghost use Rattle.chart.specs.Within.{Within};
ghost use Rattle.matching.specs.Choosers.{AreChosenBy};
ghost use Rattle.matching.specs.Ready.{TransitionWith, ClimbReady, Prepared};
ghost use Rattle.matching.specs.Climbed.{Climbs};

use choosers::note_choice;
pub use choosers::{CHOOSERS, ITEMS};
use numbers::{NameNumber, Row, Transition};
use onepass::Places;
pub use rows::{atomic_rows, eventless_rows, history_rows};
use rowset::RowSet;
use tables::limits;

pub mod choosers;
pub mod rows;

// ---- one transition against the event and the configuration

// Whether the descriptor of that number matches the event.
fn matches_at(names: &[u8], d: NameNumber, event: &[u8]) -> bool
    requires { SlotIn names.now d.0 }
    ensures { result ≡ matches_at (name_at names.now) event.now d.0 }
{
    let slot = tables::slot_of(names, d);
    names::slot_matches(slot, event)
}

// Where the slot of descriptor k begins; that of the first where there are not so many.
fn place_of(chart: &[u64], descriptors: &[u64], k: usize) -> usize
    requires { NameInList chart.now descriptors.now 0 }
    ensures { PlaceOf chart.now descriptors.now k result }
{
    if k < descriptors.len() {
        return numbers::name_index(tables::name_at(chart, descriptors, k)) * limits::SLOT_SIZE;
    }
    numbers::name_index(tables::name_at(chart, descriptors, 0)) * limits::SLOT_SIZE
}

// Whether any of a transition's descriptors matches, by one pass over the event. Fewer than four lend the first once more, which changes nothing.
fn any_matches(chart: &[u64], names: &[u8], descriptors: &[u64], event: &[u8]) -> bool
    requires { SomeDescriptors chart.now names.now descriptors.now }
    ensures { result ≡ any (matches_at (name_at names.now) event.now) descriptors.now }
{
    let at = Places {
        first: place_of(chart, descriptors, 0),
        second: place_of(chart, descriptors, 1),
        third: place_of(chart, descriptors, 2),
        fourth: place_of(chart, descriptors, 3),
    };
    onepass::any_matches(names, at, event)
}

// An event of no bytes is none: then a transition without descriptors is wanted. However many descriptors there are, each byte of the event is read at most once.
pub fn is_triggered(chart: &[u64], names: &[u8], t: Transition, event: &[u8]) -> bool
    requires { TransitionWith chart.now names.now t.0 }
    ensures { result ≡ is_triggered (name_at names.now) (event_of event.now) (events_at chart.now t.0) }
{
    let descriptors = tables::descriptors_of(chart, t);
    if event.len() == 0 {
        return descriptors.len() == 0;
    }
    if descriptors.len() == 0 {
        return false;
    }
    if descriptors.len() == 1 {
        return matches_at(names, tables::name_at(chart, descriptors, 0), event);
    }
    any_matches(chart, names, descriptors, event)
}

pub fn is_true(conf: RowSet, condition: Option<Row>) -> bool
    ensures { result ≡ is_true (rows_of conf) (condition_of condition) }
{
    match condition {
        None => true,
        Some(r) => conf.has(r),
    }
}

pub fn is_match(chart: &[u64], names: &[u8], conf: RowSet, event: &[u8], t: Transition) -> bool
    requires { TransitionWith chart.now names.now t.0 }
    ensures { result ≡ is_match (chart_of chart.now) (name_at names.now) (rows_of conf) (event_of event.now) t.0 }
{
    if !is_triggered(chart, names, t, event) {
        return false;
    }
    is_true(conf, tables::condition_of(chart, t))
}

// ---- the transitions of each row

// The transitions of row i are those from starts[i] to before starts[i + 1].
#[derive(Drop)]
pub struct Index {
    pub starts: [u16; 257],
}

// Whether transition t is there and its source stands below row i.
fn starts_before(chart: &[u64], t: u16, i: usize) -> bool
    requires { Ready chart.now }
    ensures { result ≡ starts_before (chart_of chart.now) i t }
{
    if (t as u64) < tables::transition_count(chart) {
        return numbers::row_index(tables::source_of(chart, Transition(t))) < i;
    }
    false
}

// One pass over the transitions and the rows, since no source number is below the one before it.
// Kept: the pass counts two numbers, of which each turn moves one; a range has one.
pub fn index_of(chart: &[u64]) -> Index
    requires { Ready chart.now }
    ensures { Indexed (chart_of chart.now) result.starts }
{
    let rows = tables::row_count(chart) as usize;
    let mut starts = [0u16; 257];
    let mut t: u16 = 0;
    let mut i: usize = 0;
    while i <= rows {
        if starts_before(chart, t, i) {
            t += 1;
        } else {
            starts[i] = t;
            i += 1;
        }
    }
    Index { starts: starts }
}

// ---- the choice of an atomic state

// What a climb from an atomic state chooses, and the rows at which it and the climbs before it have been.
#[derive(Clone, Copy)]
pub struct Climbed {
    pub choice: Option<Transition>,
    pub rows: RowSet,
}

// The first match of row i's transitions and of its ancestors', nearest first. At a row where an earlier climb has been, the climb ends with
// nothing: from there on it would choose what that one has chosen.
fn climb(
    chart: &[u64],
    names: &[u8],
    starts: &[u16],
    conf: RowSet,
    event: &[u8],
    climbed: RowSet,
    i: Row,
) -> Climbed
    requires { ClimbReady chart.now names.now starts.now i.0 }
    ensures { Climbs (chart_of chart.now) (name_at names.now) (rows_of conf) (event_of event.now) (rows_of climbed) i.0 (choice_of result.choice) (rows_of result.rows) }
{
    let mut chosen = None;
    let mut rows = climbed;
    let mut a = i.0;
    'climb: loop {
        if rows.has(Row(a)) {
            break;
        }
        rows = rows.with(Row(a));
        let at = a as usize;
        let end = starts[at + 1];
        for t in starts[at]..end {
            if is_match(chart, names, conf, event, Transition(t)) {
                chosen = Some(Transition(t));
                break 'climb;
            }
        }
        let p = tables::parent_of(chart, Row(a));
        if a as u64 <= p {
            break;
        }
        a = p as u8;
    }
    Climbed {
        choice: chosen,
        rows: rows,
    }
}

// ---- the candidates

// What each active atomic state chooses, in document order, each transition once, into the first of the lent items: how many they are. Behind
// them, for each of these, the first row that chose it.
pub fn candidates(
    chart: &[u64],
    names: &[u8],
    starts: &[u16],
    atoms: RowSet,
    conf: RowSet,
    event: &[u8],
    items: &mut [u16],
) -> usize
    requires { Prepared chart.now names.now starts.now atoms × Within (row_count chart.now) (rows_of conf) × (length items.old ≡ 768) }
    ensures { AreChosenBy (chart_of chart.now) (name_at names.now) (rows_of conf) (event_of event.now) items.new result }
{
    let active = conf.intersection(atoms);
    let mut climbed = RowSet::empty();
    let mut len: usize = 0;
    for i in active.iter() {
        let found = climb(chart, names, starts, conf, event, climbed, i);
        let choice = found.choice;
        len = note_choice(items, len, choice, i);
        climbed = found.rows;
    }
    len
}
