// The ids of a text's rows, by place and length.
ghost use Rattle.std.specs.Prelude.{◌≡◌, not, ◌&&◌, ◌≤◌, ◌<◌};
ghost use Rattle.marks.specs.Marks.{value_from, value_to};
ghost use Rattle.marks.specs.Grouped.{shape_of};
ghost use Rattle.reading.specs.Faults.{is_closing, is_row_tag};
ghost use Rattle.gather.specs.Ended.{Stopped, ended_at};
ghost use Rattle.gather.specs.Ids.{with_value, id_after, is_row_mark, RowRoom, RowNoted, Begun, GatheredAs};

use marks::{Mark, Walk, begin, is_mark, next_mark};
use markup::{Fault, finish};
use values::conditions::Span;
use values::noted::{forget, note, place_of};

// The first value of an id counts.
fn with_value(id: Option<Span>, word: u8, from: usize, to: usize) -> Option<Span>
    ensures { result ≡ with_value id word from to }
{
    match id {
        None if word == 26 => Some(Span { from, to }),
        _ => id,
    }
}

// The id of the tag that goes on behind the mark, if it states one.
pub fn id_after(id: Option<Span>, m: Mark) -> Option<Span>
    ensures { result ≡ id_after id m }
{
    match m {
        Mark::Nothing => id,
        Mark::Valued(_, word, from, to) => with_value(id, word, from, to),
        Mark::Tagged(_, _, _) => None,
    }
}

// A start tag of a state, parallel, final or history.
// Kept: elements, shapes of tags and words of attributes are the numbers of the definition (Rattle.grammar.specs.Tables, Rattle.reading.specs.Faults).
pub fn is_row(shape: u8, element: u8) -> bool
    ensures { result ≡ (not (is_closing (shape_of shape)) && is_row_tag element) }
{
    (shape < 2) & ((1 <= element) & (element <= 4))
}

pub fn is_row_mark(m: Mark) -> bool
    ensures { result ≡ is_row_mark m }
{
    match m {
        Mark::Tagged(_, shape, element) => is_row(shape, element),
        _ => false,
    }
}

// The id between the two offsets behind the n that are noted, if the tag is a row's.
fn note_row(text: &[u8], ids: &mut [u16], n: usize, row: bool, at: usize, to: usize) -> usize
    requires { RowRoom text.now ids.old n at to }
    ensures { RowNoted text.now ids.old ids.new n row at to result }
{
    if row {
        let place = place_of(text, ids, n, &text[at..to]);
        return note(text, ids, n, at, to, place);
    }
    n
}

// A text that is not of the grammar: how many rows have their ids noted, and its first fault.
#[derive(Clone, Copy, PartialEq, Eq)]
pub struct Ungrammatical {
    pub count: usize,
    pub fault: Fault,
}

impl From<Ungrammatical> for Fault {
    ghost from_gives = { λ x fault. fault ≡ x.fault };

    fn from(text: Ungrammatical) -> Fault {
        text.fault
    }
}

// Is the text of the grammar, once a walk over its n bytes has found no mark.
fn ended(n: usize, w: Walk) -> Result<(), Fault>
    requires { Stopped w }
    ensures { result ≡ ended_at n w }
{
    match w.cursor {
        None => Err(Fault { at: w.index - 1 }),
        Some(c) => finish(n, c.place, c.top, w.index),
    }
}

// How many rows a text of the grammar has beside the root, with the place and the length of each row's id, 0 and 0 where it states none. The first walk
// over a text: what it gathers of one that is not of the grammar is said too.
pub fn gather_ids(text: &[u8], levels: &mut [u8], ids: &mut [u16]) -> Result<usize, Ungrammatical>
    requires { Begun text.now levels.old ids.old }
    ensures { GatheredAs text.now levels.new ids.new result }
{
    forget(ids);
    let mut w = begin();
    let mut id = None;
    let mut n: usize = 0;
    loop {
        let next = next_mark(text, levels, w);
        if !is_mark(next.mark) {
            return match ended(text.len(), next) {
                Ok(()) => Ok(n),
                Err(fault) => Err(Ungrammatical { count: n, fault }),
            };
        }
        let row = is_row_mark(next.mark);
        let span = id.unwrap_or(Span { from: 0, to: 0 });
        n = note_row(text, ids, n, row, span.from, span.to);
        id = id_after(id, next.mark);
        w = next;
    }
}
