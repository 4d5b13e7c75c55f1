// The marks of a text: where a value of an attribute stands, and where a tag ends. One call answers the next mark, and no list of tags is stored: a
// pass that needs them again walks the text again. Joined in specs/ has the theorem that the marks are the tags of the definition.
#![tactic(auto)]

ghost use Rattle.std.specs.Prelude.{◌≡◌, cond, ◌<◌, length};
ghost use Rattle.markup.specs.Growth.{word_at};
ghost use Rattle.marks.specs.Marks.{slash_mark, end_mark, value_mark, mark_of, is_mark};
ghost use Rattle.marks.specs.Strides.{Ready, Strode, strode_to, stopped_at};
ghost use Rattle.marks.specs.Walks.{beginning, fallen_at, Noted, Standing, Next};

use crate::zones::{element_in, is_begun, is_calm, is_value, landing_of, zone_of};
use grammar::{Place, Step};
use markup::leaps::leap_from;
use markup::{Cursor, advance, moved_to};
use reading::Zone;
use scan::{attribute_of, is_char, owner_of};

pub mod zones;

// Nothing; a value: its element, the word of its attribute, the offsets of its first byte and of its quote; a tag's end: the offset of its "<",
// 0 for <x>, 1 for <x/>, 2 for </x>, and its element.
// Kept: a match takes its three cases in one step, where an Option of a mark would nest them.
#[derive(Clone, Copy)]
pub enum Mark {
    Nothing,
    Valued(u8, u8, usize, usize),
    Tagged(usize, u8, u8),
}

// Where the walk stands, beside the stack of levels: its place, if a text of the grammar goes on so, the last "<", the element, where a value begins, the
// next byte, and the mark that the last byte gave.
#[derive(Clone, Copy)]
pub struct Walk {
    pub cursor: Option<Cursor>,
    pub at: usize,
    pub element: u8,
    pub from: usize,
    pub index: usize,
    pub mark: Mark,
}

// Before the first byte of a text.
pub fn begin() -> Walk
    ensures { result ≡ beginning }
{
    Walk {
        cursor: Some(Cursor {
            place: Place::Content,
            top: 0,
            depth: 0,
        }),
        at: 0,
        element: 48,
        from: 0,
        index: 0,
        mark: Mark::Nothing,
    }
}

// The mark of a step that ends no value: the tag that it ends, if it ends one.
fn end_mark(s: Step, z: Zone, t: u8, at: usize, e: u8) -> Mark
    ensures { result ≡ end_mark s z t at e }
{
    match s {
        Step::Fault => Mark::Nothing,
        Step::Go(_, _) => slash_mark(z, at, e),
        Step::Open(_, _) => Mark::Tagged(at, 0, e),
        Step::Shut => Mark::Tagged(at, 2, owner_of(t)),
    }
}

// The mark of a step that leads on: only an empty-element tag ends so.
fn slash_mark(z: Zone, at: usize, e: u8) -> Mark
    ensures { result ≡ slash_mark z at e }
{
    match z {
        Zone::Slash => Mark::Tagged(at, 1, e),
        _ => Mark::Nothing,
    }
}

// The mark of the byte i that led from the zone z by the step s.
fn mark_of(s: Step, z: Zone, t: u8, at: usize, e: u8, from: usize, i: usize) -> Mark
    ensures { result ≡ mark_of s z t at e from i }
{
    match z {
        Zone::InValue(d, j) => value_mark(landing_of(s), d, j, from, i),
        _ => end_mark(s, z, t, at, e),
    }
}

// The mark of a byte inside a value: the value, if the byte is the quote that ends it.
fn value_mark(y: Zone, d: u8, j: u8, from: usize, i: usize) -> Mark
    ensures { result ≡ value_mark y d j from i }
{
    if is_value(y) {
        return Mark::Nothing;
    }
    Mark::Valued(d, attribute_of(d, j), from, i)
}

// One of two numbers.
pub fn either(first: bool, a: usize, b: usize) -> usize
    ensures { result ≡ cond first a b }
{
    if first {
        return a;
    }
    b
}

// The walk behind a byte that no text has.
fn fallen(at: usize, element: u8, from: usize, index: usize) -> Walk
    ensures { result ≡ fallen_at at element from index }
{
    Walk {
        cursor: None,
        at,
        element,
        from,
        index,
        mark: Mark::Nothing,
    }
}

// One byte: the step, its mark, and where the walk then stands.
fn note_byte(
    stack: &mut [u8],
    place: Place,
    top: u8,
    depth: usize,
    at: usize,
    element: u8,
    from: usize,
    i: usize,
    b: u8,
) -> Walk
    requires { (depth < length stack.old) × (word_at place < 65535) × (i < 32768) }
    ensures { Noted stack.old stack.new place top depth at element from i b result }
{
    let next = i + 1;
    if !is_char(b) {
        return fallen(at, element, from, next);
    }
    let s = advance(place, top, b);
    let z = zone_of(place);
    let y = landing_of(s);
    let e = element_in(z, element);
    let begun = is_begun(y);
    let start = either(begun, i, at);
    let mark = mark_of(s, z, top, start, e, from, i);
    let inside = is_value(z);
    let first = either(inside, from, next);
    let cursor = moved_to(stack, depth, s);
    Walk {
        cursor,
        at: start,
        element: e,
        from: first,
        index: next,
        mark,
    }
}

pub fn is_mark(m: Mark) -> bool
    ensures { result ≡ is_mark m }
{
    !matches!(m, Mark::Nothing)
}

// Where a walk comes to by the bytes that lead on inside a zone.
#[derive(Clone, Copy)]
struct Strided {
    cursor: Cursor,
    element: u8,
    from: usize,
    index: usize,
}

// From the cursor at i, in an element and with a value that begins at `from`.
fn stride(text: &[u8], cursor: Cursor, element: u8, from: usize, i: usize) -> Strided
    requires { Ready text.now cursor i }
    ensures { Strode text.now cursor element from i result }
{
    let z = zone_of(cursor.place);
    let still = Strided {
        cursor,
        element,
        from,
        index: i,
    };
    if !is_calm(z) {
        return still;
    }
    let l = leap_from(text, text.len(), cursor.place, cursor.top, i);
    if l.index <= i {
        return still;
    }
    let e = element_in(z, element);
    let first = either(is_value(z), from, l.index);
    let behind = Cursor {
        place: l.place,
        top: l.top,
        depth: cursor.depth,
    };
    Strided {
        cursor: behind,
        element: e,
        from: first,
        index: l.index,
    }
}

// The walk that has found no mark behind a stride.
fn strode(w: Walk, s: Strided) -> Walk
    ensures { result ≡ strode_to w s }
{
    Walk {
        cursor: Some(s.cursor),
        at: w.at,
        element: s.element,
        from: s.from,
        index: s.index,
        mark: Mark::Nothing,
    }
}

// The walk that stands at i and has found no mark.
fn stopped(w: Walk, i: usize) -> Walk
    ensures { result ≡ stopped_at w i }
{
    Walk {
        cursor: w.cursor,
        at: w.at,
        element: w.element,
        from: w.from,
        index: i,
        mark: Mark::Nothing,
    }
}

// The next mark of the text, Nothing where there is none.
pub fn next_mark(text: &[u8], stack: &mut [u8], walk: Walk) -> Walk
    requires { Standing text.now stack.old walk }
    ensures { Next text.now stack.old stack.new walk result }
{
    let mut w = walk;
    let mut i = walk.index;
    // Kept: the index goes on by a stride and a byte at a time, which no `for` over a range does.
    while i < text.len() {
        let Some(cursor) = w.cursor else {
            return stopped(w, i);
        };
        let s = stride(text, cursor, w.element, w.from, i);
        let j = s.index;
        if text.len() <= j {
            return strode(w, s);
        }
        let c = s.cursor;
        let next = note_byte(
            stack, c.place, c.top, c.depth, w.at, s.element, s.from, j, text[j],
        );
        if is_mark(next.mark) {
            return next;
        }
        w = next;
        i = j + 1;
    }
    stopped(w, i)
}
