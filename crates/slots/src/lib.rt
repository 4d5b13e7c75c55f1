// The name slots of a text (R-1, 1.19): "equal names share a slot, by first use in the text as id, descriptor or action's name". Each is noted by its
// place in the text and its length.
#![tactic(auto)]

ghost use Rattle.std.specs.Prelude.{◌≡◌};
ghost use Rattle.marks.specs.Marks.{value_from, value_to};
ghost use Rattle.slots.specs.Slots.{AddRoom, Added, AddedAll, is_use, ValueIn};
ghost use Rattle.slots.specs.Walk.{ends_tag, AddedBy, Begun, Gathered};

use marks::{Mark, begin, either, is_mark, next_mark};
use scan::is_space;
use values::item_end;
use values::noted::{forget, note, place_of};

// The text has more than 768 slots.
#[derive(Clone, Copy, PartialEq, Eq)]
pub struct TooMany;

// The most slots; one more stands for too many.
const MOST: usize = 768;

// The name between from and to, behind the n that are there if it is none of them. How many there are then.
fn add_name(text: &[u8], slots: &mut [u16], n: usize, from: usize, to: usize) -> usize
    requires { AddRoom text.now slots.old n from to }
    ensures { Added text.now slots.old slots.new n from to result }
{
    if MOST < n {
        return n;
    }
    let place = place_of(text, slots, n, &text[from..to]);
    if place < n {
        return n;
    }
    if n == MOST {
        return n + 1;
    }
    note(text, slots, n, from, to, place)
}

// The names of a value.
fn add_names(text: &[u8], slots: &mut [u16], n: usize, from: usize, to: usize) -> usize
    requires { AddRoom text.now slots.old n from to }
    ensures { AddedAll text.now slots.old slots.new n from to result }
{
    let mut r = n;
    let mut i = 0;
    let long = to - from;
    // Kept: the index goes on by a whole name at a time, which no `for` over a range does.
    while i < long {
        if is_space(text[from + i]) {
            i += 1;
            continue;
        }
        let j = item_end(&text[from..to], i);
        r = add_name(text, slots, r, from + i, from + j);
        i = j;
    }
    r
}

// An id, a raise's or send's event, a descriptor, a cancel's sendid.
// Kept: words of attributes are the numbers of the definition (Rattle.grammar.specs.Tables).
fn is_use(word: u8) -> bool
    ensures { result ≡ is_use word }
{
    (word == 26) | (word == 29) | (word == 34)
}

fn add_value(text: &[u8], slots: &mut [u16], n: usize, word: u8, from: usize, to: usize) -> usize
    requires { AddRoom text.now slots.old n from to }
    ensures { ValueIn text.now slots.old slots.new n word from to result }
{
    if is_use(word) {
        return add_names(text, slots, n, from, to);
    }
    n
}

// Does the mark end a tag.
fn ends_tag(m: Mark) -> bool
    ensures { result ≡ ends_tag m }
{
    matches!(m, Mark::Tagged(_, _, _))
}

// The names of the value that the mark ends, if it ends one.
fn add_mark(text: &[u8], slots: &mut [u16], n: usize, m: Mark) -> usize
    requires { AddRoom text.now slots.old n (value_from m) (value_to m) }
    ensures { AddedBy text.now slots.old slots.new n m result }
{
    match m {
        Mark::Valued(_, word, from, to) => add_value(text, slots, n, word, from, to),
        _ => n,
    }
}

// How many slots a text has: those of the tags that have ended, so that a tag without an end counts for nothing.
pub fn gather_slots(text: &[u8], levels: &mut [u8], slots: &mut [u16]) -> Result<usize, TooMany>
    requires { Begun text.now levels.old slots.old }
    ensures { Gathered text.now levels.new slots.new result }
{
    forget(slots);
    let mut w = begin();
    let mut n: usize = 0;
    let mut whole: usize = 0;
    loop {
        let next = next_mark(text, levels, w);
        let m = next.mark;
        if !is_mark(m) {
            return Ok(whole);
        }
        let ends = ends_tag(m);
        if ends & (MOST < n) {
            return Err(TooMany);
        }
        whole = either(ends, n, whole);
        n = add_mark(text, slots, n, m);
        w = next;
    }
}
