// The bytes that lead from place to place inside one zone of a text, read by loops of their own (runs): white space, a comment, a word, a tag up to the
// next value, a value. The walks take a single step only where a tag or a value begins or ends.
ghost use Rattle.std.specs.Prelude.{◌≡◌, ◌≤◌};
ghost use Rattle.grammar.specs.declared.Place.TheVariants.{Content, Comment, Name, Tag, Space, Attribute, Value, End};
ghost use Rattle.reading.specs.declared.Zone.TheVariants.{Outside, InTag, InValue};
ghost use Rattle.reading.specs.Zones.{zone};
ghost use Rattle.markup.specs.Growth.{word_at};
ghost use Rattle.markup.specs.Runs.{Ends, begins_name, Leapt};

use crate::runs::{comment_end, spaces_end, value_end, word_end};
use grammar::Place;
use scan::{
    attribute_of, is_char, is_space, is_token, level_after, owner_of, pick_attribute, word_byte,
};

// Where the bytes before the index lead.
#[derive(Clone, Copy)]
pub struct Leap {
    pub place: Place,
    pub top: u8,
    pub index: usize,
}

// From the first byte of an attribute's name on, up to its "=".
fn attribute_leap(text: &[u8], end: usize, e: u8, x: u8, a: u8, t: u8, i: usize) -> Leap
    requires { Ends text.now end i × (1 ≤ i) }
    ensures { Leapt text.now end (InTag e) (Attribute e x a 1) t i result }
{
    let w = attribute_of(e, a);
    let r = word_end(text, end, w, 1, i);
    let n = r.read;
    let j = r.index;
    if j < end {
        let equals = text[j] == 61;
        let ended = word_byte(w, n) == 0;
        if equals & ended {
            return Leap {
                place: Place::Quote(e, x, a),
                top: t,
                index: j + 1,
            };
        }
    }
    Leap {
        place: Place::Attribute(e, x, a, n),
        top: t,
        index: j,
    }
}

// Does an attribute's name begin.
fn begins_name(b: u8) -> bool
    ensures { result ≡ begins_name b }
{
    is_token(b) & is_char(b)
}

// From white space in a start tag on.
fn space_leap(text: &[u8], end: usize, e: u8, x: u8, t: u8, i: usize) -> Leap
    requires { Ends text.now end i }
    ensures { Leapt text.now end (InTag e) (Space e x) t i result }
{
    let j = spaces_end(text, end, i);
    if j < end {
        let b = text[j];
        let named = begins_name(b);
        if named {
            let a = pick_attribute(e, x, 48, 0, b);
            if a != 4 {
                return attribute_leap(text, end, e, x, a, t, j + 1);
            }
        }
    }
    Leap {
        place: Place::Space(e, x),
        top: t,
        index: j,
    }
}

// From a start tag's name on.
fn name_leap(text: &[u8], end: usize, w: u8, k: u16, t: u8, i: usize) -> Leap
    requires { Ends text.now end i × (k ≤ i) }
    ensures { Leapt text.now end (InTag w) (Name w k) t i result }
{
    let r = word_end(text, end, w, k, i);
    let n = r.read;
    let j = r.index;
    if j < end {
        let space = is_space(text[j]);
        let ended = word_byte(w, n) == 0;
        if space & ended {
            let level = level_after(t, w);
            return space_leap(text, end, w, 0, level, j + 1);
        }
    }
    Leap {
        place: Place::Name(w, n),
        top: t,
        index: j,
    }
}

// From behind a value on.
fn tag_leap(text: &[u8], end: usize, e: u8, x: u8, t: u8, i: usize) -> Leap
    requires { Ends text.now end i }
    ensures { Leapt text.now end (InTag e) (Tag e x) t i result }
{
    if i < end {
        let space = is_space(text[i]);
        if space {
            return space_leap(text, end, e, x, t, i + 1);
        }
    }
    Leap {
        place: Place::Tag(e, x),
        top: t,
        index: i,
    }
}

fn content_leap(text: &[u8], end: usize, t: u8, i: usize) -> Leap
    requires { Ends text.now end i }
    ensures { Leapt text.now end Outside Content t i result }
{
    let j = spaces_end(text, end, i);
    Leap {
        place: Place::Content,
        top: t,
        index: j,
    }
}

fn comment_leap(text: &[u8], end: usize, t: u8, i: usize) -> Leap
    requires { Ends text.now end i }
    ensures { Leapt text.now end Outside Comment t i result }
{
    let j = comment_end(text, end, i);
    Leap {
        place: Place::Comment,
        top: t,
        index: j,
    }
}

// In an end tag's name.
fn end_leap(text: &[u8], end: usize, k: u16, t: u8, i: usize) -> Leap
    requires { Ends text.now end i × (k ≤ i) }
    ensures { Leapt text.now end Outside (End k) t i result }
{
    let w = owner_of(t);
    let r = word_end(text, end, w, k, i);
    let n = r.read;
    let j = r.index;
    Leap {
        place: Place::End(n),
        top: t,
        index: j,
    }
}

fn value_leap(text: &[u8], end: usize, e: u8, x: u8, a: u8, q: u8, v: u8, t: u8, i: usize) -> Leap
    requires { Ends text.now end i }
    ensures { Leapt text.now end (InValue e a) (Value e x a q v) t i result }
{
    let r = value_end(text, end, e, a, q, v, i);
    let u = r.state;
    let j = r.index;
    Leap {
        place: Place::Value(e, x, a, q, u),
        top: t,
        index: j,
    }
}

// As far as the zone of the place goes, or a part of that.
pub fn leap_from(text: &[u8], end: usize, place: Place, top: u8, i: usize) -> Leap
    requires { Ends text.now end i × (word_at place ≤ i) }
    ensures { Leapt text.now end (zone place) place top i result }
{
    match place {
        Place::Content => content_leap(text, end, top, i),
        Place::Comment => comment_leap(text, end, top, i),
        Place::Name(w, k) => name_leap(text, end, w, k, top, i),
        Place::Tag(e, x) => tag_leap(text, end, e, x, top, i),
        Place::Space(e, x) => space_leap(text, end, e, x, top, i),
        Place::Value(e, x, j, q, v) => value_leap(text, end, e, x, j, q, v, top, i),
        Place::End(k) => end_leap(text, end, k, top, i),
        _ => Leap {
            place,
            top,
            index: i,
        },
    }
}
