// A descriptor on an event, and two names compared.
ghost use Rattle.std.specs.Prelude.{◌≡◌, length};

use crate::printing::mark;
use crate::single::{changed, made};
use crate::slotted::show;
use lines::put;
use std::io;

// Words by number: 0 is the empty one; the first letter of any other, and the number of what is behind it.
pub fn first(letters: &[u8], number: usize) -> u8 {
    if number == 0 || letters.is_empty() {
        return 0;
    }
    letters[(number - 1) % letters.len()]
}

fn behind(letters: &[u8], number: usize) -> usize {
    if number == 0 || letters.is_empty() {
        return 0;
    }
    (number - 1) / letters.len()
}

pub fn word(letters: &[u8], number: usize) -> [u8; 4]
    ensures { 4 ≡ length result }
{
    let second = behind(letters, number);
    let third = behind(letters, second);
    let fourth = behind(letters, third);
    [
        first(letters, number),
        first(letters, second),
        first(letters, third),
        first(letters, fourth),
    ]
}

// How many words of up to four letters there are.
pub fn words(letters: &[u8]) -> usize {
    match letters.len() {
        0 => 1,
        1 => 5,
        2 => 31,
        3 => 121,
        _ => 341,
    }
}

fn mark_pair(rt: &impl Print, compare: bool, descriptor: &[u8], event: &[u8]) -> io::Result<()> {
    if compare {
        mark(rt, names::equal(descriptor, event))
    } else {
        mark_match(rt, descriptor, event)
    }
}

// Whether the event matches; and the match of a slot has to say the same as that of the name which the slot holds.
fn mark_match(rt: &impl Print, descriptor: &[u8], event: &[u8]) -> io::Result<()> {
    let held = names::matches(names::name_of(descriptor), event);
    if held == names::slot_matches(descriptor, event) {
        mark(rt, names::matches(descriptor, event))
    } else {
        put(rt, b'!')
    }
}

fn mark_word(
    rt: &impl Print,
    compare: bool,
    descriptor: &[u8],
    letters: &[u8],
    number: usize,
) -> io::Result<()> {
    let event = word(letters, number);
    mark_pair(rt, compare, descriptor, names::name_of(&event))
}

fn each_event(rt: &impl Print, compare: bool, descriptor: &[u8], letters: &[u8]) -> io::Result<()> {
    for k in 0..words(letters) {
        mark_word(rt, compare, descriptor, letters, k)?;
    }
    put(rt, b'\n')
}

fn each_event_of(
    rt: &impl Print,
    compare: bool,
    letters: &[u8],
    number: usize,
    more: &[u8],
) -> io::Result<()> {
    let descriptor = word(letters, number);
    each_event(rt, compare, names::name_of(&descriptor), more)
}

pub fn each_word(rt: &impl Print, compare: bool, letters: &[u8], more: &[u8]) -> io::Result<()> {
    for k in 0..words(letters) {
        each_event_of(rt, compare, letters, k, more)?;
    }
    Ok(())
}

// The first of the two with another byte at a place. Turned, the first is the event.
fn mark_changed_pair(
    rt: &impl Print,
    compare: bool,
    turned: bool,
    one: &[u8],
    two: &[u8],
    place: usize,
    b: u8,
) -> io::Result<()> {
    let n = one.len();
    if 64 < n {
        return Ok(());
    }
    let slot = changed(one, place, b);
    if turned {
        mark_pair(rt, compare, two, &slot[..n])
    } else {
        mark_pair(rt, compare, &slot[..n], two)
    }
}

fn each_value_of_pair(
    rt: &impl Print,
    compare: bool,
    turned: bool,
    one: &[u8],
    two: &[u8],
    place: usize,
) -> io::Result<()> {
    for b in 0..=u8::MAX {
        mark_changed_pair(rt, compare, turned, one, two, place, b)?;
    }
    put(rt, b'\n')
}

fn each_place_of_pair(rt: &impl Print, turned: bool, one: &[u8], two: &[u8]) -> io::Result<()> {
    for place in 0..one.len() {
        each_value_of_pair(rt, false, turned, one, two, place)?;
        each_value_of_pair(rt, true, turned, one, two, place)?;
    }
    Ok(())
}

pub fn each_changed_pair(rt: &impl Print, descriptor: &[u8], event: &[u8]) -> io::Result<()> {
    each_place_of_pair(rt, false, descriptor, event)?;
    each_place_of_pair(rt, true, event, descriptor)
}

fn mark_lengths(
    rt: &impl Print,
    compare: bool,
    unit: &[u8],
    n: usize,
    tail: &[u8],
    m: usize,
) -> io::Result<()> {
    let descriptor = made(unit, n, tail);
    let event = made(unit, m, b"");
    mark_pair(
        rt,
        compare,
        names::name_of(&descriptor),
        names::name_of(&event),
    )
}

fn each_event_length(
    rt: &impl Print,
    compare: bool,
    unit: &[u8],
    n: usize,
    tail: &[u8],
) -> io::Result<()> {
    for m in 0..71 {
        mark_lengths(rt, compare, unit, n, tail, m)?;
    }
    put(rt, b'\n')
}

fn each_descriptor_length(
    rt: &impl Print,
    compare: bool,
    unit: &[u8],
    tail: &[u8],
) -> io::Result<()> {
    for n in 0..71 {
        each_event_length(rt, compare, unit, n, tail)?;
    }
    Ok(())
}

pub fn each_length_of_pair(rt: &impl Print, unit: &[u8], tail: &[u8]) -> io::Result<()> {
    each_descriptor_length(rt, false, unit, tail)?;
    each_descriptor_length(rt, true, unit, tail)
}

pub fn pair(rt: &impl Print, descriptor: &[u8], event: &[u8]) -> io::Result<()> {
    mark_pair(rt, false, descriptor, event)?;
    mark_pair(rt, true, descriptor, event)?;
    put(rt, b' ')?;
    show(rt, names::bare(descriptor))
}
