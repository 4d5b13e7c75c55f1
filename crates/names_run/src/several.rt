// Several descriptors in one pass.
ghost use Rattle.std.specs.Prelude.{◌≡◌, length};

use crate::pairs::{first, word, words};
use crate::printing::mark;
use crate::reading::{after, find};
use lines::put;
use onepass::Places;
use std::io;

fn byte_of(name: &[u8], i: usize) -> u8 {
    name.get(i).copied().unwrap_or(0)
}

// The byte at i of four names, each in a slot of 64 bytes.
fn slot_byte(a: &[u8], b: &[u8], c: &[u8], d: &[u8], i: usize) -> u8 {
    match i / 64 {
        0 => byte_of(a, i % 64),
        1 => byte_of(b, i % 64),
        2 => byte_of(c, i % 64),
        _ => byte_of(d, i % 64),
    }
}

fn slots(a: &[u8], b: &[u8], c: &[u8], d: &[u8]) -> [u8; 256]
    ensures { 256 ≡ length result }
{
    let mut bytes = [0u8; 256];
    for (i, byte) in bytes.iter_mut().enumerate() {
        *byte = slot_byte(a, b, c, d, i);
    }
    bytes
}

fn places() -> Places
    ensures { (result.first ≡ 0) × (result.second ≡ 64) × (result.third ≡ 128) × (result.fourth ≡ 192) }
{
    Places {
        first: 0,
        second: 64,
        third: 128,
        fourth: 192,
    }
}

fn show_four(
    rt: &impl Print,
    a: &[u8],
    b: &[u8],
    c: &[u8],
    d: &[u8],
    event: &[u8],
) -> io::Result<()> {
    let table = slots(a, b, c, d);
    let r = onepass::match_four(&table, places(), event);
    mark(rt, r.first)?;
    mark(rt, r.second)?;
    mark(rt, r.third)?;
    mark(rt, r.fourth)?;
    mark(rt, onepass::any_matches(&table, places(), event))?;
    put(rt, b'\n')
}

pub fn four(rt: &impl Print, words: &[u8]) -> io::Result<()> {
    let i = find(words, b' ');
    let behind_one = after(words, i);
    let j = find(behind_one, b' ');
    let behind_two = after(behind_one, j);
    let k = find(behind_two, b' ');
    let behind_three = after(behind_two, k);
    let m = find(behind_three, b' ');
    show_four(
        rt,
        &words[..i],
        &behind_one[..j],
        &behind_two[..k],
        &behind_three[..m],
        after(behind_three, m),
    )
}

// Two marks as one digit.
fn digit(one: bool, two: bool) -> u8 {
    match (one, two) {
        (false, false) => b'0',
        (true, false) => b'1',
        (false, true) => b'2',
        (true, true) => b'3',
    }
}

// The two descriptors are lent twice, the second time the other way round, and have to be answered alike.
fn mark_two(rt: &impl Print, one: &[u8], two: &[u8], event: &[u8]) -> io::Result<()> {
    let table = slots(one, two, two, one);
    let r = onepass::match_four(&table, places(), event);
    let first = r.first;
    let second = r.second;
    if (first == r.fourth) & (second == r.third) {
        put(rt, digit(first, second))
    } else {
        put(rt, b'!')
    }
}

// How many words of up to three letters there are.
fn short_words(letters: &[u8]) -> usize {
    match letters.len() {
        0 => 1,
        1 => 4,
        2 => 15,
        3 => 40,
        _ => 85,
    }
}

fn mark_two_on(
    rt: &impl Print,
    one: &[u8],
    two: &[u8],
    more: &[u8],
    number: usize,
) -> io::Result<()> {
    let event = word(more, number);
    mark_two(rt, one, two, names::name_of(&event))
}

fn each_event_of_two(rt: &impl Print, one: &[u8], two: &[u8], more: &[u8]) -> io::Result<()> {
    for k in 0..short_words(more) {
        mark_two_on(rt, one, two, more, k)?;
    }
    put(rt, b'\n')
}

fn beside(
    rt: &impl Print,
    one: &[u8],
    letters: &[u8],
    number: usize,
    more: &[u8],
) -> io::Result<()> {
    let two = word(letters, number);
    each_event_of_two(rt, one, names::name_of(&two), more)
}

fn each_beside(rt: &impl Print, one: &[u8], letters: &[u8], more: &[u8]) -> io::Result<()> {
    for k in 0..short_words(letters) {
        beside(rt, one, letters, k, more)?;
    }
    Ok(())
}

fn each_beside_word(rt: &impl Print, letters: &[u8], number: usize, more: &[u8]) -> io::Result<()> {
    let one = word(letters, number);
    each_beside(rt, names::name_of(&one), letters, more)
}

pub fn each_two(rt: &impl Print, letters: &[u8], more: &[u8]) -> io::Result<()> {
    for k in 0..short_words(letters) {
        each_beside_word(rt, letters, k, more)?;
    }
    Ok(())
}
