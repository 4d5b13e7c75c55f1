// The tests and functions of one name: its bytes changed, and names of every length.
ghost use Rattle.std.specs.Prelude.{◌≡◌, ◌≤◌, length};

use crate::pairs::first;
use crate::printing::mark;
use lines::put;
use std::io;

pub const TESTS: usize = 6;

// The tests and the functions that make bytes.
pub const FUNCTIONS: usize = 11;

pub fn judge(test: usize, s: &[u8]) -> bool {
    match test {
        0 => names::is_name(s),
        1 => names::is_descriptor(s),
        2 => names::is_id(s),
        3 => names::zeros_after(s),
        4 => names::slot_fits(s),
        _ => names::is_blank(s),
    }
}

// Both in the middle of a place that is lent in part: bytes outside the part stay as they are.
pub fn with_name(name: &[u8]) -> [u8; 48]
    ensures { 48 ≡ length result }
{
    let mut place = [b'#'; 48];
    names::put_name(&mut place[8..40], name);
    place
}

pub fn with_done_name(name: &[u8]) -> [u8; 48]
    ensures { 48 ≡ length result }
{
    let mut place = [b'#'; 48];
    names::put_done_name(&mut place[4..44], name);
    place
}

// One number for the bytes, their order and how many they are.
fn digest(rt: &impl Print, bytes: &[u8]) -> io::Result<()> {
    let mut d: u64 = 0;
    for b in bytes {
        d = d % 999983 * 257 + u64::from(*b) + 1;
    }
    print!(rt; "{d} ")
}

fn digest_made(rt: &impl Print, function: usize, s: &[u8]) -> io::Result<()> {
    match function {
        6 => digest(rt, names::bare(s)),
        7 => digest(rt, &names::pad(s)),
        8 => digest(rt, &names::done_name(s)),
        9 => digest(rt, &with_name(s)),
        _ => digest(rt, &with_done_name(s)),
    }
}

fn answer(rt: &impl Print, function: usize, s: &[u8]) -> io::Result<()> {
    if function < TESTS {
        mark(rt, judge(function, s))
    } else {
        digest_made(rt, function, s)
    }
}

// The slot of the name with another byte at a place.
pub fn changed(name: &[u8], place: usize, b: u8) -> [u8; 64]
    ensures { 64 ≡ length result }
{
    let mut slot = names::pad(name);
    if 64 <= place {
        return slot;
    }
    slot[place] = b;
    slot
}

fn answer_changed(
    rt: &impl Print,
    function: usize,
    name: &[u8],
    place: usize,
    b: u8,
) -> io::Result<()> {
    let n = name.len();
    if 64 < n {
        return Ok(());
    }
    let slot = changed(name, place, b);
    answer(rt, function, &slot[..n])
}

fn each_value(rt: &impl Print, function: usize, name: &[u8], place: usize) -> io::Result<()> {
    for b in 0..=u8::MAX {
        answer_changed(rt, function, name, place, b)?;
    }
    put(rt, b'\n')
}

fn each_place_for(rt: &impl Print, function: usize, name: &[u8]) -> io::Result<()> {
    for place in 0..name.len() {
        each_value(rt, function, name, place)?;
    }
    Ok(())
}

pub fn each_place(rt: &impl Print, first: usize, last: usize, name: &[u8]) -> io::Result<()> {
    for function in first..last {
        each_place_for(rt, function, name)?;
    }
    Ok(())
}

// The byte at i of the first n bytes of the unit, over and over, then the tail, then zeros.
fn letter(unit: &[u8], n: usize, tail: &[u8], i: usize) -> u8 {
    if n <= i {
        return tail.get(i - n).copied().unwrap_or(0);
    }
    if unit.is_empty() {
        return 0;
    }
    unit[i % unit.len()]
}

pub fn made(unit: &[u8], n: usize, tail: &[u8]) -> [u8; 128]
    ensures { 128 ≡ length result }
{
    let mut bytes = [0u8; 128];
    for (i, byte) in bytes.iter_mut().enumerate() {
        *byte = letter(unit, n, tail, i);
    }
    bytes
}

fn mark_made(rt: &impl Print, test: usize, unit: &[u8], n: usize, tail: &[u8]) -> io::Result<()> {
    let bytes = made(unit, n, tail);
    mark(rt, judge(test, names::name_of(&bytes)))
}

fn each_length_for(rt: &impl Print, test: usize, unit: &[u8], tail: &[u8]) -> io::Result<()> {
    for n in 0..71 {
        mark_made(rt, test, unit, n, tail)?;
    }
    put(rt, b'\n')
}

pub fn each_length(rt: &impl Print, unit: &[u8], tail: &[u8]) -> io::Result<()> {
    for test in 0..TESTS {
        each_length_for(rt, test, unit, tail)?;
    }
    Ok(())
}
