// What is printed of answers and sessions.
ghost use Rattle.std.specs.Prelude.{◌<◌};

use crate::cells;
use definition::Answer;
use lines::{put, show_number};
use session::Session;
use std::io;

const SLOT: usize = 64;

const ROWS: usize = 256;

const SET_WIDTH: usize = 4;

const MOST_NAMES: usize = 32;

pub fn number_of(a: Answer) -> u64 {
    answers::answer_number(a) as u64
}

pub fn answer(rt: &impl Print, a: Answer) -> io::Result<()> {
    show_number(rt, number_of(a))
}

pub fn blank_number(rt: &impl Print, n: u64) -> io::Result<()> {
    print!(rt; " {n}")
}

pub fn wide(n: usize) -> u64 {
    n as u64
}

// ---- sets of rows

fn holds(words: &[u64], set: usize, row: usize) -> bool {
    let at = std::num::wrapping_add_usize(set, row / 64);
    (cells::word(words, at) >> (row % 64) as u64) % 2 == 1
}

// The rows of the set that begins at a word.
fn rows(rt: &impl Print, words: &[u64], set: usize) -> io::Result<()> {
    for row in 0..ROWS {
        if holds(words, set, row) {
            blank_number(rt, wide(row))?;
        }
    }
    Ok(())
}

fn is_empty(words: &[u64], set: usize) -> bool {
    let a = cells::word(words, set);
    let b = cells::word(words, std::num::wrapping_add_usize(set, 1));
    let c = cells::word(words, std::num::wrapping_add_usize(set, 2));
    let d = cells::word(words, std::num::wrapping_add_usize(set, 3));
    a | b | c | d == 0
}

fn stored_of(rt: &impl Print, words: &[u64], row: usize) -> io::Result<()>
    requires { row < 256 }
{
    let set = row * SET_WIDTH;
    if is_empty(words, set) {
        return Ok(());
    }
    lines::show(rt, b", stored")?;
    blank_number(rt, wide(row))?;
    put(rt, b':')?;
    rows(rt, words, set)
}

fn stored(rt: &impl Print, words: &[u64]) -> io::Result<()> {
    for row in 0..ROWS {
        stored_of(rt, words, row)?;
    }
    Ok(())
}

// ---- queues

pub fn slot(rt: &impl Print, queue: &[u8], at: usize) -> io::Result<()>
    requires { at < 32 }
{
    let begin = at * SLOT;
    let end = begin + SLOT;
    if queue.len() < end {
        return Ok(());
    }
    put(rt, b' ')?;
    lines::show(rt, names::name_of(&queue[begin..end]))
}

fn names_of(rt: &impl Print, queue: &[u8], count: u64) -> io::Result<()> {
    for at in 0..MOST_NAMES {
        if wide(at) < count {
            slot(rt, queue, at)?;
        }
    }
    Ok(())
}

// ---- sessions

fn parts(rt: &impl Print, s: Session) -> io::Result<()> {
    lines::show(rt, b", mode")?;
    blank_number(rt, s.mode)?;
    lines::show(rt, b", rows")?;
    rows(rt, &s.configuration, 0)?;
    stored(rt, &s.history)?;
    lines::show(rt, b", internal")?;
    names_of(rt, &s.internal, s.internal_count)?;
    lines::show(rt, b", external")?;
    names_of(rt, &s.external, s.external_count)
}

// Whole, unless the answer is 8 or 9: then it may be anything, and its sum alone is printed.
pub fn session(rt: &impl Print, s: Session, answer: u64) -> io::Result<()> {
    if answer != 8 && answer != 9 {
        parts(rt, s)?;
    }
    put(rt, b',')?;
    lines::show_sum(rt, cells::sum(lines::FIRST_SUM, s))?;
    put(rt, b'\n')
}

fn some_cells(rt: &impl Print, s: Session, first: usize, count: usize) -> io::Result<()> {
    for i in 0..count {
        blank_number(rt, cells::cell(s, std::num::wrapping_add_usize(first, i)))?;
    }
    put(rt, b'\n')
}

pub fn cells_line(rt: &impl Print, rest: &[u8], s: Session) -> io::Result<()> {
    let part = lines::read_two(rest);
    some_cells(rt, s, lines::size(part.first), lines::size(part.next))
}
