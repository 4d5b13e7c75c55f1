// The clock record: what lines set in it, and what is printed of it. Its numbers are eight bytes each, the lowest first: the clock, the count of sends, 32 due times; behind them stand
// the slots of the events and of the send ids.
ghost use Rattle.std.specs.Prelude.{◌≡◌, ◌<◌, length};

use crate::{cells, show};
use lines::put;
use session::Clock;
use std::io;

const NUMBERS: usize = 34;

const WIDTH: usize = 8;

const COUNT: usize = 1;

const DUE: usize = 2;

const EVENTS: usize = 272;

const IDS: usize = 2320;

const MOST_PENDING: usize = 32;

pub fn zeros() -> Clock {
    let bytes = [0u8; 4368];
    Clock { bytes: bytes }
}

// ---- setting

fn put_byte(bytes: &mut [u8], at: usize, k: usize, v: u64) {
    lines::put_byte(bytes, std::num::wrapping_add_usize(at, k), (v % 256) as u8);
}

fn put_number(bytes: &mut [u8; 4368], at: usize, v: u64) {
    put_byte(bytes, at, 0, v);
    put_byte(bytes, at, 1, v >> 8);
    put_byte(bytes, at, 2, v >> 16);
    put_byte(bytes, at, 3, v >> 24);
    put_byte(bytes, at, 4, v >> 32);
    put_byte(bytes, at, 5, v >> 40);
    put_byte(bytes, at, 6, v >> 48);
    put_byte(bytes, at, 7, v >> 56);
}

pub fn with_number(mut k: Clock, place: usize, v: u64) -> Clock {
    if place < NUMBERS {
        put_number(&mut k.bytes, place * WIDTH, v);
    }
    k
}

fn read_events(bytes: &mut [u8], text: &[u8]) {
    if bytes.len() < IDS {
        return;
    }
    lines::read_slots(text, &mut bytes[EVENTS..IDS]);
}

fn read_ids(bytes: &mut [u8], text: &[u8]) {
    if bytes.len() < IDS {
        return;
    }
    lines::read_slots(text, &mut bytes[IDS..]);
}

fn put_events(bytes: &mut [u8; 4368], text: &[u8]) {
    read_events(bytes, text);
}

fn put_ids(bytes: &mut [u8; 4368], text: &[u8]) {
    read_ids(bytes, text);
}

pub fn with_events(mut k: Clock, text: &[u8]) -> Clock {
    put_events(&mut k.bytes, text);
    k
}

pub fn with_ids(mut k: Clock, text: &[u8]) -> Clock {
    put_ids(&mut k.bytes, text);
    k
}

// ---- printing

fn byte(bytes: &[u8], at: usize, k: usize) -> u64 {
    cells::byte(bytes, std::num::wrapping_add_usize(at, k))
}

fn number(bytes: &[u8], place: usize) -> u64
    requires { place < 34 }
{
    let at = place * WIDTH;
    let low = byte(bytes, at, 0)
        | byte(bytes, at, 1) << 8
        | byte(bytes, at, 2) << 16
        | byte(bytes, at, 3) << 24;
    let high = byte(bytes, at, 4)
        | byte(bytes, at, 5) << 8
        | byte(bytes, at, 6) << 16
        | byte(bytes, at, 7) << 24;
    low | high << 32
}

fn send(rt: &impl Print, bytes: &[u8], i: usize) -> io::Result<()>
    requires { (i < 32) × (length bytes.now ≡ 4368) }
{
    lines::show(rt, b", due")?;
    show::blank_number(rt, number(bytes, DUE + i))?;
    show::slot(rt, &bytes[EVENTS..IDS], i)?;
    show::slot(rt, &bytes[IDS..], i)
}

fn sends(rt: &impl Print, bytes: &[u8], count: u64) -> io::Result<()>
    requires { length bytes.now ≡ 4368 }
{
    for i in 0..MOST_PENDING {
        if show::wide(i) < count {
            send(rt, bytes, i)?;
        }
    }
    Ok(())
}

fn parts(rt: &impl Print, bytes: &[u8]) -> io::Result<()>
    requires { length bytes.now ≡ 4368 }
{
    lines::show(rt, b", clock")?;
    show::blank_number(rt, number(bytes, 0))?;
    sends(rt, bytes, number(bytes, COUNT))
}

// Whole, unless the answer is 8 or 9: then it may be anything, and its sum alone is printed.
pub fn show_clock(rt: &impl Print, k: Clock, answer: u64) -> io::Result<()> {
    if answer != 8 && answer != 9 {
        parts(rt, &k.bytes)?;
    }
    put(rt, b',')?;
    lines::show_sum(rt, lines::sum_bytes(lines::FIRST_SUM, &k.bytes))
}
