// The names of a line, each in a slot of 64 bytes.
ghost use Rattle.std.specs.Prelude.{◌≤◌, length};

use crate::line_numbers::digit;

pub fn put_byte(out: &mut [u8], at: usize, b: u8) {
    if at < out.len() {
        out[at] = b;
    }
}

// Where the slot begins, where its next byte goes, how many digits of that are to come, and the first of them.
#[derive(Clone, Copy)]
struct Slot {
    begin: usize,
    at: usize,
    digits: u8,
    high: u64,
}

fn stored(out: &mut [u8], s: Slot, b: u8) -> Slot {
    put_byte(out, s.at, b);
    Slot {
        begin: s.begin,
        at: std::num::wrapping_add_usize(s.at, 1),
        digits: 0,
        high: 0,
    }
}

fn next_slot(s: Slot) -> Slot {
    let begin = std::num::wrapping_add_usize(s.begin, 64);
    Slot {
        begin,
        at: begin,
        digits: 0,
        high: 0,
    }
}

fn read_byte(out: &mut [u8], s: Slot, b: u8) -> Slot {
    if s.digits == 2 {
        return Slot {
            begin: s.begin,
            at: s.at,
            digits: 1,
            high: digit(b),
        };
    }
    if s.digits == 1 {
        return stored(out, s, ((s.high << 4 | digit(b)) % 256) as u8);
    }
    if b == b'%' {
        return Slot {
            begin: s.begin,
            at: s.at,
            digits: 2,
            high: 0,
        };
    }
    if b == b' ' {
        return next_slot(s);
    }
    stored(out, s, b)
}

// The bytes of a text into a buffer of zeros; where the next would go.
fn read_bytes(text: &[u8], out: &mut [u8]) -> Slot {
    names::put_name(out, b"");
    let mut s = Slot {
        begin: 0,
        at: 0,
        digits: 0,
        high: 0,
    };
    for b in text {
        s = read_byte(out, s, *b);
    }
    s
}

// Answers how many bytes the slots have.
pub fn read_slots(text: &[u8], out: &mut [u8]) -> usize {
    let s = read_bytes(text, out);
    if text.len() == 0 {
        return 0;
    }
    next_slot(s).begin
}

// Answers how many bytes the name has, as far as there is room.
pub fn read_name(text: &[u8], out: &mut [u8]) -> usize
    ensures { result ≤ length out.new }
{
    let s = read_bytes(text, out);
    let n = s.at;
    if n < out.len() { n } else { out.len() }
}
