// What stands in the buffers of lent places, and sums of them.
ghost use Rattle.std.specs.Prelude.{◌≤◌};

// The places are lent from here on in their buffers, so that something stands before and behind them.
const GUARD: usize = 8;

// Stands in the buffer of numbers before a chart is compiled, each word mixed with its number.
const FILLER: u64 = 0xa5a5a5a5a5a5a5a5;

const TRACE_FILLER: u32 = 0xa5a50000;

pub fn fill_words(place: &mut [u64]) {
    for (i, word) in place.iter_mut().enumerate() {
        *word = FILLER ^ i as u64;
    }
}

pub fn fill_bytes(place: &mut [u8]) {
    for (i, byte) in place.iter_mut().enumerate() {
        *byte = (i % 251) as u8;
    }
}

// What stands at a place of a trace before it is lent.
pub fn unwritten(at: usize) -> u32 {
    (at % 65521) as u32 ^ TRACE_FILLER
}

pub fn fill_trace(trace: &mut [u32]) {
    for (i, entry) in trace.iter_mut().enumerate() {
        *entry = unwritten(i);
    }
}

pub fn mix(sum: u64, word: u64) -> u64 {
    let a = sum ^ word;
    let b = a ^ (a << 13);
    let c = b ^ (b >> 7);
    c ^ (c << 17)
}

fn mix_byte(sum: u64, b: u8) -> u64 {
    mix(sum, b as u64)
}

pub fn sum_words(first: u64, words: &[u64]) -> u64 {
    let mut sum = first;
    for word in words {
        sum = mix(sum, *word);
    }
    sum
}

pub fn sum_bytes(first: u64, bytes: &[u8]) -> u64 {
    let mut sum = first;
    for b in bytes {
        sum = mix_byte(sum, *b);
    }
    sum
}

// A part of a buffer, which ends within it.
#[derive(Clone, Copy)]
pub struct Part {
    pub begin: usize,
    pub end: usize,
}

// So many from the guard on, or all behind it.
pub fn behind_guard(count: usize, room: usize) -> Part
    ensures { (result.begin ≤ result.end) × (result.end ≤ room) }
{
    if room < GUARD {
        return Part { begin: 0, end: 0 };
    }
    if room - GUARD < count {
        return Part {
            begin: GUARD,
            end: room,
        };
    }
    Part {
        begin: GUARD,
        end: GUARD + count,
    }
}

pub fn least(a: usize, b: usize) -> usize
    ensures { result ≤ b }
{
    if a < b { a } else { b }
}
