// The cells of a session, numbered in the order of its fields: 4 words of the configuration, 1,024 of the history, 2,048 bytes of each queue, their counts, the mode.
use session::Session;

pub const HISTORY: usize = 4;

pub const INTERNAL: usize = 1028;

pub const EXTERNAL: usize = 3076;

pub const INTERNAL_COUNT: usize = 5124;

pub const EXTERNAL_COUNT: usize = 5125;

pub const MODE: usize = 5126;

pub const CELLS: usize = 5127;

// ---- reading

pub fn word(words: &[u64], at: usize) -> u64 {
    if at < words.len() { words[at] } else { 0 }
}

fn wide(b: u8) -> u64 {
    b as u64
}

pub fn byte(bytes: &[u8], at: usize) -> u64 {
    if at < bytes.len() { wide(bytes[at]) } else { 0 }
}

pub fn cell(s: Session, at: usize) -> u64 {
    if at < HISTORY {
        return word(&s.configuration, at);
    }
    if at < INTERNAL {
        return word(&s.history, at - HISTORY);
    }
    if at < EXTERNAL {
        return byte(&s.internal, at - INTERNAL);
    }
    if at < INTERNAL_COUNT {
        return byte(&s.external, at - EXTERNAL);
    }
    if at == INTERNAL_COUNT {
        return s.internal_count;
    }
    if at == EXTERNAL_COUNT {
        return s.external_count;
    }
    s.mode
}

// ---- setting

fn put_configuration(words: &mut [u64; 4], at: usize, v: u64) {
    lines::put_word(words, at, v);
}

fn put_history(words: &mut [u64; 1024], at: usize, v: u64) {
    lines::put_word(words, at, v);
}

fn put_queue(bytes: &mut [u8; 2048], at: usize, v: u64) {
    lines::put_byte(bytes, at, (v % 256) as u8);
}

pub fn with_cell(mut s: Session, at: usize, v: u64) -> Session {
    if at < HISTORY {
        put_configuration(&mut s.configuration, at, v);
        return s;
    }
    if at < INTERNAL {
        put_history(&mut s.history, at - HISTORY, v);
        return s;
    }
    if at < EXTERNAL {
        put_queue(&mut s.internal, at - INTERNAL, v);
        return s;
    }
    if at < INTERNAL_COUNT {
        put_queue(&mut s.external, at - EXTERNAL, v);
        return s;
    }
    if at == INTERNAL_COUNT {
        s.internal_count = v;
        return s;
    }
    if at == EXTERNAL_COUNT {
        s.external_count = v;
        return s;
    }
    s.mode = v;
    s
}

// Answers how many slots there are.
fn put_slots(queue: &mut [u8; 2048], text: &[u8]) -> u64 {
    (lines::read_slots(text, queue) / 64) as u64
}

pub fn with_internal(mut s: Session, text: &[u8]) -> Session {
    let count = put_slots(&mut s.internal, text);
    s.internal_count = count;
    s
}

pub fn with_external(mut s: Session, text: &[u8]) -> Session {
    let count = put_slots(&mut s.external, text);
    s.external_count = count;
    s
}

// ---- every cell made from a number, one after the other; each function answers what the next goes on from

fn make_words(words: &mut [u64], from: u64) -> u64 {
    let mut v = from;
    for (i, word) in words.iter_mut().enumerate() {
        v = lines::mix(v, i as u64);
        *word = v;
    }
    v
}

fn make_bytes(bytes: &mut [u8], from: u64) -> u64 {
    let mut v = from;
    for (i, byte) in bytes.iter_mut().enumerate() {
        v = lines::mix(v, i as u64);
        *byte = (v % 256) as u8;
    }
    v
}

fn make_configuration(words: &mut [u64; 4], from: u64) -> u64 {
    make_words(words, from)
}

fn make_history(words: &mut [u64; 1024], from: u64) -> u64 {
    make_words(words, from)
}

fn make_queue(bytes: &mut [u8; 2048], from: u64) -> u64 {
    make_bytes(bytes, from)
}

pub fn made(mut s: Session, from: u64) -> Session {
    let a = make_configuration(&mut s.configuration, lines::mix(lines::FIRST_SUM, from));
    let b = make_history(&mut s.history, a);
    let c = make_queue(&mut s.internal, b);
    let d = make_queue(&mut s.external, c);
    s.internal_count = lines::mix(d, 0);
    s.external_count = lines::mix(d, 1);
    s.mode = lines::mix(d, 2);
    s
}

// ---- a sum of all cells

pub fn sum(first: u64, s: Session) -> u64 {
    let a = lines::sum_words(first, &s.configuration);
    let b = lines::sum_words(a, &s.history);
    let c = lines::sum_bytes(b, &s.internal);
    let d = lines::sum_bytes(c, &s.external);
    lines::mix(
        lines::mix(lines::mix(d, s.internal_count), s.external_count),
        s.mode,
    )
}
