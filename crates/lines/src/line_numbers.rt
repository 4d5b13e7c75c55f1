// The numbers of a line.

pub fn digit(b: u8) -> u64 {
    if b'0' <= b && b <= b'9' {
        return (b - b'0') as u64;
    }
    if b'a' <= b && b <= b'f' {
        return (b - b'a') as u64 + 10;
    }
    0
}

// Ten times a number and a digit more; what does not fit into 64 bits is lost.
fn with_digit(v: u64, d: u64) -> u64 {
    std::num::wrapping_add_u64(std::num::wrapping_add_u64(v << 3, v << 1), d)
}

// Copies of a number from `at` on, as far as there is room; answers where the next goes.
fn put_copies(out: &mut [u64], at: usize, copies: u64, v: u64) -> usize {
    let mut k = at;
    for _ in 0..copies {
        if out.len() <= k {
            return k;
        }
        out[k] = v;
        k += 1;
    }
    k
}

// Where the next number goes, how often, and what is read of it so far.
#[derive(Clone, Copy)]
struct Reading {
    at: usize,
    copies: u64,
    v: u64,
}

fn read_digit(out: &mut [u64], r: Reading, b: u8) -> Reading {
    if b == b'*' {
        return Reading {
            at: r.at,
            copies: r.v,
            v: 0,
        };
    }
    if b == b' ' {
        return Reading {
            at: put_copies(out, r.at, r.copies, r.v),
            copies: 1,
            v: 0,
        };
    }
    Reading {
        at: r.at,
        copies: r.copies,
        v: with_digit(r.v, digit(b)),
    }
}

// Answers how many there are.
pub fn read_numbers(text: &[u8], out: &mut [u64]) -> usize {
    if text.len() == 0 {
        return 0;
    }
    let mut r = Reading {
        at: 0,
        copies: 1,
        v: 0,
    };
    for b in text {
        r = read_digit(out, r, *b);
    }
    put_copies(out, r.at, r.copies, r.v)
}

// Two numbers; one that a line does not have is 0.
#[derive(Clone, Copy)]
pub struct Two {
    pub first: u64,
    pub next: u64,
}

pub fn read_two(text: &[u8]) -> Two {
    let mut two = [0u64; 2];
    read_numbers(text, &mut two);
    Two {
        first: two[0],
        next: two[1],
    }
}

pub fn size(v: u64) -> usize {
    (v % 1048576) as usize
}

pub fn put_word(out: &mut [u64], at: usize, v: u64) {
    if at < out.len() {
        out[at] = v;
    }
}
