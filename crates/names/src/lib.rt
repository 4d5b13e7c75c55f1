// Names, descriptors, matching and slots, for every slice of bytes, whatever its length and its bytes. The tests, matching and what a slot holds
// answer as definition's Names; a name's slot is definition's slot_of, in Marked, and this crate's `padded` for a slot of another size.
#![tactic(auto)]

ghost use Rattle.std.specs.Prelude.{◌≡◌};
ghost use Rattle.definition.specs.Rows.{same};
ghost use Rattle.definition.specs.Names.{between, is_letter, is_name_byte, is_name, bare, is_descriptor, begins, tokens, matches, is_id};

pub use slots::{
    filled, is_blank, name_len, name_of, slot_fits, slot_matches, slot_names, zeros_after,
};
pub use writing::{done_name, pad, put_done_name, put_name};

pub mod slots;
pub mod writing;

// "A name has 1 to 63 bytes"
const MOST_BYTES: usize = 63;

// The name bytes below 64 and those from 64 to 127, a bit for each: digits, "-" and "."; letters and "_".
const LOW_NAME_BYTES: u64 = 288054454291267584;

const HIGH_NAME_BYTES: u64 = 576460745995190270;

// "done.state." has so many bytes.
const DONE_BYTES: usize = 11;

fn is_between(low: u8, high: u8, b: u8) -> bool
    ensures { result ≡ between low high b }
{
    (low <= b) & (b <= high)
}

pub fn is_letter(b: u8) -> bool
    ensures { result ≡ is_letter b }
{
    is_between(b'A', b'Z', b) | is_between(b'a', b'z', b)
}

fn is_name_byte(b: u8) -> bool
    ensures { result ≡ is_name_byte b }
{
    if b < 64 {
        return (LOW_NAME_BYTES >> b) % 2 == 1;
    }
    if b < 128 {
        return (HIGH_NAME_BYTES >> (b - 64)) % 2 == 1;
    }
    false
}

// One pass. A dot is a name byte; where a token has to begin, first or behind a dot, it is none.
pub fn is_name(s: &[u8]) -> bool
    ensures { result ≡ is_name s.now }
{
    if MOST_BYTES < s.len() {
        return false;
    }
    let mut last = b'.';
    for &b in s {
        if !is_name_byte(b) {
            return false;
        }
        if (b == b'.') & (last == b'.') {
            return false;
        }
        last = b;
    }
    last != b'.'
}

// Kept: `==` on slices, said in definition's word `same`, which the clauses of its callers speak of.
pub fn equal(a: &[u8], b: &[u8]) -> bool
    ensures { result ≡ same a.now b.now }
{
    a == b
}

// The descriptor without a ".*" at its end.
pub fn bare(descriptor: &[u8]) -> &[u8]
    ensures { result.now ≡ bare descriptor.now }
{
    match descriptor.strip_suffix(b".*") {
        Some(name) => name,
        None => descriptor,
    }
}

// "*", a name, or a name with ".*" after it.
pub fn is_descriptor(s: &[u8]) -> bool
    ensures { result ≡ is_descriptor s.now }
{
    if MOST_BYTES < s.len() {
        return false;
    }
    if equal(s, b"*") {
        return true;
    }
    is_name(bare(s))
}

// The length is tested on the done name, which has to fit its slot.
pub fn is_id(s: &[u8]) -> bool
    ensures { result ≡ is_id s.now }
{
    if !is_name(s) {
        return false;
    }
    let first = s[0];
    if !(is_letter(first) | (first == b'_')) {
        return false;
    }
    DONE_BYTES + s.len() <= MOST_BYTES
}

// The event's first tokens are the descriptor's: the event is the descriptor, or begins with it and a dot.
// Kept: tried by `strip_prefix`, which reads bytes twice where it compares many at a time, and takes longer for short names.
fn begins_with(event: &[u8], descriptor: &[u8]) -> bool
    ensures { result ≡ begins (tokens descriptor.now) (tokens event.now) }
{
    for (i, b) in descriptor.iter().enumerate() {
        if event.len() <= i {
            return false;
        }
        if *b != event[i] {
            return false;
        }
    }
    let n = descriptor.len();
    if event.len() <= n {
        return true;
    }
    event[n] == b'.'
}

// Each byte of the event is read at most once.
pub fn matches(descriptor: &[u8], event: &[u8]) -> bool
    ensures { result ≡ matches descriptor.now event.now }
{
    if equal(descriptor, b"*") {
        return true;
    }
    begins_with(event, bare(descriptor))
}
