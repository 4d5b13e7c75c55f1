// What a slot holds: the bytes before the first zero, and whether they are what a slot of a table or a queue may hold.
ghost use Rattle.std.specs.Prelude.{◌≡◌, ◌&&◌, cond, eqb, length};
ghost use Rattle.definition.specs.Rows.{all};
ghost use Rattle.definition.specs.Names.{is_name, is_descriptor, matches, before_zero, zeros_after};
ghost use Rattle.names.specs.Matching.{starts_token};
ghost use Rattle.names.specs.Blank.{filled_in};

use crate::{bare, begins_with, is_descriptor, is_name, matches};

const SLOT_BYTES: usize = 64;

// The number of bytes before the first zero.
pub fn name_len(slot: &[u8]) -> usize
    ensures { result ≡ length (before_zero slot.now) }
{
    slot.iter().position(|b| *b == 0).unwrap_or(slot.len())
}

// The bytes before the first zero.
pub fn name_of(slot: &[u8]) -> &[u8]
    ensures { result.now ≡ before_zero slot.now }
{
    let n = name_len(slot);
    &slot[..n]
}

// Whether the first byte of a slot is one of a token that the event has to begin with: not so of a zero, a star or a dot.
fn starts_token(slot: &[u8]) -> bool
    ensures { result ≡ starts_token slot.now }
{
    match slot {
        [] => false,
        [b, ..] => (*b != 0) & (*b != b'*') & (*b != b'.'),
    }
}

// Whether the descriptor in a slot matches the event. Most descriptors differ from the event in the first byte: it is looked at first, and
// then the slot's end is not looked for. Each byte of the event is read at most once here too.
pub fn slot_matches(slot: &[u8], event: &[u8]) -> bool
    ensures { result ≡ matches (before_zero slot.now) event.now }
{
    if starts_token(slot) & (0 < event.len()) {
        if slot[0] != event[0] {
            return false;
        }
        return begins_with(&event[1..], bare(name_of(&slot[1..])));
    }
    matches(name_of(slot), event)
}

// Every byte is zero. All are put together before any is judged: so many are read at a time as the machine takes.
pub fn is_blank(s: &[u8]) -> bool
    ensures { result ≡ all (eqb 0) s.now }
{
    let mut any: u8 = 0;
    for b in s {
        any |= *b;
    }
    any == 0
}

// How many bytes of a slot are not zero. Each of them is counted, in a byte: so many are read at a time as the machine takes.
pub fn filled(slot: &[u8]) -> usize
    requires { length slot.now ≡ 64 }
    ensures { result ≡ filled_in slot.now }
{
    let mut n: u8 = 0;
    for b in slot {
        n += u8::from(*b != 0);
    }
    usize::from(n)
}

// Whether all behind the n bytes before the first zero is zero. No other byte is filled then.
fn ends_blank(slot: &[u8], n: usize) -> bool
    requires { n ≡ length (before_zero slot.now) }
    ensures { result ≡ zeros_after slot.now }
{
    if slot.len() == SLOT_BYTES {
        return filled(slot) == n;
    }
    is_blank(&slot[n..])
}

// Every byte from the first zero on is zero.
pub fn zeros_after(slot: &[u8]) -> bool
    ensures { result ≡ zeros_after slot.now }
{
    ends_blank(slot, name_len(slot))
}

// The same where the slot has a descriptor with a star, or any other size.
fn holds_descriptor(slot: &[u8]) -> bool
    ensures { result ≡ (zeros_after slot.now && is_descriptor (before_zero slot.now)) }
{
    let n = name_len(slot);
    if !ends_blank(slot, n) {
        return false;
    }
    is_descriptor(&slot[..n])
}

// A slot of the chart's table: a name or descriptor, then zeros. Most hold a name: where as many bytes begin the slot as are filled in it and they are a name,
// the others are zeros, and its end is not looked for.
pub fn slot_fits(slot: &[u8]) -> bool
    ensures { result ≡ (zeros_after slot.now && is_descriptor (before_zero slot.now)) }
{
    if slot.len() == SLOT_BYTES {
        let n = filled(slot);
        if is_name(&slot[..n]) {
            return true;
        }
    }
    holds_descriptor(slot)
}

// A slot of a queue that a name waits in: the name, then zeros.
pub fn slot_names(slot: &[u8]) -> bool
    ensures { result ≡ (zeros_after slot.now && is_name (before_zero slot.now)) }
{
    let n = name_len(slot);
    if !ends_blank(slot, n) {
        return false;
    }
    is_name(&slot[..n])
}
