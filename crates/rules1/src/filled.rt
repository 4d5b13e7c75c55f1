// What a slot of 64 bytes holds, read as many bytes at a time as the machine takes: no pass here ends early.
ghost use Rattle.std.specs.Prelude.{◌≡◌, true, ◌&&◌, ◌+◌, ◌≤◌, length};
ghost use Rattle.definition.specs.Names.{is_descriptor, before_zero, zeros_after};
ghost use Rattle.rules1.specs.Filled.{is_held, is_wrong, Right, NameAhead};

use names::filled;

// So many bytes of a name are judged at once, each with the next one, and names of at most so many bytes are.
const AT_ONCE: usize = 16;

const MOST_AHEAD: usize = 48;

// The bytes before the zeros that end a slot.
pub fn name_in(slot: &[u8]) -> &[u8]
    requires { (length slot.now ≡ 64) × (zeros_after slot.now ≡ true) }
    ensures { result.now ≡ before_zero slot.now }
{
    &slot[..filled(slot)]
}

// A byte that a slot may hold before and behind the end of its name.
fn is_held(b: u8) -> bool
    ensures { result ≡ is_held b }
{
    ((b'A' <= b) & (b <= b'Z'))
        | ((b'a' <= b) & (b <= b'z'))
        | ((b'0' <= b) & (b <= b'9'))
        | (b == b'-')
        | (b == b'_')
        | (b == b'.')
        | (b == 0)
}

// Whether a byte and the next one tell that a slot holds no name: the first may not be held, a zero ends what it holds, and no token is empty.
fn is_wrong(b: u8, next: u8) -> bool
    ensures { result ≡ is_wrong b next }
{
    !is_held(b) | ((b == 0) & (next != 0)) | ((next == b'.') & (b == b'.'))
}

// The same of 16 bytes.
fn has_wrong(slot: &[u8], at: usize) -> bool
    requires { (length slot.now ≡ 64) × (at ≤ 47) }
    ensures { Right slot.now at (at + 16) result }
{
    let mut wrong = false;
    for j in 0..AT_ONCE {
        wrong |= is_wrong(slot[at + j], slot[at + j + 1]);
    }
    wrong
}

// Whether the first n bytes are a name; some names are left to others to tell.
fn holds_name(slot: &[u8], n: usize) -> bool
    requires { (length slot.now ≡ 64) × (1 ≤ n) × (n ≤ 48) }
    ensures { NameAhead slot.now n result }
{
    let last = slot[n - 1];
    if (slot[0] == b'.') | (last == b'.') | (last == 0) {
        return false;
    }
    for q in 0..n.div_ceil(AT_ONCE) {
        if has_wrong(slot, q * AT_ONCE) {
            return false;
        }
    }
    true
}

// A name or descriptor, then zeros. Most slots hold a name of at most 48 bytes: where as many bytes begin the slot as are filled in it and they are a name, the
// others are zeros.
pub fn fits(slot: &[u8]) -> bool
    requires { length slot.now ≡ 64 }
    ensures { result ≡ (zeros_after slot.now && is_descriptor (before_zero slot.now)) }
{
    let n = filled(slot);
    if (0 < n) & (n <= MOST_AHEAD) {
        if holds_name(slot, n) {
            return true;
        }
    }
    names::slot_fits(slot)
}
