// Keys of ids: any function of a slot's bytes serves, since slots of different keys differ. Eight bytes are taken as one word, so that a key costs the same
// for every name.
ghost use Rattle.std.specs.Prelude.{◌≡◌, ◌+◌, ◌<◌, ◌≤◌, length, get_or};
ghost use Rattle.rules1.specs.Keys.{word_at, mix_of, squeeze_of, slot_key};

// So many keys there are, and words of a slot.
pub const KEYS: usize = 1024;

const WORDS: usize = 8;

fn byte_at(slot: &[u8], i: usize) -> u64
    requires { i < length slot.now }
    ensures { result ≡ get_or slot.now i 0 }
{
    u64::from(slot[i])
}

// Kept: `u64::from_le_bytes` takes an array, which would be put together byte by byte too.
fn word_at(slot: &[u8], at: usize) -> u64
    requires { at + 8 ≤ length slot.now }
    ensures { result ≡ word_at slot.now at }
{
    byte_at(slot, at)
        | (byte_at(slot, at + 1) << 8)
        | (byte_at(slot, at + 2) << 16)
        | (byte_at(slot, at + 3) << 24)
        | (byte_at(slot, at + 4) << 32)
        | (byte_at(slot, at + 5) << 40)
        | (byte_at(slot, at + 6) << 48)
        | (byte_at(slot, at + 7) << 56)
}

// The words before, turned by 23 bits, and the next one.
fn mixed(k: u64, w: u64) -> u64
    ensures { result ≡ mix_of k w }
{
    k.rotate_left(23) ^ w
}

// Both halves of the word have a part in each bit of the key: the factor is 2 ^ 32 by the golden ratio.
fn squeezed(k: u64) -> usize
    ensures { (result ≡ squeeze_of k) × (result < 1024) }
{
    let half = (k ^ (k >> 32)) % 4294967296;
    ((half * 2654435769 >> 22) % 1024) as usize
}

pub fn key_of(slot: &[u8]) -> usize
    requires { length slot.now ≡ 64 }
    ensures { (result ≡ slot_key slot.now) × (result < 1024) }
{
    let mut k = 0;
    for j in 0..WORDS {
        k = mixed(k, word_at(slot, j * 8));
    }
    squeezed(k)
}
