// Names written into slots, with zeros behind them.
ghost use Rattle.std.specs.Prelude.{◌≡◌, min, length};
ghost use Rattle.definition.specs.Names.{done_name};
ghost use Rattle.definition.specs.Tables.{slot_of};
ghost use Rattle.laws.specs.Parts.{laid};
ghost use Rattle.names.specs.Slots.{padded};

use crate::DONE_BYTES;

// The bytes over the place from `at` on, as far as it goes.
fn lay(place: &mut [u8], at: usize, bytes: &[u8])
    ensures { place.new ≡ laid place.old at bytes.now }
{
    if place.len() <= at {
        return;
    }
    let n = bytes.len().min(place.len() - at);
    place[at..at + n].copy_from_slice(&bytes[..n]);
}

// The name into a lent slot of any size, cut where the slot ends, and zeros to its end.
pub fn put_name(slot: &mut [u8], name: &[u8])
    ensures { slot.new ≡ padded (length slot.old) name.now }
{
    places::clear_u8(slot);
    lay(slot, 0, name);
}

// The same of a row's done name. An id of up to 53 bytes is not cut in a slot of 64, and no accepted id has more than 52.
pub fn put_done_name(slot: &mut [u8], id: &[u8])
    ensures { slot.new ≡ padded (length slot.old) (done_name id.now) }
{
    places::clear_u8(slot);
    lay(slot, 0, b"done.state.");
    lay(slot, DONE_BYTES, id);
}

// Both by value, in a slot of 64 bytes.
pub fn pad(name: &[u8]) -> [u8; 64]
    ensures value { result ≡ slot_of name.now }
    ensures value_2 { 64 ≡ length result }
{
    let mut slot = [0; 64];
    put_name(&mut slot, name);
    slot
}

pub fn done_name(id: &[u8]) -> [u8; 64]
    ensures value { result ≡ slot_of (done_name id.now) }
    ensures value_2 { 64 ≡ length result }
{
    let mut slot = [0; 64];
    put_done_name(&mut slot, id);
    slot
}
