// Queues of names over lent bytes: 32 slots of 64 bytes, the names from slot 0 on, zeros behind them. The contracts are equations on
// the bytes; specs/Queues turns them into the names.
#![tactic(auto)]

ghost use Rattle.std.specs.Prelude.{◌≡◌, ◌++◌, ◌+◌, ◌-◌, ◌*◌, ◌≤◌, length, take, drop, replicate};
ghost use Rattle.definition.specs.Names.{done_name};
ghost use Rattle.definition.specs.Tables.{slot_at, name_at, slot_of};
ghost use Rattle.queue.specs.Queues.{is_queue, SlotInside, QueueSized, Waiting};

// "at most 32 names each"
pub const MOST_QUEUED: u64 = 32;

const SLOT: usize = 64;

// Slot k.
pub fn slot(queue: &[u8], k: usize) -> &[u8]
    requires { SlotInside queue.now k }
    ensures { result.now ≡ slot_at queue.now k }
{
    let from = k * SLOT;
    let to = from + SLOT;
    &queue[from..to]
}

// The name that has waited longest.
pub fn first_name(queue: &[u8]) -> &[u8]
    requires { SlotInside queue.now 0 }
    ensures { result.now ≡ name_at queue.now 0 }
{
    names::name_of(slot(queue, 0))
}

// The name into the slot behind the count names.
pub fn put_last(queue: &mut [u8], count: u64, name: &[u8])
    requires { SlotInside queue.old count }
    ensures { queue.new ≡ take (count * 64) queue.old ++ (slot_of name.now ++ drop (count * 64 + 64) queue.old) }
{
    let from = count as usize * SLOT;
    let to = from + SLOT;
    names::put_name(&mut queue[from..to], name);
}

// The done name of a row, by its id, into the slot behind the count names.
pub fn put_done_last(queue: &mut [u8], count: u64, id: &[u8])
    requires { SlotInside queue.old count }
    ensures { queue.new ≡ take (count * 64) queue.old ++ (slot_of (done_name id.now) ++ drop (count * 64 + 64) queue.old) }
{
    let from = count as usize * SLOT;
    let to = from + SLOT;
    names::put_done_name(&mut queue[from..to], id);
}

// The first so many bytes of a place go: the others move up, zeros stand at its end.
pub fn close_first(place: &mut [u8], width: usize)
    requires { width ≤ length place.old }
    ensures { place.new ≡ drop width place.old ++ replicate width 0 }
{
    place.copy_within(width.., 0);
    let last = place.len() - width;
    place[last..].fill(0);
}

// The first of count names leaves. Behind them all is blank, so their own slots alone are touched.
pub fn take_oldest(queue: &mut [u8], count: u64)
    requires { Waiting queue.old count }
    ensures { queue.new ≡ drop 64 queue.old ++ replicate 64 0 }
{
    let used = count as usize * SLOT;
    close_first(&mut queue[..used], SLOT);
}

// No name waits.
pub fn clear(queue: &mut [u8])
    ensures { queue.new ≡ replicate (length queue.old) 0 }
{
    places::clear_u8(queue);
}

// Whether the bytes are those of a queue of count names: at most 32, each a name and zeros to its slot's end, and zeros in every unused slot.
// All that is unused is one part.
pub fn queue_fits(queue: &[u8], count: u64) -> bool
    requires { QueueSized queue.now }
    ensures { result ≡ is_queue queue.now count }
{
    if MOST_QUEUED < count {
        return false;
    }
    let used = count as usize * SLOT;
    if !names::is_blank(&queue[used..]) {
        return false;
    }
    for k in 0..count {
        if !names::slot_names(slot(queue, k as usize)) {
            return false;
        }
    }
    true
}
