// The record's parts, each changed while the others stay.
ghost use Rattle.std.specs.Prelude.{◌≡◌, ◌<◌, length};
ghost use Rattle.definition.specs.Tables.{slot_of};
ghost use Rattle.clock.specs.Records.{bytes_of};
ghost use Rattle.clock.specs.Parts.{dues_of, events_of, ids_of};
ghost use Rattle.clock.specs.Putting.{Put, cell_put};
ghost use Rattle.clock.specs.Closing.{closed, Behind};

use crate::closing::{close_due, close_slot};
use crate::record_numbers::put_number;
use crate::{CLOCK, DUES, EVENTS, IDS};

// The due time, the event and the id of the send at place n.
pub fn put_due(clock: &mut [u8], n: u64, due: u64)
    requires { (length clock.old ≡ 4368) × (n < 32) }
    ensures { Put 16 256 clock.old clock.new (cell_put 8 (dues_of clock.old) n (bytes_of due)) }
{
    let at = n as usize * 8;
    put_number(&mut clock[DUES..EVENTS], at, due);
}

pub fn put_event(clock: &mut [u8], n: u64, event: &[u8])
    requires { (length clock.old ≡ 4368) × (n < 32) }
    ensures { Put 272 2048 clock.old clock.new (cell_put 64 (events_of clock.old) n (slot_of event.now)) }
{
    queue::put_last(&mut clock[EVENTS..IDS], n, event);
}

pub fn put_id(clock: &mut [u8], n: u64, id: &[u8])
    requires { (length clock.old ≡ 4368) × (n < 32) }
    ensures { Put 2320 2048 clock.old clock.new (cell_put 64 (ids_of clock.old) n (slot_of id.now)) }
{
    queue::put_last(&mut clock[IDS..CLOCK], n, id);
}

// The send at place i of n goes.
pub fn close_dues(clock: &mut [u8], i: u64)
    requires { (length clock.old ≡ 4368) × (i < 32) }
    ensures { Put 16 256 clock.old clock.new (closed 8 (dues_of clock.old) i) }
{
    close_due(&mut clock[DUES..EVENTS], i);
}

pub fn close_events(clock: &mut [u8], i: u64, n: u64)
    requires { (length clock.old ≡ 4368) × Behind (events_of clock.old) i n }
    ensures { Put 272 2048 clock.old clock.new (closed 64 (events_of clock.old) i) }
{
    close_slot(&mut clock[EVENTS..IDS], i, n);
}

pub fn close_ids(clock: &mut [u8], i: u64, n: u64)
    requires { (length clock.old ≡ 4368) × Behind (ids_of clock.old) i n }
    ensures { Put 2320 2048 clock.old clock.new (closed 64 (ids_of clock.old) i) }
{
    close_slot(&mut clock[IDS..CLOCK], i, n);
}
