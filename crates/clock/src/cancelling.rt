// "Cancel takes every pending send of an equal id."
ghost use Rattle.std.specs.Prelude.{◌≡◌, ◌<◌, length, drop};
ghost use Rattle.definition.specs.declared.Mode.TheVariants.{Running};
ghost use Rattle.definition.specs.Rows.{same};
ghost use Rattle.definition.specs.Tables.{name_at};
ghost use Rattle.follower.specs.Clock.{without};
ghost use Rattle.queue.specs.Queues.{SlotInside};
ghost use Rattle.clock.specs.Records.{ClockHolds, clock_in};
ghost use Rattle.clock.specs.Left.{Left};

use crate::removing::remove;
use crate::{IDS, count_of};

// The name in slot i.
pub fn name_in(slots: &[u8], i: usize) -> &[u8]
    requires { SlotInside slots.now i }
    ensures { result.now ≡ name_at slots.now i }
{
    names::name_of(queue::slot(slots, i))
}

// Whether the send at place i has that id.
fn has_id(clock: &[u8], i: u64, id: &[u8]) -> bool
    requires { (length clock.now ≡ 4368) × (i < 32) }
    ensures { result ≡ same (name_at (drop 2320 clock.now) i) id.now }
{
    names::equal(name_in(&clock[IDS..], i as usize), id)
}

// The last place first: where a send leaves, those that are still to be looked at stay where they are.
pub fn cancel(clock: &mut [u8], id: &[u8])
    requires { ClockHolds Running clock.old }
    ensures { Left clock.old clock.new (without id.now (clock_in clock.old).pending) }
{
    for i in (0..count_of(clock)).rev() {
        if has_id(clock, i, id) {
            remove(clock, i);
        }
    }
}
