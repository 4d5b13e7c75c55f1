// A send behind those that are pending.
ghost use Rattle.std.specs.Prelude.{◌≡◌, true, ◌||◌};
ghost use Rattle.definition.specs.declared.Mode.TheVariants.{Running};
ghost use Rattle.definition.specs.Names.{is_name};
ghost use Rattle.definition.specs.Rows.{is_empty};
ghost use Rattle.clock.specs.Records.{ClockHolds};
ghost use Rattle.clock.specs.Sending.{Sent};

use crate::parts::{put_due, put_event, put_id};
use crate::record_numbers::put_number;
use crate::{COUNT, MOST_PENDING, count_of, ticks_of};

// "A send is due at the last clock plus its delay." Whether it found no place.
pub fn send(clock: &mut [u8], delay: u32, event: &[u8], id: &[u8]) -> bool
    requires { ClockHolds Running clock.old × (is_name event.now ≡ true) × ((is_empty id.now || is_name id.now) ≡ true) }
    ensures { Sent clock.old clock.new delay event.now id.now result }
{
    let n = count_of(clock);
    if MOST_PENDING <= n {
        return true;
    }
    let due = ticks_of(clock) + delay as u64;
    put_due(clock, n, due);
    put_event(clock, n, event);
    put_id(clock, n, id);
    put_number(clock, COUNT, n + 1);
    false
}
