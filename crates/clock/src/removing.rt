// The send at a place leaves; the others keep their order.
ghost use Rattle.std.specs.Prelude.{◌<◌, length};
ghost use Rattle.definition.specs.declared.Mode.TheVariants.{Running};
ghost use Rattle.follower.specs.Clock.{without_at};
ghost use Rattle.clock.specs.Records.{ClockHolds, clock_in};
ghost use Rattle.clock.specs.Left.{Left};

use crate::parts::{close_dues, close_events, close_ids};
use crate::record_numbers::put_number;
use crate::{COUNT, count_of};

pub fn remove(clock: &mut [u8], i: u64)
    requires { ClockHolds Running clock.old × (i < length (clock_in clock.old).pending) }
    ensures { Left clock.old clock.new (without_at i (clock_in clock.old).pending) }
{
    let n = count_of(clock);
    close_dues(clock, i);
    close_events(clock, i, n);
    close_ids(clock, i, n);
    put_number(clock, COUNT, n - 1);
}
