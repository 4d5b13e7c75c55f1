// Sends and cancels as a round has noted them, two numbers each, in their order.
ghost use Rattle.std.specs.Prelude.{◌≡◌, true};
ghost use Rattle.definition.specs.declared.Mode.TheVariants.{Running};
ghost use Rattle.definition.specs.Rows.{all};
ghost use Rattle.definition.specs.Tables.{name_at};
ghost use Rattle.follower.specs.Clock.{id_of};
ghost use Rattle.paths.specs.Timing.{timer_of, effects_in};
ghost use Rattle.clock.specs.Records.{ClockHolds, timer_known, Applied};
ghost use Rattle.clock.specs.Applying.{id_known, AppliedOne};

use crate::cancelling::{cancel, name_in};
use crate::sending::send;

// What stands for a cancel in place of a name, and for no send id.
const NO_NUMBER: usize = 65535;

// The send id of that number; empty where there is none.
fn id_in(names: &[u8], id: usize) -> &[u8]
    requires { id_known names.now id ≡ true }
    ensures { result.now ≡ id_of (name_at names.now) id }
{
    if id == NO_NUMBER {
        return &names[..0];
    }
    name_in(names, id)
}

// One send or cancel. Whether a send found no place.
fn apply_one(names: &[u8], a: u32, b: u32, clock: &mut [u8]) -> bool
    requires { ClockHolds Running clock.old × (timer_known names.now (timer_of a b) ≡ true) }
    ensures { AppliedOne names.now (timer_of a b) clock.old clock.new result }
{
    let n = (a / 65536) as usize;
    let i = (a % 65536) as usize;
    if n == NO_NUMBER {
        cancel(clock, name_in(names, i));
        return false;
    }
    send(clock, b, name_in(names, n), id_in(names, i))
}

// All of them, as far as the first send that finds no place: then the record is of no use any more.
pub fn apply(names: &[u8], timers: &[u32], clock: &mut [u8]) -> bool
    requires { ClockHolds Running clock.old × (all (timer_known names.now) (effects_in timers.now) ≡ true) }
    ensures { Applied names.now timers.now clock.old clock.new result }
{
    let n = timers.len() / 2;
    for i in 0..n {
        let at = i * 2;
        if apply_one(names, timers[at], timers[at + 1], clock) {
            return true;
        }
    }
    false
}
