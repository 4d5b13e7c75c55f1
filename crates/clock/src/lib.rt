// The clock record in its lent place (R-9): 4,368 bytes, of which specs/Records says what stands where. The contracts are equations on the bytes.
#![tactic(auto)]

ghost use Rattle.std.specs.Prelude.{◌≡◌, length};
ghost use Rattle.clock.specs.Records.{clock_in, emptied_bytes};

pub use applying::apply;
pub use joining::join_due;
pub use judging::{MOST_TICKS, is_clock};
use record_numbers::get_number;

pub mod applying;
pub mod cancelling;
pub mod closing;
pub mod joining;
pub mod judging;
pub mod parts;
pub mod record_numbers;
pub mod removing;
pub mod sending;

pub const CLOCK: usize = 4368;

// "At most 32 are pending."
const MOST_PENDING: u64 = 32;

// Where the count, the due times, the events and the send ids begin.
const COUNT: usize = 8;

const DUES: usize = 16;

const EVENTS: usize = 272;

const IDS: usize = 2320;

// The last clock.
pub fn ticks_of(clock: &[u8]) -> u64
    requires { length clock.now ≡ 4368 }
    ensures { result ≡ (clock_in clock.now).ticks }
{
    get_number(clock, 0)
}

// How many sends are pending.
pub fn count_of(clock: &[u8]) -> u64
    requires { length clock.now ≡ 4368 }
    ensures { result ≡ length (clock_in clock.now).pending }
{
    get_number(clock, COUNT)
}

// Nothing is pending any more; the clock stays.
pub fn drop_pending(clock: &mut [u8])
    requires { length clock.old ≡ 4368 }
    ensures { clock.new ≡ emptied_bytes clock.old }
{
    let ticks = ticks_of(clock);
    places::clear_u8(clock);
    record_numbers::put_number(clock, 0, ticks);
}
