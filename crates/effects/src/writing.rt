// One entry of the trace, and what is noted of it: a name that joins the queue, a send or a cancel.
ghost use Rattle.std.specs.Prelude.{◌≡◌, [], ◌∷◌, ◌^◌, ◌≤◌, set};
ghost use Rattle.follower.specs.Blocks.{sent, cancelled};
ghost use Rattle.effects.specs.Trace.{places, queues, join_at, skip_in, timer_at, Wrote, Shown, Room};
ghost use Rattle.effects.specs.Kinds.{effect_of, InEntry, SendIn};

use crate::Tally;

// "kind × 65,536 + index"
pub const KIND: u32 = 65536;

// The kinds of an entry.
pub const EXITED: u32 = 1;

pub const TAKEN: u32 = 2;

pub const ENTERED: u32 = 3;

pub const ACTED: u32 = 4;

pub const RAISED: u32 = 5;

pub const DONE: u32 = 6;

pub const CHOSEN: u32 = 7;

pub const SENT: u32 = 8;

pub const CANCELLED: u32 = 9;

// The place of notes: so many joins, then how many sends and cancels are passed over, then two cells for each of the others.
pub const JOINS: u64 = 32;

pub const SKIP: usize = 32;

pub const TIMERS: u64 = 33;

// What stands where a send has its name: a cancel has none.
const NO_NAME: u32 = 65535;

// A number at its place, if the list reaches it.
fn put(list: &mut [u32], place: u64, number: u32)
    ensures { list.new ≡ set list.old place number }
{
    let at = place as usize;
    if at < list.len() {
        list[at] = number;
    }
}

// A number that joins as number k; those past the last that a queue could take are counted alone.
fn put_join(joins: &mut [u32], k: u64, number: u32)
    ensures { joins.new ≡ join_at joins.old k number }
{
    if k < JOINS {
        put(joins, k, number);
    }
}

// How many sends and cancels are passed over.
fn skipped(joins: &[u32]) -> u64
    ensures { result ≡ skip_in joins.now }
{
    if joins.len() <= SKIP {
        return 0;
    }
    joins[SKIP] as u64
}

// The two numbers of send or cancel number k, unless it is passed over.
fn put_timer(joins: &mut [u32], k: u64, first: u32, second: u32)
    requires { k ≤ 2 ^ 62 }
    ensures { joins.new ≡ timer_at joins.old k first second }
{
    let skip = skipped(joins);
    if skip <= k {
        let at = TIMERS + (k - skip) * 2;
        put(joins, at, first);
        put(joins, at + 1, second);
    }
}

// An entry that queues no name, sends and cancels nothing.
pub fn emit(trace: &mut [u32], tally: Tally, kind: u32, index: u32) -> Tally
    requires { InEntry kind index × (queues (effect_of kind index) ≡ 0) × Room tally (effect_of kind index ∷ []) }
    ensures { Shown trace.old trace.new tally result (effect_of kind index) }
{
    put(trace, tally.entries, kind * KIND + index);
    Tally {
        entries: tally.entries + 1,
        names: tally.names,
        timers: tally.timers,
    }
}

// An entry whose name joins the queue.
pub fn emit_join(trace: &mut [u32], joins: &mut [u32], tally: Tally, kind: u32, index: u32) -> Tally
    requires { InEntry kind index × (queues (effect_of kind index) ≡ 1) × Room tally (effect_of kind index ∷ []) }
    ensures { Wrote (places trace.old joins.old) (places trace.new joins.new) tally result (effect_of kind index ∷ []) }
{
    let number = kind * KIND + index;
    put(trace, tally.entries, number);
    put_join(joins, tally.names, number);
    Tally {
        entries: tally.entries + 1,
        names: tally.names + 1,
        timers: tally.timers,
    }
}

// A send's entry, and what is noted of it.
pub fn emit_sent(
    trace: &mut [u32],
    joins: &mut [u32],
    tally: Tally,
    name: u32,
    delay: u32,
    id: u32,
) -> Tally
    requires { SendIn name id × Room tally (sent name delay id ∷ []) }
    ensures { Wrote (places trace.old joins.old) (places trace.new joins.new) tally result (sent name delay id ∷ []) }
{
    put(trace, tally.entries, SENT * KIND + name);
    put_timer(joins, tally.timers, name * KIND + id, delay);
    Tally {
        entries: tally.entries + 1,
        names: tally.names,
        timers: tally.timers + 1,
    }
}

// A cancel's.
pub fn emit_cancelled(trace: &mut [u32], joins: &mut [u32], tally: Tally, id: u32) -> Tally
    requires { (id ≤ 65534) × Room tally (cancelled id ∷ []) }
    ensures { Wrote (places trace.old joins.old) (places trace.new joins.new) tally result (cancelled id ∷ []) }
{
    put(trace, tally.entries, CANCELLED * KIND + id);
    put_timer(joins, tally.timers, NO_NAME * KIND + id, 0);
    Tally {
        entries: tally.entries + 1,
        names: tally.names,
        timers: tally.timers + 1,
    }
}
