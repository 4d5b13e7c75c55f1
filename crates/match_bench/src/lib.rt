// Whether any of four descriptors matches an event, in two ways: by one pass over the event's name, and one descriptor after the other, as it was before. For the benchmark and for
// the test that counts how often a name is read; no part of the library.
#![tactic(auto)]

ghost use Rattle.std.specs.Prelude.{◌≡◌, ◌<◌, length};
ghost use Rattle.definition.specs.Rows.{from, any};
ghost use Rattle.match_bench.specs.Ways.{slot_matches, answer};

use onepass::Places;

const SLOTS: usize = 4;

const SLOT: usize = 64;

// ---- one pass

// 1 if any matches, 0 if none does, 2 if these are not four slots.
#[unsafe(no_mangle)]
pub extern "C" fn match_bench_one_pass(slots: &[u8], event: &[u8]) -> u32
    ensures { result ≡ answer slots.now event.now }
{
    if slots.len() != SLOTS * SLOT {
        return 2;
    }
    let at = Places {
        first: 0,
        second: SLOT,
        third: 2 * SLOT,
        fourth: 3 * SLOT,
    };
    u32::from(onepass::any_matches(slots, at, event))
}

// ---- one after the other

fn matches_in(slots: &[u8], k: usize, event: &[u8]) -> bool
    requires { (length slots.now ≡ 256) × (k < 4) }
    ensures { result ≡ slot_matches slots.now event.now k }
{
    let begin = k * SLOT;
    let end = begin + SLOT;
    names::slot_matches(&slots[begin..end], event)
}

fn any_one_by_one(slots: &[u8], event: &[u8]) -> bool
    requires { length slots.now ≡ 256 }
    ensures { result ≡ any (slot_matches slots.now event.now) (from 4 0) }
{
    for k in 0..SLOTS {
        if matches_in(slots, k, event) {
            return true;
        }
    }
    false
}

// The same answers.
#[unsafe(no_mangle)]
pub extern "C" fn match_bench_one_by_one(slots: &[u8], event: &[u8]) -> u32
    ensures { result ≡ answer slots.now event.now }
{
    if slots.len() != SLOTS * SLOT {
        return 2;
    }
    u32::from(any_one_by_one(slots, event))
}
