// Whether lent bytes are those of a well-formed record beside a session of that mode: refusal 9 in runs and clock calls.
ghost use Rattle.std.specs.Prelude.{◌≡◌, not, ◌||◌, ◌≤◌, eqb, length};
ghost use Rattle.follower.specs.Follower.{is_ended};
ghost use Rattle.clock.specs.Records.{is_clock};
ghost use Rattle.clock.specs.Judging.{slot_fits, dues_fit, slots_fit};

use crate::record_numbers::get_number;
use crate::{CLOCK, DUES, EVENTS, IDS, MOST_PENDING, count_of, ticks_of};
use definition::Mode;

// "the clock at most 2^62", "due times at most 4,294,967,295 beyond it"
pub const MOST_TICKS: u64 = 4611686018427387904;

const MOST_DELAY: u64 = 4294967295;

// "nothing pending once ended"
fn may_pend(mode: Mode, n: u64) -> bool
    ensures { result ≡ (not (is_ended mode) || eqb n 0) }
{
    match mode {
        Mode::Ended => n == 0,
        Mode::Running | Mode::Closing => true,
    }
}

// The first n due times are at most that, and zeros stand behind them.
fn dues_fit(dues: &[u8], n: u64, most: u64) -> bool
    requires { (length dues.now ≡ 256) × (n ≤ 32) }
    ensures { result ≡ dues_fit dues.now n most }
{
    let used = n as usize * 8;
    if !names::is_blank(&dues[used..]) {
        return false;
    }
    for k in 0..n {
        let at = k as usize * 8;
        if most < get_number(dues, at) {
            return false;
        }
    }
    true
}

// A name and zeros behind it, or a blank where there may be one.
fn slot_fits(slot: &[u8], blanks: bool) -> bool
    ensures { result ≡ slot_fits blanks slot.now }
{
    if blanks & names::is_blank(slot) {
        return true;
    }
    names::slot_names(slot)
}

// The first n slots hold names, or blanks where there may be any, and zeros stand behind them.
fn slots_fit(slots: &[u8], n: u64, blanks: bool) -> bool
    requires { (length slots.now ≡ 2048) × (n ≤ 32) }
    ensures { result ≡ slots_fit blanks slots.now n }
{
    let used = n as usize * 64;
    if !names::is_blank(&slots[used..]) {
        return false;
    }
    for k in 0..n {
        if !slot_fits(queue::slot(slots, k as usize), blanks) {
            return false;
        }
    }
    true
}

// For places of every length.
pub fn is_clock(clock: &[u8], mode: Mode) -> bool
    ensures { result ≡ is_clock mode clock.now }
{
    if clock.len() != CLOCK {
        return false;
    }
    let n = count_of(clock);
    if MOST_PENDING < n {
        return false;
    }
    let ticks = ticks_of(clock);
    if MOST_TICKS < ticks {
        return false;
    }
    if !may_pend(mode, n) {
        return false;
    }
    if !dues_fit(&clock[DUES..EVENTS], n, ticks + MOST_DELAY) {
        return false;
    }
    if !slots_fit(&clock[EVENTS..IDS], n, false) {
        return false;
    }
    slots_fit(&clock[IDS..CLOCK], n, true)
}
