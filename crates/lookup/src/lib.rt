// What is worked out of a chart once, for all rounds of a run: where the transitions of each source start, the domains that no history
// moves, and the rows that a round asks for by kind.
#![tactic(auto)]

ghost use Rattle.std.specs.Prelude.{◌≡◌, ◌+◌, ◌≤◌, length};
ghost use Rattle.definition.specs.Tables.{chart_of};
ghost use Rattle.chart.specs.Ready.{Ready};
ghost use Rattle.lookup.specs.Words.{word_in, rows_in};
ghost use Rattle.lookup.specs.Lookup.{quiet_in, IndexOf};

use places::copy;
use rowset::RowSet;

// The index of a chart: 257 starts, then 512 fixed domains, then three sets of rows, of 16 numbers each: the atomic rows, those at or
// below the source of an eventless transition, and the histories. Behind them a run keeps whether its rounds are to be shown: 0 where they are.
pub const STARTS: usize = 257;

pub const ATOMIC: usize = 769;

pub const EVENTLESS: usize = 785;

pub const HISTORIES: usize = 801;

pub const QUIET: usize = 817;

pub const INDEX: usize = 818;

// ---- a set of rows among the numbers of an index: four to a word, the lowest first

fn word_at(index: &[u16], at: usize) -> u64
    requires { at + 4 ≤ length index.now }
    ensures { result ≡ word_in index.now at }
{
    u64::from(index[at])
        + u64::from(index[at + 1]) * 65536
        + u64::from(index[at + 2]) * 4294967296
        + u64::from(index[at + 3]) * 281474976710656
}

pub fn rows_at(index: &[u16], at: usize) -> RowSet
    requires { at + 16 ≤ length index.now }
    ensures { result ≡ rows_in index.now at }
{
    RowSet {
        w0: word_at(index, at),
        w1: word_at(index, at + 4),
        w2: word_at(index, at + 8),
        w3: word_at(index, at + 12),
    }
}

fn put_word(place: &mut [u16], w: u64)
    requires { length place.old ≡ 4 }
    ensures { (length place.new ≡ 4) × (word_in place.new 0 ≡ w) }
{
    place[0] = (w % 65536) as u16;
    place[1] = (w / 65536 % 65536) as u16;
    place[2] = (w / 4294967296 % 65536) as u16;
    place[3] = (w / 281474976710656) as u16;
}

fn put_rows(place: &mut [u16], set: RowSet)
    requires { length place.old ≡ 16 }
    ensures { (length place.new ≡ 16) × (rows_in place.new 0 ≡ set) }
{
    put_word(&mut place[..4], set.w0);
    put_word(&mut place[4..8], set.w1);
    put_word(&mut place[8..12], set.w2);
    put_word(&mut place[12..16], set.w3);
}

// ---- the index

// Whether the rounds are to be shown stays as it is.
pub fn put_index(chart: &[u64], index: &mut [u16])
    requires { Ready chart.now × (length index.old ≡ 818) }
    ensures { IndexOf (chart_of chart.now) index.new × (quiet_in index.new ≡ quiet_in index.old) }
{
    let by_source = matching::index_of(chart);
    let fixed = selection::fixed_domains(chart);
    let atomic = matching::atomic_rows(chart);
    let eventless = matching::eventless_rows(chart);
    let histories = matching::history_rows(chart);
    copy(&by_source.starts, &mut index[..STARTS]);
    copy(&fixed.domains, &mut index[STARTS..ATOMIC]);
    put_rows(&mut index[ATOMIC..EVENTLESS], atomic);
    put_rows(&mut index[EVENTLESS..HISTORIES], eventless);
    put_rows(&mut index[HISTORIES..QUIET], histories);
}
