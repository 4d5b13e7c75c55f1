// Rule 2 on ids: each is one, and no two rows have the same.
ghost use Rattle.std.specs.Prelude.{◌≡◌, ◌<◌};
ghost use Rattle.definition.specs.Rows.{all, from};
ghost use Rattle.definition.specs.Tables.{row_count};
ghost use Rattle.definition.specs.Rules.{id_fits};
ghost use Rattle.rules1.specs.Ids.{Slots};
ghost use Rattle.rules1.specs.Keys.{KeyOf};
ghost use Rattle.rules1.specs.Chains.{Turn, Met};

use crate::classes::ids_differ;
use crate::filled::name_in;
use crate::keys::{KEYS, key_of};
use crate::spelling::{is_id, is_id_of};
use numbers::Row;
use tables::limits;

// The rows seen so far are chained by the keys of their ids: the last row of each key, and for each row the one before it. 0 ends a chain, since the
// root has no id.
// So many rows of one key are compared with another; where there are more, all ids are told apart byte by byte.
const MOST_OF_A_KEY: usize = 32;

// What the rows of a key say of an id: none has it, one has, there are too many.
enum Asked {
    New,
    Twice,
    Many,
}

// The key of a row's id, if it has one.
fn id_key(numbers: &[u64], names: &[u8], r: Row) -> Option<usize>
    requires { Slots numbers.now names.now × (r.0 < row_count numbers.now) × (0 < r.0) }
    ensures { KeyOf numbers.now names.now r.0 result }
{
    let n = tables::id_of(numbers, r);
    if u64::from(n.0) == limits::NO_NUMBER {
        return None;
    }
    let slot = tables::slot_of(names, n);
    if !is_id(name_in(slot)) {
        return None;
    }
    Some(key_of(slot))
}

// Slots that end in zeros are equal if their names are.
fn met(numbers: &[u64], names: &[u8], heads: &[u8], links: &[u8], r: Row, key: usize) -> Asked
    requires { Turn numbers.now names.now heads.now links.now r.0 key }
    ensures { Met numbers.now names.now r.0 result }
{
    let mut x = heads[key];
    for e in 0..MOST_OF_A_KEY {
        if x == 0 {
            return Asked::New;
        }
        let own = tables::slot_of(names, tables::id_of(numbers, r));
        if names::equal(own, tables::slot_of(names, tables::id_of(numbers, Row(x)))) {
            return Asked::Twice;
        }
        x = links[x as usize];
    }
    Asked::Many
}

// Ids of different keys differ, and few have one key.
pub fn ids_fit(numbers: &[u64], names: &[u8]) -> bool
    requires { Slots numbers.now names.now }
    ensures { result ≡ all (id_fits numbers.now names.now) (from (row_count numbers.now) 0) }
{
    let n = tables::row_count(numbers);
    if !is_id_of(numbers, names, Row(0)) {
        return false;
    }
    let mut heads = [0u8; KEYS];
    let mut links = [0u8; 256];
    for i in 1..n {
        let r = Row(i as u8);
        let Some(key) = id_key(numbers, names, r) else {
            return false;
        };
        match met(numbers, names, &heads, &links, r, key) {
            Asked::New => {}
            Asked::Twice => return false,
            Asked::Many => return ids_differ(numbers, names),
        }
        links[i as usize] = heads[key];
        heads[key] = r.0;
    }
    true
}
