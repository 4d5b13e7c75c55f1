// What the values of a tag's attributes say, as the numbers of the tables: the attributes are found by their words (crate tags), xmlns 24 to sendid 34.
ghost use Rattle.std.specs.Prelude.{◌≡◌, cond};
ghost use Rattle.reading.specs.Faults.{plain, decimal};
ghost use Rattle.reading.specs.Content.{place_of, row_in};
ghost use Rattle.tags.specs.Cells.{stated_in};
ghost use Rattle.values.specs.Ids.{ids_from};
ghost use Rattle.walks.specs.Told.{value_at, PlaceRoom, DecimalRoom, CondRoom, CondAtRoom};

use find::decimal_of;
use tags::{is_stated, value_from, value_to};
use values::conditions::condition_in;
use values::noted::place_of;

// The place of the value among the names.
pub fn place_at(text: &[u8], cells: &[u16], names: &[u16], n: usize, word: usize) -> u64
    requires { PlaceRoom text.now cells.now names.now n word }
    ensures { result ≡ place_of (value_at text.now cells.now word) (ids_from text.now names.now n 0) }
{
    let from = value_from(cells, word);
    let to = value_to(cells, word);
    place_of(text, names, n, &text[from..to]) as u64
}

// The same, or 65,535 for an attribute that is not stated.
pub fn place_or_none(text: &[u8], cells: &[u16], names: &[u16], n: usize, word: usize) -> u64
    requires { PlaceRoom text.now cells.now names.now n word }
    ensures { result ≡ cond (stated_in cells.now word) (place_of (value_at text.now cells.now word) (ids_from text.now names.now n 0)) 65535 }
{
    let stated = is_stated(cells, word);
    if !stated {
        return 65535;
    }
    place_at(text, cells, names, n, word)
}

// A decimal of at most so much; 0 for an attribute that is not stated.
pub fn decimal_at(text: &[u8], cells: &[u16], word: usize, most: u64) -> u64
    requires { DecimalRoom text.now cells.now word most }
    ensures { result ≡ decimal (plain (value_at text.now cells.now word)) }
{
    let stated = is_stated(cells, word);
    if !stated {
        return 0;
    }
    let from = value_from(cells, word);
    let to = value_to(cells, word);
    decimal_of(&text[from..to], most)
}

// The row that a value of cond names.
fn row_in(text: &[u8], ids: &[u16], n: usize, value: &[u8]) -> u64
    requires { CondRoom text.now ids.now n value.now }
    ensures { result ≡ row_in (ids_from text.now ids.now n 0) value.now }
{
    match condition_in(value) {
        None => (place_of(text, ids, n, &value[0..0]) + 1) as u64,
        Some(name) => (place_of(text, ids, n, &value[name.from..name.to]) + 1) as u64,
    }
}

// The row that the tag's cond names.
pub fn row_at(text: &[u8], cells: &[u16], ids: &[u16], n: usize) -> u64
    requires { CondAtRoom text.now cells.now ids.now n }
    ensures { result ≡ row_in (ids_from text.now ids.now n 0) (value_at text.now cells.now 30) }
{
    let from = value_from(cells, 30);
    let to = value_to(cells, 30);
    row_in(text, ids, n, &text[from..to])
}
