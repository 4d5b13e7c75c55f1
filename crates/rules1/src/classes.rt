// Equal ids in time that grows with their bytes alone, whatever they are: for a chart in which many ids have one key.
ghost use Rattle.std.specs.Prelude.{◌≡◌, ◌+◌, ◌<◌, ◌≤◌, length};
ghost use Rattle.definition.specs.Rows.{all, from};
ghost use Rattle.definition.specs.Tables.{row_count};
ghost use Rattle.definition.specs.Rules.{id_fits};
ghost use Rattle.rules1.specs.Ids.{Slots, AllIds};
ghost use Rattle.rules1.specs.Splits.{Named, Split, first_of};
ghost use Rattle.rules1.specs.Classes.{Bytes, Classes, is_alone};

use crate::spelling::{MOST_ID, are_ids};
use numbers::Row;

// Rows of one class and one half of a byte share a cell.
const CELLS: usize = 4096;

fn first_of(found: u8, own: u8) -> u8
    ensures { result ≡ first_of found own }
{
    if found == 0 {
        return own;
    }
    found
}

// The classes split by a half of a byte of each row's id, the one from bit shift on: each is named by its first row.
fn split(class: &[u8], bytes: &[u8], shift: u8, n: usize) -> [u8; 256]
    requires { (length class.now ≡ 256) × (length bytes.now ≡ 256) × (n ≤ 256) × (shift < 8) × Named class.now n }
    ensures { Split class.now bytes.now shift n result }
{
    let mut firsts = [0u8; CELLS];
    let mut out = [0u8; 256];
    for i in 1..n {
        let cell = class[i] as usize * 16 + ((bytes[i] >> shift) % 16) as usize;
        let first = first_of(firsts[cell], i as u8);
        firsts[cell] = first;
        out[i] = first;
    }
    out
}

// Byte p of each row's id.
fn bytes_at(numbers: &[u64], names: &[u8], p: usize) -> [u8; 256]
    requires { AllIds numbers.now names.now × (p < 64) }
    ensures { Bytes numbers.now names.now p (row_count numbers.now) result }
{
    let n = tables::row_count(numbers) as usize;
    let mut bytes = [0u8; 256];
    for i in 1..n {
        let slot = tables::slot_of(names, tables::id_of(numbers, Row(i as u8)));
        bytes[i] = slot[p];
    }
    bytes
}

// The classes by p bytes, split by byte p.
fn next_classes(numbers: &[u64], names: &[u8], class: &[u8], p: usize) -> [u8; 256]
    requires { AllIds numbers.now names.now × (p < 64) × Classes numbers.now names.now p class.now }
    ensures { Classes numbers.now names.now (p + 1) result }
{
    let n = tables::row_count(numbers) as usize;
    let bytes = bytes_at(numbers, names, p);
    let high = split(class, &bytes, 4, n);
    split(&high, &bytes, 0, n)
}

fn classes_of(numbers: &[u64], names: &[u8]) -> [u8; 256]
    requires { AllIds numbers.now names.now }
    ensures { Classes numbers.now names.now 52 result }
{
    let mut class = [1u8; 256];
    for p in 0..MOST_ID {
        class = next_classes(numbers, names, &class, p);
    }
    class
}

// Whether each row is the first of its class.
fn are_alone(class: &[u8], n: usize) -> bool
    requires { (length class.now ≡ 256) × (1 ≤ n) × (n ≤ 256) }
    ensures { result ≡ all (is_alone class.now) (from n 0) }
{
    (1..n).all(|i| usize::from(class[i]) == i)
}

// Whether every row's id is one and all differ.
pub fn ids_differ(numbers: &[u64], names: &[u8]) -> bool
    requires { Slots numbers.now names.now }
    ensures { result ≡ all (id_fits numbers.now names.now) (from (row_count numbers.now) 0) }
{
    if !are_ids(numbers, names) {
        return false;
    }
    let class = classes_of(numbers, names);
    are_alone(&class, tables::row_count(numbers) as usize)
}
