// Lists of names with one space between, and the attribute that a list is the value of.
ghost use Rattle.std.specs.Prelude.{map};
ghost use Rattle.reading.specs.Print.{spaced, given};
ghost use Rattle.spell.specs.Laid.{Laid};
ghost use Rattle.spell.specs.Lists.{gap, item, ItemReady, ItemsReady, ListReady};

use crate::parts::{lay_byte, lay_part};
use crate::values::{lay_id, lay_name};

// What the numbers of a list are those of: names, or rows, which stand by their ids.
#[derive(Clone, Copy, PartialEq, Eq)]
pub enum Items {
    Names,
    Rows,
}

// The name of number x, or the id of row x.
fn lay_item(numbers: &[u64], names: &[u8], items: Items, x: u64, out: &mut [u8], at: usize) -> usize
    requires { ItemReady numbers.now names.now items x }
    ensures { Laid (item numbers.now names.now items x) out.old at out.new result }
{
    match items {
        Items::Names => lay_name(names, x, out, at),
        Items::Rows => lay_id(numbers, names, x, out, at),
    }
}

// The space before item k: none before the first.
fn lay_gap(k: usize, out: &mut [u8], at: usize) -> usize
    ensures { Laid (gap k) out.old at out.new result }
{
    if k == 0 {
        return at;
    }
    lay_byte(b' ', out, at)
}

fn lay_items(
    numbers: &[u64],
    names: &[u8],
    items: Items,
    list: &[u64],
    out: &mut [u8],
    at: usize,
) -> usize
    requires { ItemsReady numbers.now names.now items list.now }
    ensures { Laid (spaced (map (item numbers.now names.now items) list.now)) out.old at out.new result }
{
    let mut next = at;
    for (k, x) in list.iter().enumerate() {
        let begun = lay_gap(k, out, next);
        next = lay_item(numbers, names, items, *x, out, begun);
    }
    next
}

// The attribute of this word, if the list names anything.
pub fn lay_list(
    numbers: &[u64],
    names: &[u8],
    word: &[u8],
    items: Items,
    list: &[u64],
    out: &mut [u8],
    at: usize,
) -> usize
    requires { ListReady numbers.now names.now items list.now }
    ensures { Laid (given word.now (spaced (map (item numbers.now names.now items) list.now))) out.old at out.new result }
{
    if list.is_empty() {
        return at;
    }
    let begun = lay_part(word, out, at);
    let opened = lay_byte(b'"', out, begun);
    let listed = lay_items(numbers, names, items, list, out, opened);
    lay_byte(b'"', out, listed)
}
