// The first fault of a text of the grammar: "12 with the byte offset of the first fault".
ghost use Rattle.std.specs.Prelude.{◌≡◌, not, ◌+◌, ◌≤◌, length};
ghost use Rattle.marks.specs.Marks.{value_from, value_to};
ghost use Rattle.reading.specs.Faults.{fault_if, condition_fault, part_faults, least};
ghost use Rattle.values.specs.Items.{found_of};
ghost use Rattle.values.specs.Ids.{Noted, ids_from};
ghost use Rattle.gather.specs.Parts.{part_at};
ghost use Rattle.gather.specs.Ids.{Gathered};
ghost use Rattle.gather.specs.Faults.{sooner, missing, tag_fault, pending_after, stated_after, Inside, Searched};

use crate::ids::is_row;
use marks::{Mark, begin, is_mark, next_mark};
use values::conditions::condition_in;
use values::{is_bad, is_decimal, is_namespace, is_type, is_version, item_fault};

// The one with the smaller offset.
fn sooner(a: Option<usize>, b: Option<usize>) -> Option<usize>
    ensures { result ≡ sooner a b }
{
    match (a, b) {
        (None, _) => b,
        (Some(_), None) => a,
        (Some(x), Some(y)) => Some(x.min(y)),
    }
}

fn fault_unless(ok: bool, at: usize) -> Option<usize>
    ensures { result ≡ found_of (least (fault_if (not ok) at)) }
{
    if ok {
        return None;
    }
    Some(at)
}

// The value of cond, whose first byte has the offset from.
fn condition_fault(text: &[u8], ids: &[u16], n: usize, value: &[u8], from: usize) -> Option<usize>
    requires { (from + length value.now ≤ 32768) × Noted text.now ids.now n }
    ensures { result ≡ found_of (least (condition_fault (ids_from text.now ids.now n 0) from value.now)) }
{
    match condition_in(value) {
        None => Some(from),
        Some(name) => {
            let bad = is_bad(text, ids, n, true, &value[name.from..name.to]);
            fault_unless(!bad, from + name.from)
        }
    }
}

// The first fault of the value between from and to, of an attribute's word in a tag of the element.
fn part_fault(
    text: &[u8],
    ids: &[u16],
    n: usize,
    element: u8,
    word: u8,
    from: usize,
    to: usize,
) -> Option<usize>
    requires { Inside text.now ids.now n from to }
    ensures { result ≡ found_of (least (part_faults (ids_from text.now ids.now n 0) (part_at text.now element word from to))) }
{
    let value = &text[from..to];
    if word == 24 {
        return fault_unless(is_namespace(value), from);
    }
    if word == 25 {
        return fault_unless(is_version(value), from);
    }
    if word == 28 {
        return fault_unless(is_type(element, value), from);
    }
    if word == 32 {
        return fault_unless(is_decimal(value, 65535), from);
    }
    if word == 33 {
        return fault_unless(is_decimal(value, 4294967295), from);
    }
    if word == 30 {
        return condition_fault(text, ids, n, value, from);
    }
    let refers = (word == 27) | (word == 31);
    item_fault(text, ids, n, refers, value, from)
}

// "Every row but scxml must state an id, else 12 at its "<"."
fn missing_fault(at: usize, shape: u8, element: u8, stated: bool) -> Option<usize>
    ensures { result ≡ missing at shape element stated }
{
    let row = is_row(shape, element);
    fault_unless(!row | stated, at)
}

// The first fault of the tag that the mark ends, if it ends one; pending is that of its values.
fn tag_fault(m: Mark, stated: bool, pending: Option<usize>) -> Option<usize>
    ensures { result ≡ tag_fault m stated pending }
{
    match m {
        Mark::Tagged(at, shape, element) => {
            sooner(missing_fault(at, shape, element, stated), pending)
        }
        _ => None,
    }
}

// The first fault of the values of the tag that goes on behind the mark.
fn pending_after(
    text: &[u8],
    ids: &[u16],
    n: usize,
    pending: Option<usize>,
    m: Mark,
) -> Option<usize>
    requires { Inside text.now ids.now n (value_from m) (value_to m) }
    ensures { result ≡ pending_after text.now (ids_from text.now ids.now n 0) pending m }
{
    match m {
        Mark::Nothing => pending,
        Mark::Valued(e, w, a, b) => sooner(pending, part_fault(text, ids, n, e, w, a, b)),
        Mark::Tagged(_, _, _) => None,
    }
}

// Does the tag that goes on behind the mark state an id.
fn stated_after(stated: bool, m: Mark) -> bool
    ensures { result ≡ stated_after stated m }
{
    match m {
        Mark::Nothing => stated,
        Mark::Valued(_, word, _, _) => stated | (word == 26),
        Mark::Tagged(_, _, _) => false,
    }
}

// The first fault of the text: a missing id, a reference or value that does not exist, a name over 63 bytes.
pub fn first_fault(text: &[u8], levels: &mut [u8], ids: &[u16], n: usize) -> Option<usize>
    requires { Gathered text.now levels.old ids.now n }
    ensures { Searched text.now levels.new ids.now n result }
{
    let mut w = begin();
    let mut stated = false;
    let mut pending = None;
    let mut first = None;
    loop {
        let next = next_mark(text, levels, w);
        let m = next.mark;
        if !is_mark(m) {
            return first;
        }
        let here = tag_fault(m, stated, pending);
        first = sooner(first, here);
        pending = pending_after(text, ids, n, pending, m);
        stated = stated_after(stated, m);
        w = next;
    }
}
