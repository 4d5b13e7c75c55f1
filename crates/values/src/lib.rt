// The values of attributes (R-1, 1.5 and 1.10): which exist, and where a name in one is too long. Each function takes the bytes between the quotes.
// No value that exists has an entity in it, but for cond: what an entity stands for is in none of them (specs/Plain).
#![tactic(auto)]

ghost use Rattle.std.specs.Prelude.{◌≡◌, true, ◌+◌, ◌*◌, ◌-◌, ◌≤◌, ◌<◌, length, get_or, take, drop};
ghost use Rattle.definition.specs.Rows.{same};
ghost use Rattle.reading.specs.Faults.{plain, namespace, version_text, types_of, is_among, is_decimal_digit, is_decimal};
ghost use Rattle.values.specs.Items.{spread, found_of, is_bad, item_faults};
ghost use Rattle.values.specs.Ids.{Noted, ids_from};

use crate::noted::is_id;
use names::equal;
use scan::is_space;

pub mod conditions;
pub mod noted;

// "http://www.w3.org/2005/07/scxml"
pub fn is_namespace(value: &[u8]) -> bool
    ensures { result ≡ same (plain value.now) namespace }
{
    equal(value, b"http://www.w3.org/2005/07/scxml")
}

// "1.0"
pub fn is_version(value: &[u8]) -> bool
    ensures { result ≡ same (plain value.now) version_text }
{
    equal(value, b"1.0")
}

// The type of a history (element 4) or of a transition.
// Kept: elements are the numbers of the definition (Rattle.grammar.specs.Tables), here and where the walks hand them on.
pub fn is_type(element: u8, value: &[u8]) -> bool
    ensures { result ≡ is_among (plain value.now) (types_of element) }
{
    if element == 4 {
        return equal(value, b"shallow") | equal(value, b"deep");
    }
    equal(value, b"external") | equal(value, b"internal")
}

fn is_digit(b: u8) -> bool
    ensures { result ≡ is_decimal_digit b }
{
    (b'0' <= b) & (b <= b'9')
}

// The number n with one more digit.
fn with_digit(n: u64, b: u8) -> u64
    requires { (n ≤ 4294967295) × (is_decimal_digit b ≡ true) }
    ensures { result ≡ n * 10 + (b - 48) }
{
    n * 10 + u64::from(b - b'0')
}

// "a decimal host action from 0 to 65,535"; a delay has another limit. The number stops growing once it is too large.
pub fn is_decimal(value: &[u8], most: u64) -> bool
    requires { most ≤ 4294967295 }
    ensures { result ≡ is_decimal most (plain value.now) }
{
    if value.len() < 1 {
        return false;
    }
    let mut n: u64 = 0;
    for i in 0..value.len() {
        let b = value[i];
        let digit = is_digit(b);
        if !digit {
            return false;
        }
        let m = with_digit(n, b);
        if most < m {
            return false;
        }
        n = m;
    }
    true
}

// Where the name that stands at i ends: at the next white space or at the value's end.
pub fn item_end(value: &[u8], i: usize) -> usize
    requires { i ≤ length value.now }
    ensures { result ≡ i + spread (drop i value.now) }
{
    for j in i..value.len() {
        if is_space(value[j]) {
            return j;
        }
    }
    value.len()
}

// "a name or descriptor over 63 bytes", or, if the name refers to a row, "A reference to an id .. that does not exist".
pub fn is_bad(text: &[u8], ids: &[u16], n: usize, refers: bool, name: &[u8]) -> bool
    requires { Noted text.now ids.now n }
    ensures { result ≡ is_bad refers (ids_from text.now ids.now n 0) name.now }
{
    if 63 < name.len() {
        return true;
    }
    if refers {
        return !is_id(text, ids, n, name);
    }
    false
}

// Where the first such name of a value stands, if there is one; the value's first byte has the offset from.
pub fn item_fault(
    text: &[u8],
    ids: &[u16],
    n: usize,
    refers: bool,
    value: &[u8],
    from: usize,
) -> Option<usize>
    requires { (from + length value.now ≤ 32768) × Noted text.now ids.now n }
    ensures { result ≡ found_of (item_faults refers (ids_from text.now ids.now n 0) from value.now) }
{
    // Kept: the index goes on by a whole name at a time, which no `for` over a range does.
    let mut i = 0;
    while i < value.len() {
        let space = is_space(value[i]);
        if space {
            i += 1;
            continue;
        }
        let j = item_end(value, i);
        let bad = is_bad(text, ids, n, refers, &value[i..j]);
        if bad {
            return Some(from + i);
        }
        i = j;
    }
    None
}
