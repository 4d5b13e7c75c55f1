// What the values of a text's attributes say (R-1): a decimal's number, whether a type is deep or internal, how many names there are. The bytes stand between the quotes.
#![tactic(auto)]

ghost use Rattle.std.specs.Prelude.{◌≡◌, true, ◌≤◌, length};
ghost use Rattle.definition.specs.Rows.{same};
ghost use Rattle.reading.specs.Faults.{plain, internal, deep, is_decimal, decimal, names_in};

use names::equal;
use scan::is_space;
use values::item_end;

// "deep"
pub fn is_deep(value: &[u8]) -> bool
    ensures { result ≡ same (plain value.now) deep }
{
    equal(value, b"deep")
}

// "internal"
pub fn is_internal(value: &[u8]) -> bool
    ensures { result ≡ same (plain value.now) internal }
{
    equal(value, b"internal")
}

// The number that a decimal of at most so much says.
pub fn decimal_of(value: &[u8], most: u64) -> u64
    requires { (most ≤ 4294967295) × (is_decimal most (plain value.now) ≡ true) }
    ensures { result ≡ decimal (plain value.now) }
{
    let mut n: u64 = 0;
    for b in value {
        n = n * 10 + u64::from(*b - b'0');
    }
    n
}

// How many names a value has.
pub fn count_items(value: &[u8]) -> usize
    ensures { result ≡ length (names_in value.now) }
{
    let mut n: usize = 0;
    let mut i = 0;
    // Kept: no `for` is plainer, since a turn goes over a space or over a whole name.
    while i < value.len() {
        let space = is_space(value[i]);
        if space {
            i += 1;
            continue;
        }
        n += 1;
        i = item_end(value, i);
    }
    n
}
