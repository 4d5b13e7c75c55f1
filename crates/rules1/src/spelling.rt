// Whether each row's id is one by itself.
ghost use Rattle.std.specs.Prelude.{◌≡◌, true, ◌<◌};
ghost use Rattle.definition.specs.Rows.{all, from};
ghost use Rattle.definition.specs.Names.{is_descriptor, is_id};
ghost use Rattle.definition.specs.Tables.{row_count};
ghost use Rattle.rules1.specs.Ids.{Slots, is_id_of};
ghost use Rattle.rules1.specs.Plain.{starts_id};

use numbers::Row;
use tables::limits;

// "every row's id has at most 52" bytes
pub const MOST_ID: usize = 52;

// A letter or "_", which an id begins with.
fn starts_id(b: u8) -> bool
    ensures { result ≡ starts_id b }
{
    names::is_letter(b) | (b == b'_')
}

// Whether a descriptor is an id. It is a name unless a star ends it: no byte between is read again.
pub fn is_id(descriptor: &[u8]) -> bool
    requires { is_descriptor descriptor.now ≡ true }
    ensures { result ≡ is_id descriptor.now }
{
    let n = descriptor.len();
    if n == 0 {
        return false;
    }
    let last = descriptor[n - 1];
    (last != b'*') & starts_id(descriptor[0]) & (n <= MOST_ID)
}

// Whether the row's own id is one. The root has none.
pub fn is_id_of(numbers: &[u64], names: &[u8], r: Row) -> bool
    requires { Slots numbers.now names.now × (r.0 < row_count numbers.now) }
    ensures { result ≡ is_id_of numbers.now names.now r.0 }
{
    let n = tables::id_of(numbers, r);
    let none = n.0 as u64 == limits::NO_NUMBER;
    if r.0 == 0 {
        return none;
    }
    if none {
        return false;
    }
    is_id(names::name_of(tables::slot_of(names, n)))
}

pub fn are_ids(numbers: &[u64], names: &[u8]) -> bool
    requires { Slots numbers.now names.now }
    ensures { result ≡ all (is_id_of numbers.now names.now) (from (row_count numbers.now) 0) }
{
    (0..tables::row_count(numbers)).all(|i| is_id_of(numbers, names, Row(i as u8)))
}
