// The cells of a row and of a transition that only its tag knows.
ghost use Rattle.std.specs.Prelude.{◌≡◌, cond, ◌&&◌, eqb};
ghost use Rattle.definition.specs.Rows.{same};
ghost use Rattle.reading.specs.Faults.{plain, external, internal, shallow, deep};
ghost use Rattle.reading.specs.Content.{row_in};
ghost use Rattle.reading.specs.Layout.{id_cell};
ghost use Rattle.tags.specs.Cells.{stated_in};
ghost use Rattle.attribute.specs.Values.{default_of, value_in};
ghost use Rattle.values.specs.Ids.{ids_from};
ghost use Rattle.walks.specs.HeadCells.{other_of};
ghost use Rattle.walks.specs.Told.{value_at, WordRoom, PlaceRoom, CondAtRoom};

use crate::told::{place_at, row_at};
use attribute::{Default, attribute_value};
use definition::Kind;
use find::{is_deep, is_internal};
use tags::{is_stated, value_from, value_to};

// Is a tag's type, or where it states none its default, the other of the two: internal of a transition, deep of a history.
fn is_other(text: &[u8], cells: &[u16], d: Default) -> bool
    requires { WordRoom text.now cells.now 28 }
    ensures { result ≡ same (plain (value_in text.now cells.now 28 (default_of d))) (other_of d) }
{
    let value = attribute_value(text, b"externalshallow", cells, 28, d);
    match d {
        Default::External => is_internal(value),
        Default::Shallow => is_deep(value),
    }
}

// A row's kind: its element's number, but of a deep history its own.
pub fn kind_at(text: &[u8], cells: &[u16], element: u8) -> u64
    requires { WordRoom text.now cells.now 28 }
    ensures { result ≡ cond (eqb element 4 && same (plain (value_in text.now cells.now 28 shallow)) deep) 5 element }
{
    let history = element == 4;
    if !history {
        return u64::from(element);
    }
    let deep = is_other(text, cells, Default::Shallow);
    if deep {
        return u64::from(Kind::Deep);
    }
    u64::from(Kind::Shallow)
}

// The slot of a row's id; 65,535 for one without an id.
pub fn id_at(text: &[u8], cells: &[u16], slots: &[u16], n: usize) -> u64
    requires { PlaceRoom text.now cells.now slots.now n 26 }
    ensures { result ≡ id_cell (ids_from text.now slots.now n 0) (value_at text.now cells.now 26) }
{
    let from = value_from(cells, 26);
    let to = value_to(cells, 26);
    if to <= from {
        return 65535;
    }
    place_at(text, cells, slots, n, 26)
}

// The row of a transition's cond; 65,535 for one without a cond.
pub fn condition_at(text: &[u8], cells: &[u16], ids: &[u16], n: usize) -> u64
    requires { CondAtRoom text.now cells.now ids.now n }
    ensures { result ≡ cond (stated_in cells.now 30) (row_in (ids_from text.now ids.now n 0) (value_at text.now cells.now 30)) 65535 }
{
    let stated = is_stated(cells, 30);
    if !stated {
        return 65535;
    }
    row_at(text, cells, ids, n)
}

// 1 for an internal transition, 0 for another.
pub fn internal_at(text: &[u8], cells: &[u16]) -> u64
    requires { WordRoom text.now cells.now 28 }
    ensures { result ≡ cond (same (plain (value_in text.now cells.now 28 external)) internal) 1 0 }
{
    let inside = is_other(text, cells, Default::External);
    if inside {
        return 1;
    }
    0
}
