// Names, ids of rows, and conditions.
ghost use Rattle.std.specs.Prelude.{◌≡◌, ◌++◌};
ghost use Rattle.definition.specs.Tables.{name_at, row_cell};
ghost use Rattle.tables.specs.Ranges.{CellOfRow};
ghost use Rattle.reading.specs.Layout.{content};
ghost use Rattle.reading.specs.Print.{id_of, condition};
ghost use Rattle.spell.specs.Laid.{Laid};
ghost use Rattle.spell.specs.Ready.{NameReady, RowReady};

use crate::parts::lay_part;
use names::name_of;
use numbers::{NameNumber, Row};
use tables::{columns, limits};

pub fn lay_name(names: &[u8], n: u64, out: &mut [u8], at: usize) -> usize
    requires { NameReady names.now n }
    ensures { Laid (name_at names.now n) out.old at out.new result }
{
    let slot = tables::slot_of(names, NameNumber(n as u16));
    lay_part(name_of(slot), out, at)
}

// A cell of row i.
pub fn row_number(numbers: &[u64], i: u64, column: usize) -> u64
    requires { CellOfRow numbers.now i column }
    ensures { result ≡ row_cell numbers.now i column }
{
    tables::row_cell(numbers, Row(i as u8), column)
}

pub fn lay_id(numbers: &[u64], names: &[u8], i: u64, out: &mut [u8], at: usize) -> usize
    requires { RowReady numbers.now names.now i }
    ensures { Laid (id_of (content numbers.now names.now).rows i) out.old at out.new result }
{
    let n = row_number(numbers, i, columns::ID);
    if n == limits::NO_NUMBER {
        return at;
    }
    lay_name(names, n, out, at)
}

// What stands before a condition, the condition In(row i), and what stands behind it.
pub fn lay_condition(
    numbers: &[u64],
    names: &[u8],
    before: &[u8],
    i: u64,
    behind: &[u8],
    out: &mut [u8],
    at: usize,
) -> usize
    requires { RowReady numbers.now names.now i }
    ensures { Laid (before.now ++ condition (content numbers.now names.now).rows i ++ behind.now) out.old at out.new result }
{
    let begun = lay_part(before, out, at);
    let opened = lay_part(b" cond=\"In('", out, begun);
    let named = lay_id(numbers, names, i, out, opened);
    let closed = lay_part(b"')\"", out, named);
    lay_part(behind, out, closed)
}
