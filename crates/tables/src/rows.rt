// What rule 1 lets one read of a row, and of a list of rows.
ghost use Rattle.std.specs.Prelude.{◌≡◌, get_or};
ghost use Rattle.definition.specs.Rows.{union};
ghost use Rattle.rowset.specs.Member.{rows_of};
ghost use Rattle.definition.specs.Tables.{reference_count, row_cell, reference_cell, kind_at, parent_at, list_at, references_at};
ghost use Rattle.tables.specs.Ranges.{CellOfRow, ReferenceIn, RowIn, HasParent, ReferencesIn, RowsIn, RowInList};
ghost use Rattle.tables.specs.Parts.{Listed, RowOf, IdOf};

use crate::columns;
use crate::header::reference_base;
use definition::Kind;
use numbers::{NameNumber, Row};
use rowset::RowSet;

pub fn row_cell(numbers: &[u64], r: Row, column: usize) -> u64
    requires { CellOfRow numbers.now r.0 column }
    ensures { result ≡ row_cell numbers.now r.0 column }
{
    let at = columns::HEADER + r.0 as usize * columns::ROW_WIDTH + column;
    numbers[at]
}

pub fn reference_cell(numbers: &[u64], k: u64) -> u64
    requires { ReferenceIn numbers.now k }
    ensures { result ≡ reference_cell numbers.now k }
{
    let at = reference_base(numbers) + k as usize;
    numbers[at]
}

pub fn kind_of(numbers: &[u64], r: Row) -> Kind
    requires { RowIn numbers.now r.0 }
    ensures { result ≡ kind_at numbers.now r.0 }
{
    Kind::from(row_cell(numbers, r, columns::KIND))
}

// The number in the parent's column: a climb goes on while it is smaller than the row's own.
pub fn parent_of(numbers: &[u64], r: Row) -> u64
    requires { RowIn numbers.now r.0 }
    ensures { result ≡ parent_at numbers.now r.0 }
{
    row_cell(numbers, r, columns::PARENT)
}

// The parent of a row that has one.
pub fn parent_row(numbers: &[u64], r: Row) -> Row
    requires { HasParent numbers.now r.0 }
    ensures { RowOf numbers.now (parent_at numbers.now r.0) result.0 }
{
    Row(parent_of(numbers, r) as u8)
}

// The number of a row's id, or none.
pub fn id_of(numbers: &[u64], r: Row) -> NameNumber
    requires { RowIn numbers.now r.0 }
    ensures { IdOf numbers.now r.0 result.0 }
{
    NameNumber(row_cell(numbers, r, columns::ID) as u16)
}

// A part of the references, and of the descriptors.
pub fn references_part(numbers: &[u64], start: u64, count: u64) -> &[u64]
    requires { ReferencesIn numbers.now start count }
    ensures { Listed (RowsIn numbers.now) count (references_at numbers.now start count) result.now }
{
    let from = reference_base(numbers) + start as usize;
    let to = from + count as usize;
    &numbers[from..to]
}

// The initial or default list of a row.
pub fn list_of(numbers: &[u64], r: Row) -> &[u64]
    requires { RowIn numbers.now r.0 }
    ensures { Listed (RowsIn numbers.now) (reference_count numbers.now) (list_at numbers.now r.0) result.now }
{
    let start = row_cell(numbers, r, columns::LIST);
    let count = row_cell(numbers, r, columns::LIST + 1);
    references_part(numbers, start, count)
}

// A member of a list of rows, and of descriptors.
pub fn row_at(numbers: &[u64], list: &[u64], k: usize) -> Row
    requires { RowInList numbers.now list.now k }
    ensures { RowOf numbers.now (get_or list.now k 0) result.0 }
{
    Row(list[k] as u8)
}

// The set with the rows of a list.
pub fn with_rows(numbers: &[u64], set: RowSet, list: &[u64]) -> RowSet
    requires { RowsIn numbers.now list.now }
    ensures { rows_of result ≡ union (rows_of set) list.now }
{
    let mut all = set;
    for k in 0..list.len() {
        all = all.with(row_at(numbers, list, k));
    }
    all
}
