// What stands in a row before its child rows: onentry, onexit, its list, its transitions.
ghost use Rattle.std.specs.Prelude.{◌≡◌};
ghost use Rattle.tables.specs.Ranges.{RowIn};
ghost use Rattle.reading.specs.Layout.{content, row_back};
ghost use Rattle.reading.specs.Print.{block_element, inner_text};
ghost use Rattle.spell.specs.Laid.{Laid};
ghost use Rattle.write_text.specs.Inner.{is_blank, is_bare, InnerReady, OwnBlock, own_block};

use crate::runs::lay_transitions;
use elements::lists::lay_row_list;
use numbers::Row;
use spell::blocks::lay_element;
use tables::columns;

// Whether nothing stands there; the transitions of row r are those from t on, before transition `end`.
fn is_blank(numbers: &[u64], r: Row, t: u64, end: u64) -> bool
    requires { RowIn numbers.now r.0 }
    ensures { result ≡ is_blank numbers.now r.0 t end }
{
    if tables::row_cell(numbers, r, columns::ENTRY + 1) != 0 {
        return false;
    }
    if tables::row_cell(numbers, r, columns::EXIT + 1) != 0 {
        return false;
    }
    if t != end {
        return false;
    }
    if tables::row_cell(numbers, r, columns::LIST + 1) == 0 {
        return true;
    }
    if kinds::is_history(tables::kind_of(numbers, r)) {
        return false;
    }
    tables::row_cell(numbers, r, columns::LIST_BLOCK + 1) == 0
}

// Whether the row is written as one tag: it has no child either.
pub fn is_bare(numbers: &[u64], r: Row, t: u64, end: u64) -> bool
    requires { RowIn numbers.now r.0 }
    ensures { result ≡ is_bare numbers.now r.0 t end }
{
    if !is_blank(numbers, r, t, end) {
        return false;
    }
    let next = r.0 as u64 + 1;
    if tables::row_count(numbers) <= next {
        return true;
    }
    tables::parent_of(numbers, Row(next as u8)) != r.0 as u64
}

// The element of this name with the block whose start stands in this column.
fn lay_own_block(
    numbers: &[u64],
    names: &[u8],
    name: &[u8],
    r: Row,
    column: usize,
    out: &mut [u8],
    at: usize,
) -> usize
    requires { OwnBlock numbers.now names.now r.0 column }
    ensures { Laid (block_element (content numbers.now names.now).rows name.now (own_block numbers.now names.now r.0 column)) out.old at out.new result }
{
    let start = tables::row_cell(numbers, r, column);
    let count = tables::row_cell(numbers, r, column + 1);
    lay_element(numbers, names, name, start, count, out, at)
}

pub fn lay_inner(
    numbers: &[u64],
    names: &[u8],
    r: Row,
    t: u64,
    end: u64,
    out: &mut [u8],
    at: usize,
) -> usize
    requires { InnerReady numbers.now names.now r.0 t end }
    ensures { Laid (inner_text (content numbers.now names.now) r.0 (row_back numbers.now names.now r.0)) out.old at out.new result }
{
    let entered = lay_own_block(numbers, names, b"onentry", r, columns::ENTRY, out, at);
    let exited = lay_own_block(numbers, names, b"onexit", r, columns::EXIT, out, entered);
    let listed = lay_row_list(numbers, names, r, out, exited);
    lay_transitions(numbers, names, t, end, out, listed)
}
