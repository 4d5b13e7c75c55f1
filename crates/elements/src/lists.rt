// The list of a row: an attribute, an initial element, or a history's transition.
ghost use Rattle.reading.specs.Layout.{content, row_back};
ghost use Rattle.reading.specs.Print.{default_text, list_text, initial_text};
ghost use Rattle.spell.specs.Laid.{Laid};
ghost use Rattle.spell.specs.Ready.{RowReady};
ghost use Rattle.elements.specs.Lists.{DefaultReady};

use numbers::Row;
use spell::blocks::lay_inside;
use spell::lists::{Items, lay_list};
use spell::parts::lay_part;
use tables::columns;

// The transition to a list that is not empty, with the list's block.
fn lay_default(numbers: &[u64], names: &[u8], r: Row, out: &mut [u8], at: usize) -> usize
    requires { DefaultReady numbers.now names.now r.0 }
    ensures { Laid (default_text (content numbers.now names.now).rows (row_back numbers.now names.now r.0)) out.old at out.new result }
{
    let begun = lay_part(b"<transition", out, at);
    let list = tables::list_of(numbers, r);
    let aimed = lay_list(numbers, names, b" target=", Items::Rows, list, out, begun);
    let start = tables::row_cell(numbers, r, columns::LIST_BLOCK);
    let count = tables::row_cell(numbers, r, columns::LIST_BLOCK + 1);
    lay_inside(numbers, names, b"transition", start, count, out, aimed)
}

// A list that is not empty, where it stands as an element: always in a history, elsewhere if it has a block.
fn lay_stated(numbers: &[u64], names: &[u8], r: Row, out: &mut [u8], at: usize) -> usize
    requires { DefaultReady numbers.now names.now r.0 }
    ensures { Laid (list_text (content numbers.now names.now).rows (row_back numbers.now names.now r.0)) out.old at out.new result }
{
    if kinds::is_history(tables::kind_of(numbers, r)) {
        return lay_default(numbers, names, r, out, at);
    }
    if tables::row_cell(numbers, r, columns::LIST_BLOCK + 1) == 0 {
        return at;
    }
    let begun = lay_part(b"<initial>", out, at);
    let held = lay_default(numbers, names, r, out, begun);
    lay_part(b"</initial>", out, held)
}

pub fn lay_row_list(numbers: &[u64], names: &[u8], r: Row, out: &mut [u8], at: usize) -> usize
    requires { RowReady numbers.now names.now r.0 }
    ensures { Laid (list_text (content numbers.now names.now).rows (row_back numbers.now names.now r.0)) out.old at out.new result }
{
    if tables::row_cell(numbers, r, columns::LIST + 1) == 0 {
        return at;
    }
    lay_stated(numbers, names, r, out, at)
}

// The list where it stands as an attribute.
pub fn lay_initial(numbers: &[u64], names: &[u8], r: Row, out: &mut [u8], at: usize) -> usize
    requires { RowReady numbers.now names.now r.0 }
    ensures { Laid (initial_text (content numbers.now names.now).rows (row_back numbers.now names.now r.0)) out.old at out.new result }
{
    if tables::row_cell(numbers, r, columns::LIST + 1) == 0 {
        return at;
    }
    if kinds::is_history(tables::kind_of(numbers, r)) {
        return at;
    }
    if tables::row_cell(numbers, r, columns::LIST_BLOCK + 1) != 0 {
        return at;
    }
    let list = tables::list_of(numbers, r);
    lay_list(numbers, names, b" initial=", Items::Rows, list, out, at)
}
