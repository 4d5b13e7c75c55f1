// The start tag of a row: its element's name and its attributes.
ghost use Rattle.definition.specs.Chart.{kind_no};
ghost use Rattle.reading.specs.Layout.{content, row_back};
ghost use Rattle.reading.specs.Print.{kind_name};
ghost use Rattle.spell.specs.Laid.{Laid};
ghost use Rattle.spell.specs.Ready.{RowReady};
ghost use Rattle.elements.specs.Starts.{root_text, deep_text, id_text, start_text};

use crate::lists::lay_initial;
use definition::Kind;
use numbers::Row;
use spell::parts::{lay_byte, lay_part};
use spell::values::lay_name;
use tables::{columns, limits};

// The name of the element of a row of this kind; both histories are of one name.
pub fn lay_kind(kind: Kind, out: &mut [u8], at: usize) -> usize
    ensures { Laid (kind_name (kind_no kind)) out.old at out.new result }
{
    match kind {
        Kind::Root => lay_part(b"scxml", out, at),
        Kind::State => lay_part(b"state", out, at),
        Kind::Parallel => lay_part(b"parallel", out, at),
        Kind::Final => lay_part(b"final", out, at),
        Kind::Shallow | Kind::Deep => lay_part(b"history", out, at),
    }
}

// What the root alone states.
fn lay_root(kind: Kind, out: &mut [u8], at: usize) -> usize
    ensures { Laid (root_text (kind_no kind)) out.old at out.new result }
{
    if !kinds::is_root(kind) {
        return at;
    }
    lay_part(
        b" xmlns=\"http://www.w3.org/2005/07/scxml\" version=\"1.0\"",
        out,
        at,
    )
}

// The type of a history, if it is not the default.
fn lay_deep(kind: Kind, out: &mut [u8], at: usize) -> usize
    ensures { Laid (deep_text (kind_no kind)) out.old at out.new result }
{
    match kind {
        Kind::Deep => lay_part(b" type=\"deep\"", out, at),
        _ => at,
    }
}

fn lay_row_id(numbers: &[u64], names: &[u8], r: Row, out: &mut [u8], at: usize) -> usize
    requires { RowReady numbers.now names.now r.0 }
    ensures { Laid (id_text (row_back numbers.now names.now r.0)) out.old at out.new result }
{
    let n = tables::row_cell(numbers, r, columns::ID);
    if n == limits::NO_NUMBER {
        return at;
    }
    let opened = lay_part(b" id=\"", out, at);
    let named = lay_name(names, n, out, opened);
    lay_byte(b'"', out, named)
}

// The tag without its end, of which what is inside decides.
pub fn lay_start(numbers: &[u64], names: &[u8], r: Row, out: &mut [u8], at: usize) -> usize
    requires { RowReady numbers.now names.now r.0 }
    ensures { Laid (start_text (content numbers.now names.now).rows (row_back numbers.now names.now r.0)) out.old at out.new result }
{
    let kind = tables::kind_of(numbers, r);
    let begun = lay_byte(b'<', out, at);
    let named = lay_kind(kind, out, begun);
    let rooted = lay_root(kind, out, named);
    let known = lay_row_id(numbers, names, r, out, rooted);
    let listed = lay_initial(numbers, names, r, out, known);
    lay_deep(kind, out, listed)
}
