// The rows in document order.
ghost use Rattle.std.specs.Prelude.{◌≡◌, cond};
ghost use Rattle.reading.specs.Layout.{content, row_back};
ghost use Rattle.reading.specs.Print.{print};
ghost use Rattle.spell.specs.Laid.{Laid};
ghost use Rattle.spell.specs.Ready.{Ready};
ghost use Rattle.write_text.specs.Inner.{InnerReady};
ghost use Rattle.write_text.specs.Rows.{row_text, TurnReady, Turned};

use crate::ends::lay_ends;
use crate::inner::{is_bare, lay_inner};
use crate::runs::run_end;
use elements::starts::lay_start;
use numbers::Row;
use spell::parts::{lay_byte, lay_part};
use tables::limits;

// The start tag and what stands before the child rows; a bare row is one tag.
fn lay_row(
    numbers: &[u64],
    names: &[u8],
    r: Row,
    t: u64,
    end: u64,
    bare: bool,
    out: &mut [u8],
    at: usize,
) -> usize
    requires { InnerReady numbers.now names.now r.0 t end }
    ensures { Laid (row_text numbers.now names.now r.0 bare) out.old at out.new result }
{
    let begun = lay_start(numbers, names, r, out, at);
    if bare {
        return lay_part(b"/>", out, begun);
    }
    let opened = lay_byte(b'>', out, begun);
    lay_inner(numbers, names, r, t, end, out, opened)
}

// Which open row is inmost behind row i: the one around a bare row.
fn open_behind(bare: bool, around: u64, i: u64) -> u64
    ensures { result ≡ cond bare around i }
{
    if bare { around } else { i }
}

// Where the text goes on behind a row, the inmost row that is open then, and the first transition of the rows behind it.
#[derive(Clone, Copy)]
struct Next {
    at: usize,
    inmost: u64,
    t: u64,
}

// The end tags before row i, and the row; the transitions before t are of rows before it.
fn lay_next(
    numbers: &[u64],
    names: &[u8],
    i: u64,
    inmost: u64,
    t: u64,
    out: &mut [u8],
    at: usize,
) -> Next
    requires { TurnReady numbers.now names.now i t }
    ensures { Turned numbers.now names.now i inmost t out.old at out.new result }
{
    let r = Row(i as u8);
    let around = tables::parent_of(numbers, r);
    let closed = lay_ends(numbers, inmost, around, out, at);
    let end = run_end(numbers, i, t);
    let bare = is_bare(numbers, r, t, end);
    let next = lay_row(numbers, names, r, t, end, bare, out, closed);
    Next {
        at: next,
        inmost: open_behind(bare, around, i),
        t: end,
    }
}

// The whole text over the place's beginning.
pub fn lay_rows(numbers: &[u64], names: &[u8], out: &mut [u8]) -> usize
    requires { Ready numbers.now names.now }
    ensures { Laid (print (content numbers.now names.now)) out.old 0 out.new result }
{
    let n = tables::row_count(numbers);
    let mut at = 0;
    let mut inmost = limits::NO_NUMBER;
    let mut t = 0;
    for i in 0..n {
        let next = lay_next(numbers, names, i, inmost, t, out, at);
        at = next.at;
        inmost = next.inmost;
        t = next.t;
    }
    lay_ends(numbers, inmost, limits::NO_NUMBER, out, at)
}
