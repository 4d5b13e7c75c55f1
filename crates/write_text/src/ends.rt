// End tags of open rows. The open rows are one of them and its ancestors: the parents' cells are climbed, and nothing is kept beside the tables.
ghost use Rattle.reading.specs.Print.{close_text};
ghost use Rattle.spell.specs.Laid.{Laid};
ghost use Rattle.write_text.specs.Ends.{TreeReady, TreeRow, end_text, path_of};

use elements::starts::lay_kind;
use numbers::Row;
use spell::parts::{lay_byte, lay_part};
use spell::values::row_number;
use tables::columns;

fn lay_end(numbers: &[u64], i: u64, out: &mut [u8], at: usize) -> usize
    requires { TreeRow numbers.now i }
    ensures { Laid (end_text numbers.now i) out.old at out.new result }
{
    let begun = lay_part(b"</", out, at);
    let kind = tables::kind_of(numbers, Row(i as u8));
    let named = lay_kind(kind, out, begun);
    lay_byte(b'>', out, named)
}

// From row i outwards, up to row `to`, which stays open; a number that is no row's is no row, and has none around it.
pub fn lay_ends(numbers: &[u64], i: u64, to: u64, out: &mut [u8], at: usize) -> usize
    requires { TreeReady numbers.now }
    ensures { Laid (close_text to (path_of numbers.now i)) out.old at out.new result }
{
    let n = tables::row_count(numbers);
    let mut next = at;
    let mut j = i;
    // Kept: no `for` is plainer, since a row's parent stands in its own cells.
    while j < n {
        if j == to {
            return next;
        }
        next = lay_end(numbers, j, out, next);
        j = row_number(numbers, j, columns::PARENT);
    }
    next
}
