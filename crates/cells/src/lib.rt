// The cells of rows and transitions that say where their lists and blocks stand, by the bins that those were put into, and the tables of a content as a whole (R-1).
// Beside the code, specs/Tables has the law: a header, these cells, those of kind, parent, id, source, condition and type, and full bins are the tables of a content.
#![tactic(auto)]

ghost use Rattle.std.specs.Prelude.{◌≡◌, ◌≤◌, length};
ghost use Rattle.cells.specs.Starts.{start_in, EntriesRoom, entries_in, PartRoom, PartLaid};
ghost use Rattle.cells.specs.Parts.{CellsRoom, RowRoom, RowLaid, RowsLaid};
ghost use Rattle.cells.specs.Ends.{TransitionRoom, TransitionLaid, TransitionsLaid};
ghost use Rattle.cells.specs.Header.{HeaderLaid, CellsLaid};

pub mod totals;

// Where the bin k begins: behind the bin before it; the first one at the base.
fn start_of(next: &[u32], base: usize, k: usize) -> usize
    requires { k ≤ length next.now }
    ensures { result ≡ start_in base next.now k }
{
    if k == 0 {
        return base;
    }
    next[k - 1] as usize
}

// How many entries, of `width` cells each, stand in the bins from `from` up to `to`.
fn entries_in(next: &[u32], base: usize, from: usize, to: usize, width: usize) -> u64
    requires { EntriesRoom next.now base from to width }
    ensures { result ≡ entries_in base next.now from to width }
{
    let start = start_of(next, base, from);
    let end = start_of(next, base, to);
    ((end - start) / width) as u64
}

// A start and a count, from `at` on: the entries of the bins from `from` up to `to`, in the table whose first bin is `first`.
fn lay_part(
    out: &mut [u64],
    next: &[u32],
    base: usize,
    at: usize,
    first: usize,
    from: usize,
    to: usize,
    width: usize,
)
    requires { PartRoom out.old next.now base at first from to width }
    ensures { PartLaid out.old out.new next.now base at first from to width }
{
    out[at] = entries_in(next, base, first, from, width);
    out[at + 1] = entries_in(next, base, from, to, width);
}

// The cells of row i, but for kind, parent and id: entry block, exit block, list, the list's block.
fn lay_row(out: &mut [u64], next: &[u32], n: usize, t: usize, i: usize)
    requires { RowRoom out.old next.now n t i }
    ensures { RowLaid out.old out.new next.now n t i }
{
    let base = 6 + n * 11 + t * 9;
    let at = 6 + i * 11;
    let blocks = n * 2 + t + t;
    let own = blocks + i * 3;
    lay_part(out, next, base, at + 3, blocks, own, own + 1, 4);
    lay_part(out, next, base, at + 5, blocks, own + 1, own + 2, 4);
    lay_part(out, next, base, at + 7, 0, i * 2, i * 2 + 2, 1);
    lay_part(out, next, base, at + 9, blocks, own + 2, own + 3, 4);
}

// Where the lists and blocks of all rows stand.
fn row_cells(out: &mut [u64], next: &[u32], n: usize, t: usize)
    requires { CellsRoom out.old next.now n t }
    ensures { RowsLaid out.old out.new next.now n t }
{
    for i in 0..n {
        lay_row(out, next, n, t, i);
    }
}

// The cells of transition r, but for source, condition and type: descriptors, targets, block.
fn lay_transition(out: &mut [u64], next: &[u32], n: usize, t: usize, r: usize)
    requires { TransitionRoom out.old next.now n t r }
    ensures { TransitionLaid out.old out.new next.now n t r }
{
    let base = 6 + n * 11 + t * 9;
    let at = 6 + n * 11 + r * 9;
    let targets = n * 2 + r;
    let descriptors = n * 2 + t;
    let blocks = descriptors + t;
    let own = blocks + n * 3 + r;
    lay_part(
        out,
        next,
        base,
        at + 1,
        descriptors,
        descriptors + r,
        descriptors + r + 1,
        1,
    );
    lay_part(out, next, base, at + 5, 0, targets, targets + 1, 1);
    lay_part(out, next, base, at + 7, blocks, own, own + 1, 4);
}

// Where the lists and blocks of all transitions stand.
fn transition_cells(out: &mut [u64], next: &[u32], n: usize, t: usize)
    requires { CellsRoom out.old next.now n t }
    ensures { TransitionsLaid out.old out.new next.now n t }
{
    for r in 0..t {
        lay_transition(out, next, n, t, r);
    }
}

// The six counts, of so many names.
fn lay_header(out: &mut [u64], next: &[u32], n: usize, t: usize, names: usize)
    requires { CellsRoom out.old next.now n t }
    ensures { HeaderLaid out.old out.new next.now n t names }
{
    let base = 6 + n * 11 + t * 9;
    let descriptors = n * 2 + t;
    let blocks = descriptors + t;
    let bins = blocks + n * 3 + t;
    out[0] = n as u64;
    out[1] = t as u64;
    out[2] = entries_in(next, base, 0, descriptors, 1);
    out[3] = entries_in(next, base, descriptors, blocks, 1);
    out[4] = entries_in(next, base, blocks, bins, 4);
    out[5] = names as u64;
}

// Header, rows and transitions, but for the cells that a tag says by itself: kind, parent and id of a row, source, condition and type of a transition.
pub fn lay_cells(out: &mut [u64], next: &[u32], n: usize, t: usize, names: usize)
    requires { CellsRoom out.old next.now n t }
    ensures { CellsLaid out.old out.new next.now n t names }
{
    row_cells(out, next, n, t);
    transition_cells(out, next, n, t);
    lay_header(out, next, n, t, names);
}
