// The walk that lays the cells of rows and transitions that only their tags know: kind, parent and id of a row, source, condition and type of a transition.
ghost use Rattle.walks.specs.Plan.{HeadRoom, HeadsLaid};
ghost use Rattle.walks.specs.Counts.{CountRoom};
ghost use Rattle.walks.specs.Heads.{TagHeadRoom, RowLaid, TransitionLaid, SaidLaid, TagLaid};

use crate::head_cells::{condition_at, id_at, internal_at, kind_at};
use crate::item_walk::{TagAt, element_of, shape_of};
use crate::keys::rank_of;
use crate::plan::Plan;
use crate::said::{begin_turn, said_in};
use crate::sources::{Counts, counted};
use facts::Said;
use marks::is_mark;
use turns::next_turn;

// What a tag says, with its element, and how many rows and transitions stand before it.
#[derive(Clone, Copy)]
pub struct HeadAt {
    pub said: Said,
    pub element: u8,
    pub rows: usize,
    pub transitions: usize,
}

// The row i, if it is one of the tables.
fn lay_row(
    text: &[u8],
    cells: &[u16],
    ids: &[u16],
    slots: &[u16],
    out: &mut [u64],
    p: Plan,
    i: usize,
    parent: usize,
    element: u8,
)
    requires { TagHeadRoom text.now cells.now ids.now slots.now out.old p }
    ensures { RowLaid text.now cells.now slots.now out.old out.new p i parent element }
{
    let n = p.rows;
    let names = p.slots;
    if n <= i {
        return;
    }
    let at = 6 + i * 11;
    out[at] = kind_at(text, cells, element);
    out[at + 1] = parent as u64;
    out[at + 2] = id_at(text, cells, slots, names);
}

// The transition of a number in the text, if it is one of the tables.
fn lay_transition(
    text: &[u8],
    cells: &[u16],
    ids: &[u16],
    slots: &[u16],
    ranks: &[u16],
    out: &mut [u64],
    p: Plan,
    m: usize,
    source: usize,
)
    requires { TagHeadRoom text.now cells.now ids.now slots.now out.old p }
    ensures { TransitionLaid text.now cells.now ids.now ranks.now out.old out.new p m source }
{
    let n = p.rows;
    let t = p.transitions;
    let rows = p.ids;
    let r = rank_of(ranks, m);
    if t <= r {
        return;
    }
    let at = 6 + n * 11 + r * 9;
    out[at] = source as u64;
    out[at + 3] = condition_at(text, cells, ids, rows);
    out[at + 4] = internal_at(text, cells);
}

fn lay_said(
    text: &[u8],
    cells: &[u16],
    ids: &[u16],
    slots: &[u16],
    ranks: &[u16],
    out: &mut [u64],
    p: Plan,
    g: HeadAt,
)
    requires { TagHeadRoom text.now cells.now ids.now slots.now out.old p }
    ensures { SaidLaid text.now cells.now ids.now slots.now ranks.now out.old out.new p g }
{
    let said = g.said;
    let element = g.element;
    let i = g.rows;
    let m = g.transitions;
    match said {
        Said::Nothing => {}
        Said::Row(q) => lay_row(text, cells, ids, slots, out, p, i, q, element),
        Said::List(j) => {}
        Said::Transition(s) => lay_transition(text, cells, ids, slots, ranks, out, p, m, s),
        Said::Action(b, o) => {}
    }
}

// The cells of a tag. How many rows and transitions there are then.
fn lay_tag(
    text: &[u8],
    cells: &[u16],
    ids: &[u16],
    slots: &[u16],
    ranks: &[u16],
    out: &mut [u64],
    p: Plan,
    g: TagAt,
) -> Counts
    requires { TagHeadRoom text.now cells.now ids.now slots.now out.old p × CountRoom g.counts }
    ensures { TagLaid text.now cells.now ids.now slots.now ranks.now out.old out.new p g result }
{
    let spot = g.spot;
    let shape = g.shape;
    let element = g.element;
    let c = g.counts;
    let said = said_in(cells, spot, shape, element);
    let h = HeadAt {
        said,
        element,
        rows: c.rows,
        transitions: c.transitions,
    };
    lay_said(text, cells, ids, slots, ranks, out, p, h);
    counted(c, said)
}

// The first cells of all rows and transitions.
pub fn lay_heads(
    text: &[u8],
    levels: &mut [u8],
    spots: &mut [u16],
    ids: &[u16],
    slots: &[u16],
    ranks: &[u16],
    out: &mut [u64],
    p: Plan,
)
    requires { HeadRoom text.now levels.old spots.old ids.now slots.now ranks.now out.old p }
    ensures { HeadsLaid text.now levels.new spots.new ranks.now out.old out.new p }
{
    let mut cells = [0u16; 22];
    let mut t = begin_turn();
    let mut c = Counts {
        rows: 0,
        transitions: 0,
    };
    // Kept: each turn goes on from the one before and writes the places that it reads, which no `for` does.
    loop {
        let turn = next_turn(text, levels, &mut cells, spots, t);
        let walk = turn.walk;
        let m = walk.mark;
        let found = is_mark(m);
        if !found {
            return;
        }
        let spot = turn.spot;
        let g = TagAt {
            spot,
            shape: shape_of(m),
            element: element_of(m),
            counts: c,
        };
        c = lay_tag(text, &cells, ids, slots, ranks, out, p, g);
        t = turn;
    }
}
