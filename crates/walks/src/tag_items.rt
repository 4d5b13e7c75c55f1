// The items of one tag: its lists by the attributes that state them, its action, and the end of an if.
ghost use Rattle.std.specs.Prelude.{◌≡◌};
ghost use Rattle.items.specs.Items.{bin_count};
ghost use Rattle.values.specs.Ids.{ids_from};
ghost use Rattle.walks.specs.Filed.{FiledBy};
ghost use Rattle.walks.specs.Keys.{Few};
ghost use Rattle.walks.specs.Names.{names_items};
ghost use Rattle.walks.specs.Told.{value_at};
ghost use Rattle.walks.specs.TagItems.{filing_of, ValueRoom, transition_items, TransitionRoom, SaidRoom, SaidFiled, end_items, EndRoom};

use crate::acts::{ActCells, act_cells, file_act};
use crate::keys::{bin_count, block_key};
use crate::name_items::{Filing, file_names};
use crate::plan::Plan;
use facts::{Said, ends_if, part_of};
use tags::{value_from, value_to};
use turns::SpotCells;

// What a tag says, with its element and the keys of its items.
#[derive(Clone, Copy)]
pub struct Tag {
    pub said: Said,
    pub element: u8,
    pub key: usize,
    pub other: usize,
}

fn filing(p: Plan, key: usize, shift: usize) -> Filing
    requires { Few p.rows p.transitions }
    ensures { result ≡ filing_of p key shift }
{
    Filing {
        bins: bin_count(p.rows, p.transitions),
        pass: p.pass,
        key,
        shift,
    }
}

// The names of an attribute's value.
fn file_value(
    text: &[u8],
    cells: &[u16],
    names: &[u16],
    n: usize,
    word: usize,
    out: &mut [u64],
    next: &mut [u32],
    f: Filing,
)
    requires { ValueRoom text.now cells.now names.now n word out.old next.old f }
    ensures { FiledBy f.bins f.pass out.old out.new next.old next.new (names_items f.key f.shift (ids_from text.now names.now n 0) (value_at text.now cells.now word)) }
{
    let from = value_from(cells, word);
    let to = value_to(cells, word);
    file_names(text, names, n, &text[from..to], out, next, f);
}

// The targets of a transition, then its descriptors.
fn file_transition(
    text: &[u8],
    cells: &[u16],
    ids: &[u16],
    slots: &[u16],
    out: &mut [u64],
    next: &mut [u32],
    p: Plan,
    key: usize,
    other: usize,
)
    requires { TransitionRoom text.now cells.now ids.now slots.now out.old next.old p key other }
    ensures { FiledBy (bin_count p.rows p.transitions) p.pass out.old out.new next.old next.new (transition_items text.now cells.now ids.now slots.now p key other) }
{
    let rows = p.ids;
    let names = p.slots;
    let targets = filing(p, key, 1);
    let descriptors = filing(p, other, 0);
    file_value(text, cells, ids, rows, 31, out, next, targets);
    file_value(text, cells, slots, names, 29, out, next, descriptors);
}

// All items of what the tag says.
pub fn file_said(
    text: &[u8],
    cells: &[u16],
    ids: &[u16],
    slots: &[u16],
    out: &mut [u64],
    next: &mut [u32],
    p: Plan,
    g: Tag,
)
    requires { SaidRoom text.now cells.now ids.now slots.now out.old next.old p g }
    ensures { SaidFiled text.now cells.now ids.now slots.now out.old out.new next.old next.new p g }
{
    let said = g.said;
    let key = g.key;
    let other = g.other;
    let element = g.element;
    let rows = p.ids;
    let references = filing(p, key, 1);
    match said {
        Said::Nothing => {}
        Said::Row(q) => file_value(text, cells, ids, rows, 27, out, next, references),
        Said::List(i) => file_value(text, cells, ids, rows, 31, out, next, references),
        Said::Transition(i) => file_transition(text, cells, ids, slots, out, next, p, key, other),
        Said::Action(b, o) => {
            let a = act_cells(text, cells, ids, slots, p, element);
            file_act(out, next, references, a)
        }
    }
}

// The end of an if, if the tag ends one.
pub fn file_end(
    ranks: &[u16],
    out: &mut [u64],
    next: &mut [u32],
    p: Plan,
    spot: SpotCells,
    shape: u8,
    element: u8,
)
    requires { EndRoom ranks.now out.old next.old p spot shape element }
    ensures { FiledBy (bin_count p.rows p.transitions) p.pass out.old out.new next.old next.new (end_items p.rows p.transitions ranks.now spot shape element) }
{
    let ended = ends_if(shape, element);
    if ended {
        let n = p.rows;
        let t = p.transitions;
        let what = spot.what;
        let owner = spot.number;
        let key = block_key(ranks, n, t, part_of(what), owner);
        let f = filing(p, key, 0);
        let end = ActCells {
            what: 5,
            first: 0,
            second: 0,
            third: 0,
        };
        file_act(out, next, f, end);
    }
}
