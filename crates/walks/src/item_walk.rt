// The walk that counts the cells of the tables' lists and blocks, or lays them out.
ghost use Rattle.std.specs.Prelude.{◌≡◌};
ghost use Rattle.walks.specs.Plan.{FileRoom, FiledAll};
ghost use Rattle.walks.specs.Tags.{shape_in, element_in, TagRoom, TagFiled};

use crate::keys::keys_of;
use crate::plan::Plan;
use crate::said::{begin_turn, said_in};
use crate::sources::{Counts, counted};
use crate::tag_items::{Tag, file_end, file_said};
use marks::{Mark, is_mark};
use turns::{SpotCells, next_turn};

// A tag, the spot that it stands in, and how many rows and transitions stand before it.
#[derive(Clone, Copy)]
pub struct TagAt {
    pub spot: SpotCells,
    pub shape: u8,
    pub element: u8,
    pub counts: Counts,
}

// The shape of the tag that a mark ends.
pub fn shape_of(m: Mark) -> u8
    ensures { result ≡ shape_in m }
{
    match m {
        Mark::Nothing => 2,
        Mark::Valued(e, w, a, b) => 2,
        Mark::Tagged(a, s, e) => s,
    }
}

pub fn element_of(m: Mark) -> u8
    ensures { result ≡ element_in m }
{
    match m {
        Mark::Nothing => 0,
        Mark::Valued(e, w, a, b) => 0,
        Mark::Tagged(a, s, e) => e,
    }
}

// The items of a tag. How many rows and transitions there are then.
fn file_tag(
    text: &[u8],
    cells: &[u16],
    ids: &[u16],
    slots: &[u16],
    ranks: &[u16],
    out: &mut [u64],
    next: &mut [u32],
    p: Plan,
    g: TagAt,
) -> Counts
    requires { TagRoom text.now cells.now ids.now slots.now ranks.now out.old next.old p g }
    ensures { TagFiled text.now cells.now ids.now slots.now ranks.now out.old out.new next.old next.new p g result }
{
    let spot = g.spot;
    let shape = g.shape;
    let element = g.element;
    let c = g.counts;
    let said = said_in(cells, spot, shape, element);
    let keys = keys_of(ranks, p, c, said);
    let tag = Tag {
        said,
        element,
        key: keys.key,
        other: keys.other,
    };
    file_said(text, cells, ids, slots, out, next, p, tag);
    file_end(ranks, out, next, p, spot, shape, element);
    counted(c, said)
}

// All items of the text, counted or laid out.
pub fn file_items(
    text: &[u8],
    levels: &mut [u8],
    spots: &mut [u16],
    ids: &[u16],
    slots: &[u16],
    ranks: &[u16],
    out: &mut [u64],
    next: &mut [u32],
    p: Plan,
)
    requires { FileRoom text.now levels.old spots.old ids.now slots.now ranks.now out.old next.old p }
    ensures { FiledAll text.now levels.new spots.new ranks.now out.new next.new p }
{
    let mut cells = [0u16; 22];
    let mut t = begin_turn();
    let mut c = Counts {
        rows: 0,
        transitions: 0,
    };
    // Kept: each turn goes on from the one before and writes the places that it reads, which no `for` does.
    loop {
        let turn = next_turn(text, levels, &mut cells, spots, t);
        let walk = turn.walk;
        let m = walk.mark;
        let found = is_mark(m);
        if !found {
            return;
        }
        let spot = turn.spot;
        let g = TagAt {
            spot,
            shape: shape_of(m),
            element: element_of(m),
            counts: c,
        };
        c = file_tag(text, &cells, ids, slots, ranks, out, next, p, g);
        t = turn;
    }
}
