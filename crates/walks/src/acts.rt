// Actions as the four cells that the tables have of each.
ghost use Rattle.std.specs.Prelude.{◌≡◌};
ghost use Rattle.items.specs.Items.{under};
ghost use Rattle.walks.specs.Filed.{FiledBy};
ghost use Rattle.walks.specs.Acts.{with_first, four_of, ActRoom, ActIs, FileActRoom};

use crate::filed::file_item;
use crate::name_items::Filing;
use crate::plan::Plan;
use crate::told::{decimal_at, place_at, place_or_none, row_at};

#[derive(Clone, Copy)]
pub struct ActCells {
    pub what: u64,
    pub first: u64,
    pub second: u64,
    pub third: u64,
}

// An action with one name, number or row at most.
fn with_first(what: u64, first: u64) -> ActCells
    ensures { result ≡ with_first what first }
{
    ActCells {
        what,
        first,
        second: 0,
        third: 0,
    }
}

// The action that a tag of the element says: raise 9, log 10, if 12, else 13, elseif 14, send 15, or cancel.
pub fn act_cells(
    text: &[u8],
    cells: &[u16],
    ids: &[u16],
    slots: &[u16],
    p: Plan,
    element: u8,
) -> ActCells
    requires { ActRoom text.now cells.now ids.now slots.now p }
    ensures { ActIs text.now cells.now ids.now slots.now p element result }
{
    let rows = p.ids;
    let names = p.slots;
    if element == 9 {
        return with_first(0, place_at(text, cells, slots, names, 29));
    }
    if element == 10 {
        return with_first(1, decimal_at(text, cells, 32, 65535));
    }
    if element == 12 {
        return with_first(2, row_at(text, cells, ids, rows));
    }
    if element == 14 {
        return with_first(3, row_at(text, cells, ids, rows));
    }
    if element == 13 {
        return with_first(4, 0);
    }
    if element == 15 {
        let event = place_at(text, cells, slots, names, 29);
        let delay = decimal_at(text, cells, 33, 4294967295);
        let id = place_or_none(text, cells, slots, names, 26);
        return ActCells {
            what: 6,
            first: event,
            second: delay,
            third: id,
        };
    }
    with_first(7, place_at(text, cells, slots, names, 34))
}

// The four cells as items under the key.
pub fn file_act(out: &mut [u64], next: &mut [u32], f: Filing, a: ActCells)
    requires { FileActRoom out.old next.old f a }
    ensures { FiledBy f.bins f.pass out.old out.new next.old next.new (under f.key (four_of a)) }
{
    file_item(out, next, f.bins, f.pass, f.key, a.what);
    file_item(out, next, f.bins, f.pass, f.key, a.first);
    file_item(out, next, f.bins, f.pass, f.key, a.second);
    file_item(out, next, f.bins, f.pass, f.key, a.third);
}
