// The names of a value as items: each by its place among the ids or the slots.
ghost use Rattle.walks.specs.Filed.{one, FiledBy};
ghost use Rattle.walks.specs.Names.{numbered, NameRoom, names_items, NamesRoom};
ghost use Rattle.values.specs.Ids.{ids_from};

use crate::filed::file_item;
use crate::plan::Pass;
use scan::is_space;
use values::item_end;
use values::noted::place_of;

// The bins and the pass; the key of the items; what is added to a place, 1 for rows, of which the first has no id.
#[derive(Clone, Copy)]
pub struct Filing {
    pub bins: usize,
    pub pass: Pass,
    pub key: usize,
    pub shift: usize,
}

fn file_name(
    text: &[u8],
    names: &[u16],
    n: usize,
    name: &[u8],
    out: &mut [u64],
    next: &mut [u32],
    f: Filing,
)
    requires { NameRoom text.now names.now n name.now out.old next.old f }
    ensures { FiledBy f.bins f.pass out.old out.new next.old next.new (one f.key (numbered (ids_from text.now names.now n 0) f.shift name.now)) }
{
    let number = place_of(text, names, n, name) + f.shift;
    file_item(out, next, f.bins, f.pass, f.key, number as u64);
}

// All names of the value.
pub fn file_names(
    text: &[u8],
    names: &[u16],
    n: usize,
    value: &[u8],
    out: &mut [u64],
    next: &mut [u32],
    f: Filing,
)
    requires { NamesRoom text.now names.now n value.now out.old next.old f }
    ensures { FiledBy f.bins f.pass out.old out.new next.old next.new (names_items f.key f.shift (ids_from text.now names.now n 0) value.now) }
{
    let mut i = 0;
    // Kept: no `for` is plainer, since a turn goes over a space or over a whole name.
    while i < value.len() {
        let space = is_space(value[i]);
        if space {
            i += 1;
            continue;
        }
        let j = item_end(value, i);
        file_name(text, names, n, &value[i..j], out, next, f);
        i = j;
    }
}
