// The tables of a text laid in a work place: the cells of all lists and blocks are counted, the counts held against rule 1, and then each cell has its place.
ghost use Rattle.read_text.specs.Count.{FillRoom, CountedAs};
ghost use Rattle.read_text.specs.Fill.{FillReady, FilledAs, LaidAs};

use crate::refused::Refusal;
use bins::starts;
use cells::lay_cells;
use cells::totals::is_within;
use items::clear;
use walks::heads::lay_heads;
use walks::item_walk::file_items;
use walks::plan::{Pass, Plan};

// The bins of all lists and blocks begin where the counts say: how many numbers the tables have, or more than rule 1 allows.
fn count_tables(
    text: &[u8],
    levels: &mut [u8],
    spots: &mut [u16],
    ids: &[u16],
    names: &[u16],
    ranks: &[u16],
    work: &mut [u64],
    next: &mut [u32],
    p: Plan,
) -> Result<usize, Refusal>
    requires { FillRoom text.now levels.old spots.old ids.now names.now ranks.now work.old next.old p }
    ensures { CountedAs text.now ranks.now next.new p result }
{
    let n = p.rows;
    let t = p.transitions;
    let bins = n * 2 + t + t + n * 3 + t;
    clear(next, bins);
    let counting = Plan {
        pass: Pass::Count,
        ..p
    };
    file_items(text, levels, spots, ids, names, ranks, work, next, counting);
    let within = is_within(next, n, t);
    if !within {
        return Err(Refusal::Many);
    }
    let base = (6 + n * 11 + t * 9) as u32;
    let end = starts(next, bins, base);
    Ok(end as usize)
}

// All cells at their places.
fn fill_tables(
    text: &[u8],
    levels: &mut [u8],
    spots: &mut [u16],
    ids: &[u16],
    names: &[u16],
    ranks: &[u16],
    work: &mut [u64],
    next: &mut [u32],
    p: Plan,
)
    requires { FillReady text.now levels.old spots.old ids.now names.now ranks.now work.old next.old p }
    ensures { FilledAs text.now ranks.now work.new p }
{
    let n = p.rows;
    let t = p.transitions;
    let m = p.slots;
    let filling = Plan {
        pass: Pass::Fill,
        ..p
    };
    file_items(text, levels, spots, ids, names, ranks, work, next, filling);
    lay_heads(text, levels, spots, ids, names, ranks, work, filling);
    lay_cells(work, next, n, t, m);
}

// The tables of the text at the beginning of the work place, and how many numbers they have; or more than rule 1 allows.
pub fn lay_tables(
    text: &[u8],
    levels: &mut [u8],
    spots: &mut [u16],
    ids: &[u16],
    names: &[u16],
    ranks: &[u16],
    work: &mut [u64],
    next: &mut [u32],
    p: Plan,
) -> Result<usize, Refusal>
    requires { FillRoom text.now levels.old spots.old ids.now names.now ranks.now work.old next.old p }
    ensures { LaidAs text.now work.new result }
{
    let size = count_tables(text, levels, spots, ids, names, ranks, work, next, p)?;
    fill_tables(text, levels, spots, ids, names, ranks, work, next, p);
    Ok(size)
}
