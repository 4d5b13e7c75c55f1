// From a text to its tables in a work place.
ghost use Rattle.read_text.specs.Tabled.{TabledRoom, TabledAs};

use crate::fill::lay_tables;
use crate::refused::Refusal;
use crate::survey::survey;

// How many numbers the tables have, and how many names.
#[derive(Clone, Copy)]
pub struct Tabled {
    pub size: usize,
    pub slots: usize,
}

// The tables of the text at the beginning of the work place and its name slots noted, or why it has none.
pub fn lay_text(
    text: &[u8],
    levels: &mut [u8],
    ids: &mut [u16],
    names: &mut [u16],
    spots: &mut [u16],
    noted: &mut [u16],
    next: &mut [u32],
    ranks: &mut [u16],
    work: &mut [u64],
) -> Result<Tabled, Refusal>
    requires { TabledRoom text.now levels.old ids.old names.old spots.old noted.old next.old ranks.old work.old }
    ensures { TabledAs text.now names.new work.new result }
{
    let plan = survey(text, levels, ids, names, spots, noted, next, ranks)?;
    let size = lay_tables(text, levels, spots, ids, names, ranks, work, next, plan)?;
    Ok(Tabled {
        size,
        slots: plan.slots,
    })
}
