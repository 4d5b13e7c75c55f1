// Rows and transitions counted and numbered: "by source row, then by place" (1.18).
ghost use Rattle.read_text.specs.Number.{NumberRoom, NumberedAs};

use crate::refused::Refusal;
use items::rank;
use tables::limits::{MOST_ROWS, MOST_TRANSITIONS};
use walks::sources::{Counts, sources};

// How many rows and transitions the tables have, or there are more than rule 1 allows. The number in the tables of each transition of the text is its rank.
pub fn number(
    text: &[u8],
    levels: &mut [u8],
    spots: &mut [u16],
    noted: &mut [u16],
    next: &mut [u32],
    ranks: &mut [u16],
) -> Result<Counts, Refusal>
    requires { NumberRoom text.now levels.old spots.old noted.old next.old ranks.old }
    ensures { NumberedAs text.now ranks.new result }
{
    let mut cells = [0u16; 22];
    let counts = sources(text, levels, &mut cells, spots, noted);
    let rows = counts.rows;
    let many = counts.transitions;
    if MOST_ROWS < rows as u64 {
        return Err(Refusal::Many);
    }
    let transitions = rank(noted, many, rows, next, ranks);
    if MOST_TRANSITIONS < transitions as u64 {
        return Err(Refusal::Many);
    }
    Ok(Counts { rows, transitions })
}
