// What is known of a text before its tables are laid: its first fault, or its ids, its name slots and how many rows and transitions it has.
ghost use Rattle.read_text.specs.Survey.{SurveyRoom, SurveyedAs};

use crate::number::number;
use crate::refused::Refusal;
use reader::judge;
use slots::gather_slots;
use walks::plan::{Pass, Plan};

// The plan of the tables of the text, or why it has none.
pub fn survey(
    text: &[u8],
    levels: &mut [u8],
    ids: &mut [u16],
    names: &mut [u16],
    spots: &mut [u16],
    noted: &mut [u16],
    next: &mut [u32],
    ranks: &mut [u16],
) -> Result<Plan, Refusal>
    requires { SurveyRoom text.now levels.old ids.old names.old spots.old noted.old next.old ranks.old }
    ensures { SurveyedAs text.now ids.new names.new ranks.new result }
{
    let i = judge(text, levels, ids)?;
    let m = gather_slots(text, levels, names)?;
    let counts = number(text, levels, spots, noted, next, ranks)?;
    Ok(Plan {
        rows: counts.rows,
        transitions: counts.transitions,
        ids: i,
        slots: m,
        pass: Pass::Count,
    })
}
