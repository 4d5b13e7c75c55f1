// A text read into two lent places (R-1): 12 with the offset of the first fault, 1 to 5, or 0 with the tables. The definition of the whole call is `call_of` of crate reading.
#![tactic(auto)]

ghost use Rattle.std.specs.Prelude.{◌≡◌, length};
ghost use Rattle.reading.specs.Calls.{call_of};
ghost use Rattle.read_text.specs.Outcome.{outcome_of};
ghost use Rattle.read_text.specs.Whole.{places_fit, ReadRoom, read_with, WorkKept};

use crate::hand_out::{Read, hand_out, refusal};
use crate::refused::Refusal;
use crate::tabled::lay_text;

pub mod fill;
pub mod hand_out;
pub mod number;
pub mod refused;
pub mod survey;
pub mod tabled;

// What a call with work places of other lengths gets: no number of document 01 or of a later request, and nothing is written, in the work places neither.
pub const NO_WORK_PLACE: u32 = 199;

fn are_places(
    work: usize,
    name_work: usize,
    ids: usize,
    spots: usize,
    noted: usize,
    ranks: usize,
) -> bool
    ensures { result ≡ places_fit work name_work ids spots noted ranks }
{
    (work == 27756)
        & (name_work == 49152)
        & (ids == 24434)
        & (spots == 16388)
        & (noted == 2913)
        & (ranks == 2913)
}

fn read_in(
    text: &[u8],
    place: &mut [u64],
    name_place: &mut [u8],
    work: &mut [u64],
    name_work: &mut [u8],
    ids: &mut [u16],
    spots: &mut [u16],
    noted: &mut [u16],
    ranks: &mut [u16],
) -> Read
    requires { ReadRoom (length work.old) (length name_work.old) (length ids.old) (length spots.old) (length noted.old) (length ranks.old) }
    ensures { outcome_of result place.new name_place.new ≡ call_of text.now place.old name_place.old }
{
    let mut levels = [0u8; 32768];
    let mut names = [0u16; 4864];
    let mut next = [0u32; 2816];
    let tabled = lay_text(
        text,
        &mut levels,
        ids,
        &mut names,
        spots,
        noted,
        &mut next,
        ranks,
        work,
    );
    match tabled {
        Err(Refusal::Faulty(at)) => refusal(12, at),
        Err(Refusal::Many) => refusal(1, 0),
        Ok(t) => hand_out(
            text, &names, t.slots, work, t.size, name_work, place, name_place,
        ),
    }
}

// The text into the two places, with work places lent: 27,756 numbers and 49,152 bytes for the tables, 24,434 numbers for ids, 16,388 for the spots that tags stand in,
// 2,913 each for the sources and the numbers of transitions.
pub fn read_with(
    text: &[u8],
    place: &mut [u64],
    name_place: &mut [u8],
    work: &mut [u64],
    name_work: &mut [u8],
    ids: &mut [u16],
    spots: &mut [u16],
    noted: &mut [u16],
    ranks: &mut [u16],
) -> Read
    ensures { (outcome_of result place.new name_place.new ≡ read_with (places_fit (length work.old) (length name_work.old) (length ids.old) (length spots.old) (length noted.old) (length ranks.old)) text.now place.old name_place.old) × WorkKept (places_fit (length work.old) (length name_work.old) (length ids.old) (length spots.old) (length noted.old) (length ranks.old)) work.old name_work.old ids.old spots.old noted.old ranks.old work.new name_work.new ids.new spots.new noted.new ranks.new }
{
    let fit = are_places(
        work.len(),
        name_work.len(),
        ids.len(),
        spots.len(),
        noted.len(),
        ranks.len(),
    );
    if !fit {
        return refusal(NO_WORK_PLACE, 0);
    }
    read_in(
        text, place, name_place, work, name_work, ids, spots, noted, ranks,
    )
}

// The text into the two places.
pub fn read(text: &[u8], place: &mut [u64], name_place: &mut [u8]) -> Read
    ensures { outcome_of result place.new name_place.new ≡ call_of text.now place.old name_place.old }
{
    let mut work = [0u64; 27756];
    let mut name_work = [0u8; 49152];
    let mut ids = [0u16; 24434];
    let mut spots = [0u16; 16388];
    let mut noted = [0u16; 2913];
    let mut ranks = [0u16; 2913];
    read_in(
        text,
        place,
        name_place,
        &mut work,
        &mut name_work,
        &mut ids,
        &mut spots,
        &mut noted,
        &mut ranks,
    )
}
