// Tables that stand in a work place, judged by rules 1 to 5 and handed out.
ghost use Rattle.std.specs.Prelude.{◌≡◌};
ghost use Rattle.reading.specs.Calls.{call_of};
ghost use Rattle.read_text.specs.Outcome.{refused, outcome_of};
ghost use Rattle.read_text.specs.Hand.{HandRoom};

use answers::answer_number;
use lay::copy_first;
use lay::name_slots::lay_names;
use rules::keeps_rules;

// The answer, the offset of a fault, and how many numbers and bytes the tables have.
#[derive(Clone, Copy)]
pub struct Read {
    pub answer: u32,
    pub offset: usize,
    pub cells: usize,
    pub bytes: usize,
}

// A refusal leaves the places as they were.
pub fn refusal(answer: u32, offset: usize) -> Read
    ensures { result ≡ refused answer offset }
{
    Read {
        answer: answer,
        offset: offset,
        cells: 0,
        bytes: 0,
    }
}

// The first `size` numbers of the work place are the tables of the text; their m names are laid here.
pub fn hand_out(
    text: &[u8],
    slots: &[u16],
    m: usize,
    work: &[u64],
    size: usize,
    names: &mut [u8],
    place: &mut [u64],
    name_place: &mut [u8],
) -> Read
    requires { HandRoom text.now slots.now m work.now size names.old }
    ensures { outcome_of result place.new name_place.new ≡ call_of text.now place.old name_place.old }
{
    let bytes = m * 64;
    if place.len() < size {
        return refusal(1, 0);
    }
    if name_place.len() < bytes {
        return refusal(1, 0);
    }
    lay_names(text, slots, m, names);
    let from = 0;
    let answer = answer_number(keeps_rules(&work[from..size], &names[from..bytes]));
    if answer != 0 {
        return refusal(answer, 0);
    }
    copy_first(work, size, place);
    copy_first(names, bytes, name_place);
    Read {
        answer: 0,
        offset: 0,
        cells: size,
        bytes: bytes,
    }
}
