// A chart written back as text (R-4): 1 to 5, 13, or 0 and the text at the buffer's beginning. The definition of the whole call is `call_of` of crate writing.
#![tactic(auto)]

ghost use Rattle.std.specs.Prelude.{◌≡◌};
ghost use Rattle.writing.specs.Calls.{call_of};
ghost use Rattle.write_text.specs.Whole.{outcome_of, Answers};

use crate::rows::lay_rows;
use answers::answer_number;
use rules::keeps_rules;
use spell::parts::LONGEST;

pub mod ends;
pub mod inner;
pub mod rows;
pub mod runs;

// "new refusal 13" (4.7)
const LONG_TEXT: u32 = 13;

// The answer, and the length of the text: with 13, that of a buffer that it would fit, if there is one.
#[derive(Clone, Copy)]
pub struct Written {
    pub answer: u32,
    pub length: usize,
}

fn result(answer: u32, length: usize) -> Written
    ensures { Answers result answer length }
{
    Written {
        answer: answer,
        length: length,
    }
}

// The text is laid over nothing first, which measures it: a buffer that it does not fit is left as it was.
pub fn write(numbers: &[u64], names: &[u8], buffer: &mut [u8]) -> Written
    ensures { outcome_of result buffer.new ≡ call_of numbers.now names.now buffer.old }
{
    let answer = answer_number(keeps_rules(numbers, names));
    if answer != 0 {
        return result(answer, 0);
    }
    let mut nothing = [0u8; 0];
    let length = lay_rows(numbers, names, &mut nothing);
    if LONGEST < length {
        return result(LONG_TEXT, 0);
    }
    if buffer.len() < length {
        return result(LONG_TEXT, length);
    }
    let end = lay_rows(numbers, names, buffer);
    result(0, end)
}
