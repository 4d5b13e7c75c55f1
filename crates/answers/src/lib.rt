// Answers and statuses in the numbers of document 01.
#![tactic(auto)]

ghost use Rattle.std.specs.Prelude.{◌≡◌};
ghost use Rattle.definition.specs.Answers.{answer_no, status_no};

use definition::{Answer, Status};

pub fn answer_number(a: Answer) -> u32
    ensures { result ≡ answer_no a }
{
    u32::from(a)
}

pub fn status_number(status: Status) -> u32
    ensures { result ≡ status_no status }
{
    u32::from(status)
}
