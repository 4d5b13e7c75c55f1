// Why a text has no tables.
ghost use Rattle.std.specs.Prelude.{◌≡◌};
ghost use Rattle.read_text.specs.declared.refused.Refusal.TheVariants.{Faulty, Many};

use markup::Fault;
use slots::TooMany;

// The offset of the first fault; or there is none and the text has more than rule 1 allows.
#[derive(Clone, Copy, PartialEq, Eq)]
pub enum Refusal {
    Faulty(usize),
    Many,
}

impl From<Fault> for Refusal {
    ghost from_gives = { λ fault r. r ≡ Faulty fault.at };

    fn from(fault: Fault) -> Refusal {
        Refusal::Faulty(fault.at)
    }
}

impl From<TooMany> for Refusal {
    ghost from_gives = { λ _ r. r ≡ Many };

    fn from(_many: TooMany) -> Refusal {
        Refusal::Many
    }
}
