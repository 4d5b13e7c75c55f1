// The numbers by which the tables are read, each a type of its own, so that none stands where another is wanted.
#![tactic(auto)]

ghost use Rattle.std.specs.Prelude.{◌≡◌, ◌+◌};
ghost use Rattle.numbers.specs.Numbers.{row_no, transition_no, name_no};

// A row's number. There are at most 256 rows.
#[derive(Clone, Copy, PartialEq, Eq)]
pub struct Row(pub u8);

#[derive(Clone, Copy, PartialEq, Eq)]
pub struct Transition(pub u16);

// The number of a name in the table of names.
#[derive(Clone, Copy, PartialEq, Eq)]
pub struct NameNumber(pub u16);

// As indices: each of these takes numbers of its own kind alone, where a conversion takes any.
pub fn row_index(r: Row) -> usize
    ensures { result ≡ row_no r }
{
    usize::from(r)
}

pub fn transition_index(t: Transition) -> usize
    ensures { result ≡ transition_no t }
{
    usize::from(t)
}

pub fn name_index(n: NameNumber) -> usize
    ensures { result ≡ name_no n }
{
    usize::from(n)
}

// The number after a row's: where the search for the next row starts.
pub fn row_after(r: Row) -> u16
    ensures { result ≡ r.0 + 1 }
{
    u16::from(r.0) + 1
}

impl From<Row> for usize {
    ghost use Rattle.std.specs.Prelude.{◌≡◌};
    ghost use Rattle.numbers.specs.Numbers.{row_no};

    ghost from_gives = { λ x n. n ≡ row_no x };

    fn from(r: Row) -> usize {
        usize::from(r.0)
    }
}

impl From<Transition> for usize {
    ghost use Rattle.std.specs.Prelude.{◌≡◌};
    ghost use Rattle.numbers.specs.Numbers.{transition_no};

    ghost from_gives = { λ x n. n ≡ transition_no x };

    fn from(t: Transition) -> usize {
        usize::from(t.0)
    }
}

impl From<NameNumber> for usize {
    ghost use Rattle.std.specs.Prelude.{◌≡◌};
    ghost use Rattle.numbers.specs.Numbers.{name_no};

    ghost from_gives = { λ x n. n ≡ name_no x };

    fn from(n: NameNumber) -> usize {
        usize::from(n.0)
    }
}
