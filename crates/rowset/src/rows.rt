// The rows of a set one by one, upward and downward.
ghost use Rattle.std.specs.Prelude.{◌≡◌};

use crate::RowSet;
use numbers::{Row, row_after};

// The rows of a set from a number on, upward.
#[derive(Clone, Copy)]
pub struct Rows {
    pub set: RowSet,
    pub at: u16,
}

impl Iterator for Rows {
    type Item = Row;

    ghost use Rattle.std.specs.Prelude.{◌-◌};
    ghost use Rattle.std.specs.Iterator.{at_most};
    ghost use Rattle.rowset.specs.Iterating.{Ascends};

    ghost next_gives = { Ascends };

    ghost remaining = { λ s. at_most (256 - s.at) };

    fn next(&mut self) -> Option<Row> {
        let r = self.set.next_from(self.at)?;
        self.at = row_after(r);
        Some(r)
    }
}

// The rows of a set below a number, downward.
#[derive(Clone, Copy)]
pub struct RowsDown {
    pub set: RowSet,
    pub below: u16,
}

impl Iterator for RowsDown {
    type Item = Row;

    ghost use Rattle.std.specs.Iterator.{at_most};
    ghost use Rattle.rowset.specs.Iterating.{Descends};

    ghost next_gives = { Descends };

    ghost remaining = { λ s. at_most s.below };

    fn next(&mut self) -> Option<Row> {
        let r = self.set.prev_below(self.below)?;
        self.below = u16::from(r.0);
        Some(r)
    }
}
